//! The rows of a tally: codes with their counts.
ghost use Rattle.std.specs.Prelude.{◌≡◌, map};
ghost use Rattle.life_census.specs.Rows.{row_seen};

use crate::code_text::CodeText;
use std::alloc::{Allocator, Global};
use std::marker::Model;

/// A code and the number of clusters that have it.
#[derive(Debug, Drop)]
pub struct Row<A: Allocator = Global> {
    pub code: CodeText<A>,
    pub count: u64,
}

/// Rows; a tally has them in the byte order of their codes.
#[derive(Debug, Drop)]
pub struct Rows<A: Allocator = Global> {
    rows: Vec<Row<A>, A>,
}

impl<A: Allocator> Model for Rows<A> {
    ghost use Rattle.std.specs.Prelude.{ℕ, List, map};
    ghost use Rattle.life_census.specs.Rows.{row_seen};

    ghost Value = { List (List ℕ × ℕ) };

    ghost view = { λ t. map row_seen t.rows.items };
}

impl<A: Allocator> Rows<A> {
    /// The caller puts them in order.
    pub fn of(rows: Vec<Row<A>, A>) -> Rows<A>
        ensures { result ≡ map row_seen rows.items }
    {
        Rows { rows }
    }

    /// In the order given to [`of`](Rows::of).
    pub fn as_slice(&self) -> &[Row<A>]
        ensures { map row_seen result.now ≡ self.now }
    {
        self.rows.as_slice()
    }
}

/// A census of one pattern: the rows by code, the number of clusters without a code, and the number of all clusters.
#[derive(Debug, Drop)]
pub struct Tally<A: Allocator = Global> {
    pub rows: Rows<A>,
    pub unresolved: u64,
    pub total: u64,
}

impl<A: Allocator> Model for Tally<A> {
    ghost use Rattle.life_census.specs.Rows.{TallyCounts, coded_counts};

    ghost Value = { TallyCounts };

    ghost coded = { coded_counts };

    ghost view = { λ t. record { rows = t.rows; unresolved = t.unresolved; total = t.total } };
}
