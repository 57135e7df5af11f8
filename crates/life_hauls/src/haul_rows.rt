//! The contents of a haul: codes with their occurrences.
ghost use Rattle.std.specs.Prelude.{◌≡◌, [], None, map};
ghost use Rattle.life_hauls.specs.Hauls.{row_seen};

use life_census::CodeText;
use std::alloc::{Allocator, Global};
use std::marker::Model;

/// The number of clusters, and the least number of a soup with one.
#[derive(Clone, Copy, Debug, PartialEq, Eq)]
pub struct Occurrences {
    pub count: u64,
    pub first: u64,
}

/// A code, with the clusters that have it.
#[derive(Debug, Drop)]
pub struct HaulRow<A: Allocator = Global> {
    pub code: CodeText<A>,
    pub seen: Occurrences,
}

/// The counts over many soups: a row for each code in byte order, the clusters without a code, the number of soups,
/// and the number of all clusters.
#[derive(Debug, Drop)]
pub struct Haul<A: Allocator = Global> {
    pub rows: Vec<HaulRow<A>, A>,
    pub unresolved: Option<Occurrences>,
    pub soups: u64,
    pub total: u64,
}

impl<A: Allocator> Model for Haul<A> {
    ghost use Rattle.std.specs.Prelude.{map};
    ghost use Rattle.life_hauls.specs.Hauls.{HaulCounts, coded_counts, row_seen};

    ghost Value = { HaulCounts };

    ghost coded = { coded_counts };

    ghost view = { λ h. record { rows = map row_seen h.rows.items; unresolved = h.unresolved; soups = h.soups; total = h.total } };
}

impl<A: Allocator> Haul<A> {
    /// A haul over no soups, where counting starts.
    pub(crate) fn none(alloc: A) -> Haul<A>
        ensures { result ≡ record { rows = []; unresolved = None; soups = 0; total = 0 } }
    {
        Haul {
            rows: Vec::new(alloc),
            unresolved: None,
            soups: 0,
            total: 0,
        }
    }
}
