//! The contents of a pattern file.
ghost use Rattle.std.specs.Prelude.{◌≡◌, IfOk};
ghost use Rattle.life_core.specs.Pattern.{IsWithin};
ghost use Rattle.life_rle.specs.Record.{plain};

use crate::text::{Text, Texts};
use life_core::{Fault, Pattern, Rule};
use std::alloc::{Allocator, Global};
use std::marker::Model;

/// A pattern with its rule and its texts. Its cells are normal: their least column and least row are 0. A text has at
/// most 200 bytes, no line feed, and no blank at its ends. A name or an author is never empty, and there are at most 64
/// comments.
#[derive(Debug, Drop)]
pub struct Record<A: Allocator = Global> {
    pub name: Option<Text<A>>,
    pub author: Option<Text<A>>,
    pub comments: Texts<A>,
    pub rule: Rule,
    pub cells: Pattern<A>,
}

impl<A: Allocator> Model for Record<A> {
    ghost use Rattle.life_rle.specs.Record.{Contents, coded_contents, IsRecord};

    ghost Value = { Contents };

    ghost coded = { coded_contents };

    ghost view = { λ r. record { name = r.name; author = r.author; comments = r.comments; rule = r.rule; cells = r.cells } };

    ghost invariant = { λ r. IsRecord (record { name = r.name; author = r.author; comments = r.comments; rule = r.rule; cells = r.cells }) };
}

/// The record of a pattern without texts. It moves the cells so that their least column and row are 0.
pub fn plain<A: Allocator + Copy>(
    alloc: A,
    rule: Rule,
    pattern: &Pattern<A>,
) -> Result<Record<A>, Fault>
    requires { IsWithin 500_000_000 pattern.now }
    ensures { IfOk result (λ r. r ≡ plain rule pattern.now) }
{
    Ok(into_plain(alloc, rule, pattern.copy(alloc)?))
}

/// Does the same as [`plain`] for a pattern passed by value, and reuses its memory.
pub fn into_plain<A: Allocator>(alloc: A, rule: Rule, pattern: Pattern<A>) -> Record<A>
    requires { IsWithin 500_000_000 pattern }
    ensures { result ≡ plain rule pattern }
{
    Record {
        name: None,
        author: None,
        comments: Texts::new(alloc),
        rule,
        cells: pattern.into_normal(),
    }
}
