//! Objects: patterns together with their codes.
ghost use Rattle.std.specs.Prelude.{◌≡◌, ◌≢◌, ◌≤◌, ◌↔◌, None, Some, IfOk, IsTrue, MatchOption};
ghost use Rattle.life_core.specs.Pattern.{Cells, IsWithin};
ghost use Rattle.life_code.specs.Period.{kind_of, IsSearchable, IsKindOf};
ghost use Rattle.life_code.specs.Codes.{code_of, Same};
ghost use Rattle.life_code.specs.Object.{IsCodeOf};

use crate::codes::code_by_kind;
use crate::kinds::Kind;
use crate::period::{PERIOD_LIMIT, kind};
use life_core::{Fault, Pattern, Rule};
use std::alloc::{Allocator, Global};
use std::marker::Model;

/// A pattern with its code under a rule and a limit on the period. Only [`code`] and [`code_of_kind`] make one, so the
/// code is always right.
#[derive(Debug, Drop)]
pub struct Coded<A: Allocator = Global> {
    rule: Rule,
    pattern: Pattern<A>,
    limit: u32,
    text: Vec<u8, A>,
}

impl<A: Allocator> Model for Coded<A> {
    ghost use Rattle.life_code.specs.Object.{CodedCells, coded_object, IsCoded};

    ghost Value = { CodedCells };

    ghost coded = { coded_object };

    ghost view = { λ c. record { rule = c.rule; cells = c.pattern; limit = c.limit; text = c.text.items } };

    ghost invariant = { λ c. IsCoded (record { rule = c.rule; cells = c.pattern; limit = c.limit; text = c.text.items }) };
}

impl<A: Allocator> Coded<A> {
    /// The code as ASCII, such as `xq4_153`.
    pub fn text(&self) -> &[u8]
        ensures { result.now ≡ self.now.text }
    {
        self.text.as_slice()
    }
}

/// Like [`code`], if the kind under this limit is already known: that saves the search for the period.
pub fn code_of_kind<A: Allocator + Copy>(
    alloc: A,
    rule: &Rule,
    pattern: &Pattern<A>,
    limit: u32,
    kind: Kind,
) -> Result<Option<Coded<A>>, Fault>
    requires { IsKindOf rule.now pattern.now limit kind }
    ensures { IfOk result (IsCodeOf rule.now pattern.now limit) }
{
    match code_by_kind(alloc, rule, pattern, kind)? {
        None => Ok(None),
        Some(text) => Ok(Some(Coded {
            rule: *rule,
            pattern: pattern.copy(alloc)?,
            limit,
            text,
        })),
    }
}

/// The pattern with its code, if it has one. It has none if it is empty, if it doesn't return within the limit, or if
/// no phase fits into 40 by 40 cells.
pub fn code<A: Allocator + Copy>(
    alloc: A,
    rule: &Rule,
    pattern: &Pattern<A>,
    limit: u32,
) -> Result<Option<Coded<A>>, Fault>
    requires { IsSearchable limit pattern.now }
    ensures value { IfOk result (IsCodeOf rule.now pattern.now limit) }
    // All patterns that are one object have the same code, or all lack one.
    ensures object { IfOk result (λ o. (X : Cells) → Same rule.now X pattern.now → MatchOption o (code_of rule.now X limit ≡ None) (λ c. code_of rule.now X limit ≡ Some c.text)) }
{
    let kind = kind(alloc, rule, pattern, limit)?;
    code_of_kind(alloc, rule, pattern, limit, kind)
}

/// Whether the patterns are one object: the rules are equal, and a phase of one, turned, reflected or moved, is the
/// other. The limits don't matter.
pub fn same_object<A: Allocator>(a: &Coded<A>, b: &Coded<A>) -> bool
    ensures { IsTrue result ↔ (a.now.rule ≡ b.now.rule) × Same a.now.rule a.now.cells b.now.cells }
{
    a.rule == b.rule && a.text.as_slice() == b.text.as_slice()
}
