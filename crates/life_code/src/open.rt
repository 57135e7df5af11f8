//! Opens a code: from a text such as `xq4_153` to its pattern.
ghost use Rattle.std.specs.Prelude.{◌≡◌, ◌≢◌, ◌≤◌, ◌↔◌, Some, IfOk, IfErr, IsTrue, MatchOption};
ghost use Rattle.std.specs.Prelude.{◌==◌};
ghost use Rattle.std.specs.Char.{is_ascii_digit};
ghost use Rattle.std.specs.List.{list_all, position};
ghost use Rattle.life_core.specs.Pattern.{Cells};
ghost use Rattle.life_code.specs.Codes.{code_of};
ghost use Rattle.life_code.specs.Open.{IsPrefix, is_number, IsFront, IsWechsler, Spells, Refuses};

use crate::code_fault::CodeFault;
use crate::codes::{LARGEST_BOX, text_of};
use crate::decode::decoded;
use crate::kinds::Kind;
use crate::object::code_of_kind;
use crate::period::{PERIOD_LIMIT, kind};
use life_core::{Fault, Pattern, Rule};
use std::alloc::{AllocError, Allocator};

fn are_digits(bytes: &[u8]) -> bool
    ensures { result ≡ list_all is_ascii_digit bytes.now }
{
    bytes.iter().all(|b| b.is_ascii_digit())
}

/// One to six digits without a leading 0. Six are enough: a population is at most 1600, and a period at most 2048.
fn is_number(bytes: &[u8]) -> bool
    ensures { result ≡ is_number bytes.now }
{
    match bytes {
        [] => false,
        [first, ..] => *first != b'0' && bytes.len() <= 6 && are_digits(bytes),
    }
}

/// `xs` for still lifes, `xp` for oscillators, `xq` for spaceships.
fn is_prefix(bytes: &[u8]) -> bool
    ensures { IsTrue result ↔ IsPrefix bytes.now }
{
    bytes == "xs".as_bytes() || bytes == "xp".as_bytes() || bytes == "xq".as_bytes()
}

/// Whether the bytes are the part of a code before the `_`, such as `xq4`.
fn is_front(front: &[u8]) -> bool
    ensures { IsTrue result ↔ IsFront front.now }
{
    match front.split_at_checked(2) {
        Some((prefix, number)) => is_prefix(prefix) && is_number(number),
        None => false,
    }
}

/// The length of the longest Wechsler text. Each of 8 strips has a byte for each of 40 columns, and a `z` after it.
const LONGEST_TEXT: usize = (LARGEST_BOX / 5 * (LARGEST_BOX + 1)) as usize;

/// The pattern of a text in its only valid form. The text is decoded and encoded again: any other spelling gives
/// `None`.
fn read_wechsler<A: Allocator + Copy>(alloc: A, text: &[u8]) -> Result<Option<Pattern<A>>, Fault>
    ensures { IfOk result (λ o. MatchOption o ((X : Cells) → ¬ IsWechsler text.now X) (IsWechsler text.now)) }
{
    if text.len() > LONGEST_TEXT {
        return Ok(None);
    }
    let pattern = decoded(alloc, text)?;
    if pattern.population() == 0 {
        return Ok(None);
    }
    let normal = pattern.normal(alloc)?;
    if !normal.same(&pattern) {
        return Ok(None);
    }
    let Some(again) = text_of(alloc, &pattern)? else {
        return Ok(None);
    };
    if again.as_slice() == text {
        Ok(Some(pattern))
    } else {
        Ok(None)
    }
}

fn first_mark(text: &[u8]) -> Option<usize>
    ensures { result ≡ position (λ b. b == 95) text.now }
{
    text.iter().position(|b| *b == b'_')
}

/// `None` if the text doesn't have the form of a code. Its prefix and number are not compared with the pattern here.
fn read_code<A: Allocator + Copy>(alloc: A, text: &[u8]) -> Result<Option<Pattern<A>>, Fault>
    ensures { IfOk result (λ o. MatchOption o ((X : Cells) → ¬ Spells text.now X) (Spells text.now)) }
{
    let Some(mark) = first_mark(text) else {
        return Ok(None);
    };
    if !is_front(&text[..mark]) {
        return Ok(None);
    }
    read_wechsler(alloc, &text[mark + 1..])
}

/// The pattern that a code spells. Any fault except out of memory means that no pattern has this code under the rule
/// and the limit.
pub fn open_code<A: Allocator + Copy>(
    alloc: A,
    rule: &Rule,
    text: &[u8],
    limit: u32,
) -> Result<Pattern<A>, CodeFault>
    requires from_one { 1 ≤ limit }
    requires few { limit ≤ PERIOD_LIMIT }
    ensures opened { IfOk result (λ X. Spells text.now X × (code_of rule.now X limit ≡ Some text.now)) }
    ensures refused { IfErr result (Refuses rule.now text.now limit) }
    ensures no_code { IfErr result (λ fault. fault ≢ CodeFault.Memory → (X : Cells) → code_of rule.now X limit ≢ Some text.now) }
{
    let Some(pattern) = read_code(alloc, text)? else {
        return Err(CodeFault::BadText);
    };
    let kind = kind(alloc, rule, &pattern, limit)?;
    if let Kind::Unresolved = kind {
        return Err(CodeFault::NotWithinLimit);
    }
    let Some(coded) = code_of_kind(alloc, rule, &pattern, limit, kind)? else {
        return Err(CodeFault::NotCanonical);
    };
    if coded.text() == text {
        Ok(pattern)
    } else {
        Err(CodeFault::NotCanonical)
    }
}
