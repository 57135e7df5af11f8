//! The code of a periodic pattern: the least text among its phases in all orientations.
ghost use Rattle.std.specs.Prelude.{◌≡◌, ◌≤◌, ◌+◌, ◌++◌, ◌∷◌, Option, Some, List, ℕ, OnOk, IfOk};
ghost use Rattle.std.specs.Fmt.{decimal};
ghost use Rattle.std.specs.FinSet as set;
ghost use Rattle.std.specs.Option.{option_map};
ghost use Rattle.life_core.specs.Pattern.{IsWithin, normal};
ghost use Rattle.life_code.specs.PeriodState.{PeriodWithin};
ghost use Rattle.life_code.specs.Wechsler.{width, height};
ghost use Rattle.life_code.specs.Codes.{text_cmp, lesser, text_of, texts_of, shape, candidates, least_text, with_prefix, code_by_kind};
ghost use Rattle.life_code.specs.CodesState.{kept_least, bytes_of, list_of};

use crate::kinds::Kind;
use crate::period::PERIOD_LIMIT;
use crate::wechsler::wechsler;
use life_core::{Fault, Orientation, Pattern, Rule, generation};
use std::alloc::{AllocError, Allocator};
use std::cmp::Ordering;

/// The largest box that a code can spell, in columns and in rows, as in apgcodes.
pub(crate) const LARGEST_BOX: u64 = 40;

/// The shorter text comes first; texts of the same length are ordered by their bytes.
fn compare_texts(a: &[u8], b: &[u8]) -> Ordering
    ensures { result ≡ text_cmp a.now b.now }
{
    match a.len().cmp(&b.len()) {
        Ordering::Equal => a.cmp(b),
        order => order,
    }
}

/// Width and height; (0, 0) for the empty pattern.
fn extents<A: Allocator>(pattern: &Pattern<A>) -> (u64, u64)
    requires { normal pattern.now ≡ pattern.now }
    ensures columns { result.0 ≡ width pattern.now }
    ensures rows { result.1 ≡ height pattern.now }
{
    match pattern.bounds() {
        None => (0, 0),
        Some(bounds) => (bounds.width, bounds.height),
    }
}

/// `None` if the box is larger than 40 by 40.
pub(crate) fn text_of<A: Allocator + Copy>(
    alloc: A,
    pattern: &Pattern<A>,
) -> Result<Option<Vec<u8, A>>, AllocError>
    requires { normal pattern.now ≡ pattern.now }
    ensures { IfOk result (λ t. list_of t ≡ text_of pattern.now) }
{
    let (columns, rows) = extents(pattern);
    if columns <= LARGEST_BOX && rows <= LARGEST_BOX {
        Ok(Some(wechsler(alloc, pattern, columns as u8, rows as u8)?))
    } else {
        Ok(None)
    }
}

/// Replaces the best text so far, if this one is not greater.
fn keep_lesser<A: Allocator>(best: &mut Option<Vec<u8, A>>, text: Vec<u8, A>)
    ensures { bytes_of best.new ≡ Some (lesser text.items (bytes_of best.old)) }
{
    let is_lesser = match &*best {
        None => true,
        Some(kept) => compare_texts(&text, kept) != Ordering::Greater,
    };
    if is_lesser {
        *best = Some(text);
    }
}

/// Tests one candidate. Its box may be too large; then `best` stays.
fn keep_turned<A: Allocator + Copy>(
    alloc: A,
    phase: &Pattern<A>,
    orientation: Orientation,
    best: &mut Option<Vec<u8, A>>,
) -> Result<(), Fault>
    requires { IsWithin 500_000_000 phase.now }
    ensures { OnOk result (bytes_of best.new ≡ kept_least (bytes_of best.old) (text_of (shape orientation phase.now))) }
{
    let shape = phase.turned(alloc, orientation)?.into_normal();
    if let Some(text) = text_of(alloc, &shape)? {
        keep_lesser(best, text);
    }
    Ok(())
}

/// Tests a phase in all eight orientations.
fn keep_phase<A: Allocator + Copy>(
    alloc: A,
    phase: &Pattern<A>,
    best: &mut Option<Vec<u8, A>>,
) -> Result<(), Fault>
    requires { IsWithin 500_000_000 phase.now }
    ensures { OnOk result (bytes_of best.new ≡ kept_least (bytes_of best.old) (texts_of phase.now)) }
{
    for orientation in Orientation::ALL {
        keep_turned(alloc, phase, orientation, best)?;
    }
    Ok(())
}

/// The least of up to 8 texts for each phase; `None` if no phase fits into 40 by 40 cells.
fn least_text<A: Allocator + Copy>(
    alloc: A,
    rule: &Rule,
    pattern: &Pattern<A>,
    period: u32,
) -> Result<Option<Vec<u8, A>>, Fault>
    requires few { period ≤ PERIOD_LIMIT }
    requires room { IsWithin 400_000_000 pattern.now }
    ensures { IfOk result (λ t. bytes_of t ≡ least_text (candidates rule.now pattern.now period)) }
{
    let mut best = None;
    let mut phase = pattern.copy(alloc)?;
    for i in 0..period {
        if i > 0 {
            phase = generation(alloc, rule, &phase, 1)?;
        }
        keep_phase(alloc, &phase, &mut best)?;
    }
    Ok(best)
}

/// Writes a code, such as `xp2_7` from `xp`, 2 and `7`.
fn code_text<A: Allocator>(
    alloc: A,
    prefix: &str,
    number: u64,
    text: &[u8],
) -> Result<Vec<u8, A>, AllocError>
    ensures { IfOk result (λ v. v.items ≡ prefix.now ++ decimal number ++ 95 ∷ text.now) }
{
    let mut code = format!(in alloc; "{prefix}{number}_")?.into_bytes();
    code.extend_from_slice(text)?;
    Ok(code)
}

fn with_prefix<A: Allocator>(
    alloc: A,
    prefix: &str,
    number: u64,
    text: Option<Vec<u8, A>>,
) -> Result<Option<Vec<u8, A>>, AllocError>
    ensures { IfOk result (λ t. bytes_of t ≡ with_prefix prefix.now number (bytes_of text)) }
{
    match text {
        None => Ok(None),
        Some(text) => Ok(Some(code_text(alloc, prefix, number, &text)?)),
    }
}

/// The code for a known kind. Runs the phases again, since the search for the period doesn't store them.
pub(crate) fn code_by_kind<A: Allocator + Copy>(
    alloc: A,
    rule: &Rule,
    pattern: &Pattern<A>,
    kind: Kind,
) -> Result<Option<Vec<u8, A>>, Fault>
    requires few { PeriodWithin PERIOD_LIMIT kind }
    requires room { IsWithin 400_000_000 pattern.now }
    ensures { IfOk result (λ t. bytes_of t ≡ code_by_kind rule.now pattern.now kind) }
{
    let (prefix, number, period) = match kind {
        Kind::Empty | Kind::Unresolved => return Ok(None),
        Kind::Still => ("xs", pattern.population() as u64, 1),
        Kind::Oscillator(period) => ("xp", u64::from(period), period),
        Kind::Ship(period, _, _) => ("xq", u64::from(period), period),
    };
    let text = least_text(alloc, rule, pattern, period)?;
    Ok(with_prefix(alloc, prefix, number, text)?)
}
