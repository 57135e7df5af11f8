//! Kinds on both types of plane, codes, and whether two patterns are the same object.
ghost use Rattle.std.specs.Prelude.{◌≤◌};

use life_code::{CodeFault, Coded, Kind, PERIOD_LIMIT, code, kind_by, laws_of_codes, same_object};
use life_core::{CellList, Fault, Orientation, PackedRows, Pattern, Plane, Rule, generation};
use std::alloc::Global;

const GLIDER: [(i64, i64); 5] = [(1, 0), (2, 1), (0, 2), (1, 2), (2, 2)];

const BLOCK: [(i64, i64); 4] = [(0, 0), (1, 0), (0, 1), (1, 1)];

/// Whether the pattern is of this kind under Life and the limit, on planes of the type `P`.
fn is_kind<P: Plane<Global>>(
    alloc: Global,
    pattern: &Pattern,
    limit: u32,
    expected: Kind,
) -> Result<bool, Fault>
    requires from_one { 1 ≤ limit }
    requires few { limit ≤ PERIOD_LIMIT }
{
    if !pattern.within(400_000_000) {
        return Ok(false);
    }
    Ok(kind_by::<_, P>(alloc, &Rule::LIFE, pattern, limit)? == expected)
}

/// Whether a glider is a spaceship of period 4, and unresolved under limit 3, on planes of the type `P`.
fn glider_is_ship<P: Plane<Global>>(alloc: Global) -> Result<bool, Fault> {
    let glider = Pattern::from_cells(alloc, &GLIDER)?;
    Ok(
        is_kind::<P>(alloc, &glider, 4, Kind::Ship(4, 1, 1))?
            && is_kind::<P>(alloc, &glider, 3, Kind::Unresolved)?,
    )
}

#[test]
fn a_glider_is_a_ship(rt: HostRuntime) {
    assert!(rt; glider_is_ship::<CellList>(rt.alloc()) == Ok(true));
    assert!(rt; glider_is_ship::<PackedRows>(rt.alloc()) == Ok(true));
    laws_of_codes();
}

#[test]
fn faults_have_numbers_and_names(rt: HostRuntime) {
    for (fault, number, name) in [
        (CodeFault::BadText, 1, "bad-text"),
        (CodeFault::NotCanonical, 2, "not-canonical"),
        (CodeFault::NotWithinLimit, 3, "not-within-limit"),
        (CodeFault::Memory, 4, "memory"),
    ] {
        assert!(rt; fault.number() == number && fault.name() == name, "{name}");
    }
}

/// The pattern with its code, if it has one. `None` if it is too far from the origin.
fn coded(alloc: Global, rule: &Rule, pattern: &Pattern, limit: u32) -> Result<Option<Coded>, Fault>
    requires from_one { 1 ≤ limit }
    requires few { limit ≤ PERIOD_LIMIT }
{
    if !pattern.within(400_000_000) {
        return Ok(None);
    }
    code(alloc, rule, pattern, limit)
}

/// Whether both have this code, and whether they are the same object. `None` if either has no code.
fn compared(first: &Option<Coded>, second: &Option<Coded>, text: &[u8]) -> Option<(bool, bool)> {
    match (first, second) {
        (Some(first), Some(second)) => Some((
            first.text() == text && second.text() == text,
            same_object(first, second),
        )),
        _ => None,
    }
}

fn coded_glider(alloc: Global) -> Result<Option<Coded>, Fault> {
    let glider = Pattern::from_cells(alloc, &GLIDER)?;
    coded(alloc, &Rule::LIFE, &glider, 4)
}

/// The glider three generations later, mirrored, with its code under another limit.
fn coded_other(alloc: Global) -> Result<Option<Coded>, Fault> {
    let glider = Pattern::from_cells(alloc, &GLIDER)?;
    if !glider.within(400_000_000) {
        return Ok(None);
    }
    let later = generation(alloc, &Rule::LIFE, &glider, 3)?;
    let mirrored = later.turned(alloc, Orientation::O4)?;
    coded(alloc, &Rule::LIFE, &mirrored, 100)
}

fn compared_gliders(alloc: Global) -> Result<Option<(bool, bool)>, Fault> {
    let glider = coded_glider(alloc)?;
    let other = coded_other(alloc)?;
    Ok(compared(&glider, &other, b"xq4_153"))
}

#[test]
fn one_object_at_another_phase_and_limit(rt: HostRuntime) {
    assert!(rt; compared_gliders(rt.alloc()) == Ok(Some((true, true))));
}

/// The block, with its code under the rule.
fn coded_block(alloc: Global, rule: &Rule) -> Result<Option<Coded>, Fault> {
    let block = Pattern::from_cells(alloc, &BLOCK)?;
    coded(alloc, rule, &block, 1)
}

/// Compares the block under Life with the block under another rule.
fn compared_blocks(alloc: Global, rule: &Rule) -> Result<Option<(bool, bool)>, Fault> {
    let under_life = coded_block(alloc, &Rule::LIFE)?;
    let other = coded_block(alloc, rule)?;
    Ok(compared(&under_life, &other, b"xs4_33"))
}

#[test]
fn other_rules_make_other_objects(rt: HostRuntime) {
    match Rule::read(b"B36/S23") {
        Ok(rule) => assert!(rt; compared_blocks(rt.alloc(), &rule) == Ok(Some((true, false)))),
        Err(_) => panic!(rt; "no rule"),
    }
}
