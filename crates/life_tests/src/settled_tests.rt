//! Fields that settle: the shortcut for their generations gives the same as computing them one by one.
ghost use Rattle.std.specs.Prelude.{◌≤◌};

use life_code::settled_generation;
use life_core::{Fault, GENERATION_LIMIT, PLANE, Pattern, Rule, generation};
use std::alloc::Global;

/// The R-pentomino. It settles at generation 1,103, when six gliders are leaving.
const R_PENTOMINO: [(i64, i64); 5] = [(1, 0), (2, 0), (0, 1), (1, 1), (1, 2)];

/// Its well-known population from then on: 8 blocks, 6 gliders, 4 beehives, 4 blinkers, a boat, a loaf and a ship.
const SETTLED_POPULATION: usize = 116;

/// Two gliders that leave side by side, and a blinker between their paths.
const GLIDERS: [(i64, i64); 13] = [
    (21, 0),
    (22, 1),
    (20, 2),
    (21, 2),
    (22, 2),
    (0, 21),
    (1, 22),
    (2, 20),
    (2, 21),
    (2, 22),
    (9, 10),
    (10, 10),
    (11, 10),
];

/// Whether `settled_generation` gives the same generation `n` of the pattern as stepping does.
fn is_generation(alloc: Global, pattern: &Pattern, n: u32) -> Result<bool, Fault>
    requires { n ≤ GENERATION_LIMIT }
{
    if !pattern.within(PLANE - n) {
        return Ok(false);
    }
    let settled = settled_generation(alloc, &Rule::LIFE, pattern, n)?;
    Ok(settled.same(&generation(alloc, &Rule::LIFE, pattern, n)?))
}

/// The population of generation `n` of the R-pentomino.
fn population_at(alloc: Global, n: u32) -> Result<usize, Fault> {
    let pentomino = Pattern::from_cells(alloc, &R_PENTOMINO)?;
    if n > GENERATION_LIMIT || !pentomino.within(PLANE - n) {
        return Ok(0);
    }
    Ok(settled_generation(alloc, &Rule::LIFE, &pentomino, n)?.population())
}

/// Whether generation `n` of both fields is right.
fn are_generations(alloc: Global, n: u32) -> Result<bool, Fault> {
    if n > GENERATION_LIMIT {
        return Ok(false);
    }
    let pentomino = Pattern::from_cells(alloc, &R_PENTOMINO)?;
    let gliders = Pattern::from_cells(alloc, &GLIDERS)?;
    Ok(is_generation(alloc, &pentomino, n)? && is_generation(alloc, &gliders, n)?)
}

#[test]
fn fields_that_settle(rt: HostRuntime) {
    for n in [0, 64, 65, 67, 1_120, 1_121, 2_048] {
        assert!(rt; are_generations(rt.alloc(), n) == Ok(true), "{n}");
    }
    for n in [1_103, 1_360, 2_048] {
        assert!(rt;
            population_at(rt.alloc(), n) == Ok(SETTLED_POPULATION),
            "{n}"
        );
    }
}
