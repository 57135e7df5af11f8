//! Patterns and their generations on both types of plane.
use life_core::{
    Bounds, Cell, CellList, Fault, GENERATION_LIMIT, Orientation, PLANE, PackedRows, Pattern,
    Plane, Rule, generation, generation_by, is_packed, laws_of_constants, laws_of_generations,
    laws_of_patterns, laws_of_row_steps, laws_of_symmetries, row_step,
};
use std::alloc::Global;

const GLIDER: [(i64, i64); 5] = [(1, 0), (2, 1), (0, 2), (1, 2), (2, 2)];

/// Whether generation `n` of the first pattern under Life is the second, on planes of the type `P`.
fn goes_on_by<P: Plane<Global>>(
    alloc: Global,
    before: &Pattern,
    n: u32,
    after: &Pattern,
) -> Result<bool, Fault> {
    if n > GENERATION_LIMIT || !before.within(PLANE - GENERATION_LIMIT) {
        return Ok(false);
    }
    Ok(generation_by::<_, P>(alloc, &Rule::LIFE, before, n)?.same(after))
}

/// Whether generation `n` of the first pattern under Life is the second, on both types of plane.
fn goes_on(alloc: Global, before: &Pattern, n: u32, after: &Pattern) -> Result<bool, Fault> {
    Ok(
        goes_on_by::<CellList>(alloc, before, n, after)?
            && goes_on_by::<PackedRows>(alloc, before, n, after)?,
    )
}

/// Whether a glider moves by a column and a row in four generations.
fn glider_goes_on(alloc: Global) -> Result<bool, Fault> {
    let glider = Pattern::from_cells(alloc, &GLIDER)?;
    let later = Pattern::from_cells(alloc, &[(2, 1), (3, 2), (1, 3), (2, 3), (3, 3)])?;
    goes_on(alloc, &glider, 4, &later)
}

/// Whether a blinker evolves correctly if its row crosses the edge of a word left of column 0.
fn left_blinker_goes_on(alloc: Global) -> Result<bool, Fault> {
    let blinker = Pattern::from_cells(alloc, &[(-65, -1), (-64, -1), (-63, -1)])?;
    let later = Pattern::from_cells(alloc, &[(-64, -2), (-64, -1), (-64, 0)])?;
    goes_on(alloc, &blinker, 1, &later)
}

/// Whether a blinker evolves correctly if its row crosses the edge of a word right of column 0.
fn right_blinker_goes_on(alloc: Global) -> Result<bool, Fault> {
    let blinker = Pattern::from_cells(alloc, &[(63, 0), (64, 0), (65, 0)])?;
    let later = Pattern::from_cells(alloc, &[(64, -1), (64, 0), (64, 1)])?;
    goes_on(alloc, &blinker, 1, &later)
}

#[test]
fn patterns_go_on(rt: HostRuntime) {
    assert!(rt; glider_goes_on(rt.alloc()) == Ok(true));
    assert!(rt; left_blinker_goes_on(rt.alloc()) == Ok(true));
    assert!(rt; right_blinker_goes_on(rt.alloc()) == Ok(true));
    laws_of_generations();
    laws_of_constants();
}

/// Steps the plane under Life this many times, or fewer if its set reaches the edge.
fn steps<P: Plane<Global>>(alloc: Global, plane: &mut P, n: u16) -> Result<(), Fault> {
    for _ in 0..n {
        if !plane.to_pattern(alloc)?.within(PLANE - 1) {
            return Ok(());
        }
        plane.step(&Rule::LIFE)?;
    }
    Ok(())
}

/// Generation `n` of the pattern on a plane that has given up its unneeded room.
fn trimmed<P: Plane<Global>>(alloc: Global, before: &Pattern, n: u16) -> Result<P, Fault> {
    let mut plane = P::from_pattern(alloc, before)?;
    steps(alloc, &mut plane, n)?;
    plane.trim();
    Ok(plane)
}

/// Whether generation `n` of the pattern is on the plane.
fn has_generation<P: Plane<Global>>(
    alloc: Global,
    plane: &P,
    before: &Pattern,
    n: u32,
) -> Result<bool, Fault> {
    let here = plane.to_pattern(alloc)?;
    goes_on_by::<P>(alloc, before, n, &here)
}

/// Whether a plane that gives up unneeded room after `n` generations evolves like one that keeps it.
fn trims_by<P: Plane<Global>>(alloc: Global, before: &Pattern, n: u16) -> Result<bool, Fault> {
    let mut plane = trimmed::<P>(alloc, before, n)?;
    if !has_generation(alloc, &plane, before, u32::from(n))? {
        return Ok(false);
    }
    steps(alloc, &mut plane, n)?;
    has_generation(alloc, &plane, before, 2 * u32::from(n))
}

/// Whether planes of both types that give up unneeded room after `n` generations evolve like those that keep it.
fn trims(alloc: Global, before: &Pattern, n: u16) -> Result<bool, Fault> {
    Ok(trims_by::<CellList>(alloc, before, n)? && trims_by::<PackedRows>(alloc, before, n)?)
}

/// Whether planes with a glider evolve correctly after giving up room.
fn glider_trims(alloc: Global) -> Result<bool, Fault> {
    let glider = Pattern::from_cells(alloc, &GLIDER)?;
    for n in [1, 70, 300] {
        if !trims(alloc, &glider, n)? {
            return Ok(false);
        }
    }
    Ok(true)
}

/// Whether empty planes evolve correctly after giving up room.
fn empty_trims(alloc: Global) -> Result<bool, Fault> {
    let empty = Pattern::from_cells(alloc, &[])?;
    trims(alloc, &empty, 2)
}

#[test]
fn a_trimmed_plane_goes_on(rt: HostRuntime) {
    assert!(rt; glider_trims(rt.alloc()) == Ok(true));
    assert!(rt; empty_trims(rt.alloc()) == Ok(true));
}

/// Two blocks, too far apart for packed rows.
const FAR_BLOCKS: [(i64, i64); 8] = [
    (0, 0),
    (1, 0),
    (0, 1),
    (1, 1),
    (900_000_000, 0),
    (900_000_001, 0),
    (900_000_000, 1),
    (900_000_001, 1),
];

/// Whether the pattern is not packed, and its next generation is the pattern.
fn stays_unpacked(alloc: Global, pattern: &Pattern) -> Result<bool, Fault> {
    if is_packed(pattern.bounds(), 1) || !pattern.within(PLANE - 1) {
        return Ok(false);
    }
    Ok(generation(alloc, &Rule::LIFE, pattern, 1)?.same(pattern))
}

/// Whether the far blocks stay, on a plane that is not packed.
fn blocks_stay(alloc: Global) -> Result<bool, Fault> {
    let blocks = Pattern::from_cells(alloc, &FAR_BLOCKS)?;
    stays_unpacked(alloc, &blocks)
}

#[test]
fn far_blocks_stay(rt: HostRuntime) {
    assert!(rt; blocks_stay(rt.alloc()) == Ok(true));
}

#[test]
fn a_row_steps_across_words(rt: HostRuntime) {
    let side = [1 << 63, 0];
    let mut out = [0, 0];
    row_step(&side, &[0, 1], &side, &Rule::LIFE, &mut out);
    assert!(rt; out == [1 << 63, 1]);
    laws_of_row_steps();
}

#[test]
fn a_row_steps_across_groups_of_words(rt: HostRuntime) {
    let side = [0, 0, 0, 1 << 63, 0, 0, 0, 1 << 63, 0];
    let mut out = [0; 9];
    row_step(
        &side,
        &[0, 0, 0, 0, 1, 0, 0, 0, 1],
        &side,
        &Rule::LIFE,
        &mut out,
    );
    assert!(rt; out == [0, 0, 0, 1 << 63, 1, 0, 0, 1 << 63, 1]);
}

/// Whether a dead cell with six live neighbours, at the edge of a group of words, is born under the rule.
fn six_live(text: &str) -> bool {
    let side = [0, 0, 0, 1 << 63, 3];
    let mut out = [0; 5];
    match Rule::read(text.as_bytes()) {
        Ok(rule) => {
            row_step(&side, &[0; 5], &side, &rule, &mut out);
            out == [0, 0, 0, 0, 1]
        }
        Err(_) => false,
    }
}

#[test]
fn a_row_steps_by_its_rule(rt: HostRuntime) {
    assert!(rt; six_live("B36/S23"));
    assert!(rt; !six_live("B3/S23"));
}

/// The translation from the first pattern to the second, as planes of one type, one of them trimmed.
fn shift_by<P: Plane<Global>>(
    alloc: Global,
    from: &Pattern,
    to: &Pattern,
) -> Result<Option<(i64, i64)>, Fault> {
    let mut from = P::from_pattern(alloc, from)?;
    let to = P::from_pattern(alloc, to)?;
    from.trim();
    Ok(from.shift_to(&to))
}

/// Whether this is the translation from the first pattern to the second, on both types of plane.
fn is_move(
    alloc: Global,
    from: &Pattern,
    to: &Pattern,
    shift: Option<(i64, i64)>,
) -> Result<bool, Fault> {
    let listed = shift_by::<CellList>(alloc, from, to)?;
    let packed = shift_by::<PackedRows>(alloc, from, to)?;
    Ok(listed == shift && packed == shift)
}

/// Whether the translation between two pairs of cells of the same shape is found.
fn pair_moves(alloc: Global) -> Result<bool, Fault> {
    let pair = Pattern::from_cells(alloc, &[(0, 0), (63, 0)])?;
    let later = Pattern::from_cells(alloc, &[(1, 5), (64, 5)])?;
    is_move(alloc, &pair, &later, Some((1, 5)))
}

/// Whether patterns of different sizes have no translation, either way.
fn sizes_differ(alloc: Global) -> Result<bool, Fault> {
    let one = Pattern::from_cells(alloc, &[(0, 0)])?;
    let two = Pattern::from_cells(alloc, &[(0, 0), (1, 0)])?;
    Ok(is_move(alloc, &one, &two, None)? && is_move(alloc, &two, &one, None)?)
}

/// Whether patterns of different shapes have no translation.
fn shapes_differ(alloc: Global) -> Result<bool, Fault> {
    let pair = Pattern::from_cells(alloc, &[(0, 0), (63, 0)])?;
    let two = Pattern::from_cells(alloc, &[(0, 0), (1, 0)])?;
    is_move(alloc, &pair, &two, None)
}

/// Whether the empty pattern has no translation to itself.
fn empty_has_no_move(alloc: Global) -> Result<bool, Fault> {
    let empty = Pattern::from_cells(alloc, &[])?;
    is_move(alloc, &empty, &empty, None)
}

#[test]
fn moves_are_found(rt: HostRuntime) {
    assert!(rt; pair_moves(rt.alloc()) == Ok(true));
    assert!(rt; sizes_differ(rt.alloc()) == Ok(true));
    assert!(rt; shapes_differ(rt.alloc()) == Ok(true));
    assert!(rt; empty_has_no_move(rt.alloc()) == Ok(true));
}

/// Whether the pattern has the cells (3, -1) and (2, 5).
fn has_both_cells(pattern: &Pattern) -> bool {
    let bounds = Bounds {
        left: 2,
        top: -1,
        width: 2,
        height: 7,
    };
    pattern.population() == 2
        && pattern.contains(Cell { row: 5, column: 2 })
        && !pattern.contains(Cell { row: 2, column: 5 })
        && pattern.within(5)
        && !pattern.within(4)
        && pattern.bounds() == Some(bounds)
}

/// Whether the pattern is equal to its copy.
fn is_copied(alloc: Global, pattern: &Pattern) -> Result<bool, Fault> {
    Ok(pattern.copy(alloc)?.same(pattern))
}

/// Whether these are the cells of the pattern translated to the corner, in their order, and differ from the pattern's
/// own.
fn has_normal(alloc: Global, pattern: &Pattern, cells: &[Cell]) -> Result<bool, Fault> {
    if !pattern.within(500_000_000) {
        return Ok(false);
    }
    let normal = pattern.normal(alloc)?;
    let listed = normal.cells().list(alloc)?;
    Ok(listed.as_slice() == cells && !normal.same(pattern))
}

/// Whether each call of a pattern gives the expected result.
fn calls_are_right(alloc: Global) -> Result<bool, Fault> {
    let pattern = Pattern::from_cells(alloc, &[(3, -1), (2, 5), (3, -1)])?;
    let normal = [Cell { row: 0, column: 1 }, Cell { row: 6, column: 0 }];
    Ok(
        has_both_cells(&pattern)
            && is_copied(alloc, &pattern)?
            && has_normal(alloc, &pattern, &normal)?,
    )
}

#[test]
fn each_call_of_a_pattern(rt: HostRuntime) {
    assert!(rt; calls_are_right(rt.alloc()) == Ok(true));
    laws_of_patterns();
}

/// The cells of a tromino, (1, 2), (1, 3) and (2, 3), in each orientation.
const TURNED: [[(i64, i64); 3]; 8] = [
    [(1, 2), (1, 3), (2, 3)],
    [(-2, 1), (-3, 1), (-3, 2)],
    [(-1, -2), (-1, -3), (-2, -3)],
    [(2, -1), (3, -1), (3, -2)],
    [(-1, 2), (-1, 3), (-2, 3)],
    [(1, -2), (1, -3), (2, -3)],
    [(2, 1), (3, 1), (3, 2)],
    [(-2, -1), (-3, -1), (-3, -2)],
];

/// Whether these are the cells of the pattern, each given once.
fn has_cells(pattern: &Pattern, cells: &[(i64, i64)]) -> bool {
    for (column, row) in cells {
        let cell = Cell {
            row: *row,
            column: *column,
        };
        if !pattern.contains(cell) {
            return false;
        }
    }
    pattern.population() == cells.len()
}

/// Whether the pattern has these cells in this orientation.
fn turns_to(
    alloc: Global,
    pattern: &Pattern,
    orientation: Orientation,
    cells: &[(i64, i64)],
) -> bool {
    match pattern.turned(alloc, orientation) {
        Ok(turned) => has_cells(&turned, cells),
        Err(_) => false,
    }
}

/// The index of the first orientation in which the tromino doesn't have the cells of the table.
fn first_other_turn(alloc: Global) -> Result<Option<usize>, Fault> {
    let tromino = Pattern::from_cells(alloc, &[(1, 2), (1, 3), (2, 3)])?;
    for place in 0..8 {
        if !turns_to(alloc, &tromino, Orientation::ALL[place], &TURNED[place]) {
            return Ok(Some(place));
        }
    }
    Ok(None)
}

#[test]
fn a_tromino_is_turned(rt: HostRuntime) {
    assert!(rt; first_other_turn(rt.alloc()) == Ok(None));
    laws_of_symmetries();
}
