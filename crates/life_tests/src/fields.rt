//! The order of a field's clusters, which cells belong together, and which fields are steady.
use life_census::{
    clusters, laws_of_clusters, laws_of_steady_fields, laws_of_tallies, steady, tally_and_steady,
};
use life_code::PERIOD_LIMIT;
use life_core::{Cell, Fault, Pattern, Rule};
use life_rle::read;
use std::alloc::Global;

/// Cells of a field of four clusters.
const CELLS: [(i64, i64); 5] = [(0, 5), (-3, -2), (9, 4), (8, 6), (9, 0)];

/// The least cell of each cluster of the field, by row and then by column.
const LEAST_CELLS: [Cell; 4] = [
    Cell {
        row: -2,
        column: -3,
    },
    Cell { row: 0, column: 9 },
    Cell { row: 4, column: 9 },
    Cell { row: 5, column: 0 },
];

/// Whether there are as many clusters as cells, and each cluster contains the cell with its index.
fn each_has(found: &[Pattern], cells: &[Cell]) -> bool {
    if found.len() != cells.len() {
        return false;
    }
    for place in 0..cells.len() {
        if !found[place].contains(cells[place]) {
            return false;
        }
    }
    true
}

/// Whether the clusters are in the order of their least cells, and a near cell belongs to the third one.
fn clusters_are_in_order(alloc: Global) -> Result<bool, Fault> {
    let field = Pattern::from_cells(alloc, &CELLS)?;
    let found = clusters(alloc, &field)?;
    let near = Cell { row: 6, column: 8 };
    Ok(each_has(&found, &LEAST_CELLS) && found.len() > 2 && found[2].contains(near))
}

#[test]
fn clusters_stand_by_their_least_cells(rt: HostRuntime) {
    assert!(rt; clusters_are_in_order(rt.alloc()) == Ok(true));
    laws_of_clusters();
    laws_of_tallies();
}

/// Files, and the numbers of clusters of their fields.
const CLUSTERS: [(&str, usize); 10] = [
    // Five cells in a row and one cell two rows below, two and then three columns to the right of the last.
    ("x = 0, y = 0\n5o2$6bo!", 1),
    ("x = 0, y = 0\n5o2$7bo!", 2),
    // The same, to the left of the first.
    ("x = 0, y = 0\n2b5o2$o!", 1),
    ("x = 0, y = 0\n3b5o2$o!", 2),
    // Three rows below.
    ("x = 0, y = 0\n5o3$2bo!", 2),
    // In the same row.
    ("x = 0, y = 0\n5obo!", 1),
    ("x = 0, y = 0\n5o2bo!", 2),
    // Two columns, joined at their ends by a row.
    ("x = 0, y = 0\no5bo$o5bo$7o!", 1),
    // Three rows that are not near each other, and the same with a path from each to the next.
    ("x = 0, y = 0\n9o3$9o3$9o!", 3),
    ("x = 0, y = 0\n9o$o$o$9o$8bo$8bo$9o!", 1),
];

/// How many clusters the file's field has, if the file can be read.
fn clusters_of_file(alloc: Global, file: &str) -> Option<usize> {
    match read(alloc, file.as_bytes()) {
        Ok(record) => match clusters(alloc, &record.cells) {
            Ok(found) => Some(found.len()),
            Err(_) => None,
        },
        Err(_) => None,
    }
}

#[test]
fn cells_up_to_two_apart_are_one_cluster(rt: HostRuntime) {
    for (file, expected) in CLUSTERS {
        assert!(rt;
            clusters_of_file(rt.alloc(), file) == Some(expected),
            "{file}"
        );
    }
}

/// Files, limits, and whether the fields are steady under them.
const STEADY: [(&str, u32, bool); 10] = [
    ("x = 0, y = 0\n!", 1, true),
    // Two blocks.
    ("x = 0, y = 0\n2o4b2o$2o4b2o!", 1, true),
    ("x = 0, y = 0\n2o4b2o$2o4b2o!", 2, true),
    // A block and a blinker.
    ("x = 0, y = 0\n2o8b3o$2o!", 1, false),
    ("x = 0, y = 0\n2o8b3o$2o!", 2, true),
    // Two blinkers: a generation later they are 1, 2 and 3 columns apart.
    ("x = 0, y = 0\no2bo$o2bo$o2bo!", 2, false),
    ("x = 0, y = 0\no3bo$o3bo$o3bo!", 2, false),
    ("x = 0, y = 0\no4bo$o4bo$o4bo!", 2, true),
    // Two blinkers that are never near each other at the same time, but whose phases come near each other.
    ("x = 0, y = 0\n3o3$bo$bo$bo!", 2, false),
    // A glider.
    ("x = 0, y = 0\nbo$2bo$3o!", 4, false),
];

/// Whether the field is steady under Life and the limit. `None` if either is out of range, or if a census disagrees.
fn is_steady(alloc: Global, field: &Pattern, limit: u32) -> Option<bool> {
    if limit < 1 || limit > PERIOD_LIMIT || !field.within(400_000_000) {
        return None;
    }
    let answer = steady(alloc, &Rule::LIFE, field, limit);
    match tally_and_steady(alloc, &Rule::LIFE, field, limit) {
        Ok((_, is_steady)) if answer == Ok(is_steady) => Some(is_steady),
        _ => None,
    }
}

/// Whether the file's field is steady under Life and the limit, if the file can be read.
fn is_file_steady(alloc: Global, file: &str, limit: u32) -> Option<bool> {
    match read(alloc, file.as_bytes()) {
        Ok(record) => is_steady(alloc, &record.cells, limit),
        Err(_) => None,
    }
}

#[test]
fn fields_that_are_steady(rt: HostRuntime) {
    laws_of_steady_fields();
    for (file, limit, expected) in STEADY {
        assert!(rt;
            is_file_steady(rt.alloc(), file, limit) == Some(expected),
            "{file}"
        );
    }
}
