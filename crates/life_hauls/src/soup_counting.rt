//! Adds the codes of one soup after another to a haul.
ghost use Rattle.std.specs.Prelude.{◌≡◌, ◌≤◌, T, length, map, OnOk, IfOk, MatchResult};
ghost use Rattle.std.specs.FinMap as table;
ghost use Rattle.std.specs.Ordering.{is_gt};
ghost use Rattle.life_census.specs.Counting.{row_cmp};
ghost use Rattle.life_hauls.specs.Hauls.{more, row_seen};
ghost use Rattle.life_hauls.specs.HaulsState.{once, noted, with_code, with_soup, AreBelow, AreNotBelow, IsRowOf, IsPlaceFor};

use crate::haul_rows::{Haul, HaulRow, Occurrences};
use life_census::CodeText;
use life_core::Fault;
use std::alloc::{AllocError, Allocator};
use std::cmp::Ordering;

/// Adds one cluster in soup `number`. A count over 2^64 - 1 is reported as out of memory.
fn more(seen: Option<Occurrences>, number: u64) -> Result<Occurrences, AllocError>
    ensures { IfOk result (λ s. s ≡ more seen (once number)) }
{
    match seen {
        None => Ok(Occurrences {
            count: 1,
            first: number,
        }),
        Some(seen) => match seen.count.checked_add(1) {
            Some(count) => Ok(Occurrences {
                count,
                first: seen.first.min(number),
            }),
            None => Err(AllocError),
        },
    }
}

/// Adds 1 to the count of a code, or inserts a row for it.
fn note<A: Allocator + Copy>(
    alloc: A,
    rows: &mut Vec<HaulRow<A>, A>,
    code: &CodeText<A>,
    number: u64,
) -> Result<(), AllocError>
    requires { T (table.is_sorted row_cmp (map row_seen rows.old.items)) }
    ensures { OnOk result (map row_seen rows.new.items ≡ noted number (map row_seen rows.old.items) code.now) }
{
    match place_of(rows, code.as_bytes()) {
        Ok(i) => {
            let seen = more(Some(rows[i].seen), number)?;
            rows[i].seen = seen;
        }
        Err(i) => {
            let seen = more(None, number)?;
            let code = CodeText::from_slice(alloc, code.as_bytes())?;
            rows.insert(i, HaulRow { code, seen })?;
        }
    }
    Ok(())
}

/// A binary search: `Ok` with the index of the code, or `Err` with the index at which to insert it.
fn place_of<A: Allocator>(rows: &[HaulRow<A>], code: &[u8]) -> Result<usize, usize>
    requires { T (table.is_sorted row_cmp (map row_seen rows.now)) }
    ensures before { MatchResult result (AreBelow rows.now code.now) (AreBelow rows.now code.now) }
    ensures here { MatchResult result (IsRowOf rows.now code.now) (IsPlaceFor rows.now code.now) }
{
    let i = first_not_below(rows, code);
    if i == rows.len() {
        return Err(i);
    }
    match code.cmp(rows[i].code.as_bytes()) {
        Ordering::Equal => Ok(i),
        _ => Err(i),
    }
}

fn first_not_below<A: Allocator>(rows: &[HaulRow<A>], code: &[u8]) -> usize
    requires { T (table.is_sorted row_cmp (map row_seen rows.now)) }
    ensures bound { result ≤ length rows.now }
    ensures before { AreBelow rows.now code.now result }
    ensures behind { AreNotBelow rows.now code.now result }
{
    rows.partition_point(|row| is_below(row, code))
}

/// Whether the row's code comes before `code`, byte by byte.
fn is_below<A: Allocator>(row: &HaulRow<A>, code: &[u8]) -> bool
    ensures { result ≡ is_gt (row_cmp code.now row.now.code) }
{
    code.cmp(row.code.as_bytes()).is_gt()
}

/// Adds one cluster of soup `number`, with or without a code.
fn count_cluster<A: Allocator + Copy>(
    alloc: A,
    haul: &mut Haul<A>,
    code: &Option<CodeText<A>>,
    number: u64,
) -> Result<(), AllocError>
    requires { T (table.is_sorted row_cmp haul.old.rows) }
    ensures { OnOk result (haul.new ≡ with_code number haul.old code.now) }
{
    match code {
        Some(code) => note(alloc, &mut haul.rows, code, number)?,
        None => haul.unresolved = Some(more(haul.unresolved, number)?),
    }
    match haul.total.checked_add(1) {
        Some(total) => haul.total = total,
        None => return Err(AllocError),
    }
    Ok(())
}

/// Adds one soup, from the codes of its clusters.
pub fn count_soup<A: Allocator + Copy>(
    alloc: A,
    haul: &mut Haul<A>,
    codes: &[Option<CodeText<A>>],
    number: u64,
) -> Result<(), Fault>
    requires { T (table.is_sorted row_cmp haul.old.rows) }
    ensures { OnOk result (haul.new ≡ with_soup number haul.old codes.now) }
{
    for code in codes {
        count_cluster(alloc, haul, code, number)?;
    }
    match haul.soups.checked_add(1) {
        Some(soups) => haul.soups = soups,
        None => return Err(Fault::Memory),
    }
    Ok(())
}
