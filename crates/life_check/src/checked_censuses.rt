//! Reading three tables in step: the censuses, the rows of their tallies, and their flags.

ghost use Rattle.std.specs.Prelude.{◌≡◌, ◌<◌, ◌≤◌, ◌^◌, ◌+◌, ℕ, Bool, List, [], ◌∷◌, length, map, sum_by, true, false, IsSome, None, Some, IfOk, IfSome, OnOk, IsTrue};
ghost use Rattle.sqlite_trees.specs.View.{IsClean, StayLive};
ghost use Rattle.life_rle.specs.Record.{IsInside};
ghost use Rattle.life_census.specs.Rows.{row_seen};
ghost use Rattle.life_store.specs.declared.kept.Deposit.{Deposit as Given};
ghost use Rattle.life_store.specs.Kept.{Tallied, numbered};
ghost use Rattle.life_store.specs.Stored.{rows_by, count_cells, tagged};
ghost use Rattle.life_check.specs.ReadState.{count_row, flag_row_of, IsValidCensus};
ghost use Rattle.life_check.specs.WalkState.{IsCalm};
ghost use Rattle.life_check.specs.CountState.{AreFiled, AreSome, AreTallied, Takes, TakesClusters, IsBefore, AwaitsCensus, AwaitsRest, HasCounted, Follows, FindsCounted, IsKnown, IsInsideSquare};

use crate::check_watch::CheckWatch;
use crate::checked_deposits::{DEPOSITS, LAST};
use crate::checked_rows::{
    census_in, deposit_of_row, is_askable, is_of_census, is_of_count, is_of_flag, number_at,
    text_at,
};
use crate::walk::{FoundCensuses, begin, get, next};
use life_census::Row as TallyRow;
use life_desk::tally_of_generation;
use life_store::{Census, Deposit, Unavailable};
use sqlite::Alter;
use sqlite_value::row::Row;
use std::alloc::Global;

/// The numbers of the tables' trees, as `sqlite` assigns them in a new archive. The numbers between them are indexes.
pub(crate) const CENSUSES: u32 = 3;

pub(crate) const CENSUS_ROWS: u32 = 5;

pub(crate) const CENSUS_FLAGS: u32 = 7;

/// The deposit with the number, or `None`.
fn deposit_at<S: Alter>(
    store: &mut S,
    alloc: Global,
    id: u64,
) -> Result<Option<Deposit>, Unavailable>
    ensures found { IsClean (S.Store.view store.new) → IfOk result (λ o. (ds : List Given) → AreFiled (S.Store.view store.old).trees ds → o ≡ numbered ds id) }
    ensures same { OnOk result (IsClean (S.Store.view store.new) → S.Store.view store.new ≡ S.Store.view store.old) }
    ensures stay { OnOk result (StayLive (S.Store.view store.old) (S.Store.view store.new)) }
    ensures calm { IsCalm S.Store store.old store.new }
    ensures inside { IfOk result (λ o. IfSome o (λ d. IsInside 1024 d.content.cells)) }
{
    let Ok(rowid) = i64::try_from(id) else {
        return Err(Unavailable);
    };
    let mut row = Row::new(alloc);
    if !get(store, DEPOSITS, rowid, &mut row)? {
        return Ok(None);
    }
    deposit_of_row(alloc, &row, id)
}

/// The deposit with the number. If it was the last one read, it is reused: consecutive censuses of one deposit read and
/// parse it only once.
fn deposit_from<S: Alter>(
    store: &mut S,
    alloc: Global,
    id: u64,
    last: Option<(u64, Deposit)>,
) -> Result<Option<Deposit>, Unavailable>
    requires known { IsClean (S.Store.view store.old) → IsKnown (S.Store.view store.old) last }
    requires kept { IsInsideSquare last }
    ensures found { IsClean (S.Store.view store.new) → IfOk result (λ o. (ds : List Given) → AreFiled (S.Store.view store.old).trees ds → o ≡ numbered ds id) }
    ensures same { OnOk result (IsClean (S.Store.view store.new) → S.Store.view store.new ≡ S.Store.view store.old) }
    ensures stay { OnOk result (StayLive (S.Store.view store.old) (S.Store.view store.new)) }
    ensures calm { IsCalm S.Store store.old store.new }
    ensures inside { IfOk result (λ o. IfSome o (λ d. IsInside 1024 d.content.cells)) }
{
    match last {
        Some((known, deposit)) if known == id => Ok(Some(deposit)),
        _ => deposit_at(store, alloc, id),
    }
}

/// Whether the table of deposits has a row with the number. The row is not parsed.
fn has_deposit<S: Alter>(store: &mut S, alloc: Global, id: u64) -> Result<bool, Unavailable>
    ensures there { IsClean (S.Store.view store.new) → IfOk result (λ b. IsTrue b → (ds : List Given) → AreFiled (S.Store.view store.old).trees ds → IsSome (numbered ds id)) }
    ensures other { IsClean (S.Store.view store.new) → IfOk result (λ b. b ≡ false → (ds : List Given) → AreFiled (S.Store.view store.old).trees ds → IsSome (numbered ds id) → ⊥) }
    ensures same { OnOk result (IsClean (S.Store.view store.new) → S.Store.view store.new ≡ S.Store.view store.old) }
    ensures stay { OnOk result (StayLive (S.Store.view store.old) (S.Store.view store.new)) }
    ensures calm { IsCalm S.Store store.old store.new }
{
    let Ok(rowid) = i64::try_from(id) else {
        return Err(Unavailable);
    };
    let mut row = Row::new(alloc);
    get(store, DEPOSITS, rowid, &mut row)
}

/// Compares the next rows of tallies with the census's rows. If they are equal, returns how many rows have been read in
/// all; `before` is how many were read before.
fn rows_follow<S: Alter>(
    store: &mut S,
    alloc: Global,
    id: u64,
    rows: &[TallyRow],
    before: u64,
) -> Result<Option<u64>, Unavailable>
    requires { IsSome ((S.Store.view store.old).cursors 1) }
    ensures follow { IsClean (S.Store.view store.new) → IfOk result (λ o. IfSome o (λ more. (more ≡ before + length rows.now) × Takes 1 (rows_by count_cells (before + 1) (tagged id (map row_seen rows.now))) (S.Store.view store.old) (S.Store.view store.new))) }
    ensures none { IsClean (S.Store.view store.new) → IfOk result (λ o. o ≡ None → IsBefore 1 (rows_by count_cells (before + 1) (tagged id (map row_seen rows.now))) (S.Store.view store.old) → ⊥) }
    ensures stay { OnOk result (StayLive (S.Store.view store.old) (S.Store.view store.new)) }
    ensures calm { IsCalm S.Store store.old store.new }
{
    let mut row = Row::new(alloc);
    let mut at = before;
    for counted in rows {
        let Some(next_at) = at.checked_add(1) else {
            return Err(Unavailable);
        };
        at = next_at;
        if !next(store, 1, &mut row)? {
            return Ok(None);
        }
        if !is_of_count(alloc, &row, at, id, counted.code.as_bytes(), counted.count)? {
            return Ok(None);
        }
    }
    Ok(Some(at))
}

/// Whether the next row of flags has the census's number and this flag.
fn flag_follows<S: Alter>(
    store: &mut S,
    alloc: Global,
    id: u64,
    steady: bool,
) -> Result<bool, Unavailable>
    requires { IsSome ((S.Store.view store.old).cursors 2) }
    ensures follow { IsClean (S.Store.view store.new) → IfOk result (λ b. IsTrue b → Takes 2 (flag_row_of id steady ∷ []) (S.Store.view store.old) (S.Store.view store.new)) }
    ensures other { IsClean (S.Store.view store.new) → IfOk result (λ b. b ≡ false → IsBefore 2 (flag_row_of id steady ∷ []) (S.Store.view store.old) → ⊥) }
    ensures stay { OnOk result (StayLive (S.Store.view store.old) (S.Store.view store.new)) }
    ensures calm { IsCalm S.Store store.old store.new }
{
    let mut row = Row::new(alloc);
    if !next(store, 2, &mut row)? {
        return Ok(false);
    }
    is_of_flag(alloc, &row, id, steady)
}

/// The count in the next row of tallies. `None` unless the row belongs to the census, has this rowid, and counts at
/// least one cluster.
fn count_follows<S: Alter>(
    store: &mut S,
    alloc: Global,
    id: u64,
    at: u64,
) -> Result<Option<u64>, Unavailable>
    requires { IsSome ((S.Store.view store.old).cursors 1) }
    ensures follow { IsClean (S.Store.view store.new) → IfOk result (λ o. IfSome o (λ n. (code : List ℕ) × Takes 1 (count_row at (id, (code, n)) ∷ []) (S.Store.view store.old) (S.Store.view store.new))) }
    ensures none { IsClean (S.Store.view store.new) → IfOk result (λ o. o ≡ None → (code : List ℕ) (n : ℕ) → 1 ≤ n → IsBefore 1 (count_row at (id, (code, n)) ∷ []) (S.Store.view store.old) → ⊥) }
    ensures some { IfOk result (λ o. IfSome o (λ n. 1 ≤ n)) }
    ensures stay { OnOk result (StayLive (S.Store.view store.old) (S.Store.view store.new)) }
    ensures calm { IsCalm S.Store store.old store.new }
{
    let mut row = Row::new(alloc);
    if !next(store, 1, &mut row)? {
        return Ok(None);
    }
    let Some(code) = text_at(alloc, &row, 2)? else {
        return Ok(None);
    };
    let Some(count) = number_at(&row, 3) else {
        return Ok(None);
    };
    if count == 0 {
        return Ok(None);
    }
    if !is_of_count(alloc, &row, at, id, code.as_bytes(), count)? {
        return Ok(None);
    }
    Ok(Some(count))
}

/// Reads rows of the census's tally until their counts reach `clusters`. If the sum is exact, returns how many rows
/// have been read in all; `before` is how many were read before.
fn clusters_follow<S: Alter>(
    store: &mut S,
    alloc: Global,
    id: u64,
    clusters: u64,
    before: u64,
) -> Result<Option<u64>, Unavailable>
    requires { IsSome ((S.Store.view store.old).cursors 1) }
    ensures follow { IsClean (S.Store.view store.new) → IfOk result (λ o. IfSome o (λ more. TakesClusters id clusters before more (S.Store.view store.old) (S.Store.view store.new))) }
    ensures none { IsClean (S.Store.view store.new) → IfOk result (λ o. o ≡ None → (rows : List (List ℕ × ℕ)) → AreSome rows → sum_by (λ (row : List ℕ × ℕ). row.1) rows ≡ clusters → IsBefore 1 (rows_by count_cells (before + 1) (tagged id rows)) (S.Store.view store.old) → ⊥) }
    ensures stay { OnOk result (StayLive (S.Store.view store.old) (S.Store.view store.new)) }
    ensures calm { IsCalm S.Store store.old store.new }
{
    let mut at = before;
    let mut left = clusters;
    while left > 0 {
        let Some(next_at) = at.checked_add(1) else {
            return Err(Unavailable);
        };
        at = next_at;
        let Some(count) = count_follows(store, alloc, id, at)? else {
            return Ok(None);
        };
        if count > left {
            return Ok(None);
        }
        left -= count;
    }
    Ok(Some(at))
}

/// Whether the next row of flags has the census's number, with either flag.
fn some_flag_follows<S: Alter>(store: &mut S, alloc: Global, id: u64) -> Result<bool, Unavailable>
    requires { IsSome ((S.Store.view store.old).cursors 2) }
    ensures follow { IsClean (S.Store.view store.new) → IfOk result (λ b. IsTrue b → (steady : Bool) × Takes 2 (flag_row_of id steady ∷ []) (S.Store.view store.old) (S.Store.view store.new)) }
    ensures other { IsClean (S.Store.view store.new) → IfOk result (λ b. b ≡ false → (steady : Bool) → IsBefore 2 (flag_row_of id steady ∷ []) (S.Store.view store.old) → ⊥) }
    ensures stay { OnOk result (StayLive (S.Store.view store.old) (S.Store.view store.new)) }
    ensures calm { IsCalm S.Store store.old store.new }
{
    let mut row = Row::new(alloc);
    if !next(store, 2, &mut row)? {
        return Ok(false);
    }
    if is_of_flag(alloc, &row, id, true)? {
        return Ok(true);
    }
    is_of_flag(alloc, &row, id, false)
}

/// Counts the census again from its deposit, and compares its row, its tally's rows and its flag. If all are equal,
/// returns how many rows of tallies have been read in all.
fn counted_follows<S: Alter>(
    store: &mut S,
    alloc: Global,
    row: &Row,
    id: u64,
    census: &Census,
    before: u64,
    last: &mut Option<(u64, Deposit)>,
) -> Result<Option<u64>, Unavailable>
    requires rows { IsSome ((S.Store.view store.old).cursors 1) }
    requires flags { IsSome ((S.Store.view store.old).cursors 2) }
    requires askable { IsValidCensus census.now }
    requires known { IsClean (S.Store.view store.old) → IsKnown (S.Store.view store.old) last.old }
    requires kept { IsInsideSquare last.old }
    ensures known { IsClean (S.Store.view store.new) → IfOk result (λ o. IfSome o (λ more. IsKnown (S.Store.view store.new) last.new)) }
    ensures kept { IfOk result (λ o. IfSome o (λ more. IsInsideSquare last.new)) }
    ensures follow { IsClean (S.Store.view store.new) → IfOk result (λ o. IfSome o (λ more. (ds : List Given) → AreFiled (S.Store.view store.old).trees ds → Follows false ds id before more row.now (S.Store.view store.old) (S.Store.view store.new))) }
    ensures none { IsClean (S.Store.view store.new) → IfOk result (λ o. o ≡ None → (ds : List Given) → AreFiled (S.Store.view store.old).trees ds → (t : Tallied) → t.census ≡ census.now → AwaitsCensus ds id before row.now t (S.Store.view store.old) → ⊥) }
    ensures stay { OnOk result (StayLive (S.Store.view store.old) (S.Store.view store.new)) }
    ensures calm { IsCalm S.Store store.old store.new }
{
    let Some(deposit) = deposit_from(store, alloc, census.deposit, last.take())? else {
        return Ok(None);
    };
    let (tally, steady) = tally_of_generation(alloc, &deposit, census)?;
    *last = Some((census.deposit, deposit));
    if !is_of_census(alloc, row, id, census, tally.total, tally.unresolved)? {
        return Ok(None);
    }
    let Some(more) = rows_follow(store, alloc, id, tally.rows.as_slice(), before)? else {
        return Ok(None);
    };
    if !flag_follows(store, alloc, id, steady)? {
        return Ok(None);
    }
    Ok(Some(more))
}

/// The same for a quick check, which doesn't count: the tally only has to add up, and the flag may be either.
fn uncounted_follows<S: Alter>(
    store: &mut S,
    alloc: Global,
    row: &Row,
    id: u64,
    census: &Census,
    before: u64,
) -> Result<Option<u64>, Unavailable>
    requires rows { IsSome ((S.Store.view store.old).cursors 1) }
    requires flags { IsSome ((S.Store.view store.old).cursors 2) }
    requires askable { IsValidCensus census.now }
    ensures follow { IsClean (S.Store.view store.new) → IfOk result (λ o. IfSome o (λ more. (ds : List Given) → AreFiled (S.Store.view store.old).trees ds → Follows true ds id before more row.now (S.Store.view store.old) (S.Store.view store.new))) }
    ensures none { IsClean (S.Store.view store.new) → IfOk result (λ o. o ≡ None → (ds : List Given) → AreFiled (S.Store.view store.old).trees ds → (t : Tallied) → t.census ≡ census.now → AwaitsCensus ds id before row.now t (S.Store.view store.old) → ⊥) }
    ensures stay { OnOk result (StayLive (S.Store.view store.old) (S.Store.view store.new)) }
    ensures calm { IsCalm S.Store store.old store.new }
{
    let (Some(total), Some(unresolved)) = (number_at(row, 7), number_at(row, 8)) else {
        return Ok(None);
    };
    let Some(clusters) = total.checked_sub(unresolved) else {
        return Ok(None);
    };
    if !is_of_census(alloc, row, id, census, total, unresolved)? {
        return Ok(None);
    }
    if !has_deposit(store, alloc, census.deposit)? {
        return Ok(None);
    }
    let Some(more) = clusters_follow(store, alloc, id, clusters, before)? else {
        return Ok(None);
    };
    if !some_flag_follows(store, alloc, id)? {
        return Ok(None);
    }
    Ok(Some(more))
}

/// Checks the census in this row with the next rows of tallies and the next flag. If all are right, returns how many
/// rows of tallies have been read in all. The census is counted from its deposit, unless the check is quick. `last` is
/// the deposit that was read last.
pub(crate) fn census_follows<S: Alter>(
    store: &mut S,
    alloc: Global,
    quick: bool,
    row: &Row,
    id: u64,
    before: u64,
    last: &mut Option<(u64, Deposit)>,
) -> Result<Option<u64>, Unavailable>
    requires rows { IsSome ((S.Store.view store.old).cursors 1) }
    requires flags { IsSome ((S.Store.view store.old).cursors 2) }
    requires known { IsClean (S.Store.view store.old) → IsKnown (S.Store.view store.old) last.old }
    requires kept { IsInsideSquare last.old }
    ensures known { IsClean (S.Store.view store.new) → IfOk result (λ o. IfSome o (λ more. IsKnown (S.Store.view store.new) last.new)) }
    ensures kept { IfOk result (λ o. IfSome o (λ more. IsInsideSquare last.new)) }
    ensures follow { IsClean (S.Store.view store.new) → IfOk result (λ o. IfSome o (λ more. (ds : List Given) → AreFiled (S.Store.view store.old).trees ds → Follows quick ds id before more row.now (S.Store.view store.old) (S.Store.view store.new))) }
    ensures none { IsClean (S.Store.view store.new) → IfOk result (λ o. o ≡ None → (ds : List Given) → AreFiled (S.Store.view store.old).trees ds → (t : Tallied) → AwaitsCensus ds id before row.now t (S.Store.view store.old) → ⊥) }
    ensures stay { OnOk result (StayLive (S.Store.view store.old) (S.Store.view store.new)) }
    ensures calm { IsCalm S.Store store.old store.new }
{
    let Some(census) = census_in(alloc, row)? else {
        return Ok(None);
    };
    if !is_askable(&census) {
        return Ok(None);
    }
    if quick {
        *last = None;
        return uncounted_follows(store, alloc, row, id, &census, before);
    }
    counted_follows(store, alloc, row, id, &census, before, last)
}

/// Whether the tables of tallies' rows and of flags end here, as they must after the last census.
pub(crate) fn none_left<S: Alter>(store: &mut S, alloc: Global) -> Result<bool, Unavailable>
    requires rows { IsSome ((S.Store.view store.old).cursors 1) }
    requires flags { IsSome ((S.Store.view store.old).cursors 2) }
    ensures none { IsClean (S.Store.view store.new) → IfOk result (λ b. IsTrue b → ((S.Store.view store.old).cursors 1 ≡ Some []) × ((S.Store.view store.old).cursors 2 ≡ Some []) × (S.Store.view store.new ≡ S.Store.view store.old)) }
    ensures some { IsClean (S.Store.view store.new) → IfOk result (λ b. b ≡ false → (S.Store.view store.old).cursors 1 ≡ Some [] → (S.Store.view store.old).cursors 2 ≡ Some [] → ⊥) }
    ensures calm { IsCalm S.Store store.old store.new }
{
    let mut row = Row::new(alloc);
    if next(store, 1, &mut row)? {
        return Ok(false);
    }
    if next(store, 2, &mut row)? {
        return Ok(false);
    }
    Ok(true)
}

/// Places a cursor before the first row of each of the three tables.
fn begin_all<S: Alter>(store: &mut S, alloc: Global) -> Result<(), Unavailable>
    ensures live { OnOk result (IsSome ((S.Store.view store.new).cursors 0) × IsSome ((S.Store.view store.new).cursors 1) × IsSome ((S.Store.view store.new).cursors 2)) }
    ensures begun { IsClean (S.Store.view store.new) → OnOk result ((quick : Bool) (ds : List Given) → HasCounted quick ds 0 0 (S.Store.view store.old) (S.Store.view store.new)) }
    ensures awaits { IsClean (S.Store.view store.new) → OnOk result ((ds : List Given) → AreTallied (S.Store.view store.old).trees ds → AwaitsRest ds 0 0 (S.Store.view store.new)) }
    ensures calm { IsCalm S.Store store.old store.new }
{
    begin(store, alloc, 0, CENSUSES)?;
    begin(store, alloc, 1, CENSUS_ROWS)?;
    begin(store, alloc, 2, CENSUS_FLAGS)
}

/// Reads all rows of the three tables up to the first error. A quick check skips the counting.
pub(crate) fn censuses<S: Alter, W: CheckWatch>(
    store: &mut S,
    alloc: Global,
    quick: bool,
    watch: &mut W,
) -> Result<FoundCensuses, Unavailable>
    ensures finds { IsClean (S.Store.view store.new) → IfOk result (FindsCounted quick (S.Store.view store.old).trees) }
    ensures calm { IsCalm S.Store store.old store.new }
{
    begin_all(store, alloc)?;
    let mut row = Row::new(alloc);
    let mut read = 0u64;
    let mut last: Option<(u64, Deposit)> = None;
    for count in 0..LAST {
        watch.censuses_read(count);
        if !next(store, 0, &mut row)? {
            if none_left(store, alloc)? {
                return Ok(FoundCensuses::All(count));
            }
            return Ok(FoundCensuses::Wrong(count + 1));
        }
        match census_follows(store, alloc, quick, &row, count + 1, read, &mut last)? {
            Some(more) => read = more,
            None => return Ok(FoundCensuses::Wrong(count + 1)),
        }
    }
    Err(Unavailable)
}
