//! Listing the errors of an archive after the first one. Each row is looked up by its number, so that a wrong row
//! doesn't hide the others.

ghost use Rattle.std.specs.Prelude.{◌≡◌, ◌<◌, ◌≤◌, ◌+◌, List, length, IsSome, IfOk, IfSome, OnOk};
ghost use Rattle.sqlite_trees.specs.View.{IsClean, StayLive};
ghost use Rattle.life_check.specs.WalkState.{IsCalm};
ghost use Rattle.life_check.specs.Listed.{IsWrongThere, AreWrongThere, IsBeforeCensuses};
ghost use Rattle.sqlite_value.specs.Order.{Row as Values};

use crate::archive_check::Wrong;
use crate::check_watch::CheckWatch;
use crate::checked_censuses::{CENSUS_FLAGS, CENSUS_ROWS, CENSUSES, census_follows, none_left};
use crate::checked_deposits::{DEPOSITS, LAST};
use crate::checked_rows::{are_valid_names, deposit_of_row, number_at};
use crate::walk::{get, next};
use life_store::{Deposit, Unavailable};
use sqlite::Alter;
use sqlite_trees::store::Direction;
use sqlite_value::row::Row;
use sqlite_value::value::ValueRef;
use std::alloc::Global;

/// The most errors that a check lists, including the first.
const MOST_ERRORS: usize = 100;

/// Places the cursor before the row with the number, or before the next one if there is no such row.
fn seek_number<S: Alter>(
    store: &mut S,
    alloc: Global,
    cursor: u16,
    table: u32,
    number: u64,
) -> Result<(), Unavailable>
    ensures live { OnOk result (IsSome ((S.Store.view store.new).cursors cursor)) }
    ensures stay { OnOk result (StayLive (S.Store.view store.old) (S.Store.view store.new)) }
    ensures calm { IsCalm S.Store store.old store.new }
{
    let Ok(number) = i64::try_from(number) else {
        return Err(Unavailable);
    };
    let mut key = Row::new(alloc);
    key.push(ValueRef::Int(number))?;
    match store.seek(cursor, table, &key, Direction::Forward) {
        Ok(()) => Ok(()),
        Err(_) => Err(Unavailable),
    }
}

/// The greatest number of a row of the table; 0 if the table is empty.
fn last_number<S: Alter>(store: &mut S, alloc: Global, table: u32) -> Result<u64, Unavailable>
    ensures keeps { IsClean (S.Store.view store.new) → OnOk result ((S.Store.view store.new).trees ≡ (S.Store.view store.old).trees) }
    ensures calm { IsCalm S.Store store.old store.new }
{
    match store.seek(0, table, &Row::new(alloc), Direction::Backward) {
        Ok(()) => {}
        Err(_) => return Err(Unavailable),
    }
    let mut row = Row::new(alloc);
    if !next(store, 0, &mut row)? {
        return Ok(0);
    }
    Ok(number_at(&row, 0).unwrap_or(0))
}

/// The error of the deposit with the number, or `None`.
fn deposit_error<S: Alter>(
    store: &mut S,
    alloc: Global,
    id: u64,
) -> Result<Option<Wrong>, Unavailable>
    ensures wrong { IsClean (S.Store.view store.new) → IfOk result (λ o. IfSome o (IsWrongThere ((S.Store.view store.old).trees 1))) }
    ensures keeps { IsClean (S.Store.view store.new) → OnOk result ((S.Store.view store.new).trees ≡ (S.Store.view store.old).trees) }
    ensures calm { IsCalm S.Store store.old store.new }
{
    let Ok(rowid) = i64::try_from(id) else {
        return Err(Unavailable);
    };
    let mut row = Row::new(alloc);
    if !get(store, DEPOSITS, rowid, &mut row)? {
        return Ok(Some(Wrong::Deposit(id)));
    }
    let Some(deposit) = deposit_of_row(alloc, &row, id)? else {
        return Ok(Some(Wrong::Deposit(id)));
    };
    if are_valid_names(&deposit.member, &deposit.token) {
        return Ok(None);
    }
    Ok(Some(Wrong::DepositNames(id)))
}

/// Adds an error, if there is one.
fn add(errors: &mut Vec<Wrong>, error: Option<Wrong>) -> Result<(), Unavailable>
    ensures few { length errors.new.items ≤ length errors.old.items + 1 }
    ensures wrong { (deposits : List Values) → AreWrongThere deposits errors.old.items → IfSome error (IsWrongThere deposits) → AreWrongThere deposits errors.new.items }
{
    let Some(wrong) = error else {
        return Ok(());
    };
    match errors.push(wrong) {
        Ok(()) => Ok(()),
        Err(_) => Err(Unavailable),
    }
}

/// Adds the errors of the deposits with numbers above `after`. If reading fails, the errors found so far stay.
fn add_deposits<S: Alter, W: CheckWatch>(
    store: &mut S,
    alloc: Global,
    after: u64,
    errors: &mut Vec<Wrong>,
    watch: &mut W,
) -> Result<(), Unavailable>
    requires { length errors.old.items < MOST_ERRORS }
    ensures few { length errors.new.items < MOST_ERRORS }
    ensures wrong { IsClean (S.Store.view store.new) → AreWrongThere ((S.Store.view store.old).trees 1) errors.old.items → AreWrongThere ((S.Store.view store.old).trees 1) errors.new.items }
    ensures calm { IsCalm S.Store store.old store.new }
{
    let last = last_number(store, alloc, DEPOSITS)?;
    for id in after..last {
        if errors.len() >= MOST_ERRORS - 1 {
            return Ok(());
        }
        let error = deposit_error(store, alloc, id + 1)?;
        add(errors, error)?;
        watch.deposits_read(id + 1);
    }
    Ok(())
}

/// The rowid after which the tally of the census should begin. It passes the rows after `from` that belong to earlier
/// censuses.
fn place_before<S: Alter>(
    store: &mut S,
    alloc: Global,
    id: u64,
    from: u64,
) -> Result<u64, Unavailable>
    ensures calm { IsCalm S.Store store.old store.new }
{
    let Some(first) = from.checked_add(1) else {
        return Err(Unavailable);
    };
    seek_number(store, alloc, 1, CENSUS_ROWS, first)?;
    let mut row = Row::new(alloc);
    let mut at = from;
    'rows: for _i in 0..LAST {
        if !next(store, 1, &mut row)? {
            return Ok(at);
        }
        let (Some(place), Some(census)) = (number_at(&row, 0), number_at(&row, 1)) else {
            return Ok(at);
        };
        if census >= id {
            return Ok(place.saturating_sub(1));
        }
        at = place;
    }
    Err(Unavailable)
}

/// Checks the census with the number, whose tally's rows begin after the rowid `before`. If all are right, returns the
/// rowid of the last of them.
fn census_at<S: Alter>(
    store: &mut S,
    alloc: Global,
    quick: bool,
    id: u64,
    before: u64,
) -> Result<Option<u64>, Unavailable>
    ensures calm { IsCalm S.Store store.old store.new }
{
    let (Ok(rowid), Some(first)) = (i64::try_from(id), before.checked_add(1)) else {
        return Err(Unavailable);
    };
    let mut row = Row::new(alloc);
    if !get(store, CENSUSES, rowid, &mut row)? {
        return Ok(None);
    }
    seek_number(store, alloc, 1, CENSUS_ROWS, first)?;
    seek_number(store, alloc, 2, CENSUS_FLAGS, id)?;
    let mut last: Option<(u64, Deposit)> = None;
    census_follows(store, alloc, quick, &row, id, before, &mut last)
}

/// Checks the census like [`census_at`]. If it is wrong, adds an error and searches for the rows of the next census.
/// Returns the rowid before these.
fn pass_census<S: Alter>(
    store: &mut S,
    alloc: Global,
    quick: bool,
    id: u64,
    before: u64,
    errors: &mut Vec<Wrong>,
) -> Result<u64, Unavailable>
    requires { length errors.old.items + 1 < MOST_ERRORS }
    ensures few { length errors.new.items < MOST_ERRORS }
    ensures wrong { (deposits : List Values) → AreWrongThere deposits errors.old.items → AreWrongThere deposits errors.new.items }
    ensures calm { IsCalm S.Store store.old store.new }
{
    if let Some(end) = census_at(store, alloc, quick, id, before)? {
        return Ok(end);
    }
    add(errors, Some(Wrong::Census(id)))?;
    place_before(store, alloc, id.saturating_add(1), before)
}

/// Adds an error if rows of tallies or flags are left after the last census, whose rows end at the rowid `before`.
fn add_rows_left<S: Alter>(
    store: &mut S,
    alloc: Global,
    last: u64,
    before: u64,
    errors: &mut Vec<Wrong>,
) -> Result<(), Unavailable>
    requires { length errors.old.items < MOST_ERRORS }
    ensures few { length errors.new.items < MOST_ERRORS }
    ensures wrong { (deposits : List Values) → AreWrongThere deposits errors.old.items → AreWrongThere deposits errors.new.items }
    ensures calm { IsCalm S.Store store.old store.new }
{
    if errors.len() >= MOST_ERRORS - 1 {
        return Ok(());
    }
    let (Some(next_number), Some(next_place)) = (last.checked_add(1), before.checked_add(1)) else {
        return Err(Unavailable);
    };
    seek_number(store, alloc, 1, CENSUS_ROWS, next_place)?;
    seek_number(store, alloc, 2, CENSUS_FLAGS, next_number)?;
    if none_left(store, alloc)? {
        return Ok(());
    }
    add(errors, Some(Wrong::Census(next_number)))
}

/// Adds the errors of the censuses with numbers above `after`. A quick check skips the counting.
fn add_censuses<S: Alter, W: CheckWatch>(
    store: &mut S,
    alloc: Global,
    quick: bool,
    after: u64,
    errors: &mut Vec<Wrong>,
    watch: &mut W,
) -> Result<(), Unavailable>
    requires { length errors.old.items < MOST_ERRORS }
    ensures few { length errors.new.items < MOST_ERRORS }
    ensures wrong { (deposits : List Values) → AreWrongThere deposits errors.old.items → AreWrongThere deposits errors.new.items }
    ensures calm { IsCalm S.Store store.old store.new }
{
    let last = last_number(store, alloc, CENSUSES)?;
    if after > last {
        return Ok(());
    }
    let mut before = place_before(store, alloc, after.saturating_add(1), 0)?;
    for id in after..last {
        if errors.len() >= MOST_ERRORS - 1 {
            return Ok(());
        }
        before = pass_census(store, alloc, quick, id + 1, before, errors)?;
        watch.censuses_read(id + 1);
    }
    add_rows_left(store, alloc, last, before, errors)
}

/// The number after which deposits still have to be checked, given the first error. `None` if all were checked, or if
/// the schema is wrong.
fn deposits_after(first: Wrong) -> Option<u64>
    ensures { IsSome result → IsBeforeCensuses first }
{
    match first {
        Wrong::Layout => Some(0),
        Wrong::Deposit(id) | Wrong::DepositNames(id) => Some(id),
        Wrong::Tables | Wrong::Census(_) => None,
    }
}

/// The number after which censuses still have to be checked, given the first error. `None` if the schema is wrong,
/// since then rows can't be read.
fn censuses_after(first: Wrong) -> Option<u64> {
    match first {
        Wrong::Census(id) => Some(id),
        Wrong::Layout | Wrong::Deposit(_) | Wrong::DepositNames(_) => Some(0),
        Wrong::Tables => None,
    }
}

/// Adds the errors after the first one. If reading fails, the errors found so far stay.
fn add_further<S: Alter, W: CheckWatch>(
    store: &mut S,
    alloc: Global,
    quick: bool,
    first: Wrong,
    errors: &mut Vec<Wrong>,
    watch: &mut W,
) -> Result<(), Unavailable>
    requires { length errors.old.items < MOST_ERRORS }
    ensures few { length errors.new.items < MOST_ERRORS }
    ensures wrong { (deposits : List Values) → IsClean (S.Store.view store.new) → (IsBeforeCensuses first → (S.Store.view store.old).trees 1 ≡ deposits) → AreWrongThere deposits errors.old.items → AreWrongThere deposits errors.new.items }
    ensures calm { IsCalm S.Store store.old store.new }
{
    if let Some(after) = deposits_after(first) {
        add_deposits(store, alloc, after, errors, watch)?;
    }
    let Some(after) = censuses_after(first) else {
        return Ok(());
    };
    add_censuses(store, alloc, quick, after, errors, watch)
}

/// The errors of an archive after the first one, in the order of the numbers, deposits before censuses. With the first
/// there are at most 100. Items up to the first error are not checked again. If reading fails, the list ends there.
pub fn further_errors<S: Alter, W: CheckWatch>(
    store: &mut S,
    alloc: Global,
    quick: bool,
    first: Wrong,
    watch: &mut W,
) -> Vec<Wrong>
    ensures few { length result.items < MOST_ERRORS }
    ensures wrong { (deposits : List Values) → IsClean (S.Store.view store.new) → (IsBeforeCensuses first → (S.Store.view store.old).trees 1 ≡ deposits) → AreWrongThere deposits result.items }
    ensures calm { IsCalm S.Store store.old store.new }
{
    let mut errors = Vec::new(alloc);
    let _complete = add_further(store, alloc, quick, first, &mut errors, watch);
    errors
}
