//! Reading the table of deposits.

ghost use Rattle.std.specs.Prelude.{◌≡◌, IfOk, OnOk};
ghost use Rattle.sqlite_trees.specs.View.{IsClean};
ghost use Rattle.life_check.specs.WalkState.{IsCalm, KeepsTrees, FindsDeposits};

use crate::check_watch::CheckWatch;
use crate::checked_rows::{are_valid_names, deposit_of_row};
use crate::walk::{Found, begin, next};
use life_store::Unavailable;
use sqlite::Alter;
use sqlite_value::row::Row;
use std::alloc::Global;

/// The number of the table's tree, as `sqlite` assigns it in a new archive.
pub(crate) const DEPOSITS: u32 = 1;

/// The greatest integer of SQL, which limits the numbers of deposits and censuses.
pub(crate) const LAST: u64 = 0x7fff_ffff_ffff_ffff;

/// Reads all rows up to the first error. Each has to be exactly the row that an archive writes under its number.
pub(crate) fn deposits<S: Alter, W: CheckWatch>(
    store: &mut S,
    alloc: Global,
    watch: &mut W,
) -> Result<Found, Unavailable>
    ensures finds { IsClean (S.Store.view store.new) → IfOk result (FindsDeposits ((S.Store.view store.old).trees 1)) }
    ensures keeps { IsClean (S.Store.view store.new) → OnOk result (KeepsTrees (S.Store.view store.old) (S.Store.view store.new)) }
    ensures calm { IsCalm S.Store store.old store.new }
{
    begin(store, alloc, 0, DEPOSITS)?;
    let mut row = Row::new(alloc);
    for count in 0..LAST {
        watch.deposits_read(count);
        if !next(store, 0, &mut row)? {
            return Ok(Found::All(count));
        }
        let Some(deposit) = deposit_of_row(alloc, &row, count + 1)? else {
            return Ok(Found::Wrong(count + 1));
        };
        if !are_valid_names(&deposit.member, &deposit.token) {
            return Ok(Found::Misnamed(count + 1));
        }
    }
    Err(Unavailable)
}
