//! Reading the rows of a table from the store, below SQL: in order with a cursor, or one by its rowid.

ghost use Rattle.std.specs.Prelude.{◌≡◌, ℕ, pos, false, IsSome, IfOk, OnOk};
ghost use Rattle.sqlite_trees.specs.View.{IsClean, StayLive, Advances, Finds as Gets, with_cursor};
ghost use Rattle.life_check.specs.WalkState.{IsCalm};

use life_store::Unavailable;
use sqlite::Alter;
use sqlite_trees::store::{Direction, Shape};
use sqlite_value::row::Row;
use std::alloc::Global;

/// The result of reading the table of deposits.
pub(crate) enum Found {
    /// There are this many, each as an archive writes it under its number.
    All(u64),
    /// The row that should have this number is not one that an archive writes.
    Wrong(u64),
    /// The member or the token of the row with this number is not valid in a request.
    Misnamed(u64),
}

/// The result of reading the three tables of censuses.
pub(crate) enum FoundCensuses {
    /// There are this many, each with the rows of its tally and its flag.
    All(u64),
    /// The row that should be the census with this number, a row of its tally, or its flag is not one that an archive writes.
    Wrong(u64),
}

/// Places the cursor before the first row of the table.
pub(crate) fn begin<S: Alter>(
    store: &mut S,
    alloc: Global,
    cursor: u16,
    table: u32,
) -> Result<(), Unavailable>
    ensures placed { OnOk result (IsClean (S.Store.view store.new) → S.Store.view store.new ≡ with_cursor (S.Store.view store.old) cursor ((S.Store.view store.old).trees table)) }
    ensures live { OnOk result (IsSome ((S.Store.view store.new).cursors cursor)) }
    ensures stay { OnOk result (StayLive (S.Store.view store.old) (S.Store.view store.new)) }
    ensures sound { OnOk result (IsClean (S.Store.view store.new) → (S.Store.view store.old).is_broken ≡ false) }
    ensures calm { IsCalm S.Store store.old store.new }
{
    match store.seek(cursor, table, &Row::new(alloc), Direction::Forward) {
        Ok(()) => Ok(()),
        Err(_) => Err(Unavailable),
    }
}

/// Writes the next row into `row`, or returns false if there is none.
pub(crate) fn next<S: Alter>(store: &mut S, cursor: u16, row: &mut Row) -> Result<bool, Unavailable>
    requires { IsSome ((S.Store.view store.old).cursors cursor) }
    ensures ok { IfOk result (λ found. IsClean (S.Store.view store.new) → Advances (S.Store.view store.old) (S.Store.view store.new) cursor row.new found) }
    ensures stay { OnOk result (StayLive (S.Store.view store.old) (S.Store.view store.new)) }
    ensures calm { IsCalm S.Store store.old store.new }
{
    match store.next(cursor, row) {
        Ok(found) => Ok(found),
        Err(_) => Err(Unavailable),
    }
}

/// Writes the row with this rowid into `row`, or returns false if there is none. No cursor moves.
pub(crate) fn get<S: Alter>(
    store: &mut S,
    table: u32,
    id: i64,
    row: &mut Row,
) -> Result<bool, Unavailable>
    ensures ok { (n : ℕ) → id ≡ pos n → IfOk result (λ found. IsClean (S.Store.view store.new) → Gets ((S.Store.view store.old).trees table) (pos n) row.new found) }
    ensures same { OnOk result (IsClean (S.Store.view store.new) → S.Store.view store.new ≡ S.Store.view store.old) }
    ensures stay { OnOk result (StayLive (S.Store.view store.old) (S.Store.view store.new)) }
    ensures calm { IsCalm S.Store store.old store.new }
{
    match store.shape(table) {
        Shape::Table => {}
        _ => return Err(Unavailable),
    }
    match store.get(table, id, row) {
        Ok(found) => Ok(found),
        Err(_) => Err(Unavailable),
    }
}
