//! The check of an archive: its schema first, then every row. It stops at the first error.

ghost use Rattle.std.specs.Prelude.{◌≡◌, ◌≢◌, ◌↔◌, ◌∷◌, [], ℕ, pos, false, Some, IfOk, OnOk, IsTrue};
ghost use Rattle.sqlite_value.specs.declared.value.Value.TheVariants.{Int};
ghost use Rattle.sqlite_trees.specs.View.{IsClean};
ghost use Rattle.sqlite.specs.Held.{AreDatabases};
ghost use Rattle.life_store.specs.Layout.{archive_schema};
ghost use Rattle.life_store.specs.Tables.{version_2};
ghost use Rattle.life_check.specs.WalkState.{IsCalm, KeepsTrees};
ghost use Rattle.life_check.specs.Listed.{StopsBeforeCensuses};
ghost use Rattle.life_check.specs.Sound.{FindsSound, RepresentsSome, HasUniqueTokens};
ghost use Rattle.life_desk.specs.Archive.{Archive as Model};
ghost use Rattle.life_store.specs.declared.kept.Deposit.{Deposit};
ghost use Rattle.life_store.specs.declared.kept.Census.{Census};
ghost use Rattle.life_store.specs.Kept.{numbered, deposit_by, census_by};

use crate::check_watch::CheckWatch;
use crate::checked_censuses::censuses;
use crate::checked_deposits::deposits;
use crate::schemas::is_same_schema;
use crate::walk::{Found, FoundCensuses, begin, next};
use life_store::{Archive, Unavailable};
use sqlite::Alter;
use sqlite_value::row::Row;
use sqlite_value::value::ValueRef;
use std::alloc::Global;

/// The place of an error in an archive.
#[derive(Clone, Copy, Debug, PartialEq, Eq)]
pub enum Wrong {
    /// The schema: the tables, their columns, checks or indexes.
    Tables,
    /// The rows of `layout`, which should be one row with version 2.
    Layout,
    /// The row that should be the deposit with the number; it may be missing.
    Deposit(u64),
    /// The member or the token of the deposit with the number is one that no request may have.
    DepositNames(u64),
    /// The row that should be the census with the number, a row of its tally, or its flag.
    Census(u64),
}

/// The result of checking an archive.
#[derive(Clone, Copy, Debug, PartialEq, Eq)]
pub enum CheckVerdict {
    /// The tables represent an archive with this many deposits and this many censuses.
    Sound(u64, u64),
    /// The same for a quick check, which doesn't count: each census has some tally that adds up, and some flag.
    SoundButForCounts(u64, u64),
    /// The first error is here. [`further_errors`](crate::further_errors) lists those after it.
    NotSound(Wrong),
}

/// Whether the row is the one that names version 2, with the rowid 1.
fn is_version(alloc: Global, row: &Row) -> Result<bool, Unavailable>
    ensures { IfOk result (λ b. IsTrue b ↔ (row.now ≡ Int (pos 1) ∷ Int (pos 2) ∷ [])) }
{
    let mut written = Row::new(alloc);
    written.push(ValueRef::Int(1))?;
    written.push(ValueRef::Int(2))?;
    Ok(row.is_same(&written))
}

/// Whether the table `layout` has exactly that row.
fn is_layout<S: Alter>(store: &mut S, alloc: Global) -> Result<bool, Unavailable>
    ensures version { IsClean (S.Store.view store.new) → IfOk result (λ b. IsTrue b → (S.Store.view store.old).trees 0 ≡ version_2) }
    ensures other { IsClean (S.Store.view store.new) → IfOk result (λ b. b ≡ false → (S.Store.view store.old).trees 0 ≢ version_2) }
    ensures keeps { IsClean (S.Store.view store.new) → OnOk result (KeepsTrees (S.Store.view store.old) (S.Store.view store.new)) }
    ensures calm { IsCalm S.Store store.old store.new }
{
    begin(store, alloc, 0, 0)?;
    let mut row = Row::new(alloc);
    if !next(store, 0, &mut row)? {
        return Ok(false);
    }
    if !is_version(alloc, &row)? {
        return Ok(false);
    }
    if next(store, 0, &mut row)? {
        return Ok(false);
    }
    Ok(true)
}

/// Reads all trees of an archive's tables once, up to the first error. It holds one row and one tally at a time. A
/// quick check skips the counting.
pub fn check_trees<S: Alter, W: CheckWatch>(
    store: &mut S,
    alloc: Global,
    quick: bool,
    watch: &mut W,
) -> Result<CheckVerdict, Unavailable>
    ensures sound { IsClean (S.Store.view store.new) → IfOk result (FindsSound quick (S.Store.view store.old).trees) }
    ensures unbroken { IsClean (S.Store.view store.new) → OnOk result ((S.Store.view store.old).is_broken ≡ false) }
    ensures deposits { IsClean (S.Store.view store.new) → IfOk result (λ v. StopsBeforeCensuses v → (S.Store.view store.new).trees 1 ≡ (S.Store.view store.old).trees 1) }
    ensures calm { IsCalm S.Store store.old store.new }
{
    if !is_layout(store, alloc)? {
        return Ok(CheckVerdict::NotSound(Wrong::Layout));
    }
    let deposits = match deposits(store, alloc, watch)? {
        Found::All(count) => count,
        Found::Wrong(id) => return Ok(CheckVerdict::NotSound(Wrong::Deposit(id))),
        Found::Misnamed(id) => return Ok(CheckVerdict::NotSound(Wrong::DepositNames(id))),
    };
    let censuses = match censuses(store, alloc, quick, watch)? {
        FoundCensuses::All(count) => count,
        FoundCensuses::Wrong(id) => return Ok(CheckVerdict::NotSound(Wrong::Census(id))),
    };
    if quick {
        return Ok(CheckVerdict::SoundButForCounts(deposits, censuses));
    }
    Ok(CheckVerdict::Sound(deposits, censuses))
}

/// Whether the schema equals the one of a new archive, which is made in memory for this.
fn has_schema<S: Alter>(archive: &Archive<S>, alloc: Global) -> Result<bool, Unavailable>
    ensures { IfOk result (λ known. IsTrue known ↔ (archive.now.tables.schema ≡ archive_schema)) }
{
    match Archive::open_in_memory(alloc, 1) {
        Ok(made) => Ok(is_same_schema(archive.schema(), made.schema())),
        Err(_) => Err(Unavailable),
    }
}

/// Checks every row of an archive whose schema is right, and returns its store.
fn check_rows<S: Alter + Drop, W: CheckWatch>(
    archive: Archive<S>,
    alloc: Global,
    quick: bool,
    watch: &mut W,
) -> (Result<CheckVerdict, Unavailable>, S)
    ensures sound { IsClean (S.Store.view result.1) → archive.tables.schema ≡ archive_schema → IfOk result.0 (RepresentsSome quick archive) }
    ensures deposits { IsClean (S.Store.view result.1) → IfOk result.0 (λ v. StopsBeforeCensuses v → (S.Store.view result.1).trees 1 ≡ archive.tables.deposits) }
    ensures calm { IsCalm S.Store archive.store result.1 }
    ensures numbered { IsClean (S.Store.view result.1) → IsTrue (S.Store.view result.1).is_numbered }
    ensures databases { IsClean (S.Store.view result.1) → AreDatabases (S.Store.recovers result.1) }
{
    let (is_settled, mut store) = archive.into_trees();
    if !is_settled {
        return (Err(Unavailable), store);
    }
    let verdict = check_trees(&mut store, alloc, quick, watch);
    (verdict, store)
}

/// The store of an archive whose rows are not read, since its schema is wrong or memory ran out.
fn store_of<S: Alter + Drop>(archive: Archive<S>) -> S
    ensures calm { IsCalm S.Store archive.store result }
    ensures numbered { IsClean (S.Store.view result) → IsTrue (S.Store.view result).is_numbered }
    ensures databases { IsClean (S.Store.view result) → AreDatabases (S.Store.recovers result) }
{
    archive.into_trees().1
}

/// If no two deposits share member and token, a repeated request finds the deposit that it made. The same holds for
/// censuses. A law: calling it does nothing.
pub fn law_of_unique_tokens()
    ensures deposits { (A : Model) (i : ℕ) (d : Deposit) → HasUniqueTokens A → numbered A.deposits i ≡ Some d → deposit_by d.member d.token A.deposits ≡ Some (i, d) }
    ensures censuses { (A : Model) (i : ℕ) (c : Census) → HasUniqueTokens A → numbered A.censuses i ≡ Some c → census_by c.member c.token A.censuses ≡ Some (i, c) }
{}

/// Checks the schema and every row of an archive, and returns its store unchanged. Sound tables are an archive,
/// whichever program wrote them. A quick check skips the counting, and takes about as long as reading the deposits
/// once.
pub fn check<S: Alter + Drop, W: CheckWatch>(
    archive: Archive<S>,
    alloc: Global,
    quick: bool,
    watch: &mut W,
) -> (Result<CheckVerdict, Unavailable>, S)
    ensures sound { IsClean (S.Store.view result.1) → IfOk result.0 (RepresentsSome quick archive) }
    ensures deposits { IsClean (S.Store.view result.1) → IfOk result.0 (λ v. StopsBeforeCensuses v → (S.Store.view result.1).trees 1 ≡ archive.tables.deposits) }
    ensures calm { IsCalm S.Store archive.store result.1 }
    ensures numbered { IsClean (S.Store.view result.1) → IsTrue (S.Store.view result.1).is_numbered }
    ensures databases { IsClean (S.Store.view result.1) → AreDatabases (S.Store.recovers result.1) }
{
    match has_schema(&archive, alloc) {
        Ok(true) => check_rows(archive, alloc, quick, watch),
        Ok(false) => (Ok(CheckVerdict::NotSound(Wrong::Tables)), store_of(archive)),
        Err(_) => (Err(Unavailable), store_of(archive)),
    }
}
