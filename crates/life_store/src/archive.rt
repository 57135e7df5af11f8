//! The archive, over any store.

ghost use Rattle.std.specs.Prelude.{◌≡◌, ◌≤◌, ◌+◌, ◌++◌, false, ◌∷◌, [], ℕ, List, length, option_map, IsTrue, IfOk, IfSome, OnOk, OnErr};
ghost use Rattle.sqlite_trees.specs.Tree.{Trees};
ghost use Rattle.sqlite_trees.specs.View.{doubt, IsClean};
ghost use Rattle.life_store.specs.TreesOf.{AreTreesOf};
ghost use Rattle.sqlite.specs.Held.{state, AreDatabases};
ghost use Rattle.life_rle.specs.Record.{IsInside};
ghost use Rattle.life_rle.specs.Writer.{text};
ghost use Rattle.life_store.specs.Kept.{Kept, numbered, deposit_by, file_of_deposit, listed_after, kept_census, census_by, censuses_of, total_of};
ghost use Rattle.life_store.specs.Crash.{NothingNew};
ghost use Rattle.life_store.specs.Tables.{tables_of, IsTransition, IsHealthyIfClean, HoldsTheSame, ForAllHeld, HasOrder, AddsDeposit, AddsCensus, HoldChanged, TreesHold, Holds};

use crate::kept::{Census, Deposit, KeptCensus, Listing};
use crate::reading::{
    all_lines, all_rows, count_in, first_census, first_deposit, first_file, first_flag, total_in,
};
use crate::store_fault::Unavailable;
use crate::{censuses, deposits, flags};
use life_census::{Rows, Tally};
use life_core::Rule;
use sqlite::{Alter, Connection, MemStore};
use sqlite_schema::schema::Schema;
use std::alloc::Global;
use std::marker::Model;

/// Deposits and censuses in the tables of a database (docs/FORMATS.md), over any store of `sqlite`: memory, or files.
///
/// Contracts see the tables, whatever their contents, and the capacity. A clause speaks about all deposits and censuses
/// that the tables represent before the call. It holds if the database is healthy after the call: open, on a disk that
/// returned everything as it was written. Each call either does its one act, or is `Unavailable` and changes nothing.
/// Deposits and censuses are numbered from 1, in the order in which they were added.
pub struct Archive<S: Alter> {
    pub(crate) conn: Connection<S>,
    pub(crate) capacity: u64,
}

// Written out, so that callers don't prove again how each part is dropped.
impl<S: Alter + Drop> Drop for Archive<S> {
    fn drop(self) {
        let Archive {
            conn: _,
            capacity: _,
        } = self;
    }
}

impl<S: Alter> Model for Archive<S> {
    ghost use Rattle.life_store.specs.Tables.{ArchiveView, coded_view};

    ghost Value = { ArchiveView S };

    ghost coded = { coded_view S.code };

    ghost use Rattle.sqlite.specs.Held.{state};
    ghost use Rattle.life_store.specs.Tables.{tables_of};

    ghost view = { λ a. record { tables = tables_of (state S.Store a.conn); capacity = a.capacity; store = a.conn.store } };
}

impl<S: Alter> Archive<S> {
    /// Gives up the archive for its connection, to close it or to read its trees.
    pub(crate) fn into_connection(self) -> Connection<S>
        ensures tables { tables_of (state S.Store result) ≡ self.tables }
        ensures store { result.store ≡ self.store }
    {
        let Archive { conn, capacity: _ } = self;
        conn
    }

    /// The tables, with their columns, checks and indexes. No row is read.
    pub fn schema(&self) -> &Schema
        ensures { result.now ≡ self.now.tables.schema }
    {
        self.conn.schema()
    }

    /// While an archive is healthy, a crash leaves exactly its contents: every answered change is committed. A law: calling
    /// it does nothing.
    pub fn law_of_crashes(&self)
        ensures { IsTrue self.now.tables.is_healthy → (k : Kept) → Holds self.now.tables k → (db : Trees) → S.Store.recovers self.now.store db → TreesHold db k }
    {
        let _obeyed = self.conn.schema();
        let _settled = self.conn.is_autocommit();
    }

    /// The store of a healthy archive is open. A law: calling it does nothing.
    pub fn law_of_open_stores(&self)
        ensures { IsTrue self.now.tables.is_healthy → IsTrue (S.Store.view self.now.store).is_open }
    {
        let _ = &self.conn;
    }

    /// The most deposits, and the most censuses, that the archive accepts. The caller has to enforce it: no call here
    /// does. The store is not queried.
    pub fn capacity(&self) -> u64
        ensures { result ≡ self.now.capacity }
    {
        self.capacity
    }

    /// How many deposits there are: the greatest number. No table is walked.
    pub fn count_deposits(&mut self) -> Result<u64, Unavailable>
        ensures transition { IsTransition S.Store NothingNew self.old self.new }
        ensures healthy { OnOk result (IsHealthyIfClean S.Store self.new) }
        ensures same { HoldsTheSame self.old.tables self.new.tables }
        ensures value { ForAllHeld self.old.tables self.new.tables (λ k. IfOk result (λ n. n ≡ length k.deposits)) }
    {
        let rows = deposits::newest(&mut self.conn)?;
        count_in(rows.as_slice())
    }

    /// The deposit with the number, or `None`.
    pub fn deposit_of(&mut self, alloc: Global, id: u64) -> Result<Option<Deposit>, Unavailable>
        ensures transition { IsTransition S.Store NothingNew self.old self.new }
        ensures healthy { OnOk result (IsHealthyIfClean S.Store self.new) }
        ensures same { HoldsTheSame self.old.tables self.new.tables }
        ensures value { ForAllHeld self.old.tables self.new.tables (λ k. IfOk result (λ d. d ≡ numbered k.deposits id)) }
        ensures inside { IfOk result (λ o. IfSome o (λ d. IsInside 1024 d.content.cells)) }
    {
        let Ok(rowid) = i64::try_from(id) else {
            // No row has such a number. The store is queried anyway: a closed one is unavailable.
            let _count = self.count_deposits()?;
            return Ok(None);
        };
        let rows = deposits::show(&mut self.conn, rowid)?;
        match first_deposit(alloc, rows.as_slice())? {
            Some((_, deposit)) => Ok(Some(deposit)),
            None => Ok(None),
        }
    }

    /// The pattern file of the deposit with the number, or `None`: the stored canonical text. It is parsed, written again,
    /// compared, and returned unchanged.
    pub fn file_of(&mut self, alloc: Global, id: u64) -> Result<Option<Vec<u8>>, Unavailable>
        ensures transition { IsTransition S.Store NothingNew self.old self.new }
        ensures healthy { OnOk result (IsHealthyIfClean S.Store self.new) }
        ensures same { HoldsTheSame self.old.tables self.new.tables }
        ensures value { ForAllHeld self.old.tables self.new.tables (λ k. IfOk result (λ file. option_map (λ v. v.items) file ≡ option_map (λ d. text d.content) (numbered k.deposits id))) }
    {
        let Ok(rowid) = i64::try_from(id) else {
            // No row has such a number. The store is queried anyway: a closed one is unavailable.
            let _count = self.count_deposits()?;
            return Ok(None);
        };
        let rows = deposits::show(&mut self.conn, rowid)?;
        match first_file(alloc, rows.as_slice())? {
            Some((_, file)) => Ok(Some(file)),
            None => Ok(None),
        }
    }

    /// The deposit of the member and the token, with its number, or `None`.
    pub fn find_deposit(
        &mut self,
        alloc: Global,
        member: &[u8],
        token: &[u8],
    ) -> Result<Option<(u64, Deposit)>, Unavailable>
        ensures transition { IsTransition S.Store NothingNew self.old self.new }
        ensures healthy { OnOk result (IsHealthyIfClean S.Store self.new) }
        ensures same { HoldsTheSame self.old.tables self.new.tables }
        ensures value { ForAllHeld self.old.tables self.new.tables (λ k. IfOk result (λ d. d ≡ deposit_by member.now token.now k.deposits)) }
        ensures inside { IfOk result (λ o. IfSome o (λ d. IsInside 1024 d.1.content.cells)) }
    {
        let rows = deposits::find(&mut self.conn, member, token)?;
        first_deposit(alloc, rows.as_slice())
    }

    /// The number and the pattern file of the deposit of the member and the token, or `None`. The file is the stored
    /// canonical text, checked as in [`Archive::file_of`].
    pub fn find_file(
        &mut self,
        alloc: Global,
        member: &[u8],
        token: &[u8],
    ) -> Result<Option<(u64, Vec<u8>)>, Unavailable>
        ensures transition { IsTransition S.Store NothingNew self.old self.new }
        ensures healthy { OnOk result (IsHealthyIfClean S.Store self.new) }
        ensures same { HoldsTheSame self.old.tables self.new.tables }
        ensures value { ForAllHeld self.old.tables self.new.tables (λ k. IfOk result (λ f. option_map {U = ℕ × List ℕ} (λ p. (p.0, p.1.items)) f ≡ option_map file_of_deposit (deposit_by member.now token.now k.deposits))) }
    {
        let found = deposits::find(&mut self.conn, member, token)?;
        first_file(alloc, found.as_slice())
    }

    /// The first hundred deposits with a greater number, a line each. Any number is valid.
    pub fn deposits_after(&mut self, alloc: Global, id: u64) -> Result<Listing, Unavailable>
        ensures transition { IsTransition S.Store NothingNew self.old self.new }
        ensures healthy { OnOk result (IsHealthyIfClean S.Store self.new) }
        ensures same { HoldsTheSame self.old.tables self.new.tables }
        ensures value { ForAllHeld self.old.tables self.new.tables (λ k. IfOk result (λ lines. lines ≡ listed_after id k.deposits)) }
    {
        let Ok(rowid) = i64::try_from(id) else {
            // No row has such a number. The store is queried anyway: a closed one is unavailable.
            let _count = self.count_deposits()?;
            return Ok(Listing::of(Vec::new(alloc)));
        };
        let rows = deposits::list_after(&mut self.conn, rowid)?;
        all_lines(alloc, rows.as_slice())
    }

    /// Adds a deposit, and returns its number. The caller has to check first that its member and token are
    /// not stored yet.
    pub fn add_deposit(&mut self, alloc: Global, deposit: &Deposit) -> Result<u64, Unavailable>
        requires { IsInside 1024 deposit.now.content.cells }
        ensures transition { IsTransition S.Store (HoldChanged self.old.tables (λ k. record k { deposits = k.deposits ++ deposit.now ∷ [] })) self.old self.new }
        ensures healthy { OnOk result (IsHealthyIfClean S.Store self.new) }
        ensures value { ForAllHeld self.old.tables self.new.tables (λ k. IfOk result (λ n. n ≡ length k.deposits + 1)) }
        ensures ok { OnOk result (AddsDeposit self.old.tables self.new.tables deposit.now) }
        ensures err { OnErr result (HoldsTheSame self.old.tables self.new.tables) }
    {
        let count = self.count_deposits()?;
        let Some(id) = count.checked_add(1) else {
            return Err(Unavailable);
        };
        let Ok(rowid) = i64::try_from(id) else {
            return Err(Unavailable);
        };
        deposits::add(&mut self.conn, alloc, rowid, deposit)?;
        Ok(id)
    }

    /// How many censuses there are: the greatest number.
    pub fn count_censuses(&mut self) -> Result<u64, Unavailable>
        ensures transition { IsTransition S.Store NothingNew self.old self.new }
        ensures healthy { OnOk result (IsHealthyIfClean S.Store self.new) }
        ensures same { HoldsTheSame self.old.tables self.new.tables }
        ensures value { ForAllHeld self.old.tables self.new.tables (λ k. IfOk result (λ n. n ≡ length k.censuses)) }
    {
        let rows = censuses::newest(&mut self.conn)?;
        count_in(rows.as_slice())
    }

    /// The census with the number, or `None`.
    pub fn census_of(&mut self, alloc: Global, id: u64) -> Result<Option<KeptCensus>, Unavailable>
        ensures transition { IsTransition S.Store NothingNew self.old self.new }
        ensures healthy { OnOk result (IsHealthyIfClean S.Store self.new) }
        ensures same { HoldsTheSame self.old.tables self.new.tables }
        ensures value { ForAllHeld self.old.tables self.new.tables (λ k. IfOk result (λ c. c ≡ option_map kept_census (numbered k.censuses id))) }
    {
        let Ok(rowid) = i64::try_from(id) else {
            // No row has such a number. The store is queried anyway: a closed one is unavailable.
            let _count = self.count_censuses()?;
            return Ok(None);
        };
        let rows = censuses::show(&mut self.conn, rowid)?;
        match first_census(alloc, rows.as_slice())? {
            Some((_, kept)) => Ok(Some(kept)),
            None => Ok(None),
        }
    }

    /// The census of the member and the token, with its number, or `None`.
    pub fn find_census(
        &mut self,
        alloc: Global,
        member: &[u8],
        token: &[u8],
    ) -> Result<Option<(u64, Census)>, Unavailable>
        ensures transition { IsTransition S.Store NothingNew self.old self.new }
        ensures healthy { OnOk result (IsHealthyIfClean S.Store self.new) }
        ensures same { HoldsTheSame self.old.tables self.new.tables }
        ensures value { ForAllHeld self.old.tables self.new.tables (λ k. IfOk result (λ c. c ≡ census_by member.now token.now (censuses_of k))) }
    {
        let rows = censuses::find(&mut self.conn, member, token)?;
        match first_census(alloc, rows.as_slice())? {
            Some((id, kept)) => Ok(Some((id, kept.census))),
            None => Ok(None),
        }
    }

    /// Adds a census with its tally's rows and its flag in one transaction, and returns its number. The caller has to
    /// check first that its member and token are not stored yet, and that the tally and the flag belong to its deposit.
    pub fn add_census(
        &mut self,
        census: &Census,
        tally: &Tally,
        steady: bool,
    ) -> Result<u64, Unavailable>
        // The codes of a tally that `life_census` counted ascend.
        requires { HasOrder tally.now }
        ensures transition { IsTransition S.Store (HoldChanged self.old.tables (λ k. record k { censuses = k.censuses ++ record { census = census.now; tally = tally.now; steady = steady } ∷ [] })) self.old self.new }
        ensures healthy { OnOk result (IsHealthyIfClean S.Store self.new) }
        ensures value { ForAllHeld self.old.tables self.new.tables (λ k. IfOk result (λ n. n ≡ length k.censuses + 1)) }
        ensures ok { OnOk result (AddsCensus self.old.tables self.new.tables (record { census = census.now; tally = tally.now; steady = steady })) }
        ensures err { OnErr result (HoldsTheSame self.old.tables self.new.tables) }
    {
        let count = self.count_censuses()?;
        let Some(id) = count.checked_add(1) else {
            return Err(Unavailable);
        };
        censuses::insert(&mut self.conn, id, census, tally, steady)?;
        Ok(id)
    }

    /// The rows of the tally of a stored census, in byte order of their codes.
    fn rows_kept(&mut self, alloc: Global, id: u64) -> Result<Rows, Unavailable>
        ensures transition { IsTransition S.Store NothingNew self.old self.new }
        ensures healthy { OnOk result (IsHealthyIfClean S.Store self.new) }
        ensures same { HoldsTheSame self.old.tables self.new.tables }
        ensures value { ForAllHeld self.old.tables self.new.tables (λ k. IfOk result (λ rows. IfSome (numbered k.censuses id) (λ t. rows ≡ t.tally.rows))) }
    {
        let Ok(rowid) = i64::try_from(id) else {
            return Err(Unavailable);
        };
        let rows = censuses::rows_of(&mut self.conn, rowid)?;
        all_rows(alloc, rows.as_slice())
    }

    /// The tally's rows, in byte order of their codes, and the flag of the census with the number, or `None`. The flag
    /// is queried first, since a stored tally may have no rows.
    pub fn rows_and_flag_of(
        &mut self,
        alloc: Global,
        id: u64,
    ) -> Result<Option<(Rows, bool)>, Unavailable>
        ensures transition { IsTransition S.Store NothingNew self.old self.new }
        ensures healthy { OnOk result (IsHealthyIfClean S.Store self.new) }
        ensures same { HoldsTheSame self.old.tables self.new.tables }
        ensures value { ForAllHeld self.old.tables self.new.tables (λ k. IfOk result (λ found. found ≡ option_map (λ t. record { 0 = t.tally.rows; 1 = t.steady }) (numbered k.censuses id))) }
    {
        match self.flag_of(id)? {
            None => Ok(None),
            Some(steady) => {
                let rows = self.rows_kept(alloc, id)?;
                Ok(Some((rows, steady)))
            }
        }
    }

    /// The tally's rows of the census with the number, in byte order of their codes, or `None`.
    pub fn rows_of(&mut self, alloc: Global, id: u64) -> Result<Option<Rows>, Unavailable>
        ensures transition { IsTransition S.Store NothingNew self.old self.new }
        ensures healthy { OnOk result (IsHealthyIfClean S.Store self.new) }
        ensures same { HoldsTheSame self.old.tables self.new.tables }
        ensures value { ForAllHeld self.old.tables self.new.tables (λ k. IfOk result (λ rows. rows ≡ option_map (λ t. t.tally.rows) (numbered k.censuses id))) }
    {
        match self.rows_and_flag_of(alloc, id)? {
            None => Ok(None),
            Some((rows, _steady)) => Ok(Some(rows)),
        }
    }

    /// The flag of the census with the number, or `None`: whether the generation that it counted is steady.
    pub fn flag_of(&mut self, id: u64) -> Result<Option<bool>, Unavailable>
        ensures transition { IsTransition S.Store NothingNew self.old self.new }
        ensures healthy { OnOk result (IsHealthyIfClean S.Store self.new) }
        ensures same { HoldsTheSame self.old.tables self.new.tables }
        ensures value { ForAllHeld self.old.tables self.new.tables (λ k. IfOk result (λ b. b ≡ option_map (λ t. t.steady) (numbered k.censuses id))) }
    {
        let Ok(rowid) = i64::try_from(id) else {
            // No row has such a number. The store is queried anyway: a closed one is unavailable.
            let _count = self.count_censuses()?;
            return Ok(None);
        };
        let rows = flags::show(&mut self.conn, rowid)?;
        first_flag(rows.as_slice())
    }

    /// How many clusters with the code there are in all censuses of deposits of the rule.
    pub fn counts_of(&mut self, alloc: Global, rule: &Rule, code: &[u8]) -> Result<u64, Unavailable>
        ensures transition { IsTransition S.Store NothingNew self.old self.new }
        ensures healthy { OnOk result (IsHealthyIfClean S.Store self.new) }
        ensures same { HoldsTheSame self.old.tables self.new.tables }
        ensures value { ForAllHeld self.old.tables self.new.tables (λ k. IfOk result (λ n. n ≡ total_of k rule.now code.now)) }
    {
        let text = rule.text(alloc)?;
        let rows = censuses::total(&mut self.conn, text.as_bytes(), code)?;
        total_in(rows.as_slice())
    }
}

impl<S: Alter + Drop> Archive<S> {
    /// The archive's store, and whether no transaction was open. If that is true, its tables are trees of the store
    /// that obey its schema. Uncommitted changes are lost. `life_check` reads every row this way, in tree order, which
    /// no query shows.
    pub fn into_trees(self) -> (bool, S)
        ensures trees { IsTrue result.0 → IsClean (S.Store.view result.1) → (S.Store.view result.1).is_broken ≡ false → AreTreesOf self.tables (S.Store.view result.1).trees }
        ensures honest { doubt (S.Store.view self.store).is_clean ≤ doubt (S.Store.view result.1).is_clean }
        ensures outcomes { (db : Trees) → S.Store.recovers result.1 db → S.Store.recovers self.store db }
        ensures numbers { (S.Store.view result.1).is_numbered ≡ (S.Store.view self.store).is_numbered }
        ensures numbered { IsClean (S.Store.view result.1) → IsTrue (S.Store.view result.1).is_numbered }
        ensures databases { IsClean (S.Store.view result.1) → AreDatabases (S.Store.recovers result.1) }
    {
        let conn = self.into_connection();
        let _obeyed = conn.schema();
        let is_settled = conn.is_autocommit();
        (is_settled, conn.into_store())
    }
}

impl Archive<MemStore> {
    /// An archive in memory is always healthy, even after a refused call: its disk never fails. So clauses that assume
    /// a healthy database after the call always hold for it. A law: calling it does nothing.
    pub fn law_of_memory(&self)
        ensures healthy { IsTrue self.now.tables.is_healthy }
        ensures faults { self.now.tables.faults ≡ 0 }
    {
        let _ = &self.conn;
    }
}
