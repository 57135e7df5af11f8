//! The calls of `life_store`, with contracts about the archive that the tables represent instead of the tables.
ghost use Rattle.std.specs.Prelude.{◌≡◌, ◌&&◌, ◌+◌, ◌++◌, ◌∷◌, [], ℕ, List, Some, is_some, nat_le, nat_lt, length, option_map, IfOk, IfSome, OnOk, OnErr};
ghost use Rattle.life_rle.specs.Record.{IsInside};
ghost use Rattle.life_rle.specs.Writer.{text};
ghost use Rattle.life_store.specs.Kept.{numbered, deposit_by, file_of_deposit, census_by, listed_after, kept_census};
ghost use Rattle.life_store.specs.Crash.{NothingNew};
ghost use Rattle.life_store.specs.Tables.{IsTransition, HasOrder, IsHealthyIfClean};
ghost use Rattle.life_store.specs.declared.kept.Deposit.{Deposit as Kept};
ghost use Rattle.life_desk.specs.Archive.{clusters_with, tally_at, tally_for, steady_at, steady_for};
ghost use Rattle.life_desk.specs.Represents.{Represents, tallied};
ghost use Rattle.life_desk.specs.DeskState.{RepresentChanged, RepresentChangedIf};
ghost use Rattle.life_desk.specs.LookupsState.{ForAllRepresented, RepresentsTheSame, LooksUp};

use life_census::{Rows, Tally};
use life_core::Rule;
use life_store::{Archive, Census, Deposit, KeptCensus, Listing, Unavailable};
use sqlite::Alter;
use std::alloc::Global;

/// The deposit with the number, if any.
pub(crate) fn deposit_of<S: Alter>(
    archive: &mut Archive<S>,
    alloc: Global,
    id: u64,
) -> Result<Option<Deposit>, Unavailable>
    ensures looks { LooksUp S.Store archive.old archive.new result (λ A d. d ≡ numbered A.deposits id) }
    ensures inside { IfOk result (λ o. IfSome o (λ d. IsInside 1024 d.content.cells)) }
{
    archive.deposit_of(alloc, id)
}

/// The stored canonical text of the deposit with the number, if any.
pub(crate) fn file_of<S: Alter>(
    archive: &mut Archive<S>,
    alloc: Global,
    id: u64,
) -> Result<Option<Vec<u8>>, Unavailable>
    ensures { LooksUp S.Store archive.old archive.new result (λ A file. option_map (λ v. v.items) file ≡ option_map (λ d. text d.content) (numbered A.deposits id)) }
{
    archive.file_of(alloc, id)
}

/// The number and the canonical text of the deposit that is stored under the same member and token, if any.
pub(crate) fn find_file<S: Alter>(
    archive: &mut Archive<S>,
    alloc: Global,
    deposit: &Deposit,
) -> Result<Option<(u64, Vec<u8>)>, Unavailable>
    ensures { LooksUp S.Store archive.old archive.new result (λ A f. option_map {U = ℕ × List ℕ} (λ p. (p.0, p.1.items)) f ≡ option_map file_of_deposit (deposit_by deposit.now.member deposit.now.token A.deposits)) }
{
    archive.find_file(alloc, deposit.member.as_bytes(), deposit.token.as_bytes())
}

/// The first 100 deposits with a greater number.
pub(crate) fn deposits_after<S: Alter>(
    archive: &mut Archive<S>,
    alloc: Global,
    id: u64,
) -> Result<Listing, Unavailable>
    ensures { LooksUp S.Store archive.old archive.new result (λ A lines. lines ≡ listed_after id A.deposits) }
{
    archive.deposits_after(alloc, id)
}

/// The census that is stored under the same member and token, with its number, if any.
pub(crate) fn find_census<S: Alter>(
    archive: &mut Archive<S>,
    alloc: Global,
    census: &Census,
) -> Result<Option<(u64, Census)>, Unavailable>
    ensures { LooksUp S.Store archive.old archive.new result (λ A o. o ≡ census_by census.now.member census.now.token A.censuses) }
{
    archive.find_census(alloc, census.member.as_bytes(), census.token.as_bytes())
}

/// How many clusters have the code, in all censuses of deposits with the rule.
pub(crate) fn counts_of<S: Alter>(
    archive: &mut Archive<S>,
    alloc: Global,
    rule: &Rule,
    code: &[u8],
) -> Result<u64, Unavailable>
    ensures { LooksUp S.Store archive.old archive.new result (λ A n. n ≡ clusters_with A rule.now code.now) }
{
    archive.counts_of(alloc, rule, code)
}

/// The census with the number, and its tally's totals, if any.
fn census_of<S: Alter>(
    archive: &mut Archive<S>,
    alloc: Global,
    id: u64,
) -> Result<Option<KeptCensus>, Unavailable>
    ensures { LooksUp S.Store archive.old archive.new result (λ A c. c ≡ option_map kept_census (option_map (tallied A.deposits) (numbered A.censuses id))) }
{
    archive.census_of(alloc, id)
}

/// The tally's rows of the census with the number, and whether the generation that it counted is steady.
fn rows_and_flag_of<S: Alter>(
    archive: &mut Archive<S>,
    alloc: Global,
    id: u64,
) -> Result<Option<(Rows, bool)>, Unavailable>
    ensures { LooksUp S.Store archive.old archive.new result (λ A found. found ≡ option_map (λ t. record { 0 = t.tally.rows; 1 = t.steady }) (option_map (tallied A.deposits) (numbered A.censuses id))) }
{
    archive.rows_and_flag_of(alloc, id)
}

/// A stored census with its tally, and whether the generation that it counted is steady.
#[derive(Drop)]
pub(crate) struct CensusWithTally {
    pub(crate) census: Census,
    pub(crate) tally: Tally,
    pub(crate) steady: bool,
}

/// The census with the number, its tally and its flag, as they were stored. This takes three queries.
pub(crate) fn counted_census<S: Alter>(
    archive: &mut Archive<S>,
    alloc: Global,
    id: u64,
) -> Result<Option<CensusWithTally>, Unavailable>
    ensures { LooksUp S.Store archive.old archive.new result (λ A o. o ≡ option_map (λ c. record { census = c; tally = tally_at A.deposits c; steady = steady_at A.deposits c }) (numbered A.censuses id)) }
{
    match census_of(archive, alloc, id)? {
        None => Ok(None),
        Some(kept) => match rows_and_flag_of(archive, alloc, id)? {
            None => Err(Unavailable),
            Some((rows, steady)) => {
                let tally = Tally {
                    rows,
                    unresolved: kept.unresolved,
                    total: kept.total,
                };
                Ok(Some(CensusWithTally {
                    census: kept.census,
                    tally,
                    steady,
                }))
            }
        },
    }
}

/// How many deposits there are.
fn count_deposits<S: Alter>(archive: &mut Archive<S>) -> Result<u64, Unavailable>
    ensures { LooksUp S.Store archive.old archive.new result (λ A n. n ≡ length A.deposits) }
{
    archive.count_deposits()
}

/// How many censuses there are.
fn count_censuses<S: Alter>(archive: &mut Archive<S>) -> Result<u64, Unavailable>
    ensures { LooksUp S.Store archive.old archive.new result (λ A n. n ≡ length A.censuses) }
{
    archive.count_censuses()
}

/// Whether a list of this length has an element with the number.
fn is_number(id: u64, length: u64) -> bool
    ensures { result ≡ (nat_le 1 id && nat_le id length) }
{
    1 <= id && id <= length
}

/// Whether a deposit has the number. Only the count is queried: numbers have no gaps.
pub(crate) fn has_deposit<S: Alter>(archive: &mut Archive<S>, id: u64) -> Result<bool, Unavailable>
    ensures { LooksUp S.Store archive.old archive.new result (λ A there. there ≡ is_some (numbered A.deposits id)) }
{
    let count = count_deposits(archive)?;
    Ok(is_number(id, count))
}

/// Whether there is room for one more deposit.
pub(crate) fn has_room<S: Alter>(archive: &mut Archive<S>) -> Result<bool, Unavailable>
    ensures { LooksUp S.Store archive.old archive.new result (λ A room. room ≡ nat_lt (length A.deposits) A.capacity) }
{
    Ok(count_deposits(archive)? < archive.capacity())
}

/// Whether there is room for one more census.
pub(crate) fn has_census_room<S: Alter>(archive: &mut Archive<S>) -> Result<bool, Unavailable>
    ensures { LooksUp S.Store archive.old archive.new result (λ A room. room ≡ nat_lt (length A.censuses) A.capacity) }
{
    Ok(count_censuses(archive)? < archive.capacity())
}

pub(crate) fn add_deposit<S: Alter>(
    archive: &mut Archive<S>,
    alloc: Global,
    deposit: &Deposit,
) -> Result<u64, Unavailable>
    requires { IsInside 1024 deposit.now.content.cells }
    ensures transition { IsTransition S.Store (RepresentChanged archive.old (λ A. record A { deposits = A.deposits ++ deposit.now ∷ [] })) archive.old archive.new }
    ensures healthy { OnOk result (IsHealthyIfClean S.Store archive.new) }
    ensures value { ForAllRepresented archive.old archive.new (λ A. IfOk result (λ n. n ≡ length A.deposits + 1)) }
    ensures ok { OnOk result (ForAllRepresented archive.old archive.new (λ A. Represents archive.new (record A { deposits = A.deposits ++ deposit.now ∷ [] }))) }
    ensures err { OnErr result (RepresentsTheSame archive.old archive.new) }
{
    archive.add_deposit(alloc, deposit)
}

/// Adds a census of an existing deposit, with its tally and its flag.
pub(crate) fn add_census<S: Alter>(
    archive: &mut Archive<S>,
    census: &Census,
    tally: &Tally,
    steady: bool,
) -> Result<u64, Unavailable>
    requires { HasOrder tally.now }
    ensures transition { IsTransition S.Store (λ db. (d : Kept) → tally.now ≡ tally_for census.now (Some d) → steady ≡ steady_for census.now (Some d) → RepresentChangedIf archive.old (λ A. numbered A.deposits census.now.deposit ≡ Some d) (λ A. record A { censuses = A.censuses ++ census.now ∷ [] }) db) archive.old archive.new }
    ensures healthy { OnOk result (IsHealthyIfClean S.Store archive.new) }
    ensures value { ForAllRepresented archive.old archive.new (λ A. IfOk result (λ n. n ≡ length A.censuses + 1)) }
    ensures ok { OnOk result (ForAllRepresented archive.old archive.new (λ A. (d : Kept) → numbered A.deposits census.now.deposit ≡ Some d → tally.now ≡ tally_for census.now (Some d) → steady ≡ steady_for census.now (Some d) → Represents archive.new (record A { censuses = A.censuses ++ census.now ∷ [] }))) }
    ensures err { OnErr result (RepresentsTheSame archive.old archive.new) }
{
    archive.add_census(census, tally, steady)
}
