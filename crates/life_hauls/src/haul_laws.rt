//! Laws that hold for all soups and hauls.
ghost use Rattle.std.specs.Prelude.{◌≡◌, ◌^◌};
ghost use Rattle.life_hauls.specs.Soups.{NamesAreRead, NamesAreOne, BitsAreCells, MirrorsKeepSoups, SoupsAreFields};
ghost use Rattle.life_hauls.specs.HaulLaws.{HaulsAddUp, TogetherByCodes, TogetherInAnyOrder, TogetherInAnyGrouping, SeenIsLeast, NothingIsSeen, RowsAreOfTallies, RowsAscend, UnresolvedAreOfTallies, ClustersCountOnce, SumsAreCounts};

use crate::haul_jobs::{COUNT_LIMIT, FIRST_LIMIT};

/// Each symmetry is read from its own name only, and each bit of the digest decides one cell. A soup with a mirror is
/// its own mirror image. Every cell lies in the field, or is the mirror image of one that does. A law: calling it has
/// no effect.
pub fn laws_of_soups()
    ensures names { NamesAreRead }
    ensures one { NamesAreOne }
    ensures bits { BitsAreCells }
    ensures mirrors { MirrorsKeepSoups }
    ensures fields { SoupsAreFields }
{}

/// Hauls over adjacent ranges add up to the haul over both. Addition is commutative and associative, so several
/// machines may share a range and add their tables in any order. A row agrees with the tallies of the soups: the
/// number of clusters with its code, and the first soup with one. Each cluster of each soup counts once, so the counts
/// of a table add up to its clusters. A law: calling it has no effect.
pub fn laws_of_hauls()
    ensures add_up { HaulsAddUp }
    ensures by_codes { TogetherByCodes }
    ensures any_order { TogetherInAnyOrder }
    ensures any_grouping { TogetherInAnyGrouping }
    ensures least { SeenIsLeast }
    ensures nothing { NothingIsSeen }
    ensures rows { RowsAreOfTallies }
    ensures ascend { RowsAscend }
    ensures unresolved { UnresolvedAreOfTallies }
    ensures once { ClustersCountOnce }
    ensures sums { SumsAreCounts }
{}

/// The limits of a haul. A law: calling it has no effect.
pub fn laws_of_limits()
    ensures count { COUNT_LIMIT ≡ 1_000_000 }
    ensures first { FIRST_LIMIT ≡ 2 ^ 53 }
{}
