//! The headline of the archive, which says what replies mean for patterns, and laws about new, migrated and crashed
//! archives.
ghost use Rattle.life_desk.specs.Headline.{HeadlineHolds};
ghost use Rattle.life_desk.specs.Represents.{NewIsEmpty, MigratedIsTheSame};
ghost use Rattle.life_desk.specs.Run.{IsDurable};

use life_census::{laws_of_steady_fields, laws_of_tallies};
use life_code::laws_of_codes;
use life_store::Archive;
use sqlite::Alter;

/// The replies of every run, in terms of sets of live cells. Deposits and censuses are never lost or changed. A shown
/// deposit has the deposited contents, and generation n is the rule applied n times. Kinds and codes belong to the
/// deposit's pattern. Two coded patterns of one rule share a code exactly when a translation, rotation or reflection
/// takes one to a phase of the other. A census counts every cluster once, under its code or as unresolved, and a total
/// adds up these counts. A law: calling it does nothing.
pub fn law_of_the_archive()
    ensures { HeadlineHolds }
{
    laws_of_steady_fields();
    laws_of_tallies();
    laws_of_codes();
}

/// The tables of a new archive represent the archive without deposits and censuses. A law: calling it does nothing.
pub fn law_of_new_archives()
    ensures { NewIsEmpty }
{}

/// Migrating an archive from schema version 1 leaves the same archive. A law: calling it does nothing.
pub fn law_of_migrated_archives()
    ensures { MigratedIsTheSame }
{
    laws_of_steady_fields();
}

/// Acknowledged requests are durable: a crash between two calls leaves exactly the archive that the tables represent. A
/// law: calling it does nothing.
pub fn law_of_durability<S: Alter>(archive: &Archive<S>)
    ensures { IsDurable S.Store archive.now }
{
    archive.law_of_crashes();
}
