//! Checking the database file at a path.

ghost use Rattle.std.specs.Prelude.{◌≡◌, List, IfOk, IsTrue};
ghost use Rattle.sqlite_value.specs.Order.{Row};
ghost use Rattle.sqlite_trees.specs.Tree.{Trees};
ghost use Rattle.sqlite_trees.specs.View.{IsClean};
ghost use Rattle.sqlite_wal.specs.Files.{image_at};
ghost use Rattle.sqlite.specs.Held.{AreDatabases};
ghost use Rattle.life_store.specs.Kept.{Kept};
ghost use Rattle.life_store.specs.Tables.{Holds, TreesHold};
ghost use Rattle.life_check.specs.WalkState.{IsCalm};
ghost use Rattle.life_check.specs.Files.{EndsCheck, ChecksPath};
ghost use Rattle.life_check.specs.Listed.{AreFurther, AreWrongThere, StopsBeforeCensuses};
ghost use Rattle.life_check.specs.Sound.{RepresentsSome};

use crate::archive_check::{CheckVerdict, Wrong, check};
use crate::check_watch::CheckWatch;
use crate::listing::further_errors;
use life_store::{Archive, Unavailable};
use sqlite::{Alter, FileFrom, FileStore, Start};
use sqlite_disk::{Disk, Files};
use std::alloc::Global;

/// The errors after the first one, if the check found any. This reads the rows again.
fn errors_of<S: Alter, W: CheckWatch>(
    store: &mut S,
    alloc: Global,
    quick: bool,
    checked: &Result<CheckVerdict, Unavailable>,
    watch: &mut W,
) -> Vec<Wrong>
    ensures few { AreFurther checked.now result.items }
    ensures wrong { (deposits : List Row) → IsClean (S.Store.view store.new) → IfOk checked.now (λ v. StopsBeforeCensuses v → (S.Store.view store.old).trees 1 ≡ deposits) → AreWrongThere deposits result.items }
    ensures calm { IsCalm S.Store store.old store.new }
{
    let verdict = match checked {
        Ok(verdict) => *verdict,
        Err(_) => return Vec::new(alloc),
    };
    match verdict {
        CheckVerdict::Sound(_, _) => Vec::new(alloc),
        CheckVerdict::SoundButForCounts(_, _) => Vec::new(alloc),
        CheckVerdict::NotSound(first) => further_errors(store, alloc, quick, first, watch),
    }
}

/// Checks an archive, and returns the result, the errors after the first, and its store.
fn check_and_list<S: Alter + Drop, W: CheckWatch>(
    alloc: Global,
    archive: Archive<S>,
    quick: bool,
    watch: &mut W,
) -> (Result<CheckVerdict, Unavailable>, Vec<Wrong>, S)
    ensures sound { IsClean (S.Store.view result.2) → IfOk result.0 (RepresentsSome quick archive) }
    ensures further { AreFurther result.0 result.1.items }
    ensures wrong { IsClean (S.Store.view result.2) → AreWrongThere archive.tables.deposits result.1.items }
    ensures calm { IsCalm S.Store archive.store result.2 }
    ensures numbered { IsClean (S.Store.view result.2) → IsTrue (S.Store.view result.2).is_numbered }
    ensures databases { IsClean (S.Store.view result.2) → AreDatabases (S.Store.recovers result.2) }
    // Includes two laws of the archive, so that callers pass on the traits of the store only once.
    ensures crash { IsTrue archive.tables.is_healthy → (k : Kept) → Holds archive.tables k → (db : Trees) → S.Store.recovers archive.store db → TreesHold db k }
    ensures was_open { IsTrue archive.tables.is_healthy → IsTrue (S.Store.view archive.store).is_open }
{
    archive.law_of_crashes();
    archive.law_of_open_stores();
    let (checked, mut store) = check(archive, alloc, quick, watch);
    let further = errors_of(&mut store, alloc, quick, &checked, watch);
    (checked, further, store)
}

/// Checks an archive over files and returns the files. Nothing is written, and the log is not copied into the database
/// file.
fn check_opened<D: Disk + Drop, W: CheckWatch>(
    alloc: Global,
    archive: Archive<FileStore<D>>,
    quick: bool,
    watch: &mut W,
) -> (Result<CheckVerdict, Unavailable>, Vec<Wrong>, Files<D>)
    ensures check { EndsCheck quick D.Disk archive result.0 result.1.items result.2 }
    ensures further { AreFurther result.0 result.1.items }
{
    let (checked, further, store) = check_and_list(alloc, archive, quick, watch);
    watch.ended();
    (checked, further, store.close())
}

/// The files of a path after a check: `Ok` if they were checked, `Err` if the opening was refused, and `None` if they
/// were never opened.
pub type CheckedFiles<T> = Option<Result<Files<FileFrom<T>>, Files<FileFrom<T>>>>;

/// Checks the file at the path, with its log. Returns the result, the errors after the first, and the files. These hold
/// the same database as before, archive or not, even if the check gave no result. A log that the check made is removed
/// again. `start` states the assumed contents of the files, as for `Archive::open_path`. A quick check skips the
/// counting.
pub fn check_path<T: Start, W: CheckWatch>(
    rt: &HostRuntime,
    path: &str,
    capacity: u64,
    start: T,
    quick: bool,
    watch: &mut W,
) -> (
    Result<CheckVerdict, Unavailable>,
    Vec<Wrong>,
    CheckedFiles<T>,
)
    ensures check { ChecksPath quick ⟦<FileFrom<T> as Disk>⟧ (image_at T.Start) capacity result.0 result.1.items result.2 }
    ensures further { AreFurther result.0 result.1.items }
{
    match Archive::open_unprepared(rt, path, capacity, start) {
        Ok((archive, made)) => {
            let (checked, further, files) = check_opened(rt.alloc(), archive, quick, watch);
            made.remove(rt);
            (checked, further, Some(Ok(files)))
        }
        Err(Some(files)) => (Err(Unavailable), Vec::new(rt.alloc()), Some(Err(files))),
        Err(None) => (Err(Unavailable), Vec::new(rt.alloc()), None),
    }
}
