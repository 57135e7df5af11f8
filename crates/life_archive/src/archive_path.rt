//! The jobs over an archive in the file at a path, as the program runs them: open the archive, send requests, close it.
ghost use Rattle.std.specs.Prelude.{◌≡◌, Some, Err, option_map, OnOk, OnErr, IfErr};
ghost use Rattle.sqlite_wal.specs.Files.{image_at};
ghost use Rattle.life_jobs.specs.Streams.{TakesFile, PutsOnce};
ghost use Rattle.life_archive.specs.Deposit.{by_streams};
ghost use Rattle.life_archive.specs.ArchivePath.{opening_stop, ClosesUnasked, EndsPathDeposit, DepositsAt, EndsPathSession, IsPathSession, IsUnserved, PathJobsCompose, PathJobsComposeOverCrashes, PathJobsComposeOverRefusals};

use crate::archive_stop::ArchiveStop;
use crate::deposit::run_deposit;
use crate::session::{Connections, serve_connections};
use life_desk::law_of_migrated_archives;
use life_jobs::Stop;
use life_rle::{Inlet, Outlet};
use life_store::{Archive, OpenFault};
use sqlite::{FileFrom, FileStore, Start};
use sqlite_disk::{Disk, Files};
use std::alloc::Global;

/// The stop for an archive that can't be opened. Only `NotOurs` has its own line.
fn opening_stop(fault: OpenFault) -> ArchiveStop
    ensures { result ≡ opening_stop fault }
{
    match fault {
        OpenFault::NotOurs => ArchiveStop::NotOurs,
        _ => ArchiveStop::Job(Stop::Unavailable),
    }
}

/// The files of a path after a job: `Ok` if they were closed, `Err` if the opening or the close was refused, and `None`
/// if they were never opened.
pub type PathFiles<T> = Option<Result<Files<FileFrom<T>>, Files<FileFrom<T>>>>;

/// The files of a refused opening.
fn refused<D: Disk>(files: Option<Files<D>>) -> Option<Result<Files<D>, Files<D>>>
    ensures { result ≡ option_map Err files }
{
    match files {
        Some(files) => Some(Err(files)),
        None => None,
    }
}

/// Deposits in an open archive, and closes it in any case. A refused close doesn't refuse the deposit, which is
/// committed by then. The two files together hold it, unless a call of the disk failed in the close.
fn deposit_opened<D: Disk + Drop, I: Inlet, O: Outlet>(
    alloc: Global,
    archive: Archive<FileStore<D>>,
    member: &str,
    token: &str,
    input: &mut I,
    output: &mut O,
) -> (Result<(), ArchiveStop>, Result<Files<D>, Files<D>>)
    ensures ends { EndsPathDeposit D.Disk archive member.now token.now (I.to_come input.old) (O.already output.old) (O.already output.new) result.0 result.1 }
    ensures takes { TakesFile (I.to_come input.old) (I.to_come input.new) (I.failures input.old) (I.failures input.new) (I.ends input.old) (I.ends input.new) (I.last_take input.new) (by_streams result.0) }
    ensures once { PutsOnce output.old output.new (O.failures output.old) (O.failures output.new) (O.last_failed output.new) (by_streams result.0) }
{
    law_of_migrated_archives();
    let mut archive = archive;
    let done = run_deposit(alloc, &mut archive, member, token, input, output);
    match archive.close_files() {
        Ok(files) => (done, Ok(files)),
        Err((_, files)) => (done, Err(files)),
    }
}

/// Deposits the pattern file from the input in the archive at the path, creating it if the file doesn't exist. It then
/// closes the archive, so that the database file is complete without its log. `start` states the assumed contents of
/// the files, as for `Archive::open_path`. The files are returned.
pub fn deposit_path<T: Start, I: Inlet, O: Outlet>(
    rt: &HostRuntime,
    path: &str,
    capacity: u64,
    start: T,
    member: &str,
    token: &str,
    input: &mut I,
    output: &mut O,
) -> (Result<(), ArchiveStop>, PathFiles<T>)
    // Closed files represent the archive that was opened, with the deposit or unchanged. A refused opening has its
    // reason. No input is read before the archive is open.
    ensures deposits { DepositsAt ⟦<FileFrom<T> as Disk>⟧ (image_at T.Start) capacity member.now token.now input.old input.new (I.to_come input.old) (O.already output.old) (O.already output.new) result.0 result.1 }
    ensures takes { TakesFile (I.to_come input.old) (I.to_come input.new) (I.failures input.old) (I.failures input.new) (I.ends input.old) (I.ends input.new) (I.last_take input.new) (by_streams result.0) }
    // A refusal writes no output, and a failed write is the last one.
    ensures once { PutsOnce output.old output.new (O.failures output.old) (O.failures output.new) (O.last_failed output.new) (by_streams result.0) }
{
    match Archive::open_path(rt, path, capacity, start) {
        Ok(archive) => {
            let (done, closed) = deposit_opened(rt.alloc(), archive, member, token, input, output);
            (done, Some(closed))
        }
        Err((fault, files)) => (Err(opening_stop(fault)), refused(files)),
    }
}

/// Serves requests from an open archive, and then closes it.
fn serve_opened<D: Disk + Drop, C: Connections>(
    alloc: Global,
    archive: Archive<FileStore<D>>,
    connections: &mut C,
    count: u64,
) -> Result<Files<D>, Files<D>>
    ensures { EndsPathSession D.Disk archive count (C.traffic connections.old) (C.traffic connections.new) result }
{
    law_of_migrated_archives();
    let mut archive = archive;
    serve_connections(alloc, &mut archive, connections, count);
    match archive.close_files() {
        Ok(files) => Ok(files),
        Err((_, files)) => Err(files),
    }
}

/// Closes an archive that got no request, when the program can't listen.
fn close_unasked<D: Disk + Drop>(archive: Archive<FileStore<D>>) -> Result<Files<D>, Files<D>>
    ensures { ClosesUnasked D.Disk archive result }
{
    law_of_migrated_archives();
    match archive.close_files() {
        Ok(files) => Ok(files),
        Err((_, files)) => Err(files),
    }
}

/// A session over the files of a path, like [`crate::serve_files`] for open files. Opens the archive, creating it if
/// the file doesn't exist, serves this many connections in turn, and closes it, so that the database file is complete
/// without its log. The files are returned. If the close is refused, the two files together hold everything that was
/// acknowledged, unless a call of the disk failed in the close.
pub fn serve_path<T: Start, C: Connections>(
    rt: &HostRuntime,
    path: &str,
    capacity: u64,
    start: T,
    connections: &mut C,
    count: u64,
) -> (Result<(), ArchiveStop>, PathFiles<T>)
    ensures session { OnOk result.0 ((closed : _) × (result.1 ≡ Some closed) × IsPathSession ⟦<FileFrom<T> as Disk>⟧ (image_at T.Start) capacity count (C.traffic connections.old) (C.traffic connections.new) closed) }
    // If the archive can't be opened, or the program can't listen, no connection was served.
    ensures unserved { OnErr result.0 (C.traffic connections.new ≡ C.traffic connections.old) }
    ensures refused { IfErr result.0 (λ stop. IsUnserved ⟦<FileFrom<T> as Disk>⟧ (image_at T.Start) capacity stop result.1) }
{
    match Archive::open_path(rt, path, capacity, start) {
        Ok(archive) => match connections.listen() {
            Ok(()) => {
                let closed = serve_opened(rt.alloc(), archive, connections, count);
                (Ok(()), Some(closed))
            }
            Err(stop) => {
                let closed = close_unasked(archive);
                (Err(stop), Some(closed))
            }
        },
        Err((fault, left)) => (Err(opening_stop(fault)), refused(left)),
    }
}

/// A job over the files of a path, serving or depositing, begins with the archive that the job before it left. That job
/// closed the files, or its close was refused, or a crash came before or after the close. A law: calling it does
/// nothing.
pub fn law_of_path_jobs<D: Disk, E: Disk>()
    ensures composed { PathJobsCompose D.Disk E.Disk }
    ensures crashed { PathJobsComposeOverCrashes D.Disk E.Disk }
    ensures refused { PathJobsComposeOverRefusals D.Disk E.Disk }
{
    law_of_migrated_archives();
}
