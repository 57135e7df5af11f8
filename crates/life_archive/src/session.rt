//! Sessions: an archive serves connections in turn; over files, it is opened for them.
ghost use Rattle.std.specs.Prelude.{◌≡◌, ◌≢◌, ◌↔◌, false, IsTrue, IfOk, IfErr, OnErr, OnOk};
ghost use Rattle.sqlite_wal.specs.Reads.{AreClean};
ghost use Rattle.sqlite.specs.Files.{image_of};
ghost use Rattle.sqlite_trees.specs.Tree.{Trees};
ghost use Rattle.life_store.specs.Kept.{Kept};
ghost use Rattle.life_store.specs.Crash.{NothingNew};
ghost use Rattle.life_store.specs.Tables.{Holds, TreesHold, IsTransition, HoldsTheSame, IsHealthyIfClean};
ghost use Rattle.life_store.specs.Opening.{is_capacity, FilesHold, ListNothing};
ghost use Rattle.life_archive.specs.Session.{Traffic, CannotListen, ServesOne, ServesSome, ServesConnections, AreUsable, either, EndsSession, IsSession, SessionsCompose, SessionsComposeOverCrashes};

use crate::archive_stop::ArchiveStop;
use life_desk::law_of_migrated_archives;
use life_store::{Archive, OpenFault, Unavailable};
use sqlite::{Alter, FileStore, Files};
use sqlite_disk::Disk;
use std::alloc::Global;

/// A source of connections: a port in the program, stored bytes in tests.
pub trait Connections {
    // The known facts about the connections to come and about the served ones.
    ghost traffic: { Self → Traffic };

    /// Prepares for the first connection, once the archive is open.
    fn listen(&mut self) -> Result<(), ArchiveStop>
        ensures traffic { traffic self.new ≡ traffic self.old }
        ensures refused { IfErr result CannotListen };

    /// Waits for the next connection and answers its messages from the archive with [`crate::run_serve`]. A failed
    /// connection is not an error of the session.
    fn serve_next<S: Alter>(&mut self, alloc: Global, archive: &mut Archive<S>)
        ensures { ServesOne S.Store archive.old archive.new (traffic self.old) (traffic self.new) };
}

/// Serves this many connections, with clauses only about the store.
fn serve_each<S: Alter, C: Connections>(
    alloc: Global,
    archive: &mut Archive<S>,
    connections: &mut C,
    count: u64,
)
    ensures { ServesSome S.Store count archive.old archive.new (C.traffic connections.old) (C.traffic connections.new) }
{
    for connection in 0..count {
        connections.serve_next(alloc, archive);
    }
}

/// Serves this many connections from the archive, one after the other. Connections that fail count too.
pub fn serve_connections<S: Alter, C: Connections>(
    alloc: Global,
    archive: &mut Archive<S>,
    connections: &mut C,
    count: u64,
)
    // About the store: it answered each message of each connection, one after the other.
    ensures steps { ServesSome S.Store count archive.old archive.new (C.traffic connections.old) (C.traffic connections.new) }
    // About the archive: it went through a run over them, even if the disk failed during it. Also says what a crash
    // leaves.
    ensures served { ServesConnections S.Store count archive.old archive.new (C.traffic connections.old) (C.traffic connections.new) }
{
    archive.law_of_crashes();
    serve_each(alloc, archive, connections, count);
}

/// Returns the files as `Ok` if they may be opened again: they may not after a failed sync.
fn reopenable<D: Disk>(files: Files<D>) -> Result<Files<D>, Files<D>>
    ensures same { either result ≡ files }
    ensures usable { IfOk result (AreUsable D.Disk) }
{
    if !files.log.may_be_used() {
        return Err(files);
    }
    if !files.db.may_be_used() {
        return Err(files);
    }
    Ok(files)
}

/// Serves this many connections, then counts the deposits, which fails unless the database is healthy. A separate
/// function, so that `serve_opened` proves the store's traits only once.
fn serve_and_count<S: Alter, C: Connections>(
    alloc: Global,
    archive: &mut Archive<S>,
    connections: &mut C,
    count: u64,
) -> Result<u64, Unavailable>
    ensures run { (mid : _) × ServesSome S.Store count archive.old mid (C.traffic connections.old) (C.traffic connections.new) × IsTransition S.Store NothingNew mid archive.new × HoldsTheSame mid.tables archive.new.tables }
    ensures healthy { OnOk result (IsHealthyIfClean S.Store archive.new) }
    ensures law { IsTrue archive.old.tables.is_healthy → (k : Kept) → Holds archive.old.tables k → (db : Trees) → S.Store.recovers archive.old.store db → TreesHold db k }
{
    archive.law_of_crashes();
    serve_each(alloc, archive, connections, count);
    archive.count_deposits()
}

/// Serves from an archive over files, and returns the files without closing it. `Ok` means that the database was
/// healthy to the end and that the files may be opened again.
fn serve_opened<D: Disk + Drop, C: Connections>(
    alloc: Global,
    archive: Archive<FileStore<D>>,
    connections: &mut C,
    count: u64,
) -> Result<Files<D>, Files<D>>
    ensures ends { EndsSession D.Disk archive count (C.traffic connections.old) (C.traffic connections.new) result }
    ensures usable { IfOk result (AreUsable D.Disk) }
{
    let mut archive = archive;
    match serve_and_count(alloc, &mut archive, connections, count) {
        Ok(_count) => reopenable(archive.into_files()),
        Err(_) => Err(archive.into_files()),
    }
}

/// A session: opens the archive in the files, serves this many connections in turn, and drops it without copying the
/// log into the database file. The next session begins with the archive as the served messages left it.
///
/// The files are in an `Ok` if the database was healthy to the end and could count its deposits, otherwise in an `Err`.
/// A session that a crash interrupted counts as `Err`, by the kit's argument about crashes.
pub fn serve_files<D: Disk + Drop, C: Connections>(
    alloc: Global,
    files: Files<D>,
    capacity: u64,
    connections: &mut C,
    count: u64,
) -> Result<Result<Files<D>, Files<D>>, (OpenFault, Files<D>)>
    requires log { IsTrue (D.Disk.is_usable files.log) }
    requires db { IsTrue (D.Disk.is_usable files.db) }
    // Files in an Ok may be opened again: no sync of them failed.
    ensures usable { IfOk result (λ left. IfOk left (AreUsable D.Disk)) }
    ensures session { IfOk result (IsSession D.Disk files capacity count (C.traffic connections.old) (C.traffic connections.new)) }
    // If the opening was refused, no client was served, and the fault and the files come from `Archive::open_files`.
    // There is no clause about a crash during an opening.
    ensures unserved { OnErr result (connections.new ≡ connections.old) }
    ensures bad { IfErr result (λ e. (e.0 ≡ OpenFault.BadCapacity) ↔ (is_capacity capacity ≡ false)) }
    ensures back { IfErr result (λ e. e.0 ≡ OpenFault.BadCapacity → e.1 ≡ files) }
    ensures ours { IfErr result (λ e. (k : Kept) → AreClean D.Disk e.1.log e.1.db → FilesHold (image_of D.Disk files) k → e.0 ≢ OpenFault.NotOurs) }
    ensures none { IfErr result (λ e. AreClean D.Disk e.1.log e.1.db → ListNothing (image_of D.Disk files) → e.0 ≢ OpenFault.NotOurs) }
    ensures clean { IfErr result (λ e. AreClean D.Disk e.1.log e.1.db → e.0 ≡ OpenFault.NotOurs → AreClean D.Disk files.log files.db) }
{
    law_of_migrated_archives();
    match Archive::open_files(alloc, files, capacity) {
        Ok(archive) => Ok(serve_opened(alloc, archive, connections, count)),
        Err((fault, left)) => Err((fault, left)),
    }
}

/// A session begins with the archive that the session before it, or a crash, left in the files. A law: calling it does
/// nothing.
pub fn law_of_sessions<D: Disk, E: Disk>()
    ensures composed { SessionsCompose D.Disk }
    ensures crashed { SessionsComposeOverCrashes D.Disk E.Disk }
{}
