//! The jobs of `life_program` over an archive in files on this machine.
ghost use Rattle.std.specs.Prelude.{◌≡◌, None, Some, MatchResult};
ghost use Rattle.sqlite_wal.specs.Files.{image_at};
ghost use Rattle.life_archive.specs.ArchivePath.{AnswersDeposit, AnswersServing, line_after};
ghost use Rattle.life_check.specs.Report.{AnswersCheck, line_after as line_after_check};

use crate::check_progress::CheckProgress;
use crate::net::PortConnections;
use crate::reason::reason_of;
use life_archive::{ArchiveStop, deposit_path, serve_path};
use life_check::{CheckStop, run_check};
use life_program::ArchiveJobs;
use life_rle::{Inlet, Outlet};
use sqlite::{FileFrom, Start};
use sqlite_disk::Disk;

/// The capacity of every archive that `life` opens: deposits and, separately, censuses. The greatest that `life_store`
/// accepts.
pub const CAPACITY: u64 = 1_000_000;

/// Turns a stop into its line for standard error.
fn or_line(done: Result<(), ArchiveStop>) -> Result<(), &'static str>
    ensures { MatchResult result (λ _. line_after done ≡ None) (λ line. line_after done ≡ Some line.now) }
{
    match done {
        Ok(()) => Ok(()),
        Err(stop) => Err(stop.line()),
    }
}

/// Turns the stop of a check into its line for standard error.
fn or_line_of_check(done: Result<(), CheckStop>) -> Result<(), &'static str>
    ensures { MatchResult result (λ _. line_after_check done ≡ None) (λ line. line_after_check done ≡ Some line.now) }
{
    match done {
        Ok(()) => Ok(()),
        Err(stop) => Err(stop.line()),
    }
}

/// Archives in files on this machine. `start` states the assumed contents of the files before a job. The clauses hold
/// for any contents.
#[derive(Drop)]
pub struct ArchiveFile<T> {
    pub start: T,
}

impl<T: Start> ArchiveJobs for ArchiveFile<T> {
    ghost deposits = { λ I O i o file member token input rest output sent line.
        AnswersDeposit ⟦<FileFrom<T> as Disk>⟧ i o (image_at T.Start) 1000000 member token input rest output sent line };

    ghost serves = { λ file port connections line. AnswersServing ⟦<FileFrom<T> as Disk>⟧ (image_at T.Start) 1000000 connections line };

    ghost checks = { λ O o file quick output sent line. AnswersCheck quick ⟦<FileFrom<T> as Disk>⟧ o (image_at T.Start) 1000000 output sent line };

    fn deposit<I: Inlet, O: Outlet>(
        self,
        rt: &HostRuntime,
        file: &str,
        member: &str,
        token: &str,
        input: &mut I,
        output: &mut O,
    ) -> Result<(), &'static str> {
        let (done, _left) = deposit_path(
            rt, file, CAPACITY, self.start, member, token, input, output,
        );
        or_line(done)
    }

    fn serve(
        self,
        rt: &HostRuntime,
        file: &str,
        port: u64,
        connections: u64,
    ) -> Result<(), &'static str> {
        let mut peers = PortConnections::new(rt, port);
        let (done, _left) = serve_path(rt, file, CAPACITY, self.start, &mut peers, connections);
        or_line(done)
    }

    fn check<O: Outlet>(
        self,
        rt: &HostRuntime,
        file: &str,
        quick: bool,
        output: &mut O,
    ) -> Result<(), &'static str> {
        let mut progress = CheckProgress::begin(rt);
        let (done, _left) = run_check(rt, file, CAPACITY, self.start, quick, &mut progress, output);
        or_line_of_check(done)
    }

    fn say_why(rt: &HostRuntime, file: &str) {
        if let Some(reason) = reason_of(rt, file) {
            // If standard error fails, the reason can't be reported.
            let _ignored = eprintln!(rt; "{file}: {reason}");
        }
    }
}
