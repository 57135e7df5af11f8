//! Runs the job that the arguments name, on any streams.
ghost use Rattle.std.specs.Prelude.{◌≡◌, ℕ, Bool, List, Option, None, Some, Err, MatchResult};
ghost use Rattle.life_jobs.specs.JobStop.{line_of};
ghost use Rattle.life_jobs.specs.declared.stop.Stop.{Stop as StopValue};
ghost use Rattle.life_words.specs.Words.{asked_by};
ghost use Rattle.life_rle.specs.declared.stream.Inlet as inlet;
ghost use Rattle.life_rle.specs.declared.stream.Outlet as outlet;
ghost use Rattle.life_program.specs.Job.{DoesFileJob, UsesStreams, TakesNothing, DoesJob, line_after};

use crate::explain_job::run_explain;
use life_jobs::{Stop, run_census, run_generation, run_kind, run_object};
use life_rle::{Inlet, Outlet};
use life_words::Job;
use std::alloc::Global;

/// The jobs over an archive in a file, which each program implements. If a job stops, it returns the line for standard
/// error, without its line end; the line is empty to print none.
pub trait ArchiveJobs: Drop {
    // A relation between a deposit's file, member and token, its streams before and after, and the line.
    ghost deposits: { (I O : Type 0) → inlet.Ghosts I → outlet.Ghosts O → List ℕ → List ℕ → List ℕ → I → I → O → O → Option (List ℕ) → Type 0 };
    // A relation between the file, the port, the number of connections, and the line.
    ghost serves: { List ℕ → ℕ → ℕ → Option (List ℕ) → Type 0 };
    // A relation between the file, whether the check is quick, the output before and after, and the line.
    ghost checks: { (O : Type 0) → outlet.Ghosts O → List ℕ → Bool → O → O → Option (List ℕ) → Type 0 };

    /// Stores the pattern on the input under this member and token.
    fn deposit<I: Inlet, O: Outlet>(
        self,
        rt: &HostRuntime,
        file: &str,
        member: &str,
        token: &str,
        input: &mut I,
        output: &mut O,
    ) -> Result<(), &'static str>
        ensures { MatchResult result
            (λ _. deposits I O I.Inlet O.Outlet file.now member.now token.now input.old input.new output.old output.new None)
            (λ line. deposits I O I.Inlet O.Outlet file.now member.now token.now input.old input.new output.old output.new (Some line.now)) };

    /// Serves this many connections at the port, and then ends.
    fn serve(
        self,
        rt: &HostRuntime,
        file: &str,
        port: u64,
        connections: u64,
    ) -> Result<(), &'static str>
        ensures { MatchResult result (λ _. serves file.now port connections None) (λ line. serves file.now port connections (Some line.now)) };

    /// Checks the archive in the file, and writes the result. A quick check doesn't count the censuses again.
    fn check<O: Outlet>(
        self,
        rt: &HostRuntime,
        file: &str,
        quick: bool,
        output: &mut O,
    ) -> Result<(), &'static str>
        ensures { MatchResult result
            (λ _. checks O O.Outlet file.now quick output.old output.new None)
            (λ line. checks O O.Outlet file.now quick output.old output.new (Some line.now)) };

    /// Called after the line of a job that was `unavailable`. Looks at the file again, and prints on standard error
    /// why it could not be used, if that can be found out.
    fn say_why(rt: &HostRuntime, file: &str);
}

fn or_line(done: Result<(), Stop>) -> Result<(), &'static str>
    ensures { MatchResult result (λ _. line_after done ≡ None) (λ line. line_after done ≡ Some line.now) }
{
    match done {
        Ok(()) => Ok(()),
        Err(stop) => Err(stop.line()),
    }
}

/// Does a job that needs no archive. [`do_job`] passes no other.
fn do_file_job<I: Inlet, O: Outlet>(
    alloc: Global,
    job: Job<'_>,
    input: &mut I,
    output: &mut O,
) -> Result<(), Stop>
    ensures does { DoesFileJob (asked_by job.entry) (I.to_come input.old) (O.already output.old) (O.already output.new) result }
    ensures streams { UsesStreams I.Inlet O.Outlet input.old input.new output.old output.new result }
    ensures none_taken { TakesNothing (asked_by job.entry) input.old input.new }
{
    match job {
        Job::Generation(n) => run_generation(alloc, n, input, output),
        Job::Kind(limit) => run_kind(alloc, limit, input, output),
        Job::Object { rule, code, limit } => run_object(alloc, rule, code, limit, output),
        Job::Census { n, limit } => run_census(alloc, n, limit, input, output),
        Job::Explain(name) => run_explain(name, output),
        _ => Err(Stop::Unavailable),
    }
}

/// Does the job on these streams; `archives` does the jobs over an archive. If the job stops, this returns the line
/// for standard error, as [`ArchiveJobs`] does.
pub fn do_job<J: ArchiveJobs, I: Inlet, O: Outlet>(
    rt: &HostRuntime,
    archives: J,
    job: Job<'_>,
    input: &mut I,
    output: &mut O,
) -> Result<(), &'static str>
    ensures { MatchResult result
        (λ _. DoesJob I.Inlet O.Outlet J.deposits J.serves J.checks (asked_by job.entry) input.old input.new output.old output.new None)
        (λ line. DoesJob I.Inlet O.Outlet J.deposits J.serves J.checks (asked_by job.entry) input.old input.new output.old output.new (Some line.now)) }
{
    match job {
        Job::Deposit {
            file,
            member,
            token,
        } => archives.deposit(rt, file, member, token, input, output),
        Job::Serve {
            file,
            port,
            connections,
        } => archives.serve(rt, file, port, connections),
        Job::Check { file, quick } => archives.check(rt, file, quick, output),
        _ => or_line(do_file_job(rt.alloc(), job, input, output)),
    }
}
