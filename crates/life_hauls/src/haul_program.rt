//! Runs `life-haul`: from its arguments to its exit status.
ghost use Rattle.std.specs.Prelude.{map, MatchResult};
ghost use Rattle.life_program.specs.Job.{IsStatus};
ghost use Rattle.life_jobs.specs.Streams.{PutsOnce};
ghost use Rattle.life_hauls.specs.HaulWords.{words_job};
ghost use Rattle.life_hauls.specs.HaulProgram.{DoesJob, HaulEnd};

use crate::haul_arguments::{HaulJob, haul_command, read_haul_words};
use crate::haul_jobs::{run_haul, run_soup};
use crate::haul_watch::HaulWatch;
use life_jobs::Stop;
use life_program::{print_fault, print_stop};
use life_rle::{FromWrite, Outlet};
use life_words::words_of;
use std::alloc::Global;
use std::convert::AsStr;
use std::io;
use std::process::ExitCode;

/// `watch` is called only during a haul.
fn do_job<O: Outlet, W: HaulWatch>(
    alloc: Global,
    job: HaulJob<'_>,
    output: &mut O,
    watch: &mut W,
) -> Result<(), Stop>
    ensures does { DoesJob job.entry (O.already output.old) (O.already output.new) result }
    ensures once { PutsOnce output.old output.new (O.failures output.old) (O.failures output.new) (O.last_failed output.new) result }
{
    match job {
        HaulJob::Haul(words) => run_haul(alloc, words, output, watch),
        HaulJob::Soup(words) => run_soup(alloc, words, output),
    }
}

/// Prints the line of a stop on standard error.
fn print_done(rt: &HostRuntime, done: Result<(), Stop>) -> io::Result<ExitCode>
    ensures { MatchResult done (λ _. IsStatus result 0) (λ _. IsStatus result 1) }
{
    match done {
        Ok(()) => Ok(ExitCode::SUCCESS),
        Err(stop) => print_stop(rt, stop.line()),
    }
}

/// Does the job that the arguments name; the first one is the program's name. Returns the exit status: 0 if the job
/// was done, 1 if it stopped, 2 for a usage error or a request for help. After a job, it calls the watch's `ended`
/// before it prints the line of a stop.
pub fn run_words<O: Outlet, W: HaulWatch>(
    rt: &HostRuntime,
    words: &[String],
    output: &mut O,
    watch: &mut W,
) -> io::Result<ExitCode>
    ensures { HaulEnd O.Outlet (words_job (map ⟦<String as AsStr>⟧.text words.now)) output.old output.new result }
{
    match read_haul_words(rt.alloc(), words) {
        Ok(job) => {
            let done = do_job(rt.alloc(), job, output, watch);
            watch.ended();
            print_done(rt, done)
        }
        Err(fault) => print_fault(rt, fault),
    }
}

/// Calls [`run_words`] with the process's arguments and standard output.
pub fn run_program<W: HaulWatch>(rt: &HostRuntime, watch: &mut W) -> io::Result<ExitCode> {
    let words = match words_of(rt, || haul_command(rt.alloc())) {
        Ok(words) => words,
        Err(fault) => return print_fault(rt, fault),
    };
    let mut output = FromWrite::new(io::writer(rt));
    run_words(rt, words.as_slice(), &mut output, watch)
}
