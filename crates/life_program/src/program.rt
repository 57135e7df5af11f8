//! Runs a program: from its arguments to its exit status.
ghost use Rattle.std.specs.Prelude.{map, MatchResult};
ghost use Rattle.life_words.specs.Words.{words_job};
ghost use Rattle.life_program.specs.Job.{IsStatus, WordsEnd};

use crate::job::{ArchiveJobs, do_job};
use crate::printing::{print_fault, print_stop};
use crate::usage_hint::print_fault_of;
use life_jobs::Stop;
use life_rle::{FromRead, FromWrite, Inlet, Outlet};
use life_words::{Job, life_command, read_words, words_of};
use std::convert::AsStr;
use std::io;
use std::process::ExitCode;

/// Whether these arguments are valid and their job reads a pattern from standard input.
fn reads_pattern(rt: &HostRuntime, words: &[String]) -> bool {
    matches!(
        read_words(rt.alloc(), words),
        Ok(Job::Generation(_) | Job::Kind(_) | Job::Census { .. } | Job::Deposit { .. })
    )
}

/// `None` for a job that needs no archive.
fn archive_of<'a>(job: &Job<'a>) -> Option<&'a str> {
    match job {
        Job::Deposit { file, .. } => Some(*file),
        Job::Serve { file, .. } => Some(*file),
        Job::Check { file, .. } => Some(*file),
        _ => None,
    }
}

/// The exit status after a job. Prints the line of a stop and, if its archive was unavailable, another that says why.
fn print_done<J: ArchiveJobs>(
    rt: &HostRuntime,
    done: Result<(), &'static str>,
    file: Option<&str>,
) -> io::Result<ExitCode>
    ensures { MatchResult done.entry (λ _. IsStatus result 0) (λ line. IsStatus result 1) }
{
    let line = match done {
        Ok(()) => return Ok(ExitCode::SUCCESS),
        Err(line) => line,
    };
    let status = print_stop(rt, line)?;
    if let Some(file) = file
        && line == Stop::Unavailable.line()
    {
        J::say_why(rt, file);
    }
    Ok(status)
}

/// Does the job that the arguments name; the first one is the program's name. Returns the exit status: 0 if the job
/// was done, 1 if it stopped, 2 for a usage error or a request for help. Only `--version` also gives 0, and running
/// out of memory 1.
pub fn run_words<J: ArchiveJobs, I: Inlet, O: Outlet>(
    rt: &HostRuntime,
    archives: J,
    words: &[String],
    input: &mut I,
    output: &mut O,
) -> io::Result<ExitCode>
    ensures { WordsEnd I.Inlet O.Outlet J.deposits J.serves J.checks (words_job (map ⟦<String as AsStr>⟧.text words.now)) input.old input.new output.old output.new result }
{
    match read_words(rt.alloc(), words) {
        Ok(job) => {
            let file = archive_of(&job);
            print_done::<J>(
                rt,
                do_job::<J, I, O>(rt, archives, job, input, output),
                file,
            )
        }
        Err(fault) => print_fault_of(rt, fault, words, |words| reads_pattern(rt, words)),
    }
}

/// Calls [`run_words`] with the process's arguments, standard input and standard output.
pub fn run_program<J: ArchiveJobs>(rt: &HostRuntime, archives: J) -> io::Result<ExitCode> {
    let words = match words_of(rt, || life_command(rt.alloc())) {
        Ok(words) => words,
        Err(fault) => return print_fault(rt, fault),
    };
    let mut input = FromRead::new(rt.reader());
    let mut output = FromWrite::new(io::writer(rt));
    run_words::<J, _, _>(rt, archives, words.as_slice(), &mut input, &mut output)
}
