//! The messages and the exit status of a program whose job stopped or never began.
ghost use Rattle.life_program.specs.Job.{status_by, IsStatus};

use clap::error::ErrorKind;
use life_jobs::Stop;
use life_words::WordFault;
use std::io;
use std::process::ExitCode;

/// The exit status for usage errors and requests for help.
const BAD_WORDS: u8 = 2;

/// Prints the line of a stop, unless it is empty, and returns status 1.
pub fn print_stop(rt: &impl Eprint, line: &str) -> io::Result<ExitCode>
    ensures { IsStatus result 1 }
{
    if !line.is_empty() {
        rt.eprintln(line)?;
    }
    Ok(ExitCode::FAILURE)
}

/// Prints a usage error or help from `clap` on standard error, with status 2. The version goes to standard output,
/// with status 0. Out of memory is printed as for a stop, with status 1.
pub fn print_fault(rt: &HostRuntime, fault: WordFault) -> io::Result<ExitCode>
    ensures { IsStatus result (status_by fault) }
{
    match fault {
        WordFault::BadWords(Some(error)) if error.kind() == ErrorKind::DisplayVersion => {
            print!(rt; "{error}")?;
            return Ok(ExitCode::SUCCESS);
        }
        WordFault::BadWords(Some(error)) => {
            // Ignored: if standard error fails, only the status can report it.
            let _ignored = eprint!(rt; "{error}");
        }
        WordFault::BadWords(None) => {}
        WordFault::Memory => return print_stop(rt, Stop::Unavailable.line()),
    }
    Ok(ExitCode::from(BAD_WORDS))
}
