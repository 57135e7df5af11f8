//! The program `life`: an archive of Game of Life patterns.
#![tactic(auto)]

mod archives;
mod check_progress;
mod laws;
mod net;
mod peer;
mod reason;

use archives::ArchiveFile;
pub use laws::law_of_checked_files;
use life_program::run_program;
use sqlite::Unknown;
use std::io;
use std::process::ExitCode;

fn main(rt: HostRuntime) -> io::Result<ExitCode> {
    // The initial content of files on this machine is unknown, unless they are empty.
    run_program(&rt, ArchiveFile { start: Unknown })
}
