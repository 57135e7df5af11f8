//! The program `life-draw`: draws the pattern file on standard input as text or SVG.
#![tactic(auto)]

use life_pictures::run_program;
use std::io;
use std::process::ExitCode;

fn main(rt: HostRuntime) -> io::Result<ExitCode> {
    run_program(&rt)
}
