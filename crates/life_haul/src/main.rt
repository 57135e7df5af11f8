//! The program `life-haul`: counts the objects in random soups, and prints single soups.
#![tactic(auto)]

mod haul_progress;

use haul_progress::Progress;
use life_hauls::run_program;
use std::io;
use std::process::ExitCode;

fn main(rt: HostRuntime) -> io::Result<ExitCode> {
    let mut progress = Progress::begin(&rt);
    run_program(&rt, &mut progress)
}
