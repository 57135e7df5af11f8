//! The program `life` without an archive, for pattern files and codes. It has the same arguments and output; commands
//! that need an archive are refused as `unavailable`.
#![tactic(auto)]

ghost use Rattle.std.specs.Prelude.{◌≡◌, Some, codes};

use life_jobs::Stop;
use life_program::{ArchiveJobs, run_program};
use life_rle::{Inlet, Outlet};
use std::io;
use std::process::ExitCode;

/// Stops every job over an archive.
#[derive(Drop)]
struct NoArchive;

impl ArchiveJobs for NoArchive {
    ghost deposits = { λ I O i o file member token input rest output sent line. line ≡ Some (codes "refused: unavailable") };

    ghost serves = { λ file port connections line. line ≡ Some (codes "refused: unavailable") };

    ghost checks = { λ O o file quick output sent line. line ≡ Some (codes "refused: unavailable") };

    fn deposit<I: Inlet, O: Outlet>(
        self,
        _rt: &HostRuntime,
        _file: &str,
        _member: &str,
        _token: &str,
        _input: &mut I,
        _output: &mut O,
    ) -> Result<(), &'static str> {
        Err(Stop::Unavailable.line())
    }

    fn serve(
        self,
        _rt: &HostRuntime,
        _file: &str,
        _port: u64,
        _connections: u64,
    ) -> Result<(), &'static str> {
        Err(Stop::Unavailable.line())
    }

    fn check<O: Outlet>(
        self,
        _rt: &HostRuntime,
        _file: &str,
        _quick: bool,
        _output: &mut O,
    ) -> Result<(), &'static str> {
        Err(Stop::Unavailable.line())
    }

    fn say_why(_rt: &HostRuntime, _file: &str) {}
}

fn main(rt: HostRuntime) -> io::Result<ExitCode> {
    run_program(&rt, NoArchive)
}
