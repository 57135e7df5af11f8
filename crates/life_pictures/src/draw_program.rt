//! From the arguments of `life-draw` to its status.
ghost use Rattle.std.specs.Prelude.{map, MatchResult};
ghost use Rattle.life_program.specs.Job.{IsStatus};
ghost use Rattle.life_pictures.specs.DrawWords.{words_picture};
ghost use Rattle.life_pictures.specs.DrawProgram.{DrawEnd};

use crate::draw_arguments::{draw_command, read_draw_words};
use crate::draw_job::run_draw;
use life_jobs::Stop;
use life_program::{print_fault, print_fault_of, print_stop};
use life_rle::{FromRead, FromWrite, Inlet, Outlet};
use life_words::words_of;
use std::convert::AsStr;
use std::io;
use std::process::ExitCode;

/// Whether these arguments name a picture, which always reads a pattern from standard input.
fn reads_pattern(rt: &HostRuntime, words: &[String]) -> bool {
    read_draw_words(rt.alloc(), words).is_ok()
}

/// The status after drawing; prints the line of a stop on standard error.
fn print_done(rt: &HostRuntime, done: Result<(), Stop>) -> io::Result<ExitCode>
    ensures { MatchResult done (λ _. IsStatus result 0) (λ _. IsStatus result 1) }
{
    match done {
        Ok(()) => Ok(ExitCode::SUCCESS),
        Err(stop) => print_stop(rt, stop.line()),
    }
}

/// Draws the picture that the arguments name. The first argument is the program's name. The status is 0 after drawing
/// or a request for the version, and 1 if drawing stopped or memory ran out. It is 2 for all other arguments that name
/// no picture, with the text from `clap`.
pub fn run_words<I: Inlet, O: Outlet>(
    rt: &HostRuntime,
    words: &[String],
    input: &mut I,
    output: &mut O,
) -> io::Result<ExitCode>
    ensures { DrawEnd I.Inlet O.Outlet (words_picture (map ⟦<String as AsStr>⟧.text words.now)) input.old input.new output.old output.new result }
{
    match read_draw_words(rt.alloc(), words) {
        Ok(picture) => print_done(rt, run_draw(rt.alloc(), picture, input, output)),
        Err(fault) => print_fault_of(rt, fault, words, |words| reads_pattern(rt, words)),
    }
}

/// Like [`run_words`], with the arguments of the process, standard input and standard output.
pub fn run_program(rt: &HostRuntime) -> io::Result<ExitCode> {
    let words = match words_of(rt, || draw_command(rt.alloc())) {
        Ok(words) => words,
        Err(fault) => return print_fault(rt, fault),
    };
    let mut input = FromRead::new(rt.reader());
    let mut output = FromWrite::new(io::writer(rt));
    run_words(rt, words.as_slice(), &mut input, &mut output)
}
