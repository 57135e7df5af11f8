//! The arguments of `life-draw`, read by `clap`.
ghost use Rattle.std.specs.Prelude.{◌≡◌, map, IfOk};
ghost use Rattle.clap.specs.Words.{app_of, subcommand_rows_of};
ghost use Rattle.life_words.specs.Words.{MakesCommand, by_subcommand, Answers};
ghost use Rattle.life_pictures.specs.DrawWords.{animation_app, bare_draw, draw, picture_named, words_picture};

use crate::draw_job::Picture;
use clap::{ArgMatches, Command};
use life_words::{
    WordFault, named_command, number_arg, number_in, program_command, read_matches, with_arg,
    with_command,
};
use std::alloc::{AllocError, Global};
use std::convert::AsStr;

// The help of each command: its purpose and, after the arguments, its input, output, refusals and an example.
const TEXT_ABOUT: &str = "Draws the pattern on standard input as text, in half blocks";

const TEXT_HELP: &str = "\
Reads:   a pattern file (RLE) on standard input
Prints:  the box of the live cells, two rows to a line, in half blocks (UTF-8) without trailing
         spaces; nothing for the empty pattern
Refuses: bad-pattern NAME, unreadable, unavailable
Example: life-draw text < glider.rle";

const SVG_ABOUT: &str = "Draws the pattern on standard input as an SVG document";

const SVG_HELP: &str = "\
Reads:   a pattern file (RLE) on standard input
Prints:  an SVG document with the pattern's name as its title: the live cells on white, with a margin
         of one cell around their box; one path draws all runs of cells
Refuses: bad-pattern NAME, unreadable, unavailable
Example: life-draw svg < glider.rle > glider.svg";

const ANIMATION_ABOUT: &str =
    "Draws generations of the pattern on standard input as an animated SVG document";

const ANIMATION_HELP: &str = "\
Reads:   a pattern file (RLE) on standard input
Prints:  an SVG document with the pattern's name as its title. It shows generations FIRST to LAST for
         an eighth of a second each, in a loop, in a box that all of them fit into
Refuses: out-of-limit (LAST over 2048 or below FIRST, or over 240 generations), bad-pattern NAME,
         unreadable, unavailable
Example: life-draw animation 0 29 < gosper-gun.rle > gun.svg";

const DRAW_ABOUT: &str = "Draws Game of Life patterns";

const DRAW_HELP: &str = "\
A refusal is one line 'refused: NAME' on standard error, with status 1.
Usage errors and requests for help end with status 2.
Example: life generation 30 < gun.rle | life-draw text";

// The command without its subcommands.
fn bare_command<'a>(alloc: Global) -> Command<'a>
    ensures { app_of result ≡ bare_draw }
{
    program_command(alloc, "life-draw", DRAW_ABOUT, DRAW_HELP).subcommand_required(true)
}

fn animation_command<'a>(alloc: Global) -> Result<Command<'a>, AllocError>
    ensures { MakesCommand animation_app result }
{
    let first = "The number of the first generation, from 0 to 2048";
    let last = "The number of the last generation, at most FIRST + 239";
    let command = Ok(named_command(alloc, "animation", ANIMATION_ABOUT, ANIMATION_HELP));
    let command = with_arg(command, number_arg(alloc, "FIRST", first));
    with_arg(command, number_arg(alloc, "LAST", last))
}

/// The command of `life-draw`, with its subcommands in the order in which help lists them.
pub fn draw_command<'a>(alloc: Global) -> Result<Command<'a>, AllocError>
    ensures { IfOk result (λ command. app_of command ≡ draw) }
{
    let text = named_command(alloc, "text", TEXT_ABOUT, TEXT_HELP);
    let svg = named_command(alloc, "svg", SVG_ABOUT, SVG_HELP);
    let command = with_command(Ok(bare_command(alloc)), Ok(text));
    let command = with_command(command, Ok(svg));
    with_command(command, animation_command(alloc))
}

fn picture_in(matches: &ArgMatches<'_>) -> Option<Picture>
    ensures { result ≡ by_subcommand picture_named (subcommand_rows_of matches.now) }
{
    let (name, found) = matches.subcommand()?;
    match name {
        "text" => Some(Picture::Text),
        "svg" => Some(Picture::Svg),
        "animation" => Some(Picture::Animation {
            first: number_in(found, "FIRST")?,
            last: number_in(found, "LAST")?,
        }),
        _ => None,
    }
}

/// The picture that the arguments name. The first one is the program's name, as in `env::args`.
///
/// A request for help is also a fault: `BadWords` with the text of the help.
pub fn read_draw_words<S: AsStr>(alloc: Global, words: &[S]) -> Result<Picture, WordFault>
    ensures { Answers (λ picture. picture) (words_picture (map S.text words.entry.now)) result }
{
    let matches = read_matches(draw_command(alloc), words)?;
    match picture_in(&matches) {
        Some(picture) => Ok(picture),
        None => Err(WordFault::BadWords(None)),
    }
}
