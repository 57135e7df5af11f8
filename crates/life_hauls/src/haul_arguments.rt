//! The arguments of `life-haul`, read by `clap`.
ghost use Rattle.std.specs.Prelude.{◌≡◌, codes, map, option_map, IfOk, false};
ghost use Rattle.clap.specs.Words.{app_of, rule_of, rows_of, found_of, subcommand_rows_of};
ghost use Rattle.life_words.specs.Words.{text_rule, text_at, MakesCommand, Answers};
ghost use Rattle.life_hauls.specs.HaulWords.{rule_rule, symmetry_rule, soup_app, bare_haul, haul_app, asked_by, rule_or_life, symmetry_or_c1, is_any_before};
ghost use Rattle.life_hauls.specs.HaulWords.{haul_in as haul_of_rows, soup_in as soup_of_rows, job_named, job_of, words_job};

use crate::haul_jobs::{HaulWords, SoupWords};
use crate::symmetry::Symmetry;
use clap::error::ErrorKind;
use clap::{Arg, ArgMatches, Command, Error};
use life_words::{
    WordFault, generation_arg, limit_arg, named_command, number_arg, number_in, program_command,
    read_matches, text_arg, text_in, with_arg, with_command,
};
use std::alloc::{AllocError, Global};
use std::convert::AsStr;

// The forms of the command, for its help and its errors.
const HAUL_USAGE: &str = "\
life-haul [OPTIONS] <ROOT> <FIRST> <COUNT> <N> <LIMIT>
       life-haul soup [OPTIONS] <ROOT> <NUMBER>";

// What help prints after the arguments: what the program prints and refuses, and an example.
const HAUL_HELP: &str = "\
Reads:   nothing
Prints:  '# root ROOT', '# rule RULE', '# generation N', '# limit LIMIT', then 'code,count,first', a
         line 'CODE,COUNT,FIRST' for each code in byte order, and 'unresolved,COUNT,FIRST'. COUNT is
         how many clusters in generation N of all soups have the code, FIRST the number of the first
         soup with one. The last lines are 'clusters,COUNT,' and 'soups,COUNT,FIRST'. After the
         limit, '# symmetry NAME' names a symmetry other than C1
Soups:   soup I has 16 by 16 cells, row by row: the bits of the SHA-256 digest of ROOT and I.
         With --symmetry 8x32, 4x64, 2x128 or 1x256 it has that many rows by that many columns.
         D2_+1 and D2_+2 add its mirror image, with row y at -y and at -y - 1
Roots:   to use the root 'soup', write '--' first: life-haul -- soup 1 1000 2048 60
Refuses: out-of-limit, bad-rule, unavailable
Example: life-haul abc 1 1000 2048 60

A refusal is one line 'refused: NAME' on standard error, with status 1.
Usage errors and requests for help end with status 2.";

const SOUP_HELP: &str = "\
Reads:   nothing
Prints:  the soup as canonical RLE; its first live column and row are moved to 0
Refuses: out-of-limit, bad-rule, unavailable
Example: life-haul soup abc 17";

/// What the arguments tell `life-haul` to do.
#[derive(Clone, Copy, Debug, PartialEq, Eq)]
pub enum HaulJob<'a> {
    /// Print the table of a haul.
    Haul(HaulWords<'a>),
    /// Print one soup as a pattern file.
    Soup(SoupWords<'a>),
}

fn rule_arg<'a>(alloc: Global) -> Arg<'a>
    ensures rule { rule_of result ≡ rule_rule }
    ensures local { result.global ≡ false }
{
    Arg::new(alloc, "RULE")
        .long("rule")
        .help("The rule, B3/S23 by default")
}

// `clap` accepts any name here; [`no_job`] reports an unknown one.
fn symmetry_arg<'a>(alloc: Global) -> Arg<'a>
    ensures rule { rule_of result ≡ symmetry_rule }
    ensures local { result.global ≡ false }
{
    Arg::new(alloc, "NAME").long("symmetry").help(
        "The symmetry: C1 (the default), 8x32, 4x64, 2x128, 1x256, D2_+1 or D2_+2",
    )
}

// `clap` accepts any text here; the job checks its form.
fn root_arg<'a>(alloc: Global) -> Arg<'a>
    ensures rule { rule_of result ≡ text_rule (codes "ROOT") }
    ensures local { result.global ≡ false }
{
    text_arg(
        alloc,
        "ROOT",
        "The root of the soups: 1 to 64 printable ASCII characters without spaces",
    )
}

fn soup_command<'a>(alloc: Global) -> Result<Command<'a>, AllocError>
    ensures { MakesCommand soup_app result }
{
    let command = Ok(named_command(alloc, "soup", "Prints a soup as a pattern file", SOUP_HELP));
    let command = with_arg(command, root_arg(alloc));
    let command = with_arg(
        command,
        number_arg(
            alloc,
            "NUMBER",
            "The number of the soup, from 0 to 9007199255740991",
        ),
    );
    let command = with_arg(command, rule_arg(alloc));
    with_arg(command, symmetry_arg(alloc))
}

// `life-haul` without its arguments. It has no subcommand `help`, so `help` is a root like any other.
fn bare_command<'a>(alloc: Global) -> Command<'a>
    ensures { app_of result ≡ bare_haul }
{
    program_command(
        alloc,
        "life-haul",
        "Counts the objects in random soups",
        HAUL_HELP,
    )
    .override_usage(HAUL_USAGE)
    .subcommand_negates_reqs(true)
    .disable_help_subcommand(true)
}

/// The command of `life-haul`: its arguments in order, and the subcommand `soup`.
pub fn haul_command<'a>(alloc: Global) -> Result<Command<'a>, AllocError>
    ensures { IfOk result (λ command. app_of command ≡ haul_app) }
{
    let command = with_arg(Ok(bare_command(alloc)), root_arg(alloc));
    let command = with_arg(
        command,
        number_arg(
            alloc,
            "FIRST",
            "The number of the first soup, from 0 to 9007199254740992",
        ),
    );
    let command = with_arg(
        command,
        number_arg(alloc, "COUNT", "How many soups to count, from 1 to 1000000"),
    );
    let command = with_arg(command, generation_arg(alloc));
    let command = with_arg(command, limit_arg(alloc));
    let command = with_arg(command, rule_arg(alloc));
    let command = with_arg(command, symmetry_arg(alloc));
    with_command(command, soup_command(alloc))
}

// Conway's Life if no rule is given.
fn rule_in<'a>(found: &ArgMatches<'a>) -> &'a str
    ensures { result.now ≡ rule_or_life (text_at (codes "RULE") (rows_of (found_of found.now))) }
{
    match text_in(found, "RULE") {
        Some(rule) => rule,
        None => "B3/S23",
    }
}

// C1 if no symmetry is given, and `None` for an unknown name.
fn symmetry_in(found: &ArgMatches<'_>) -> Option<Symmetry>
    ensures { result ≡ symmetry_or_c1 (text_at (codes "NAME") (rows_of (found_of found.now))) }
{
    match text_in(found, "NAME") {
        Some(name) => Symmetry::named(name),
        None => Some(Symmetry::C1),
    }
}

fn haul_in<'a>(found: &ArgMatches<'a>) -> Option<HaulJob<'a>>
    ensures { option_map asked_by result ≡ haul_of_rows (rows_of (found_of found.now)) }
{
    Some(HaulJob::Haul(HaulWords {
        root: text_in(found, "ROOT")?,
        first: number_in(found, "FIRST")?,
        count: number_in(found, "COUNT")?,
        rule: rule_in(found),
        symmetry: symmetry_in(found)?,
        n: number_in(found, "N")?,
        limit: number_in(found, "LIMIT")?,
    }))
}

fn soup_in<'a>(found: &ArgMatches<'a>) -> Option<HaulJob<'a>>
    ensures { option_map asked_by result ≡ soup_of_rows (rows_of (found_of found.now)) }
{
    Some(HaulJob::Soup(SoupWords {
        root: text_in(found, "ROOT")?,
        number: number_in(found, "NUMBER")?,
        rule: rule_in(found),
        symmetry: symmetry_in(found)?,
    }))
}

fn job_named<'a>(name: &str, found: &ArgMatches<'a>) -> Option<HaulJob<'a>>
    ensures { option_map asked_by result ≡ job_named name.now (rows_of (found_of found.now)) }
{
    match name {
        "soup" => soup_in(found),
        _ => None,
    }
}

// `None` for an unknown symmetry, or if a subcommand comes after other arguments.
fn job_in<'a>(matches: &ArgMatches<'a>) -> Option<HaulJob<'a>>
    ensures { option_map asked_by result ≡ job_of (rows_of (found_of matches.now)) (subcommand_rows_of matches.now) }
{
    let Some((name, found)) = matches.subcommand() else {
        return haul_in(matches);
    };
    if is_any_before(matches) {
        return None;
    }
    job_named(name, found)
}

// Whether there are arguments before the subcommand. `ROOT` comes first, so the numbers need no test.
fn is_any_before(matches: &ArgMatches<'_>) -> bool
    ensures { result ≡ is_any_before (rows_of (found_of matches.now)) }
{
    text_in(matches, "ROOT").is_some()
        || text_in(matches, "RULE").is_some()
        || text_in(matches, "NAME").is_some()
}

// The usage error if [`job_in`] finds no job, in clap's form.
fn no_job(alloc: Global, matches: &ArgMatches<'_>) -> Result<Error, AllocError> {
    let mut command = haul_command(alloc)?;
    if matches.subcommand().is_some() && is_any_before(matches) {
        return command.error(
            ErrorKind::ArgumentConflict,
            "the subcommand 'soup' cannot be used with arguments before it",
        );
    }
    command.error(
        ErrorKind::InvalidValue,
        "invalid value for '--symmetry <NAME>': it is none of C1, 8x32, 4x64, 2x128, 1x256, D2_+1, D2_+2",
    )
}

/// Reads the command line of `life-haul`. The first argument is the program's name, as in `env::args`.
///
/// A request for help is also a fault: `BadWords` with the text of the help.
pub fn read_haul_words<'a, S: AsStr>(
    alloc: Global,
    words: &'a [S],
) -> Result<HaulJob<'a>, WordFault>
    ensures { Answers asked_by (words_job (map S.text words.entry.now)) result }
{
    let matches = read_matches(haul_command(alloc), words)?;
    let Some(job) = job_in(&matches) else {
        return Err(WordFault::BadWords(Some(no_job(alloc, &matches)?)));
    };
    Ok(job)
}
