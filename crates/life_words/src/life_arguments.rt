//! The arguments of `life`, read by `clap`.
ghost use Rattle.std.specs.Prelude.{◌≡◌, codes, map, option_map, IfOk, false};
ghost use Rattle.clap.specs.Words.{app_of, rule_of, rows_of, found_of, subcommand_rows_of};
ghost use Rattle.clap.specs.declared.builder.command.Command.TheViews.{out-Command as fields_of};
ghost use Rattle.life_words.specs.Words.{number_rule_in, text_rule, file_rule, quick_rule, MakesCommand, object, census, deposit, serve, check, explain, bare_life, life_app};
ghost use Rattle.life_words.specs.Words.{number_at, text_at, is_given, asked_by, explain_of, job_named, by_subcommand, words_job, Answers};

use crate::commands::{
    generation_arg, limit_arg, named_command, program_command, read_matches, text_arg, with_arg,
    with_command,
};
use crate::explain::{explanation, refusal_names};
use crate::word_fault::WordFault;
use clap::builder::ValueParser;
use clap::{Arg, ArgAction, ArgMatches, Command};
use std::alloc::{AllocError, Global};
use std::convert::AsStr;

// The help of each command: its purpose and, after the arguments, what it reads, prints and refuses, and an example.
const GENERATION_ABOUT: &str = "Prints generation N of the pattern on standard input";

const GENERATION_HELP: &str = "\
Reads:   a pattern file (RLE) on standard input
Prints:  generation N as canonical RLE, without name, author or comments; its first live column and
         row are moved to 0
Refuses: out-of-limit (N over 2048), bad-pattern NAME, unreadable, unavailable
Example: life generation 1 < glider.rle";

const KIND_ABOUT: &str = "Prints the kind and the code of the pattern on standard input";

const KIND_HELP: &str = "\
Reads:   a pattern file (RLE) on standard input
Prints:  'empty', 'unresolved', 'still CODE', 'oscillator PERIOD CODE' or 'ship PERIOD DX DY CODE';
         CODE is '-' if no phase fits into 40 by 40 cells
Refuses: out-of-limit (LIMIT 0 or over 2048), bad-pattern NAME, unreadable, unavailable
Example: life kind 4 < glider.rle";

const OBJECT_ABOUT: &str = "Prints the pattern that a code names";

const OBJECT_HELP: &str = "\
Reads:   nothing
Prints:  the pattern that CODE names, as canonical RLE
Refuses: out-of-limit (LIMIT 0 or over 2048), bad-rule, bad-code NAME, unavailable
Example: life object B3/S23 xs6_696 1";

const CENSUS_ABOUT: &str = "Counts the objects in generation N of the pattern on standard input";

const CENSUS_HELP: &str = "\
Reads:   a pattern file (RLE) on standard input
Prints:  'code,count', then a line 'CODE,COUNT' for each code in byte order, and last
         'unresolved,COUNT' for the clusters without a code
Refuses: out-of-limit (N over 2048, LIMIT 0 or over 2048), bad-pattern NAME, unreadable, unavailable
Example: life census 0 2 < traffic-light.rle";

const DEPOSIT_ABOUT: &str = "Stores the pattern on standard input in an archive";

const DEPOSIT_HELP: &str = "\
Reads:   a pattern file (RLE) on standard input, and the archive F,
         which is created if it does not exist
Prints:  'deposit NUMBER'; repeating the command with the same pattern prints the same number
Refuses: bad-member, bad-token, bad-pattern NAME, token-reused, full, not-ours, unreadable, unavailable
Example: life deposit --db club.db ann t1 < glider.rle";

const SERVE_ABOUT: &str = "Serves an archive over HTTP on 127.0.0.1";

const SERVE_HELP: &str = "\
Reads:   HTTP requests from N connections, one after the other, and the archive F,
         which is created if it does not exist
Prints:  'listening on 127.0.0.1:P', and on standard error a line for each connection that failed
Refuses: not-ours, no-port, unavailable
Example: life serve --db club.db --port 8080 --connections 100";

const CHECK_ABOUT: &str = "Checks that the file of an archive is one, row by row";

const CHECK_HELP: &str = "\
Reads:   every row of the archive F, and counts each census again, unless --quick is given;
         it adds nothing to F
Prints:  'sound: N deposits, M censuses', or 'sound but for counts: N deposits, M censuses' with
         --quick; otherwise the errors, at most 100, such as 'deposit 17: ...', and then it refuses
Refuses: not-sound, unavailable
Example: life check --db club.db";

const EXPLAIN_ABOUT: &str = "Prints what a refusal means and what to do";

const EXPLAIN_HELP: &str = "\
Reads:   nothing
Prints:  what NAME means and what to do. A name that several kinds of refusal share has a line for
         each: over HTTP, a fault of a pattern file or of a code, a program, the gateway
Names:   bad-code, bad-count, bad-header, bad-member, bad-message, bad-method, bad-pattern, bad-rule,
         bad-text, bad-token, birth-zero, full, no-end, no-header, no-port, no-reply, no-such-census,
         no-such-deposit, no-such-page, not-canonical, not-ours, not-sound, not-within-limit, other-tag,
         out-of-limit, password, text-limit, token-reused, too-long, too-many-requests, too-wide,
         unavailable, unknown, unreadable
Refuses: unavailable
Example: life explain no-end";

const LIFE_ABOUT: &str = "An archive of Game of Life patterns";

const LIFE_HELP: &str = "\
A refusal is one line 'refused: NAME' on standard error, with status 1.
'life explain NAME' says what it means and what to do.
Usage errors and requests for help end with status 2.
Example: life generation 1 < glider.rle";

/// What the arguments tell `life` to do. The ranges of `n` and `limit` are not checked yet.
#[derive(Clone, Copy, Debug, PartialEq, Eq)]
pub enum Job<'a> {
    /// Print generation N of the pattern on standard input.
    Generation(u64),
    /// Print the kind of the pattern on standard input, for periods up to this limit.
    Kind(u64),
    /// Print the pattern that `code` names under `rule`. The period is at most `limit`.
    Object {
        rule: &'a str,
        code: &'a str,
        limit: u64,
    },
    /// Print a census of generation `n` of the pattern on standard input: how many clusters have each code.
    Census {
        n: u64,
        limit: u64,
    },
    /// Store the pattern on standard input in the archive in this file.
    Deposit {
        file: &'a str,
        member: &'a str,
        token: &'a str,
    },
    /// Serve the archive in this file over HTTP, and end after this many connections.
    Serve {
        file: &'a str,
        port: u64,
        connections: u64,
    },
    /// Check the archive in this file. A quick check doesn't count the censuses again.
    Check {
        file: &'a str,
        quick: bool,
    },
    /// Explain the refusals with this name.
    Explain(&'a str),
}

fn object_command<'a>(alloc: Global) -> Result<Command<'a>, AllocError>
    ensures { MakesCommand object result }
{
    let command = Ok(named_command(alloc, "object", OBJECT_ABOUT, OBJECT_HELP));
    let command = with_arg(command, text_arg(alloc, "RULE", "The rule, such as B3/S23"));
    let command = with_arg(command, text_arg(alloc, "CODE", "The code, such as xs4_33"));
    with_arg(command, limit_arg(alloc))
}

fn census_command<'a>(alloc: Global) -> Result<Command<'a>, AllocError>
    ensures { MakesCommand census result }
{
    let command = Ok(named_command(alloc, "census", CENSUS_ABOUT, CENSUS_HELP));
    let command = with_arg(command, generation_arg(alloc));
    with_arg(command, limit_arg(alloc))
}

// The option `--db`, whose value is the file of an archive.
fn file_arg<'a>(alloc: Global) -> Arg<'a>
    ensures rule { rule_of result ≡ file_rule }
    ensures local { result.global ≡ false }
{
    text_arg(alloc, "F", "The file of the archive").long("db")
}

fn deposit_command<'a>(alloc: Global) -> Result<Command<'a>, AllocError>
    ensures { MakesCommand deposit result }
{
    let command = Ok(named_command(alloc, "deposit", DEPOSIT_ABOUT, DEPOSIT_HELP));
    let command = with_arg(command, file_arg(alloc));
    let command = with_arg(
        command,
        text_arg(alloc, "MEMBER", "The member's name, such as ann"),
    );
    with_arg(
        command,
        text_arg(
            alloc,
            "TOKEN",
            "The member's token for this deposit, such as t1",
        ),
    )
}

// Here `clap` checks the range, so port 0 is a usage error.
fn port_arg<'a>(alloc: Global) -> Arg<'a>
    ensures rule { rule_of result ≡ number_rule_in (codes "P") (codes "port") 65535 }
    ensures local { result.global ≡ false }
{
    text_arg(alloc, "P", "The port on 127.0.0.1, from 1 to 65535")
        .value_parser(ValueParser::unsigned(1, 65_535))
        .long("port")
}

fn connections_arg<'a>(alloc: Global) -> Arg<'a>
    ensures rule { rule_of result ≡ number_rule_in (codes "N") (codes "connections") 1000000 }
    ensures local { result.global ≡ false }
{
    text_arg(
        alloc,
        "N",
        "How many connections to serve, from 1 to 1000000",
    )
    .value_parser(ValueParser::unsigned(1, 1_000_000))
    .long("connections")
}

fn serve_command<'a>(alloc: Global) -> Result<Command<'a>, AllocError>
    ensures { MakesCommand serve result }
{
    let command = Ok(named_command(alloc, "serve", SERVE_ABOUT, SERVE_HELP));
    let command = with_arg(command, file_arg(alloc));
    let command = with_arg(command, port_arg(alloc));
    with_arg(command, connections_arg(alloc))
}

fn quick_arg<'a>(alloc: Global) -> Arg<'a>
    ensures rule { rule_of result ≡ quick_rule }
    ensures local { result.global ≡ false }
{
    Arg::new(alloc, "quick")
        .action(ArgAction::SetTrue)
        .help("Leave out the counting of censuses")
        .long("quick")
}

fn check_command<'a>(alloc: Global) -> Result<Command<'a>, AllocError>
    ensures { MakesCommand check result }
{
    let command = Ok(named_command(alloc, "check", CHECK_ABOUT, CHECK_HELP));
    let command = with_arg(command, file_arg(alloc));
    with_arg(command, quick_arg(alloc))
}

// `clap` accepts any name here. Only `refuse_name` gives it the list of names.
fn name_arg<'a>(alloc: Global) -> Arg<'a>
    ensures rule { rule_of result ≡ text_rule (codes "NAME") }
    ensures local { result.global ≡ false }
{
    text_arg(
        alloc,
        "NAME",
        "The name of a refusal or a fault, such as no-end",
    )
}

// The caller gives the argument, because `refuse_name` needs one that lists the names.
fn explain_command<'a>(alloc: Global, name: Arg<'a>) -> Result<Command<'a>, AllocError>
    requires { name.global ≡ false }
    ensures app { rule_of name.entry ≡ text_rule (codes "NAME") → IfOk result (λ command. app_of command ≡ explain) }
    ensures local { IfOk result (λ command. (fields_of command).has_globals ≡ false) }
{
    let command = Ok(named_command(alloc, "explain", EXPLAIN_ABOUT, EXPLAIN_HELP));
    with_arg(command, name)
}

// `life` before its subcommands are added.
fn bare_command<'a>(alloc: Global) -> Command<'a>
    ensures { app_of result ≡ bare_life }
{
    program_command(alloc, "life", LIFE_ABOUT, LIFE_HELP).subcommand_required(true)
}

/// The command of `life`, with its subcommands in the order in which help lists them.
pub fn life_command<'a>(alloc: Global) -> Result<Command<'a>, AllocError>
    ensures { IfOk result (λ command. app_of command ≡ life_app) }
{
    let generation = Ok(named_command(alloc, "generation", GENERATION_ABOUT, GENERATION_HELP));
    let generation = with_arg(generation, generation_arg(alloc));
    let kind = Ok(named_command(alloc, "kind", KIND_ABOUT, KIND_HELP));
    let kind = with_arg(kind, limit_arg(alloc));
    let command = with_command(Ok(bare_command(alloc)), generation);
    let command = with_command(command, kind);
    let command = with_command(command, object_command(alloc));
    let command = with_command(command, census_command(alloc));
    let command = with_command(command, deposit_command(alloc));
    let command = with_command(command, serve_command(alloc));
    let command = with_command(command, check_command(alloc));
    with_command(command, explain_command(alloc, name_arg(alloc)))
}

/// The number given for the argument `id`, if any.
pub fn number_in(found: &ArgMatches<'_>, id: &str) -> Option<u64>
    ensures { result ≡ number_at id.now (rows_of (found_of found.now)) }
{
    found.get_one(id)
}

/// The text given for the argument `id`, if any.
pub fn text_in<'a>(found: &ArgMatches<'a>, id: &str) -> Option<&'a str>
    ensures { option_map (λ text. text.now) result ≡ text_at id.now (rows_of (found_of found.now)) }
{
    found.get_str(id)
}

// Whether the option with this id, which takes no value, was given.
fn is_given(found: &ArgMatches<'_>, id: &str) -> bool
    ensures { result ≡ is_given id.now (rows_of (found_of found.now)) }
{
    match text_in(found, id) {
        Some(text) => text == "true",
        None => false,
    }
}

fn limit_in(found: &ArgMatches<'_>) -> Option<u64>
    ensures { result ≡ number_at (codes "LIMIT") (rows_of (found_of found.now)) }
{
    number_in(found, "LIMIT")
}

// `None` for an unknown name, which `read_words` turns into a usage error.
fn explain_in<'a>(found: &ArgMatches<'a>) -> Option<Job<'a>>
    ensures { option_map asked_by result ≡ explain_of (text_at (codes "NAME") (rows_of (found_of found.now))) }
{
    let name = text_in(found, "NAME")?;
    if explanation(name).is_some() {
        Some(Job::Explain(name))
    } else {
        None
    }
}

// `clap` has checked all required arguments by now, so in practice only an unknown name of a refusal gives `None`.
fn job_in<'a>(matches: &ArgMatches<'a>) -> Option<Job<'a>>
    ensures { option_map asked_by result ≡ by_subcommand job_named (subcommand_rows_of matches.now) }
{
    let (name, found) = matches.subcommand()?;
    match name {
        "generation" => Some(Job::Generation(number_in(found, "N")?)),
        "kind" => Some(Job::Kind(limit_in(found)?)),
        "object" => Some(Job::Object {
            rule: text_in(found, "RULE")?,
            code: text_in(found, "CODE")?,
            limit: limit_in(found)?,
        }),
        "census" => Some(Job::Census {
            n: number_in(found, "N")?,
            limit: limit_in(found)?,
        }),
        "deposit" => Some(Job::Deposit {
            file: text_in(found, "F")?,
            member: text_in(found, "MEMBER")?,
            token: text_in(found, "TOKEN")?,
        }),
        "serve" => Some(Job::Serve {
            file: text_in(found, "F")?,
            port: number_in(found, "P")?,
            connections: number_in(found, "N")?,
        }),
        "check" => Some(Job::Check {
            file: text_in(found, "F")?,
            quick: is_given(found, "quick"),
        }),
        "explain" => explain_in(found),
        _ => None,
    }
}

// Parses again with the list of known names, so that clap's error lists them and suggests a similar one.
fn refuse_name<S: AsStr>(alloc: Global, words: &[S]) -> Result<(), WordFault> {
    let names = refusal_names(alloc)?;
    let name = name_arg(alloc).value_parser(ValueParser::Names(names.as_slice()));
    let command = with_command(Ok(bare_command(alloc)), explain_command(alloc, name));
    read_matches(command, words)?;
    Ok(())
}

/// Reads the command line of `life`. The first argument is the program's name, as in `env::args`.
///
/// A request for help is also a fault: `BadWords` with the text of the help.
pub fn read_words<'a, S: AsStr>(alloc: Global, words: &'a [S]) -> Result<Job<'a>, WordFault>
    ensures { Answers asked_by (words_job (map S.text words.entry.now)) result }
{
    let matches = read_matches(life_command(alloc), words)?;
    let Some(job) = job_in(&matches) else {
        refuse_name(alloc, words)?;
        return Err(WordFault::BadWords(None));
    };
    Ok(job)
}
