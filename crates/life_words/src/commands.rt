//! Helpers that all programs use to build their commands and to read the process's arguments.
ghost use Rattle.std.specs.Prelude.{◌≡◌, codes, map, IfOk, true, false};
ghost use Rattle.clap.specs.Simple.{App};
ghost use Rattle.clap.specs.Words.{Rule, new_app, app_of, rule_of, with_rule, with_subcommand, is_simple, is_simple_and_free};
ghost use Rattle.life_words.specs.Words.{number_rule, text_rule, with_version, matches_in, matches_by, Answers};
ghost use Rattle.clap.specs.declared.builder.command.Command.TheViews.{out-Command as fields_of};

use crate::word_fault::WordFault;
use clap::error::ErrorKind;
use clap::{Arg, ArgMatches, Command};
use std::alloc::{AllocError, Global};
use std::convert::AsStr;
use std::{env, io};

/// A command with this name and no arguments. Help prints `about` before the arguments, and `help` after them.
pub fn named_command<'a>(alloc: Global, name: &'a str, about: &'a str, help: &'a str) -> Command<'a>
    ensures app { app_of result ≡ new_app name.entry.now }
    ensures local { (fields_of result).has_globals ≡ false }
{
    Command::new(alloc, name).about(about).after_help(help)
}

/// The version of the programs, which `--version` prints.
pub const VERSION: &str = "1.1.0";

/// Like [`named_command`], for a program, which also has a version.
pub fn program_command<'a>(
    alloc: Global,
    name: &'a str,
    about: &'a str,
    help: &'a str,
) -> Command<'a>
    ensures app { app_of result ≡ with_version (new_app name.entry.now) }
    ensures local { (fields_of result).has_globals ≡ false }
{
    named_command(alloc, name, about, help).version(VERSION)
}

/// A required positional argument that accepts any text. With `.long(..)` it becomes a required option.
pub fn text_arg<'a>(alloc: Global, id: &'a str, help: &'a str) -> Arg<'a>
    ensures rule { rule_of result ≡ text_rule id.entry.now }
    ensures local { result.global ≡ false }
{
    Arg::new(alloc, id).required(true).help(help)
}

/// A required positional argument from 0 to 2^64 - 1. For any other text `clap` reports a usage error.
pub fn number_arg<'a>(alloc: Global, id: &'a str, help: &'a str) -> Arg<'a>
    ensures rule { rule_of result ≡ number_rule id.entry.now }
    ensures local { result.global ≡ false }
{
    text_arg(alloc, id, help).value_parser(clap::value_parser!(u64))
}

/// The argument `N`. `clap` also accepts numbers over 2048: the job refuses them as `out-of-limit`.
pub fn generation_arg<'a>(alloc: Global) -> Arg<'a>
    ensures rule { rule_of result ≡ number_rule (codes "N") }
    ensures local { result.global ≡ false }
{
    number_arg(alloc, "N", "The number of the generation, from 0 to 2048")
}

/// The argument `LIMIT`. As for `N`, the job checks the range.
pub fn limit_arg<'a>(alloc: Global) -> Arg<'a>
    ensures rule { rule_of result ≡ number_rule (codes "LIMIT") }
    ensures local { result.global ≡ false }
{
    number_arg(
        alloc,
        "LIMIT",
        "The longest period to search for, from 1 to 2048",
    )
}

/// Adds an argument. An earlier allocation failure is passed on, so calls can be chained without `?`.
pub fn with_arg<'a>(
    above: Result<Command<'a>, AllocError>,
    arg: Arg<'a>,
) -> Result<Command<'a>, AllocError>
    requires { arg.global ≡ false }
    ensures app { (made : App) (rule : Rule) → IfOk above.entry (λ command. app_of command ≡ made) → rule_of arg.entry ≡ rule → IfOk result (λ command. app_of command ≡ with_rule made rule) }
    ensures local { IfOk above.entry (λ command. (fields_of command).has_globals ≡ false) → IfOk result (λ command. (fields_of command).has_globals ≡ false) }
{
    above?.arg(arg)
}

/// Adds a subcommand, or passes on the first allocation failure.
pub fn with_command<'a>(
    above: Result<Command<'a>, AllocError>,
    below: Result<Command<'a>, AllocError>,
) -> Result<Command<'a>, AllocError>
    requires { IfOk below (λ command. (fields_of command).has_globals ≡ false) }
    ensures { (made added : App) → IfOk above.entry (λ command. app_of command ≡ made) → IfOk below.entry (λ command. app_of command ≡ added) → IfOk result (λ command. app_of command ≡ with_subcommand made added.top) }
{
    above?.subcommand(below?)
}

/// Parses the arguments with `clap`. The first one is the program's name, as in `env::args`.
pub fn read_matches<'a, S: AsStr>(
    command: Result<Command<'a>, AllocError>,
    words: &'a [S],
) -> Result<ArgMatches<'a>, WordFault>
    ensures { (app : App) → IfOk command.entry (λ command. app_of command ≡ app) → is_simple app ≡ true → is_simple_and_free app ≡ true
        → Answers matches_by (matches_in app (map S.text words.entry.now)) result }
{
    Ok(command?.try_get_matches_from(words)?)
}

/// The arguments of the process, the program's name first. An argument that is not UTF-8 is a usage error in clap's
/// form. Only then is `command` called.
pub fn words_of<'a, C>(rt: &HostRuntime, command: C) -> Result<Vec<String>, WordFault>
where
    C: FnOnce() -> Result<Command<'a>, AllocError>,
    requires { C.IsAlwaysCallable command }
{
    match env::args(rt) {
        Ok(words) => Ok(words.collect(rt.alloc())?),
        Err(error) if error.kind() == io::ErrorKind::InvalidData => Err(not_text(command()?)?),
        Err(_) => Err(WordFault::Memory),
    }
}

/// `env::args` fails before `clap` sees the arguments, so this builds clap's error for it.
fn not_text(mut command: Command<'_>) -> Result<WordFault, AllocError> {
    let message = "invalid UTF-8 was found in one or more arguments";
    let error = command.error(ErrorKind::ValueValidation, message);
    Ok(WordFault::BadWords(Some(error?)))
}
