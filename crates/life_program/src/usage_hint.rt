//! A hint after a usage error if the last argument seems to be a pattern file: patterns come on standard input.
ghost use Rattle.life_program.specs.Job.{status_by, IsStatus};

use crate::printing::print_fault;
use clap::error::ErrorKind;
use life_words::WordFault;
use std::alloc::{AllocError, Global};
use std::io;
use std::process::ExitCode;

/// Characters that need no quotes in a shell.
fn is_plain(c: char) -> bool {
    c.is_ascii_alphanumeric() || matches!(c, '+' | ',' | '-' | '.' | '/' | ':' | '=' | '@' | '_')
}

/// Adds an argument, in single quotes if a shell needs them.
fn push_word(line: &mut String, word: &str) -> Result<(), AllocError> {
    if !word.is_empty() && word.chars().all(is_plain) {
        return line.push_str(word);
    }
    line.push('\'')?;
    for c in word.chars() {
        if c == '\'' {
            line.push_str("'\\''")?;
        } else {
            line.push(c)?;
        }
    }
    line.push('\'')
}

/// The corrected command, with `< file`. `...` shows where arguments are missing.
fn line_of(
    alloc: Global,
    words: &[String],
    are_all: bool,
    file: &str,
) -> Result<String, AllocError> {
    let mut line = "The pattern comes on standard input:".to_string(alloc)?;
    for word in words {
        line.push(' ')?;
        push_word(&mut line, word.as_str())?;
    }
    line.push_str(if are_all { " < " } else { " ... < " })?;
    push_word(&mut line, file)?;
    Ok(line)
}

/// Neither an option nor a number.
fn may_be_file(word: &str) -> bool {
    !word.starts_with('-') && word.parse::<u64>().is_err()
}

/// It has a letter, and a dot or a slash, unlike a mistyped number.
fn looks_like_file(word: &str) -> bool {
    may_be_file(word) && word.contains(['.', '/']) && word.chars().any(|c| c.is_ascii_alphabetic())
}

/// Adds a number in place of the file, to see if the arguments are valid with it.
fn with_number(alloc: Global, words: &[String]) -> Result<Vec<String>, AllocError> {
    let mut all = Vec::new(alloc);
    for word in words {
        all.push(word.as_str().to_string(alloc)?)?;
    }
    all.push("1".to_string(alloc)?)?;
    Ok(all)
}

/// The last argument, if it may be a file that `clap` refused, and the arguments before it. The flag is `true` if the
/// file is one argument too many, and `false` if it is in the place of a number.
fn refused_file<'a>(
    fault: &WordFault,
    words: &'a [String],
) -> Option<(&'a str, &'a [String], bool)> {
    let WordFault::BadWords(Some(error)) = fault else {
        return None;
    };
    let (last, before) = words.split_last()?;
    let file = last.as_str();
    match error.kind() {
        ErrorKind::UnknownArgument if may_be_file(file) => Some((file, before, true)),
        ErrorKind::ValueValidation if looks_like_file(file) => Some((file, before, false)),
        _ => None,
    }
}

/// `None` if there is no hint to give.
fn line_for<F>(
    alloc: Global,
    fault: &WordFault,
    words: &[String],
    reads_pattern: F,
) -> Option<String>
where
    F: FnOnce(&[String]) -> bool,
    requires { F.IsAlwaysCallable reads_pattern }
{
    let (file, before, are_all) = refused_file(fault, words)?;
    let reads = if are_all {
        reads_pattern(before)
    } else {
        reads_pattern(with_number(alloc, before).ok()?.as_slice())
    };
    if reads {
        line_of(alloc, before, are_all, file).ok()
    } else {
        None
    }
}

/// Like [`print_fault`]. If the last argument seems to be the file of a job that reads a pattern, another line shows
/// the command with `<`.
pub fn print_fault_of<F>(
    rt: &HostRuntime,
    fault: WordFault,
    words: &[String],
    reads_pattern: F,
) -> io::Result<ExitCode>
where
    F: FnOnce(&[String]) -> bool,
    requires { F.IsAlwaysCallable reads_pattern }
    ensures { IsStatus result (status_by fault) }
{
    let line = line_for(rt.alloc(), &fault, words, reads_pattern);
    let status = print_fault(rt, fault)?;
    if let Some(line) = line {
        // Ignored: if standard error fails, only the status can report it.
        let _ignored = eprintln!(rt; "{line}");
    }
    Ok(status)
}
