//! Reading command lines, for the tests of each program's arguments.
use life_words::WordFault;
use std::alloc::{AllocError, Global};

/// The arguments of a command line, the program's name first. There is no quoting.
fn arguments<'a>(alloc: Global, line: &'a str) -> Result<Vec<&'a str>, AllocError> {
    line.split_whitespace().collect(alloc)
}

/// Whether reading arguments gave this job, or a usage error if `job` is `None`.
pub fn is_named<J: Copy + PartialEq>(read: Result<J, WordFault>, job: Option<J>) -> bool {
    match read {
        Ok(named) => job == Some(named),
        Err(WordFault::BadWords(_)) => job.is_none(),
        Err(WordFault::Memory) => false,
    }
}

/// The first of these command lines that doesn't give its expected job or usage error.
pub fn other_line<J: Copy, F: Fn(Global, &[&str], Option<J>) -> bool>(
    alloc: Global,
    lines: &[(&'static str, Option<J>)],
    name: F,
) -> Option<&'static str>
    requires { F.IsAlwaysCallable name }
{
    for (line, job) in lines {
        let is_so = match arguments(alloc, *line) {
            Ok(words) => name(alloc, &words, *job),
            Err(_) => false,
        };
        if !is_so {
            return Some(*line);
        }
    }
    None
}
