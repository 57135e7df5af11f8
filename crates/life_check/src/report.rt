//! Printing the result of checking the file at a path.
ghost use Rattle.std.specs.Prelude.{◌≡◌, ◌∷◌, ◌++◌, [], Err, IfOk, IfErr, OnOk};
ghost use Rattle.std.specs.List.{flat_map};
ghost use Rattle.life_core.specs.Ascii.{line_feed};
ghost use Rattle.sqlite_wal.specs.Files.{image_at};
ghost use Rattle.life_jobs.specs.Streams.{PutsText, PutsOnce};
ghost use Rattle.life_check.specs.Report.{line_of, wrong_words, error_line, verdict_words, verdict_line, checked_lines, answer_of, PutsChecked, by_output, ChecksAt};

use crate::archive_check::{CheckVerdict, Wrong};
use crate::check_watch::CheckWatch;
use crate::checked_files::{CheckedFiles, check_path};
use life_jobs::{Stop, put_text};
use life_rle::Outlet;
use life_store::Unavailable;
use sqlite::{FileFrom, Start};
use sqlite_disk::Disk;
use std::alloc::{AllocError, Global};

/// Why a check stopped.
#[derive(Clone, Copy, Debug, PartialEq, Eq)]
pub enum CheckStop {
    /// A stop that other jobs share: out of memory, or the store or the output failed.
    Job(Stop),
    /// The file was checked, and is not an archive as this program writes it. The output has the errors.
    NotSound,
}

impl CheckStop {
    /// The line for standard error, without its line end; empty to print no line.
    pub fn line(&self) -> &'static str
        ensures { result.now ≡ line_of self.now }
    {
        match self {
            CheckStop::Job(stop) => stop.line(),
            CheckStop::NotSound => "refused: not-sound",
        }
    }
}

/// The sentence for an error, without a line end. A wrong name has the same sentence as any wrong row of a deposit.
fn wrong_words(alloc: Global, wrong: Wrong) -> Result<Vec<u8>, AllocError>
    ensures { IfOk result (λ v. v.items ≡ wrong_words wrong) }
{
    let words = match wrong {
        Wrong::Tables => "the tables are not those of an archive".to_string(alloc)?,
        Wrong::Layout => "layout: its row is wrong or missing".to_string(alloc)?,
        Wrong::Deposit(id) => format!(in alloc; "deposit {id}: its row is wrong or missing")?,
        Wrong::DepositNames(id) => format!(in alloc; "deposit {id}: its row is wrong or missing")?,
        Wrong::Census(id) => {
            format!(in alloc; "census {id}: its row, its counts or its flag are wrong or missing")?
        }
    };
    Ok(words.into_bytes())
}

/// The line of an error.
fn error_line(alloc: Global, wrong: Wrong) -> Result<Vec<u8>, AllocError>
    ensures { IfOk result (λ v. v.items ≡ error_line wrong) }
{
    let mut line = wrong_words(alloc, wrong)?;
    line.extend_from_slice(b"\n")?;
    Ok(line)
}

/// Appends the lines of errors.
fn push_errors(alloc: Global, errors: &[Wrong], lines: &mut Vec<u8>) -> Result<(), AllocError>
    ensures { OnOk result (lines.new.items ≡ lines.old.items ++ flat_map error_line errors.now) }
{
    for wrong in errors {
        let line = error_line(alloc, *wrong)?;
        lines.extend_from_slice(line.as_slice())?;
    }
    Ok(())
}

/// The sentence for the result of a check, without a line end.
fn verdict_words(alloc: Global, verdict: CheckVerdict) -> Result<Vec<u8>, AllocError>
    ensures { IfOk result (λ v. v.items ≡ verdict_words verdict) }
{
    match verdict {
        CheckVerdict::Sound(deposits, censuses) => {
            let words = format!(in alloc; "sound: {deposits} deposits, {censuses} censuses")?;
            Ok(words.into_bytes())
        }
        CheckVerdict::SoundButForCounts(deposits, censuses) => {
            let words = format!(in alloc;
                "sound but for counts: {deposits} deposits, {censuses} censuses"
            )?;
            Ok(words.into_bytes())
        }
        CheckVerdict::NotSound(wrong) => wrong_words(alloc, wrong),
    }
}

/// The line of the result.
fn verdict_line(alloc: Global, verdict: CheckVerdict) -> Result<Vec<u8>, AllocError>
    ensures { IfOk result (λ v. v.items ≡ verdict_line verdict) }
{
    let mut line = verdict_words(alloc, verdict)?;
    line.extend_from_slice(b"\n")?;
    Ok(line)
}

/// The line of the result, and a line for each error after the first.
fn checked_lines(
    alloc: Global,
    verdict: CheckVerdict,
    further: &[Wrong],
) -> Result<Vec<u8>, AllocError>
    ensures { IfOk result (λ v. v.items ≡ checked_lines verdict further.now) }
{
    let mut lines = verdict_line(alloc, verdict)?;
    push_errors(alloc, further, &mut lines)?;
    Ok(lines)
}

/// The job's result after its lines were written.
fn answer_of(verdict: CheckVerdict) -> Result<(), CheckStop>
    ensures { result ≡ answer_of verdict }
{
    match verdict {
        CheckVerdict::Sound(_, _) => Ok(()),
        CheckVerdict::SoundButForCounts(_, _) => Ok(()),
        CheckVerdict::NotSound(_) => Err(CheckStop::NotSound),
    }
}

/// Writes the line of the result, and a line for each error after the first. They are built first, so that running out
/// of memory writes nothing.
fn put_verdict<O: Outlet>(
    alloc: Global,
    verdict: CheckVerdict,
    further: &[Wrong],
    output: &mut O,
) -> Result<(), Stop>
    ensures puts { PutsText (O.already output.old) (O.already output.new) (checked_lines verdict further.now) result }
    ensures once { PutsOnce output.old output.new (O.failures output.old) (O.failures output.new) (O.last_failed output.new) result }
{
    match checked_lines(alloc, verdict, further) {
        Ok(lines) => put_text(output, lines.as_slice()),
        Err(_) => Err(Stop::Unavailable),
    }
}

/// Writes the lines of a check, if it gave a result, and returns the job's result.
fn put_checked<O: Outlet>(
    alloc: Global,
    checked: Result<CheckVerdict, Unavailable>,
    further: &[Wrong],
    output: &mut O,
) -> Result<(), CheckStop>
    ensures puts { PutsChecked checked further.now (O.already output.old) (O.already output.new) result }
    ensures once { PutsOnce output.old output.new (O.failures output.old) (O.failures output.new) (O.last_failed output.new) (by_output result) }
{
    let Ok(verdict) = checked else {
        return Err(CheckStop::Job(Stop::Unavailable));
    };
    match put_verdict(alloc, verdict, further, output) {
        Ok(()) => answer_of(verdict),
        Err(stop) => Err(CheckStop::Job(stop)),
    }
}

/// Checks the file at the path like [`check_path`], and writes the result: one line, or a line for each error, at most
/// 100.
pub fn run_check<T: Start, W: CheckWatch, O: Outlet>(
    rt: &HostRuntime,
    path: &str,
    capacity: u64,
    start: T,
    quick: bool,
    watch: &mut W,
    output: &mut O,
) -> (Result<(), CheckStop>, CheckedFiles<T>)
    ensures checks { ChecksAt quick ⟦<FileFrom<T> as Disk>⟧ (image_at T.Start) capacity (O.already output.old) (O.already output.new) result.0 result.1 }
    ensures once { PutsOnce output.old output.new (O.failures output.old) (O.failures output.new) (O.last_failed output.new) (by_output result.0) }
{
    let (checked, further, left) = check_path(rt, path, capacity, start, quick, watch);
    let done = put_checked(rt.alloc(), checked, further.as_slice(), output);
    (done, left)
}
