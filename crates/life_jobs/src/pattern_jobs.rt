//! The jobs `generation`, `kind`, `census` and `object`, on any streams.
ghost use Rattle.std.specs.Prelude.{◌≡◌, ℕ, List, codes, ◌≢◌, ◌<◌, ◌≤◌, ◌↔◌, Some, IfOk, IfErr, OnErr, Err};
ghost use Rattle.std.specs.Option.{SomeIff, MatchOption};
ghost use Rattle.life_core.specs.Pattern.{Cells, IsWithin};
ghost use Rattle.life_core.specs.Rule.{RuleSets};
ghost use Rattle.life_rle.specs.Record.{IsInside, plain};
ghost use Rattle.life_rle.specs.Writer.{text};
ghost use Rattle.life_code.specs.Period.{kind_of};
ghost use Rattle.life_code.specs.Codes.{code_of};
ghost use Rattle.life_code.specs.Object.{IsCodeOf};
ghost use Rattle.life_code.specs.Open.{Spells, Refuses};
ghost use Rattle.life_jobs.specs.PatternJobs.{later, generation_text, IsPeriodLimit, code_or_dash, kind_words, kind_line, kind_text, AreCensusNumbers, census_table, census_text};
ghost use Rattle.life_jobs.specs.PatternJobs.{RefusesRule, PutsObject, PutsKnown};
ghost use Rattle.life_jobs.specs.PatternJobsState.{code_stop};
ghost use Rattle.life_jobs.specs.Streams.{TakesFile, PutsText, PutsOnce};

use crate::stop::Stop;
use crate::streams::{put_text, read_input};
use life_census::{csv, tally};
use life_code::{
    CodeFault, Coded, Kind, PERIOD_LIMIT, code_of_kind, kind, open_code, settled_generation,
};
use life_core::{Fault, GENERATION_LIMIT, Pattern, Rule};
use life_rle::{Inlet, Outlet, Record, WriteFault, into_plain, write_to};
use std::alloc::{AllocError, Global};

/// Drops the texts of the record, and moves the pattern to the origin. Generation 0 reuses the record's memory.
fn later(alloc: Global, record: Record, n: u32) -> Result<Record, Fault>
    requires few { n ≤ GENERATION_LIMIT }
    requires inside { IsInside 1024 «record».cells }
    ensures { IfOk result (λ r. r ≡ later n «record») }
{
    let Record { rule, cells, .. } = record;
    if n == 0 {
        return Ok(into_plain(alloc, rule, cells));
    }
    let cells = settled_generation(alloc, &rule, &cells, n)?;
    Ok(into_plain(alloc, rule, cells))
}

/// For example `oscillator 2 xp2_7`.
fn kind_words(alloc: Global, kind: Kind, code: &[u8]) -> Result<Vec<u8>, AllocError>
    ensures { IfOk result (λ v. v.items ≡ kind_words kind (Some code.now)) }
{
    let front = match kind {
        Kind::Empty => return Ok("empty".to_string(alloc)?.into_bytes()),
        Kind::Still => "still ".to_string(alloc)?,
        Kind::Oscillator(period) => format!(in alloc; "oscillator {period} ")?,
        Kind::Ship(period, dx, dy) => format!(in alloc; "ship {period} {dx} {dy} ")?,
        Kind::Unresolved => return Ok("unresolved".to_string(alloc)?.into_bytes()),
    };
    let mut words = front.into_bytes();
    words.extend_from_slice(code)?;
    Ok(words)
}

/// `-` without a code, as for an object no phase of which fits into 40 by 40 cells.
fn code_or_dash(code: &Option<Coded>) -> &[u8]
    ensures { (r : RuleSets) (X : Cells) (limit : ℕ) → IsCodeOf r X limit code.now → result.now ≡ code_or_dash (code_of r X limit) }
{
    match code {
        None => b"-",
        Some(coded) => coded.text(),
    }
}

/// Searches for the period only once, for both the kind and the code.
fn kind_line(alloc: Global, rule: &Rule, pattern: &Pattern, limit: u32) -> Result<Vec<u8>, Fault>
    requires limit { IsPeriodLimit limit }
    requires room { IsWithin 400_000_000 pattern.now }
    ensures { IfOk result (λ v. v.items ≡ kind_line rule.now pattern.now limit) }
{
    let kind = kind(alloc, rule, pattern, limit)?;
    let code = code_of_kind(alloc, rule, pattern, limit, kind)?;
    let mut line = kind_words(alloc, kind, code_or_dash(&code))?;
    line.push(b'\n')?;
    Ok(line)
}

/// A census of generation `n` as CSV.
fn census_table(alloc: Global, record: &Record, n: u32, limit: u32) -> Result<Vec<u8>, Fault>
    requires few { n ≤ GENERATION_LIMIT }
    requires limit { IsPeriodLimit limit }
    requires inside { IsInside 1024 «record».now.cells }
    ensures { IfOk result (λ v. v.items ≡ census_table n limit «record».now) }
{
    let cells = settled_generation(alloc, &record.rule, &record.cells, n)?;
    let tally = tally(alloc, &record.rule, &cells, limit)?;
    csv(alloc, &tally)
}

/// Makes the complete RLE first, so nothing is written if memory runs out.
fn put_record<O: Outlet>(alloc: Global, record: &Record, output: &mut O) -> Result<(), Stop>
    ensures puts { PutsText (O.already output.old) (O.already output.new) (text «record».now) result }
    ensures once { PutsOnce output.old output.new (O.failures output.old) (O.failures output.new) (O.last_failed output.new) result }
{
    match write_to(alloc, record, output) {
        Ok(()) => Ok(()),
        Err(WriteFault::Unwritable) => Err(Stop::Unwritable),
        Err(WriteFault::Memory) => Err(Stop::Unavailable),
    }
}

/// Writes a text, or passes on that memory ran out.
fn put_made<O: Outlet>(output: &mut O, made: Result<Vec<u8>, Fault>) -> Result<(), Stop>
    ensures puts { (text : List ℕ) → IfOk made (λ v. v.items ≡ text) → PutsText (O.already output.old) (O.already output.new) text result }
    ensures once { PutsOnce output.old output.new (O.failures output.old) (O.failures output.new) (O.last_failed output.new) result }
{
    match made {
        Ok(text) => put_text(output, &text),
        Err(_) => Err(Stop::Unavailable),
    }
}

fn put_generation<O: Outlet>(
    alloc: Global,
    record: Record,
    n: u32,
    output: &mut O,
) -> Result<(), Stop>
    requires few { n ≤ GENERATION_LIMIT }
    requires inside { IsInside 1024 «record».cells }
    ensures puts { PutsText (O.already output.old) (O.already output.new) (text (later n «record»)) result }
    ensures once { PutsOnce output.old output.new (O.failures output.old) (O.failures output.new) (O.last_failed output.new) result }
{
    match later(alloc, record, n) {
        Ok(later) => put_record(alloc, &later, output),
        Err(_) => Err(Stop::Unavailable),
    }
}

fn put_kind<O: Outlet>(
    alloc: Global,
    record: &Record,
    limit: u32,
    output: &mut O,
) -> Result<(), Stop>
    requires limit { IsPeriodLimit limit }
    requires inside { IsInside 1024 «record».now.cells }
    ensures puts { PutsText (O.already output.old) (O.already output.new) (kind_line «record».now.rule «record».now.cells limit) result }
    ensures once { PutsOnce output.old output.new (O.failures output.old) (O.failures output.new) (O.last_failed output.new) result }
{
    put_made(output, kind_line(alloc, &record.rule, &record.cells, limit))
}

fn put_census<O: Outlet>(
    alloc: Global,
    record: &Record,
    n: u32,
    limit: u32,
    output: &mut O,
) -> Result<(), Stop>
    requires few { n ≤ GENERATION_LIMIT }
    requires limit { IsPeriodLimit limit }
    requires inside { IsInside 1024 «record».now.cells }
    ensures puts { PutsText (O.already output.old) (O.already output.new) (census_table n limit «record».now) result }
    ensures once { PutsOnce output.old output.new (O.failures output.old) (O.failures output.new) (O.last_failed output.new) result }
{
    put_made(output, census_table(alloc, record, n, limit))
}

/// `None` if `n` is over 2048.
fn generation_number(n: u64) -> Option<u32>
    ensures { SomeIff result (n ≤ GENERATION_LIMIT) n }
{
    match u32::try_from(n) {
        Ok(n) if n <= GENERATION_LIMIT => Some(n),
        _ => None,
    }
}

/// Reads a pattern file and writes its generation `n` as canonical RLE: without texts, and moved to the origin. It
/// checks `n` before it reads anything. It reads to the end of the input, or to byte 1,048,577, which shows that the
/// file is too long.
pub fn run_generation<I: Inlet, O: Outlet>(
    alloc: Global,
    n: u64,
    input: &mut I,
    output: &mut O,
) -> Result<(), Stop>
    ensures limit { (result ≡ Err Stop.OutOfLimit) ↔ (GENERATION_LIMIT < n) }
    ensures untouched { GENERATION_LIMIT < n → (input.new ≡ input.old) × (output.new ≡ output.old) }
    // If the input bytes are known, the output is their generation, or the fault is theirs.
    ensures known { n ≤ GENERATION_LIMIT → PutsKnown (generation_text n) (I.to_come input.old) (O.already output.old) (O.already output.new) result }
    ensures takes { TakesFile (I.to_come input.old) (I.to_come input.new) (I.failures input.old) (I.failures input.new) (I.ends input.old) (I.ends input.new) (I.last_take input.new) result }
    ensures once { PutsOnce output.old output.new (O.failures output.old) (O.failures output.new) (O.last_failed output.new) result }
{
    let Some(n) = generation_number(n) else {
        return Err(Stop::OutOfLimit);
    };
    match read_input(alloc, input) {
        Ok(record) => put_generation(alloc, record, n, output),
        Err(stop) => Err(stop),
    }
}

/// `None` unless the limit is from 1 to 2048.
fn period_limit(limit: u64) -> Option<u32>
    ensures { SomeIff result (IsPeriodLimit limit) limit }
{
    match u32::try_from(limit) {
        Ok(limit) if 1 <= limit && limit <= PERIOD_LIMIT => Some(limit),
        _ => None,
    }
}

/// Reads a pattern file and writes one line: the kind of its pattern, for periods up to the limit, and its code. It
/// checks the limit before it reads, and reads like [`run_generation`].
pub fn run_kind<I: Inlet, O: Outlet>(
    alloc: Global,
    limit: u64,
    input: &mut I,
    output: &mut O,
) -> Result<(), Stop>
    ensures limit { (result ≡ Err Stop.OutOfLimit) ↔ ¬ IsPeriodLimit limit }
    ensures untouched { ¬ IsPeriodLimit limit → (input.new ≡ input.old) × (output.new ≡ output.old) }
    // If the input bytes are known, the output is the line of their pattern, or the fault is theirs.
    ensures known { IsPeriodLimit limit → PutsKnown (kind_text limit) (I.to_come input.old) (O.already output.old) (O.already output.new) result }
    ensures takes { TakesFile (I.to_come input.old) (I.to_come input.new) (I.failures input.old) (I.failures input.new) (I.ends input.old) (I.ends input.new) (I.last_take input.new) result }
    ensures once { PutsOnce output.old output.new (O.failures output.old) (O.failures output.new) (O.last_failed output.new) result }
{
    let Some(limit) = period_limit(limit) else {
        return Err(Stop::OutOfLimit);
    };
    match read_input(alloc, input) {
        Ok(record) => put_kind(alloc, &record, limit, output),
        Err(stop) => Err(stop),
    }
}

fn census_numbers(n: u64, limit: u64) -> Option<(u32, u32)>
    ensures { MatchOption result (¬ AreCensusNumbers n limit) (λ found. AreCensusNumbers n limit × (found.0 ≡ n) × (found.1 ≡ limit)) }
{
    Some((generation_number(n)?, period_limit(limit)?))
}

/// Reads a pattern file and writes a census of its generation `n` as CSV: a count for each code, and the number of
/// clusters without a code. It checks the numbers before it reads, and reads like [`run_generation`].
pub fn run_census<I: Inlet, O: Outlet>(
    alloc: Global,
    n: u64,
    limit: u64,
    input: &mut I,
    output: &mut O,
) -> Result<(), Stop>
    ensures limit { (result ≡ Err Stop.OutOfLimit) ↔ ¬ AreCensusNumbers n limit }
    ensures untouched { ¬ AreCensusNumbers n limit → (input.new ≡ input.old) × (output.new ≡ output.old) }
    // If the input bytes are known, the output is their census, or the fault is theirs.
    ensures known { AreCensusNumbers n limit → PutsKnown (census_text n limit) (I.to_come input.old) (O.already output.old) (O.already output.new) result }
    ensures takes { TakesFile (I.to_come input.old) (I.to_come input.new) (I.failures input.old) (I.failures input.new) (I.ends input.old) (I.ends input.new) (I.last_take input.new) result }
    ensures once { PutsOnce output.old output.new (O.failures output.old) (O.failures output.new) (O.last_failed output.new) result }
{
    let Some((n, limit)) = census_numbers(n, limit) else {
        return Err(Stop::OutOfLimit);
    };
    match read_input(alloc, input) {
        Ok(record) => put_census(alloc, &record, n, limit, output),
        Err(stop) => Err(stop),
    }
}

fn object(alloc: Global, rule: &Rule, code: &[u8], limit: u32) -> Result<Record, CodeFault>
    requires limit { IsPeriodLimit limit }
    ensures opened { IfOk result (λ r. (X : Cells) × Spells code.now X × (code_of rule.now X limit ≡ Some code.now) × (r ≡ plain rule.now X)) }
    ensures refused { IfErr result (Refuses rule.now code.now limit) }
    ensures no_code { IfErr result (λ fault. fault ≢ CodeFault.Memory → (X : Cells) → code_of rule.now X limit ≢ Some code.now) }
{
    let pattern = open_code(alloc, rule, code, limit)?;
    Ok(into_plain(alloc, *rule, pattern))
}

/// Out of memory is not a fault of the code.
fn code_stop(fault: CodeFault) -> Stop
    ensures { result ≡ code_stop fault }
{
    match fault {
        CodeFault::Memory => Stop::Unavailable,
        _ => Stop::BadCode(fault),
    }
}

/// Writes the pattern of a code as canonical RLE, without texts and at the origin. It checks the limit, then the rule,
/// then the code.
pub fn run_object<O: Outlet>(
    alloc: Global,
    rule: &str,
    code: &str,
    limit: u64,
    output: &mut O,
) -> Result<(), Stop>
    ensures limit { (result ≡ Err Stop.OutOfLimit) ↔ ¬ IsPeriodLimit limit }
    ensures rule { (result ≡ Err Stop.BadRule) ↔ IsPeriodLimit limit × RefusesRule rule.now }
    ensures puts { PutsObject rule.now code.now limit (O.already output.old) (O.already output.new) result }
    ensures once { PutsOnce output.old output.new (O.failures output.old) (O.failures output.new) (O.last_failed output.new) result }
{
    let Some(limit) = period_limit(limit) else {
        return Err(Stop::OutOfLimit);
    };
    let Ok(rule) = Rule::read(rule.as_bytes()) else {
        return Err(Stop::BadRule);
    };
    match object(alloc, &rule, code.as_bytes(), limit) {
        Ok(object) => put_record(alloc, &object, output),
        Err(fault) => Err(code_stop(fault)),
    }
}
