//! The jobs of `life-haul`: printing the table of a haul, or one soup.
ghost use Rattle.std.specs.Prelude.{◌≡◌, ◌↔◌, ◌≤◌, Err, IfOk, IsTrue};
ghost use Rattle.std.specs.List.{list_all};
ghost use Rattle.std.specs.Option.{MatchOption};
ghost use Rattle.life_jobs.specs.PatternJobs.{RefusesRule};
ghost use Rattle.life_jobs.specs.Streams.{PutsOnce};
ghost use Rattle.life_hauls.specs.HaulJobs.{is_graphic, IsRoot, MayBeAsked, haul_text, PutsHaul, MaySoupBeAsked, soup_text, PutsSoup};

use crate::haul_table::csv;
use crate::haul_watch::HaulWatch;
use crate::hauls::{HaulQuestion, haul};
use crate::soups::soup;
use crate::symmetry::Symmetry;
use life_code::PERIOD_LIMIT;
use life_core::{Fault, GENERATION_LIMIT, Rule};
use life_jobs::{Stop, put_text};
use life_rle::{Outlet, into_plain, write};
use std::alloc::Global;

/// The largest number of soups in one haul.
pub const COUNT_LIMIT: u64 = 1_000_000;

/// The largest number of a haul's first soup, 2 to the power 53.
pub const FIRST_LIMIT: u64 = 9_007_199_254_740_992;

/// The arguments of a haul, unchecked.
#[derive(Clone, Copy, Debug, PartialEq, Eq)]
pub struct HaulWords<'a> {
    /// The root text, from 1 to 64 bytes of graphic ASCII.
    pub root: &'a str,
    /// The number of the first soup.
    pub first: u64,
    /// The number of soups.
    pub count: u64,
    /// The text of the rule.
    pub rule: &'a str,
    /// The symmetry of the soups.
    pub symmetry: Symmetry,
    /// The generation whose clusters are counted.
    pub n: u64,
    /// The limit on the period.
    pub limit: u64,
}

/// The arguments of a soup, unchecked.
#[derive(Clone, Copy, Debug, PartialEq, Eq)]
pub struct SoupWords<'a> {
    /// The root text, from 1 to 64 bytes of graphic ASCII.
    pub root: &'a str,
    /// The number of the soup.
    pub number: u64,
    /// The text of the rule.
    pub rule: &'a str,
    /// The symmetry of the soup.
    pub symmetry: Symmetry,
}

/// The number, if it lies between two others.
fn between(least: u32, number: u64, most: u32) -> Option<u32>
    ensures { MatchOption result (¬ ((least ≤ number) × (number ≤ most))) (λ n. ((least ≤ number) × (number ≤ most)) × (n ≡ number)) }
{
    match u32::try_from(number) {
        Ok(n) if least <= n && n <= most => Some(n),
        _ => None,
    }
}

/// Whether the bytes are a valid root text.
fn is_root(root: &[u8]) -> bool
    ensures { IsTrue result ↔ IsRoot root.now }
{
    1 <= root.len() && root.len() <= 64 && are_graphic(root)
}

/// Whether all bytes are graphic ASCII.
fn are_graphic(bytes: &[u8]) -> bool
    ensures { result ≡ list_all is_graphic bytes.now }
{
    bytes.iter().all(|byte| is_graphic(*byte))
}

/// Whether a byte is graphic ASCII.
fn is_graphic(byte: u8) -> bool
    ensures { result ≡ is_graphic byte }
{
    byte.is_ascii_graphic()
}

/// The numbers and the root of a haul, if they are valid.
fn numbers(words: HaulWords<'_>) -> Option<(u32, u32)>
    ensures { MatchOption result (¬ MayBeAsked words.entry) (λ found. MayBeAsked words.entry × (found.0 ≡ words.entry.n) × (found.1 ≡ words.entry.limit)) }
{
    if !is_root(words.root.as_bytes()) {
        return None;
    }
    if words.first > FIRST_LIMIT {
        return None;
    }
    if words.count == 0 {
        return None;
    }
    if words.count > COUNT_LIMIT {
        return None;
    }
    Some((
        between(0, words.n, GENERATION_LIMIT)?,
        between(1, words.limit, PERIOD_LIMIT)?,
    ))
}

/// The table of a haul.
fn table<W: HaulWatch>(
    alloc: Global,
    words: HaulWords<'_>,
    rule: &Rule,
    n: u32,
    limit: u32,
    watch: &mut W,
) -> Result<Vec<u8>, Fault>
    requires { MayBeAsked words × (n ≡ words.n) × (limit ≡ words.limit) }
    ensures { IfOk result (λ v. v.items ≡ haul_text words.entry rule.now) }
{
    let question = HaulQuestion {
        symmetry: words.symmetry,
        root: words.root.as_bytes(),
        rule: *rule,
        n,
        limit,
        first: words.first,
        count: words.count,
    };
    let haul = haul(alloc, &question, watch)?;
    csv(alloc, &question, &haul)
}

/// Writes the table of the haul that the arguments name. It checks the numbers and the root before the rule. The watch gets the progress.
pub fn run_haul<O: Outlet, W: HaulWatch>(
    alloc: Global,
    words: HaulWords<'_>,
    output: &mut O,
    watch: &mut W,
) -> Result<(), Stop>
    ensures limit { (result ≡ Err Stop.OutOfLimit) ↔ ¬ MayBeAsked words.entry }
    ensures rule { (result ≡ Err Stop.BadRule) ↔ MayBeAsked words.entry × RefusesRule words.entry.rule.now }
    // The output is the table of the haul that the arguments name.
    ensures puts { PutsHaul words.entry (O.already output.old) (O.already output.new) result }
    ensures once { PutsOnce output.old output.new (O.failures output.old) (O.failures output.new) (O.last_failed output.new) result }
{
    let Some((n, limit)) = numbers(words) else {
        return Err(Stop::OutOfLimit);
    };
    let Ok(rule) = Rule::read(words.rule.as_bytes()) else {
        return Err(Stop::BadRule);
    };
    match table(alloc, words, &rule, n, limit, watch) {
        Ok(text) => put_text(output, &text),
        Err(_) => Err(Stop::Unavailable),
    }
}

/// Whether the number and the root of a soup are valid.
fn is_soup(words: SoupWords<'_>) -> bool
    ensures { IsTrue result ↔ MaySoupBeAsked words.entry }
{
    words.number < FIRST_LIMIT + COUNT_LIMIT && is_root(words.root.as_bytes())
}

/// The pattern file of a soup.
fn soup_file(alloc: Global, words: SoupWords<'_>, rule: Rule) -> Result<Vec<u8>, Fault>
    ensures { IfOk result (λ v. v.items ≡ soup_text words.entry rule) }
{
    let cells = soup(alloc, words.symmetry, words.root.as_bytes(), words.number)?;
    write(alloc, &into_plain(alloc, rule, cells))
}

/// Writes the soup that the arguments name as canonical RLE, in normal form. It checks the number and the root before the rule.
pub fn run_soup<O: Outlet>(alloc: Global, words: SoupWords<'_>, output: &mut O) -> Result<(), Stop>
    ensures limit { (result ≡ Err Stop.OutOfLimit) ↔ ¬ MaySoupBeAsked words.entry }
    ensures rule { (result ≡ Err Stop.BadRule) ↔ MaySoupBeAsked words.entry × RefusesRule words.entry.rule.now }
    // The output is the pattern file of the soup that the arguments name.
    ensures puts { PutsSoup words.entry (O.already output.old) (O.already output.new) result }
    ensures once { PutsOnce output.old output.new (O.failures output.old) (O.failures output.new) (O.last_failed output.new) result }
{
    if !is_soup(words) {
        return Err(Stop::OutOfLimit);
    }
    let Ok(rule) = Rule::read(words.rule.as_bytes()) else {
        return Err(Stop::BadRule);
    };
    match soup_file(alloc, words, rule) {
        Ok(text) => put_text(output, &text),
        Err(_) => Err(Stop::Unavailable),
    }
}
