//! Counts a haul, soup by soup.
ghost use Rattle.std.specs.Prelude.{◌≡◌, ◌+◌, ◌≤◌, ◌<◌, ◌^◌, map, IfOk};
ghost use Rattle.life_core.specs.Generations.{generation_of};
ghost use Rattle.life_code.specs.Codes.{code_of};
ghost use Rattle.life_census.specs.Cluster.{clusters_of};
ghost use Rattle.life_hauls.specs.Hauls.{haul_of};
ghost use Rattle.life_hauls.specs.Soups.{soup_of};

use crate::haul_rows::Haul;
use crate::haul_watch::HaulWatch;
use crate::soup_counting::count_soup;
use crate::soups::soup;
use crate::symmetry::Symmetry;
use life_census::{CodeCache, CodeText};
use life_code::{PERIOD_LIMIT, settled_generation};
use life_core::{Fault, GENERATION_LIMIT, Rule};
use std::alloc::Allocator;

/// The question of a haul: which soups, which generation of them, and how to find the codes of its clusters.
#[derive(Clone, Copy)]
pub struct HaulQuestion<'a> {
    /// The symmetry of the soups.
    pub symmetry: Symmetry,
    /// The root text.
    pub root: &'a [u8],
    /// The rule.
    pub rule: Rule,
    /// The generation whose clusters are counted.
    pub n: u32,
    /// The limit on the period.
    pub limit: u32,
    /// The number of the first soup.
    pub first: u64,
    /// The number of soups.
    pub count: u64,
}

/// After this many soups, the known shapes are dropped. New shapes without a code keep coming, so the cache would grow
/// with the number of soups. Finding the codes of the usual shapes again takes a few percent of the time for this many
/// soups.
const SOUPS_REMEMBERED: u64 = 4_096;

/// Called before each soup, with the number of soups counted so far.
fn drop_shapes<A: Allocator + Copy>(
    alloc: A,
    question: &HaulQuestion<'_>,
    cache: &mut CodeCache<A>,
    soups: u64,
)
    requires from_one { 1 ≤ question.now.limit }
    requires few { question.now.limit ≤ PERIOD_LIMIT }
    requires naming { cache.old ≡ record { rule = question.now.rule; limit = question.now.limit } }
    ensures { cache.new ≡ cache.old }
{
    if soups % SOUPS_REMEMBERED == 0 {
        *cache = CodeCache::new(alloc, question.rule, question.limit);
    }
}

/// The codes of one soup's clusters. The cache has the question's rule and limit.
fn codes_of_soup<A: Allocator + Copy>(
    alloc: A,
    question: &HaulQuestion<'_>,
    cache: &mut CodeCache<A>,
    number: u64,
) -> Result<Vec<Option<CodeText<A>>, A>, Fault>
    requires { question.now.n ≤ GENERATION_LIMIT }
    ensures same { cache.new ≡ cache.old }
    ensures codes { IfOk result (λ v. v.items ≡ map (λ P. code_of cache.old.rule P cache.old.limit) (clusters_of (generation_of question.now.rule (soup_of question.now.symmetry question.now.root.now number) question.now.n))) }
{
    let soup = soup(alloc, question.symmetry, question.root, number)?;
    let field = settled_generation(alloc, &question.rule, &soup, question.n)?;
    cache.codes(alloc, &field)
}

/// Counts the clusters of each soup's generation by code, and finds the first soup for each code. Calls the watch
/// after each soup.
pub fn haul<A: Allocator + Copy, W: HaulWatch>(
    alloc: A,
    question: &HaulQuestion<'_>,
    watch: &mut W,
) -> Result<Haul<A>, Fault>
    requires few { question.now.n ≤ GENERATION_LIMIT }
    requires from_one { 1 ≤ question.now.limit }
    requires limit { question.now.limit ≤ PERIOD_LIMIT }
    requires numbers { question.now.first + question.now.count < 2 ^ 64 }
    ensures { IfOk result (λ h. h ≡ haul_of question.now.symmetry question.now.root.now question.now.rule question.now.n question.now.limit question.now.first question.now.count) }
{
    let mut cache = CodeCache::new(alloc, question.rule, question.limit);
    let mut haul = Haul::none(alloc);
    for i in 0..question.count {
        let number = question.first + i;
        drop_shapes(alloc, question, &mut cache, i);
        let codes = codes_of_soup(alloc, question, &mut cache, number)?;
        count_soup(alloc, &mut haul, &codes, number)?;
        watch.report(i + 1, question.count);
    }
    Ok(haul)
}
