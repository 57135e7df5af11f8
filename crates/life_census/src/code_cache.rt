//! A cache of codes for counting the clusters of many patterns, such as soups.
ghost use Rattle.std.specs.Prelude.{◌≡◌, ◌≤◌, false, ◌++◌, ◌∷◌, [], map, IfOk, OnOk};
ghost use Rattle.std.specs.List.{All};
ghost use Rattle.life_core.specs.Pattern.{IsWithin};
ghost use Rattle.life_code.specs.Codes.{code_of};
ghost use Rattle.life_census.specs.Cluster.{clusters_of};
ghost use Rattle.life_census.specs.SurveyState.{IsSurvey};

use crate::cluster::clusters;
use crate::code_text::CodeText;
use crate::survey::{Search, Shape};
use life_code::PERIOD_LIMIT;
use life_core::{Fault, Pattern, Rule};
use std::alloc::{AllocError, Allocator};
use std::marker::Model;

/// Finds the codes of clusters, pattern by pattern, under one rule and limit on the period. It keeps the code of every
/// shape that it has met, so it computes each only once.
#[derive(Drop)]
pub struct CodeCache<A: Allocator> {
    rule: Rule,
    limit: u32,
    shapes: Vec<Shape<A>, A>,
}

impl<A: Allocator> Model for CodeCache<A> {
    ghost use Rattle.std.specs.Prelude.{false};
    ghost use Rattle.life_census.specs.CodeCacheState.{CodeQuestion, coded_question};
    ghost use Rattle.life_census.specs.SurveyState.{IsSurvey};

    ghost Value = { CodeQuestion };

    ghost coded = { coded_question };

    ghost view = { λ a. record { rule = a.rule; limit = a.limit } };

    ghost invariant = { λ a. IsSurvey a.rule a.limit false a.shapes.items };
}

impl<A: Allocator + Copy> CodeCache<A> {
    /// An empty cache.
    pub fn new(alloc: A, rule: Rule, limit: u32) -> CodeCache<A>
        requires from_one { 1 ≤ limit }
        requires few { limit ≤ PERIOD_LIMIT }
        ensures { result ≡ record { rule = rule; limit = limit } }
    {
        CodeCache {
            rule,
            limit,
            shapes: Vec::new(alloc),
        }
    }

    /// The codes of the clusters of a pattern, in the order of the clusters; `None` for a cluster without a code.
    pub fn codes(
        &mut self,
        alloc: A,
        pattern: &Pattern<A>,
    ) -> Result<Vec<Option<CodeText<A>>, A>, Fault>
        requires room { IsWithin 400_000_000 pattern.now }
        ensures same { self.new ≡ self.old }
        ensures codes { IfOk result (λ v. v.items ≡ map (λ P. code_of self.old.rule P self.old.limit) (clusters_of pattern.now)) }
    {
        let clusters = clusters(alloc, pattern)?;
        let search = Search::new(alloc, &self.rule, self.limit);
        named(&search, &clusters, &mut self.shapes)
    }
}

fn named<A: Allocator + Copy>(
    search: &Search<A>,
    clusters: &[Pattern<A>],
    shapes: &mut Vec<Shape<A>, A>,
) -> Result<Vec<Option<CodeText<A>>, A>, Fault>
    requires survey { IsSurvey search.now.rule search.now.limit false shapes.old.items }
    requires room { All (IsWithin 400_000_000) clusters.now }
    ensures survey { IsSurvey search.now.rule search.now.limit false shapes.new.items }
    ensures codes { IfOk result (λ v. v.items ≡ map (λ P. code_of search.now.rule P search.now.limit) clusters.now) }
{
    let mut codes = Vec::new(search.alloc);
    for cluster in clusters {
        let (i, _) = search.shape_index(cluster, false, shapes)?;
        put_code(search.alloc, &mut codes, &shapes[i].code)?;
    }
    Ok(codes)
}

fn put_code<A: Allocator + Copy>(
    alloc: A,
    codes: &mut Vec<Option<CodeText<A>>, A>,
    code: &Option<CodeText<A>>,
) -> Result<(), AllocError>
    ensures { OnOk result (codes.new.items ≡ codes.old.items ++ code.now ∷ []) }
{
    codes.push(copied(alloc, code)?)?;
    Ok(())
}

fn copied<A: Allocator>(
    alloc: A,
    code: &Option<CodeText<A>>,
) -> Result<Option<CodeText<A>>, AllocError>
    ensures { IfOk result (λ o. o ≡ code.now) }
{
    match code {
        Some(code) => Ok(Some(CodeText::from_slice(alloc, code.as_bytes())?)),
        None => Ok(None),
    }
}
