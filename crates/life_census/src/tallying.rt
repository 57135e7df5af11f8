//! Counting clusters by their codes.
ghost use Rattle.std.specs.Prelude.{◌≡◌, ℕ, List, Option, ◌+◌, ◌<◌, ◌≤◌, ◌^◌, ◌∷◌, [], false, map, IfOk, OnOk, MatchResult};
ghost use Rattle.std.specs.List.{All};
ghost use Rattle.life_core.specs.Pattern.{Cells, IsWithin};
ghost use Rattle.life_code.specs.Codes.{code_of};
ghost use Rattle.life_code.specs.Period.{kind_of, IsSearchable, IsKindOf};
ghost use Rattle.life_census.specs.Cluster.{clusters_of};
ghost use Rattle.life_census.specs.Rows.{row_seen};
ghost use Rattle.life_census.specs.Counting.{IsTally};
ghost use Rattle.life_census.specs.CountingState.{one_more, AreBelow, IsRowOf, IsPlaceFor};
ghost use Rattle.life_census.specs.SurveyState.{IsSurvey};

use crate::cluster::clusters;
use crate::code_text::CodeText;
use crate::survey::{Search, Shape};
use crate::tally_rows::{Row, Rows, Tally};
use life_code::{Kind, PERIOD_LIMIT, kind};
use life_core::{Fault, Pattern, Rule};
use std::alloc::{AllocError, Allocator};
use std::cmp::Ordering;

/// Counts the clusters of the pattern by code, under the rule and the limit on the period.
pub fn tally<A: Allocator + Copy>(
    alloc: A,
    rule: &Rule,
    pattern: &Pattern<A>,
    limit: u32,
) -> Result<Tally<A>, Fault>
    requires { IsSearchable limit pattern.now }
    ensures { IfOk result (IsTally (λ P. code_of rule.now P limit) (clusters_of pattern.now)) }
{
    let clusters = clusters(alloc, pattern)?;
    let search = Search::new(alloc, rule, limit);
    if clusters.len() == 1 {
        let kind = kind(alloc, rule, pattern, limit)?;
        return tally_of_one(&search, pattern, kind);
    }
    tally_of(&search, &clusters, &mut Vec::new(alloc))
}

/// The tally of a field that is a single cluster, whose kind is already known.
pub fn tally_of_one<A: Allocator + Copy>(
    search: &Search<A>,
    cluster: &Pattern<A>,
    kind: Kind,
) -> Result<Tally<A>, Fault>
    requires { IsKindOf search.now.rule cluster.now search.now.limit kind }
    ensures { IfOk result (IsTally (λ P. code_of search.now.rule P search.now.limit) (cluster.now ∷ [])) }
{
    let code = search.code_of(cluster, kind)?;
    Ok(tally_of_code(search.alloc, &code)?)
}

fn tally_of_code<A: Allocator + Copy>(
    alloc: A,
    code: &Option<CodeText<A>>,
) -> Result<Tally<A>, AllocError>
    ensures { IfOk result (λ t. (f : Cells → Option (List ℕ)) (P : Cells) → f P ≡ code.now → IsTally f (P ∷ []) t) }
{
    let mut rows = Vec::new(alloc);
    let mut unresolved = 0;
    match code {
        Some(text) => count_code(alloc, &mut rows, text)?,
        None => unresolved = 1,
    }
    Ok(Tally {
        rows: Rows::of(rows),
        unresolved,
        total: 1,
    })
}

/// Counts clusters by code. Adds new shapes to the table.
pub fn tally_of<A: Allocator + Copy>(
    search: &Search<A>,
    clusters: &[Pattern<A>],
    shapes: &mut Vec<Shape<A>, A>,
) -> Result<Tally<A>, Fault>
    requires room { All (IsWithin 400_000_000) clusters.now }
    requires survey { IsSurvey search.now.rule search.now.limit false shapes.old.items }
    ensures { IfOk result (IsTally (λ P. code_of search.now.rule P search.now.limit) clusters.now) }
{
    let mut rows = Vec::new(search.alloc);
    let mut unresolved = 0;
    for cluster in clusters {
        let (i, _) = search.shape_index(cluster, false, shapes)?;
        match &shapes[i].code {
            Some(code) => count_code(search.alloc, &mut rows, code)?,
            None => unresolved += 1,
        }
    }
    Ok(Tally {
        rows: Rows::of(rows),
        unresolved,
        total: clusters.len() as u64,
    })
}

/// Adds 1 to the count of a code, or inserts a row for it.
fn count_code<A: Allocator + Copy>(
    alloc: A,
    rows: &mut Vec<Row<A>, A>,
    code: &CodeText<A>,
) -> Result<(), AllocError>
    requires { All (λ r. r.count + 1 < 2 ^ 64) rows.old.items }
    ensures counted { OnOk result (map row_seen rows.new.items ≡ one_more (map row_seen rows.old.items) code.now) }
    ensures bounded { OnOk result ((n : ℕ) → All (λ r. r.count ≤ n) rows.old.items → All (λ r. r.count ≤ n + 1) rows.new.items) }
{
    match place_of(rows, code.as_bytes()) {
        Ok(i) => rows[i].count += 1,
        Err(i) => {
            let code = CodeText::from_slice(alloc, code.as_bytes())?;
            rows.insert(i, Row { code, count: 1 })?;
        }
    }
    Ok(())
}

/// A linear search in sorted rows: `Ok` with the index of the code, or `Err` with the index at which to insert it.
fn place_of<A: Allocator>(rows: &[Row<A>], code: &[u8]) -> Result<usize, usize>
    ensures before { MatchResult result (AreBelow rows.now code.now) (AreBelow rows.now code.now) }
    ensures here { MatchResult result (IsRowOf rows.now code.now) (IsPlaceFor rows.now code.now) }
{
    for (i, row) in rows.iter().enumerate() {
        match code.cmp(row.code.as_bytes()) {
            Ordering::Greater => {}
            Ordering::Equal => return Ok(i),
            Ordering::Less => return Err(i),
        }
    }
    Err(rows.len())
}
