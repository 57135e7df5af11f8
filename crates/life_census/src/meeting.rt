//! Decides whether the clusters of a field ever meet.
ghost use Rattle.std.specs.Prelude.{◌≡◌, ◌↔◌, ℕ, pos, ◌≤◌, ◌<◌, ◌≤ℤ◌, ◌++◌, true, map, slice_index_or, IsTrue, IfOk, OnOk, length, IfSome, MatchOption};
ghost use Rattle.std.specs.Bool.{MatchBool};
ghost use Rattle.std.specs.List.{All, Contains};
ghost use Rattle.std.specs.List.Sorted.{IsSorted};
ghost use Rattle.life_core.specs.Cell.{moved_cell, IsCellWithin};
ghost use Rattle.life_core.specs.Pattern.{Cells, IsWithin};
ghost use Rattle.life_core.specs.declared.cell.TheConstants.{PLANE};
ghost use Rattle.life_code.specs.Apart.{near};
ghost use Rattle.life_code.specs.Codes.{code_of};
ghost use Rattle.life_code.specs.Period.{IsSearchable};
ghost use Rattle.life_census.specs.declared.meeting.Visit.{Visit as VisitValue};
ghost use Rattle.life_census.specs.Cluster.{clusters_of};
ghost use Rattle.life_census.specs.Counting.{IsTally};
ghost use Rattle.life_census.specs.Steady.{Stays, IsSteady, is_steady};
ghost use Rattle.life_census.specs.SteadyState.{visit_cmp, visit_of, IsVisitInPlane, AreVisits, ComesBefore, KeepApart, KeepApartUpTo, AreAllApart, AreRowsApart};
ghost use Rattle.life_census.specs.SurveyState.{IsSurvey};

use crate::cluster::clusters;
use crate::survey::{Search, Shape, stays_in_place};
use crate::tally_rows::Tally;
use crate::tallying::{tally_of, tally_of_one};
use life_code::{PERIOD_LIMIT, kind};
use life_core::{Cell, Fault, Pattern, Rule};
use std::alloc::{AllocError, Allocator};

/// A cell that is live in some phase of a cluster, with the number of the cluster.
#[derive(Clone, Copy, PartialEq, Eq, PartialOrd, Ord)]
struct Visit {
    cell: Cell,
    cluster: usize,
}

/// Whether the field is steady: each cluster is a still life or an oscillator within the limit on the period, and no
/// two of them ever come near each other. Then each cluster evolves as if the others didn't exist. The empty field is
/// steady. Needs memory for the cells of all phases at once.
pub fn steady<A: Allocator + Copy>(
    alloc: A,
    rule: &Rule,
    pattern: &Pattern<A>,
    limit: u32,
) -> Result<bool, Fault>
    requires { IsSearchable limit pattern.now }
    ensures steady { IfOk result (λ b. IsTrue b ↔ IsSteady rule.now pattern.now limit) }
    ensures computed { IfOk result (λ b. b ≡ is_steady rule.now pattern.now limit) }
{
    let clusters = clusters(alloc, pattern)?;
    if clusters.len() == 1 {
        return Ok(stays_in_place(kind(alloc, rule, pattern, limit)?));
    }
    let search = Search::new(alloc, rule, limit);
    never_meet(&search, &clusters, &mut Vec::new(alloc))
}

/// [`tally`](crate::tally) and [`steady`] together. Finds the clusters only once, and so the code and phases of each
/// shape.
pub fn tally_and_steady<A: Allocator + Copy>(
    alloc: A,
    rule: &Rule,
    pattern: &Pattern<A>,
    limit: u32,
) -> Result<(Tally<A>, bool), Fault>
    requires { IsSearchable limit pattern.now }
    ensures tally { IfOk result (λ p. IsTally (λ P. code_of rule.now P limit) (clusters_of pattern.now) p.0) }
    ensures steady { IfOk result (λ p. IsTrue p.1 ↔ IsSteady rule.now pattern.now limit) }
    ensures computed { IfOk result (λ p. p.1 ≡ is_steady rule.now pattern.now limit) }
{
    let clusters = clusters(alloc, pattern)?;
    let search = Search::new(alloc, rule, limit);
    if clusters.len() == 1 {
        let kind = kind(alloc, rule, pattern, limit)?;
        let tally = tally_of_one(&search, pattern, kind)?;
        return Ok((tally, stays_in_place(kind)));
    }
    let mut shapes = Vec::new(alloc);
    // This stops at the first cluster that moves or is unresolved, and lists no phases of later shapes.
    let steady = never_meet(&search, &clusters, &mut shapes)?;
    let tally = tally_of(&search, &clusters, &mut shapes)?;
    Ok((tally, steady))
}

/// Whether these clusters stay in place and never come near each other. Adds new shapes, with their phases, to the
/// table.
fn never_meet<A: Allocator + Copy>(
    search: &Search<A>,
    clusters: &[Pattern<A>],
    shapes: &mut Vec<Shape<A>, A>,
) -> Result<bool, Fault>
    requires room { All (IsWithin 400_000_000) clusters.now }
    requires survey { IsSurvey search.now.rule search.now.limit true shapes.old.items }
    ensures survey { IsSurvey search.now.rule search.now.limit true shapes.new.items }
    ensures answer { IfOk result (λ b. (X : Cells) → clusters_of X ≡ clusters.now → (IsTrue b ↔ IsSteady search.now.rule X search.now.limit)) }
{
    let Some(mut visits) = all_visits(search, clusters, shapes)? else {
        return Ok(false);
    };
    visits.sort_unstable();
    Ok(are_apart(&visits))
}

/// The cells of all phases of all clusters; `None` if a cluster moves or is unresolved. Adds new shapes to the table
/// until then.
fn all_visits<A: Allocator + Copy>(
    search: &Search<A>,
    clusters: &[Pattern<A>],
    shapes: &mut Vec<Shape<A>, A>,
) -> Result<Option<Vec<Visit, A>>, Fault>
    requires room { All (IsWithin 400_000_000) clusters.now }
    requires survey { IsSurvey search.now.rule search.now.limit true shapes.old.items }
    ensures survey { IsSurvey search.now.rule search.now.limit true shapes.new.items }
    ensures stay { IfOk result (λ o. MatchOption o (All (Stays search.now.rule search.now.limit) clusters.now → ⊥) (λ v. All (Stays search.now.rule search.now.limit) clusters.now)) }
    ensures visits { IfOk result (λ o. IfSome o (λ v. AreVisits search.now.rule clusters.now (length clusters.now) v.items)) }
    ensures inside { IfOk result (λ o. IfSome o (λ v. All IsVisitInPlane v.items)) }
{
    let mut visits = Vec::new(search.alloc);
    for (number, cluster) in clusters.iter().enumerate() {
        let (i, move_by) = search.shape_index(cluster, true, shapes)?;
        let Some(phases) = &shapes[i].phases else {
            return Ok(None);
        };
        visit_cells(phases, move_by, number, &mut visits)?;
    }
    Ok(Some(visits))
}

/// `cells` are the phases of the first cluster of this shape, and `move_by` takes it to this one.
fn visit_cells<A: Allocator>(
    cells: &[Cell],
    move_by: Cell,
    number: usize,
    visits: &mut Vec<Visit, A>,
) -> Result<(), AllocError>
    requires { All (λ c. IsCellWithin PLANE (moved_cell move_by.column move_by.row c)) cells.now }
    ensures { OnOk result (visits.new.items ≡ visits.old.items ++ map (λ c. visit_of number (moved_cell move_by.column move_by.row c)) cells.now) }
{
    for cell in cells {
        visits.push(Visit {
            cell: cell.moved(move_by.column, move_by.row),
            cluster: number,
        })?;
    }
    Ok(())
}

/// Whether cells of different clusters are never near each other. Since the cells are sorted, three passes suffice:
/// for rows 0, 1 and 2 apart.
fn are_apart(visits: &[Visit]) -> bool
    requires sorted { IsSorted visit_cmp visits.now }
    requires inside { All IsVisitInPlane visits.now }
    ensures { IsTrue result ↔ AreAllApart visits.now }
{
    if !are_rows_apart(visits, 0) {
        return false;
    }
    if !are_rows_apart(visits, 1) {
        return false;
    }
    are_rows_apart(visits, 2)
}

/// One pass, for cells of another cluster this many rows below. The first cell that can be near only moves forward, so
/// a pass doesn't search for it from the start.
fn are_rows_apart(visits: &[Visit], rows: i64) -> bool
    requires sorted { IsSorted visit_cmp visits.now }
    requires inside { All IsVisitInPlane visits.now }
    requires below { pos 0 ≤ℤ rows }
    requires close { rows ≤ℤ pos 2 }
    ensures { MatchBool result (AreRowsApart rows visits.now) (AreAllApart visits.now → ⊥) }
{
    let mut from = 0;
    for visit in visits {
        from = first_from(visits, from, visit.cell.moved(-2, rows));
        if meets(*visit, &visits[from..], visit.cell.moved(2, rows)) {
            return false;
        }
    }
    true
}

/// The first index from `start` on whose cell is not before this one.
fn first_from(visits: &[Visit], start: usize, cell: Cell) -> usize
    requires { start ≤ length visits.now }
    ensures bound { result ≤ length visits.now }
    ensures before { (k : ℕ) (d : VisitValue) → start ≤ k → k < result → ComesBefore (slice_index_or visits.now k d).cell cell }
{
    let mut index = start;
    while index < visits.len() && visits[index].cell < cell {
        index += 1;
    }
    index
}

/// Whether a cell is near a cell of another cluster; `others` are sorted, and none after `last` can be near.
fn meets(visit: Visit, others: &[Visit], last: Cell) -> bool
    requires { IsSorted visit_cmp others.now }
    ensures { MatchBool result ((w : VisitValue) × Contains others.now w × (KeepApart visit w → ⊥)) (All (KeepApartUpTo last visit) others.now) }
{
    for other in others {
        if last < other.cell {
            return false;
        }
        if other.cluster != visit.cluster && is_near(visit.cell, other.cell) {
            return true;
        }
    }
    false
}

/// At most 2 apart in rows and in columns.
fn is_near(a: Cell, b: Cell) -> bool
    ensures { result ≡ near a b }
{
    a.row.abs_diff(b.row) <= 2 && a.column.abs_diff(b.column) <= 2
}
