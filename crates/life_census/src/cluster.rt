//! Splits a pattern into its clusters.
ghost use Rattle.std.specs.Prelude.{◌≡◌, ◌≤◌, IfOk};
ghost use Rattle.std.specs.List.{All};
ghost use Rattle.life_core.specs.Pattern.{IsWithin};
ghost use Rattle.life_core.specs.Runs.{cells_in, AreRunsInOrder};
ghost use Rattle.life_core.specs.declared.cell.TheConstants.{PLANE};
ghost use Rattle.life_census.specs.Cluster.{AreClustersOf};

use crate::flood::flooded;
use life_core::{Fault, Pattern, Run, Runs};
use std::alloc::Allocator;

/// The clusters of the pattern, in place, ordered by their least cells: by row and then by column. Two cells are in
/// one cluster if a chain of live cells connects them, with steps of at most 2 columns and 2 rows.
pub fn clusters<A: Allocator + Copy>(
    alloc: A,
    pattern: &Pattern<A>,
) -> Result<Vec<Pattern<A>, A>, Fault>
    ensures { IfOk result (λ v. AreClustersOf pattern.now v.items) }
{
    let mut left = Vec::from_slice(alloc, pattern.cells().runs())?;
    parted(alloc, &mut left)
}

/// Empties the runs as it goes.
fn parted<A: Allocator + Copy>(alloc: A, left: &mut [Run]) -> Result<Vec<Pattern<A>, A>, Fault>
    requires order { AreRunsInOrder left.old }
    requires inside { IsWithin PLANE (cells_in left.old) }
    ensures { IfOk result (λ v. AreClustersOf (cells_in left.old) v.items) }
{
    let mut clusters = Vec::new(alloc);
    for i in 0..left.len() {
        if left[i].len > 0 {
            let runs = flooded(alloc, left, i)?;
            clusters.push(pattern_of(alloc, runs)?)?;
        }
    }
    Ok(clusters)
}

/// The runs may be in any order.
fn pattern_of<A: Allocator + Copy>(alloc: A, runs: Vec<Run, A>) -> Result<Pattern<A>, Fault>
    requires filled { All (λ r. 1 ≤ r.len) runs.items }
    requires inside { IsWithin PLANE (cells_in runs.items) }
    ensures { IfOk result (λ X. X ≡ cells_in runs.items) }
{
    let mut runs = runs;
    // If the runs are in order, they become a pattern without a copy.
    runs.sort_unstable();
    let mut cells = Runs::new(alloc);
    for run in &runs {
        cells.push_run(*run)?;
    }
    Pattern::from_runs(cells)
}
