//! Counting a census from its deposit: before it is stored, and again when an archive is checked.

ghost use Rattle.std.specs.Prelude.{◌≡◌, ◌≤◌, Some, IfOk};
ghost use Rattle.life_core.specs.Pattern.{IsWithin};
ghost use Rattle.life_rle.specs.Record.{IsInside};
ghost use Rattle.life_census.specs.Steady.{is_steady};
ghost use Rattle.life_store.specs.Tables.{HasOrder};
ghost use Rattle.life_desk.specs.Archive.{AddsUp, tally_for, tally_of_cells, steady_for};

use life_census::{Tally, laws_of_tallies, tally_and_steady};
use life_code::{PERIOD_LIMIT, settled_generation};
use life_core::{GENERATION_LIMIT, Pattern, Rule};
use life_store::{Census, Deposit, Unavailable};
use std::alloc::Global;

/// The tally of a pattern, and whether the pattern is steady. The clusters are found once for both.
fn count(
    alloc: Global,
    rule: &Rule,
    cells: &Pattern,
    limit: u32,
) -> Result<(Tally, bool), Unavailable>
    requires some { 1 ≤ limit }
    requires few { limit ≤ PERIOD_LIMIT }
    requires room { IsWithin 400_000_000 cells.now }
    ensures is { IfOk result (λ p. p.0 ≡ tally_of_cells rule.now cells.now limit) }
    ensures flag { IfOk result (λ p. p.1 ≡ is_steady rule.now cells.now limit) }
    ensures ordered { IfOk result (λ p. HasOrder p.0) }
    ensures adds_up { IfOk result (λ p. AddsUp p.0) }
{
    laws_of_tallies();
    Ok(tally_and_steady(alloc, rule, cells, limit)?)
}

/// The tally of the generation that a census counts, and whether that generation is steady. The caller passes the
/// census's deposit.
pub fn tally_of_generation(
    alloc: Global,
    deposit: &Deposit,
    census: &Census,
) -> Result<(Tally, bool), Unavailable>
    requires small { IsInside 1024 deposit.now.content.cells }
    requires few { census.now.generation ≤ GENERATION_LIMIT }
    requires some { 1 ≤ census.now.limit }
    requires short { census.now.limit ≤ PERIOD_LIMIT }
    ensures is { IfOk result (λ p. p.0 ≡ tally_for census.now (Some deposit.now)) }
    ensures flag { IfOk result (λ p. p.1 ≡ steady_for census.now (Some deposit.now)) }
    ensures ordered { IfOk result (λ p. HasOrder p.0) }
    ensures adds_up { IfOk result (λ p. AddsUp p.0) }
{
    let rule = deposit.content.rule;
    let later = settled_generation(alloc, &rule, &deposit.content.cells, census.generation)?;
    count(alloc, &rule, &later, census.limit)
}
