//! One generation of a row of packed words, of which bit `i` of word `j` is the place `64 j + i`.
ghost use Rattle.std.specs.Prelude.{◌≡◌, ℕ, ◌+◌, ◌-◌, ◌*◌, ◌<◌, ◌≤◌, IsTrue, length, nat_lt, slice_index_or, if◌then◌else◌};
ghost use Rattle.std.specs.Int.{bit_at};
ghost use Rattle.life_core.specs.PackedRow.{place, place_before, next_place};
ghost use Rattle.life_core.specs.PackedRowSets.{PlacesAreNext};

use crate::packed::lane_rule::ConwayLife;
use crate::packed::row_lanes::{step_groups, step_rest};
use crate::packed::rule_form::RuleForm;
use crate::rule::Rule;

/// Writes the places of the middle row that are live next into `out`. All places outside the three rows count as dead.
/// It allocates nothing. Planes step by blocks instead; only tests call this.
pub fn row_step(above: &[u64], here: &[u64], below: &[u64], rule: &Rule, out: &mut [u64])
    requires above { length above.now ≡ length out.old }
    requires here { length here.now ≡ length out.old }
    requires below { length below.now ≡ length out.old }
    ensures { (p : ℕ) → p < 64 * length out.new → place out.new p ≡ next_place rule.now above.now here.now below.now p }
{
    if rule.is_life() {
        step_groups(&ConwayLife, above, here, below, out);
        step_rest(&ConwayLife, above, here, below, out);
    } else {
        let form = RuleForm::of(rule);
        step_groups(&form, above, here, below, out);
        step_rest(&form, above, here, below, out);
    }
}

/// If the three rows are rows -1, 0 and 1 of the plane and all else is dead, a step gives row 0 of the next generation,
/// in the columns that it has. A law: calling it does nothing.
pub fn laws_of_row_steps()
    ensures { PlacesAreNext }
{}

/// The word whose bit `i` is the place left of place `i` of the word `j`, or 0 outside.
pub(crate) fn from_left(words: &[u64], j: usize) -> u64
    requires { j < length words.now }
    ensures { (i : ℕ) → i < 64 → bit_at result i ≡ place_before words.now (64 * j + i) }
{
    left_word(word_before(words, j), words[j])
}

/// The word whose bit `i` is the place right of place `i` of the word `j`, or 0 outside.
pub(crate) fn from_right(words: &[u64], j: usize) -> u64
    requires { j < length words.now }
    ensures { (i : ℕ) → i < 64 → bit_at result i ≡ place words.now (64 * j + i + 1) }
{
    right_word(words[j], word_at(words, j + 1))
}

/// The word shifted up by one place, with the top bit of the word before it.
fn left_word(before: u64, word: u64) -> u64
    ensures { (i : ℕ) → i < 64 → bit_at result i ≡ (if nat_lt 0 i then bit_at word (i - 1) else bit_at before 63) }
{
    (word << 1) | (before >> 63)
}

/// The word shifted down by one place, with the lowest bit of the word after it.
fn right_word(word: u64, after: u64) -> u64
    ensures { (i : ℕ) → i < 64 → bit_at result i ≡ (if nat_lt i 63 then bit_at word (i + 1) else bit_at after 0) }
{
    (word >> 1) | (after << 63)
}

/// The word before the one at `j`, or 0 before the row.
fn word_before(words: &[u64], j: usize) -> u64
    ensures { result ≡ (if nat_lt 0 j then slice_index_or words.now (j - 1) 0 else 0) }
{
    if j > 0 { word_at(words, j - 1) } else { 0 }
}

/// The word at `j`, or 0 past the row.
fn word_at(words: &[u64], j: usize) -> u64
    ensures { result ≡ slice_index_or words.now j 0 }
{
    if j < words.len() { words[j] } else { 0 }
}
