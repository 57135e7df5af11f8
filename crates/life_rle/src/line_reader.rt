//! Reading a file line by line: texts, the header, then the body.
ghost use Rattle.std.specs.Prelude.{◌≡◌, ◌∷◌, [], List, ℕ, MatchResult, IfOk, Ok, map};
ghost use Rattle.std.specs.FinSet as set;
ghost use Rattle.std.specs.List.{All};
ghost use Rattle.life_core.specs.Pattern.{normal};
ghost use Rattle.life_core.specs.RuleText.{without_blanks};
ghost use Rattle.life_rle.specs.declared.rle_fault.RleFault.TheVariants.{Memory};
ghost use Rattle.life_rle.specs.Body.{IsPlaced};
ghost use Rattle.life_rle.specs.RleFault.{Gives};
ghost use Rattle.life_rle.specs.File.{cell_of};
ghost use Rattle.life_rle.specs.Writer.{coordinates};

use crate::body::BodyReader;
use crate::header::header_rule;
use crate::notes::Notes;
use crate::record::Record;
use crate::rle_fault::RleFault;
use crate::rle_lines::{LineKind, is_blank, is_mark_line, line_kind};
use life_core::{Pattern, Rule, Runs};
use std::alloc::{AllocError, Allocator};

/// The part of the file that the next line belongs to. After a fault all lines are ignored.
#[derive(Clone, Copy)]
pub(crate) enum Stage {
    Front,
    Body,
    Failed(RleFault),
}

/// A file that is being read line by line. It remembers the first fault, which [`LineReader::finish`] returns.
#[derive(Drop)]
pub(crate) struct LineReader<A: Allocator> {
    notes: Notes<A>,
    rule: Rule,
    body: BodyReader<A>,
    stage: Stage,
}

/// The bytes of a line except blanks.
fn without_blanks<A: Allocator>(alloc: A, line: &[u8]) -> Result<Vec<u8, A>, AllocError>
    ensures { IfOk result (λ text. text.items ≡ without_blanks line.now) }
{
    let mut text = Vec::new(alloc);
    for byte in line {
        if !is_blank(*byte) {
            text.push(*byte)?;
        }
    }
    Ok(text)
}

impl<A: Allocator + Copy> LineReader<A> {
    ghost use Rattle.std.specs.Option.{option_copied};
    ghost use Rattle.life_rle.specs.RleLines.{line_kind, header};
    ghost use Rattle.life_rle.specs.Notes.{no_notes, notes};
    ghost use Rattle.life_rle.specs.Record.{Contents, IsRecord, IsInside};
    ghost use Rattle.life_rle.specs.File.{read_lines, chosen_rule};
    ghost use Rattle.life_rle.specs.LineReaderState.{front_rule, resumed};
    ghost use Rattle.life_rle.specs.declared.line_reader.Stage.TheVariants.{Front, Body};

    pub(crate) fn new(alloc: A) -> LineReader<A>
        ensures { (lines : List (List ℕ)) → resumed result lines ≡ read_lines no_notes lines }
    {
        LineReader {
            notes: Notes::new(alloc),
            rule: Rule::LIFE,
            body: BodyReader::new(alloc),
            stage: Stage::Front,
        }
    }

    /// The rule of the header if it gives one, otherwise the rule of the first `#r` line, otherwise Life.
    fn rule_of(&self, given: Option<&[u8]>) -> Result<Rule, RleFault>
        ensures { Gives result (chosen_rule (option_copied given.entry) (notes self.now.notes).rule) }
    {
        match given {
            Some(text) => Ok(Rule::read(text)?),
            None => match &self.notes.rule {
                Some(text) => Ok(Rule::read(text.as_bytes())?),
                None => Ok(Rule::LIFE),
            },
        }
    }

    /// Checks the texts and the header line, whose blanks are removed, and returns the rule.
    #[tactic(auto, unfolding(crate::specs::LineReaderState::front_rule))]
    fn checked_rule(&self, text: &[u8]) -> Result<Rule, RleFault>
        ensures { Gives result (front_rule (notes self.now.notes) text.now) }
    {
        if self.notes.is_past_limit() {
            return Err(RleFault::TextLimit);
        }
        let given = header_rule(text)?;
        self.rule_of(given)
    }

    /// Reads the next line.
    pub(crate) fn line(&mut self, alloc: A, line: &[u8]) -> Result<(), RleFault>
        ensures { MatchResult result (λ _. (lines : List (List ℕ)) → resumed self.new lines ≡ resumed self.old (line.now ∷ lines)) (λ e. e ≡ Memory) }
    {
        match self.stage {
            Stage::Failed(_) => Ok(()),
            Stage::Body => self.body_line(line),
            Stage::Front => self.front_line(alloc, line),
        }
    }

    /// Reads a line after the header.
    fn body_line(&mut self, line: &[u8]) -> Result<(), RleFault>
        requires { self.old.stage ≡ Body }
        ensures { MatchResult result (λ _. (lines : List (List ℕ)) → resumed self.new lines ≡ resumed self.old (line.now ∷ lines)) (λ e. e ≡ Memory) }
    {
        if is_mark_line(line) {
            Ok(())
        } else {
            self.body.line(line)
        }
    }

    /// Reads a line up to the header, which is the first line that is neither blank nor marked with `#`.
    fn front_line(&mut self, alloc: A, line: &[u8]) -> Result<(), RleFault>
        requires { self.old.stage ≡ Front }
        ensures { MatchResult result (λ _. (lines : List (List ℕ)) → resumed self.new lines ≡ resumed self.old (line.now ∷ lines)) (λ e. e ≡ Memory) }
    {
        match line_kind(line) {
            LineKind::Header => self.header(alloc, line),
            kind => {
                self.notes.line(alloc, kind)?;
                Ok(())
            }
        }
    }

    /// Reads the header. A fault is remembered; only out of memory is returned at once.
    fn header(&mut self, alloc: A, line: &[u8]) -> Result<(), RleFault>
        requires front { self.old.stage ≡ Front }
        requires header { line_kind line.now ≡ header }
        ensures { MatchResult result (λ _. (lines : List (List ℕ)) → resumed self.new lines ≡ resumed self.old (line.now ∷ lines)) (λ e. e ≡ Memory) }
    {
        let text = without_blanks(alloc, line)?;
        match self.checked_rule(&text) {
            Ok(rule) => {
                self.rule = rule;
                self.body = BodyReader::new(alloc);
                self.stage = Stage::Body;
                Ok(())
            }
            Err(fault) => match fault {
                RleFault::Memory => Err(RleFault::Memory),
                _ => {
                    self.stage = Stage::Failed(fault);
                    Ok(())
                }
            },
        }
    }

    /// The record, or the first fault, once all lines are read.
    #[tactic(auto, unfolding(crate::specs::File::read_lines, crate::specs::File::after_front))]
    pub(crate) fn finish(self) -> Result<Record<A>, RleFault>
        requires { (r : Contents) → resumed self [] ≡ Ok r → IsRecord r }
        ensures gives { Gives result (resumed self []) }
        ensures inside { IfOk result (λ r. IsInside 1024 r.cells) }
    {
        let LineReader {
            notes,
            rule,
            body,
            stage,
        } = self;
        match stage {
            Stage::Failed(fault) => Err(fault),
            Stage::Front => {
                if notes.is_past_limit() {
                    Err(RleFault::TextLimit)
                } else {
                    Err(RleFault::NoHeader)
                }
            }
            Stage::Body => {
                let cells = normal_of(body.finish()?)?;
                let Notes {
                    name,
                    author,
                    comments,
                    ..
                } = notes;
                Ok(Record {
                    name,
                    author,
                    comments,
                    rule,
                    cells,
                })
            }
        }
    }
}

/// The set of the cells, moved so that its least column and row are 0.
fn normal_of<A: Allocator + Copy>(cells: Runs<A>) -> Result<Pattern<A>, RleFault>
    requires { All IsPlaced cells }
    ensures { MatchResult result (λ X. X ≡ normal (set.from_list (map cell_of (map coordinates cells)))) (λ e. e ≡ Memory) }
{
    Ok(Pattern::from_runs(cells)?.into_normal())
}
