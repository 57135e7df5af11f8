//! The items of a body, byte by byte.
ghost use Rattle.std.specs.Prelude.{◌≡◌, ◌++◌, ◌<◌, ◌≤◌, ◌+◌, map, OnOk, IfErr, IfOk, unwrap_or, Some};
ghost use Rattle.std.specs.List.{All};
ghost use Rattle.life_rle.specs.Body.{run, IsPlaced};
ghost use Rattle.life_rle.specs.Writer.{coordinates};

use crate::rle_fault::RleFault;
use crate::rle_lines::is_blank;
use life_core::{Run, Runs};
use std::alloc::{AllocError, Allocator};

/// The greatest count of an item; a greater one is `bad-count`.
const MOST: u32 = 1_000_000;
/// How many columns and rows of a file may have live cells.
const SIDE: u32 = 1024;

/// Appends the live cells of an item to the list.
fn push_run<A: Allocator>(
    cells: &mut Runs<A>,
    column: u32,
    row: u32,
    count: u32,
) -> Result<(), AllocError>
    requires some { 1 ≤ count }
    requires columns { column + count ≤ 1024 }
    requires row { row < 1024 }
    requires inside { All IsPlaced cells.old }
    ensures run { OnOk result (map coordinates cells.new ≡ map coordinates cells.old ++ run column row count) }
    ensures inside { All IsPlaced cells.new }
{
    cells.push_run(Run {
        row: row as i32,
        first: column as i32,
        len: count,
    })
}

/// The body so far. `row` and `column` say where the next item begins, and stop at 1024. `count` is the part of its
/// count that was read, and stops at 1,000,001.
#[derive(Drop)]
pub(crate) struct Body<A: Allocator> {
    row: u32,
    column: u32,
    count: Option<u32>,
    cells: Runs<A>,
    ghost inside: { All IsPlaced cells },
    ghost row_in: { row ≤ 1024 },
    ghost column_in: { column ≤ 1024 },
    ghost count_in: { unwrap_or count 0 ≤ 1000001 },
}

impl<A: Allocator> Body<A> {
    ghost use Rattle.std.specs.Prelude.{List, ℕ, MatchResult};
    ghost use Rattle.life_core.specs.RuleText.{without_blanks};
    ghost use Rattle.life_rle.specs.BodyState.{Took, Acts, step, item_step, next_count, start, place_reached, body_from, outcome_at};
    ghost use Rattle.life_rle.specs.declared.rle_fault.RleFault.TheVariants.{Memory};

    /// The start of a body.
    fn new(alloc: A) -> Body<A>
        ensures { place_reached result ≡ start }
    {
        Body {
            row: 0,
            column: 0,
            count: None,
            cells: Runs::new(alloc),
        }
    }

    /// Adds a digit to the count.
    fn digit(&mut self, byte: u8)
        requires low { 48 ≤ byte }
        requires high { byte ≤ 57 }
        ensures { place_reached self.new ≡ record (place_reached self.old) { count = Some (next_count self.old.count byte) } }
    {
        let value = self.count.unwrap_or(0) * 10 + u32::from(byte - b'0');
        self.count = Some(value.min(MOST + 1));
    }

    /// Reads the next byte; returns whether it ended the body.
    #[tactic(auto, unfolding(crate::specs::BodyState::step))]
    fn take(&mut self, byte: u8) -> Result<bool, RleFault>
        ensures { Took (step (place_reached self.old) byte) (place_reached self.new) result }
    {
        if byte.is_ascii_digit() {
            self.digit(byte);
            return Ok(false);
        }
        if let Some(0 | 1_000_001..) = self.count {
            return Err(RleFault::BadCount);
        }
        match byte {
            b'!' => {
                if self.count.is_some() {
                    Err(RleFault::BadCount)
                } else {
                    Ok(true)
                }
            }
            _ => {
                self.item(self.count.unwrap_or(1), byte)?;
                Ok(false)
            }
        }
    }

    /// Acts on a complete item other than `!`: moves the position, and adds live cells.
    fn item(&mut self, count: u32, tag: u8) -> Result<(), RleFault>
        requires some { 1 ≤ count }
        requires few { count ≤ 1000000 }
        ensures { Acts (item_step (place_reached self.old) count tag) (place_reached self.new) result }
    {
        match tag {
            b'b' => self.column = (self.column + count).min(SIDE),
            b'$' => {
                self.row = (self.row + count).min(SIDE);
                self.column = 0;
            }
            b'o' => {
                if self.column + count > SIDE || self.row >= SIDE {
                    return Err(RleFault::TooWide);
                }
                push_run(&mut self.cells, self.column, self.row, count)?;
                self.column += count;
            }
            _ => return Err(RleFault::OtherTag),
        }
        self.count = None;
        Ok(())
    }

    /// Reads a line or a part of one, and stops at the end of the body or at the first fault.
    fn line(&mut self, line: &[u8]) -> Result<Progress, RleFault>
        ensures { MatchResult result (λ progress. (rest : List ℕ) → outcome_at progress (place_reached self.new) rest ≡ body_from (place_reached self.old) (without_blanks line.now ++ rest)) (λ e. e ≡ Memory) }
    {
        for byte in line {
            if !is_blank(*byte) {
                match self.take(*byte) {
                    Ok(false) => {}
                    Ok(true) => return Ok(Progress::Ended),
                    Err(fault) => match fault {
                        RleFault::Memory => return Err(RleFault::Memory),
                        _ => return Ok(Progress::Failed(fault)),
                    },
                }
            }
        }
        Ok(Progress::More)
    }
}

/// Whether a body needs more bytes.
#[derive(Clone, Copy)]
pub(crate) enum Progress {
    More,
    Ended,
    Failed(RleFault),
}

/// A body that is being read. After its end or its first fault it ignores all bytes.
#[derive(Drop)]
pub(crate) struct BodyReader<A: Allocator> {
    body: Body<A>,
    progress: Progress,
}

impl<A: Allocator> BodyReader<A> {
    ghost use Rattle.std.specs.Prelude.{List, ℕ, ◌∷◌, MatchResult, Ok, Err, []};
    ghost use Rattle.life_core.specs.RuleText.{without_blanks};
    ghost use Rattle.life_rle.specs.BodyState.{start, body_from, outcome};
    ghost use Rattle.life_rle.specs.declared.rle_fault.RleFault.TheVariants.{Memory};

    pub(crate) fn new(alloc: A) -> BodyReader<A>
        ensures { (rest : List ℕ) → outcome result rest ≡ body_from start rest }
    {
        BodyReader {
            body: Body::new(alloc),
            progress: Progress::More,
        }
    }

    /// Reads the next line.
    pub(crate) fn line(&mut self, line: &[u8]) -> Result<(), RleFault>
        ensures { MatchResult result (λ _. (rest : List ℕ) → outcome self.new rest ≡ outcome self.old (without_blanks line.now ++ rest)) (λ e. e ≡ Memory) }
    {
        if let Progress::More = self.progress {
            self.progress = self.body.line(line)?;
        }
        Ok(())
    }

    /// The cells, or the first fault, once all bytes are read.
    #[tactic(auto, unfolding(crate::specs::BodyState::body_from))]
    pub(crate) fn finish(self) -> Result<Runs<A>, RleFault>
        ensures cells { MatchResult result (λ cells. outcome self [] ≡ Ok (map coordinates cells)) (λ e. outcome self [] ≡ Err e) }
        ensures inside { IfOk result (λ cells. All IsPlaced cells) }
    {
        match self.progress {
            Progress::More if self.body.count.is_some() => Err(RleFault::BadCount),
            Progress::More => Err(RleFault::NoEnd),
            Progress::Ended => Ok(self.body.cells),
            Progress::Failed(fault) => Err(fault),
        }
    }
}
