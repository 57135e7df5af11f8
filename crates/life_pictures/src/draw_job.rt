//! Reading a pattern file and writing its picture.
ghost use Rattle.std.specs.Prelude.{◌≡◌, ◌↔◌, IsTrue, IfOk, Err};
ghost use Rattle.life_rle.specs.Record.{IsInside};
ghost use Rattle.life_jobs.specs.PatternJobs.{PutsKnown};
ghost use Rattle.life_jobs.specs.Streams.{TakesFile, PutsText, PutsOnce};
ghost use Rattle.life_pictures.specs.DrawJobs.{IsGood, drawn, picture_text};

use crate::document::svg;
use crate::picture_frames::{MOST_FRAMES, animation};
use crate::picture_lines::text;
use life_core::{Fault, GENERATION_LIMIT};
use life_jobs::{Stop, put_text, read_input};
use life_rle::{Inlet, Outlet, Record};
use std::alloc::Global;

/// A kind of picture.
#[derive(Clone, Copy, Debug, PartialEq, Eq)]
pub enum Picture {
    /// Lines of half blocks.
    Text,
    /// An SVG document.
    Svg,
    /// An SVG document that shows the generations from `first` to `last`, one after the other.
    Animation { first: u64, last: u64 },
}

/// Whether an animation's generations are in range and not too many. Other pictures have no numbers.
fn is_allowed(picture: Picture) -> bool
    ensures { IsTrue result ↔ IsGood picture }
{
    match picture {
        Picture::Text | Picture::Svg => true,
        Picture::Animation { first, last } => {
            first <= last
                && last <= u64::from(GENERATION_LIMIT)
                && last - first < u64::from(MOST_FRAMES)
        }
    }
}

/// The bytes of a record's picture.
fn drawn(alloc: Global, picture: Picture, record: &Record) -> Result<Vec<u8>, Fault>
    requires good { IsGood picture }
    requires inside { IsInside 1024 «record».now.cells }
    ensures { IfOk result (λ v. v.items ≡ drawn picture «record».now) }
{
    match picture {
        Picture::Text => text(alloc, record),
        Picture::Svg => svg(alloc, record),
        Picture::Animation { first, last } => {
            animation(alloc, record, first as u32, (last - first) as u32)
        }
    }
}

/// Writes the picture of a record.
fn put_picture<O: Outlet>(
    alloc: Global,
    picture: Picture,
    record: &Record,
    output: &mut O,
) -> Result<(), Stop>
    requires good { IsGood picture }
    requires inside { IsInside 1024 «record».now.cells }
    ensures puts { PutsText (O.already output.old) (O.already output.new) (drawn picture «record».now) result }
    ensures once { PutsOnce output.old output.new (O.failures output.old) (O.failures output.new) (O.last_failed output.new) result }
{
    match drawn(alloc, picture, record) {
        Ok(text) => put_text(output, &text),
        Err(_) => Err(Stop::Unavailable),
    }
}

/// Reads a pattern file, to its end or to byte 1,048,577, and writes its picture. It checks an animation's numbers
/// before it reads anything: `first` is at most `last`, `last` at most 2048, with at most [`MOST_FRAMES`] generations.
pub fn run_draw<I: Inlet, O: Outlet>(
    alloc: Global,
    picture: Picture,
    input: &mut I,
    output: &mut O,
) -> Result<(), Stop>
    ensures limit { (result ≡ Err Stop.OutOfLimit) ↔ ¬ IsGood picture }
    ensures untouched { ¬ IsGood picture → (input.new ≡ input.old) × (output.new ≡ output.old) }
    // If the input bytes are known, the output is their picture, and a reported bad pattern is their fault.
    ensures known { IsGood picture → PutsKnown (picture_text picture) (I.to_come input.old) (O.already output.old) (O.already output.new) result }
    ensures takes { TakesFile (I.to_come input.old) (I.to_come input.new) (I.failures input.old) (I.failures input.new) (I.ends input.old) (I.ends input.new) (I.last_take input.new) result }
    ensures once { PutsOnce output.old output.new (O.failures output.old) (O.failures output.new) (O.last_failed output.new) result }
{
    if !is_allowed(picture) {
        return Err(Stop::OutOfLimit);
    }
    match read_input(alloc, input) {
        Ok(record) => put_picture(alloc, picture, &record, output),
        Err(stop) => Err(stop),
    }
}
