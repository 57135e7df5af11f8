//! Animations as SVG documents: a frame for each generation, all in one box.
ghost use Rattle.std.specs.Prelude.{◌≡◌, ◌≤◌, ◌<◌, ◌+◌, ◌∷◌, ◌++◌, IfOk, OnOk, length, codes};
ghost use Rattle.std.specs.List.{All, flat_map};
ghost use Rattle.life_core.specs.Cell.{IsCellWithin};
ghost use Rattle.life_core.specs.Pattern.{IsWithin};
ghost use Rattle.life_rle.specs.Record.{IsInside};
ghost use Rattle.life_pictures.specs.Corners.{HasCorners};
ghost use Rattle.life_pictures.specs.Frames.{frame, moving, animation};
ghost use Rattle.life_pictures.specs.PictureFramesState.{IsCornerOf, AreFrames, IsFrame, generations_after, all_cells, path_of_frames};

use crate::corners::{Corners, corners_of, corners_of_both, extent_of_box, first_cell};
use crate::document::put_front;
use crate::numbers::put_numbered;
use crate::picture_runs::put_path;
use life_code::settled_generation;
use life_core::{Cell, Fault, GENERATION_LIMIT, PackedRows, Pattern, Plane, Rule};
use life_rle::{Record, Text};
use std::alloc::Allocator;

/// The most frames of an animation. It bounds memory, since the complete document is built before any of it is written.
pub const MOST_FRAMES: u32 = 240;

/// The next `more` generations of a pattern, which is always small enough for packed rows. A run takes 12 bytes, and no
/// more than its rectangle in the document.
fn generations_after<A: Allocator + Copy>(
    alloc: A,
    rule: &Rule,
    start: &Pattern<A>,
    more: u32,
) -> Result<Vec<Pattern<A>, A>, Fault>
    requires { AreFrames start.now more }
    ensures { IfOk result (λ v. v.items ≡ generations_after rule.now start.now more) }
{
    let mut later = Vec::new(alloc);
    let mut plane: PackedRows<A> = Plane::from_pattern(alloc, start)?;
    for _i in 0..more {
        plane.step(rule)?;
        later.push(plane.to_pattern(alloc)?)?;
    }
    Ok(later)
}

/// The corners of the box around a pattern and all later ones.
fn corners_of_all<A: Allocator>(start: &Pattern<A>, later: &[Pattern<A>]) -> Option<Corners>
    requires start { IsWithin 4096 start.now }
    requires later { All (IsWithin 4096) later.now }
    ensures { HasCorners (all_cells (start.now ∷ later.now)) result }
{
    let mut corners = corners_of(start);
    for pattern in later {
        corners = corners_of_both(corners, corners_of(pattern));
    }
    corners
}

/// Writes the frame of a pattern in a box with this upper left cell. Its first move draws nothing, so that even an
/// empty generation has data.
fn put_frame<A: Allocator + Copy>(
    alloc: A,
    out: &mut Vec<u8, A>,
    pattern: &Pattern<A>,
    at: Cell,
) -> Result<(), Fault>
    requires pattern { IsWithin 4096 pattern.now }
    requires at { IsCellWithin 4096 at }
    requires first { IsCornerOf at pattern.now }
    ensures { OnOk result (out.new.items ≡ out.old.items ++ frame at pattern.now) }
{
    let placed = pattern.moved(alloc, -at.column, -at.row)?;
    out.extend_from_slice(b"M0 0")?;
    put_path(out, placed.cells())?;
    Ok(())
}

/// Writes the frames of patterns, with a semicolon before each.
fn put_frames<A: Allocator + Copy>(
    alloc: A,
    out: &mut Vec<u8, A>,
    patterns: &[Pattern<A>],
    at: Cell,
) -> Result<(), Fault>
    requires at { IsCellWithin 4096 at }
    requires frames { All (IsFrame at) patterns.now }
    ensures { OnOk result (out.new.items ≡ out.old.items ++ flat_map (λ X. codes ";" ++ frame at X) patterns.now) }
{
    for pattern in patterns {
        out.extend_from_slice(b";")?;
        put_frame(alloc, out, pattern, at)?;
    }
    Ok(())
}

/// Writes the path that shows a pattern and later ones in a loop, an eighth of a second each. The first frame is
/// written twice, but built once.
fn put_animated_path<A: Allocator + Copy>(
    alloc: A,
    out: &mut Vec<u8, A>,
    start: &Pattern<A>,
    later: &[Pattern<A>],
    at: Cell,
) -> Result<(), Fault>
    requires few { length later.now < MOST_FRAMES }
    requires at { IsCellWithin 4096 at }
    requires start { IsFrame at start.now }
    requires later { All (IsFrame at) later.now }
    ensures { OnOk result (out.new.items ≡ out.old.items ++ path_of_frames at start.now later.now) }
{
    let mut first = Vec::new(alloc);
    put_frame(alloc, &mut first, start, at)?;
    out.extend_from_slice(b"<path d=\"")?;
    out.extend_from_slice(&first)?;
    let opening = b"\"><animate attributeName=\"d\" calcMode=\"discrete\" dur=\"";
    put_numbered(out, opening, 125 * (later.len() as u64 + 1))?;
    out.extend_from_slice(b"ms\" repeatCount=\"indefinite\" values=\"")?;
    out.extend_from_slice(&first)?;
    put_frames(alloc, out, later, at)?;
    out.extend_from_slice(b"\"/></path>\n")?;
    Ok(())
}

/// The SVG document of an animation that begins with this pattern and shows `more` generations after it.
fn moving<A: Allocator + Copy>(
    alloc: A,
    name: &Option<Text<A>>,
    rule: &Rule,
    start: &Pattern<A>,
    more: u32,
) -> Result<Vec<u8, A>, Fault>
    requires { AreFrames start.now more }
    ensures { IfOk result (λ v. v.items ≡ moving name.now rule.now start.now more) }
{
    let later = generations_after(alloc, rule, start, more)?;
    let corners = corners_of_all(start, &later);
    let at = first_cell(corners);
    let mut out = Vec::new(alloc);
    put_front(alloc, &mut out, name, extent_of_box(corners))?;
    put_animated_path(alloc, &mut out, start, &later, at)?;
    out.extend_from_slice(b"</svg>\n")?;
    Ok(out)
}

/// An SVG document that shows generation `n` of a record and then `more` later ones. The title is the record's name.
/// The view box is the box of all of them, with a margin of one cell.
pub fn animation<A: Allocator + Copy>(
    alloc: A,
    record: &Record<A>,
    n: u32,
    more: u32,
) -> Result<Vec<u8, A>, Fault>
    requires few { n ≤ GENERATION_LIMIT }
    requires more { more < MOST_FRAMES }
    requires inside { IsInside 1024 «record».now.cells }
    ensures { IfOk result (λ v. v.items ≡ animation «record».now n more) }
{
    let start = settled_generation(alloc, &record.rule, &record.cells, n)?;
    moving(alloc, &record.name, &record.rule, &start, more)
}
