//! A picture as an SVG document.
ghost use Rattle.std.specs.Prelude.{◌≡◌, ◌<◌, ◌^◌, ◌++◌, IfOk, OnOk};
ghost use Rattle.life_pictures.specs.Document.{opening, background, front, svg};

use crate::extent::{Extent, extent_of};
use crate::numbers::put_numbered;
use crate::picture_runs::put_path;
use crate::title::put_title;
use life_core::Fault;
use life_rle::{Record, Text};
use std::alloc::{AllocError, Allocator};

/// Writes the opening tag, whose view box is this box with a margin of one cell.
fn put_opening<A: Allocator>(out: &mut Vec<u8, A>, extent: Extent) -> Result<(), AllocError>
    requires width { extent.width < 2 ^ 62 }
    requires height { extent.height < 2 ^ 62 }
    ensures { OnOk result (out.new.items ≡ out.old.items ++ opening extent.width extent.height) }
{
    let beginning = b"<svg xmlns=\"http://www.w3.org/2000/svg\" viewBox=\"-1 -1 ";
    put_numbered(out, beginning, extent.width + 2)?;
    put_numbered(out, b" ", extent.height + 2)?;
    out.extend_from_slice(b"\" shape-rendering=\"crispEdges\">\n")?;
    Ok(())
}

/// Writes a white rectangle that fills the view box. The cells are drawn over it.
fn put_background<A: Allocator>(out: &mut Vec<u8, A>, extent: Extent) -> Result<(), AllocError>
    requires width { extent.width < 2 ^ 62 }
    requires height { extent.height < 2 ^ 62 }
    ensures { OnOk result (out.new.items ≡ out.old.items ++ background extent.width extent.height) }
{
    put_numbered(out, b"<rect x=\"-1\" y=\"-1\" width=\"", extent.width + 2)?;
    put_numbered(out, b"\" height=\"", extent.height + 2)?;
    out.extend_from_slice(b"\" fill=\"white\"/>\n")?;
    Ok(())
}

/// Writes the beginning of a document up to its paths: its opening, its title and its background.
pub(crate) fn put_front<A: Allocator + Copy>(
    alloc: A,
    out: &mut Vec<u8, A>,
    name: &Option<Text<A>>,
    extent: Extent,
) -> Result<(), AllocError>
    requires width { extent.width < 2 ^ 62 }
    requires height { extent.height < 2 ^ 62 }
    ensures { OnOk result (out.new.items ≡ out.old.items ++ front extent.width extent.height name.now) }
{
    put_opening(out, extent)?;
    put_title(alloc, out, name)?;
    put_background(out, extent)?;
    Ok(())
}

/// The picture of a record as an SVG document. Its title is the record's name, and one path draws all cells, with a
/// rectangle for each longest run of a row. The view box is the cells' box with a margin of one cell.
pub fn svg<A: Allocator + Copy>(alloc: A, record: &Record<A>) -> Result<Vec<u8, A>, Fault>
    ensures { IfOk result (λ v. v.items ≡ svg «record».now) }
{
    let cells = record.cells.cells();
    let extent = extent_of(cells);
    let mut out = Vec::new(alloc);
    put_front(alloc, &mut out, &record.name, extent)?;
    out.extend_from_slice(b"<path d=\"")?;
    put_path(&mut out, cells)?;
    out.extend_from_slice(b"\"/>\n</svg>\n")?;
    Ok(out)
}
