//! Makes soups: fields whose 256 cells are the bits of a digest.
ghost use Rattle.std.specs.Prelude.{◌≡◌, ◌<◌, ◌++◌, IfOk, Some};
ghost use Rattle.std.specs.Fmt.{decimal};
ghost use Rattle.std.specs.List.{All};
ghost use Rattle.sha2.specs.Sha256.{sha256};
ghost use Rattle.life_core.specs.Cell.{IsCellWithin};
ghost use Rattle.life_core.specs.Pattern.{IsWithin};
ghost use Rattle.life_hauls.specs.Soups.{bit_at, field_cell, live_cells, with_images, soup_cells, soup_of};

use crate::symmetry::{Mirror, Symmetry};
use itoa::Buffer;
use life_core::{Cell, Fault, Pattern};
use sha2::{Digest, Sha256};
use std::alloc::{AllocError, Allocator};

/// The soup with this number under a root text: a field of 256 cells, row by row. Each cell is a bit of the SHA-256
/// digest of the root and the number's decimal digits, and 1 is live. The symmetry gives the length of a row, and adds
/// the mirror image if it has a mirror.
pub fn soup<A: Allocator + Copy>(
    alloc: A,
    symmetry: Symmetry,
    root: &[u8],
    number: u64,
) -> Result<Pattern<A>, Fault>
    ensures cells { IfOk result (λ X. X ≡ soup_of symmetry root.now number) }
    ensures inside { IfOk result (IsWithin 256) }
{
    let digest = digest_of(root, number);
    Pattern::from_list(soup_cells(alloc, symmetry, &digest)?)
}

/// May list a cell twice, if it is its own mirror image.
fn soup_cells<A: Allocator + Copy>(
    alloc: A,
    symmetry: Symmetry,
    digest: &[u8; 32],
) -> Result<Vec<Cell, A>, AllocError>
    ensures cells { IfOk result (λ v. v.items ≡ soup_cells symmetry digest.now) }
    ensures inside { IfOk result (λ v. All (IsCellWithin 256) v.items) }
{
    let cells = live_cells(alloc, symmetry.width(), digest)?;
    match symmetry.mirror() {
        None => Ok(cells),
        Some(mirror) => with_images(alloc, mirror, &cells),
    }
}

fn with_images<A: Allocator>(
    alloc: A,
    mirror: Mirror,
    cells: &[Cell],
) -> Result<Vec<Cell, A>, AllocError>
    requires { All (IsCellWithin 255) cells.now }
    ensures cells { IfOk result (λ v. v.items ≡ with_images (Some mirror) cells.now) }
    ensures inside { IfOk result (λ v. All (IsCellWithin 256) v.items) }
{
    let mut both = Vec::from_slice(alloc, cells)?;
    for cell in cells {
        both.push(mirror.mirrored(*cell))?;
    }
    Ok(both)
}

/// There is no separator: root `a1` with number 0 and root `a` with number 10 give the same soup.
fn digest_of(root: &[u8], number: u64) -> [u8; 32]
    ensures { result ≡ sha256 (root.now ++ decimal number) }
{
    let mut buffer = Buffer::new();
    let mut hasher = Sha256::new();
    hasher.update(root);
    hasher.update(buffer.format(number).as_bytes());
    hasher.finalize()
}

/// `width` is the number of cells in a row.
fn live_cells<A: Allocator>(
    alloc: A,
    width: usize,
    digest: &[u8; 32],
) -> Result<Vec<Cell, A>, AllocError>
    requires { 0 < width }
    ensures cells { IfOk result (λ v. v.items ≡ live_cells width digest.now 256) }
    ensures inside { IfOk result (λ v. All (IsCellWithin 255) v.items) }
{
    let mut cells = Vec::new(alloc);
    for index in 0..256 {
        if bit_at(digest, index) {
            cells.push(field_cell(width, index))?;
        }
    }
    Ok(cells)
}

/// The highest bit of each byte comes first.
fn bit_at(digest: &[u8; 32], index: usize) -> bool
    requires { index < 256 }
    ensures { result ≡ bit_at digest.now index }
{
    (digest[index / 8] >> (7 - index % 8)) % 2 == 1
}

fn field_cell(width: usize, index: usize) -> Cell
    requires some { 0 < width }
    requires index { index < 256 }
    ensures cell { result ≡ field_cell width index }
    ensures inside { IsCellWithin 255 result }
{
    Cell {
        row: (index / width) as i64,
        column: (index % width) as i64,
    }
}
