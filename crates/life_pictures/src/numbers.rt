//! Decimal numbers in the texts of SVG documents.
ghost use Rattle.std.specs.Prelude.{◌≡◌, ◌++◌, OnOk};
ghost use Rattle.life_pictures.specs.Numbers.{with_number};

use itoa::Buffer;
use std::alloc::{AllocError, Allocator};

/// Writes a text, followed by a number in decimal digits.
pub fn put_numbered<A: Allocator>(
    out: &mut Vec<u8, A>,
    text: &[u8],
    n: u64,
) -> Result<(), AllocError>
    ensures { OnOk result (out.new.items ≡ out.old.items ++ with_number text.now n) }
{
    out.extend_from_slice(text)?;
    out.extend_from_slice(Buffer::new().format(n).as_bytes())?;
    Ok(())
}
