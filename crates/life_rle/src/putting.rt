//! Writing a record's text to a stream.
ghost use Rattle.std.specs.Prelude.{◌≡◌, OnOk, Err};
ghost use Rattle.life_rle.specs.Putting.{PutsText};
ghost use Rattle.life_rle.specs.Stream.{FailsLast};
ghost use Rattle.life_rle.specs.Writer.{text};

use crate::record::Record;
use crate::rle_fault::WriteFault;
use crate::stream::{Outlet, put_all};
use crate::writer::write;
use std::alloc::Allocator;

/// Writes the text of a record to the output, in as many calls as it needs.
pub fn write_to<A: Allocator + Copy, O: Outlet>(
    alloc: A,
    record: &Record<A>,
    output: &mut O,
) -> Result<(), WriteFault>
    // After Ok the text is written, and no write failed.
    ensures puts { PutsText (O.already output.old) (O.already output.new) (text «record».now) result }
    ensures count { OnOk result (O.failures output.new ≡ O.failures output.old) }
    // Unwritable means that the last write failed, and only that one. Out of memory leaves the output untouched.
    ensures unwritable { result ≡ Err WriteFault.Unwritable → FailsLast (O.failures output.old) (O.failures output.new) (O.last_failed output.new) }
    ensures silent { result ≡ Err WriteFault.Memory → output.new ≡ output.old }
{
    let text = match write(alloc, record) {
        Ok(text) => text,
        Err(_) => return Err(WriteFault::Memory),
    };
    match put_all(output, &text) {
        Ok(()) => Ok(()),
        Err(_) => Err(WriteFault::Unwritable),
    }
}
