//! Reading a pattern file and writing a text, with the stops that they may cause.
ghost use Rattle.std.specs.Prelude.{◌≡◌, IfOk, IfErr};
ghost use Rattle.life_rle.specs.Record.{IsInside};
ghost use Rattle.life_jobs.specs.Streams.{ReadsKnown, IsOfInput, TakesFile, PutsText, PutsOnce};

use crate::stop::Stop;
use life_rle::{Inlet, Outlet, ReadFault, Record, RleFault, put_all, read_from};
use std::alloc::Global;

/// Reads a pattern file. It reads to the end of the input, or to byte 1,048,577, which shows that the file is too
/// long.
pub fn read_input<I: Inlet>(alloc: Global, input: &mut I) -> Result<Record, Stop>
    ensures known { ReadsKnown (I.to_come input.old) result }
    ensures stops { IfErr result IsOfInput }
    ensures takes { TakesFile (I.to_come input.old) (I.to_come input.new) (I.failures input.old) (I.failures input.new) (I.ends input.old) (I.ends input.new) (I.last_take input.new) result }
    ensures inside { IfOk result (λ r. IsInside 1024 r.cells) }
{
    match read_from(alloc, input) {
        Ok(record) => Ok(record),
        Err(ReadFault::Unreadable) => Err(Stop::Unreadable),
        Err(ReadFault::Rle(RleFault::Memory)) => Err(Stop::Unavailable),
        Err(ReadFault::Rle(fault)) => Err(Stop::BadPattern(fault)),
    }
}

/// Writes a text, in as many writes as the output needs.
pub fn put_text<O: Outlet>(output: &mut O, text: &[u8]) -> Result<(), Stop>
    ensures fails { IfErr result (λ stop. stop ≡ Stop.Unwritable) }
    ensures puts { PutsText (O.already output.old) (O.already output.new) text.now result }
    ensures once { PutsOnce output.old output.new (O.failures output.old) (O.failures output.new) (O.last_failed output.new) result }
{
    match put_all(output, text) {
        Ok(()) => Ok(()),
        Err(_) => Err(Stop::Unwritable),
    }
}
