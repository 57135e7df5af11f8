//! Reading a file line by line, from its bytes or from a stream.
ghost use Rattle.std.specs.Prelude.{◌≡◌, ℕ, ◌++◌, ◌∷◌, [], List, IfOk, OnOk, MatchOption, MatchResult, Err};
ghost use Rattle.life_rle.specs.declared.rle_fault.RleFault.TheVariants.{Memory};
ghost use Rattle.life_rle.specs.RleFault.{Gives};
ghost use Rattle.life_rle.specs.File.{kept, file};
ghost use Rattle.life_rle.specs.FileReading.{ReadsKnown, ReportsFailures};
ghost use Rattle.life_rle.specs.FileReaderState.{IsSound, Followed, FollowGives};
ghost use Rattle.life_rle.specs.Record.{HasNoLineEnd, IsInside};
ghost use Rattle.life_rle.specs.Stream.{ConsumesUpTo, EndsLast, FailedBetween};

use crate::line_reader::LineReader;
use crate::record::Record;
use crate::rle_fault::{ReadFault, RleFault};
use crate::stream::Inlet;
use memchr::memchr;
use std::alloc::Allocator;

/// The most bytes of a file.
const LONGEST_FILE: usize = 1_048_576;

/// The most bytes that are read from a stream. One more than a file may have is enough to refuse it.
const MOST_TAKEN: usize = 1_048_577;

/// A file whose bytes arrive in pieces: the state after its complete lines, and the beginning of the next line.
#[derive(Drop)]
pub(crate) struct FileReader<A: Allocator> {
    reader: LineReader<A>,
    line: Vec<u8, A>,
}

/// The bytes before the first line feed and the bytes after it, or `None` without one.
fn cut_line(bytes: &[u8]) -> Option<(&[u8], &[u8])>
    ensures { MatchOption result (HasNoLineEnd bytes.now) (λ cut. HasNoLineEnd cut.0.now × (bytes.now ≡ cut.0.now ++ 10 ∷ cut.1.now)) }
{
    let end = memchr(b'\n', bytes)?;
    Some((&bytes[..end], &bytes[end + 1..]))
}

impl<A: Allocator + Copy> FileReader<A> {
    ghost use Rattle.life_rle.specs.RleLines.{lines_after};
    ghost use Rattle.life_rle.specs.FileReaderState.{awaited};
    ghost use Rattle.life_rle.specs.LineReaderState.{resumed};

    #[tactic(auto, unfolding(crate::specs::File::kept))]
    fn new(alloc: A) -> FileReader<A>
        ensures { (bytes : List ℕ) → awaited result bytes ≡ kept bytes }
    {
        FileReader {
            reader: LineReader::new(alloc),
            line: Vec::new(alloc),
        }
    }

    /// Reads a line that ends with these bytes. A line in one piece is not copied.
    #[tactic(auto, unfolding(crate::specs::RleLines::lines_after))]
    fn end_line(&mut self, alloc: A, bytes: &[u8]) -> Result<(), RleFault>
        ensures { MatchResult result (λ _. (more : List ℕ) → awaited self.new more ≡ resumed self.old.reader ((self.old.line.items ++ bytes.now) ∷ lines_after [] more)) (λ e. e ≡ Memory) }
    {
        if self.line.is_empty() {
            return self.reader.line(alloc, bytes);
        }
        self.line.extend_from_slice(bytes)?;
        self.reader.line(alloc, &self.line)?;
        self.line.clear();
        Ok(())
    }

    /// Reads the complete lines in the next piece, and stores the rest.
    fn take_all(&mut self, alloc: A, piece: &[u8]) -> Result<(), RleFault>
        ensures { MatchResult result (λ _. (bytes : List ℕ) → awaited self.new bytes ≡ awaited self.old (piece.now ++ bytes)) (λ e. e ≡ Memory) }
    {
        let mut rest = piece;
        while let Some((line, after)) = cut_line(rest) {
            self.end_line(alloc, line)?;
            rest = after;
        }
        self.line.extend_from_slice(rest)?;
        Ok(())
    }

    /// The record, or the first fault, once all bytes are read. The last line needs no line feed.
    #[tactic(auto, unfolding(crate::specs::RleLines::lines_after))]
    fn finish(self, alloc: A) -> Result<Record<A>, RleFault>
        requires { IsSound self }
        ensures gives { Gives result (awaited self []) }
        ensures inside { IfOk result (λ r. IsInside 1024 r.cells) }
    {
        let FileReader { mut reader, line } = self;
        reader.line(alloc, &line)?;
        reader.finish()
    }
}

/// Reads a file of any length. The archive reads stored files this way: their text may be longer than a file that it
/// accepts.
pub fn read_kept<A: Allocator + Copy>(alloc: A, bytes: &[u8]) -> Result<Record<A>, RleFault>
    ensures gives { Gives result (kept bytes.now) }
    ensures inside { IfOk result (λ r. IsInside 1024 r.cells) }
{
    let mut file_reader = FileReader::new(alloc);
    file_reader.take_all(alloc, bytes)?;
    file_reader.finish(alloc)
}

/// Reads a file of at most 1,048,576 bytes.
#[tactic(auto, unfolding(crate::specs::File::file))]
pub fn read<A: Allocator + Copy>(alloc: A, bytes: &[u8]) -> Result<Record<A>, RleFault>
    ensures gives { Gives result (file bytes.now) }
    ensures inside { IfOk result (λ r. IsInside 1024 r.cells) }
{
    if bytes.len() > LONGEST_FILE {
        return Err(RleFault::TooLong);
    }
    read_kept(alloc, bytes)
}

/// Reads the stream to its end, or to one byte more than a file may have. Returns how many bytes it read.
fn read_stream<A: Allocator + Copy, I: Inlet>(
    alloc: A,
    inlet: &mut I,
    file_reader: &mut FileReader<A>,
) -> Result<usize, ReadFault>
    requires followed { Followed (I.to_come inlet.old) (I.to_come inlet.old) file_reader.old 0 }
    requires sound { IsSound file_reader.old }
    ensures follows { FollowGives (I.to_come inlet.old) (I.failures inlet.old) (I.failures inlet.new) file_reader.new result }
    ensures sound { OnOk result (IsSound file_reader.new) }
    ensures on_failed_take { ReportsFailures (I.failures inlet.old) (I.failures inlet.new) result }
    ensures few { ConsumesUpTo MOST_TAKEN (I.to_come inlet.old) (I.to_come inlet.new) }
    ensures end { EndsLast (I.ends inlet.old) (I.ends inlet.new) (I.last_take inlet.new) }
{
    let mut buffer = [0u8; 4096];
    let mut taken = 0;
    while taken < MOST_TAKEN {
        let room = buffer.len().min(MOST_TAKEN - taken);
        let space = &mut buffer[..room];
        match inlet.take(space) {
            Err(_) => return Err(ReadFault::Unreadable),
            Ok(0) => return Ok(taken),
            Ok(k) => {
                match file_reader.take_all(alloc, &space[..k]) {
                    Ok(()) => {}
                    Err(fault) => return Err(ReadFault::Rle(fault)),
                }
                taken += k;
            }
        }
    }
    Ok(taken)
}

/// Reads a file from a stream, at most 4,096 bytes at a time, to the end or to the first byte that is too many.
pub fn read_from<A: Allocator + Copy, I: Inlet>(
    alloc: A,
    inlet: &mut I,
) -> Result<Record<A>, ReadFault>
    // How the stream cuts the bytes into pieces makes no difference.
    ensures exact { ReadsKnown (I.to_come inlet.old) result }
    // Unreadable means that a read failed.
    ensures unreadable { result ≡ Err ReadFault.Unreadable → FailedBetween (I.failures inlet.old) (I.failures inlet.new) }
    // A failed read ends the call with Unreadable, and no other event does.
    ensures on_failed_take { ReportsFailures (I.failures inlet.old) (I.failures inlet.new) result }
    // At most 1,048,577 bytes are read, and none after the end was found.
    ensures few { ConsumesUpTo MOST_TAKEN (I.to_come inlet.old) (I.to_come inlet.new) }
    ensures end { EndsLast (I.ends inlet.old) (I.ends inlet.new) (I.last_take inlet.new) }
    ensures inside { IfOk result (λ r. IsInside 1024 r.cells) }
{
    let mut file_reader = FileReader::new(alloc);
    let taken = read_stream(alloc, inlet, &mut file_reader)?;
    if taken == MOST_TAKEN {
        return Err(ReadFault::Rle(RleFault::TooLong));
    }
    match file_reader.finish(alloc) {
        Ok(record) => Ok(record),
        Err(fault) => Err(ReadFault::Rle(fault)),
    }
}
