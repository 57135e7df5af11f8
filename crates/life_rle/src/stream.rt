//! Streams of bytes, in and out, whose contracts say which bytes passed and how many calls failed.
ghost use Rattle.std.specs.Prelude.{◌≡◌, ◌⊎◌, Bool, ℕ, ◌<◌, ◌≤◌, List, Option, Ok, IfOk, OnOk, OnErr, false, length};
ghost use Rattle.life_rle.specs.Stream.{incremented, count_after, ends_after, bytes_moved, is_err, Takes, Puts, Appends, AppendsSome, FailsLast};

use std::io::{self, Read, Write};

/// A read or a write that failed and moved no bytes.
#[derive(Clone, Copy, Debug, PartialEq, Eq)]
pub struct Failed;

/// An input stream.
pub trait Inlet {
    // The bytes still to come, if the proof knows them.
    ghost to_come: { Self → Option (List ℕ) };
    // How many reads were made, how many bytes the last one moved, how many failed, and how many found the end. Counts
    // stop at the greatest 64-bit number.
    ghost takes: { Self → ℕ };

    ghost last_take: { Self → ℕ };

    ghost failures: { Self → ℕ };

    ghost ends: { Self → ℕ };

    /// Reads some of the next bytes into the front of `space`, and returns how many. 0 is the end, if `space` has room.
    fn take(&mut self, space: &mut [u8]) -> Result<usize, Failed>
        ensures within { IfOk result (λ k. k ≤ length space.new) }
        ensures bytes { Takes (to_come self.old) (to_come self.new) result space.new }
        ensures made { takes self.new ≡ incremented (takes self.old) }
        ensures gave { last_take self.new ≡ bytes_moved result }
        ensures count { failures self.new ≡ count_after (failures self.old) result }
        ensures end { ends self.new ≡ ends_after (ends self.old) result };
}

/// An output stream.
pub trait Outlet {
    // The bytes already written, if the proof knows them.
    ghost already: { Self → Option (List ℕ) };
    // How many writes have failed, and whether the last one did.
    ghost failures: { Self → ℕ };

    ghost last_failed: { Self → Bool };

    /// Writes some bytes from the front of `bytes`, at least one unless there are none, and returns how many.
    fn put(&mut self, bytes: &[u8]) -> Result<usize, Failed>
        ensures within { IfOk result (λ k. k ≤ length bytes.now) }
        ensures some { IfOk result (λ k. 0 < length bytes.now → 0 < k) }
        ensures bytes { Puts (already self.old) (already self.new) result bytes.now }
        ensures count { failures self.new ≡ count_after (failures self.old) result }
        ensures last { last_failed self.new ≡ is_err result };
}

/// An input from any `Read`. Its bytes are known to the proof if the reader's are.
#[derive(Drop)]
pub struct FromRead<R> {
    reader: R,
    takes: u64,
    last_take: usize,
    failures: u64,
    ends: u64,
}

impl<R: Read> FromRead<R> {
    /// The input before the first read.
    pub fn new(reader: R) -> FromRead<R>
        ensures bytes { ⟦<FromRead<R> as Inlet>⟧.to_come result ≡ R.remaining reader }
        ensures none_taken { ⟦<FromRead<R> as Inlet>⟧.takes result ≡ 0 }
        ensures none_failed { ⟦<FromRead<R> as Inlet>⟧.failures result ≡ 0 }
        ensures not_ended { ⟦<FromRead<R> as Inlet>⟧.ends result ≡ 0 }
    {
        FromRead {
            reader,
            takes: 0,
            last_take: 0,
            failures: 0,
            ends: 0,
        }
    }
}

/// The result of a read. It fails if the reader did, or if it claims more bytes than there was room for.
fn taken(answer: io::Result<usize>, room: usize) -> Result<usize, Failed>
    ensures ok { IfOk result (λ k. (answer ≡ Ok k) × (k ≤ room)) }
    ensures err { OnErr result ((k : ℕ) → answer ≡ Ok k → room < k) }
{
    match answer {
        Ok(k) if k <= room => Ok(k),
        _ => Err(Failed),
    }
}

/// The result of a write of `most` bytes. It fails if the writer did, or claims to have accepted no byte or too many.
fn given(answer: io::Result<usize>, most: usize) -> Result<usize, Failed>
    ensures ok { IfOk result (λ k. (answer ≡ Ok k) × (k ≤ most) × (0 < most → 0 < k)) }
    ensures err { OnErr result ((k : ℕ) → answer ≡ Ok k → (most < k) ⊎ ((k ≡ 0) × (0 < most))) }
{
    match answer {
        Ok(k) if k <= most && (k > 0 || most == 0) => Ok(k),
        _ => Err(Failed),
    }
}

impl<R: Read> Inlet for FromRead<R> {
    ghost to_come = { λ s. R.remaining s.reader };

    ghost takes = { λ s. s.takes };

    ghost last_take = { λ s. s.last_take };

    ghost failures = { λ s. s.failures };

    ghost ends = { λ s. s.ends };

    fn take(&mut self, space: &mut [u8]) -> Result<usize, Failed> {
        self.takes = self.takes.saturating_add(1);
        let answer = self.reader.read(space);
        match taken(answer, space.len()) {
            Ok(k) => {
                self.last_take = k;
                self.ends = self.ends.saturating_add(u64::from(k == 0));
                Ok(k)
            }
            Err(failed) => {
                self.last_take = 0;
                self.failures = self.failures.saturating_add(1);
                Err(failed)
            }
        }
    }
}

/// An output to any `Write`. A writer that accepts no byte has failed, so that a loop always ends.
#[derive(Drop)]
pub struct FromWrite<W> {
    writer: W,
    failures: u64,
    last_failed: bool,
}

impl<W: Write> FromWrite<W> {
    /// The output before the first write.
    pub fn new(writer: W) -> FromWrite<W>
        ensures bytes { ⟦<FromWrite<W> as Outlet>⟧.already result ≡ W.contents writer }
        ensures none_failed { ⟦<FromWrite<W> as Outlet>⟧.failures result ≡ 0 }
        ensures not_failed { ⟦<FromWrite<W> as Outlet>⟧.last_failed result ≡ false }
    {
        FromWrite {
            writer,
            failures: 0,
            last_failed: false,
        }
    }
}

impl<W: Write> Outlet for FromWrite<W> {
    ghost already = { λ s. W.contents s.writer };

    ghost failures = { λ s. s.failures };

    ghost last_failed = { λ s. s.last_failed };

    fn put(&mut self, bytes: &[u8]) -> Result<usize, Failed> {
        let answer = self.writer.write(bytes);
        match given(answer, bytes.len()) {
            Ok(k) => {
                self.last_failed = false;
                Ok(k)
            }
            Err(failed) => {
                self.failures = self.failures.saturating_add(1);
                self.last_failed = true;
                Err(failed)
            }
        }
    }
}

/// Writes all bytes, in as many calls as it needs. It stops at the first write that fails.
pub fn put_all<O: Outlet>(output: &mut O, bytes: &[u8]) -> Result<(), Failed>
    ensures all { OnOk result (Appends (O.already output.old) (O.already output.new) bytes.now) }
    ensures some { OnErr result (AppendsSome (O.already output.old) (O.already output.new) bytes.now) }
    ensures count { OnOk result (O.failures output.new ≡ O.failures output.old) }
    ensures failed { OnErr result (FailsLast (O.failures output.old) (O.failures output.new) (O.last_failed output.new)) }
{
    let mut at = 0;
    'puts: while at < bytes.len() {
        match output.put(&bytes[at..]) {
            Ok(k) => at += k,
            Err(e) => return Err(e),
        }
    }
    Ok(())
}
