//! Streams for tests: in memory, a few bytes a call, with one call that fails.
ghost use Rattle.std.specs.Prelude.{◌≡◌, ◌<◌, ◌≤◌, [], Some, false, length};

use crate::stream::{Failed, Inlet, Outlet};
use std::alloc::Global;

/// An input that gives a few bytes a call.
#[derive(Drop)]
pub struct PieceInlet {
    bytes: Vec<u8>,
    at: usize,
    piece: usize,
    fail_at: Option<u64>,
    calls: u64,
    last_take: usize,
    failures: u64,
    ends: u64,
    ghost at_within: { at ≤ length bytes.items },
    ghost some_piece: { 0 < piece },
}

impl PieceInlet {
    /// An input of these bytes, at most `piece` a call. Call `fail_at`, counted from 1, fails and moves no bytes.
    pub fn new(bytes: Vec<u8>, piece: usize, fail_at: Option<u64>) -> PieceInlet
        requires { 0 < piece }
        ensures to_come { ⟦<PieceInlet as Inlet>⟧.to_come result ≡ Some bytes.items }
        ensures none_taken { ⟦<PieceInlet as Inlet>⟧.takes result ≡ 0 }
        ensures none_failed { ⟦<PieceInlet as Inlet>⟧.failures result ≡ 0 }
        ensures not_ended { ⟦<PieceInlet as Inlet>⟧.ends result ≡ 0 }
        ensures not_called { result.calls ≡ 0 }
        ensures piece { result.piece ≡ piece }
        ensures fail_at { result.fail_at ≡ fail_at }
    {
        PieceInlet {
            bytes,
            at: 0,
            piece,
            fail_at,
            calls: 0,
            last_take: 0,
            failures: 0,
            ends: 0,
        }
    }

    /// How many calls were made, including the one that failed.
    pub fn calls(&self) -> u64
        ensures { result ≡ self.now.calls }
    {
        self.calls
    }
}

impl Inlet for PieceInlet {
    ghost use Rattle.std.specs.Prelude.{Some, IfOk, drop};
    ghost use Rattle.life_rle.specs.Stream.{Takes, incremented, count_after, ends_after, bytes_moved};
    ghost use Rattle.life_rle.specs.Pieces.{FailsAt, whole_piece};

    ghost to_come = { λ s. Some (drop s.at s.bytes.items) };

    ghost takes = { λ s. s.calls };

    ghost last_take = { λ s. s.last_take };

    ghost failures = { λ s. s.failures };

    ghost ends = { λ s. s.ends };

    fn take(&mut self, space: &mut [u8]) -> Result<usize, Failed>
        ensures within { IfOk result (λ k. k ≤ length space.new) }
        ensures bytes { Takes (Some (drop self.old.at self.old.bytes.items)) (Some (drop self.new.at self.new.bytes.items)) result space.new }
        ensures made { self.new.calls ≡ incremented self.old.calls }
        ensures gave { self.new.last_take ≡ bytes_moved result }
        ensures count { self.new.failures ≡ count_after self.old.failures result }
        ensures end { self.new.ends ≡ ends_after self.old.ends result }
        // A call gives a full piece, unless fewer bytes remain or fit.
        ensures piece { IfOk result (λ k. k ≡ whole_piece self.old.piece (length (drop self.old.at self.old.bytes.items)) (length space.old)) }
        // Only call `fail_at` fails.
        ensures fails { FailsAt self.old.fail_at self.new.calls result }
        ensures same_piece { self.new.piece ≡ self.old.piece }
        ensures same_call { self.new.fail_at ≡ self.old.fail_at }
    {
        self.calls = self.calls.saturating_add(1);
        if self.fail_at == Some(self.calls) {
            self.last_take = 0;
            self.failures = self.failures.saturating_add(1);
            return Err(Failed);
        }
        let rest = &self.bytes[self.at..];
        let k = rest.len().min(space.len()).min(self.piece);
        space[..k].copy_from_slice(&rest[..k]);
        self.at += k;
        self.last_take = k;
        self.ends = self.ends.saturating_add(u64::from(k == 0));
        Ok(k)
    }
}

/// An output that accepts a few bytes a call and collects them in memory.
#[derive(Drop)]
pub struct PieceOutlet {
    bytes: Vec<u8>,
    piece: usize,
    fail_at: Option<u64>,
    calls: u64,
    failures: u64,
    last_failed: bool,
    ghost some_piece: { 0 < piece },
}

impl PieceOutlet {
    /// An output that accepts at most `piece` bytes a call. Call `fail_at`, counted from 1, fails and moves no bytes.
    pub fn new(alloc: Global, piece: usize, fail_at: Option<u64>) -> PieceOutlet
        requires { 0 < piece }
        ensures already { ⟦<PieceOutlet as Outlet>⟧.already result ≡ Some [] }
        ensures none_failed { ⟦<PieceOutlet as Outlet>⟧.failures result ≡ 0 }
        ensures not_failed { ⟦<PieceOutlet as Outlet>⟧.last_failed result ≡ false }
        ensures not_called { result.calls ≡ 0 }
        ensures piece { result.piece ≡ piece }
        ensures fail_at { result.fail_at ≡ fail_at }
    {
        PieceOutlet {
            bytes: Vec::new(alloc),
            piece,
            fail_at,
            calls: 0,
            failures: 0,
            last_failed: false,
        }
    }

    /// All bytes written so far.
    pub fn bytes(&self) -> &[u8]
        ensures { ⟦<PieceOutlet as Outlet>⟧.already self.now ≡ Some result.now }
    {
        self.bytes.as_slice()
    }
}

impl Outlet for PieceOutlet {
    ghost use Rattle.std.specs.Prelude.{Some, IfOk, IsErr, min};
    ghost use Rattle.life_rle.specs.Stream.{Puts, incremented, count_after, is_err};

    ghost already = { λ s. Some s.bytes.items };

    ghost failures = { λ s. s.failures };

    ghost last_failed = { λ s. s.last_failed };

    fn put(&mut self, bytes: &[u8]) -> Result<usize, Failed>
        ensures within { IfOk result (λ k. k ≤ length bytes.now) }
        ensures some { IfOk result (λ k. 0 < length bytes.now → 0 < k) }
        ensures bytes { Puts (Some self.old.bytes.items) (Some self.new.bytes.items) result bytes.now }
        ensures count { self.new.failures ≡ count_after self.old.failures result }
        ensures last { self.new.last_failed ≡ is_err result }
        ensures made { self.new.calls ≡ incremented self.old.calls }
        // A call accepts a full piece, unless fewer bytes are offered.
        ensures piece { IfOk result (λ k. k ≡ min (length bytes.now) self.old.piece) }
        // Call `fail_at` fails. Another fails only if memory runs out, which no clause can say.
        ensures fails { self.old.fail_at ≡ Some self.new.calls → IsErr result }
        ensures same_piece { self.new.piece ≡ self.old.piece }
        ensures same_call { self.new.fail_at ≡ self.old.fail_at }
    {
        self.calls = self.calls.saturating_add(1);
        if self.fail_at == Some(self.calls) {
            self.failures = self.failures.saturating_add(1);
            self.last_failed = true;
            return Err(Failed);
        }
        let k = bytes.len().min(self.piece);
        match self.bytes.extend_from_slice(&bytes[..k]) {
            Ok(()) => {
                self.last_failed = false;
                Ok(k)
            }
            Err(_) => {
                self.failures = self.failures.saturating_add(1);
                self.last_failed = true;
                Err(Failed)
            }
        }
    }
}
