//! Streams in memory. Only tests use them.
ghost use Rattle.std.specs.Prelude.{◌≡◌, [], Some, false};

use crate::stream::{Failed, Inlet, Outlet};
use std::alloc::{Allocator, Global};

/// An input that reads from a slice and never fails.
#[derive(Drop)]
pub struct SliceInlet<'a> {
    left: &'a [u8],
    takes: u64,
    last_take: usize,
    ends: u64,
}

impl<'a> SliceInlet<'a> {
    /// The input of these bytes.
    pub fn new(bytes: &'a [u8]) -> SliceInlet<'a>
        ensures to_come { ⟦<SliceInlet<'static> as Inlet>⟧.to_come result ≡ Some bytes.now }
        ensures none_taken { ⟦<SliceInlet<'static> as Inlet>⟧.takes result ≡ 0 }
        ensures not_ended { ⟦<SliceInlet<'static> as Inlet>⟧.ends result ≡ 0 }
    {
        SliceInlet {
            left: bytes,
            takes: 0,
            last_take: 0,
            ends: 0,
        }
    }
}

impl<'a> Inlet for SliceInlet<'a> {
    ghost to_come = { λ s. Some s.left.now };

    ghost takes = { λ s. s.takes };

    ghost last_take = { λ s. s.last_take };

    ghost failures = { λ _. 0 };

    ghost ends = { λ s. s.ends };

    fn take(&mut self, space: &mut [u8]) -> Result<usize, Failed> {
        self.takes = self.takes.saturating_add(1);
        let k = self.left.len().min(space.len());
        let (now, later) = self.left.split_at(k);
        space[..k].copy_from_slice(now);
        self.left = later;
        self.last_take = k;
        self.ends = self.ends.saturating_add(u64::from(k == 0));
        Ok(k)
    }
}

/// An output that collects all bytes in memory. It fails if memory runs out.
#[derive(Drop)]
pub struct MemoryOutlet<A: Allocator = Global> {
    bytes: Vec<u8, A>,
    failures: u64,
    last_failed: bool,
}

impl<A: Allocator> MemoryOutlet<A> {
    /// The output before the first write.
    pub fn new(alloc: A) -> MemoryOutlet<A>
        ensures bytes { ⟦<MemoryOutlet<A> as Outlet>⟧.already result ≡ Some [] }
        ensures none_failed { ⟦<MemoryOutlet<A> as Outlet>⟧.failures result ≡ 0 }
        ensures not_failed { ⟦<MemoryOutlet<A> as Outlet>⟧.last_failed result ≡ false }
    {
        MemoryOutlet {
            bytes: Vec::new(alloc),
            failures: 0,
            last_failed: false,
        }
    }

    /// All bytes written so far.
    pub fn bytes(&self) -> &[u8]
        ensures { ⟦<MemoryOutlet<A> as Outlet>⟧.already self.now ≡ Some result.now }
    {
        &self.bytes
    }
}

impl<A: Allocator> Outlet for MemoryOutlet<A> {
    ghost already = { λ s. Some s.bytes.items };

    ghost failures = { λ s. s.failures };

    ghost last_failed = { λ s. s.last_failed };

    fn put(&mut self, bytes: &[u8]) -> Result<usize, Failed> {
        match self.bytes.extend_from_slice(bytes) {
            Ok(()) => {
                self.last_failed = false;
                Ok(bytes.len())
            }
            Err(_) => {
                self.failures = self.failures.saturating_add(1);
                self.last_failed = true;
                Err(Failed)
            }
        }
    }
}
