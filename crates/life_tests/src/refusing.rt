//! An allocator that fails once, so that a test can fail each allocation of a call in turn.
ghost use Rattle.std.specs.Prelude.{◌<◌};

use std::alloc::{AllocError, Allocator, Global};
use std::cell::Cell;

/// An allocator that refuses one allocation, and passes on every other call.
///
/// Tests pass a `&Refusing`, which is an allocator and `Copy`. Growing or shrinking a block counts as an allocation.
#[derive(Drop)]
pub struct Refusing<A: Allocator = Global> {
    inner: A,
    // How many allocations are left up to and including the one to refuse; 0 once it was refused.
    left: Cell<u64>,
}

impl<A: Allocator> Refusing<A> {
    /// Refuses the allocation of this number, counted from 1.
    pub fn new(inner: A, refused: u64) -> Refusing<A>
        requires { 0 < refused }
    {
        Refusing {
            inner,
            left: Cell::new(refused),
        }
    }

    /// Refuses the allocation of this number from now on, counted from 1.
    pub fn refuse(&self, refused: u64)
        requires { 0 < refused }
    {
        self.left.set(refused);
    }

    /// Whether the allocation to refuse was refused.
    pub fn has_refused(&self) -> bool {
        self.left.get() == 0
    }
}

// Counts an allocation, and returns whether it is the one to refuse.
fn is_refused(left: &Cell<u64>) -> bool {
    let growths = left.get();
    left.set(growths.saturating_sub(1));
    growths == 1
}

unsafe impl<A: Allocator> Allocator for Refusing<A> {
    ghost dealloc_token = { λ refusing ty ptr. A.dealloc_token refusing.inner ty ptr };

    fn allocate(&self, size: usize, align: usize) -> Result<*mut u8, AllocError> {
        if is_refused(&self.left) {
            return Err(AllocError);
        }
        self.inner.allocate(size, align)
    }

    unsafe fn deallocate(&self, ptr: *mut u8, size: usize, align: usize) {
        self.inner.deallocate(ptr, size, align);
    }
}

#[cfg(test)]
mod tests {
    use super::*;

    // Nine numbers need three allocations: the vector grows to a capacity of 4, 8 and 16.
    fn below_nine<A: Allocator + Copy>(alloc: A) -> Result<Vec<u64, A>, AllocError> {
        let mut numbers = Vec::new(alloc);
        for number in 0..9 {
            numbers.push(number)?;
        }
        Ok(numbers)
    }

    // Whether the nine numbers fit into memory whose allocation with this number is refused, and whether it was
    // refused.
    fn answers(alloc: Global, refused: u64) -> (bool, bool)
        requires { 0 < refused }
    {
        let refusing = Refusing::new(alloc, refused);
        let comes = below_nine(&refusing).is_ok();
        (comes, refusing.has_refused())
    }

    #[test]
    fn each_growth_of_a_vector_can_be_refused(rt: HostRuntime) {
        for refused in 1..4 {
            assert!(rt; answers(rt.alloc(), refused) == (false, true));
        }
        assert!(rt; answers(rt.alloc(), 4) == (true, false));
    }

    #[test]
    fn one_growth_alone_is_refused(rt: HostRuntime) {
        let refusing = Refusing::new(rt.alloc(), 2);
        assert!(rt; Box::new(&refusing, 1u8).is_ok());
        assert!(rt; Box::new(&refusing, 2u8).is_err());
        assert!(rt; Box::new(&refusing, 3u8).is_ok());
        assert!(rt; refusing.has_refused());
    }
}
