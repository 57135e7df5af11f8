//! Failing each allocation of some calls in turn. The calls have to report out of memory, or succeed with less room,
//! and to succeed when they are repeated with memory.
ghost use Rattle.std.specs.Prelude.{◌<◌};

use crate::refusing::Refusing;
use life_core::Fault;
use std::alloc::Global;

/// More allocations than any of the calls makes.
const MANY: u64 = 1000;

/// Makes the calls with this allocation failing, and then with memory. Returns whether the calls got as far as this
/// allocation; `None` if a result was wrong.
fn refuse_one<F: Fn(&Refusing) -> Result<bool, Fault>>(
    alloc: Global,
    are_right: &F,
    number: u64,
) -> Option<bool>
    requires number { 0 < number }
    requires callable { F.IsAlwaysCallable are_right.now }
{
    let refusing = Refusing::new(alloc, number);
    let first = are_right(&refusing);
    let was_refused = refusing.has_refused();
    refusing.refuse(u64::MAX);
    let again = are_right(&refusing);
    let may_be = first == Ok(true) || first.is_err() && was_refused;
    if may_be && again == Ok(true) {
        Some(was_refused)
    } else {
        None
    }
}

/// Fails the first allocation of the calls, then the second, and so on, until each has failed once. An `Err` has the
/// number of the first one that led to a wrong result, or 1 if the calls make no allocations.
pub fn refuse_each<F: Fn(&Refusing) -> Result<bool, Fault>>(
    alloc: Global,
    are_right: &F,
) -> Result<(), u64>
    requires { F.IsAlwaysCallable are_right.now }
{
    for number in 1..MANY {
        match refuse_one(alloc, are_right, number) {
            Some(true) => {}
            Some(false) if number > 1 => return Ok(()),
            _ => return Err(number),
        }
    }
    Err(MANY)
}
