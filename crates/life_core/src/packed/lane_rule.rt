//! Rules in a form that evolves several words of a row at once.
ghost use Rattle.std.specs.Prelude.{◌≡◌};
ghost use Rattle.life_core.specs.Rule.{RuleSets, life};
ghost use Rattle.life_core.specs.PackedLanesState.{AreNextLanes};

use crate::packed::lanes::{carry, odd};
use std::simd::prelude::*;

/// A form of a rule, for any number of words that evolve at once.
pub(crate) trait Evolves {
    // It is a form of this rule.
    ghost is_of: { Self → RuleSets → Type 0 };
}

/// A form of a rule with which `N` words of a row evolve at once.
pub(crate) trait LaneRule<const N: usize>: Evolves {
    /// The places that are live next. The other arguments are sums of two binary digits: of the three places above, of
    /// the two neighbours in the row (`sides`), and of the three places below.
    fn next_lanes(
        &self,
        here: Simd<u64, N>,
        above: Simd<u64, N>,
        above2: Simd<u64, N>,
        sides: Simd<u64, N>,
        sides2: Simd<u64, N>,
        below: Simd<u64, N>,
        below2: Simd<u64, N>,
    ) -> Simd<u64, N>
        ensures { (r : RuleSets) → Self.is_of self.now r → AreNextLanes r N here.entry above.entry above2.entry sides.entry sides2.entry below.entry below2.entry result };
}

/// Conway's Life, by a shorter formula: the count is 2 or 3 exactly when one of the four bits of value 2 is set.
#[derive(Clone, Copy)]
pub(crate) struct ConwayLife;

impl Evolves for ConwayLife {
    ghost is_of = { λ s r. r ≡ life };
}

impl<const N: usize> LaneRule<N> for ConwayLife {
    #[inline(always)]
    fn next_lanes(
        &self,
        here: Simd<u64, N>,
        above: Simd<u64, N>,
        above2: Simd<u64, N>,
        sides: Simd<u64, N>,
        sides2: Simd<u64, N>,
        below: Simd<u64, N>,
        below2: Simd<u64, N>,
    ) -> Simd<u64, N>
        ensures { (r : RuleSets) → r ≡ life → AreNextLanes r N here.entry above.entry above2.entry sides.entry sides2.entry below.entry below2.entry result }
    {
        let ones = odd(above, sides, below);
        let more = carry(above, sides, below);
        let some = (above2 ^ sides2) ^ (below2 ^ more);
        let two = (above2 & sides2) | (below2 & more);
        (some ^ (some & two)) & (ones | here)
    }
}
