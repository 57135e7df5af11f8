//! Laws about the values of this crate's constants.
ghost use Rattle.std.specs.Prelude.{◌≡◌, ◌∷◌, []};
ghost use Rattle.life_core.specs.declared.orientation.TheConstants.Orientation.{ALL};
ghost use Rattle.life_core.specs.declared.orientation.Orientation.TheVariants.{O0, O1, O2, O3, O4, O5, O6, O7};
ghost use Rattle.life_core.specs.Rule.{life};

use crate::cell::PLANE;
use crate::generations::{GENERATION_LIMIT, PACKED_LIMIT};
use crate::orientation::Orientation;
use crate::rule::Rule;

/// The values of the crate's constants. A law: calling it does nothing.
pub fn laws_of_constants()
    ensures orientations { ALL ≡ O0 ∷ O1 ∷ O2 ∷ O3 ∷ O4 ∷ O5 ∷ O6 ∷ O7 ∷ [] }
    ensures plane { PLANE ≡ 1_000_000_000 }
    ensures generations { GENERATION_LIMIT ≡ 2048 }
    ensures packed { PACKED_LIMIT ≡ 16_384 }
{}

/// `Rule::LIFE` is Conway's Life, born at three neighbours and staying live at two or three. No clause can name a constant of a type with a
/// model, so the law returns it.
pub fn law_of_life() -> Rule
    ensures { result ≡ life }
{
    Rule::LIFE
}
