//! The kind of a pattern: still life, oscillator, spaceship or unresolved.
ghost use Rattle.std.specs.Prelude.{◌≡◌};
ghost use Rattle.life_code.specs.Period.{kind_of_period};

/// How a pattern repeats, if it does so within a limit on the period.
#[derive(Clone, Copy, Debug, PartialEq, Eq)]
pub enum Kind {
    /// It has no cell.
    Empty,
    /// Each generation equals the one before.
    Still,
    /// It first returns in place after this many generations, 2 or more.
    Oscillator(u32),
    /// It first returns after this many generations, moved by these columns and rows.
    Ship(u32, i64, i64),
    /// It does not return within the limit; patterns that die are of this kind too.
    Unresolved,
}

/// One period moves the pattern `dx` columns to the right and `dy` rows down.
pub(crate) fn kind_of_period(period: u32, dx: i64, dy: i64) -> Kind
    ensures { result ≡ kind_of_period period dx dy }
{
    if dx != 0 || dy != 0 {
        Kind::Ship(period, dx, dy)
    } else if period == 1 {
        Kind::Still
    } else {
        Kind::Oscillator(period)
    }
}
