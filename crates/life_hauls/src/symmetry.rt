//! The symmetries of soups: the length of a row, and a mirror.
ghost use Rattle.std.specs.Prelude.{◌≡◌, ◌<◌};
ghost use Rattle.life_core.specs.Cell.{IsCellWithin};
ghost use Rattle.life_hauls.specs.Soups.{symmetry_name, symmetry_named, width, mirror, mirrored};

use life_core::Cell;

/// A symmetry of soups. The comments give the names that soup search programs use.
#[derive(Clone, Copy, Debug, PartialEq, Eq)]
pub enum Symmetry {
    /// `C1`: 16 rows of 16 cells.
    C1,
    /// `8x32`: 8 rows of 32 cells.
    EightRows,
    /// `4x64`: 4 rows of 64 cells.
    FourRows,
    /// `2x128`: 2 rows of 128 cells.
    TwoRows,
    /// `1x256`: a row of 256 cells.
    OneRow,
    /// `D2_+1`: the soup of `C1` with its mirror image, which has row y at row -y.
    D2Plus1,
    /// `D2_+2`: the soup of `C1` with its mirror image, which has row y at row -y - 1.
    D2Plus2,
}

/// The mirror of a symmetry.
#[derive(Clone, Copy, Debug, PartialEq, Eq)]
pub enum Mirror {
    /// On row 0, which stays: row y goes to row -y.
    OnRow,
    /// Between row -1 and row 0: row y goes to row -y - 1.
    BetweenRows,
}

impl Symmetry {
    /// One row of a table: the name, the number of cells in a row of the field, and the mirror, if any.
    fn row(self) -> (&'static str, usize, Option<Mirror>)
        ensures name { result.0.now ≡ symmetry_name self }
        ensures width { result.1 ≡ width self }
        ensures mirror { result.2 ≡ mirror self }
    {
        match self {
            Symmetry::C1 => ("C1", 16, None),
            Symmetry::EightRows => ("8x32", 32, None),
            Symmetry::FourRows => ("4x64", 64, None),
            Symmetry::TwoRows => ("2x128", 128, None),
            Symmetry::OneRow => ("1x256", 256, None),
            Symmetry::D2Plus1 => ("D2_+1", 16, Some(Mirror::OnRow)),
            Symmetry::D2Plus2 => ("D2_+2", 16, Some(Mirror::BetweenRows)),
        }
    }

    /// The name that soup search programs use, such as `D2_+1`.
    pub fn name(self) -> &'static str
        ensures { result.now ≡ symmetry_name self }
    {
        self.row().0
    }

    /// Reads a name. Case matters.
    pub fn named(name: &str) -> Option<Symmetry>
        ensures { result ≡ symmetry_named name.now }
    {
        match name {
            "C1" => Some(Symmetry::C1),
            "8x32" => Some(Symmetry::EightRows),
            "4x64" => Some(Symmetry::FourRows),
            "2x128" => Some(Symmetry::TwoRows),
            "1x256" => Some(Symmetry::OneRow),
            "D2_+1" => Some(Symmetry::D2Plus1),
            "D2_+2" => Some(Symmetry::D2Plus2),
            _ => None,
        }
    }

    /// The number of cells in a row of the field.
    pub(crate) fn width(self) -> usize
        ensures cells { result ≡ width self }
        ensures some { 0 < result }
    {
        self.row().1
    }

    /// `None` if no mirror image is added.
    pub(crate) fn mirror(self) -> Option<Mirror>
        ensures { result ≡ mirror self }
    {
        self.row().2
    }
}

impl Mirror {
    /// Maps row y to row -y or to row -y - 1.
    pub(crate) fn mirrored(self, cell: Cell) -> Cell
        requires { IsCellWithin 255 cell }
        ensures image { result ≡ mirrored self cell }
        ensures inside { IsCellWithin 256 result }
    {
        let Cell { row, column } = cell;
        match self {
            Mirror::OnRow => Cell { row: -row, column },
            Mirror::BetweenRows => Cell {
                row: -1 - row,
                column,
            },
        }
    }
}
