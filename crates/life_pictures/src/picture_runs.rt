//! The longest runs of live cells in each row, and the path that fills them.
ghost use Rattle.std.specs.Prelude.{◌≡◌, ◌++◌, map, OnOk, IfOk};
ghost use Rattle.std.specs.List.{All, flat_map};
ghost use Rattle.life_rle.specs.Writer.{coordinates, IsQuarterCell, IsQuarterRun};
ghost use Rattle.life_pictures.specs.PictureRuns.{run_path, runs_of};
ghost use Rattle.life_pictures.specs.PictureRunsState.{drawn};

use crate::numbers::put_numbered;
use life_core::Runs;
use std::alloc::{AllocError, Allocator};

/// Adjacent live cells of a row, as they are drawn: no coordinate is negative.
#[derive(Clone, Copy)]
pub struct Run {
    pub column: u64,
    pub row: u64,
    pub length: u64,
}

impl Run {
    /// The run of a normal pattern, as it is drawn.
    fn of(run: life_core::Run) -> Run
        requires { IsQuarterRun run }
        ensures { result ≡ drawn run }
    {
        Run {
            column: run.first as u64,
            row: run.row as u64,
            length: u64::from(run.len),
        }
    }
}

/// Writes the rectangle around a run, such as `M1 0h3v1h-3z`.
#[tactic(auto, unfolding(crate::specs::PictureRuns::run_path))]
fn put_rectangle<A: Allocator>(out: &mut Vec<u8, A>, run: Run) -> Result<(), AllocError>
    ensures { OnOk result (out.new.items ≡ out.old.items ++ run_path run) }
{
    put_numbered(out, b"M", run.column)?;
    put_numbered(out, b" ", run.row)?;
    put_numbered(out, b"h", run.length)?;
    put_numbered(out, b"v1h-", run.length)?;
    out.extend_from_slice(b"z")?;
    Ok(())
}

/// Writes the rectangles of the longest runs of cells, which are in the order of rows and columns.
pub fn put_path<A: Allocator>(out: &mut Vec<u8, A>, cells: &Runs<A>) -> Result<(), AllocError>
    requires { All IsQuarterCell cells.now }
    ensures { OnOk result (out.new.items ≡ out.old.items ++ flat_map run_path (runs_of (map coordinates cells.now))) }
{
    for run in cells.runs() {
        put_rectangle(out, Run::of(*run))?;
    }
    Ok(())
}
