//! Running jobs over streams in memory: in one piece, byte by byte, and with a read or a write that fails.
ghost use Rattle.std.specs.Prelude.{◌<◌};

use life_jobs::Stop;
use life_rle::{PieceInlet, PieceOutlet};
use std::alloc::{AllocError, Global};

/// How a stream moves its bytes.
#[derive(Clone, Copy, Debug)]
pub enum Flow {
    /// All bytes in one piece.
    Whole,
    /// Byte by byte.
    Bytewise,
    /// Byte by byte, and the read with this number fails.
    Unreadable(u64),
    /// Byte by byte, and the write after the expected output fails.
    Unwritable,
}

impl Flow {
    /// The most bytes of a read or a write.
    fn piece(self) -> usize
        ensures { 0 < result }
    {
        match self {
            Flow::Whole => usize::MAX,
            _ => 1,
        }
    }

    /// An input with these bytes.
    pub fn inlet(self, alloc: Global, bytes: &[u8]) -> Result<PieceInlet, AllocError> {
        let fails = match self {
            Flow::Unreadable(take) => Some(take),
            _ => None,
        };
        Ok(PieceInlet::new(bytes.to_vec(alloc)?, self.piece(), fails))
    }

    /// An output for these bytes. An unwritable one fails after them.
    pub fn outlet(self, alloc: Global, bytes: &[u8]) -> PieceOutlet {
        let fails = match self {
            Flow::Unwritable => Some((bytes.len() as u64).saturating_add(1)),
            _ => None,
        };
        PieceOutlet::new(alloc, self.piece(), fails)
    }
}

/// How a job over a file ends.
#[derive(Clone, Copy, Debug)]
pub enum End {
    /// It writes this, both in one piece and byte by byte.
    Done(&'static str),
    /// It stops and writes nothing, both in one piece and byte by byte.
    Stopped(Stop),
    /// It stops because the read with this number fails, and writes nothing.
    Unreadable(u64),
    /// It writes this, and stops because the next write fails.
    Unwritable(&'static str),
}

impl End {
    fn answer(self) -> Result<(), Stop> {
        match self {
            End::Done(_) => Ok(()),
            End::Stopped(stop) => Err(stop),
            End::Unreadable(_) => Err(Stop::Unreadable),
            End::Unwritable(_) => Err(Stop::Unwritable),
        }
    }

    /// The expected output.
    fn put(self) -> &'static str {
        match self {
            End::Done(put) | End::Unwritable(put) => put,
            End::Stopped(_) | End::Unreadable(_) => "",
        }
    }
}

/// A job, the file on its input, and how the job ends.
pub type Run<J> = (J, &'static str, End);

/// Whether a job on such streams ends this way. If a number is out of range, the job may not read any input.
fn ends_by<J: Copy, F: Fn(Global, J, &mut PieceInlet, &mut PieceOutlet) -> Result<(), Stop>>(
    alloc: Global,
    run: &F,
    row: &Run<J>,
    flow: Flow,
) -> bool
    requires { F.IsAlwaysCallable run.now }
{
    let (job, file, end) = *row;
    let Ok(mut input) = flow.inlet(alloc, file.as_bytes()) else {
        return false;
    };
    let mut output = flow.outlet(alloc, end.put().as_bytes());
    let answer = run(alloc, job, &mut input, &mut output);
    let is_untouched = answer != Err(Stop::OutOfLimit) || input.calls() == 0;
    answer == end.answer() && output.bytes() == end.put().as_bytes() && is_untouched
}

/// Whether a job ends this way, on the streams that this end needs.
fn ends<J: Copy, F: Fn(Global, J, &mut PieceInlet, &mut PieceOutlet) -> Result<(), Stop>>(
    alloc: Global,
    run: &F,
    row: &Run<J>,
) -> bool
    requires { F.IsAlwaysCallable run.now }
{
    match row.2 {
        End::Done(_) | End::Stopped(_) => {
            ends_by(alloc, run, row, Flow::Whole) && ends_by(alloc, run, row, Flow::Bytewise)
        }
        End::Unreadable(take) => ends_by(alloc, run, row, Flow::Unreadable(take)),
        End::Unwritable(_) => ends_by(alloc, run, row, Flow::Unwritable),
    }
}

/// The index of the first job that doesn't end as expected.
pub fn other_run<J: Copy, F: Fn(Global, J, &mut PieceInlet, &mut PieceOutlet) -> Result<(), Stop>>(
    alloc: Global,
    rows: &[Run<J>],
    run: F,
) -> Option<usize>
    requires { F.IsAlwaysCallable run }
{
    for (at, row) in rows.iter().enumerate() {
        if !ends(alloc, &run, row) {
            return Some(at);
        }
    }
    None
}
