//! Why a job over an archive stops early, and the line that is printed for it.
ghost use Rattle.std.specs.Prelude.{◌≡◌};
ghost use Rattle.life_archive.specs.ArchiveStopLine.{line_of, connection_line};

use life_desk::Refusal;
use life_jobs::Stop;
use life_pages::IoFault;

/// Why a job over an archive stopped.
#[derive(Clone, Copy, Debug, PartialEq, Eq)]
pub enum ArchiveStop {
    /// A stop that jobs without an archive have too.
    Job(Stop),
    /// The archive refused the request.
    Desk(Refusal),
    /// The file is another program's database, or a later version's.
    NotOurs,
    /// The program can't listen at the port.
    NoPort,
}

impl ArchiveStop {
    /// The line for standard error, without its line end; empty to print no line.
    pub fn line(&self) -> &'static str
        ensures { result.now ≡ line_of self.now }
    {
        match self {
            ArchiveStop::Job(stop) => stop.line(),
            ArchiveStop::Desk(refusal) => refusal.line(),
            ArchiveStop::NotOurs => "refused: not-ours",
            ArchiveStop::NoPort => "refused: no-port",
        }
    }
}

/// The line for standard error if a connection failed, without its line end.
pub fn connection_line(fault: IoFault) -> &'static str
    ensures { result.now ≡ connection_line fault }
{
    match fault {
        IoFault::Read => "connection: read",
        IoFault::Write => "connection: write",
        IoFault::TooManyReads => "connection: too-many-reads",
        IoFault::Memory => "connection: memory",
    }
}
