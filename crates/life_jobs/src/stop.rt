//! Why a job stops, and the line that is printed for it.
ghost use Rattle.std.specs.Prelude.{◌≡◌};
ghost use Rattle.life_jobs.specs.JobStop.{line_of};

use life_code::CodeFault;
use life_rle::RleFault;

/// Why a job over a pattern file or a code stopped. The process then ends with status 1.
#[derive(Clone, Copy, Debug, PartialEq, Eq)]
pub enum Stop {
    /// A number in the arguments is out of its range.
    OutOfLimit,
    /// Standard input is not a valid pattern file.
    BadPattern(RleFault),
    /// The rule in the arguments is not supported.
    BadRule,
    /// No object has the code in the arguments under this rule and limit.
    BadCode(CodeFault),
    /// Standard input failed.
    Unreadable,
    /// Out of memory.
    Unavailable,
    /// Standard output failed.
    Unwritable,
}

impl Stop {
    /// The line for standard error, without its line end. It is empty if standard output failed: then only the status
    /// reports it.
    pub fn line(&self) -> &'static str
        ensures { result.now ≡ line_of self.now }
    {
        match self {
            Stop::OutOfLimit => "refused: out-of-limit",
            Stop::BadPattern(RleFault::TooLong) => "refused: bad-pattern too-long",
            Stop::BadPattern(RleFault::TextLimit) => "refused: bad-pattern text-limit",
            Stop::BadPattern(RleFault::NoHeader) => "refused: bad-pattern no-header",
            Stop::BadPattern(RleFault::BadHeader) => "refused: bad-pattern bad-header",
            Stop::BadPattern(RleFault::BadRule) => "refused: bad-pattern bad-rule",
            Stop::BadPattern(RleFault::BirthZero) => "refused: bad-pattern birth-zero",
            Stop::BadPattern(RleFault::OtherTag) => "refused: bad-pattern other-tag",
            Stop::BadPattern(RleFault::BadCount) => "refused: bad-pattern bad-count",
            Stop::BadPattern(RleFault::TooWide) => "refused: bad-pattern too-wide",
            Stop::BadPattern(RleFault::NoEnd) => "refused: bad-pattern no-end",
            Stop::BadRule => "refused: bad-rule",
            Stop::BadCode(CodeFault::BadText) => "refused: bad-code bad-text",
            Stop::BadCode(CodeFault::NotCanonical) => "refused: bad-code not-canonical",
            Stop::BadCode(CodeFault::NotWithinLimit) => "refused: bad-code not-within-limit",
            Stop::Unreadable => "refused: unreadable",
            Stop::BadPattern(RleFault::Memory)
            | Stop::BadCode(CodeFault::Memory)
            | Stop::Unavailable => "refused: unavailable",
            Stop::Unwritable => "",
        }
    }
}
