//! Faults of reading and writing a pattern file.
ghost use Rattle.std.specs.Prelude.{◌≡◌};
ghost use Rattle.life_rle.specs.declared.rle_fault.RleFault.TheVariants.{Memory};
ghost use Rattle.life_rle.specs.RleFault.{fault_of_rule};

use life_core::{Fault, RuleFault};
use std::alloc::{AllocError, AllocFailed};

/// Why a file was not read, in the order in which the faults are checked. The body's four are checked item by item.
#[derive(Clone, Copy, Debug, PartialEq, Eq)]
pub enum RleFault {
    /// The file has more than 1,048,576 bytes.
    TooLong = 1,
    /// A text has more than 200 bytes, or there are more than 64 comments. A rule's text has no limit.
    TextLimit = 2,
    /// There is no header line, or it does not begin with `x`.
    NoHeader = 3,
    /// The header does not have its form.
    BadHeader = 4,
    /// The rule text does not have the form of a rule.
    BadRule = 5,
    /// The rule has 0 among its births.
    BirthZero = 6,
    /// An item's byte is not `b`, `o`, `$` or `!`.
    OtherTag = 7,
    /// A count is 0 or over 1,000,000, or comes before `!` or at the end of the file.
    BadCount = 8,
    /// A live cell is beyond the first 1,024 columns or rows.
    TooWide = 9,
    /// The body ends without `!`.
    NoEnd = 10,
    /// Out of memory. It can occur at any point.
    Memory = 11,
}

impl RleFault {
    ghost use Rattle.life_rle.specs.RleFault.{fault_number, fault_name};

    /// The fault's number, which the HTTP interface gives as `rle`.
    pub fn number(self) -> u8
        ensures { result ≡ fault_number self }
    {
        self as u8
    }

    /// The name that messages of programs give, such as `no-header`.
    pub fn name(self) -> &'static str
        ensures { result.now ≡ fault_name self }
    {
        match self {
            RleFault::TooLong => "too-long",
            RleFault::TextLimit => "text-limit",
            RleFault::NoHeader => "no-header",
            RleFault::BadHeader => "bad-header",
            RleFault::BadRule => "bad-rule",
            RleFault::BirthZero => "birth-zero",
            RleFault::OtherTag => "other-tag",
            RleFault::BadCount => "bad-count",
            RleFault::TooWide => "too-wide",
            RleFault::NoEnd => "no-end",
            RleFault::Memory => "memory",
        }
    }
}

impl From<AllocError> for RleFault {
    ghost from_gives = { λ _ e. e ≡ Memory };

    fn from(_error: AllocError) -> RleFault {
        RleFault::Memory
    }
}

impl<T: Drop> From<AllocFailed<T>> for RleFault {
    ghost from_gives = { λ _ e. e ≡ Memory };

    fn from(_error: AllocFailed<T>) -> RleFault {
        RleFault::Memory
    }
}

impl From<Fault> for RleFault {
    ghost from_gives = { λ _ e. e ≡ Memory };

    fn from(_fault: Fault) -> RleFault {
        RleFault::Memory
    }
}

impl From<RuleFault> for RleFault {
    ghost from_gives = { λ fault e. e ≡ fault_of_rule fault };

    fn from(fault: RuleFault) -> RleFault {
        match fault {
            RuleFault::BadRule => RleFault::BadRule,
            RuleFault::BirthZero => RleFault::BirthZero,
        }
    }
}

/// Why a file was not read from a stream.
#[derive(Clone, Copy, Debug, PartialEq, Eq)]
pub enum ReadFault {
    /// The file is faulty, however the stream cuts it into pieces, or memory ran out.
    Rle(RleFault),
    /// A read from the stream failed.
    Unreadable,
}

impl ReadFault {
    ghost use Rattle.life_rle.specs.RleFault.{read_fault_number};

    /// The file's fault as 1 to 11, or 12 if a read failed.
    pub fn number(self) -> u8
        ensures { result ≡ read_fault_number self }
    {
        match self {
            ReadFault::Rle(fault) => fault.number(),
            ReadFault::Unreadable => 12,
        }
    }
}

/// Why the text of a record was not written completely.
#[derive(Clone, Copy, Debug, PartialEq, Eq)]
pub enum WriteFault {
    /// A write failed. A prefix of the text was written before it.
    Unwritable = 1,
    /// Out of memory. No byte was written.
    Memory = 2,
}

impl WriteFault {
    ghost use Rattle.life_rle.specs.RleFault.{write_fault_number};

    /// The fault's number, from 1 on.
    pub fn number(self) -> u8
        ensures { result ≡ write_fault_number self }
    {
        self as u8
    }
}
