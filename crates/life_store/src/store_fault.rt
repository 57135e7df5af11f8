//! The errors of calls, and of opening an archive.

ghost use Rattle.std.specs.Prelude.{◌≡◌};

use life_core::Fault;
use life_rle::RleFault;
use sqlite::Error;
use std::alloc::AllocError;

/// The store or an allocation failed, or a row is one that no archive writes. If the database is healthy after the
/// call, the stored contents are the same.
#[derive(Clone, Copy, Debug, PartialEq, Eq)]
pub struct Unavailable;

impl From<AllocError> for Unavailable {
    fn from(_: AllocError) -> Unavailable {
        Unavailable
    }
}

impl From<Fault> for Unavailable {
    fn from(_: Fault) -> Unavailable {
        Unavailable
    }
}

impl From<RleFault> for Unavailable {
    fn from(_: RleFault) -> Unavailable {
        Unavailable
    }
}

impl From<Error> for Unavailable {
    fn from(_: Error) -> Unavailable {
        Unavailable
    }
}

/// Why an archive is not opened.
#[derive(Clone, Copy, Debug, PartialEq, Eq)]
pub enum OpenFault {
    /// The capacity is not from 1 to 1,000,000. It is checked first.
    BadCapacity = 1,
    /// Some of an archive's tables exist, but `layout` is missing or isn't one row with the right version. That is 2,
    /// or without a table of flags 1.
    NotOurs = 2,
    /// The store or an allocation failed, or the files hold no database; or an archive of schema version 1 has a row that no
    /// archive writes.
    Unavailable = 3,
}

impl OpenFault {
    ghost use Rattle.life_store.specs.StoreFault.{fault_number};

    /// The fault's number, from 1 on.
    pub fn number(self) -> u8
        ensures { result ≡ fault_number self }
    {
        self as u8
    }
}
