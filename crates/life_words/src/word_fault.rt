//! The faults that end a program before it has a job.
ghost use Rattle.std.specs.Prelude.{◌≡◌};
ghost use Rattle.life_words.specs.WordFault.{number_of, ComesFrom};

use clap::Error;
use clap::error::ErrorKind;
use std::alloc::AllocError;

/// Why the arguments don't give a job. For `--help` and `--version` `clap` reports their text as an error too.
#[derive(Drop)]
pub enum WordFault {
    /// A usage error, or a request for help or the version, with clap's text. Without an error, nothing is printed.
    BadWords(Option<Error>),
    /// Out of memory.
    Memory,
}

impl WordFault {
    /// 1 for a usage error or a request for help, 2 for out of memory.
    pub fn number(&self) -> u8
        ensures { result ≡ number_of self.now }
    {
        match self {
            WordFault::BadWords(_) => 1,
            WordFault::Memory => 2,
        }
    }
}

impl From<AllocError> for WordFault {
    ghost use Rattle.life_words.specs.declared.word_fault.WordFault.TheVariants.{Memory};

    ghost from_gives = { λ _ fault. fault ≡ Memory };

    fn from(_error: AllocError) -> WordFault {
        WordFault::Memory
    }
}

impl From<Error> for WordFault {
    ghost from_gives = { ComesFrom };

    fn from(error: Error) -> WordFault {
        match error.kind() {
            ErrorKind::OutOfMemory => WordFault::Memory,
            _ => WordFault::BadWords(Some(error)),
        }
    }
}
