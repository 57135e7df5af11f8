//! The faults of [`open_code`](crate::open_code).
ghost use Rattle.std.specs.Prelude.{◌≡◌};

use life_core::Fault;
use std::alloc::AllocError;

/// Why a code can't be opened. `NotWithinLimit` is checked before `NotCanonical`.
#[derive(Clone, Copy, Debug, PartialEq, Eq)]
pub enum CodeFault {
    /// It does not consist of a prefix, a number, `_` and a Wechsler text.
    BadText = 1,
    /// The pattern that it spells has another code, or none.
    NotCanonical = 2,
    /// The pattern that it spells does not return within the limit.
    NotWithinLimit = 3,
    /// Out of memory.
    Memory = 4,
}

impl CodeFault {
    ghost use Rattle.life_code.specs.CodeFault.{label_of};

    /// The number that clients see.
    pub fn number(self) -> u8
        ensures { result ≡ (label_of self).number }
    {
        self as u8
    }

    /// The name that clients see, such as `bad-text`.
    pub fn name(self) -> &'static str
        ensures { result.now ≡ (label_of self).name }
    {
        match self {
            CodeFault::BadText => "bad-text",
            CodeFault::NotCanonical => "not-canonical",
            CodeFault::NotWithinLimit => "not-within-limit",
            CodeFault::Memory => "memory",
        }
    }
}

impl From<AllocError> for CodeFault {
    ghost use Rattle.life_code.specs.declared.code_fault.CodeFault.TheVariants.{Memory};

    ghost from_gives = { λ _ fault. fault ≡ Memory };

    fn from(_error: AllocError) -> CodeFault {
        CodeFault::Memory
    }
}

impl From<Fault> for CodeFault {
    ghost use Rattle.life_code.specs.declared.code_fault.CodeFault.TheVariants.{Memory};

    ghost from_gives = { λ _ fault. fault ≡ Memory };

    fn from(_fault: Fault) -> CodeFault {
        CodeFault::Memory
    }
}
