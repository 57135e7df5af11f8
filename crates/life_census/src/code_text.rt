//! Codes as texts that need no quotes in CSV.
ghost use Rattle.std.specs.Prelude.{◌≡◌, true, IfOk};
ghost use Rattle.std.specs.List.{list_all};
ghost use Rattle.life_census.specs.CodeText.{is_code_byte};

use std::alloc::{AllocError, Allocator, Global};
use std::marker::Model;

/// The text of a code: lower-case letters, digits and `_`.
#[derive(Debug, Drop)]
pub struct CodeText<A: Allocator = Global> {
    bytes: Vec<u8, A>,
}

impl<A: Allocator> Model for CodeText<A> {
    ghost use Rattle.std.specs.Prelude.{◌≡◌, true, ℕ, List};
    ghost use Rattle.std.specs.List.{list_all};
    ghost use Rattle.life_census.specs.CodeText.{is_code_byte};

    ghost Value = { List ℕ };

    ghost view = { λ t. t.bytes.items };

    ghost invariant = { λ t. list_all is_code_byte t.bytes.items ≡ true };
}

impl<A: Allocator> CodeText<A> {
    /// Copies the bytes.
    pub fn from_slice(alloc: A, bytes: &[u8]) -> Result<CodeText<A>, AllocError>
        requires { list_all is_code_byte bytes.now ≡ true }
        ensures { IfOk result (λ t. t ≡ bytes.now) }
    {
        Ok(CodeText {
            bytes: Vec::from_slice(alloc, bytes)?,
        })
    }

    /// The code's bytes: lower-case letters, digits and `_`.
    pub fn as_bytes(&self) -> &[u8]
        ensures bytes { result.now ≡ self.now }
        ensures plain { list_all is_code_byte result.now ≡ true }
    {
        self.bytes.as_slice()
    }
}

/// Checks only the characters: the text need not be the code of any object.
pub fn is_code_text(bytes: &[u8]) -> bool
    ensures { result ≡ list_all is_code_byte bytes.now }
{
    bytes.iter().all(|byte| is_code_byte(*byte))
}

fn is_code_byte(byte: u8) -> bool
    ensures { result ≡ is_code_byte byte }
{
    matches!(byte, b'a'..=b'z' | b'0'..=b'9' | b'_')
}
