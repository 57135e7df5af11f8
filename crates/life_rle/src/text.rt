//! Texts of a record.
ghost use Rattle.std.specs.Prelude.{◌≡◌, ◌++◌, [], ◌∷◌, IfOk, OnOk, OnErr};

use std::alloc::{AllocError, Allocator, Global};
use std::marker::Model;

/// A text of a file: bytes that need not be UTF-8.
#[derive(Debug, Drop)]
pub struct Text<A: Allocator = Global> {
    bytes: Vec<u8, A>,
}

impl<A: Allocator> Model for Text<A> {
    ghost use Rattle.std.specs.Prelude.{ℕ, List};

    ghost Value = { List ℕ };

    ghost view = { λ t. t.bytes.items };
}

impl<A: Allocator> Text<A> {
    /// Copies the bytes. It checks no limit.
    pub fn from_slice(alloc: A, bytes: &[u8]) -> Result<Text<A>, AllocError>
        ensures { IfOk result (λ t. t ≡ bytes.now) }
    {
        Ok(Text {
            bytes: Vec::from_slice(alloc, bytes)?,
        })
    }

    /// The text's bytes. In a record they have no line feed.
    pub fn as_bytes(&self) -> &[u8]
        ensures { result.now ≡ self.now }
    {
        self.bytes.as_slice()
    }
}

/// Texts in the order of a file.
#[derive(Debug, Drop)]
pub struct Texts<A: Allocator = Global> {
    texts: Vec<Text<A>, A>,
}

impl<A: Allocator> Model for Texts<A> {
    ghost use Rattle.std.specs.Prelude.{ℕ, List};

    ghost Value = { List (List ℕ) };

    ghost view = { λ t. t.texts.items };
}

impl<A: Allocator> Texts<A> {
    /// No texts.
    pub fn new(alloc: A) -> Texts<A>
        ensures { result ≡ [] }
    {
        Texts {
            texts: Vec::new(alloc),
        }
    }

    /// The texts.
    pub fn as_slice(&self) -> &[Text<A>]
        ensures { result.now ≡ self.now }
    {
        self.texts.as_slice()
    }

    /// Appends a text.
    pub fn push(&mut self, text: Text<A>) -> Result<(), AllocError>
        ensures ok { OnOk result (self.new ≡ self.old ++ text ∷ []) }
        ensures err { OnErr result (self.new ≡ self.old) }
    {
        self.texts.push(text)?;
        Ok(())
    }
}
