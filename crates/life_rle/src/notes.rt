//! The texts in the `#` lines before the header.
ghost use Rattle.std.specs.Prelude.{◌≡◌, OnOk, IfOk, MatchResult};
ghost use Rattle.life_rle.specs.declared.rle_fault.RleFault.TheVariants.{Memory};
ghost use Rattle.std.specs.List.{list_any};
ghost use Rattle.life_rle.specs.Notes.{is_long_text, is_long};

use crate::rle_fault::RleFault;
use crate::rle_lines::LineKind;
use crate::text::{Text, Texts};
use std::alloc::{AllocError, Allocator};

/// The most bytes of a text.
const LONGEST_TEXT: usize = 200;
/// The most comments.
const MOST_COMMENTS: usize = 64;

/// The texts that the lines have given so far.
#[derive(Drop)]
pub(crate) struct Notes<A: Allocator> {
    pub(crate) name: Option<Text<A>>,
    pub(crate) author: Option<Text<A>>,
    pub(crate) comments: Texts<A>,
    pub(crate) rule: Option<Text<A>>,
}

impl<A: Allocator> Notes<A> {
    ghost use Rattle.life_rle.specs.RleLinesState.{kind_of};
    ghost use Rattle.life_rle.specs.Notes.{no_notes, with_comment, with_line, is_past_limit, notes};

    pub(crate) fn new(alloc: A) -> Notes<A>
        ensures { notes result ≡ no_notes }
    {
        Notes {
            name: None,
            author: None,
            comments: Texts::new(alloc),
            rule: None,
        }
    }

    /// Appends a comment.
    fn comment(&mut self, alloc: A, text: &[u8]) -> Result<(), AllocError>
        ensures { OnOk result (notes self.new ≡ with_comment (notes self.old) text.now) }
    {
        self.comments.push(Text::from_slice(alloc, text)?)
    }

    /// Adds the text of a line before the header. Later names and authors become comments, and later rules are ignored.
    pub(crate) fn line(&mut self, alloc: A, kind: LineKind<'_>) -> Result<(), AllocError>
        ensures { OnOk result (notes self.new ≡ with_line (notes self.old) (kind_of kind.entry)) }
    {
        match kind {
            LineKind::Passed | LineKind::Header => Ok(()),
            LineKind::Name(text) | LineKind::Author(text) if text.is_empty() => Ok(()),
            LineKind::Name(text) if self.name.is_none() => {
                self.name = Some(Text::from_slice(alloc, text)?);
                Ok(())
            }
            LineKind::Author(text) if self.author.is_none() => {
                self.author = Some(Text::from_slice(alloc, text)?);
                Ok(())
            }
            LineKind::Name(text) | LineKind::Author(text) | LineKind::Comment(text) => {
                self.comment(alloc, text)
            }
            LineKind::Rule(text) => {
                if !text.is_empty() && self.rule.is_none() {
                    self.rule = Some(Text::from_slice(alloc, text)?);
                }
                Ok(())
            }
        }
    }

    /// Whether a text is too long or there are too many comments.
    pub(crate) fn is_past_limit(&self) -> bool
        ensures { result ≡ is_past_limit (notes self.now) }
    {
        is_long(&self.name)
            || is_long(&self.author)
            || has_long(self.comments.as_slice())
            || self.comments.as_slice().len() > MOST_COMMENTS
    }
}

/// Whether one of the texts is too long.
fn has_long<A: Allocator>(texts: &[Text<A>]) -> bool
    ensures { result ≡ list_any is_long texts.now }
{
    texts
        .iter()
        .any(|text| text.as_bytes().len() > LONGEST_TEXT)
}

/// Whether there is a text and it is too long.
fn is_long<A: Allocator>(text: &Option<Text<A>>) -> bool
    ensures { result ≡ is_long_text text.now }
{
    match text {
        None => false,
        Some(text) => text.as_bytes().len() > LONGEST_TEXT,
    }
}
