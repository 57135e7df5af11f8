//! Finding the next HTTP message in the bytes received so far.
ghost use Rattle.std.specs.Prelude.{◌≡◌, ◌==◌, ◌||◌};
ghost use Rattle.life_pages.specs.Message.{are_line_breaks};
ghost use Rattle.life_pages.specs.MessageState.{IsNext};

use crate::head::{GoodHead, HeadRead, read_head};

/// The most bytes of a head: 8 KiB.
pub(crate) const HEAD_LIMIT: usize = 8192;

/// The message at the front of the held bytes.
#[derive(Drop)]
pub(crate) enum Next<'b> {
    /// More bytes are needed: at least this many in all, or 0 if that is not known yet.
    More(usize),
    /// A bad message, whatever follows.
    Bad,
    /// A valid message that is held completely, with its body.
    Whole(GoodHead<'b>),
}

/// Whether all bytes are CR or LF, which may come before a request line.
pub(crate) fn are_blank(held: &[u8]) -> bool
    ensures { result ≡ are_line_breaks held.now }
{
    held.iter().all(|b| *b == b'\r' || *b == b'\n')
}

/// Finds the message at the front of the held bytes. Only the first 8 KiB may be its head.
pub(crate) fn next_message(held: &[u8]) -> Next<'_>
    ensures { IsNext held.now result }
{
    if are_blank(held) {
        return Next::More(0);
    }
    let front = &held[..held.len().min(HEAD_LIMIT)];
    match read_head(front) {
        HeadRead::Bad => Next::Bad,
        HeadRead::More => {
            if held.len() < HEAD_LIMIT {
                Next::More(0)
            } else {
                Next::Bad
            }
        }
        HeadRead::Whole(head) => {
            if ((held.len() - head.len) as u64) < head.body {
                Next::More(head.len.saturating_add(head.body as usize))
            } else {
                Next::Whole(head)
            }
        }
    }
}
