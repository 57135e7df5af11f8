//! Refusals of messages that never reach the archive, and the errors that stop serving a stream.
ghost use Rattle.std.specs.Prelude.{◌≡◌};

/// Why a message is refused before the archive is queried. Numbers continue after `life_desk::Refusal`.
#[derive(Clone, Copy, Debug, PartialEq, Eq)]
pub enum MessageRefusal {
    /// No route has the path.
    NoSuchRoute = 12,
    /// A route has the path, but wants another method.
    BadMethod = 13,
    /// The bytes are not a valid HTTP message within the limits. The stream ends after this refusal.
    BadMessage = 14,
}

/// All message refusals, in the order of their numbers.
pub const MESSAGE_REFUSALS: [MessageRefusal; 3] = [
    MessageRefusal::NoSuchRoute,
    MessageRefusal::BadMethod,
    MessageRefusal::BadMessage,
];

impl MessageRefusal {
    ghost use Rattle.life_pages.specs.PagesFault.{label_of};
    ghost use Rattle.life_pages.specs.Reply.{page_status};

    /// The number in replies (docs/API.md). Smaller numbers belong to the archive's refusals.
    pub fn number(self) -> u8
        ensures { result ≡ (label_of self).number }
    {
        self as u8
    }

    /// The name in replies (docs/API.md).
    pub fn name(self) -> &'static str
        ensures { result.now ≡ (label_of self).name }
    {
        match self {
            MessageRefusal::NoSuchRoute => "no-such-page",
            MessageRefusal::BadMethod => "bad-method",
            MessageRefusal::BadMessage => "bad-message",
        }
    }

    /// The HTTP status of the reply.
    pub fn status(self) -> u16
        ensures { result ≡ page_status self }
    {
        match self {
            MessageRefusal::NoSuchRoute => 404,
            MessageRefusal::BadMethod => 405,
            MessageRefusal::BadMessage => 400,
        }
    }
}

/// Why serving a stream stopped before its end.
#[derive(Clone, Copy, Debug, PartialEq, Eq)]
pub enum IoFault {
    /// Reading from the stream failed.
    Read = 1,
    /// Writing to the stream failed.
    Write = 2,
    /// The call would need more reads than its limit.
    TooManyReads = 3,
    /// Out of memory before the first read.
    Memory = 4,
}

impl IoFault {
    ghost use Rattle.life_pages.specs.PagesFault.{io_fault_number};

    /// The fault's number, from 1 on.
    pub fn number(self) -> u8
        ensures { result ≡ io_fault_number self }
    {
        self as u8
    }
}
