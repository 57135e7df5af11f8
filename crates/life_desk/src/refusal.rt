//! Refusals: the enum, and a table with each one's number, name and HTTP status.
ghost use Rattle.std.specs.Prelude.{◌≡◌, ◌≤◌, ◌<◌};
ghost use Rattle.life_desk.specs.Refusals.{EachIsListed};

use life_rle::RleFault;
use std::alloc::AllocError;

/// Why a request is refused. If several reasons apply, the first in this order is given: member, token, limits,
/// pattern (or rule and then code), the row that is referred to, the stored token, full.
#[derive(Clone, Copy, Debug, PartialEq, Eq)]
pub enum Refusal {
    /// No deposit has the number.
    NoSuchDeposit,
    /// No census has the number.
    NoSuchCensus,
    /// The member is not 1 to 32 bytes of `a-z`, `0-9` and `-`.
    BadMember,
    /// The token is not 1 to 64 bytes of `A-Z`, `a-z`, `0-9` and `-`.
    BadToken,
    /// Other content is stored under the member and the token.
    TokenReused,
    /// The generation is over 2048, or the limit on the period is 0 or over 2048.
    OutOfLimit,
    /// The file is not a valid pattern file, for this reason.
    BadPattern(RleFault),
    /// The text is not a rule.
    BadRule,
    /// The text is not a code under the rule and the limit.
    BadCode,
    /// The request would add a deposit or a census, and the archive already has as many as its capacity.
    Full,
    /// Memory or the store failed.
    Unavailable,
}

/// All refusals, in the order of their numbers. `BadPattern` is listed once, with any one fault of a file.
pub const REFUSALS: [Refusal; 11] = [
    Refusal::NoSuchDeposit,
    Refusal::NoSuchCensus,
    Refusal::BadMember,
    Refusal::BadToken,
    Refusal::TokenReused,
    Refusal::OutOfLimit,
    Refusal::BadPattern(RleFault::TooLong),
    Refusal::BadRule,
    Refusal::BadCode,
    Refusal::Full,
    Refusal::Unavailable,
];

/// A refusal's row in the table of docs/API.md.
#[derive(Clone, Copy)]
struct RefusalRow {
    number: u8,
    name: &'static str,
    line: &'static str,
    status: u16,
}

/// A row, by the number, the name and the status.
macro_rules! row {
    ($number:literal, $name:literal, $status:literal) => {
        RefusalRow {
            number: $number,
            name: $name,
            line: concat!("refused: ", $name),
            status: $status,
        }
    };
}

impl Refusal {
    ghost use Rattle.life_desk.specs.Refusals.{row_of, line_of, number_of, name_of, status_of};

    /// The refusal's number, name and status. The public calls below all read this table.
    const fn row(&self) -> RefusalRow
        ensures number { result.number ≡ (row_of self.now).number }
        ensures name { result.name.now ≡ (row_of self.now).name }
        ensures line { result.line.now ≡ line_of self.now }
        ensures status { result.status ≡ (row_of self.now).status }
        ensures error { (400 ≤ result.status) × (result.status < 600) }
    {
        match self {
            Refusal::NoSuchDeposit => row!(1, "no-such-deposit", 404),
            Refusal::NoSuchCensus => row!(2, "no-such-census", 404),
            Refusal::BadMember => row!(3, "bad-member", 400),
            Refusal::BadToken => row!(4, "bad-token", 400),
            Refusal::TokenReused => row!(5, "token-reused", 409),
            Refusal::OutOfLimit => row!(6, "out-of-limit", 400),
            Refusal::BadPattern(_) => row!(7, "bad-pattern", 422),
            Refusal::BadRule => row!(8, "bad-rule", 422),
            Refusal::BadCode => row!(9, "bad-code", 422),
            Refusal::Full => row!(10, "full", 409),
            Refusal::Unavailable => row!(11, "unavailable", 503),
        }
    }

    /// The number in replies, from 1 to 11 (docs/API.md).
    pub fn number(&self) -> u8
        ensures { result ≡ number_of self.now }
    {
        self.row().number
    }

    /// The name in replies (docs/API.md).
    pub fn name(&self) -> &'static str
        ensures { result.now ≡ name_of self.now }
    {
        self.row().name
    }

    /// The line on standard error, without its line end: `refused: `, and the name.
    pub fn line(&self) -> &'static str
        ensures { result.now ≡ line_of self.now }
    {
        self.row().line
    }

    /// The HTTP status (RFC 9110): 404 if the item doesn't exist, 400 for a malformed request, 409 for a conflict with
    /// the stored contents, 422 for an invalid pattern, rule or code, and 503 if the archive can't answer now.
    pub fn status(&self) -> u16
        ensures value { result ≡ status_of self.now }
        ensures error { (400 ≤ result) × (result < 600) }
    {
        self.row().status
    }
}

/// Each refusal has its row in [`REFUSALS`], at the index before its number. A law: calling it does nothing.
pub fn law_of_refusals()
    ensures { EachIsListed }
{}

impl From<AllocError> for Refusal {
    ghost use Rattle.life_desk.specs.declared.refusal.Refusal.TheVariants.{Unavailable};

    ghost from_gives = { λ _ refusal. refusal ≡ Unavailable };

    fn from(_error: AllocError) -> Refusal {
        Refusal::Unavailable
    }
}
