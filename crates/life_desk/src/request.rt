//! Requests and replies.

use crate::bytes::Bytes;
use crate::refusal::Refusal;
use life_census::Tally;
use life_code::Kind;
use life_rle::Text;
use life_store::Listing;

/// A request to the archive. Numbers and bytes are not validated yet: [`answer`](crate::answer) does that.
/// Deposits and censuses have numbers, which count from 1.
#[derive(Drop)]
pub enum Request {
    /// Store a pattern file. The token makes the request safe to repeat: the same member and token with an equal
    /// record are the same deposit.
    Deposit {
        member: Text,
        token: Text,
        file: Bytes,
    },
    /// Read the file of a deposit.
    Show {
        id: u64,
    },
    /// List the deposits with a greater number.
    ListAfter {
        id: u64,
    },
    /// Read a generation of a deposit, 0 to 2048, as a file.
    At {
        id: u64,
        generation: u64,
    },
    /// Find the kind of a deposit under a limit on the period, 1 to 2048.
    KindOf {
        id: u64,
        limit: u64,
    },
    /// Take a census of a generation of a deposit, 0 to 2048, under a limit on the period, 1 to 2048, and store it.
    /// Tokens of censuses are independent of those of deposits.
    Census {
        member: Text,
        token: Text,
        deposit: u64,
        generation: u64,
        limit: u64,
    },
    /// Read a census with its tally.
    ShowCensus {
        id: u64,
    },
    /// Read the tally of a census as CSV.
    CensusCsv {
        id: u64,
    },
    /// Count the clusters with a code in all censuses of deposits with a rule. It takes the rule in any spelling, the
    /// code, and the limit on the period, 1 to 2048, under which the code has to be valid.
    Total {
        rule: Bytes,
        code: Bytes,
        limit: u64,
    },
}

/// A census with its tally and its flag, for a reply.
#[derive(Drop)]
pub struct Shown {
    /// Its number.
    pub census: u64,
    /// The number of its deposit.
    pub deposit: u64,
    /// Which generation of the deposit was counted.
    pub generation: u32,
    /// The limit on the period under which the clusters were coded.
    pub limit: u32,
    /// How many clusters have each code, how many have no code, and how many there are in all.
    pub tally: Tally,
    /// Whether the counted generation is steady: each cluster is a still life or an oscillator with a period within the
    /// limit, and the phases of different clusters never come near each other.
    pub steady: bool,
}

/// A reply to a request.
#[derive(Drop)]
pub enum Reply {
    /// The number of the deposit.
    Deposited(u64),
    /// A pattern file, in its canonical text.
    File(Bytes),
    /// At most 100 deposits, each by its number, member, population and rule.
    Deposits(Listing),
    /// The kind of a deposit, with its code if it has one.
    Kinded(Kind, Option<Bytes>),
    /// The number of the census.
    Counted(u64),
    /// A census with its tally.
    Shown(Shown),
    /// A tally as CSV.
    Csv(Bytes),
    /// A total over all censuses.
    Total(u64),
    /// The request was refused, for this reason.
    Refused(Refusal),
}
