//! Deposits and censuses as values.

ghost use Rattle.std.specs.Prelude.{◌≡◌};

use life_rle::{Record, Text};
use std::marker::Model;

/// A pattern file, with the member and the token of the request that stored it.
#[derive(Debug, Drop)]
pub struct Deposit {
    /// The member's name.
    pub member: Text,
    /// The member's token. No two deposits that were added after a lookup share member and token.
    pub token: Text,
    /// The name, author, comments, rule and live cells of the file.
    pub content: Record,
}

/// A census: which generation of which deposit was counted, with the member and the token of the request. Its tally is
/// stored separately.
#[derive(Debug, Drop)]
pub struct Census {
    /// The member's name.
    pub member: Text,
    /// The member's token. Tokens of censuses and of deposits are independent.
    pub token: Text,
    /// The number of the deposit.
    pub deposit: u64,
    /// The generation that was counted.
    pub generation: u32,
    /// The longest period that was searched for when its clusters got their codes.
    pub limit: u32,
}

/// A census, and the numbers of its tally. The tally's rows are read by `rows_and_flag_of`, or
/// without the flag by `rows_of`.
#[derive(Debug, Drop)]
pub struct KeptCensus {
    /// The census.
    pub census: Census,
    /// How many clusters have no code.
    pub unresolved: u64,
    /// How many clusters there are.
    pub total: u64,
}

/// A line of a list of deposits.
#[derive(Debug, Drop)]
pub struct Listed {
    /// The deposit's number, from 1.
    pub id: u64,
    /// The member's name.
    pub member: Text,
    /// How many live cells it has.
    pub population: u64,
    /// The canonical text of its rule.
    pub rule: Text,
}

/// Lines of a list of deposits, by number.
#[derive(Debug, Drop)]
pub struct Listing {
    lines: Vec<Listed>,
}

impl Model for Listing {
    ghost use Rattle.std.specs.Prelude.{List};
    ghost use Rattle.life_store.specs.declared.kept.Listed.{Listed};

    ghost Value = { List Listed };

    ghost view = { λ t. t.lines.items };
}

impl Listing {
    /// A listing of these lines, which a query returned in ascending order of number.
    pub(crate) fn of(lines: Vec<Listed>) -> Listing
        ensures { result ≡ lines.items }
    {
        Listing { lines }
    }

    /// The lines, in ascending order of number.
    pub fn as_slice(&self) -> &[Listed]
        ensures { result.now ≡ self.now }
    {
        self.lines.as_slice()
    }
}
