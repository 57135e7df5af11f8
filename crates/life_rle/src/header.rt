//! The header line.
ghost use Rattle.std.specs.Prelude.{◌≡◌, MatchResult, Ok, Err, drop, codes};
ghost use Rattle.std.specs.Option.{option_copied};
ghost use Rattle.life_rle.specs.Header.{after_words, past_digits, after_number, rule_part, header_form, header_rule};
ghost use Rattle.life_rle.specs.HeaderState.{rule_copied};

use crate::rle_fault::RleFault;

/// The text after `words`, if it begins with them in letters of either case. The words are in lower case.
fn after_words<'a>(words: &[u8], text: &'a [u8]) -> Option<&'a [u8]>
    ensures { option_copied result ≡ after_words words.now text.now }
{
    let mut rest = text;
    for word in words {
        match rest {
            [] => return None,
            [first, after @ ..] => {
                if first.to_ascii_lowercase() != *word {
                    return None;
                }
                rest = after;
            }
        }
    }
    Some(rest)
}

/// The text without the digits at its front.
fn past_digits(text: &[u8]) -> &[u8]
    ensures { result.now ≡ past_digits text.now }
{
    let mut rest = text;
    while let [first, after @ ..] = rest {
        if !first.is_ascii_digit() {
            break;
        }
        rest = after;
    }
    rest
}

/// The text after a number, if it begins with one.
fn after_number(text: &[u8]) -> Option<&[u8]>
    ensures { option_copied result ≡ after_number text.now }
{
    match text {
        [first, after @ ..] if first.is_ascii_digit() => Some(past_digits(after)),
        _ => None,
    }
}

#[tactic(auto, unfolding(crate::specs::Header::rule_part))]
fn rule_part(text: &[u8]) -> Option<Option<&[u8]>>
    ensures { rule_copied result ≡ rule_part text.now }
{
    if text.is_empty() {
        return Some(None);
    }
    let rule = after_words(b",rule=", text)?;
    Some(Some(rule))
}

#[tactic(auto, unfolding(crate::specs::Header::header_form))]
fn header_form(text: &[u8]) -> Option<Option<&[u8]>>
    ensures { rule_copied result ≡ header_form text.now }
{
    let width = after_words(b"x=", text)?;
    let comma = after_number(width)?;
    let height = after_words(b",y=", comma)?;
    let rest = after_number(height)?;
    rule_part(rest)
}

/// The rule text, if any, of a header line whose blanks are removed.
#[tactic(auto, unfolding(crate::specs::Header::header_rule))]
pub(crate) fn header_rule(text: &[u8]) -> Result<Option<&[u8]>, RleFault>
    ensures { MatchResult result (λ rule. header_rule text.now ≡ Ok (option_copied rule)) (λ e. header_rule text.now ≡ Err e) }
{
    match text {
        [b'x' | b'X', ..] => header_form(text).ok_or(RleFault::BadHeader),
        _ => Err(RleFault::NoHeader),
    }
}
