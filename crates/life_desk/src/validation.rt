//! Validation of a request's own fields, before the archive is queried.
ghost use Rattle.std.specs.Prelude.{◌≡◌, ◌≤◌, ℕ, List, OnOk};
ghost use Rattle.std.specs.List.{list_all};
ghost use Rattle.life_core.specs.RuleText.{read_rule};
ghost use Rattle.life_desk.specs.declared.request.Request.TheVariants as requests;
ghost use Rattle.life_desk.specs.Validation.{is_member, is_token, is_member_byte, is_token_byte, is_between, names_fault, generation_fault, limit_fault, rule_fault, first_fault, fault_in, validated, checked, IsChecked, IsGood};

use crate::refusal::Refusal;
use crate::request::Request;
use life_code::PERIOD_LIMIT;
use life_core::{GENERATION_LIMIT, Rule};

/// Whether a byte is an ASCII lower-case letter, a digit or `-`.
fn is_member_byte(b: u8) -> bool
    ensures { result ≡ is_member_byte b }
{
    (97 <= b && b <= 122) || ((48 <= b && b <= 57) || b == 45)
}

/// Whether a byte is an ASCII letter, a digit or `-`.
fn is_token_byte(b: u8) -> bool
    ensures { result ≡ is_token_byte b }
{
    (65 <= b && b <= 90) || is_member_byte(b)
}

/// Whether all bytes may occur in a member's name.
fn are_member_bytes(bytes: &[u8]) -> bool
    ensures { result ≡ list_all is_member_byte bytes.now }
{
    bytes.iter().all(|b| is_member_byte(*b))
}

/// Whether all bytes may occur in a token.
fn are_token_bytes(bytes: &[u8]) -> bool
    ensures { result ≡ list_all is_token_byte bytes.now }
{
    bytes.iter().all(|b| is_token_byte(*b))
}

/// Whether a number is in a range that includes both bounds.
fn is_between(low: usize, high: usize, n: usize) -> bool
    ensures { result ≡ is_between low high n }
{
    low <= n && n <= high
}

/// Whether the bytes are a valid member name.
#[tactic(auto, unfolding(crate::specs::Validation::is_member))]
fn is_member(bytes: &[u8]) -> bool
    ensures { result ≡ is_member bytes.now }
{
    is_between(1, 32, bytes.len()) && are_member_bytes(bytes)
}

/// Whether the bytes are a valid token.
#[tactic(auto, unfolding(crate::specs::Validation::is_token))]
fn is_token(bytes: &[u8]) -> bool
    ensures { result ≡ is_token bytes.now }
{
    is_between(1, 64, bytes.len()) && are_token_bytes(bytes)
}

/// Refuses a generation over `GENERATION_LIMIT`.
fn check_generation(n: u64) -> Result<(), Refusal>
    ensures value { result ≡ checked (generation_fault n) }
    ensures within { OnOk result (n ≤ GENERATION_LIMIT) }
{
    if n <= u64::from(GENERATION_LIMIT) {
        Ok(())
    } else {
        Err(Refusal::OutOfLimit)
    }
}

/// Refuses a limit on the period that is not from 1 to `PERIOD_LIMIT`.
fn check_limit(n: u64) -> Result<(), Refusal>
    ensures value { result ≡ checked (limit_fault n) }
    ensures within { OnOk result ((1 ≤ n) × (n ≤ PERIOD_LIMIT)) }
{
    if 1 <= n && n <= u64::from(PERIOD_LIMIT) {
        Ok(())
    } else {
        Err(Refusal::OutOfLimit)
    }
}

/// Refuses an invalid member first, then an invalid token.
fn check_names(member: &[u8], token: &[u8]) -> Result<(), Refusal>
    ensures { result ≡ checked (names_fault member.now token.now) }
{
    if !is_member(member) {
        return Err(Refusal::BadMember);
    }
    if !is_token(token) {
        return Err(Refusal::BadToken);
    }
    Ok(())
}

/// Refuses a text that is not a rule in any accepted spelling.
fn check_rule(rule: &[u8]) -> Result<(), Refusal>
    ensures { result ≡ checked (rule_fault (read_rule rule.now)) }
{
    match Rule::read(rule) {
        Ok(_) => Ok(()),
        Err(_) => Err(Refusal::BadRule),
    }
}

/// Checks the fields of a census, in the order member, token, generation, limit.
fn check_census_fields(member: &[u8], token: &[u8], n: u64, limit: u64) -> Result<(), Refusal>
    ensures value { result ≡ checked (first_fault (names_fault member.now token.now) (first_fault (generation_fault n) (limit_fault limit))) }
    ensures within { OnOk result ((n ≤ GENERATION_LIMIT) × (1 ≤ limit) × (limit ≤ PERIOD_LIMIT)) }
{
    check_names(member, token)?;
    check_generation(n)?;
    check_limit(limit)
}

/// Checks the fields of a total, in the order limit, rule.
fn check_total_fields(rule: &[u8], limit: u64) -> Result<(), Refusal>
    ensures value { result ≡ checked (first_fault (limit_fault limit) (rule_fault (read_rule rule.now))) }
    ensures within { OnOk result ((1 ≤ limit) × (limit ≤ PERIOD_LIMIT)) }
{
    check_limit(limit)?;
    check_rule(rule)
}

/// Checks the member and the token of a deposit, so that a caller can refuse before it copies anything. The refusals
/// are the same as from [`answer`](crate::answer).
pub fn check_deposit(member: &[u8], token: &[u8]) -> Result<(), Refusal>
    ensures { (file : List ℕ) → IsChecked result (validated (requests.Deposit member.now token.now file)) }
{
    check_names(member, token)
}

/// Checks the fields of a census except its deposit, with the refusals of [`answer`](crate::answer).
pub fn check_census(member: &[u8], token: &[u8], n: u64, limit: u64) -> Result<(), Refusal>
    ensures { (deposit : ℕ) → IsChecked result (validated (requests.Census member.now token.now deposit n limit)) }
{
    check_census_fields(member, token, n, limit)
}

/// Checks the rule and the limit of a total, but not its code, with the refusals of [`answer`](crate::answer).
pub fn check_total(rule: &[u8], limit: u64) -> Result<(), Refusal>
    ensures { (code : List ℕ) → IsChecked result (validated (requests.Total rule.now code limit)) }
{
    check_total_fields(rule, limit)
}

/// Validates the fields of a request, in the order member, token, limits, rule, without an allocation.
pub(crate) fn validate(request: &Request) -> Result<(), Refusal>
    ensures value { result ≡ checked (fault_in request.now) }
    ensures within { OnOk result (IsGood request.now) }
{
    match request {
        Request::Deposit { member, token, .. } => check_names(member.as_bytes(), token.as_bytes()),
        Request::At { generation, .. } => check_generation(*generation),
        Request::KindOf { limit, .. } => check_limit(*limit),
        Request::Census {
            member,
            token,
            generation,
            limit,
            ..
        } => check_census_fields(member.as_bytes(), token.as_bytes(), *generation, *limit),
        Request::Total { rule, limit, .. } => check_total_fields(rule.as_slice(), *limit),
        _ => Ok(()),
    }
}
