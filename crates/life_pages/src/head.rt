//! The head of an HTTP request: its request line and header lines, read with `httparse`.
ghost use Rattle.std.specs.Prelude.{◌≡◌, ◌≤◌, ◌<◌, ◌^◌, ◌==◌, nat_lt, length, map, option_map, reverse, codes, true, min, not};
ghost use Rattle.std.specs.List.{list_any, list_all, prefix_len};
ghost use Rattle.std.specs.Char.{is_ascii_digit, digit_value};
ghost use Rattle.std.specs.Str.Parse.{digits_value};
ghost use Rattle.std.specs.Str.{str_eq_ignore_ascii_case};
ghost use Rattle.httparse.specs.Borrowed.{header_parts};
ghost use Rattle.httparse.specs.Grammar.{trim_ows, skip_ows, is_ows};
ghost use Rattle.life_pages.specs.Head.{line_limit, most, parsed_number, says_close, values_of, first_of, body_length, has_some, said_by};
ghost use Rattle.life_pages.specs.HeadState.{Validates, ReadsHead};

use httparse::{EMPTY_HEADER, Header, Request, Status};

/// The most header lines of a head.
const LINE_LIMIT: usize = 32;

fn are_digits(text: &[u8]) -> bool
    ensures { result ≡ list_all is_ascii_digit text.now }
{
    text.iter().all(|b| b.is_ascii_digit())
}

/// The value of a digit.
fn digit_of(byte: u8) -> u64
    requires { is_ascii_digit byte ≡ true }
    ensures { result ≡ digit_value byte }
{
    u64::from(byte - b'0')
}

/// The digits' value; larger numbers saturate at the greatest `u64`.
fn value_of(text: &[u8]) -> u64
    requires { list_all is_ascii_digit text.now ≡ true }
    ensures { result ≡ min (digits_value 10 text.now) most }
{
    let mut n: u64 = 0;
    for byte in text {
        n = n.saturating_mul(10).saturating_add(digit_of(*byte));
    }
    n
}

/// The number that one or more digits write, saturating at the greatest `u64`; `None` for other texts.
pub(crate) fn number(text: &[u8]) -> Option<u64>
    ensures { result ≡ parsed_number text.now }
{
    if !text.is_empty() && are_digits(text) {
        Some(value_of(text))
    } else {
        None
    }
}

fn is_space_or_tab(byte: u8) -> bool
    ensures { result ≡ is_ows byte }
{
    byte == b' ' || byte == b'\t'
}

/// The bytes without spaces and tabs in front.
fn without_front(bytes: &[u8]) -> &[u8]
    ensures { result.now ≡ skip_ows bytes.now }
{
    for at in 0..bytes.len() {
        if !is_space_or_tab(bytes[at]) {
            return &bytes[at..];
        }
    }
    &[]
}

/// The bytes without spaces and tabs at the end.
fn without_back(bytes: &[u8]) -> &[u8]
    ensures { result.now ≡ reverse (skip_ows (reverse bytes.now)) }
{
    let mut rest = bytes;
    'back: while let Some((last, sooner)) = rest.split_last() {
        if !is_space_or_tab(*last) {
            return rest;
        }
        rest = sooner;
    }
    &[]
}

/// The bytes without spaces and tabs at their ends.
#[tactic(auto, unfolding(httparse::specs::Grammar::trim_ows))]
pub(crate) fn trimmed(bytes: &[u8]) -> &[u8]
    ensures { result.now ≡ trim_ows bytes.now }
{
    without_back(without_front(bytes))
}

/// How many bytes come before the first with this value.
pub(crate) fn len_before(bytes: &[u8], byte: u8) -> usize
    ensures value { result ≡ prefix_len (λ b. not (b == byte)) bytes.now }
    ensures within { result ≤ length bytes.now }
    ensures fits { length bytes.now < 2 ^ 64 }
{
    for at in 0..bytes.len() {
        if bytes[at] == byte {
            return at;
        }
    }
    bytes.len()
}

/// Whether one part of a `connection` header is the option `close`, in any case.
fn is_close(part: &[u8]) -> bool
    ensures { result ≡ str_eq_ignore_ascii_case (trim_ows part.now) (codes "close") }
{
    trimmed(part).eq_ignore_ascii_case(b"close")
}

/// Whether the value of a `connection` header, a list with commas, has the option `close`.
pub(crate) fn asks_close(value: &[u8]) -> bool
    ensures { result ≡ says_close value.now }
{
    let mut rest = value;
    'parts: loop {
        let at = len_before(rest, b',');
        if is_close(&rest[..at]) {
            return true;
        }
        if at >= rest.len() {
            return false;
        }
        rest = &rest[at + 1..];
    }
}

/// Whether a header line has this name, in any case.
fn is_named(line: &Header<'_>, name: &str) -> bool
    ensures { result ≡ str_eq_ignore_ascii_case line.now.name.now name.now }
{
    line.name.eq_ignore_ascii_case(name)
}

/// The value of the first header line with the name.
pub(crate) fn first_value<'b>(lines: &[Header<'b>], name: &str) -> Option<&'b [u8]>
    ensures { option_map (λ v. v.now) result ≡ first_of (values_of name.now (map header_parts lines.now)) }
{
    for line in lines {
        if is_named(line, name) {
            return Some(line.value);
        }
    }
    None
}

/// Whether a header line has the name.
pub(crate) fn has_name(lines: &[Header<'_>], name: &str) -> bool
    ensures { result ≡ has_some (values_of name.now (map header_parts lines.now)) }
{
    first_value(lines, name).is_some()
}

/// The parts of a valid head that requests depend on. A missing member or token is empty.
#[derive(Drop)]
pub(crate) struct GoodHead<'b> {
    /// Where the body begins.
    pub len: usize,
    pub method: &'b str,
    pub target: &'b str,
    pub member: &'b [u8],
    pub token: &'b [u8],
    /// How many bytes the body has, at most 1 MiB.
    pub body: u64,
    /// Whether the stream ends after the message: HTTP/1.0, or `connection: close`.
    pub closes: bool,
}

/// The result of reading a head: it is incomplete, invalid whatever follows, or complete.
#[derive(Drop)]
pub(crate) enum HeadRead<'b> {
    More,
    Bad,
    Whole(GoodHead<'b>),
}

/// The body's length from the `content-length` line: 0 without one, `None` for two, an invalid one, or one over 1 MiB.
fn body_bytes(lines: &[Header<'_>]) -> Option<u64>
    ensures { result ≡ body_length (values_of (codes "content-length") (map header_parts lines.now)) }
{
    let mut found: Option<&[u8]> = None;
    for line in lines {
        if is_named(line, "content-length") {
            if found.is_some() {
                return None;
            }
            found = Some(line.value);
        }
    }
    let Some(value) = found else {
        return Some(0);
    };
    number(value).filter(|n| *n <= 1_048_576)
}

/// Whether a `connection` line has the option `close`.
fn says_to_close(lines: &[Header<'_>]) -> bool
    ensures { result ≡ list_any says_close (values_of (codes "connection") (map header_parts lines.now)) }
{
    for line in lines {
        if is_named(line, "connection") && asks_close(line.value) {
            return true;
        }
    }
    false
}

/// Takes the parts from a head. A `transfer-encoding` is bad, since only `content-length` gives a body's length.
fn validate<'b>(
    len: usize,
    method: &'b str,
    target: &'b str,
    minor: u8,
    lines: &[Header<'b>],
) -> HeadRead<'b>
    ensures { Validates len (said_by method.entry.now target.entry.now minor (map header_parts lines.now)) result }
{
    if has_name(lines, "transfer-encoding") {
        return HeadRead::Bad;
    }
    let Some(body) = body_bytes(lines) else {
        return HeadRead::Bad;
    };
    HeadRead::Whole(GoodHead {
        len,
        method,
        target,
        member: first_value(lines, "x-member").unwrap_or(&[]),
        token: first_value(lines, "x-token").unwrap_or(&[]),
        body,
        closes: minor == 0 || says_to_close(lines),
    })
}

/// Whether there are more header lines than a head may have.
fn are_too_many(lines: usize) -> bool
    ensures { result ≡ nat_lt line_limit lines }
{
    lines > LINE_LIMIT
}

/// Reads a head at the front of the bytes received so far.
pub(crate) fn read_head(bytes: &[u8]) -> HeadRead<'_>
    ensures { ReadsHead bytes.now result }
{
    let mut room = [EMPTY_HEADER; LINE_LIMIT];
    let mut request = Request::new(&mut room);
    match request.parse(bytes) {
        Ok(Status::Complete(len)) => {
            if are_too_many(request.headers.len()) {
                return HeadRead::Bad;
            }
            validate(
                len,
                request.method.unwrap(),
                request.path.unwrap(),
                request.version.unwrap(),
                request.headers,
            )
        }
        Ok(Status::Partial) => HeadRead::More,
        Err(_) => HeadRead::Bad,
    }
}
