//! Example requests and their replies, one by one and as one list.
//!
//! Rows of requests and replies are values with nothing to drop. A value that has something to drop lives in one function
//! only, which has a single exit.
use life_census::Tally;
use life_code::Kind;
use life_desk::{
    Bytes, Refusal, Reply, Request, Shown, answer, answer_all, law_of_the_archive, laws_of_runs,
};
use life_rle::Text;
use life_store::{Archive, Listed, Unavailable};
use sqlite::Alter;
use std::alloc::Global;
use std::test::Fail;

pub const GLIDER: &str = "x = 3, y = 3\nbo$2bo$3o!\n";

/// The same glider, spelled differently.
const GLIDER_AGAIN: &str = "x = 3, y = 3\nbo$2bo$ooo!\n";

pub const GLIDER_SHOWN: &str = "x = 3, y = 3, rule = B3/S23\nbo$2bo$3o!\n";

pub const BLOCK: &str = "x = 2, y = 2\n2o$2o!\n";

pub const BLOCK_SHOWN: &str = "x = 2, y = 2, rule = B3/S23\n2o$2o!\n";

/// The glider without its end.
const NO_END: &str = "x = 3, y = 3\nbo$2bo$3o\n";

/// Two blocks, which are two clusters.
pub const FIELD: &str = "x = 6, y = 2\n2o2b2o$2o2b2o!\n";

pub const FIELD_SHOWN: &str = "x = 6, y = 2, rule = B3/S23\n2o2b2o$2o2b2o!\n";

/// A request, as a row of a table.
#[derive(Clone, Copy)]
pub enum Asked {
    Deposit(&'static str, &'static str, &'static str),
    Show(u64),
    ListAfter(u64),
    At(u64, u64),
    KindOf(u64, u64),
    Census(&'static str, u64, u64, u64),
    ShowCensus(u64),
    CensusCsv(u64),
    Total(&'static str, &'static str, u64),
}

/// A reply, as a row of a table.
#[derive(Clone, Copy)]
pub enum Said {
    Deposited(u64),
    File(&'static str),
    /// A list of deposits by `ann` under Life: their numbers and populations.
    Deposits(&'static [(u64, u64)]),
    Kinded(Kind, &'static str),
    Counted(u64),
    /// The census with this number, whether it is steady, and the code of its two clusters. It counts generation 0; its
    /// deposit and its limit have the same number.
    Census(u64, bool, &'static str),
    Csv(&'static str),
    Total(u64),
    /// Refused with this number, other than for a bad pattern.
    Refused(u8),
    /// Refused as a bad pattern, with this number of its fault.
    BadPattern(u8),
}

/// A request and its expected reply.
pub type Row = (Asked, Said);

/// Deposits in an archive of capacity 2.
const DEPOSITS: [Row; 24] = [
    (Asked::Deposit("ann", "t1", GLIDER), Said::Deposited(1)),
    (
        Asked::Deposit("ann", "t1", GLIDER_AGAIN),
        Said::Deposited(1),
    ),
    (Asked::Deposit("ann", "t1", BLOCK), Said::Refused(5)),
    (Asked::Deposit("ann", "t2", BLOCK), Said::Deposited(2)),
    (Asked::Deposit("ann", "t3", BLOCK), Said::Refused(10)),
    (Asked::Deposit("bob", "t1", GLIDER), Said::Refused(10)),
    (Asked::Deposit("ann", "t1", GLIDER), Said::Deposited(1)),
    (Asked::Deposit("Ann", "t1", GLIDER), Said::Refused(3)),
    (Asked::Deposit("Ann", "", NO_END), Said::Refused(3)),
    (Asked::Deposit("ann", "", NO_END), Said::Refused(4)),
    (Asked::Deposit("ann", "t9", NO_END), Said::BadPattern(10)),
    (Asked::ListAfter(0), Said::Deposits(&[(1, 5), (2, 4)])),
    (Asked::ListAfter(1), Said::Deposits(&[(2, 4)])),
    (Asked::ListAfter(2), Said::Deposits(&[])),
    (Asked::ListAfter(99), Said::Deposits(&[])),
    (Asked::ListAfter(u64::MAX), Said::Deposits(&[])),
    (Asked::Show(1), Said::File(GLIDER_SHOWN)),
    (Asked::Show(2), Said::File(BLOCK_SHOWN)),
    (Asked::At(1, 2048), Said::File(GLIDER_SHOWN)),
    (Asked::At(1, 2049), Said::Refused(6)),
    (Asked::Show(0), Said::Refused(1)),
    (Asked::Show(1 << 63), Said::Refused(1)),
    (Asked::At(9, 2049), Said::Refused(6)),
    (
        Asked::KindOf(1, 4),
        Said::Kinded(Kind::Ship(4, 1, 1), "xq4_153"),
    ),
];

/// Censuses in an archive of capacity 2.
const CENSUSES: [Row; 21] = [
    (Asked::Deposit("ann", "t1", FIELD), Said::Deposited(1)),
    (Asked::Census("t1", 1, 0, 1), Said::Counted(1)),
    (Asked::Census("t1", 1, 0, 1), Said::Counted(1)),
    (Asked::ShowCensus(2), Said::Refused(2)),
    (Asked::Census("t1", 1, 1, 1), Said::Refused(5)),
    (Asked::Census("t1", 9, 0, 1), Said::Refused(1)),
    (Asked::Census("t1", 9, 0, 0), Said::Refused(6)),
    (Asked::At(1, 2049), Said::Refused(6)),
    (Asked::Total("B3S23", "xs4_33", 1), Said::Total(2)),
    (Asked::Census("c2", 1, 0, 1), Said::Counted(2)),
    (Asked::Total("B3S23", "xs4_33", 1), Said::Total(4)),
    (Asked::Total("B36/S23", "xs4_33", 1), Said::Total(0)),
    (Asked::Census("c3", 1, 0, 1), Said::Refused(10)),
    (Asked::Total("B9/S", "xs4_330", 0), Said::Refused(6)),
    (Asked::Total("B9/S", "xs4_330", 1), Said::Refused(8)),
    (Asked::Total("B3/S23", "xs4_330", 1), Said::Refused(9)),
    (Asked::Total("B3/S23", "xp2_7", 2), Said::Total(0)),
    (Asked::ShowCensus(3), Said::Refused(2)),
    (Asked::ShowCensus(u64::MAX), Said::Refused(2)),
    (Asked::ShowCensus(1), Said::Census(1, true, "xs4_33")),
    (
        Asked::CensusCsv(1),
        Said::Csv("code,count\nxs4_33,2\nunresolved,0\n"),
    ),
];

/// The deposit of a file, under a member and a token.
fn deposit(alloc: Global, member: &str, token: &str, file: &str) -> Result<Request, Unavailable> {
    Ok(Request::Deposit {
        member: Text::from_slice(alloc, member.as_bytes())?,
        token: Text::from_slice(alloc, token.as_bytes())?,
        file: Bytes::from_slice(alloc, file.as_bytes())?,
    })
}

/// A census of `ann`'s.
fn census(
    alloc: Global,
    token: &str,
    deposit: u64,
    generation: u64,
    limit: u64,
) -> Result<Request, Unavailable> {
    Ok(Request::Census {
        member: Text::from_slice(alloc, b"ann")?,
        token: Text::from_slice(alloc, token.as_bytes())?,
        deposit,
        generation,
        limit,
    })
}

fn total(alloc: Global, rule: &str, code: &str, limit: u64) -> Result<Request, Unavailable> {
    Ok(Request::Total {
        rule: Bytes::from_slice(alloc, rule.as_bytes())?,
        code: Bytes::from_slice(alloc, code.as_bytes())?,
        limit,
    })
}

/// The request of a row.
fn request(alloc: Global, asked: Asked) -> Result<Request, Unavailable> {
    match asked {
        Asked::Deposit(member, token, file) => deposit(alloc, member, token, file),
        Asked::Show(id) => Ok(Request::Show { id }),
        Asked::ListAfter(id) => Ok(Request::ListAfter { id }),
        Asked::At(id, generation) => Ok(Request::At { id, generation }),
        Asked::KindOf(id, limit) => Ok(Request::KindOf { id, limit }),
        Asked::Census(token, deposit, generation, limit) => {
            census(alloc, token, deposit, generation, limit)
        },
        Asked::ShowCensus(id) => Ok(Request::ShowCensus { id }),
        Asked::CensusCsv(id) => Ok(Request::CensusCsv { id }),
        Asked::Total(rule, code, limit) => total(alloc, rule, code, limit),
    }
}

/// Whether a line of a list is this one, of `ann` and under Life.
fn is_line(line: &Listed, id: u64, population: u64) -> bool {
    line.id == id
        && line.member.as_bytes() == b"ann".as_slice()
        && line.population == population
        && line.rule.as_bytes() == b"B3/S23".as_slice()
}

fn are_lines(list: &[Listed], lines: &[(u64, u64)]) -> bool {
    if list.len() != lines.len() {
        return false;
    }
    for at in 0..lines.len() {
        if !is_line(&list[at], lines[at].0, lines[at].1) {
            return false;
        }
    }
    true
}

/// Whether a tally has exactly two clusters, both with this code.
fn is_of_two(tally: &Tally, code: &str) -> bool {
    let rows = tally.rows.as_slice();
    tally.unresolved == 0
        && tally.total == 2
        && matches!(rows, [row] if row.code.as_bytes() == code.as_bytes() && row.count == 2)
}

/// Whether a census has this number, as its deposit and its limit do, this flag, and two clusters with this code.
fn is_census(shown: &Shown, number: u64, steady: bool, code: &str) -> bool {
    shown.census == number
        && shown.deposit == number
        && shown.generation == 0
        && u64::from(shown.limit) == number
        && shown.steady == steady
        && is_of_two(&shown.tally, code)
}

/// Whether a refusal is of a bad pattern, with this number of its fault.
fn is_bad_pattern(refusal: &Refusal, number: u8) -> bool {
    match refusal {
        Refusal::BadPattern(fault) => fault.number() == number,
        _ => false,
    }
}

/// Whether a reply matches the row.
fn says(reply: &Reply, said: Said) -> bool {
    match said {
        Said::Deposited(number) => matches!(reply, Reply::Deposited(id) if *id == number),
        Said::File(text) =>
            matches!(reply, Reply::File(file) if file.as_slice() == text.as_bytes()),
        Said::Deposits(lines) => {
            matches!(reply, Reply::Deposits(list) if are_lines(list.as_slice(), lines))
        }
        Said::Kinded(expected, text) => {
            matches!(reply, Reply::Kinded(kind, Some(code)) if *kind == expected && code.as_slice() == text.as_bytes())
        }
        Said::Counted(number) => matches!(reply, Reply::Counted(id) if *id == number),
        Said::Census(number, steady, code) => {
            matches!(reply, Reply::Shown(shown) if is_census(shown, number, steady, code))
        }
        Said::Csv(text) =>
            matches!(reply, Reply::Csv(table) if table.as_slice() == text.as_bytes()),
        Said::Total(number) => matches!(reply, Reply::Total(n) if *n == number),
        Said::Refused(number) => {
            matches!(reply, Reply::Refused(refusal) if refusal.number() == number)
        }
        Said::BadPattern(number) => {
            matches!(reply, Reply::Refused(refusal) if is_bad_pattern(refusal, number))
        }
    }
}

/// A row of a table: an expected act of an archive.
pub trait Example: Copy {
    /// Makes the archive act, and returns whether it did as expected.
    fn holds<S: Alter>(self, alloc: Global, archive: &mut Archive<S>) -> bool;
}

impl Example for Row {
    fn holds<S: Alter>(self, alloc: Global, archive: &mut Archive<S>) -> bool {
        match request(alloc, self.0) {
            Ok(request) => says(&answer(archive, alloc, request), self.1),
            Err(_) => false,
        }
    }
}

/// The index of the first row that the archive does not do as expected.
pub fn other<S: Alter, E: Example>(
    alloc: Global,
    archive: &mut Archive<S>,
    rows: &[E],
) -> Option<usize> {
    for (at, row) in rows.iter().enumerate() {
        if !row.holds(alloc, archive) {
            return Some(at);
        }
    }
    None
}

/// The same for a new archive of capacity 2 in memory.
pub fn other_in_memory<E: Example>(alloc: Global, rows: &[E]) -> Option<usize> {
    match Archive::open_in_memory(alloc, 2) {
        Ok(mut archive) => other(alloc, &mut archive, rows),
        Err(_) => Some(rows.len()),
    }
}

/// Appends a request, if it could be made.
fn put(
    requests: &mut Vec<Request>,
    request: Result<Request, Unavailable>,
) -> Result<(), Unavailable> {
    match request {
        Ok(request) => match requests.push(request) {
            Ok(()) => Ok(()),
            Err(_) => Err(Unavailable),
        },
        Err(_) => Err(Unavailable),
    }
}

/// The requests of the rows.
fn requests(alloc: Global, rows: &[Row]) -> Result<Vec<Request>, Unavailable> {
    let mut requests = Vec::new(alloc);
    for (asked, _) in rows {
        put(&mut requests, request(alloc, *asked))?;
    }
    Ok(requests)
}

/// The index of the first row whose reply differs.
fn other_reply(replies: &[Reply], rows: &[Row]) -> Option<usize> {
    if replies.len() != rows.len() {
        return Some(rows.len());
    }
    for at in 0..rows.len() {
        if !says(&replies[at], rows[at].1) {
            return Some(at);
        }
    }
    None
}

/// The archive's replies to requests that are sent as one list.
fn replies<S: Alter>(
    alloc: Global,
    archive: &mut Archive<S>,
    requests: Result<Vec<Request>, Unavailable>,
) -> Result<Vec<Reply>, Unavailable> {
    match requests {
        Ok(requests) => match answer_all(archive, alloc, requests) {
            Ok(replies) => Ok(replies),
            Err(_) => Err(Unavailable),
        },
        Err(_) => Err(Unavailable),
    }
}

/// The index of the first row whose reply differs, if all requests are sent as one list.
fn other_as_a_list<S: Alter>(
    alloc: Global,
    archive: &mut Archive<S>,
    rows: &[Row],
) -> Option<usize> {
    match replies(alloc, archive, requests(alloc, rows)) {
        Ok(replies) => other_reply(replies.as_slice(), rows),
        Err(_) => Some(0),
    }
}

/// Requests to a new archive in memory, as one list.
#[derive(Clone, Copy)]
enum List<'a> {
    Rows(&'a [Row]),
    /// Many deposits, and lists of them.
    Many,
}

/// The index of the first request whose reply differs.
fn otherwise<S: Alter>(alloc: Global, archive: &mut Archive<S>, list: List<'_>) -> Option<usize> {
    match list {
        List::Rows(rows) => other_as_a_list(alloc, archive, rows),
        List::Many => other_of_many(replies(alloc, archive, many(alloc))),
    }
}

/// The same for a new archive in memory.
fn in_memory(alloc: Global, capacity: u64, list: List<'_>) -> Option<usize> {
    match Archive::open_in_memory(alloc, capacity) {
        Ok(mut archive) => otherwise(alloc, &mut archive, list),
        Err(_) => Some(0),
    }
}

#[test]
fn the_laws_are_called() {
    laws_of_runs();
    law_of_the_archive();
}

/// The index of the first row whose reply differs, one by one and as one list.
fn others(alloc: Global, rows: &[Row]) -> (Option<usize>, Option<usize>) {
    let one_by_one = other_in_memory(alloc, rows);
    (one_by_one, in_memory(alloc, 2, List::Rows(rows)))
}

#[test]
fn deposits_are_answered(rt: HostRuntime) -> Result<(), Fail> {
    assert_eq!(rt; others(rt.alloc(), DEPOSITS.as_slice()), (None, None));
    Ok(())
}

#[test]
fn censuses_are_answered(rt: HostRuntime) -> Result<(), Fail> {
    assert_eq!(rt; others(rt.alloc(), CENSUSES.as_slice()), (None, None));
    Ok(())
}

/// The deposit of the glider under the token of this number.
fn numbered(alloc: Global, n: u64) -> Result<Request, Unavailable> {
    match format!(in alloc; "t{n}") {
        Ok(token) => deposit(alloc, "ann", token.as_str(), GLIDER),
        Err(_) => Err(Unavailable),
    }
}

/// A hundred and one deposits.
fn numbered_ones(alloc: Global) -> Result<Vec<Request>, Unavailable> {
    let mut requests = Vec::new(alloc);
    for n in 1..102u64 {
        put(&mut requests, numbered(alloc, n))?;
    }
    Ok(requests)
}

/// A hundred and one deposits, and two lists of them.
fn many(alloc: Global) -> Result<Vec<Request>, Unavailable> {
    let mut requests = numbered_ones(alloc)?;
    put(&mut requests, Ok(Request::ListAfter { id: 0 }))?;
    put(&mut requests, Ok(Request::ListAfter { id: 100 }))?;
    Ok(requests)
}

/// Whether these lines have consecutive numbers, from this one on.
fn are_numbered(lines: &[Listed], first: u64) -> bool {
    for at in 0..lines.len() {
        if lines[at].id != first.saturating_add(at as u64) {
            return false;
        }
    }
    true
}

/// Whether the reply at this index is a list of this many deposits, with consecutive numbers from this one on.
fn has_list(replies: &[Reply], at: usize, many: usize, first: u64) -> bool {
    match replies.get(at) {
        Some(Reply::Deposits(list)) => {
            let lines = list.as_slice();
            lines.len() == many && are_numbered(lines, first)
        }
        _ => false,
    }
}

/// Whether the reply at this index gives the deposit this number.
fn has_number(replies: &[Reply], at: usize, number: u64) -> bool {
    match replies.get(at) {
        Some(reply) => says(reply, Said::Deposited(number)),
        None => false,
    }
}

/// The index of the first wrong reply to `many`. A list has at most 100 lines, so the last deposit is in the second
/// list.
fn other_in_many(replies: &[Reply]) -> Option<usize> {
    for at in 0..101usize {
        if !has_number(replies, at, at as u64 + 1) {
            return Some(at);
        }
    }
    if replies.len() == 103 && has_list(replies, 101, 100, 1) && has_list(replies, 102, 1, 101) {
        None
    } else {
        Some(101)
    }
}

fn other_of_many(replies: Result<Vec<Reply>, Unavailable>) -> Option<usize> {
    match replies {
        Ok(replies) => other_in_many(replies.as_slice()),
        Err(_) => Some(0),
    }
}

#[test]
fn a_list_has_at_most_a_hundred_lines(rt: HostRuntime) -> Result<(), Fail> {
    assert_eq!(rt; in_memory(rt.alloc(), 200, List::Many), None);
    Ok(())
}
