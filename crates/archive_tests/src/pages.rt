//! Example HTTP messages to an archive: in one piece, in several, and with a read or a write that fails.
//!
//! Messages and replies are values with nothing to drop, and all streams have one type, which moves bytes in pieces.
use crate::requests::{Example, other_in_memory};
use life_archive::run_serve;
use life_pages::IoFault;
use life_rle::{PieceInlet, PieceOutlet};
use life_store::Archive;
use life_tests::job_streams::Flow;
use sqlite::Alter;
use std::alloc::{AllocError, Global};
use std::test::Fail;

pub const GLIDER: &str =
    "POST /deposits HTTP/1.1\r\nhost: a\r\nx-member: ann\r\nx-token: t1\r\ncontent-length: 24\r\n\r\nx = 3, y = 3\nbo$2bo$3o!\n";

pub const BLOCK_UNDER_T1: &str =
    "POST /deposits HTTP/1.1\r\nhost: a\r\nx-member: ann\r\nx-token: t1\r\ncontent-length: 20\r\n\r\nx = 2, y = 2\n2o$2o!\n";

pub const FIELD: &str =
    "POST /deposits HTTP/1.1\r\nx-member: ann\r\nx-token: t1\r\ncontent-length: 30\r\n\r\nx = 6, y = 2\n2o2b2o$2o2b2o!\n\n\n";

pub const DEPOSITED: &str =
    "HTTP/1.1 201 Created\r\ncontent-type: application/json\r\ncontent-length: 13\r\n\r\n{\"deposit\":1}";

pub const TOKEN_REUSED: &str =
    "HTTP/1.1 409 Conflict\r\ncontent-type: application/json\r\ncontent-length: 36\r\n\r\n{\"error\":\"token-reused\",\"refusal\":5}";

pub const SHOW_9: &str = "GET /deposits/9 HTTP/1.1\r\n\r\n";

pub const NO_SUCH_DEPOSIT: &str =
    "HTTP/1.1 404 Not Found\r\ncontent-type: application/json\r\ncontent-length: 39\r\n\r\n{\"error\":\"no-such-deposit\",\"refusal\":1}";

pub const BAD: &str =
    "HTTP/1.1 400 Bad Request\r\ncontent-type: application/json\r\ncontent-length: 36\r\n\r\n{\"error\":\"bad-message\",\"refusal\":14}";

const NOT_FOUND: &str =
    "HTTP/1.1 404 Not Found\r\ncontent-type: application/json\r\ncontent-length: 37\r\n\r\n{\"error\":\"no-such-page\",\"refusal\":12}";

/// A stream, how it is read and written, and the expected result and output.
#[derive(Clone, Copy)]
pub struct Exchange<'a> {
    pub stream: &'a [u8],
    pub flow: Flow,
    pub done: Result<(), IoFault>,
    pub put: &'a [u8],
}

/// A stream in one piece, and the expected replies to it.
pub fn whole<'a>(stream: &'a str, replies: &'a str) -> Exchange<'a> {
    Exchange {
        stream: stream.as_bytes(),
        flow: Flow::Whole,
        done: Ok(()),
        put: replies.as_bytes(),
    }
}

/// Whether serving the stream gives the expected result and output.
pub fn is_answered<S: Alter>(
    alloc: Global,
    archive: &mut Archive<S>,
    exchange: Exchange<'_>,
) -> bool {
    let Ok(mut input) = exchange.flow.inlet(alloc, exchange.stream) else {
        return false;
    };
    let mut output = exchange.flow.outlet(alloc, exchange.put);
    let done = run_serve(alloc, archive, &mut input, &mut output);
    done == exchange.done && output.bytes() == exchange.put
}

/// The path of a GET, and the status line, the type and the body of its reply.
type Page = (&'static str, &'static str, &'static str, &'static str);

/// An expected act of an archive, as a row of a table.
#[derive(Clone, Copy)]
pub enum Act {
    /// It gives these replies to a stream.
    Answers(&'static str, &'static str),
    /// It gives these replies to a stream that is not UTF-8.
    AnswersBytes(&'static [u8], &'static str),
    /// It gives this reply to a GET.
    Shows(Page),
    /// It has this many deposits.
    Has(u64),
    /// It gives this reply to a message with this many header lines.
    AnswersLines(usize, &'static str),
    /// It gives this reply to a text after 20,000 line ends, more than a head may have bytes.
    AnswersAfterLineEnds(&'static str, &'static str),
    /// It refuses each proper prefix of the glider's deposit as a bad message.
    AnswersBeginnings,
}

/// Whether the archive gives this reply to a GET.
fn shows<S: Alter>(alloc: Global, archive: &mut Archive<S>, page: Page) -> bool {
    let (path, status, kind, body) = page;
    let length = body.len();
    let stream = format!(in alloc; "GET {path} HTTP/1.1\r\n\r\n");
    let reply = format!(in alloc;
        "HTTP/1.1 {status}\r\ncontent-type: {kind}\r\ncontent-length: {length}\r\n\r\n{body}"
    );
    match (stream, reply) {
        (Ok(stream), Ok(reply)) => {
            is_answered(alloc, archive, whole(stream.as_str(), reply.as_str()))
        }
        _ => false,
    }
}

/// How many deposits are stored.
fn kept<S: Alter>(archive: &mut Archive<S>) -> Option<u64> {
    archive.count_deposits().ok()
}

/// A text, a line repeated this often, and another text.
pub fn repeated(
    alloc: Global,
    front: &str,
    line: &str,
    times: usize,
    back: &str,
) -> Result<String, AllocError> {
    let mut text = String::from_str(alloc, front)?;
    for _ in 0..times {
        text.push_str(line)?;
    }
    text.push_str(back)?;
    Ok(text)
}

/// Whether a generated text, in one piece, gets these replies.
fn is_answered_for<S: Alter>(
    alloc: Global,
    archive: &mut Archive<S>,
    text: Result<String, AllocError>,
    replies: &str,
) -> bool {
    match text {
        Ok(text) => is_answered(alloc, archive, whole(text.as_str(), replies)),
        Err(_) => false,
    }
}

/// Whether each proper prefix of the glider's deposit is refused as a bad message.
fn has_bad_beginnings<S: Alter>(alloc: Global, archive: &mut Archive<S>) -> bool {
    for end in 1..GLIDER.len() {
        let exchange = Exchange {
            stream: &GLIDER.as_bytes()[..end],
            ..whole("", BAD)
        };
        if !is_answered(alloc, archive, exchange) {
            return false;
        }
    }
    true
}

impl Example for Act {
    fn holds<S: Alter>(self, alloc: Global, archive: &mut Archive<S>) -> bool {
        match self {
            Act::Answers(stream, replies) => is_answered(alloc, archive, whole(stream, replies)),
            Act::AnswersBytes(stream, replies) => {
                let exchange = Exchange {
                    stream,
                    ..whole("", replies)
                };
                is_answered(alloc, archive, exchange)
            }
            Act::Shows(page) => shows(alloc, archive, page),
            Act::Has(number) => kept(archive) == Some(number),
            Act::AnswersLines(lines, reply) => {
                let message = repeated(alloc, "GET /x HTTP/1.1\r\n", "a: b\r\n", lines, "\r\n");
                is_answered_for(alloc, archive, message, reply)
            }
            Act::AnswersAfterLineEnds(text, reply) => {
                is_answered_for(
                    alloc,
                    archive,
                    repeated(alloc, "", "\n", 20_000, text),
                    reply,
                )
            }
            Act::AnswersBeginnings => has_bad_beginnings(alloc, archive),
        }
    }
}

/// A deposit, the same again, another with its token, and a number that does not exist.
const DEPOSITS: &[Act] = &[
    Act::Answers(GLIDER, DEPOSITED),
    Act::Answers(GLIDER, DEPOSITED),
    Act::Answers(BLOCK_UNDER_T1, TOKEN_REUSED),
    Act::Answers(SHOW_9, NO_SUCH_DEPOSIT),
    Act::Has(1),
];

const BAD_MESSAGES: &[Act] = &[
    // The target is not UTF-8, and the message after it is not answered.
    Act::AnswersBytes(
        b"GET /deposits/\xff HTTP/1.1\r\n\r\nGET /deposits/1 HTTP/1.1\r\n\r\n",
        BAD,
    ),
    Act::Answers(
        "GET /deposits HTTP/1.1\r\ntransfer-encoding: chunked\r\n\r\n",
        BAD,
    ),
    Act::Answers(
        "GET /deposits HTTP/1.1\r\ncontent-length: 1048577\r\n\r\n",
        BAD,
    ),
    Act::AnswersLines(32, NOT_FOUND),
    Act::AnswersLines(33, BAD),
    Act::AnswersAfterLineEnds("GET /deposits/1 HTTP/1.1\r\n\r\n", BAD),
    Act::AnswersBeginnings,
    Act::Has(0),
];

/// An empty stream, line ends, and two messages; the second closes the connection, so the bytes after it get no reply.
const STREAMS: &[Act] = &[
    Act::Answers("", ""),
    Act::Answers("\r\n\r\n", ""),
    Act::AnswersAfterLineEnds("", ""),
    Act::Answers(GLIDER, DEPOSITED),
    Act::Answers(
        "GET /deposits/1 HTTP/1.1\r\n\r\nGET /deposits/1/kind/4 HTTP/1.0\r\n\r\nany bytes",
        "HTTP/1.1 200 OK\r\ncontent-type: text/plain\r\ncontent-length: 39\r\n\r\nx = 3, y = 3, rule = B3/S23\nbo$2bo$3o!\nHTTP/1.1 200 OK\r\ncontent-type: application/json\r\ncontent-length: 57\r\n\r\n{\"code\":\"xq4_153\",\"dx\":1,\"dy\":1,\"kind\":\"ship\",\"period\":4}",
    ),
];

pub const CENSUS: &str =
    "POST /deposits/1/censuses/0/1 HTTP/1.1\r\nx-member: ann\r\nx-token: c1\r\n\r\n";

pub const COUNTED: &str =
    "HTTP/1.1 201 Created\r\ncontent-type: application/json\r\ncontent-length: 12\r\n\r\n{\"census\":1}";

/// A field, its census, the same census again, and the routes that show it.
const CENSUSES: &[Act] = &[
    Act::Answers(FIELD, DEPOSITED),
    Act::Answers(CENSUS, COUNTED),
    Act::Answers(CENSUS, COUNTED),
    Act::Shows((
        "/censuses/1/csv",
        "200 OK",
        "text/csv",
        "code,count\nxs4_33,2\nunresolved,0\n",
    )),
    Act::Shows((
        "/censuses/1",
        "200 OK",
        "application/json",
        "{\"census\":1,\"clusters\":2,\"deposit\":1,\"generation\":0,\"limit\":1,\"rows\":[{\"code\":\"xs4_33\",\"count\":2}],\"steady\":true,\"unresolved\":0}",
    )),
    Act::Shows((
        "/objects/B3S23/xs4_33/1",
        "200 OK",
        "application/json",
        "{\"total\":2}",
    )),
    Act::Shows((
        "/objects/B3S23/xs4_330/1",
        "422 Unprocessable Entity",
        "application/json",
        "{\"error\":\"bad-code\",\"refusal\":9}",
    )),
    Act::Shows((
        "/deposits/after/0?x=/",
        "200 OK",
        "application/json",
        "{\"deposits\":[{\"id\":1,\"member\":\"ann\",\"population\":8,\"rule\":\"B3/S23\"}]}",
    )),
];

/// Two blocks so far apart that their pattern is too wide for a code.
const APART: &str =
    "POST /deposits HTTP/1.1\r\nx-member: ann\r\nx-token: t1\r\ncontent-length: 31\r\n\r\nx = 54, y = 2\n2o50b2o$2o50b2o!\n";

const R_PENTOMINO: &str =
    "POST /deposits HTTP/1.1\r\nx-member: ann\r\nx-token: t2\r\ncontent-length: 24\r\n\r\nx = 3, y = 3\nb2o$2o$bo!\n";

/// A pattern that is too wide for a code, and one that does not repeat within the limit. Both replies have no key
/// `code`.
const WITHOUT_A_CODE: &[Act] = &[
    Act::Answers(APART, DEPOSITED),
    Act::Shows((
        "/deposits/1/kind/1",
        "200 OK",
        "application/json",
        "{\"kind\":\"still\"}",
    )),
    Act::Answers(
        R_PENTOMINO,
        "HTTP/1.1 201 Created\r\ncontent-type: application/json\r\ncontent-length: 13\r\n\r\n{\"deposit\":2}",
    ),
    Act::Shows((
        "/deposits/2/kind/30",
        "200 OK",
        "application/json",
        "{\"kind\":\"unresolved\"}",
    )),
];

const NO_PAGE: &str = "{\"error\":\"no-such-page\",\"refusal\":12}";

/// A deposit, a deposit whose file is cut off, routes of the first, and paths without a route.
const PAGES: &[Act] = &[
    Act::Answers(GLIDER, DEPOSITED),
    Act::Answers(
        "POST /deposits HTTP/1.1\r\nx-member: ann\r\nx-token: t9\r\ncontent-length: 12\r\n\r\nx = 1, y = 1",
        "HTTP/1.1 422 Unprocessable Entity\r\ncontent-type: application/json\r\ncontent-length: 44\r\n\r\n{\"error\":\"bad-pattern\",\"refusal\":7,\"rle\":10}",
    ),
    Act::Shows(("/deposits/x", "404 Not Found", "application/json", NO_PAGE)),
    Act::Shows(("/deposits/1/", "404 Not Found", "application/json", NO_PAGE)),
    Act::Shows(("*", "404 Not Found", "application/json", NO_PAGE)),
    Act::Shows((
        "/deposits",
        "405 Method Not Allowed",
        "application/json",
        "{\"error\":\"bad-method\",\"refusal\":13}",
    )),
    Act::Shows((
        "/deposits/1/at/1024",
        "200 OK",
        "text/plain",
        "x = 3, y = 3, rule = B3/S23\nbo$2bo$3o!\n",
    )),
    Act::Shows((
        "/deposits/1/at/2049",
        "400 Bad Request",
        "application/json",
        "{\"error\":\"out-of-limit\",\"refusal\":6}",
    )),
    Act::Shows((
        "/deposits/1/at/1025",
        "200 OK",
        "text/plain",
        "x = 3, y = 3, rule = B3/S23\nobo$b2o$bo!\n",
    )),
    Act::Shows((
        "/deposits/1/at/2048",
        "200 OK",
        "text/plain",
        "x = 3, y = 3, rule = B3/S23\nbo$2bo$3o!\n",
    )),
    Act::Shows((
        "/deposits/9/at/1025",
        "404 Not Found",
        "application/json",
        "{\"error\":\"no-such-deposit\",\"refusal\":1}",
    )),
    Act::Shows((
        "/deposits/9/at/2049",
        "400 Bad Request",
        "application/json",
        "{\"error\":\"out-of-limit\",\"refusal\":6}",
    )),
    Act::Shows((
        "/deposits/001",
        "200 OK",
        "text/plain",
        "x = 3, y = 3, rule = B3/S23\nbo$2bo$3o!\n",
    )),
];

/// Tables of acts, each for a new archive.
const TABLES: [(&str, &[Act]); 6] = [
    ("a deposit comes again", DEPOSITS),
    ("bad messages are refused", BAD_MESSAGES),
    ("streams are answered to their ends", STREAMS),
    ("a census is counted and shown", CENSUSES),
    ("kinds without a code", WITHOUT_A_CODE),
    ("routes and methods", PAGES),
];

#[test]
fn archives_answer_messages(rt: HostRuntime) -> Result<(), Fail> {
    for (name, acts) in TABLES {
        assert_eq!(rt; other_in_memory(rt.alloc(), acts), None, "{name}");
    }
    Ok(())
}

/// Whether serving the stream from a new archive of capacity 2 gives the expected result, and leaves this many
/// deposits.
fn comes_to_a_new_one(alloc: Global, exchange: Exchange<'_>, number: u64) -> bool {
    match Archive::open_in_memory(alloc, 2) {
        Ok(mut archive) => {
            is_answered(alloc, &mut archive, exchange) && kept(&mut archive) == Some(number)
        }
        Err(_) => false,
    }
}

/// Whether the glider's deposit is stored if and only if it was read completely before the read with this number
/// failed.
fn stops_at_the_take(alloc: Global, number: usize) -> bool {
    let is_whole = number > GLIDER.len();
    let exchange = Exchange {
        flow: Flow::Unreadable(number as u64),
        done: Err(IoFault::Read),
        ..whole(GLIDER, if is_whole { DEPOSITED } else { "" })
    };
    comes_to_a_new_one(alloc, exchange, u64::from(is_whole))
}

#[test]
fn a_take_fails(rt: HostRuntime) -> Result<(), Fail> {
    for number in 1..=GLIDER.len() + 1 {
        assert!(rt; stops_at_the_take(rt.alloc(), number));
    }
    Ok(())
}

/// Whether the glider's deposit is stored although the write after these bytes fails, and sending it again is
/// acknowledged.
fn stops_after<S: Alter>(alloc: Global, archive: &mut Archive<S>, put: &[u8]) -> bool {
    let exchange = Exchange {
        flow: Flow::Unwritable,
        done: Err(IoFault::Write),
        put,
        ..whole(GLIDER, "")
    };
    is_answered(alloc, archive, exchange)
        && kept(archive) == Some(1)
        && is_answered(alloc, archive, whole(GLIDER, DEPOSITED))
        && kept(archive) == Some(1)
}

/// The same for a new archive.
fn stops_after_in_a_new_one(alloc: Global, put: &[u8]) -> bool {
    match Archive::open_in_memory(alloc, 2) {
        Ok(mut archive) => stops_after(alloc, &mut archive, put),
        Err(_) => false,
    }
}

#[test]
fn a_put_fails(rt: HostRuntime) -> Result<(), Fail> {
    for end in 0..DEPOSITED.len() {
        assert!(rt; stops_after_in_a_new_one(rt.alloc(), &DEPOSITED.as_bytes()[..end]));
    }
    Ok(())
}

/// Whether the reply to a complete message, the glider's deposit, is written before anything more is read. The same
/// message follows once more.
fn accepts_nothing_before_the_reply<S: Alter>(
    alloc: Global,
    archive: &mut Archive<S>,
    stream: Vec<u8>,
) -> bool {
    let mut input = PieceInlet::new(stream, 1, None);
    let mut failing = PieceOutlet::new(alloc, 1, Some(1));
    let failed = run_serve(alloc, archive, &mut input, &mut failing);
    let calls = input.calls();
    let mut output = PieceOutlet::new(alloc, 1, None);
    let done = run_serve(alloc, archive, &mut input, &mut output);
    failed == Err(IoFault::Write)
        && calls == GLIDER.len() as u64
        && done == Ok(())
        && output.bytes() == DEPOSITED.as_bytes()
        && kept(archive) == Some(1)
}

/// The same for a new archive.
fn accepts_nothing(alloc: Global) -> bool {
    match (
        Archive::open_in_memory(alloc, 2),
        repeated(alloc, GLIDER, GLIDER, 1, ""),
    ) {
        (Ok(mut archive), Ok(twice)) => {
            accepts_nothing_before_the_reply(alloc, &mut archive, twice.into_bytes())
        }
        _ => false,
    }
}

#[test]
fn no_take_before_the_reply(rt: HostRuntime) -> Result<(), Fail> {
    assert!(rt; accepts_nothing(rt.alloc()));
    Ok(())
}

/// The most reads that serving makes, as in docs/limits.csv.
const TAKES: usize = 1_048_576;

/// A deposit of this many bytes, head and body: one live cell, and line ends after the end of the pattern.
fn long_deposit(alloc: Global, bytes: usize) -> Result<String, AllocError> {
    let front =
        "POST /deposits HTTP/1.1\r\nx-member: ann\r\nx-token: t1\r\ncontent-length: 1048000\r\n\r\n";
    let body = bytes.saturating_sub(front.len());
    let text = format!(in alloc;
        "POST /deposits HTTP/1.1\r\nx-member: ann\r\nx-token: t1\r\ncontent-length: {body}\r\n\r\nx = 1, y = 1\no!"
    )?;
    repeated(
        alloc,
        text.as_str(),
        "\n",
        bytes.saturating_sub(text.len()),
        "",
    )
}

/// Whether serving a deposit of this many bytes, one byte per read, has this result, and the deposit is stored.
fn ends_bytewise(alloc: Global, bytes: usize, done: Result<(), IoFault>) -> bool {
    match long_deposit(alloc, bytes) {
        Ok(text) => {
            let exchange = Exchange {
                flow: Flow::Bytewise,
                done,
                ..whole(text.as_str(), DEPOSITED)
            };
            text.len() == bytes && comes_to_a_new_one(alloc, exchange, 1)
        }
        Err(_) => false,
    }
}

/// With the limit of reads used up, one more read would be needed to find the end.
#[test]
fn a_long_body_comes_byte_by_byte(rt: HostRuntime) -> Result<(), Fail> {
    assert!(rt; ends_bytewise(rt.alloc(), TAKES - 1, Ok(())));
    assert!(rt; ends_bytewise(rt.alloc(), TAKES, Err(IoFault::TooManyReads)));
    Ok(())
}
