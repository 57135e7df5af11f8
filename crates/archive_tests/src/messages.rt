//! Example messages in pieces: byte by byte, with each read failing, and with each write failing.
use crate::pages::{
    Act, BAD, BLOCK_UNDER_T1, CENSUS, COUNTED, DEPOSITED, Exchange, FIELD, GLIDER, NO_SUCH_DEPOSIT,
    SHOW_9, TOKEN_REUSED, is_answered, whole,
};
use crate::requests::{Example, other_in_memory};
use life_pages::IoFault;
use life_store::Archive;
use life_tests::job_streams::Flow;
use sqlite::Alter;
use std::alloc::{AllocError, Global};
use std::test::Fail;

/// How a stream of messages ends.
#[derive(Clone, Copy, PartialEq, Eq)]
enum End {
    /// The stream ends after the last message.
    Found,
    /// The stream ends inside a message.
    Within,
    /// The last message closes the connection, so nothing is read after it.
    Last,
}

/// A stream of example messages, with the reply to each.
#[derive(Clone, Copy)]
struct Worked {
    messages: &'static [(&'static str, &'static str)],
    end: End,
}

fn stream(alloc: Global, worked: Worked) -> Result<String, AllocError> {
    let mut text = String::new(alloc);
    for (message, _) in worked.messages {
        text.push_str(message)?;
    }
    Ok(text)
}

/// The replies to the messages that are complete after this many bytes.
fn replies_after(alloc: Global, worked: Worked, bytes: usize) -> Result<String, AllocError> {
    let mut text = String::new(alloc);
    let mut end = 0_usize;
    for (message, reply) in worked.messages {
        end = end.saturating_add(message.len());
        if end <= bytes {
            text.push_str(reply)?;
        }
    }
    Ok(text)
}

/// All replies, with the refusal of a message that is cut off at the end.
fn all_replies(alloc: Global, worked: Worked) -> Result<String, AllocError> {
    let mut text = replies_after(alloc, worked, usize::MAX)?;
    if worked.end == End::Within {
        text.push_str(BAD)?;
    }
    Ok(text)
}

/// Whether any failing read stops serving after the replies to all complete messages.
fn takes_fail<S: Alter>(
    alloc: Global,
    archive: &mut Archive<S>,
    worked: Worked,
    exchange: Exchange<'_>,
) -> bool {
    let takes = exchange
        .stream
        .len()
        .saturating_add(usize::from(worked.end != End::Last));
    for taken in 0..takes {
        let Ok(put) = replies_after(alloc, worked, taken) else {
            return false;
        };
        let failing = Exchange {
            flow: Flow::Unreadable((taken as u64).saturating_add(1)),
            done: Err(IoFault::Read),
            put: put.as_bytes(),
            ..exchange
        };
        if !is_answered(alloc, archive, failing) {
            return false;
        }
    }
    true
}

/// Whether any failing write stops serving after the bytes before it.
fn puts_fail<S: Alter>(alloc: Global, archive: &mut Archive<S>, exchange: Exchange<'_>) -> bool {
    for end in 0..exchange.put.len() {
        let failing = Exchange {
            flow: Flow::Unwritable,
            done: Err(IoFault::Write),
            put: &exchange.put[..end],
            ..exchange
        };
        if !is_answered(alloc, archive, failing) {
            return false;
        }
    }
    true
}

/// Whether the stream is answered correctly byte by byte, and with any failing read or write.
fn is_served<S: Alter>(alloc: Global, archive: &mut Archive<S>, worked: Worked) -> bool {
    let (Ok(stream), Ok(replies)) = (stream(alloc, worked), all_replies(alloc, worked)) else {
        return false;
    };
    let exchange = Exchange {
        flow: Flow::Bytewise,
        ..whole(stream.as_str(), replies.as_str())
    };
    is_answered(alloc, archive, exchange)
        && takes_fail(alloc, archive, worked, exchange)
        && puts_fail(alloc, archive, exchange)
}

/// A step of an example: an act from `pages`, or messages in pieces.
#[derive(Clone, Copy)]
enum Step {
    Does(Act),
    /// The archive answers these messages byte by byte, and with any failing read or write.
    Serves(&'static [(&'static str, &'static str)], End),
}

impl Example for Step {
    fn holds<S: Alter>(self, alloc: Global, archive: &mut Archive<S>) -> bool {
        match self {
            Step::Does(act) => act.holds(alloc, archive),
            Step::Serves(messages, end) => is_served(alloc, archive, Worked { messages, end }),
        }
    }
}

/// The deposit of the glider without its last byte.
const CUT_GLIDER: &str =
    "POST /deposits HTTP/1.1\r\nhost: a\r\nx-member: ann\r\nx-token: t1\r\ncontent-length: 24\r\n\r\nx = 3, y = 3\nbo$2bo$3o!";

/// Two messages; the second closes the connection.
const TWO_MESSAGES: [(&str, &str); 2] = [
    (
        "GET /deposits/1 HTTP/1.1\r\n\r\n",
        "HTTP/1.1 200 OK\r\ncontent-type: text/plain\r\ncontent-length: 39\r\n\r\nx = 3, y = 3, rule = B3/S23\nbo$2bo$3o!\n",
    ),
    (
        "GET /deposits/1/kind/4 HTTP/1.0\r\n\r\n",
        "HTTP/1.1 200 OK\r\ncontent-type: application/json\r\ncontent-length: 57\r\n\r\n{\"code\":\"xq4_153\",\"dx\":1,\"dy\":1,\"kind\":\"ship\",\"period\":4}",
    ),
];

/// Messages to an archive with the glider: its deposit again, another deposit under its token, a number that does not
/// exist, the deposit without its last byte, two messages, an empty stream, and only a line end.
const BY_THE_GLIDER: [Step; 8] = [
    Step::Does(Act::Answers(GLIDER, DEPOSITED)),
    Step::Serves(&[(GLIDER, DEPOSITED)], End::Found),
    Step::Serves(&[(BLOCK_UNDER_T1, TOKEN_REUSED)], End::Found),
    Step::Serves(&[(SHOW_9, NO_SUCH_DEPOSIT)], End::Found),
    Step::Serves(&[(CUT_GLIDER, "")], End::Within),
    Step::Serves(&TWO_MESSAGES, End::Last),
    Step::Serves(&[], End::Found),
    Step::Serves(&[("\r\n", "")], End::Found),
];

/// The table of a census.
const TABLE: (&str, &str) = (
    "GET /censuses/1/csv HTTP/1.1\r\n\r\n",
    "HTTP/1.1 200 OK\r\ncontent-type: text/csv\r\ncontent-length: 33\r\n\r\ncode,count\nxs4_33,2\nunresolved,0\n",
);

/// The total of an object.
const TOTAL: (&str, &str) = (
    "GET /objects/B3S23/xs4_33/1 HTTP/1.1\r\n\r\n",
    "HTTP/1.1 200 OK\r\ncontent-type: application/json\r\ncontent-length: 11\r\n\r\n{\"total\":2}",
);

/// Messages to an archive with a field and its census: the census again, its table, and its object's total.
const BY_THE_FIELD: [Step; 5] = [
    Step::Does(Act::Answers(FIELD, DEPOSITED)),
    Step::Does(Act::Answers(CENSUS, COUNTED)),
    Step::Serves(&[(CENSUS, COUNTED)], End::Found),
    Step::Serves(&[TABLE], End::Found),
    Step::Serves(&[TOTAL], End::Found),
];

#[test]
fn messages_about_a_deposit_come_in_pieces(rt: HostRuntime) -> Result<(), Fail> {
    assert_eq!(rt; other_in_memory(rt.alloc(), BY_THE_GLIDER.as_slice()), None);
    Ok(())
}

#[test]
fn messages_about_a_census_come_in_pieces(rt: HostRuntime) -> Result<(), Fail> {
    assert_eq!(rt; other_in_memory(rt.alloc(), BY_THE_FIELD.as_slice()), None);
    Ok(())
}
