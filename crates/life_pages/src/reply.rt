//! The bytes of replies.
ghost use Rattle.std.specs.Prelude.{◌≡◌, ℕ, ◌+◌, ◌≤◌, ◌<◌, ◌^◌, true, [], ◌++◌, length, codes, decimal, unwrap_or, IfOk, OnOk, OnErr, vec_len, vec_capacity};
ghost use Rattle.http.specs.StatusCode.{code_digits, reason_phrase, IsStatusCode};
ghost use Rattle.life_desk.specs.Refusals as refusals;
ghost use Rattle.life_desk.specs.Replies.{is_shown};
ghost use Rattle.life_pages.specs.Reply.{phrase, reply_bytes, json, number_body, refusal_body, fault_part, bytes_of, reply_status, type_of, reply_body, message_refusal_bytes, bad_bytes, unavailable_bytes};
ghost use Rattle.life_pages.specs.ReplyState.{Writes};

use crate::json::{kind_body, list_body, shown_body};
use crate::pages_fault::MessageRefusal;
use http::StatusCode;
use itoa::Buffer;
use life_desk::{Refusal, Reply};
use std::alloc::{AllocError, Global};

/// Room for every short reply: its length does not depend on the stored contents.
pub(crate) const REPLY_ROOM: usize = 512;

/// Room for the body of a short reply.
pub(crate) const BODY_ROOM: usize = 128;

/// Room for the status line and the header lines before a body.
const FRONT_ROOM: usize = 160;

static NO_SUCH_PAGE: &[u8] =
    b"HTTP/1.1 404 Not Found\r\ncontent-type: application/json\r\ncontent-length: 37\r\n\r\n{\"error\":\"no-such-page\",\"refusal\":12}";

static BAD_METHOD: &[u8] =
    b"HTTP/1.1 405 Method Not Allowed\r\ncontent-type: application/json\r\ncontent-length: 35\r\n\r\n{\"error\":\"bad-method\",\"refusal\":13}";

static BAD_MESSAGE: &[u8] =
    b"HTTP/1.1 400 Bad Request\r\ncontent-type: application/json\r\ncontent-length: 36\r\n\r\n{\"error\":\"bad-message\",\"refusal\":14}";

static UNAVAILABLE: &[u8] =
    b"HTTP/1.1 503 Service Unavailable\r\ncontent-type: application/json\r\ncontent-length: 36\r\n\r\n{\"error\":\"unavailable\",\"refusal\":11}";

/// The complete reply to a message that never reaches the archive. It is a constant, so it needs no memory.
pub(crate) fn page_reply(refusal: MessageRefusal) -> &'static [u8]
    ensures bytes { result.now ≡ message_refusal_bytes refusal }
    ensures short { length result.now ≤ 160 }
{
    match refusal {
        MessageRefusal::NoSuchRoute => NO_SUCH_PAGE,
        MessageRefusal::BadMethod => BAD_METHOD,
        MessageRefusal::BadMessage => BAD_MESSAGE,
    }
}

/// The reply if an allocation or the store failed. It is a constant, so it needs no memory.
pub(crate) fn unavailable() -> &'static [u8]
    ensures bytes { result.now ≡ unavailable_bytes }
    ensures short { length result.now ≤ 160 }
{
    UNAVAILABLE
}

/// Adds bytes for which there is room.
pub(crate) fn add(out: &mut Vec<u8>, bytes: &[u8])
    requires { vec_len out.old + length bytes.now ≤ vec_capacity out.old }
    ensures items { out.new.items ≡ out.old.items ++ bytes.now }
    ensures len { vec_len out.new ≡ vec_len out.old + length bytes.now }
    ensures room { vec_capacity out.old ≤ vec_capacity out.new }
{
    out.extend_from_slice(bytes).unwrap();
}

/// The reason phrase of a status.
#[tactic(auto, unfolding(crate::specs::Reply::phrase))]
fn words_of(status: StatusCode) -> &'static str
    ensures { result.now ≡ phrase status }
{
    status.canonical_reason().unwrap_or("")
}

/// Adds a reply for which there is room.
#[tactic(auto, unfolding(crate::specs::Reply::reply_bytes))]
fn add_reply(out: &mut Vec<u8>, status: StatusCode, kind: &str, body: &[u8])
    requires { vec_len out.old + length (reply_bytes status kind.now body.now) ≤ vec_capacity out.old }
    ensures items { out.new.items ≡ out.old.items ++ reply_bytes status kind.now body.now }
    ensures room { vec_capacity out.old ≤ vec_capacity out.new }
{
    add(out, b"HTTP/1.1 ");
    add(out, status.as_str().as_bytes());
    add(out, b" ");
    add(out, words_of(status).as_bytes());
    add(out, b"\r\ncontent-type: ");
    add(out, kind.as_bytes());
    add(out, b"\r\ncontent-length: ");
    add(out, Buffer::new().format(body.len()).as_bytes());
    add(out, b"\r\n\r\n");
    add(out, body);
}

/// Adds a body of one number.
#[tactic(auto, unfolding(crate::specs::Reply::number_body))]
fn add_number(out: &mut Vec<u8>, name: &str, n: u64)
    requires { vec_len out.old + length (number_body name.now n) ≤ vec_capacity out.old }
    ensures items { out.new.items ≡ out.old.items ++ number_body name.now n }
    ensures room { vec_capacity out.old ≤ vec_capacity out.new }
{
    add(out, b"{\"");
    add(out, name.as_bytes());
    add(out, b"\":");
    add(out, Buffer::new().format(n).as_bytes());
    add(out, b"}");
}

/// Adds the number of the fault in a refused pattern file; nothing for other refusals.
fn add_fault(out: &mut Vec<u8>, refusal: &Refusal)
    requires { vec_len out.old + length (fault_part refusal.now) ≤ vec_capacity out.old }
    ensures items { out.new.items ≡ out.old.items ++ fault_part refusal.now }
    ensures len { vec_len out.new ≡ vec_len out.old + length (fault_part refusal.now) }
    ensures room { vec_capacity out.old ≤ vec_capacity out.new }
{
    if let Refusal::BadPattern(fault) = refusal {
        add(out, b",\"rle\":");
        add(out, Buffer::new().format(fault.number()).as_bytes());
    }
}

/// Adds the body of a refusal.
#[tactic(auto, unfolding(crate::specs::Reply::refusal_body))]
fn add_refusal(out: &mut Vec<u8>, refusal: &Refusal)
    requires { vec_len out.old + length (refusal_body (refusals.name_of refusal.now) (refusals.number_of refusal.now) (fault_part refusal.now)) ≤ vec_capacity out.old }
    ensures items { out.new.items ≡ out.old.items ++ refusal_body (refusals.name_of refusal.now) (refusals.number_of refusal.now) (fault_part refusal.now) }
    ensures room { vec_capacity out.old ≤ vec_capacity out.new }
{
    add(out, b"{\"error\":\"");
    add(out, refusal.name().as_bytes());
    add(out, b"\",\"refusal\":");
    add(out, Buffer::new().format(refusal.number()).as_bytes());
    add_fault(out, refusal);
    add(out, b"}");
}

/// The status of a refusal.
fn status_of(refusal: &Refusal) -> StatusCode
    ensures { result ≡ refusals.status_of refusal.now }
{
    StatusCode::from_u16(refusal.status()).unwrap()
}

/// Writes a reply whose body is one number. It fits into the reserved room.
fn write_number(out: &mut Vec<u8>, body: &mut Vec<u8>, status: StatusCode, name: &str, n: u64)
    requires room { REPLY_ROOM ≤ vec_capacity out.old }
    requires body_room { BODY_ROOM ≤ vec_capacity body.old }
    requires words { length (phrase status) ≤ 40 }
    requires name { length name.now ≤ 16 }
    ensures bytes { out.new.items ≡ reply_bytes status json (number_body name.now n) }
    ensures room { vec_capacity out.old ≤ vec_capacity out.new }
    ensures body_room { vec_capacity body.old ≤ vec_capacity body.new }
{
    body.clear();
    add_number(body, name, n);
    out.clear();
    add_reply(out, status, "application/json", body);
}

/// Writes a refusal of the archive. It fits into the reserved room.
pub(crate) fn write_refusal(out: &mut Vec<u8>, body: &mut Vec<u8>, refusal: &Refusal)
    requires room { REPLY_ROOM ≤ vec_capacity out.old }
    requires body_room { BODY_ROOM ≤ vec_capacity body.old }
    ensures bytes { out.new.items ≡ reply_bytes (refusals.status_of refusal.now) json (refusal_body (refusals.name_of refusal.now) (refusals.number_of refusal.now) (fault_part refusal.now)) }
    ensures room { vec_capacity out.old ≤ vec_capacity out.new }
    ensures body_room { vec_capacity body.old ≤ vec_capacity body.new }
{
    body.clear();
    add_refusal(body, refusal);
    out.clear();
    add_reply(out, status_of(refusal), "application/json", body);
}

/// Writes a reply with an existing body of any length.
fn write_body(out: &mut Vec<u8>, kind: &str, body: &[u8]) -> Result<(), AllocError>
    requires { length kind.now ≤ 40 }
    ensures ok { OnOk result (out.new.items ≡ reply_bytes 200 kind.now body.now) }
    ensures room { vec_capacity out.old ≤ vec_capacity out.new }
{
    out.clear();
    let room = match body.len().checked_add(FRONT_ROOM) {
        Some(room) => room,
        None => return Err(AllocError),
    };
    match out.reserve(room) {
        Ok(()) => {
            add_reply(out, StatusCode::OK, kind, body);
            Ok(())
        }
        Err(e) => Err(e),
    }
}

/// Writes the reply for out of memory.
fn write_unavailable(out: &mut Vec<u8>)
    requires { REPLY_ROOM ≤ vec_capacity out.old }
    ensures bytes { out.new.items ≡ unavailable_bytes }
    ensures room { vec_capacity out.old ≤ vec_capacity out.new }
{
    out.clear();
    add(out, unavailable());
}

/// Writes the refusal of a message that never reaches the archive.
pub(crate) fn write_page(out: &mut Vec<u8>, refusal: MessageRefusal)
    requires { REPLY_ROOM ≤ vec_capacity out.old }
    ensures bytes { out.new.items ≡ message_refusal_bytes refusal }
    ensures room { vec_capacity out.old ≤ vec_capacity out.new }
{
    out.clear();
    add(out, page_reply(refusal));
}

/// Writes a reply with a JSON body.
fn write_json(out: &mut Vec<u8>, body: Vec<u8>) -> Result<(), AllocError>
    ensures ok { OnOk result (out.new.items ≡ reply_bytes 200 json body.items) }
    ensures room { vec_capacity out.old ≤ vec_capacity out.new }
{
    write_body(out, "application/json", &body)
}

/// Writes a reply whose length depends on the stored contents, which needs an allocation.
fn write_long(alloc: Global, out: &mut Vec<u8>, reply: &Reply) -> Result<(), AllocError>
    requires { is_shown reply.now ≡ true }
    ensures ok { OnOk result (out.new.items ≡ bytes_of reply.now) }
    ensures room { vec_capacity out.old ≤ vec_capacity out.new }
{
    match reply {
        Reply::File(bytes) => write_body(out, "text/plain", bytes.as_slice()),
        Reply::Csv(bytes) => write_body(out, "text/csv", bytes.as_slice()),
        Reply::Deposits(lines) => write_json(out, list_body(alloc, lines.as_slice())?),
        Reply::Kinded(kind, code) => write_json(out, kind_body(alloc, *kind, code)?),
        Reply::Shown(shown) => write_json(out, shown_body(alloc, shown)?),
        _ => Err(AllocError),
    }
}

/// Writes a reply. A short one needs no allocation. If memory runs out for a long one, `unavailable` is written
/// instead.
pub(crate) fn write_reply(alloc: Global, out: &mut Vec<u8>, body: &mut Vec<u8>, reply: &Reply)
    requires room { REPLY_ROOM ≤ vec_capacity out.old }
    requires body_room { BODY_ROOM ≤ vec_capacity body.old }
    ensures bytes { Writes reply.now out.new.items }
    ensures room { vec_capacity out.old ≤ vec_capacity out.new }
    ensures body_room { vec_capacity body.old ≤ vec_capacity body.new }
{
    match reply {
        Reply::Deposited(id) => write_number(out, body, StatusCode::CREATED, "deposit", *id),
        Reply::Counted(id) => write_number(out, body, StatusCode::CREATED, "census", *id),
        Reply::Total(n) => write_number(out, body, StatusCode::OK, "total", *n),
        Reply::Refused(refusal) => write_refusal(out, body, refusal),
        _ => {
            if write_long(alloc, out, reply).is_err() {
                write_unavailable(out);
            }
        }
    }
}
