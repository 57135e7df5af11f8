//! The request that a valid HTTP message makes.
ghost use Rattle.std.specs.Prelude.{◌≡◌};
ghost use Rattle.life_pages.specs.HeadState.{parsed};
ghost use Rattle.life_pages.specs.RouteState.{route_rows, ask_of};
ghost use Rattle.life_pages.specs.Asked.{asked};
ghost use Rattle.life_pages.specs.AskedState.{IsAsked, GivesRequest};

use crate::head::GoodHead;
use crate::pages_fault::MessageRefusal;
use crate::request_path::path_of;
use crate::route::{Asked, Captured, Method, Template, find_route};
use life_desk::{Bytes, Refusal, Request, check_census, check_deposit, check_total};
use life_rle::Text;
use matchit::Router;
use std::alloc::Global;

/// The request for a deposit. Its fields are validated before anything is copied.
fn deposit_request(alloc: Global, head: &GoodHead<'_>, body: &[u8]) -> Result<Request, Refusal>
    ensures { GivesRequest result (Request.Deposit head.now.member.now head.now.token.now body.now) }
{
    check_deposit(head.member, head.token)?;
    Ok(Request::Deposit {
        member: Text::from_slice(alloc, head.member)?,
        token: Text::from_slice(alloc, head.token)?,
        file: Bytes::from_slice(alloc, body)?,
    })
}

/// The request for a census. Its fields are validated before anything is copied.
fn census_request(
    alloc: Global,
    head: &GoodHead<'_>,
    deposit: u64,
    generation: u64,
    limit: u64,
) -> Result<Request, Refusal>
    ensures { GivesRequest result (Request.Census head.now.member.now head.now.token.now deposit generation limit) }
{
    check_census(head.member, head.token, generation, limit)?;
    Ok(Request::Census {
        member: Text::from_slice(alloc, head.member)?,
        token: Text::from_slice(alloc, head.token)?,
        deposit,
        generation,
        limit,
    })
}

/// The request for a total. Its fields are validated before anything is copied.
fn total_request(
    alloc: Global,
    rule: &Captured<'_>,
    code: &Captured<'_>,
    limit: u64,
) -> Result<Request, Refusal>
    ensures { GivesRequest result (Request.Total rule.now code.now limit) }
{
    check_total(rule.as_bytes(), limit)?;
    Ok(Request::Total {
        rule: Bytes::from_slice(alloc, rule.as_bytes())?,
        code: Bytes::from_slice(alloc, code.as_bytes())?,
        limit,
    })
}

/// The request of a message whose path has this meaning. Its own fields are validated before anything is copied.
fn request_of(
    alloc: Global,
    wanted: Asked<'_>,
    head: &GoodHead<'_>,
    body: &[u8],
) -> Result<Request, Refusal>
    ensures { GivesRequest result (ask_of wanted.entry (parsed head.now) body.now) }
{
    match wanted {
        Asked::Request(request) => Ok(request),
        Asked::Deposit => deposit_request(alloc, head, body),
        Asked::Census {
            deposit,
            generation,
            limit,
        } => census_request(alloc, head, deposit, generation, limit),
        Asked::Total { rule, code, limit } => total_request(alloc, &rule, &code, limit),
    }
}

/// Why a message is refused before the archive is queried.
#[derive(Clone, Copy)]
pub(crate) enum RequestFault {
    /// The message is not a request.
    Message(MessageRefusal),
    /// The request's own fields are invalid, or there is no memory to copy them.
    Request(Refusal),
}

/// The request of a valid message. A missing route is reported before a wrong method.
pub(crate) fn asked(
    alloc: Global,
    routes: &Router<(Method, Template)>,
    head: &GoodHead<'_>,
    body: &[u8],
) -> Result<Request, RequestFault>
    requires { routes.now ≡ route_rows }
    ensures { IsAsked result (asked (parsed head.now) body.now) }
{
    let (method, wanted) = match find_route(routes, path_of(head.target)) {
        Some(found) => found,
        None => return Err(RequestFault::Message(MessageRefusal::NoSuchRoute)),
    };
    if head.method != method.name() {
        return Err(RequestFault::Message(MessageRefusal::BadMethod));
    }
    match request_of(alloc, wanted, head, body) {
        Ok(request) => Ok(request),
        Err(refusal) => Err(RequestFault::Request(refusal)),
    }
}
