//! The reply to a message that is valid HTTP.
ghost use Rattle.std.specs.Prelude.{◌≡◌, ◌≤◌, vec_capacity, Result, Ok, Err, IfOk};
ghost use Rattle.life_desk.specs.declared.request.Request.{Request};
ghost use Rattle.life_pages.specs.declared.pages_fault.MessageRefusal.{MessageRefusal};
ghost use Rattle.life_pages.specs.AskedState.{IsAsked};
ghost use Rattle.life_pages.specs.HeadState.{parsed};
ghost use Rattle.life_pages.specs.RouteState.{route_rows};
ghost use Rattle.life_pages.specs.Message.{AnswersAsked, AnswersMessage};
ghost use Rattle.life_pages.specs.AnswerState.{HasRoom};

use crate::asked::{RequestFault, asked};
use crate::desk_trait::Desk;
use crate::head::GoodHead;
use crate::reply::{BODY_ROOM, REPLY_ROOM, write_page, write_refusal, write_reply};
use crate::route::{Method, Template};
use life_desk::Request;
use matchit::Router;
use std::alloc::{AllocError, Global};

/// Buffers for a reply, and for a short body, which is written before its reply so that its length is known.
#[derive(Drop)]
pub(crate) struct ReplyBuffers {
    pub(crate) reply: Vec<u8>,
    pub(crate) body: Vec<u8>,
}

impl ReplyBuffers {
    /// Empty buffers with room for any short reply, allocated before the first read.
    pub(crate) fn with_room(alloc: Global) -> Result<ReplyBuffers, AllocError>
        ensures { IfOk result (λ d. HasRoom d) }
    {
        let reply = Vec::with_capacity(alloc, REPLY_ROOM)?;
        let body = Vec::with_capacity(alloc, BODY_ROOM)?;
        Ok(ReplyBuffers { reply, body })
    }
}

/// Answers a request and writes the reply into the buffers. Acknowledgements need no allocation: their room exists.
fn answer_request<D: Desk>(
    alloc: Global,
    desk: &mut D,
    request: Request,
    buffers: &mut ReplyBuffers,
)
    requires room { HasRoom buffers.old }
    ensures answered { AnswersAsked D.answers desk.old (Ok request) buffers.new.reply.items desk.new }
    ensures room { HasRoom buffers.new }
{
    let reply = desk.answer(alloc, request);
    write_reply(alloc, &mut buffers.reply, &mut buffers.body, &reply);
}

/// Writes a refusal that needs no query to the archive.
fn refuse<D: Desk>(desk: &D, fault: RequestFault, buffers: &mut ReplyBuffers)
    requires room { HasRoom buffers.old }
    ensures answered { (read : Result Request MessageRefusal) → IsAsked (Err fault) read → AnswersAsked D.answers desk.now read buffers.new.reply.items desk.now }
    ensures room { HasRoom buffers.new }
{
    desk.law_of_refusals();
    match fault {
        RequestFault::Message(refusal) => write_page(&mut buffers.reply, refusal),
        RequestFault::Request(refusal) => write_refusal(
            &mut buffers.reply,
            &mut buffers.body,
            &refusal,
        ),
    }
}

/// Writes the reply to a good message.
pub(crate) fn answer_message<D: Desk>(
    alloc: Global,
    routes: &Router<(Method, Template)>,
    desk: &mut D,
    head: &GoodHead<'_>,
    body: &[u8],
    buffers: &mut ReplyBuffers,
)
    requires routes { routes.now ≡ route_rows }
    requires room { HasRoom buffers.old }
    ensures answered { AnswersMessage D.answers desk.old (parsed head.now) body.now buffers.new.reply.items desk.new }
    ensures room { HasRoom buffers.new }
{
    match asked(alloc, routes, head, body) {
        Ok(request) => answer_request(alloc, desk, request, buffers),
        Err(fault) => refuse(desk, fault, buffers),
    }
}
