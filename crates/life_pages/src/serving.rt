//! Serving the messages of a stream with any desk: reading, answering, and the ways to stop.
ghost use Rattle.std.specs.Prelude.{◌⊎◌, ◌≡◌, ℕ, ◌+◌, ◌-◌, ◌*◌, ◌<◌, ◌≤◌, List, [], ◌∷◌, ◌++◌, length, drop, true, false, vec_len, vec_capacity, Err, OnOk, OnErr, IfOk};
ghost use Rattle.life_rle.specs.Stream.{count_after, ends_after, bytes_moved, incremented, EndsLast, FailsLast, ConsumesUpTo, Appends, AppendsSome};
ghost use Rattle.life_pages.specs.Head.{Head};
ghost use Rattle.life_pages.specs.HeadState.{parsed};
ghost use Rattle.life_pages.specs.RouteState.{route_rows};
ghost use Rattle.life_pages.specs.Reply.{bad_bytes};
ghost use Rattle.life_pages.specs.Message.{are_line_breaks, HasMessageInFront, HasNone, AnswersMessage};
ghost use Rattle.life_pages.specs.MessageState.{held_limit, NeverHas, IsWanting, WantsUntil};
ghost use Rattle.life_pages.specs.AnswerState.{HasRoom};
ghost use Rattle.life_pages.specs.Serving.{IsServed, UsesStreams, ReportsTakeFailures, ReportsPutFailures};
ghost use Rattle.life_pages.specs.ServingState.{AtEnd, IsStep, IsHeldServed, IsOutcome, HoldsTaken, IsAfterBlank, CountsFailedTake, IsBlankEnd};

use crate::answer::{ReplyBuffers, answer_message};
use crate::desk_trait::Desk;
use crate::message::{HEAD_LIMIT, Next, are_blank, next_message};
use crate::pages_fault::{IoFault, MessageRefusal};
use crate::reply::{add, page_reply};
use crate::route::{Method, Template, route_table};
use life_rle::{Failed, Inlet, Outlet, put_all};
use matchit::Router;
use std::alloc::{AllocError, Global};

/// The most bytes that are held: a head of 8 KiB and a body of 1 MiB.
const HELD_LIMIT: usize = 1_056_768;

/// The most reads of one call, so that it ends even if the stream does not.
const TAKES: u64 = 1_048_576;

/// The most bytes of one read, which go through a buffer on the stack.
const MOST_TAKEN: usize = 4096;

/// The result of trying to answer the first message that is held.
#[derive(Clone, Copy)]
pub(crate) enum Step {
    /// It is not complete.
    Wants,
    /// It was answered, and the stream continues.
    Goes,
    /// It was answered, and ends the stream.
    Ends,
}

/// Drops the first `n` bytes: an answered message.
fn drop_front(held: &mut Vec<u8>, n: usize)
    requires { n ≤ vec_len held.old }
    ensures items { held.new.items ≡ drop n held.old.items }
    ensures room { vec_capacity held.old ≤ vec_capacity held.new }
{
    held.rotate_left(n);
    let rest = held.len() - n;
    held.truncate(rest);
}

/// Writes the reply to a bad message.
fn put_bad<O: Outlet>(output: &mut O) -> Result<(), Failed>
    ensures all { OnOk result (Appends (O.already output.old) (O.already output.new) bad_bytes) }
    ensures some { OnErr result (AppendsSome (O.already output.old) (O.already output.new) bad_bytes) }
    ensures count { OnOk result (O.failures output.new ≡ O.failures output.old) }
    ensures failed { OnErr result (FailsLast (O.failures output.old) (O.failures output.new) (O.last_failed output.new)) }
{
    put_all(output, page_reply(MessageRefusal::BadMessage))
}

/// Answers the first message, if it is complete. With fewer than `wanted` bytes it isn't, and its head is not read
/// again.
#[tactic(auto, using(crate::proofs::MessageStanding::wants_none))]
fn serve_one<O: Outlet, D: Desk>(
    alloc: Global,
    routes: &Router<(Method, Template)>,
    desk: &mut D,
    output: &mut O,
    held: &mut Vec<u8>,
    wanted: &mut usize,
    buffers: &mut ReplyBuffers,
) -> Result<Step, Failed>
    requires routes { routes.now ≡ route_rows }
    requires buffers { HasRoom buffers.old }
    requires below { WantsUntil wanted.old held.old.items }
    ensures count { OnOk result (O.failures output.new ≡ O.failures output.old) }
    ensures failed { OnErr result (FailsLast (O.failures output.old) (O.failures output.new) (O.last_failed output.new)) }
    ensures step { IsStep (AnswersMessage D.answers) result held.old.items held.new.items desk.old desk.new (O.already output.old) (O.already output.new) }
    ensures room { vec_capacity held.old ≤ vec_capacity held.new }
    ensures buffers { HasRoom buffers.new }
    ensures below { WantsUntil wanted.new held.new.items }
{
    if held.len() < *wanted {
        return Ok(Step::Wants);
    }
    *wanted = 0;
    let (end, closes) = match next_message(held) {
        Next::More(at_least) => {
            *wanted = at_least;
            return Ok(Step::Wants);
        }
        Next::Bad => {
            return match put_bad(output) {
                Ok(()) => Ok(Step::Ends),
                Err(e) => Err(e),
            };
        }
        Next::Whole(head) => {
            let end = head.len + head.body as usize;
            answer_message(alloc, routes, desk, &head, &held[head.len..end], buffers);
            (end, head.closes)
        }
    };
    if let Err(e) = put_all(output, &buffers.reply) {
        return Err(e);
    }
    if closes {
        return Ok(Step::Ends);
    }
    drop_front(held, end);
    Ok(Step::Goes)
}

/// Answers all complete messages that are held. Returns whether the stream has ended.
fn serve_held<O: Outlet, D: Desk>(
    alloc: Global,
    routes: &Router<(Method, Template)>,
    desk: &mut D,
    output: &mut O,
    held: &mut Vec<u8>,
    wanted: &mut usize,
    buffers: &mut ReplyBuffers,
) -> Result<bool, Failed>
    requires routes { routes.now ≡ route_rows }
    requires buffers { HasRoom buffers.old }
    requires below { WantsUntil wanted.old held.old.items }
    ensures count { OnOk result (O.failures output.new ≡ O.failures output.old) }
    ensures failed { OnErr result (FailsLast (O.failures output.old) (O.failures output.new) (O.last_failed output.new)) }
    ensures served { IsHeldServed (AnswersMessage D.answers) result held.old.items held.new.items desk.old desk.new (O.already output.old) (O.already output.new) }
    ensures room { vec_capacity held.old ≤ vec_capacity held.new }
    ensures buffers { HasRoom buffers.new }
    ensures below { WantsUntil wanted.new held.new.items }
{
    'held: loop {
        match serve_one(alloc, routes, desk, output, held, wanted, buffers) {
            Ok(Step::Goes) => {}
            Ok(Step::Wants) => return Ok(false),
            Ok(Step::Ends) => return Ok(true),
            Err(e) => return Err(e),
        }
    }
}

/// How many bytes the next read may add to those that are held.
fn room_left(held: &Vec<u8>) -> usize
    requires { vec_len held.now < HELD_LIMIT }
    ensures some { 0 < result }
    ensures most { result ≤ MOST_TAKEN }
    ensures fits { vec_len held.now + result ≤ HELD_LIMIT }
{
    (HELD_LIMIT - held.len()).min(MOST_TAKEN)
}

/// Reads bytes once through a buffer, and appends them to those that are held.
fn take_into<I: Inlet>(input: &mut I, space: &mut [u8], held: &mut Vec<u8>) -> Result<usize, Failed>
    requires some { 0 < length space.old }
    requires fits { vec_len held.old + length space.old ≤ vec_capacity held.old }
    ensures taken { HoldsTaken (I.to_come input.old) (I.to_come input.new) held.old.items held.new.items result }
    ensures most { IfOk result (λ k. k ≤ length space.old) }
    ensures made { I.takes input.new ≡ incremented (I.takes input.old) }
    ensures gave { I.last_take input.new ≡ bytes_moved result }
    ensures room { vec_capacity held.old ≤ vec_capacity held.new }
    ensures count { I.failures input.new ≡ count_after (I.failures input.old) result }
    ensures end { I.ends input.new ≡ ends_after (I.ends input.old) result }
{
    match input.take(space) {
        Ok(k) => {
            add(held, &space[..k]);
            Ok(k)
        }
        Err(e) => Err(e),
    }
}

/// Reads once more, when the held bytes have no complete message.
fn take_more<I: Inlet>(input: &mut I, held: &mut Vec<u8>) -> Result<usize, Failed>
    requires none { HasNone held.old.items }
    requires space { vec_len held.old < HELD_LIMIT }
    requires room { HELD_LIMIT ≤ vec_capacity held.old }
    ensures taken { HoldsTaken (I.to_come input.old) (I.to_come input.new) held.old.items held.new.items result }
    ensures most { IfOk result (λ k. k ≤ MOST_TAKEN) }
    ensures made { I.takes input.new ≡ incremented (I.takes input.old) }
    ensures gave { I.last_take input.new ≡ bytes_moved result }
    ensures room { vec_capacity held.old ≤ vec_capacity held.new }
    ensures count { I.failures input.new ≡ count_after (I.failures input.old) result }
    ensures end { I.ends input.new ≡ ends_after (I.ends input.old) result }
{
    let mut space = [0u8; MOST_TAKEN];
    let room = room_left(held);
    take_into(input, &mut space[..room], held)
}

/// The result of reading bytes as long as they are CR and LF.
#[derive(Clone, Copy)]
pub(crate) enum AfterBlank {
    /// The stream ended, and all bytes were CR and LF.
    Ended,
    /// Another byte was read.
    Other,
    /// Reading failed.
    Failed,
    /// Another read would exceed the limit.
    TooMany,
}

/// Reads and drops bytes as long as they are CR and LF, with at most `takes` reads.
fn pass_blank<I: Inlet>(input: &mut I, takes: u64) -> AfterBlank
    ensures passed { IsAfterBlank result takes (I.last_take input.new) (I.to_come input.old) (I.to_come input.new) }
    ensures most { ConsumesUpTo (takes * MOST_TAKEN) (I.to_come input.old) (I.to_come input.new) }
    ensures made { I.takes input.new ≤ I.takes input.old + takes }
    ensures on_failed_take { CountsFailedTake (I.failures input.old) (I.failures input.new) result }
    ensures ends { EndsLast (I.ends input.old) (I.ends input.new) (I.last_take input.new) }
{
    let mut space = [0u8; MOST_TAKEN];
    'passed: for _i in 0..takes {
        match input.take(&mut space) {
            Ok(0) => return AfterBlank::Ended,
            Ok(k) => {
                if !are_blank(&space[..k]) {
                    return AfterBlank::Other;
                }
            }
            Err(_) => return AfterBlank::Failed,
        }
    }
    AfterBlank::TooMany
}

/// Whether the held bytes are only CR and LF, and at least as many as a head may have. No valid message can follow
/// them.
fn is_long_blank(held: &[u8]) -> bool
    ensures blank { result ≡ true → are_line_breaks held.now ≡ true }
    ensures never { result ≡ true → NeverHas held.now }
    ensures room { result ≡ false → IsWanting held.now → length held.now < HELD_LIMIT }
{
    held.len() >= HEAD_LIMIT && are_blank(held)
}

/// Serves the rest of a stream after too many CR and LF bytes: it ends with more of them, or with a bad message.
fn serve_blank<I: Inlet, O: Outlet>(
    input: &mut I,
    output: &mut O,
    takes: u64,
) -> Result<(), IoFault>
    ensures end { IsBlankEnd result takes (I.last_take input.new) (I.to_come input.old) (I.to_come input.new) (O.already output.old) (O.already output.new) }
    ensures most { ConsumesUpTo (takes * MOST_TAKEN) (I.to_come input.old) (I.to_come input.new) }
    ensures made { I.takes input.new ≤ I.takes input.old + takes }
    ensures on_failed_take { ReportsTakeFailures (I.failures input.old) (I.failures input.new) result }
    ensures ends { EndsLast (I.ends input.old) (I.ends input.new) (I.last_take input.new) }
    ensures puts { ReportsPutFailures (O.failures output.old) (O.failures output.new) (O.last_failed output.new) result }
{
    match pass_blank(input, takes) {
        AfterBlank::Ended => Ok(()),
        AfterBlank::Other => match put_bad(output) {
            Ok(()) => Ok(()),
            Err(_) => Err(IoFault::Write),
        },
        AfterBlank::Failed => Err(IoFault::Read),
        AfterBlank::TooMany => Err(IoFault::TooManyReads),
    }
}

/// Finishes at the end of the input. The held bytes are only CR and LF, or a message that was cut off, which is bad.
fn finish<O: Outlet, D: Desk>(desk: &D, output: &mut O, held: &[u8]) -> Result<(), IoFault>
    requires { HasNone held.now }
    ensures end { AtEnd (AnswersMessage D.answers) result held.now desk.now (O.already output.old) (O.already output.new) }
    ensures puts { ReportsPutFailures (O.failures output.old) (O.failures output.new) (O.last_failed output.new) result }
{
    if are_blank(held) {
        return Ok(());
    }
    match put_bad(output) {
        Ok(()) => Ok(()),
        Err(_) => Err(IoFault::Write),
    }
}

/// All memory that serving itself needs, allocated before the first read. Requests and long replies need more.
#[derive(Drop)]
struct Ready {
    routes: Router<(Method, Template)>,
    held: Vec<u8>,
    /// No message ends before this many bytes.
    wanted: usize,
    buffers: ReplyBuffers,
}

/// Allocates the router, the buffer for input and the room for short replies.
#[tactic(auto, using(crate::proofs::MessageStanding::wants_none))]
fn prepared(alloc: Global) -> Result<Ready, AllocError>
    ensures routes { IfOk result (λ p. p.routes ≡ route_rows) }
    ensures held { IfOk result (λ p. (p.held.items ≡ []) × (HELD_LIMIT ≤ vec_capacity p.held)) }
    ensures below { IfOk result (λ p. WantsUntil p.wanted p.held.items) }
    ensures buffers { IfOk result (λ p. HasRoom p.buffers) }
{
    let buffers = ReplyBuffers::with_room(alloc)?;
    let held = Vec::with_capacity(alloc, HELD_LIMIT)?;
    match route_table(alloc) {
        Ok(routes) => Ok(Ready {
            routes,
            held,
            wanted: 0,
            buffers,
        }),
        Err(_) => Err(AllocError),
    }
}

/// Answers the messages of a stream, with memory that was allocated before.
fn serve_stream<I: Inlet, O: Outlet, D: Desk>(
    alloc: Global,
    ready: &mut Ready,
    desk: &mut D,
    input: &mut I,
    output: &mut O,
) -> Result<(), IoFault>
    requires routes { ready.old.routes ≡ route_rows }
    requires empty { ready.old.held.items ≡ [] }
    requires held { HELD_LIMIT ≤ vec_capacity ready.old.held }
    requires buffers { HasRoom ready.old.buffers }
    requires below { WantsUntil ready.old.wanted ready.old.held.items }
    ensures outcome { IsOutcome (AnswersMessage D.answers) result (I.to_come input.old) (I.to_come input.new) (I.last_take input.new) desk.old desk.new (O.already output.old) (O.already output.new) }
    ensures most { ConsumesUpTo (TAKES * MOST_TAKEN) (I.to_come input.old) (I.to_come input.new) }
    ensures takes { I.takes input.new ≤ I.takes input.old + TAKES }
    ensures on_failed_take { ReportsTakeFailures (I.failures input.old) (I.failures input.new) result }
    ensures ends { EndsLast (I.ends input.old) (I.ends input.new) (I.last_take input.new) }
    ensures puts { ReportsPutFailures (O.failures output.old) (O.failures output.new) (O.last_failed output.new) result }
{
    let mut taken = 0;
    'takes: loop {
        match serve_held(
            alloc,
            &ready.routes,
            desk,
            output,
            &mut ready.held,
            &mut ready.wanted,
            &mut ready.buffers,
        ) {
            Ok(true) => return Ok(()),
            Ok(false) => {}
            Err(_) => return Err(IoFault::Write),
        }
        if taken == TAKES {
            return Err(IoFault::TooManyReads);
        }
        if is_long_blank(&ready.held) {
            return serve_blank(input, output, TAKES - taken);
        }
        taken += 1;
        match take_more(input, &mut ready.held) {
            Ok(0) => return finish(desk, output, &ready.held),
            Ok(_) => {}
            Err(_) => return Err(IoFault::Read),
        }
    }
}

/// Answers the messages of a stream with any desk. Without memory it fails before the first read.
pub(crate) fn serve_desk<I: Inlet, O: Outlet, D: Desk>(
    alloc: Global,
    desk: &mut D,
    input: &mut I,
    output: &mut O,
) -> Result<(), IoFault>
    ensures served { IsServed (AnswersMessage D.answers) (λ P. P desk.old desk.new) I.Inlet O.Outlet input.old input.new output.old output.new result }
    ensures streams { UsesStreams I.Inlet O.Outlet input.old input.new output.old output.new result }
    ensures memory { result ≡ Err IoFault.Memory → (desk.new ≡ desk.old) × (input.new ≡ input.old) × (output.new ≡ output.old) }
{
    match prepared(alloc) {
        Ok(mut ready) => serve_stream(alloc, &mut ready, desk, input, output),
        Err(_) => Err(IoFault::Memory),
    }
}
