//! Depositing the pattern file from the input.
ghost use Rattle.std.specs.Prelude.{◌≡◌, ◌≢◌, ◌∷◌, [], IfOk, IsTrue, OnOk, OnErr, Err};
ghost use Rattle.std.specs.Fmt.{decimal};
ghost use Rattle.life_rle.specs.Stream.{FailsLast, Appends, AppendsSome};
ghost use Rattle.sqlite_trees.specs.Tree.{Trees};
ghost use Rattle.life_store.specs.Kept.{Kept};
ghost use Rattle.life_store.specs.Tables.{Holds, TreesHold};
ghost use Rattle.life_desk.specs.declared.request.Request.TheVariants as requests;
ghost use Rattle.life_desk.specs.Run.{Answered};
ghost use Rattle.life_jobs.specs.Streams.{TakesFile, PutsOnce};
ghost use Rattle.life_jobs.specs.declared.stop.Stop.TheVariants.{Unreadable};
ghost use Rattle.life_archive.specs.declared.archive_stop.ArchiveStop.TheVariants.{Job};
ghost use Rattle.life_archive.specs.Deposit.{IsFileTaken, IsUnasked, deposit_line, desk_stop, by_streams, PutsReply, Deposits, IsDepositSafe};

use crate::archive_stop::ArchiveStop;
use itoa::Buffer;
use life_desk::{Bytes, Refusal, Reply, Request, answer};
use life_jobs::Stop;
use life_rle::{Failed, Inlet, Outlet, Text, put_all};
use life_store::Archive;
use sqlite::Alter;
use std::alloc::{AllocError, Global};

/// One byte more than a file may have, so that the archive sees and refuses a file that is too long.
const MOST_TAKEN: usize = 1_048_577;

/// Reads the input to its end, or up to one byte more than a file may have.
fn take_file<I: Inlet>(alloc: Global, input: &mut I) -> Result<Vec<u8>, ArchiveStop>
    ensures taken { IfOk result (λ file. IsFileTaken (I.to_come input.old) file.items) }
    ensures unasked { OnErr result (IsUnasked result) }
    ensures takes { TakesFile (I.to_come input.old) (I.to_come input.new) (I.failures input.old) (I.failures input.new) (I.ends input.old) (I.ends input.new) (I.last_take input.new) (by_streams result) }
{
    let mut file = Vec::new(alloc);
    let mut buffer = [0u8; 4096];
    while file.len() < MOST_TAKEN {
        let room = buffer.len().min(MOST_TAKEN - file.len());
        let space = &mut buffer[..room];
        match input.take(space) {
            Err(_) => return Err(ArchiveStop::Job(Stop::Unreadable)),
            Ok(0) => return Ok(file),
            Ok(k) => match file.extend_from_slice(&space[..k]) {
                Ok(()) => {}
                Err(_) => return Err(ArchiveStop::Job(Stop::Unavailable)),
            },
        }
    }
    Ok(file)
}

/// The request for the deposit. The file is moved; the member and the token are copied.
fn deposit_request(
    alloc: Global,
    member: &str,
    token: &str,
    file: Vec<u8>,
) -> Result<Request, AllocError>
    ensures { IfOk result (λ request. request ≡ requests.Deposit member.now token.now file.items) }
{
    Ok(Request::Deposit {
        member: Text::from_slice(alloc, member.as_bytes())?,
        token: Text::from_slice(alloc, token.as_bytes())?,
        file: Bytes::of(file),
    })
}

/// The stop for a refusal of the archive. Two refusals have a line that jobs without an archive share.
fn desk_stop(refusal: Refusal) -> ArchiveStop
    ensures { result ≡ desk_stop refusal }
{
    match refusal {
        Refusal::BadPattern(fault) => ArchiveStop::Job(Stop::BadPattern(fault)),
        Refusal::Unavailable => ArchiveStop::Job(Stop::Unavailable),
        _ => ArchiveStop::Desk(refusal),
    }
}

/// Writes a number in decimal digits.
fn put_decimal<O: Outlet>(output: &mut O, n: u64) -> Result<(), Failed>
    ensures all { OnOk result (Appends (O.already output.old) (O.already output.new) (decimal n)) }
    ensures some { OnErr result (AppendsSome (O.already output.old) (O.already output.new) (decimal n)) }
    ensures count { OnOk result (O.failures output.new ≡ O.failures output.old) }
    ensures failed { OnErr result (FailsLast (O.failures output.old) (O.failures output.new) (O.last_failed output.new)) }
{
    put_all(output, Buffer::new().format(n).as_bytes())
}

/// Writes the line of a deposit. It needs no allocation, so running out of memory can't hide a stored deposit.
fn put_number<O: Outlet>(output: &mut O, id: u64) -> Result<(), Failed>
    ensures all { OnOk result (Appends (O.already output.old) (O.already output.new) (deposit_line id)) }
    ensures some { OnErr result (AppendsSome (O.already output.old) (O.already output.new) (deposit_line id)) }
    ensures count { OnOk result (O.failures output.new ≡ O.failures output.old) }
    ensures failed { OnErr result (FailsLast (O.failures output.old) (O.failures output.new) (O.last_failed output.new)) }
{
    match put_all(output, b"deposit ") {
        Ok(()) => {}
        Err(fault) => return Err(fault),
    }
    match put_decimal(output, id) {
        Ok(()) => {}
        Err(fault) => return Err(fault),
    }
    match put_all(output, b"\n") {
        Ok(()) => Ok(()),
        Err(fault) => Err(fault),
    }
}

/// Writes the number of a deposit, or returns why it was refused.
fn put_reply<O: Outlet>(output: &mut O, reply: Reply) -> Result<(), ArchiveStop>
    ensures puts { PutsReply reply (O.already output.old) (O.already output.new) result }
    ensures once { PutsOnce output.old output.new (O.failures output.old) (O.failures output.new) (O.last_failed output.new) (by_streams result) }
    ensures readable { result ≢ Err (Job Unreadable) }
{
    match reply {
        Reply::Deposited(id) => match put_number(output, id) {
            Ok(()) => Ok(()),
            Err(_) => Err(ArchiveStop::Job(Stop::Unwritable)),
        },
        Reply::Refused(refusal) => Err(desk_stop(refusal)),
        _ => Err(ArchiveStop::Job(Stop::Unavailable)),
    }
}

/// The archive's reply to the request. A separate function, with only the clause that a deposit needs.
fn reply_of<S: Alter>(alloc: Global, archive: &mut Archive<S>, request: Request) -> Reply
    ensures { Answered S.Store archive.old archive.new (request ∷ []) (result ∷ []) }
{
    answer(archive, alloc, request)
}

/// Reads a file to its end, deposits it under the member and the token, and writes the number of the deposit as one
/// line.
pub fn run_deposit<S: Alter, I: Inlet, O: Outlet>(
    alloc: Global,
    archive: &mut Archive<S>,
    member: &str,
    token: &str,
    input: &mut I,
    output: &mut O,
) -> Result<(), ArchiveStop>
    // The archive is unchanged, or it got one request, with the file from the input, and its reply decides the result.
    ensures deposits { Deposits S.Store archive.old archive.new member.now token.now (I.to_come input.old) (O.already output.old) (O.already output.new) result }
    // A crash during the call leaves the archive unchanged or with the deposit. If the number was written, it has the
    // deposit.
    ensures crash { IsDepositSafe S.Store archive.old archive.new member.now token.now (I.to_come input.old) (O.already output.old) (O.already output.new) result }
    ensures takes { TakesFile (I.to_come input.old) (I.to_come input.new) (I.failures input.old) (I.failures input.new) (I.ends input.old) (I.ends input.new) (I.last_take input.new) (by_streams result) }
    ensures once { PutsOnce output.old output.new (O.failures output.old) (O.failures output.new) (O.last_failed output.new) (by_streams result) }
    // Includes the law of crashes, so that callers pass on the traits of the store only once.
    ensures law { IsTrue archive.old.tables.is_healthy → (k : Kept) → Holds archive.old.tables k → (db : Trees) → S.Store.recovers archive.old.store db → TreesHold db k }
{
    archive.law_of_crashes();
    let file = match take_file(alloc, input) {
        Ok(file) => file,
        Err(stop) => return Err(stop),
    };
    let request = match deposit_request(alloc, member, token, file) {
        Ok(request) => request,
        Err(_) => return Err(ArchiveStop::Job(Stop::Unavailable)),
    };
    put_reply(output, reply_of(alloc, archive, request))
}
