//! Sessions over files in memory: an archive is opened over them, serves connections, and is dropped. Later sessions
//! use the files as a stop at any call left them.
ghost use Rattle.std.specs.Prelude.{◌≡◌, ◌∷◌, ℕ, List, IfSome};
ghost use Rattle.life_rle.specs.Stream.{incremented};
ghost use Rattle.life_archive.specs.Session.{ServesOne};
ghost use Rattle.archive_tests.specs.Sessions.{sends, streams_from};

use crate::archive_file_tests::{Stoppable, Stopping, blank, survives_each_stop};
use crate::stops::again;
use life_archive::{ArchiveStop, Connections, run_serve, serve_files};
use life_rle::{MemoryOutlet, SliceInlet};
use life_store::Archive;
use sqlite::{Alter, Files};
use sqlite_disk::Disk;
use std::alloc::Global;

/// One more failure, up to the greatest `u64`.
fn one_more(failures: u64) -> u64
    ensures { result ≡ incremented failures }
{
    failures.saturating_add(1)
}

/// Serves one connection that sends these bytes. Returns how many connections have failed by then, given how many had
/// failed before.
fn serve_sent<S: Alter>(
    alloc: Global,
    archive: &mut Archive<S>,
    sent: &[u8],
    output: &mut MemoryOutlet,
    failures: u64,
) -> u64
    ensures { (later : List (List ℕ)) → ServesOne S.Store archive.old archive.new (sends (sent.now ∷ later) failures) (sends later result) }
{
    match run_serve(alloc, archive, &mut SliceInlet::new(sent), output) {
        Ok(()) => failures,
        Err(_) => one_more(failures),
    }
}

/// The stream at this index, if any, and the next index.
fn stream_at<'a>(sent: &'a [&'a [u8]], index: usize) -> Option<(&'a [u8], usize)>
    ensures { IfSome result (λ found. streams_from index sent.now ≡ found.0.now ∷ streams_from found.1 sent.now) }
{
    match sent.get(index).copied() {
        Some(stream) => Some((stream, index + 1)),
        None => None,
    }
}

/// Peers that send these bytes in turn, and the replies that each received.
#[derive(Drop)]
struct Peers<'a> {
    sent: &'a [&'a [u8]],
    /// The index of the next peer.
    next: usize,
    put: Vec<MemoryOutlet>,
    failures: u64,
}

impl Connections for Peers<'_> {
    // Only the sent bytes are known. Recording the replies may run out of memory, so no clause mentions them.
    ghost traffic = { λ s. sends (streams_from s.next s.sent.now) s.failures };

    fn listen(&mut self) -> Result<(), ArchiveStop> {
        Ok(())
    }

    fn serve_next<S: Alter>(&mut self, alloc: Global, archive: &mut Archive<S>) {
        let Some(found) = stream_at(self.sent, self.next) else {
            let failures = one_more(self.failures);
            self.failures = failures;
            return;
        };
        let mut output = MemoryOutlet::new(alloc);
        let failures = serve_sent(alloc, archive, found.0, &mut output, self.failures);
        self.failures = failures;
        self.next = found.1;
        // A reply that could not be recorded is not compared.
        let _stored = self.put.push(output);
    }
}

/// A summary of a session's replies: how many acknowledge a deposit, and how many deposits the last reply lists.
#[derive(Clone, Copy)]
struct Replies {
    acknowledged: usize,
    listed: usize,
}

/// How often the text occurs in the bytes.
fn count_of(bytes: &[u8], text: &[u8]) -> usize {
    let mut count = 0_usize;
    for at in 0..bytes.len() {
        if bytes[at..].starts_with(text) {
            count = count.saturating_add(1);
        }
    }
    count
}

/// Summarizes the replies of a session.
fn seen(put: &[MemoryOutlet]) -> Replies {
    let mut acknowledged = 0_usize;
    let mut listed = 0;
    for output in put {
        if output.bytes().starts_with(b"HTTP/1.1 201 Created\r\n") {
            acknowledged = acknowledged.saturating_add(1);
        }
        listed = count_of(output.bytes(), b"\"id\":");
    }
    Replies {
        acknowledged,
        listed,
    }
}

/// A session over files of any type. Returns the summary of its replies, and the files.
fn session_over<D: Disk + Drop>(
    alloc: Global,
    files: Files<D>,
    sent: &[&[u8]],
) -> (Replies, Files<D>) {
    let mut peers = Peers {
        sent,
        next: 0,
        put: Vec::new(alloc),
        failures: 0,
    };
    if !files.may_be_used() {
        return (seen(&peers.put), files);
    }
    let count = sent.len() as u64;
    let files = match serve_files(alloc, files, 2, &mut peers, count) {
        Ok(Ok(files)) | Ok(Err(files)) | Err((_, files)) => files,
    };
    (seen(&peers.put), files)
}

/// A session over files that may stop.
fn session(alloc: Global, files: Files<Stopping>, sent: &[&[u8]]) -> (Replies, Files<Stopping>) {
    session_over(alloc, files, sent)
}

const GLIDER: &[u8] =
    b"POST /deposits HTTP/1.1\r\nx-member: ann\r\nx-token: t1\r\ncontent-length: 24\r\n\r\nx = 3, y = 3\nbo$2bo$3o!\n";

const BLOCK: &[u8] =
    b"POST /deposits HTTP/1.1\r\nx-member: ann\r\nx-token: t2\r\ncontent-length: 20\r\n\r\nx = 2, y = 2\n2o$2o!\n";

const LIST: &[u8] = b"GET /deposits/after/0 HTTP/1.1\r\n\r\n";

/// Sent to the first session, each on its own connection: two deposits, and a request for the list.
const KEEPS: [&[u8]; 3] = [GLIDER, BLOCK, LIST];

/// Sent to the second session: a request for the list that the first one left.
const LISTS: [&[u8]; 1] = [LIST];

/// Sent to the third session: the same deposits once more, and a request for the list.
const KEEPS_AGAIN: [&[u8]; 3] = [GLIDER, BLOCK, LIST];

/// Three sessions; the first is over files that stop.
#[derive(Clone, Copy)]
struct Sessions;

impl Stoppable for Sessions {
    /// Whether the first session acknowledged both deposits, with a stop after more than 100 calls. And whether the
    /// second found every acknowledged deposit and at most two, and repeating both deposits stored each only once.
    fn stop_at(self, alloc: Global, log_calls: u64, db_calls: u64) -> Option<(bool, bool)> {
        let (first, files) = session(alloc, blank(alloc, log_calls, db_calls), KEEPS.as_slice());
        let files = again(alloc, &files, u64::MAX, u64::MAX)?;
        let (found, files) = session(alloc, files, LISTS.as_slice());
        let (last, _files) = session(alloc, files, KEEPS_AGAIN.as_slice());
        let all = first.acknowledged <= found.listed && found.listed <= 2;
        Some((
            first.acknowledged == 2 && log_calls.min(db_calls) > 100,
            all && last.acknowledged == 2 && last.listed == 2,
        ))
    }
}

#[test]
fn sessions_stand_each_stop(rt: HostRuntime) {
    assert!(rt; survives_each_stop(rt.alloc(), Sessions, true), "the log");
    assert!(rt;
        survives_each_stop(rt.alloc(), Sessions, false),
        "the database"
    );
}
