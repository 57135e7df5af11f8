//! Depositing files: in one piece, byte by byte, and with a read or a write that fails.
use crate::requests::{BLOCK, Example, GLIDER, other_in_memory};
use life_archive::{ArchiveStop, run_deposit};
use life_desk::Refusal;
use life_jobs::Stop;
use life_rle::RleFault;
use life_store::Archive;
use life_tests::job_streams::Flow;
use sqlite::Alter;
use std::alloc::Global;
use std::test::Fail;

/// A member and a token, a file, how it is read, the expected result and output, and how many deposits the archive has
/// then.
type Run = (
    (&'static str, &'static str),
    &'static str,
    Flow,
    Result<(), ArchiveStop>,
    &'static str,
    u64,
);

const UNFINISHED: &str = "x = 1, y = 1\n3o";

const UNREADABLE: ArchiveStop = ArchiveStop::Job(Stop::Unreadable);

const UNWRITABLE: ArchiveStop = ArchiveStop::Job(Stop::Unwritable);

const NO_END: ArchiveStop = ArchiveStop::Job(Stop::BadPattern(RleFault::NoEnd));

const NO_HEADER: ArchiveStop = ArchiveStop::Job(Stop::BadPattern(RleFault::NoHeader));

const BAD_MEMBER: ArchiveStop = ArchiveStop::Desk(Refusal::BadMember);

const BAD_TOKEN: ArchiveStop = ArchiveStop::Desk(Refusal::BadToken);

const TOKEN_REUSED: ArchiveStop = ArchiveStop::Desk(Refusal::TokenReused);

const FULL: ArchiveStop = ArchiveStop::Desk(Refusal::Full);

/// Deposits in a new archive of capacity 2, in turn.
const RUNS: [Run; 11] = [
    (
        ("ann", "t1"),
        GLIDER,
        Flow::Unreadable(9),
        Err(UNREADABLE),
        "",
        0,
    ),
    (("ann", "t1"), UNFINISHED, Flow::Whole, Err(NO_END), "", 0),
    (("Ann", "t1"), GLIDER, Flow::Whole, Err(BAD_MEMBER), "", 0),
    (("ann", "t1"), GLIDER, Flow::Whole, Ok(()), "deposit 1\n", 1),
    (
        ("ann", "t1"),
        GLIDER,
        Flow::Bytewise,
        Ok(()),
        "deposit 1\n",
        1,
    ),
    (("ann", "t1"), BLOCK, Flow::Whole, Err(TOKEN_REUSED), "", 1),
    // The archive has stored the block although its number can't be written.
    (
        ("ann", "t2"),
        BLOCK,
        Flow::Unwritable,
        Err(UNWRITABLE),
        "dep",
        2,
    ),
    (("ann", "t2"), BLOCK, Flow::Whole, Ok(()), "deposit 2\n", 2),
    (("ann", "t3"), BLOCK, Flow::Whole, Err(FULL), "", 2),
    (("ann", ""), BLOCK, Flow::Whole, Err(BAD_TOKEN), "", 2),
    (("bob", "t1"), "", Flow::Whole, Err(NO_HEADER), "", 2),
];

impl Example for Run {
    fn holds<S: Alter>(self, alloc: Global, archive: &mut Archive<S>) -> bool {
        let ((member, token), file, flow, answer, put, deposits) = self;
        let Ok(mut input) = flow.inlet(alloc, file.as_bytes()) else {
            return false;
        };
        let mut output = flow.outlet(alloc, put.as_bytes());
        let done = run_deposit(alloc, archive, member, token, &mut input, &mut output);
        let count = archive.count_deposits().ok();
        done == answer && output.bytes() == put.as_bytes() && count == Some(deposits)
    }
}

#[test]
fn files_are_deposited(rt: HostRuntime) -> Result<(), Fail> {
    assert_eq!(rt; other_in_memory(rt.alloc(), RUNS.as_slice()), None);
    Ok(())
}

/// Stops of a job over an archive, and their lines on standard error.
const LINES: [(ArchiveStop, &str); 5] = [
    (ArchiveStop::Job(Stop::Unavailable), "refused: unavailable"),
    (FULL, "refused: full"),
    (TOKEN_REUSED, "refused: token-reused"),
    (ArchiveStop::NotOurs, "refused: not-ours"),
    (ArchiveStop::NoPort, "refused: no-port"),
];

#[test]
fn stops_have_lines(rt: HostRuntime) {
    for (stop, line) in LINES {
        assert!(rt; stop.line() == line, "{line}");
    }
}
