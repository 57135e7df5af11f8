//! The jobs of `life` without an archive, over streams in memory that may fail, and the lines of stops.
use crate::job_streams::{End, Run, other_run};
use life_code::CodeFault;
use life_jobs::{Stop, run_census, run_generation, run_kind, run_object};
use life_rle::{PieceInlet, PieceOutlet, RleFault};
use std::alloc::Global;

/// A job, with its numbers and arguments.
#[derive(Clone, Copy)]
enum Job {
    Generation(u64),
    Kind(u64),
    Object(&'static str, &'static str, u64),
    Census(u64, u64),
}

const GLIDER: &str = "#N Glider\nx = 3, y = 3\nbo$2bo$3o!\n";

const NEXT_GLIDER: &str = "x = 3, y = 3, rule = B3/S23\nobo$b2o$bo!\n";

/// Three cells that become a block in the next generation.
const BEFORE_A_BLOCK: &str = "x = 2, y = 2\n2o$o!\n";

const GENERATION: Job = Job::Generation(1);

const KIND: Job = Job::Kind(4);

const KIND_LINE: &str = "ship 4 1 1 xq4_153\n";

const OBJECT: Job = Job::Object("B3/S23", "xs6_696", 1);

const BEEHIVE: &str = "x = 3, y = 4, rule = B3/S23\nbo$obo$obo$bo!\n";

const CENSUS: Job = Job::Census(1, 1);

const TABLE: &str = "code,count\nxs4_33,1\nunresolved,0\n";

const NO_END: Stop = Stop::BadPattern(RleFault::NoEnd);

const NO_HEADER: Stop = Stop::BadPattern(RleFault::NoHeader);

const NOT_CANONICAL: Stop = Stop::BadCode(CodeFault::NotCanonical);

const OUT_OF_LIMIT: End = End::Stopped(Stop::OutOfLimit);

/// Jobs that succeed, and jobs whose streams fail.
const FLOWS: [Run<Job>; 12] = [
    (GENERATION, GLIDER, End::Done(NEXT_GLIDER)),
    (GENERATION, GLIDER, End::Unreadable(1)),
    (GENERATION, GLIDER, End::Unreadable(12)),
    (GENERATION, GLIDER, End::Unwritable("x = 3, y")),
    (KIND, GLIDER, End::Done(KIND_LINE)),
    (KIND, GLIDER, End::Unreadable(3)),
    (KIND, GLIDER, End::Unwritable("")),
    (OBJECT, "", End::Done(BEEHIVE)),
    (
        OBJECT,
        "",
        End::Unwritable("x = 3, y = 4, rule = B3/S23\nbo$"),
    ),
    (CENSUS, BEFORE_A_BLOCK, End::Done(TABLE)),
    (CENSUS, BEFORE_A_BLOCK, End::Unreadable(16)),
    (CENSUS, BEFORE_A_BLOCK, End::Unwritable("code,count\nxs4")),
];

/// Jobs that are refused, and the limits of their numbers.
const LIMITS: [Run<Job>; 13] = [
    (Job::Generation(2049), GLIDER, OUT_OF_LIMIT),
    (GENERATION, "x = 1, y = 1\n3o", End::Stopped(NO_END)),
    (GENERATION, "", End::Stopped(NO_HEADER)),
    (Job::Kind(3), GLIDER, End::Done("unresolved\n")),
    (Job::Kind(2048), GLIDER, End::Done(KIND_LINE)),
    (Job::Kind(0), GLIDER, OUT_OF_LIMIT),
    (Job::Kind(2049), GLIDER, OUT_OF_LIMIT),
    (Job::Object("B0/S23", "xs6_696", 0), "", OUT_OF_LIMIT),
    (
        Job::Object("B0/S23", "xs6_696", 1),
        "",
        End::Stopped(Stop::BadRule),
    ),
    (
        Job::Object("B3/S23", "xp2_111", 2),
        "",
        End::Stopped(NOT_CANONICAL),
    ),
    (Job::Census(2049, 1), BEFORE_A_BLOCK, OUT_OF_LIMIT),
    (Job::Census(0, 0), BEFORE_A_BLOCK, OUT_OF_LIMIT),
    (Job::Census(0, 2049), BEFORE_A_BLOCK, OUT_OF_LIMIT),
];

/// Runs a job over these streams.
fn done(
    alloc: Global,
    job: Job,
    input: &mut PieceInlet,
    output: &mut PieceOutlet,
) -> Result<(), Stop> {
    match job {
        Job::Generation(n) => run_generation(alloc, n, input, output),
        Job::Kind(limit) => run_kind(alloc, limit, input, output),
        Job::Object(rule, code, limit) => run_object(alloc, rule, code, limit, output),
        Job::Census(n, limit) => run_census(alloc, n, limit, input, output),
    }
}

#[test]
fn jobs_go_by_their_streams(rt: HostRuntime) {
    assert_eq!(rt; other_run(rt.alloc(), &FLOWS, done), None);
}

#[test]
fn jobs_are_refused(rt: HostRuntime) {
    assert_eq!(rt; other_run(rt.alloc(), &LIMITS, done), None);
}

/// Stops, and their lines on standard error.
const LINES: [(Stop, &str); 7] = [
    (Stop::OutOfLimit, "refused: out-of-limit"),
    (NO_END, "refused: bad-pattern no-end"),
    (Stop::BadRule, "refused: bad-rule"),
    (NOT_CANONICAL, "refused: bad-code not-canonical"),
    (Stop::Unreadable, "refused: unreadable"),
    (Stop::Unavailable, "refused: unavailable"),
    (Stop::Unwritable, ""),
];

#[test]
fn stops_have_lines(rt: HostRuntime) {
    for (stop, line) in LINES {
        assert!(rt; stop.line() == line, "{line}");
    }
}
