//! Command lines of `life`, and the jobs that their arguments name.
use crate::arguments::{is_named, other_line};
use life_words::{Job, explanation, read_words, refusal_names};
use std::alloc::Global;
use std::test::Fail;

/// Command lines, and the job that each names; `None` for a usage error.
const LINES: [(&str, Option<Job<'static>>); 23] = [
    ("life", None),
    ("life generation", None),
    ("life generation x", None),
    ("life generation -1", None),
    ("life generation 18446744073709551616", None),
    ("life kind 1 2", None),
    ("life history 1", None),
    ("life serve --db f --port 0 --connections 1", None),
    ("life deposit ann t1", None),
    ("life check f", None),
    ("life explain", None),
    ("life explain no-ned", None),
    ("life explain no-end full", None),
    ("life generation 2049", Some(Job::Generation(2049))),
    (
        "life generation 18446744073709551615",
        Some(Job::Generation(u64::MAX)),
    ),
    ("life kind +4", Some(Job::Kind(4))),
    (
        "life object B3/S23 xs4_33 1",
        Some(Job::Object {
            rule: "B3/S23",
            code: "xs4_33",
            limit: 1,
        }),
    ),
    ("life census 7 2", Some(Job::Census { n: 7, limit: 2 })),
    (
        "life deposit --db f ann t1",
        Some(Job::Deposit {
            file: "f",
            member: "ann",
            token: "t1",
        }),
    ),
    (
        "life serve --connections 3 --port 65535 --db f",
        Some(Job::Serve {
            file: "f",
            port: 65_535,
            connections: 3,
        }),
    ),
    (
        "life check --db f",
        Some(Job::Check {
            file: "f",
            quick: false,
        }),
    ),
    (
        "life check --quick --db f",
        Some(Job::Check {
            file: "f",
            quick: true,
        }),
    ),
    ("life explain no-end", Some(Job::Explain("no-end"))),
];

/// Whether the arguments name the job, or are a usage error if it is `None`.
fn name(alloc: Global, words: &[&str], job: Option<Job<'_>>) -> bool {
    is_named(read_words(alloc, words), job)
}

#[test]
fn arguments_name_jobs(rt: HostRuntime) {
    assert_eq!(rt; other_line(rt.alloc(), &LINES, name), None);
}

#[test]
fn each_name_is_explained(rt: HostRuntime) -> Result<(), Fail> {
    let names = refusal_names(rt.alloc())?;
    assert_eq!(rt; names.len(), 34);
    for name in &names {
        assert!(rt; explanation(name).is_some(), "{name}");
    }
    assert!(rt; explanation("Full").is_none());
    Ok(())
}
