//! Command lines of `life-haul`, and the jobs that their arguments name.
use crate::arguments::{is_named, other_line};
use life_hauls::{HaulJob, HaulWords, SoupWords, Symmetry, read_haul_words};
use std::alloc::Global;

/// A thousand soups under Conway's Life.
const THOUSAND: HaulWords<'static> = HaulWords {
    root: "abc",
    first: 1,
    count: 1000,
    rule: "B3/S23",
    symmetry: Symmetry::C1,
    n: 2048,
    limit: 60,
};

/// A soup under Conway's Life.
const SOUP: SoupWords<'static> = SoupWords {
    root: "abc",
    number: 17,
    rule: "B3/S23",
    symmetry: Symmetry::C1,
};

/// The names of all symmetries.
const NAMES: [(&str, Symmetry); 7] = [
    ("C1", Symmetry::C1),
    ("8x32", Symmetry::EightRows),
    ("4x64", Symmetry::FourRows),
    ("2x128", Symmetry::TwoRows),
    ("1x256", Symmetry::OneRow),
    ("D2_+1", Symmetry::D2Plus1),
    ("D2_+2", Symmetry::D2Plus2),
];

/// Command lines, and the job that each names; `None` for a usage error.
const LINES: [(&str, Option<HaulJob<'static>>); 18] = [
    ("life-haul", None),
    ("life-haul abc 1 1000 2048", None),
    ("life-haul abc one 1000 2048 60", None),
    ("life-haul abc 1 1000 2048 60 --help", None),
    (
        "life-haul abc 1 1000 2048 60",
        Some(HaulJob::Haul(THOUSAND)),
    ),
    (
        "life-haul --rule B36/S23 abc 1 1000 2048 60",
        Some(HaulJob::Haul(HaulWords {
            rule: "B36/S23",
            ..THOUSAND
        })),
    ),
    (
        "life-haul -- soup 1 1000 2048 60",
        Some(HaulJob::Haul(HaulWords {
            root: "soup",
            ..THOUSAND
        })),
    ),
    ("life-haul soup abc 17", Some(HaulJob::Soup(SOUP))),
    (
        "life-haul soup abc 17 --rule B36/S23",
        Some(HaulJob::Soup(SoupWords {
            rule: "B36/S23",
            ..SOUP
        })),
    ),
    (
        "life-haul --symmetry 8x32 abc 1 1000 2048 60",
        Some(HaulJob::Haul(HaulWords {
            symmetry: Symmetry::EightRows,
            ..THOUSAND
        })),
    ),
    (
        "life-haul soup abc 17 --symmetry D2_+2",
        Some(HaulJob::Soup(SoupWords {
            symmetry: Symmetry::D2Plus2,
            ..SOUP
        })),
    ),
    (
        "life-haul soup abc 17 --symmetry=C1",
        Some(HaulJob::Soup(SOUP)),
    ),
    ("life-haul abc 1 1000 2048 60 --symmetry 32x8", None),
    ("life-haul soup abc 17 --symmetry d2_+2", None),
    ("life-haul --symmetry 8x32 soup abc 17", None),
    ("life-haul soup abc", None),
    ("life-haul abc soup abc 17", None),
    ("life-haul --rule B36/S23 soup abc 17", None),
];

#[test]
fn symmetries_are_read_by_their_names(rt: HostRuntime) {
    for (name, symmetry) in NAMES {
        assert_eq!(rt; symmetry.name(), name);
        assert_eq!(rt; Symmetry::named(name), Some(symmetry));
    }
    assert_eq!(rt; Symmetry::named(""), None);
}

/// Whether the arguments name the job, or are a usage error if it is `None`.
fn name(alloc: Global, words: &[&str], job: Option<HaulJob<'_>>) -> bool {
    is_named(read_haul_words(alloc, words), job)
}

#[test]
fn arguments_name_jobs(rt: HostRuntime) {
    assert_eq!(rt; other_line(rt.alloc(), &LINES, name), None);
}
