//! Hauls and soups, written into memory. The expected tables of hauls, and the soups of symmetries other than C1, come
//! from a separate program that uses Python's SHA-256. The soup of C1 comes from `sha256sum` and `basenc`.
use life_hauls::{
    HaulJob, HaulWatch, HaulWords, SoupWords, Symmetry, Unwatched, laws_of_hauls, laws_of_soups,
    run_haul, run_soup,
};
use life_jobs::Stop;
use life_rle::{MemoryOutlet, Outlet, PieceOutlet};
use std::alloc::Global;

/// Three soups under Conway's Life, counted at generation 500.
const THREE: HaulWords<'static> = HaulWords {
    root: "tst",
    first: 0,
    count: 3,
    rule: "B3/S23",
    symmetry: Symmetry::C1,
    n: 500,
    limit: 4,
};

const TABLE: &str = "\
# root tst
# rule B3/S23
# generation 500
# limit 4
code,count,first
xp2_7,4,0
xp2_s01110szw66,1,2
xq4_153,5,0
xs4_252,1,1
xs4_33,5,1
xs5_253,1,1
xs6_356,2,1
xs6_696,6,0
xs8_6996,1,2
unresolved,1,1
clusters,27,
soups,3,0
";

/// The table for the same soups with symmetry 8x32: 8 rows of 32 cells.
const WIDE: &str = "\
# root tst
# rule B3/S23
# generation 500
# limit 4
# symmetry 8x32
code,count,first
xp2_1110s,1,2
xp2_652zs01110szw222,1,2
xp2_7,6,1
xp2_s01110szw222,3,0
xq4_153,3,2
xs4_33,12,0
xs5_253,2,2
xs6_356,2,2
xs6_696,7,0
xs7_2596,1,2
unresolved,15,2
clusters,53,
soups,3,0
";

/// The table for the same soups with symmetry D2_+2: each with its mirror image.
const MIRRORED: &str = "\
# root tst
# rule B3/S23
# generation 500
# limit 4
# symmetry D2_+2
code,count,first
xp2_33ws,2,1
xp2_7,10,0
xp2_70ggg07,6,0
xp2_s01110szw222,2,2
xq4_153,8,0
xs14_0g06996z343,2,2
xs4_33,29,0
xs5_253,4,1
xs6_356,4,0
xs6_696,13,0
xs7_2596,2,0
xs8_6996,4,0
unresolved,22,0
clusters,108,
soups,3,0
";

/// A soup under Conway's Life.
const SOUP: SoupWords<'static> = SoupWords {
    root: "ann-2026",
    number: 481,
    rule: "23/3",
    symmetry: Symmetry::C1,
};

const TEXT: &str = "\
x = 16, y = 16, rule = B3/S23
4ob9o$5bo2b3o2bobo$2o4b2obobobo$3obob2ob3ob3o$2b4o2b4o2bo$o2b2o3b6o$2b
o2b2o2bo3bo$6o2b7o$b3o4bo4b3o$bo3bob2o2b5o$o2b3o3b3o2bo$obobo4bo3bobo$
3bobob2o2b5o$2bo2bobo2b6o$bo3bobob4o2bo$b2o3b2obo4bo!
";

const EIGHT_ROWS: &str = "\
x = 32, y = 8, rule = B3/S23
4ob9o7bo2b3o2bobo$2o4b2obobobo2b3obob2ob3ob3o$2b4o2b4o2bobo2b2o3b6o$2b
o2b2o2bo3bo2b6o2b7o$b3o4bo4b3obo3bob2o2b5o$o2b3o3b3o2bobobobo4bo3bobo$
3bobob2o2b5o2bo2bobo2b6o$bo3bobob4o2bob2o3b2obo4bo!
";

const FOUR_ROWS: &str = "\
x = 64, y = 4, rule = B3/S23
4ob9o7bo2b3o2bob3o4b2obobobo2b3obob2ob3ob3o$2b4o2b4o2bobo2b2o3b6o4bo2b
2o2bo3bo2b6o2b7o$b3o4bo4b3obo3bob2o2b6o2b3o3b3o2bobobobo4bo3bobo$3bobo
b2o2b5o2bo2bobo2b6obo3bobob4o2bob2o3b2obo4bo!
";

const TWO_ROWS: &str = "\
x = 127, y = 2, rule = B3/S23
4ob9o7bo2b3o2bob3o4b2obobobo2b3obob2ob3ob3o2b4o2b4o2bobo2b2o3b6o4bo2b
2o2bo3bo2b6o2b7o$b3o4bo4b3obo3bob2o2b6o2b3o3b3o2bobobobo4bo3bobo3bobob
2o2b5o2bo2bobo2b6obo3bobob4o2bob2o3b2obo4bo!
";

const ONE_ROW: &str = "\
x = 255, y = 1, rule = B3/S23
4ob9o7bo2b3o2bob3o4b2obobobo2b3obob2ob3ob3o2b4o2b4o2bobo2b2o3b6o4bo2b
2o2bo3bo2b6o2b7o2b3o4bo4b3obo3bob2o2b6o2b3o3b3o2bobobobo4bo3bobo3bobob
2o2b5o2bo2bobo2b6obo3bobob4o2bob2o3b2obo4bo!
";

const ODD: &str = "\
x = 16, y = 31, rule = B3/S23
b2o3b2obo4bo$bo3bobob4o2bo$2bo2bobo2b6o$3bobob2o2b5o$obobo4bo3bobo$o2b
3o3b3o2bo$bo3bob2o2b5o$b3o4bo4b3o$6o2b7o$2bo2b2o2bo3bo$o2b2o3b6o$2b4o
2b4o2bo$3obob2ob3ob3o$2o4b2obobobo$5bo2b3o2bobo$4ob9o$5bo2b3o2bobo$2o
4b2obobobo$3obob2ob3ob3o$2b4o2b4o2bo$o2b2o3b6o$2bo2b2o2bo3bo$6o2b7o$b
3o4bo4b3o$bo3bob2o2b5o$o2b3o3b3o2bo$obobo4bo3bobo$3bobob2o2b5o$2bo2bob
o2b6o$bo3bobob4o2bo$b2o3b2obo4bo!
";

const EVEN: &str = "\
x = 16, y = 32, rule = B3/S23
b2o3b2obo4bo$bo3bobob4o2bo$2bo2bobo2b6o$3bobob2o2b5o$obobo4bo3bobo$o2b
3o3b3o2bo$bo3bob2o2b5o$b3o4bo4b3o$6o2b7o$2bo2b2o2bo3bo$o2b2o3b6o$2b4o
2b4o2bo$3obob2ob3ob3o$2o4b2obobobo$5bo2b3o2bobo$4ob9o$4ob9o$5bo2b3o2bo
bo$2o4b2obobobo$3obob2ob3ob3o$2b4o2b4o2bo$o2b2o3b6o$2bo2b2o2bo3bo$6o2b
7o$b3o4bo4b3o$bo3bob2o2b5o$o2b3o3b3o2bo$obobo4bo3bobo$3bobob2o2b5o$2bo
2bobo2b6o$bo3bobob4o2bo$b2o3b2obo4bo!
";

/// Symmetries, and the output for the three soups in them.
const HAULS: [(Symmetry, &str); 3] = [
    (Symmetry::C1, TABLE),
    (Symmetry::EightRows, WIDE),
    (Symmetry::D2Plus2, MIRRORED),
];

/// Symmetries, and the output for the soup in them.
const SOUPS: [(Symmetry, &str); 7] = [
    (Symmetry::C1, TEXT),
    (Symmetry::EightRows, EIGHT_ROWS),
    (Symmetry::FourRows, FOUR_ROWS),
    (Symmetry::TwoRows, TWO_ROWS),
    (Symmetry::OneRow, ONE_ROW),
    (Symmetry::D2Plus1, ODD),
    (Symmetry::D2Plus2, EVEN),
];

/// Numbers of hauls, one of them out of range: the first soup, how many soups, the generation, and the limit on the
/// period.
const OUT_OF_LIMIT: [(u64, u64, u64, u64); 5] = [
    (0, 0, 500, 4),
    (0, 1_000_001, 500, 4),
    (9_007_199_254_740_993, 3, 500, 4),
    (0, 3, 2049, 4),
    (0, 3, 500, 0),
];

/// Roots and rules, one of them invalid, and the refusal.
const BAD_TEXTS: [(&str, &str, Stop); 3] = [
    ("a b", "B3/S23", Stop::OutOfLimit),
    ("", "B3/S23", Stop::OutOfLimit),
    ("tst", "B0/S", Stop::BadRule),
];

/// Runs the job, with its output in the stream.
fn done<O: Outlet>(alloc: Global, job: HaulJob<'_>, output: &mut O) -> Result<(), Stop> {
    match job {
        HaulJob::Haul(words) => run_haul(alloc, words, output, &mut Unwatched),
        HaulJob::Soup(words) => run_soup(alloc, words, output),
    }
}

/// Whether the job returns this and writes this.
fn answers(alloc: Global, job: HaulJob<'_>, answer: Result<(), Stop>, text: &str) -> bool {
    let mut output = MemoryOutlet::new(alloc);
    done(alloc, job, &mut output) == answer && output.bytes() == text.as_bytes()
}

#[test]
fn hauls_are_put(rt: HostRuntime) {
    for (symmetry, text) in HAULS {
        let job = HaulJob::Haul(HaulWords { symmetry, ..THREE });
        assert!(rt; answers(rt.alloc(), job, Ok(()), text), "{job:?}");
    }
}

#[test]
fn soups_are_put(rt: HostRuntime) {
    for (symmetry, text) in SOUPS {
        let job = HaulJob::Soup(SoupWords { symmetry, ..SOUP });
        assert!(rt; answers(rt.alloc(), job, Ok(()), text), "{job:?}");
    }
}

#[test]
fn numbers_are_out_of_their_limits(rt: HostRuntime) {
    let out = Err(Stop::OutOfLimit);
    let number = 9_007_199_255_740_992;
    let soup = HaulJob::Soup(SoupWords { number, ..SOUP });
    assert!(rt; answers(rt.alloc(), soup, out, ""), "{soup:?}");
    for (first, count, n, limit) in OUT_OF_LIMIT {
        let haul = HaulJob::Haul(HaulWords {
            first,
            count,
            n,
            limit,
            ..THREE
        });
        assert!(rt; answers(rt.alloc(), haul, out, ""), "{haul:?}");
    }
}

#[test]
fn roots_and_rules_are_refused(rt: HostRuntime) {
    for (root, rule, stop) in BAD_TEXTS {
        let haul = HaulJob::Haul(HaulWords {
            root,
            rule,
            ..THREE
        });
        assert!(rt; answers(rt.alloc(), haul, Err(stop), ""), "{haul:?}");
        let soup = HaulJob::Soup(SoupWords { root, rule, ..SOUP });
        assert!(rt; answers(rt.alloc(), soup, Err(stop), ""), "{soup:?}");
    }
}

#[test]
fn a_failed_put_is_told(rt: HostRuntime) {
    for job in [HaulJob::Haul(THREE), HaulJob::Soup(SOUP)] {
        let mut output = PieceOutlet::new(rt.alloc(), 10, Some(1));
        assert_eq!(rt;
            done(rt.alloc(), job, &mut output),
            Err(Stop::Unwritable),
            "{job:?}"
        );
    }
}

/// Records the calls of a watch: how many, and the last one.
#[derive(Drop)]
struct Told {
    times: u64,
    last: (u64, u64),
}

impl HaulWatch for Told {
    fn report(&mut self, done: u64, count: u64) {
        self.times = self.times.saturating_add(1);
        self.last = (done, count);
    }

    fn ended(&mut self) {}
}

#[test]
fn the_watch_is_told_of_each_soup(rt: HostRuntime) {
    let mut told = Told {
        times: 0,
        last: (0, 0),
    };
    let mut output = MemoryOutlet::new(rt.alloc());
    assert_eq!(rt; run_haul(rt.alloc(), THREE, &mut output, &mut told), Ok(()));
    assert_eq!(rt; output.bytes(), TABLE.as_bytes());
    assert_eq!(rt; told.times, 3);
    assert_eq!(rt; told.last, (3, 3));
}

#[test]
fn laws_are_calls() {
    laws_of_soups();
    laws_of_hauls();
}
