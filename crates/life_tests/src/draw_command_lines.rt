//! Command lines of `life-draw`, and the pictures that their arguments name.
use crate::arguments::{is_named, other_line};
use life_pictures::{Picture, read_draw_words};
use std::alloc::Global;

/// Command lines, and the picture that each names; `None` for a usage error.
const LINES: [(&str, Option<Picture>); 10] = [
    ("life-draw", None),
    ("life-draw png", None),
    ("life-draw text svg", None),
    ("life-draw --svg", None),
    ("life-draw svg --help", None),
    ("life-draw text", Some(Picture::Text)),
    ("life-draw svg", Some(Picture::Svg)),
    ("life-draw animation 3", None),
    ("life-draw animation 3 -1", None),
    (
        "life-draw animation 30 4",
        Some(Picture::Animation { first: 30, last: 4 }),
    ),
];

/// Whether the arguments name the picture, or are a usage error if it is `None`.
fn name(alloc: Global, words: &[&str], picture: Option<Picture>) -> bool {
    is_named(read_draw_words(alloc, words), picture)
}

#[test]
fn arguments_name_pictures(rt: HostRuntime) {
    assert_eq!(rt; other_line(rt.alloc(), &LINES, name), None);
}
