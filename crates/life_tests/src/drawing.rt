//! Drawing files over streams in memory: in one piece, byte by byte, and with a read or a write that fails.
use crate::job_streams::{End, Run, other_run};
use life_jobs::Stop;
use life_pictures::{Picture, laws_of_pictures, run_draw};
use life_rle::{PieceInlet, PieceOutlet, RleFault};
use std::alloc::Global;

const GLIDER: &str = "#N Glider\nx = 3, y = 3\nbo$2bo$3o!\n";

const GLIDER_TEXT: &str = " ▀▄\n▀▀▀\n";

const GLIDER_SVG: &str = "\
<svg xmlns=\"http://www.w3.org/2000/svg\" viewBox=\"-1 -1 5 5\" shape-rendering=\"crispEdges\">
<title>Glider</title>
<rect x=\"-1\" y=\"-1\" width=\"5\" height=\"5\" fill=\"white\"/>
<path d=\"M1 0h1v1h-1zM2 1h1v1h-1zM0 2h3v1h-3z\"/>
</svg>
";

const EMPTY: &str = "x = 0, y = 0\n!\n";

const EMPTY_SVG: &str = "\
<svg xmlns=\"http://www.w3.org/2000/svg\" viewBox=\"-1 -1 2 2\" shape-rendering=\"crispEdges\">
<rect x=\"-1\" y=\"-1\" width=\"2\" height=\"2\" fill=\"white\"/>
<path d=\"\"/>
</svg>
";

/// Two cells with a name whose characters XML has to escape, or can't have.
const NAMED: &str = "#N <&> \"ä\" \u{1}\rx\u{FFFF}\nx = 3, y = 1\nobo!\n";

const NAMED_SVG: &str = "\
<svg xmlns=\"http://www.w3.org/2000/svg\" viewBox=\"-1 -1 5 3\" shape-rendering=\"crispEdges\">
<title>&lt;&amp;&gt; \"ä\" \u{FFFD}&#13;x\u{FFFD}</title>
<rect x=\"-1\" y=\"-1\" width=\"5\" height=\"3\" fill=\"white\"/>
<path d=\"M0 0h1v1h-1zM2 0h1v1h-1z\"/>
</svg>
";

const UNFINISHED: &str = "x = 1, y = 1\n3o";

const NO_END: End = End::Stopped(Stop::BadPattern(RleFault::NoEnd));

const NO_HEADER: End = End::Stopped(Stop::BadPattern(RleFault::NoHeader));

const TOO_WIDE: End = End::Stopped(Stop::BadPattern(RleFault::TooWide));

/// Pictures that are drawn, files that are refused, and streams that fail.
const RUNS: [Run<Picture>; 17] = [
    (Picture::Text, GLIDER, End::Done(GLIDER_TEXT)),
    (Picture::Svg, GLIDER, End::Done(GLIDER_SVG)),
    (Picture::Text, EMPTY, End::Done("")),
    (Picture::Svg, EMPTY, End::Done(EMPTY_SVG)),
    (Picture::Text, NAMED, End::Done("▀ ▀\n")),
    (Picture::Svg, NAMED, End::Done(NAMED_SVG)),
    // A line of text shows two rows: one line without a cell, and one with a cell only in its lower row.
    (
        Picture::Text,
        "x = 2, y = 6\n2o5$bo!\n",
        End::Done("▀▀\n\n ▄\n"),
    ),
    (Picture::Text, "x = 2, y = 2\n2o$o!\n", End::Done("█▀\n")),
    (Picture::Text, "x = 1025, y = 1\n1025o!\n", TOO_WIDE),
    (Picture::Text, UNFINISHED, NO_END),
    (Picture::Svg, UNFINISHED, NO_END),
    (Picture::Svg, "", NO_HEADER),
    (Picture::Text, GLIDER, End::Unreadable(1)),
    (Picture::Svg, GLIDER, End::Unreadable(20)),
    (Picture::Text, GLIDER, End::Unwritable("")),
    (Picture::Text, GLIDER, End::Unwritable(" ▀")),
    (Picture::Svg, GLIDER, End::Unwritable("<svg xmln")),
];

/// Draws the file from the input.
fn drawn(
    alloc: Global,
    picture: Picture,
    input: &mut PieceInlet,
    output: &mut PieceOutlet,
) -> Result<(), Stop> {
    run_draw(alloc, picture, input, output)
}

#[test]
fn pictures_of_files(rt: HostRuntime) {
    laws_of_pictures();
    assert_eq!(rt; other_run(rt.alloc(), &RUNS, drawn), None);
}
