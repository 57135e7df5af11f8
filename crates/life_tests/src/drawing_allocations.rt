//! Failing each allocation of drawing a picture in turn.
use crate::allocations::refuse_each;
use crate::refusing::Refusing;
use life_core::Fault;
use life_pictures::{Picture, animation, svg, text};
use life_rle::{Record, RleFault, read};

/// A file whose picture is so long that its buffer has to grow several times.
const FILE: &[u8] = b"#N A & B\nx = 9, y = 3\nobobobobo2$bobobobo!\n";

const TEXT: &str = "▀ ▀ ▀ ▀ ▀\n ▀ ▀ ▀ ▀\n";

const SVG: &str = "\
<svg xmlns=\"http://www.w3.org/2000/svg\" viewBox=\"-1 -1 11 5\" shape-rendering=\"crispEdges\">
<title>A &amp; B</title>
<rect x=\"-1\" y=\"-1\" width=\"11\" height=\"5\" fill=\"white\"/>
<path d=\"M0 0h1v1h-1zM2 0h1v1h-1zM4 0h1v1h-1zM6 0h1v1h-1zM8 0h1v1h-1zM1 2h1v1h-1zM3 2h1v1h-1zM5 2h1v1h-1zM7 2h1v1h-1z\"/>
</svg>
";

/// The file's pattern and its next generation, which is seven cells in a row.
const ANIMATION: &str = "\
<svg xmlns=\"http://www.w3.org/2000/svg\" viewBox=\"-1 -1 11 5\" shape-rendering=\"crispEdges\">
<title>A &amp; B</title>
<rect x=\"-1\" y=\"-1\" width=\"11\" height=\"5\" fill=\"white\"/>
<path d=\"M0 0M0 0h1v1h-1zM2 0h1v1h-1zM4 0h1v1h-1zM6 0h1v1h-1zM8 0h1v1h-1zM1 2h1v1h-1zM3 2h1v1h-1zM5 2h1v1h-1zM7 2h1v1h-1z\"><animate attributeName=\"d\" calcMode=\"discrete\" dur=\"250ms\" repeatCount=\"indefinite\" values=\"M0 0M0 0h1v1h-1zM2 0h1v1h-1zM4 0h1v1h-1zM6 0h1v1h-1zM8 0h1v1h-1zM1 2h1v1h-1zM3 2h1v1h-1zM5 2h1v1h-1zM7 2h1v1h-1z;M0 0M1 1h7v1h-7z\"/></path>
</svg>
";

/// Whether this is the picture of a record.
fn is_drawn<'a>(
    alloc: &'a Refusing,
    picture: Picture,
    record: &Record<&'a Refusing>,
) -> Result<bool, Fault> {
    match picture {
        Picture::Svg => Ok(svg(alloc, record)?.as_slice() == SVG.as_bytes()),
        Picture::Text if record.cells.within(1023) => {
            Ok(text(alloc, record)?.as_slice() == TEXT.as_bytes())
        }
        Picture::Animation { .. } if record.cells.within(1023) => {
            Ok(animation(alloc, record, 0, 1)?.as_slice() == ANIMATION.as_bytes())
        }
        _ => Ok(false),
    }
}

/// Whether the picture of the file is right.
fn is_right(alloc: &Refusing, picture: Picture) -> Result<bool, Fault> {
    match read(alloc, FILE) {
        Ok(record) => is_drawn(alloc, picture, &record),
        Err(RleFault::Memory) => Err(Fault::Memory),
        Err(_) => Ok(false),
    }
}

#[test]
fn pictures_with_each_allocation_refused(rt: HostRuntime) {
    let animation = Picture::Animation { first: 0, last: 1 };
    for picture in [Picture::Text, Picture::Svg, animation] {
        let refused = refuse_each(rt.alloc(), &|alloc: &Refusing| is_right(alloc, picture));
        assert_eq!(rt; refused, Ok(()), "{picture:?}");
    }
}
