//! Reading and writing pattern files, in one piece and in several.
ghost use Rattle.std.specs.Prelude.{◌<◌};

use life_core::{Fault, PLANE, Pattern, Rule, generation};
use life_rle::{
    FromRead, FromWrite, Inlet, MemoryOutlet, PieceInlet, ReadFault, Record, RleFault, SliceInlet,
    Text, Texts, WriteFault, laws_of_canonical_bodies, laws_of_files, laws_of_lines_and_runs,
    laws_of_texts, plain, put_all, read, read_from, read_kept, write,
};
use std::alloc::{AllocError, Global};
use std::io;

/// Files, and their canonical text or the name of their fault.
const FILES: [(&str, &str); 6] = [
    (
        "x = 36, y = 9, rule = B3/S23\n24bo11b$22bobo11b$12b2o6b2o12b2o$11bo3bo4b2o12b2o$2o8bo5bo3b2o14b$2o8bo3bob2o4bobo11b$10bo5bo7bo11b$11bo3bo20b$12b2o!\n",
        "x = 36, y = 9, rule = B3/S23\n24bo$22bobo$12b2o6b2o12b2o$11bo3bo4b2o12b2o$2o8bo5bo3b2o$2o8bo3bob2o4b\nobo$10bo5bo7bo$11bo3bo$12b2o!\n",
    ),
    (
        "#N Glider\n#O A. Member\n#C first\n#c second\n#N Other\n#CXRLE Pos=-1,-1 Gen=0\nx = 3, y = 3, rule = B3/S23\nbo$2bo$3o!\n",
        "#N Glider\n#O A. Member\n#C first\n#C second\n#C Other\nx = 3, y = 3, rule = B3/S23\nbo$2bo$3o!\n",
    ),
    (
        "#N Glider\r\n#O A. Member\r\n#C first\r\n#c second\r\n#N Other\r\n#CXRLE Pos=-1,-1 Gen=0\r\nx = 3, y = 3, rule = B3/S23\r\nbo$2bo$3o!\r\n",
        "#N Glider\n#O A. Member\n#C first\n#C second\n#C Other\nx = 3, y = 3, rule = B3/S23\nbo$2bo$3o!\n",
    ),
    (
        "#N Glider\r\n#C\r\n#C first\r\nx = 3, y = 3, rule = B3/S23\r\nbo$2bo$\r\n3o!\r\n",
        "#N Glider\n#C\n#C first\nx = 3, y = 3, rule = B3/S23\nbo$2bo$3o!\n",
    ),
    (
        "# x\n#N\n#N  Twin \n#O\n#C\n#r B36/S23\nx=2,Y=1,RULE=s23b3\n#C late\n2\n#note\n o ! rest\n",
        "#N Twin\n#C\nx = 2, y = 1, rule = B3/S23\n2o!\n",
    ),
    ("x = 1, y = 1\n99999999999999999999o!\n", "bad-count"),
];

/// Whether this is the text of the record.
fn is_written(alloc: Global, record: &Record, text: &str) -> bool {
    match write(alloc, record) {
        Ok(written) => written.as_slice() == text.as_bytes(),
        Err(_) => false,
    }
}

/// Whether this is the file's canonical text, or the name of its fault.
fn gives(alloc: Global, file: &[u8], text: &str) -> bool {
    match read(alloc, file) {
        Ok(record) => is_written(alloc, &record, text),
        Err(fault) => fault.name() == text,
    }
}

/// Whether this is the canonical text of the file in the stream, or the name of its fault.
fn stream_gives(alloc: Global, input: &mut PieceInlet, text: &str) -> bool {
    match read_from(alloc, input) {
        Ok(record) => is_written(alloc, &record, text),
        Err(ReadFault::Rle(fault)) => fault.name() == text,
        Err(ReadFault::Unreadable) => false,
    }
}

/// The same for a stream with these bytes, in pieces of one size.
fn gives_in_pieces_of(alloc: Global, file: &[u8], piece: usize, text: &str) -> bool
    requires { 0 < piece }
{
    match file.to_vec(alloc) {
        Ok(bytes) => stream_gives(alloc, &mut PieceInlet::new(bytes, piece, None), text),
        Err(_) => false,
    }
}

/// The same for a stream with these bytes, in pieces of several sizes.
fn gives_in_pieces(alloc: Global, file: &str, text: &str) -> bool {
    for piece in [1, 2, 7, 4_096] {
        if !gives_in_pieces_of(alloc, file.as_bytes(), piece, text) {
            return false;
        }
    }
    true
}

#[test]
fn files_are_written_back(rt: HostRuntime) {
    for (file, text) in FILES {
        assert!(rt; gives(rt.alloc(), file.as_bytes(), text), "{file}");
        assert!(rt; gives_in_pieces(rt.alloc(), file, text), "{file} in pieces");
    }
}

/// The file with this many spaces at its end.
fn with_blanks(alloc: Global, front: &str, blanks: usize) -> Result<Vec<u8>, AllocError> {
    let mut file = front.as_bytes().to_vec(alloc)?;
    for _ in 0..blanks {
        file.push(b' ')?;
    }
    Ok(file)
}

/// Files that end in this many spaces, and their canonical text or the name of their fault. The limit is 1,048,576
/// bytes, and the length is checked before the header.
const LONG_FILES: [(&str, usize, &str); 3] = [
    (
        "x = 1, y = 1\no!",
        1_048_561,
        "x = 1, y = 1, rule = B3/S23\no!\n",
    ),
    ("x = 1, y = 1\no!", 1_048_562, "too-long"),
    ("x = 1\n", 1_048_571, "too-long"),
];

/// Whether this is the file's canonical text, or the name of its fault: as bytes, and as a stream in one piece and in
/// pieces of 4,096 bytes.
fn gives_all_ways(alloc: Global, file: &[u8], text: &str) -> bool {
    gives(alloc, file, text)
        && gives_in_pieces_of(alloc, file, usize::MAX, text)
        && gives_in_pieces_of(alloc, file, 4_096, text)
}

#[test]
fn files_have_a_limit(rt: HostRuntime) {
    for (front, blanks, expected) in LONG_FILES {
        match with_blanks(rt.alloc(), front, blanks) {
            Ok(file) => assert!(rt; gives_all_ways(rt.alloc(), &file, expected), "{expected}"),
            Err(_) => panic!(rt; "no memory"),
        }
    }
}

/// Whether these bytes are too long as a stream, and accepted as a stored text.
fn is_long_stream(alloc: Global, file: &[u8]) -> bool {
    match read_from(alloc, &mut SliceInlet::new(file)) {
        Err(ReadFault::Rle(RleFault::TooLong)) => read_kept(alloc, file).is_ok(),
        _ => false,
    }
}

/// Whether a stream with a bad header and this many spaces at its end is refused as too long.
fn is_long_with_a_bad_header(alloc: Global, blanks: usize) -> bool {
    match with_blanks(alloc, "x = 1\n", blanks) {
        Ok(file) => {
            read_from(alloc, &mut SliceInlet::new(&file)).err()
                == Some(ReadFault::Rle(RleFault::TooLong))
        }
        Err(_) => false,
    }
}

#[test]
fn the_length_of_a_stream_is_judged_before_its_header(rt: HostRuntime) {
    assert!(rt; is_long_with_a_bad_header(rt.alloc(), 1_048_571));
    assert!(rt; !is_long_with_a_bad_header(rt.alloc(), 1_048_570));
}

#[test]
fn streams_have_a_limit_and_kept_texts_have_none(rt: HostRuntime) {
    match with_blanks(rt.alloc(), "x = 1, y = 1\no!", 1_048_562) {
        Ok(file) => assert!(rt; is_long_stream(rt.alloc(), &file)),
        Err(_) => panic!(rt; "no memory"),
    }
}

const TWO_CELLS: &[u8] = b"x = 2, y = 1\n2o!\n";

const TEXT: &[u8] = b"2o!\n";

/// Whether reading the stream gives a pattern with two cells.
fn gives_two_cells<I: Inlet>(alloc: Global, input: &mut I) -> bool {
    match read_from(alloc, input) {
        Ok(record) => record.cells.population() == 2,
        Err(_) => false,
    }
}

#[test]
fn slices_and_readers_are_read(rt: HostRuntime) {
    assert!(rt; gives_two_cells(rt.alloc(), &mut SliceInlet::new(TWO_CELLS)));
    let mut reader = FromRead::new(io::Cursor::new(TWO_CELLS));
    assert!(rt; gives_two_cells(rt.alloc(), &mut reader));
}

#[test]
fn memory_takes_what_is_put(rt: HostRuntime) {
    let mut memory = MemoryOutlet::new(rt.alloc());
    assert!(rt; put_all(&mut memory, TEXT).is_ok());
    assert!(rt; memory.bytes() == TEXT);
}

#[test]
fn a_writer_takes_what_is_put(rt: HostRuntime) {
    let mut writer = FromWrite::new(Vec::new(rt.alloc()));
    assert!(rt; put_all(&mut writer, TEXT).is_ok());
}

/// Whether this is the text of the record that `plain` makes from the pattern.
fn plain_is_written(alloc: Global, pattern: &Pattern, text: &str) -> bool {
    if !pattern.within(500_000_000) {
        return false;
    }
    match plain(alloc, Rule::LIFE, pattern) {
        Ok(record) => is_written(alloc, &record, text),
        Err(_) => false,
    }
}

/// Whether a repeated cell counts once, and the cells are translated to the corner.
fn cells_are_normal(alloc: Global) -> Result<bool, Fault> {
    let pattern = Pattern::from_cells(alloc, &[(7, -2), (5, -2), (7, -2)])?;
    Ok(plain_is_written(alloc, &pattern, "x = 3, y = 1, rule = B3/S23\nobo!\n"))
}

#[test]
fn records_are_made(rt: HostRuntime) {
    laws_of_lines_and_runs();
    laws_of_canonical_bodies();
    laws_of_texts();
    laws_of_files();
    assert!(rt; cells_are_normal(rt.alloc()) == Ok(true));
}

/// The file of a row of this many live cells.
fn row_file(alloc: Global, width: u64) -> Result<String, AllocError> {
    format!(in alloc; "x = {width}, y = 1\n{width}o!\n")
}

/// The text of the next generation: three rows with two cells fewer. A row of one or two cells dies.
fn rows_text(alloc: Global, width: u64) -> Result<String, AllocError> {
    match width.saturating_sub(2) {
        0 => String::from_str(alloc, "x = 0, y = 0, rule = B3/S23\n!\n"),
        1 => String::from_str(alloc, "x = 1, y = 3, rule = B3/S23\no$o$o!\n"),
        w => format!(in alloc; "x = {w}, y = 3, rule = B3/S23\n{w}o${w}o${w}o!\n"),
    }
}

/// Whether this is the text of the next generation of the cells.
fn next_is_written(alloc: Global, cells: &Pattern, text: &str) -> Result<bool, Fault> {
    if !cells.within(PLANE - 1) {
        return Ok(false);
    }
    let next = generation(alloc, &Rule::LIFE, cells, 1)?;
    Ok(plain_is_written(alloc, &next, text))
}

/// Whether the next generation of a row of this many cells is written correctly.
fn row_goes_on(alloc: Global, width: u64) -> bool {
    let (Ok(file), Ok(text)) = (row_file(alloc, width), rows_text(alloc, width)) else {
        return false;
    };
    match read(alloc, file.as_bytes()) {
        Ok(record) => next_is_written(alloc, &record.cells, text.as_str()) == Ok(true),
        Err(_) => false,
    }
}

#[test]
fn rows_of_each_width_are_written(rt: HostRuntime) {
    for width in 1..301_u64 {
        assert!(rt; row_goes_on(rt.alloc(), width), "{width}");
    }
}

/// A list of one text.
fn one_text(alloc: Global) -> Result<Texts, AllocError> {
    let mut texts = Texts::new(alloc);
    texts.push(Text::from_slice(alloc, b"first")?)?;
    Ok(texts)
}

/// Whether the text is the only one.
fn is_only_text(texts: &Texts, expected: &[u8]) -> bool {
    match texts.as_slice() {
        [text] => text.as_bytes() == expected,
        _ => false,
    }
}

#[test]
fn texts_are_kept(rt: HostRuntime) {
    match one_text(rt.alloc()) {
        Ok(texts) => assert!(rt; is_only_text(&texts, b"first")),
        Err(_) => panic!(rt; "no memory"),
    }
    assert!(rt; RleFault::Memory.number() == 11);
    assert!(rt; ReadFault::Unreadable.number() == 12);
    assert!(rt; WriteFault::Memory.number() == 2);
}
