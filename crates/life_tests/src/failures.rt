//! Failing each allocation of a call in turn, and each read and each write of a stream in turn.
ghost use Rattle.std.specs.Prelude.{◌<◌};

use crate::allocations::refuse_each;
use crate::refusing::Refusing;
use life_census::{Tally, clusters, csv, steady, tally, tally_and_steady};
use life_code::{CodeFault, Kind, code, kind, open_code};
use life_core::{Fault, PLANE, Pattern, Rule, generation};
use life_rle::{
    PieceInlet, PieceOutlet, ReadFault, Record, RleFault, WriteFault, read, read_from, write,
    write_to,
};
use std::alloc::{Allocator, Global};

/// A file, and its canonical text.
#[derive(Clone, Copy, Debug)]
struct File {
    source: &'static str,
    text: &'static str,
}

/// Files with every kind of line.
const FILES: [File; 3] = [
    File {
        source: "#N Glider\n#O A. Member\n#C first\n#c second\n#N Other\n#CXRLE Pos=-1,-1 Gen=0\nx = 3, y = 3, rule = B3/S23\nbo$2bo$3o!\n",
        text: "#N Glider\n#O A. Member\n#C first\n#C second\n#C Other\nx = 3, y = 3, rule = B3/S23\nbo$2bo$3o!\n",
    },
    File {
        source: "#N Glider\r\n#O A. Member\r\n#C first\r\n#c second\r\n#N Other\r\n#CXRLE Pos=-1,-1 Gen=0\r\nx = 3, y = 3, rule = B3/S23\r\nbo$2bo$3o!\r\n",
        text: "#N Glider\n#O A. Member\n#C first\n#C second\n#C Other\nx = 3, y = 3, rule = B3/S23\nbo$2bo$3o!\n",
    },
    File {
        source: "#N Glider\n#O A. Member\n#C first\n#O B. Member\n\n#r 23/3\nx = 3, y = 3\nbo$2b\no$3o!\n",
        text: "#N Glider\n#O A. Member\n#C first\n#C B. Member\nx = 3, y = 3, rule = B3/S23\nbo$2bo$3o!\n",
    },
];

/// Whether this is the text of the record.
fn has_text<A: Allocator + Copy>(alloc: A, record: &Record<A>, text: &str) -> Result<bool, Fault> {
    Ok(write(alloc, record)?.as_slice() == text.as_bytes())
}

/// Whether the file is read from a stream in pieces of this many bytes. A failed allocation has to give out of memory.
fn is_read(alloc: Global, refusing: &Refusing, file: File, piece: usize) -> Result<bool, Fault>
    requires { 0 < piece }
{
    let mut input = PieceInlet::new(file.source.as_bytes().to_vec(alloc)?, piece, None);
    match read_from(refusing, &mut input) {
        Ok(record) => Ok(!refusing.has_refused() && has_text(refusing, &record, file.text)?),
        Err(ReadFault::Rle(RleFault::Memory)) => Err(Fault::Memory),
        Err(_) => Ok(false),
    }
}

/// Whether the file is read in pieces of each of these sizes.
fn pieces_are_read(alloc: Global, refusing: &Refusing, file: File) -> Result<bool, Fault> {
    for piece in [1, 3, 7] {
        if !is_read(alloc, refusing, file, piece)? {
            return Ok(false);
        }
    }
    Ok(true)
}

/// Whether the text of the record is written in pieces of 3 bytes. A failed allocation has to give out of memory, with
/// nothing written.
fn is_put<'a>(
    alloc: Global,
    refusing: &'a Refusing,
    record: &Record<&'a Refusing>,
    text: &str,
) -> Result<bool, Fault> {
    let mut output = PieceOutlet::new(alloc, 3, None);
    match write_to(refusing, record, &mut output) {
        Ok(()) => Ok(!refusing.has_refused() && output.bytes() == text.as_bytes()),
        Err(WriteFault::Memory) if output.bytes().is_empty() => Err(Fault::Memory),
        Err(_) => Ok(false),
    }
}

/// Whether this is the CSV of the tally.
fn has_table<'a>(
    alloc: &'a Refusing,
    counts: &Tally<&'a Refusing>,
    table: &str,
) -> Result<bool, Fault> {
    Ok(csv(alloc, counts)?.as_slice() == table.as_bytes())
}

/// A call over a file, and its expected result.
#[derive(Clone, Copy, Debug)]
enum Call {
    /// `read_from` in pieces: the canonical text.
    ReadFrom(&'static str),
    /// `write`: the text.
    Write(&'static str),
    /// `write_to`: the text.
    WriteTo(&'static str),
    /// `clusters`: how many.
    Clusters(usize),
    /// `tally` under limit 2: its CSV.
    Tally(&'static str),
    /// `steady` under limit 2: true.
    Steady,
    /// `tally_and_steady` under limit 2: the CSV, and true.
    TallyAndSteady(&'static str),
}

/// Whether a call over the cells of a field gives the expected result.
fn field_is_right<'a>(
    alloc: &'a Refusing,
    cells: &Pattern<&'a Refusing>,
    call: Call,
) -> Result<bool, Fault> {
    if !cells.within(400_000_000) {
        return Ok(false);
    }
    match call {
        Call::Clusters(many) => Ok(clusters(alloc, cells)?.len() == many),
        Call::Tally(table) => {
            let counts = tally(alloc, &Rule::LIFE, cells, 2)?;
            has_table(alloc, &counts, table)
        }
        Call::Steady => steady(alloc, &Rule::LIFE, cells, 2),
        Call::TallyAndSteady(table) => {
            let (counts, is_steady) = tally_and_steady(alloc, &Rule::LIFE, cells, 2)?;
            Ok(has_table(alloc, &counts, table)? && is_steady)
        }
        _ => Ok(false),
    }
}

/// Whether the call over the file gives the expected result.
fn call_is_right(
    alloc: Global,
    refusing: &Refusing,
    source: &'static str,
    call: Call,
) -> Result<bool, Fault> {
    let record = match read(refusing, source.as_bytes()) {
        Ok(record) => record,
        Err(RleFault::Memory) => return Err(Fault::Memory),
        Err(_) => return Ok(false),
    };
    match call {
        Call::ReadFrom(text) => pieces_are_read(alloc, refusing, File { source, text }),
        Call::Write(text) => has_text(refusing, &record, text),
        Call::WriteTo(text) => is_put(alloc, refusing, &record, text),
        _ => field_is_right(refusing, &record.cells, call),
    }
}

/// The first of the calls over the file that goes wrong if an allocation fails, with the number of the allocation.
fn other_refused(alloc: Global, source: &'static str, calls: &[Call]) -> Option<(Call, u64)> {
    for call in calls.iter().copied() {
        let is_right = |refusing: &Refusing| call_is_right(alloc, refusing, source, call);
        if let Err(number) = refuse_each(alloc, &is_right) {
            return Some((call, number));
        }
    }
    None
}

#[test]
fn files_with_each_allocation_refused(rt: HostRuntime) {
    for File { source, text } in FILES {
        let calls = [Call::ReadFrom(text), Call::Write(text), Call::WriteTo(text)];
        let other = other_refused(rt.alloc(), source, &calls);
        assert!(rt; other.is_none(), "{other:?}");
    }
}

/// A field that is steady under limit 2.
#[derive(Clone, Copy, Debug)]
struct Field {
    file: &'static str,
    clusters: usize,
    /// The CSV of its tally under limit 2.
    table: &'static str,
}

/// Two blocks at distance 3, which are two clusters; two at distance 2, which are one; and a block and a blinker.
const FIELDS: [Field; 3] = [
    Field {
        file: "x = 0, y = 0\n2o2b2o$2o2b2o!",
        clusters: 2,
        table: "code,count\nxs4_33,2\nunresolved,0\n",
    },
    Field {
        file: "x = 0, y = 0\n2ob2o$2ob2o!",
        clusters: 1,
        table: "code,count\nxs8_rr,1\nunresolved,0\n",
    },
    Field {
        file: "x = 0, y = 0\n2o8b3o$2o!",
        clusters: 2,
        table: "code,count\nxp2_7,1\nxs4_33,1\nunresolved,0\n",
    },
];

#[test]
fn fields_with_each_allocation_refused(rt: HostRuntime) {
    for Field {
        file,
        clusters,
        table,
    } in FIELDS {
        let calls = [
            Call::Clusters(clusters),
            Call::Tally(table),
            Call::Steady,
            Call::TallyAndSteady(table),
        ];
        let other = other_refused(rt.alloc(), file, &calls);
        assert!(rt; other.is_none(), "{other:?} of {file}");
    }
}

/// Which calls of a stream fail: reads or writes.
#[derive(Clone, Copy, Debug)]
enum Failing {
    Takes,
    Puts,
}

/// Whether reading a file in pieces of this many bytes stops as unreadable at the read with this number, which fails.
/// If there is no such read, whether the file is read correctly.
fn answers_take(alloc: Global, file: File, piece: usize, take: u64, is_made: bool) -> bool
    requires { 0 < piece }
{
    let Ok(bytes) = file.source.as_bytes().to_vec(alloc) else {
        return false;
    };
    let mut input = PieceInlet::new(bytes, piece, Some(take));
    match read_from(alloc, &mut input) {
        Ok(record) => !is_made && has_text(alloc, &record, file.text) == Ok(true),
        Err(ReadFault::Unreadable) => is_made && input.calls() == take,
        Err(_) => false,
    }
}

/// Whether writing a record in pieces of this many bytes stops as unwritable at the write with this number, which
/// fails, and keeps the output before it. If there is no such write, whether the output is complete.
fn answers_put(alloc: Global, file: File, piece: usize, put: u64, is_made: bool) -> bool
    requires { 0 < piece }
{
    let Ok(record) = read(alloc, file.source.as_bytes()) else {
        return false;
    };
    let mut output = PieceOutlet::new(alloc, piece, Some(put));
    let answer = write_to(alloc, &record, &mut output);
    let bytes = output.bytes();
    if !is_made {
        return answer == Ok(()) && bytes == file.text.as_bytes();
    }
    let before = piece.saturating_mul((put as usize).saturating_sub(1));
    answer == Err(WriteFault::Unwritable)
        && bytes.len() == before
        && file.text.as_bytes().starts_with(bytes)
}

/// How many reads or writes the file needs in pieces of this many bytes.
fn calls(failing: Failing, file: File, piece: usize) -> u64
    requires { 0 < piece }
{
    match failing {
        // The last read finds the end.
        Failing::Takes => (file.source.len().div_ceil(piece) as u64).saturating_add(1),
        Failing::Puts => file.text.len().div_ceil(piece) as u64,
    }
}

/// The first call of the stream, in pieces of this many bytes, whose failure is not handled correctly. One call more
/// than the stream makes is tested too.
fn other_call(alloc: Global, failing: Failing, file: File, piece: usize) -> Option<u64>
    requires { 0 < piece }
{
    let calls = calls(failing, file, piece);
    for call in 1..calls.saturating_add(2) {
        let is_answered = match failing {
            Failing::Takes => answers_take(alloc, file, piece, call, call <= calls),
            Failing::Puts => answers_put(alloc, file, piece, call, call <= calls),
        };
        if !is_answered {
            return Some(call);
        }
    }
    None
}

#[test]
fn each_take_and_each_put_can_fail(rt: HostRuntime) {
    for file in FILES {
        for piece in [1, 3, 7] {
            let take = other_call(rt.alloc(), Failing::Takes, file, piece);
            assert_eq!(rt; take, None, "{file:?} in pieces of {piece}");
            let put = other_call(rt.alloc(), Failing::Puts, file, piece);
            assert_eq!(rt; put, None, "{file:?} in pieces of {piece}");
        }
    }
}

const GLIDER: [(i64, i64); 5] = [(1, 0), (2, 1), (0, 2), (1, 2), (2, 2)];

/// The glider four generations later.
const GLIDER_LATER: [(i64, i64); 5] = [(2, 1), (3, 2), (1, 3), (2, 3), (3, 3)];

const BLINKER: [(i64, i64); 3] = [(0, 0), (1, 0), (2, 0)];

/// The toad in the phase that its code `xp2_7e` describes.
const TOAD: [(i64, i64); 6] = [(0, 0), (0, 1), (0, 2), (1, 1), (1, 2), (1, 3)];

/// Whether generation 4 of the first pattern is the second.
fn is_later<'a>(
    alloc: &'a Refusing,
    before: &Pattern<&'a Refusing>,
    after: &Pattern<&'a Refusing>,
) -> Result<bool, Fault> {
    if !before.within(PLANE - 4) {
        return Ok(false);
    }
    Ok(generation(alloc, &Rule::LIFE, before, 4)?.same(after))
}

fn generation_is_right(alloc: &Refusing) -> Result<bool, Fault> {
    let glider = Pattern::from_cells(alloc, &GLIDER)?;
    let later = Pattern::from_cells(alloc, &GLIDER_LATER)?;
    is_later(alloc, &glider, &later)
}

fn kind_is_right(alloc: &Refusing) -> Result<bool, Fault> {
    let glider = Pattern::from_cells(alloc, &GLIDER)?;
    Ok(glider.within(400_000_000) && kind(alloc, &Rule::LIFE, &glider, 4)? == Kind::Ship(4, 1, 1))
}

/// Whether this is the code of the pattern under limit 2.
fn has_code<'a>(
    alloc: &'a Refusing,
    pattern: &Pattern<&'a Refusing>,
    text: &[u8],
) -> Result<bool, Fault> {
    if !pattern.within(400_000_000) {
        return Ok(false);
    }
    match code(alloc, &Rule::LIFE, pattern, 2)? {
        Some(coded) => Ok(coded.text() == text),
        None => Ok(false),
    }
}

fn code_is_right(alloc: &Refusing) -> Result<bool, Fault> {
    let blinker = Pattern::from_cells(alloc, &BLINKER)?;
    has_code(alloc, &blinker, b"xp2_7")
}

fn opened_code_is_right(alloc: &Refusing) -> Result<bool, Fault> {
    let toad = Pattern::from_cells(alloc, &TOAD)?;
    match open_code(alloc, &Rule::LIFE, b"xp2_7e", 2) {
        Ok(found) => Ok(found.same(&toad)),
        Err(CodeFault::Memory) => Err(Fault::Memory),
        Err(_) => Ok(false),
    }
}

#[test]
fn patterns_and_codes_with_each_allocation_refused(rt: HostRuntime) {
    assert_eq!(rt;
        refuse_each(rt.alloc(), &generation_is_right),
        Ok(()),
        "generation"
    );
    assert_eq!(rt; refuse_each(rt.alloc(), &kind_is_right), Ok(()), "kind");
    assert_eq!(rt; refuse_each(rt.alloc(), &code_is_right), Ok(()), "code");
    assert_eq!(rt;
        refuse_each(rt.alloc(), &opened_code_is_right),
        Ok(()),
        "open_code"
    );
}
