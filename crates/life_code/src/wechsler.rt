//! Writes the extended Wechsler text of a pattern: the part of a code after the `_`.
ghost use Rattle.std.specs.Prelude.{◌≡◌, ◌<◌, ◌≤◌, ◌++◌, OnOk, IfOk, map, length};
ghost use Rattle.std.specs.List.{All, range_with_len};
ghost use Rattle.life_code.specs.CellMarksState.{bit_of, shown_value};
ghost use Rattle.life_code.specs.Wechsler.{character, zero_run, spelled, width, height, wechsler};

use crate::cell_marks::marked;
use life_core::Pattern;
use std::alloc::{AllocError, Allocator};

/// The character of a value: `0` to `9`, then `a` to `z`.
fn character(value: u8) -> u8
    requires { value < 36 }
    ensures { result ≡ character value }
{
    if value < 10 {
        b'0' + value
    } else {
        b'a' + (value - 10)
    }
}

/// Writes a run of empty columns: nothing for 0, `0`, `w` and `x` for 1 to 3, then `y` and a character.
fn push_zero_run<A: Allocator>(text: &mut Vec<u8, A>, run: u8) -> Result<(), AllocError>
    requires { run < 40 }
    ensures { OnOk result (text.new.items ≡ text.old.items ++ zero_run run) }
{
    match run {
        0 => {}
        1 => text.push(b'0')?,
        2 => text.push(b'w')?,
        3 => text.push(b'x')?,
        _ => {
            text.push(b'y')?;
            text.push(character(run - 4))?;
        }
    }
    Ok(())
}

/// Leaves out the empty columns at the end of the strip.
fn push_strip<A: Allocator>(text: &mut Vec<u8, A>, columns: &[u8]) -> Result<(), AllocError>
    requires small { All (λ v. v < 32) columns.now }
    requires narrow { length columns.now ≤ 40 }
    ensures { OnOk result (text.new.items ≡ text.old.items ++ spelled 0 columns.now) }
{
    let mut run = 0;
    for value in columns {
        if *value == 0 {
            run += 1;
        } else {
            push_zero_run(text, run)?;
            text.push(character(*value))?;
            run = 0;
        }
    }
    Ok(())
}

fn bit_of(flags: &[bool; 1600], index: u16) -> u8
    requires { index < 1600 }
    ensures { result ≡ bit_of flags.now index }
{
    u8::from(flags[usize::from(index)])
}

/// Five cells as a number: the strip's top row is the bit of value 1.
fn column_value(flags: &[bool; 1600], strip: u8, column: u8) -> u8
    requires strip { strip < 8 }
    requires column { column < 40 }
    ensures { result ≡ shown_value flags.now strip column }
{
    let top = 200 * u16::from(strip) + u16::from(column);
    bit_of(flags, top)
        + 2 * bit_of(flags, top + 40)
        + 4 * bit_of(flags, top + 80)
        + 8 * bit_of(flags, top + 120)
        + 16 * bit_of(flags, top + 160)
}

fn column_values<A: Allocator>(
    alloc: A,
    flags: &[bool; 1600],
    strip: u8,
    columns: u8,
) -> Result<Vec<u8, A>, AllocError>
    requires strip { strip < 8 }
    requires columns { columns ≤ 40 }
    ensures { IfOk result (λ v. v.items ≡ map (shown_value flags.now strip) (range_with_len 0 columns)) }
{
    (0..columns)
        .map(|column| column_value(flags, strip, column))
        .collect(alloc)
}

/// Strips of five rows from the top, with a `z` between them.
pub(crate) fn wechsler<A: Allocator + Copy>(
    alloc: A,
    pattern: &Pattern<A>,
    columns: u8,
    rows: u8,
) -> Result<Vec<u8, A>, AllocError>
    requires columns { columns ≡ width pattern.now }
    requires rows { rows ≡ height pattern.now }
    requires narrow { columns ≤ 40 }
    requires low { rows ≤ 40 }
    ensures { IfOk result (λ v. v.items ≡ wechsler pattern.now) }
{
    let flags = marked(pattern);
    let mut text = Vec::new(alloc);
    for strip in 0..(rows + 4) / 5 {
        if strip > 0 {
            text.push(b'z')?;
        }
        push_strip(&mut text, &column_values(alloc, &flags, strip, columns)?)?;
    }
    Ok(text)
}
