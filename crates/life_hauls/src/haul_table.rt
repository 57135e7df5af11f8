//! Writes the table of a haul: its question, the counts and the sums.
ghost use Rattle.std.specs.Prelude.{◌≡◌, ◌++◌, map, IfOk, OnOk};
ghost use Rattle.std.specs.Fmt.{decimal};
ghost use Rattle.std.specs.List.{flat_map};
ghost use Rattle.life_hauls.specs.Hauls.{row_seen};
ghost use Rattle.life_hauls.specs.HaulTable.{named, symmetry_line, heading, occurrences_text, unresolved_text, line, counts_text, sums_text, csv_text};

use crate::haul_rows::{Haul, HaulRow, Occurrences};
use crate::hauls::HaulQuestion;
use crate::symmetry::Symmetry;
use itoa::Buffer;
use life_core::Fault;
use std::alloc::{AllocError, Allocator};

/// The table of a haul, as `life-haul` prints it. The number of soups comes from `haul`, not from the question.
pub fn csv<A: Allocator + Copy>(
    alloc: A,
    question: &HaulQuestion<'_>,
    haul: &Haul<A>,
) -> Result<Vec<u8, A>, Fault>
    ensures { IfOk result (λ v. v.items ≡ csv_text question.now.symmetry question.now.root.now question.now.rule question.now.n question.now.limit question.now.first haul.now) }
{
    let rule = question.rule.text(alloc)?;
    let mut out = Vec::new(alloc);
    put_heading(&mut out, question, rule.as_bytes())?;
    put_counts(&mut out, haul)?;
    put_sums(&mut out, question.first, haul)?;
    Ok(out)
}

/// Writes the question, one comment line for each of its parts.
fn put_heading<A: Allocator>(
    out: &mut Vec<u8, A>,
    question: &HaulQuestion<'_>,
    rule: &[u8],
) -> Result<(), AllocError>
    ensures { OnOk result (out.new.items ≡ out.old.items ++ heading question.now.symmetry question.now.root.now rule.now question.now.n question.now.limit) }
{
    put_named(out, b"# root ", question.root)?;
    put_named(out, b"# rule ", rule)?;
    put_named(
        out,
        b"# generation ",
        Buffer::new().format(question.n).as_bytes(),
    )?;
    put_named(
        out,
        b"# limit ",
        Buffer::new().format(question.limit).as_bytes(),
    )?;
    put_symmetry(out, question.symmetry)
}

/// `C1` has no line, so its tables are the same as before there were other symmetries.
#[tactic(auto, unfolding(crate::specs::HaulTable::symmetry_line))]
fn put_symmetry<A: Allocator>(out: &mut Vec<u8, A>, symmetry: Symmetry) -> Result<(), AllocError>
    ensures { OnOk result (out.new.items ≡ out.old.items ++ symmetry_line symmetry) }
{
    match symmetry {
        Symmetry::C1 => Ok(()),
        _ => put_named(out, b"# symmetry ", symmetry.name().as_bytes()),
    }
}

#[tactic(auto, unfolding(crate::specs::HaulTable::named))]
fn put_named<A: Allocator>(out: &mut Vec<u8, A>, name: &[u8], text: &[u8]) -> Result<(), AllocError>
    ensures { OnOk result (out.new.items ≡ out.old.items ++ named name.now text.now) }
{
    out.extend_from_slice(name)?;
    out.extend_from_slice(text)?;
    out.push(b'\n')?;
    Ok(())
}

/// Writes no line end.
fn put_number<A: Allocator>(
    out: &mut Vec<u8, A>,
    name: &[u8],
    number: u64,
) -> Result<(), AllocError>
    ensures { OnOk result (out.new.items ≡ out.old.items ++ name.now ++ decimal number) }
{
    out.extend_from_slice(name)?;
    out.extend_from_slice(Buffer::new().format(number).as_bytes())?;
    Ok(())
}

/// The part in CSV, with a header.
fn put_counts<A: Allocator>(out: &mut Vec<u8, A>, haul: &Haul<A>) -> Result<(), AllocError>
    ensures { OnOk result (out.new.items ≡ out.old.items ++ counts_text haul.now) }
{
    out.extend_from_slice(b"code,count,first\n")?;
    put_rows(out, &haul.rows)?;
    out.extend_from_slice(b"unresolved,")?;
    put_unresolved(out, haul.unresolved)?;
    out.push(b'\n')?;
    Ok(())
}

/// Two more lines of CSV: all clusters, and all soups with the number of the first.
fn put_sums<A: Allocator>(
    out: &mut Vec<u8, A>,
    first: u64,
    haul: &Haul<A>,
) -> Result<(), AllocError>
    ensures { OnOk result (out.new.items ≡ out.old.items ++ sums_text first haul.now) }
{
    put_number(out, b"clusters,", haul.total)?;
    put_number(out, b",\nsoups,", haul.soups)?;
    put_number(out, b",", first)?;
    out.push(b'\n')?;
    Ok(())
}

fn put_rows<A: Allocator>(out: &mut Vec<u8, A>, rows: &[HaulRow<A>]) -> Result<(), AllocError>
    ensures { OnOk result (out.new.items ≡ out.old.items ++ flat_map line (map row_seen rows.now)) }
{
    for row in rows {
        put_row(out, row)?;
    }
    Ok(())
}

/// Codes need no quotes in CSV.
fn put_row<A: Allocator>(out: &mut Vec<u8, A>, row: &HaulRow<A>) -> Result<(), AllocError>
    ensures { OnOk result (out.new.items ≡ out.old.items ++ line (row_seen row.now)) }
{
    out.extend_from_slice(row.code.as_bytes())?;
    out.push(b',')?;
    put_occurrences(out, row.seen)?;
    out.push(b'\n')?;
    Ok(())
}

/// Writes no line end.
fn put_occurrences<A: Allocator>(out: &mut Vec<u8, A>, seen: Occurrences) -> Result<(), AllocError>
    ensures { OnOk result (out.new.items ≡ out.old.items ++ occurrences_text seen) }
{
    out.extend_from_slice(Buffer::new().format(seen.count).as_bytes())?;
    out.push(b',')?;
    out.extend_from_slice(Buffer::new().format(seen.first).as_bytes())?;
    Ok(())
}

/// Without any, the count is 0 and the soup is left empty.
fn put_unresolved<A: Allocator>(
    out: &mut Vec<u8, A>,
    seen: Option<Occurrences>,
) -> Result<(), AllocError>
    ensures { OnOk result (out.new.items ≡ out.old.items ++ unresolved_text seen) }
{
    match seen {
        Some(seen) => put_occurrences(out, seen),
        None => {
            out.extend_from_slice(b"0,")?;
            Ok(())
        }
    }
}
