//! A name as the title of an SVG document.
ghost use Rattle.std.specs.Prelude.{◌≡◌, ◌++◌, OnOk};
ghost use Rattle.std.specs.Char.{encode_utf8};
ghost use Rattle.life_pictures.specs.Title.{is_xml_char, escaped, xml_text, title};

use life_rle::Text;
use std::alloc::{AllocError, Allocator};

/// Whether an XML document may contain the character.
fn is_xml_char(c: char) -> bool
    ensures { result ≡ is_xml_char c }
{
    matches!(c, '\t' | '\n' | '\r' | ' '..='\u{D7FF}' | '\u{E000}'..='\u{FFFD}' | '\u{10000}'..='\u{10FFFF}')
}

/// Writes a character.
fn put_char<A: Allocator>(out: &mut Vec<u8, A>, c: char) -> Result<(), AllocError>
    ensures { OnOk result (out.new.items ≡ out.old.items ++ encode_utf8 c) }
{
    out.extend_from_slice(c.encode_utf8(&mut [0; 4]).as_bytes())
}

/// Writes a character as XML text, or U+FFFD if XML forbids it.
fn put_escaped<A: Allocator>(out: &mut Vec<u8, A>, c: char) -> Result<(), AllocError>
    ensures { OnOk result (out.new.items ≡ out.old.items ++ escaped c) }
{
    match c {
        '&' => out.extend_from_slice(b"&amp;"),
        '<' => out.extend_from_slice(b"&lt;"),
        '>' => out.extend_from_slice(b"&gt;"),
        '\r' => out.extend_from_slice(b"&#13;"),
        _ if is_xml_char(c) => put_char(out, c),
        _ => put_char(out, char::REPLACEMENT_CHARACTER),
    }
}

/// Writes bytes as XML text. Invalid UTF-8, and characters that XML forbids, become U+FFFD.
#[tactic(auto, unfolding(crate::specs::Title::xml_text))]
fn put_xml<A: Allocator + Copy>(
    alloc: A,
    out: &mut Vec<u8, A>,
    bytes: &[u8],
) -> Result<(), AllocError>
    ensures { OnOk result (out.new.items ≡ out.old.items ++ xml_text bytes.now) }
{
    let text = String::from_utf8_lossy(alloc, bytes)?;
    for c in text.chars() {
        put_escaped(out, c)?;
    }
    Ok(())
}

/// Writes the line of the title, if there is a name.
pub fn put_title<A: Allocator + Copy>(
    alloc: A,
    out: &mut Vec<u8, A>,
    name: &Option<Text<A>>,
) -> Result<(), AllocError>
    ensures { OnOk result (out.new.items ≡ out.old.items ++ title name.now) }
{
    match name {
        None => Ok(()),
        Some(name) => {
            out.extend_from_slice(b"<title>")?;
            put_xml(alloc, out, name.as_bytes())?;
            out.extend_from_slice(b"</title>\n")
        }
    }
}
