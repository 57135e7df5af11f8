//! Lines before the body: blank, marked with `#`, or the header.
ghost use Rattle.std.specs.Prelude.{◌≡◌};
ghost use Rattle.life_core.specs.RuleText.{is_blank};
ghost use Rattle.life_rle.specs.RleLines.{trim_start, trim_end, is_mark_line, marked, line_kind};
ghost use Rattle.life_rle.specs.RleLinesState.{kind_of};

/// A space, a tab or a CR.
pub(crate) fn is_blank(byte: u8) -> bool
    ensures { result ≡ is_blank byte }
{
    byte == b' ' || byte == b'\t' || byte == b'\r'
}

/// The line without the blanks at its front.
fn trim_start(line: &[u8]) -> &[u8]
    ensures { result.now ≡ trim_start line.now }
{
    let mut rest = line;
    while let [first, after @ ..] = rest {
        if !is_blank(*first) {
            break;
        }
        rest = after;
    }
    rest
}

/// The line without the blanks at its end.
fn trim_end(line: &[u8]) -> &[u8]
    ensures { result.now ≡ trim_end line.now }
{
    let mut rest = line;
    while let [before @ .., last] = rest {
        if !is_blank(*last) {
            break;
        }
        rest = before;
    }
    rest
}

/// Whether the first byte other than a blank is `#`. Such a line of a body is skipped.
pub(crate) fn is_mark_line(line: &[u8]) -> bool
    ensures { result ≡ is_mark_line line.now }
{
    trim_start(line).first() == Some(&b'#')
}

/// The kind of a line before the body, with its text. `Passed` has no meaning and is skipped.
pub(crate) enum LineKind<'a> {
    Passed,
    Name(&'a [u8]),
    Author(&'a [u8]),
    Comment(&'a [u8]),
    Rule(&'a [u8]),
    Header,
}

/// The kind of a line that begins with `#` and this letter.
fn marked(letter: u8, text: &[u8]) -> LineKind<'_>
    ensures { kind_of result ≡ marked letter text.now }
{
    match letter {
        b'N' => LineKind::Name(text),
        b'O' => LineKind::Author(text),
        b'C' | b'c' => LineKind::Comment(text),
        b'r' => LineKind::Rule(text),
        _ => LineKind::Passed,
    }
}

#[tactic(auto, unfolding(crate::specs::RleLines::line_kind))]
pub(crate) fn line_kind(line: &[u8]) -> LineKind<'_>
    ensures { kind_of result ≡ line_kind line.now }
{
    let front = trim_start(line);
    match front {
        [] | [b'#'] => LineKind::Passed,
        [b'#', letter, text @ ..] => {
            if front.starts_with(b"#CXRLE") {
                LineKind::Passed
            } else {
                marked(*letter, trim_end(trim_start(text)))
            }
        }
        _ => LineKind::Header,
    }
}
