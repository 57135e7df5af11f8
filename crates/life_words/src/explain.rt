//! The explanations of refusals. `life explain` prints them, and tools/make-tables copies them into documents and web
//! pages from the output of the crate life_tables.
ghost use Rattle.std.specs.Prelude.{◌≡◌, IfOk, is_some, map, option_map};
ghost use Rattle.life_words.specs.Explain.{rows_of, names_of, text_in, refusal_names, is_refusal, explanations, explanation_of};

use std::alloc::{AllocError, Global};

/// The names in byte order. A text has one line for each kind of refusal with this name, and each line ends with a
/// line feed.
static EXPLANATIONS: [(&str, &str); 34] = [
    (
        "bad-code",
        "refusal 9, HTTP status 422: No object has this code under this rule within this limit. Check it against your source: codes are in lower case, an object has only one, and other rules have other objects.\n",
    ),
    (
        "bad-count",
        "fault 8 of a pattern file: A count is 0 or over 1,000,000, or it comes before \"!\" or at the end of the file. Correct the count; if the file was cut off, copy it again.\n",
    ),
    (
        "bad-header",
        "fault 4 of a pattern file: The header line is malformed. Write it like \"x = 3, y = 3, rule = B3/S23\", with the commas.\n",
    ),
    (
        "bad-member",
        "refusal 3, HTTP status 400: This is not a valid member name. Use 1 to 32 of the letters a to z, digits and \"-\".\n",
    ),
    (
        "bad-message",
        "refusal 14, HTTP status 400: The request could not be read. A file may have at most 1,048,576 bytes: send a smaller one. If a web page says this about a smaller file, reload the page.\n",
    ),
    (
        "bad-method",
        "refusal 13, HTTP status 405: Wrong method: use GET to read and POST to store. If a web page says this, reload it; if that does not help, tell whoever runs the archive.\n",
    ),
    (
        "bad-pattern",
        "refusal 7, HTTP status 422: The file is not a pattern that the archive accepts. The fault that comes with this refusal says why: fix it, and send the file again.\n",
    ),
    (
        "bad-rule",
        "refusal 8, HTTP status 422: This is not a supported rule. Write it in digits, like B3/S23, without a 0 among the births.\n\
         fault 5 of a pattern file: The rule is not supported. Write it in digits, like B3/S23, without a name and without a bounded grid such as \":T100,100\".\n",
    ),
    (
        "bad-text",
        "fault 1 of a code: This does not have the form of a code, like xs4_33, xp2_7 or xq4_153. Copy it again, whole and in lower case.\n",
    ),
    (
        "bad-token",
        "refusal 4, HTTP status 400: This is not a valid token. Use 1 to 64 of the letters A to Z and a to z, digits and \"-\". The SHA-256 digest of the file is a good one.\n",
    ),
    (
        "birth-zero",
        "fault 6 of a pattern file: The rule has 0 among its births, so it would make cells out of nothing. Take another rule.\n",
    ),
    (
        "full",
        "refusal 10, HTTP status 409: The archive is full. Tell whoever runs it; everything stored in it stays.\n",
    ),
    (
        "no-end",
        "fault 10 of a pattern file: The body ends without \"!\". Add it at the end; if the file was cut off, copy it again.\n",
    ),
    (
        "no-header",
        "fault 3 of a pattern file: The header line before the body is missing. Put the line \"x = 0, y = 0\" in front. If the file is in another format (plaintext, Life 1.06, macrocell), open it in Golly and save it as RLE.\n",
    ),
    (
        "no-port",
        "program: The port is in use, or it is below 1024 and not open to you. Choose another port.\n",
    ),
    (
        "no-reply",
        "gateway, HTTP status 502, 503, 504: No reply came. What you sent may have been stored all the same: send it again with the same token, and it is stored only once.\n",
    ),
    (
        "no-such-census",
        "refusal 2, HTTP status 404: There is no census with this number. Check the number against your source, or ask for a census of a deposit.\n",
    ),
    (
        "no-such-deposit",
        "refusal 1, HTTP status 404: There is no deposit with this number. Look at the newest deposits, or check the number against your source.\n",
    ),
    (
        "no-such-page",
        "refusal 12, HTTP status 404: There is no such page in this archive. Check the address against your source, or start from the newest deposits.\n",
    ),
    (
        "not-canonical",
        "fault 2 of a code: The pattern that this text spells has another code under this rule, or none. Check the text against your source, or ask for the kind of the pattern, which shows its code.\n",
    ),
    (
        "not-ours",
        "program: The database has tables named like those of an archive, but this version of life cannot open it as one. It belongs to another program, or to a later version. Nothing in it was changed; name another file.\n",
    ),
    (
        "not-sound",
        "program: The file is not an archive as life writes it; standard output lists the errors. Keep the file, and go back to the newest copy that life check calls sound.\n",
    ),
    (
        "not-within-limit",
        "fault 3 of a code: The pattern that this text spells does not return within the limit on the period. Use a larger limit, up to 2048.\n",
    ),
    (
        "other-tag",
        "fault 7 of a pattern file: The body has an item other than \"b\", \"o\", \"$\" and \"!\". For a rule of two states, write \"b\" for \".\" and \"o\" for \"A\".\n",
    ),
    (
        "out-of-limit",
        "refusal 6, HTTP status 400: A generation must be from 0 to 2048, and a limit on the period from 1 to 2048. Choose a number in that range.\n\
         program: A number in the arguments is out of range, or the root of a haul is not 1 to 64 printable ASCII characters without spaces. The help of the command lists the ranges.\n",
    ),
    (
        "password",
        "gateway, HTTP status 401: This club checks passwords. Send it again with the name and the password that you were given.\n",
    ),
    (
        "text-limit",
        "fault 2 of a pattern file: A name, an author or a comment has more than 200 bytes, or there are more than 64 comments. Shorten it, or split it into two comments.\n",
    ),
    (
        "token-reused",
        "refusal 5, HTTP status 409: This member has already used this token for something else, which stays as it is. Take another token, such as the SHA-256 digest of the file.\n",
    ),
    (
        "too-long",
        "fault 1 of a pattern file: The file has more than 1,048,576 bytes. Use a smaller one, or leave out comments.\n",
    ),
    (
        "too-many-requests",
        "gateway, HTTP status 429: Too many requests in a short time. Wait a few seconds and try again; nothing was lost.\n",
    ),
    (
        "too-wide",
        "fault 9 of a pattern file: A live cell is in a column or row beyond 1023. Move the cells, or use only a part of the pattern.\n",
    ),
    (
        "unavailable",
        "refusal 11, HTTP status 503: The archive could not do this now. Wait a little and try again; with the same token, nothing is stored twice. If that does not help, tell whoever runs it.\n\
         program: Memory ran out, or the file of the archive cannot be used. Check that its folder exists, that the file is yours, and that no other program has it open.\n",
    ),
    (
        "unknown",
        "gateway: The reply did not come from an archive. Check the address, or reload the web page; if that does not help, tell whoever runs the archive.\n",
    ),
    (
        "unreadable",
        "program: Standard input could not be read. Give it a pattern file, for example with \"< glider.rle\".\n",
    ),
];

/// `EXPLANATIONS` as a slice.
#[tactic(auto, unfolding(crate::specs::Explain::explanations))]
fn table() -> &'static [(&'static str, &'static str)]
    ensures { rows_of result.now ≡ explanations }
{
    EXPLANATIONS.as_slice()
}

/// A linear search; the table has some thirty rows.
fn text_in(table: &[(&'static str, &'static str)], name: &str) -> Option<&'static str>
    ensures { option_map (λ text. text.now) result ≡ text_in (rows_of table.now) name.now }
{
    for (known, text) in table {
        if *known == name {
            return Some(*text);
        }
    }
    None
}

fn names_in(
    alloc: Global,
    table: &[(&'static str, &'static str)],
) -> Result<Vec<&'static str>, AllocError>
    ensures { IfOk result (λ v. map (λ name. name.now) v.items ≡ names_of (rows_of table.now)) }
{
    let mut names = Vec::new(alloc);
    for (name, _) in table {
        names.push(*name)?;
    }
    Ok(names)
}

/// The output of `life explain NAME`; `None` if no refusal or fault has this name.
pub fn explanation(name: &str) -> Option<&'static str>
    ensures names { is_some result ≡ is_refusal name.now }
    ensures text { option_map (λ text. text.now) result ≡ explanation_of name.now }
{
    text_in(table(), name)
}

/// All names in byte order. `clap` lists them in its error for an unknown name.
pub fn refusal_names(alloc: Global) -> Result<Vec<&'static str>, AllocError>
    ensures { IfOk result (λ v. map (λ name. name.now) v.items ≡ refusal_names) }
{
    names_in(alloc, table())
}
