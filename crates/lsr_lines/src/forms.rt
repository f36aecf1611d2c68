//! Which form a line should have that asks for nothing.
ghost use Rattle.std.specs.Prelude.{◌≡◌, OnOk};
ghost use Rattle.std.specs.Io.KnownBytes.{Appends};
ghost use Rattle.lsr_lines.specs.Forms.{bad_form_text, bad_line_text, expected_form, form_among, form_in, is_form_of, unseen_end};
ghost use Rattle.line_streams.specs.Cuts.{lines_of};

use crate::words::next_word;
use line_streams::next_line;
use std::io;
use std::io::Write;

/// The forms of lines, one in each line: its word first.
const FORMS: &str = "\
rx LINK HEX, with LINK 1 to 65535 and HEX an even number of hexadecimal digits, or none
frame LINK HEX, with LINK 1 to 65535 and HEX an even number of hexadecimal digits, or none
tick N, with N 0 to 18446744073709551615
up LINK, with LINK 1 to 65535
down LINK, with LINK 1 to 65535
restart alone
start alone
tunnel N ENDPOINT RATE SETUP HOLD FLAGS NAME [ROUTE..], as tunnel 5 10.0.0.4 47f42400 3 3 04 t5 10.0.0.3/32
change N RATE [ROUTE..], as change 5 47f42400 ~10.0.0.4/32
cancel N, with N 0 to 65535
drop N, with N 0 to 65535
bypass N TUNNEL LINK [CAPACITY], with N and TUNNEL 0 to 65535, LINK 1 to 65535 and CAPACITY 0 to 18446744073709551615
unbypass N, with N 0 to 65535
route PREFIX LINK, as route 10.9.0.0/16 2
unroute PREFIX, as unroute 10.9.0.0/16
show paths, resvs, table, labels, links, tunnels, bypasses, lsps, config, recent or summary; path, resv or lsp and an LSP as show path 10.0.0.4/1/10.0.0.1 10.0.0.1/1; or lsp and a tunnel as show lsp 5
";

/// What is expected of a line with another first word.
const OTHER: &str =
    "rx, frame, tick, up, down, restart, start, tunnel, change, cancel, drop, bypass, unbypass, route, unroute or show first";

/// What is told of a line that ends with a carriage return, as lines of some systems do.
const CARRIAGE_RETURN: &str =
    "  the line ends with a carriage return, which isn't seen: take it away\n";
/// What is told of a line that ends with a blank.
const LAST_BLANK: &str = "  the line ends with a blank, which isn't seen: take it away\n";
/// What is told of a line that begins with a blank.
const FIRST_BLANK: &str = "  the line begins with a blank: take it away\n";
/// What is told of a line with a blank too many between two words.
const TWO_BLANKS: &str = "  the line has two blanks in a row: leave one\n";

/// Whether this is the form of lines that begin so.
fn is_form_of(form: &str, word: &str) -> bool
    ensures { result ≡ is_form_of form.now word.now }
{
    match next_word(Some(form)) {
        Some((first, _)) => first == word,
        None => false,
    }
}

/// The first of the forms, which stand one in each line, that begins with the word; `other` where none does.
fn form_for(forms: &'static str, other: &'static str, word: &str) -> &'static str
    ensures { result.now ≡ form_in other.now word.now (lines_of forms.now) }
{
    let mut rest = forms;
    while let Some((form, others)) = next_line(rest) {
        if is_form_of(form, word) {
            return form;
        }
        rest = others;
    }
    other
}

/// The form that the line should have, by its first word: the first of the forms, which stand one in each line, that begins
/// with it, or `other` where none does.
pub fn form_among(forms: &'static str, other: &'static str, line: &str) -> &'static str
    ensures { result.now ≡ form_among forms.now other.now line.now }
{
    match next_word(Some(line)) {
        Some((word, _)) => form_for(forms, other, word),
        None => other,
    }
}

/// The form that the line should have, by its first word.
pub fn expected_form(line: &str) -> &'static str
    ensures { result.now ≡ expected_form line.now }
{
    form_among(FORMS, OTHER, line)
}

/// What is told of a carriage return or a blank that is hard to see: at the line's end, before its first word, or a second one
/// between two words. The first of these is told, and nothing where the line has none.
pub fn unseen_end(line: &str) -> &'static str
    ensures { result.now ≡ unseen_end line.now }
{
    if line.ends_with("\r") {
        return CARRIAGE_RETURN;
    }
    if line.ends_with(" ") {
        return LAST_BLANK;
    }
    if line.starts_with(" ") {
        return FIRST_BLANK;
    }
    if line.contains("  ") {
        return TWO_BLANKS;
    }
    ""
}

/// Tells which line is bad, the form that was expected, and a blank or a carriage return that is hard to see. The error is the
/// stream's.
pub fn tell_bad_form<E: Write>(
    error: &mut E,
    number: usize,
    line: &str,
    form: &str,
) -> io::Result<()>
    ensures { OnOk result (Appends (E.contents error.old) (E.contents error.new) (bad_form_text number line.now form.now)) }
{
    let end = unseen_end(line);
    write!(
        error,
        "bad line {number}\n  {line}\n  expected {form}\n{end}"
    )
}

/// Tells which line is bad, and what was expected. The error is the stream's.
pub fn tell_bad_line<E: Write>(error: &mut E, number: usize, line: &str) -> io::Result<()>
    ensures { OnOk result (Appends (E.contents error.old) (E.contents error.new) (bad_line_text number line.now)) }
{
    tell_bad_form(error, number, line, expected_form(line))
}
