//! Which form a line of a world's file should have that says nothing.
ghost use Rattle.std.specs.Prelude.{◌≡◌, OnOk};
ghost use Rattle.std.specs.Io.KnownBytes.{Appends};
ghost use Rattle.world_lines.specs.Forms.{bad_line_text, expected_form};

use lsr_lines::{form_among, tell_bad_form};
use std::io;
use std::io::Write;

/// The forms of lines, one in each line: its word first.
const FORMS: &str = "\
router NAME FILE, before all moves, with a NAME that no router above has
wire NAME LINK NAME LINK, before all moves, with NAMEs of routers above and each LINK 1 to 65535
deliver I, with I 1 to 18446744073709551615
repeat I, with I 1 to 18446744073709551615
tick NAME N, with N 0 to 18446744073709551615
up NAME LINK, with LINK 1 to 65535
down NAME LINK, with LINK 1 to 65535
restart NAME, with nothing after it
do NAME COMMAND, where COMMAND begins with tunnel, change, cancel, drop, bypass, unbypass, route or unroute, as do A drop 5
show NAME WHAT, with --lab alone, where WHAT is paths, resvs, table, labels, links, tunnels, bypasses or summary, or path or resv and a KEY
run, with --lab alone, and nothing after it
seed N MOVES, with --lab alone, both 0 to 18446744073709551615
";

/// What is expected of a line with another first word.
const OTHER: &str =
    "router, wire, deliver, repeat, tick, up, down, restart or do first; with --lab also show, run or seed, remarks after # and empty lines";

/// The form that the line should have, by its first word.
pub fn expected_form(line: &str) -> &'static str
    ensures { result.now ≡ expected_form line.now }
{
    form_among(FORMS, OTHER, line)
}

/// Tells which line is bad, and what was expected. The error is the stream's.
pub fn tell_bad_line<E: Write>(error: &mut E, number: usize, line: &str) -> io::Result<()>
    ensures { OnOk result (Appends (E.contents error.old) (E.contents error.new) (bad_line_text number line.now)) }
{
    tell_bad_form(error, number, line, expected_form(line))
}
