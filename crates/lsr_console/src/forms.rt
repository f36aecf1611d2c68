//! The lines of a console, and what is told of one that isn't taken.
ghost use Rattle.std.specs.Prelude.{◌≡◌, IfOk, string_bytes};
ghost use Rattle.lsr_console.specs.Told.{bad_line_text, elsewhere_text};

use lsr_lines::{form_among, unseen_end};
use std::alloc::{AllocError, Global};

/// What `help` prints: the lines of a console, one in each line, by the form that a line has to have, and what it does.
pub const HELP: &str = "\
up LINK, with LINK 1 to 65535: link LINK came up
down LINK, with LINK 1 to 65535: link LINK went down
restart, with nothing after it: the router lost what messages had set up in it, and is stopped until start
start, with nothing after it: a stopped router is started; a running one goes on as it is
tunnel N ENDPOINT RATE SETUP HOLD FLAGS NAME [ROUTE..], as tunnel 5 10.0.0.4 47f42400 3 3 04 t5 10.0.0.3/32: sets up tunnel N from here to ENDPOINT
change N RATE [ROUTE..], as change 5 47f42400 ~10.0.0.4/32: moves tunnel N to this rate and route
cancel N, with N 0 to 65535: the change of tunnel N is given up
drop N, with N 0 to 65535: removes tunnel N
bypass N TUNNEL LINK [CAPACITY], with N and TUNNEL 0 to 65535, LINK 1 to 65535 and CAPACITY 0 to 18446744073709551615: protects link LINK by bypass N, which runs in tunnel TUNNEL
unbypass N, with N 0 to 65535: removes bypass N
route PREFIX LINK, as route 10.9.0.0/16 2: sends what goes to PREFIX over link LINK
unroute PREFIX, as unroute 10.9.0.0/16: removes the static route to PREFIX
show paths, resvs, table, labels, links, tunnels, bypasses, lsps, config, counters, recent or summary; path, resv or lsp and an LSP as show path 10.0.0.4/1/10.0.0.1 10.0.0.1/1; or lsp and a tunnel as show lsp 5: what the router knows, what each port did, or the last 32 replies to this console
help, with nothing after it: these lines
quit, with nothing after it: the run ends
";

/// What is expected of a line with another first word.
const OTHER: &str =
    "up, down, restart, start, tunnel, change, cancel, drop, bypass, unbypass, route, unroute, show, help or quit first";

/// Why messages and frames aren't taken from an operator.
pub(crate) const FROM_LINKS: &str = "messages and frames come over the links of a router that runs";

/// Why ticks aren't taken from an operator.
pub(crate) const FROM_CLOCK: &str = "ticks come from the router's own clock";

/// What is told of a line of this number that asks for nothing: the form that it should have, by its first word. The only error is that
/// memory ran out.
pub(crate) fn bad_line_text(alloc: Global, number: usize, line: &str) -> Result<String, AllocError>
    ensures { IfOk result (λ text. string_bytes text ≡ bad_line_text number line.now) }
{
    let form = form_among(HELP, OTHER, line);
    let end = unseen_end(line);
    format!(in alloc; "bad line {number}\n  {line}\n  expected {form}\n{end}")
}

/// What is told of a line of this number that asks for what comes from elsewhere. The only error is that memory ran out.
pub(crate) fn elsewhere_text(
    alloc: Global,
    number: usize,
    line: &str,
    whence: &str,
) -> Result<String, AllocError>
    ensures { IfOk result (λ text. string_bytes text ≡ elsewhere_text number line.now whence.now) }
{
    format!(in alloc; "bad line {number}\n  {line}\n  {whence}\n")
}
