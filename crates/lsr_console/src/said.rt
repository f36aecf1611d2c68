//! What a line of a console says.
ghost use Rattle.std.specs.Prelude.{◌≡◌, IfErr, IfOk, None, OnErr, Some};
ghost use Rattle.lsr_lines.specs.Lines.{BringsMore};
ghost use Rattle.lsr_console.specs.Said.{Says, event_of};

use abstract_paths::Event;
use lsr_lines::{Request, is_remark, read_request};
use std::alloc::{AllocError, Global};

/// The line that asks for the lines of a console.
const HELP_WORD: &str = "help";

/// The line that asks how much each port did.
const COUNTERS_LINE: &str = "show counters";

/// The line that ends the run.
pub(crate) const QUIT_WORD: &str = "quit";

/// What a line of a console says.
#[derive(Drop)]
pub(crate) enum Said {
    /// Nothing: it is empty, or begins with #.
    Remark,
    /// `help`: the lines of a console are printed.
    Help,
    /// `quit`: the run ends.
    Quit,
    /// `show counters`: how much each port did is printed.
    Counters,
    /// It asks for what a line of `lsr step` asks for.
    Asks(Request),
    /// It asks for nothing that there is.
    Nothing,
}

/// What the line says. The only error is that there is no memory for bytes or for a tunnel that the line brings.
pub(crate) fn read_said(alloc: Global, line: &str) -> Result<Said, AllocError>
    ensures said { IfOk result (Says line.now) }
    ensures memory { OnErr result (BringsMore line.now) }
{
    if is_remark(line) {
        return Ok(Said::Remark);
    }
    if line == HELP_WORD {
        return Ok(Said::Help);
    }
    if line == QUIT_WORD {
        return Ok(Said::Quit);
    }
    if line == COUNTERS_LINE {
        return Ok(Said::Counters);
    }
    match read_request(alloc, line)? {
        Some(request) => Ok(Said::Asks(request)),
        None => Ok(Said::Nothing),
    }
}

/// The event that a request asks to be fed; or the request, where it asks for something else.
pub(crate) fn asked_event(request: Request) -> Result<Event, Request>
    ensures event { IfOk result (λ event. event_of request ≡ Some event) }
    ensures other { IfErr result (λ other. (other ≡ request) × (event_of request ≡ None)) }
{
    match request {
        Request::LinkUp(link) => Ok(Event::LinkUp(link)),
        Request::LinkDown(link) => Ok(Event::LinkDown(link)),
        Request::Restart => Ok(Event::Restart),
        Request::Start => Ok(Event::Start),
        Request::Command(command) => Ok(Event::Command(command)),
        other => Err(other),
    }
}
