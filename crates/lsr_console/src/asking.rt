//! What an operator is shown of a router that runs.
ghost use Rattle.std.specs.Prelude.{IfOk, string_bytes};
ghost use Rattle.lsr_console.specs.Answers.{ShowsKnown};

use interface_workers::{CoreName, Gate, KeepSegments, Machine, Question};
use lsr_config::LinkSockets;
use lsr_lines::Shown;
use lsr_rounds::Desk;
use lsr_session::show;
use sorted_rows::Table;
use std::alloc::{AllocError, Global};
use std::sync::Wait;
use std::time::Clock;

/// A look at what a router knows, whose links have these socket addresses.
#[derive(Drop)]
struct Look<'a> {
    alloc: Global,
    sockets: &'a Table<u16, LinkSockets>,
    shown: &'a Shown,
}

impl Question for Look<'_> {
    ghost use Rattle.std.specs.Prelude.{IfOk, string_bytes};
    ghost use Rattle.lsr_session.specs.Requests.{Shows};

    type Answer = Result<String, AllocError>;

    ghost answered = { λ look router answer. IfOk answer (λ text. Shows router look.sockets.now look.shown.now (string_bytes text)) };

    fn ask(&self, machine: &Machine) -> Result<String, AllocError> {
        show(self.alloc, machine, self.sockets.as_slice(), self.shown)
    }
}

/// The lines that the router, whose links have these socket addresses, shows of what it knows, as it stands. Others wait meanwhile. The only
/// error is that memory ran out.
pub(crate) fn shown_text<
    L: CoreName,
    R: Wait + Drop,
    K: KeepSegments + Drop,
    T: Wait + Clock,
    G: Gate,
>(
    desk: &Desk<'_, L, R, K, T, G>,
    sockets: &Table<u16, LinkSockets>,
    shown: &Shown,
) -> Result<String, AllocError>
    ensures { IfOk result (λ text. ShowsKnown L.config sockets.now shown.now (string_bytes text)) }
{
    let look = Look {
        alloc: desk.alloc,
        sockets,
        shown,
    };
    desk.core.ask(desk.rt, &look)
}
