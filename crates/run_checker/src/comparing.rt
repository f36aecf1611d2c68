//! Whether an entry says what the router answers and sends.

ghost use Rattle.std.specs.Prelude.{◌≡◌, ◌↔◌, IfErr, IfOk, IsTrue};
ghost use Rattle.run_checker.specs.Taking.{DiffersBy, IsAsTaken};

use crate::change::Change;
use crate::fault::{EntryFault, Stop};
use crate::taken::Taken;
use journal_bytes::{Entry, are_same_items, written_frames};
use lsr_facts::Reply;
use std::alloc::Global;

/// Whether it is the same reply.
fn is_same_reply(reply: Reply, other: Reply) -> bool
    ensures { IsTrue result ↔ (reply ≡ other) }
{
    reply == other
}

/// What a step makes of what is known, where an entry says what is answered and sent in it.
pub(crate) fn compare(alloc: Global, taken: Taken, entry: &Entry) -> Result<Change, Stop>
    ensures change { IfOk result (λ change. change ≡ taken.change) }
    ensures same { IfOk result (λ change. IsAsTaken taken entry.now) }
    ensures other { IfErr result (λ stop. DiffersBy stop taken entry.now) }
{
    if !is_same_reply(entry.reply, taken.reply) {
        return Err(Stop::Wrong(EntryFault::Reply(taken.reply)));
    }
    let frames = written_frames(alloc, taken.outputs.as_slice())?;
    if !are_same_items(entry.outputs.as_slice(), frames.as_slice()) {
        return Err(Stop::Wrong(EntryFault::Output(frames)));
    }
    Ok(taken.change)
}
