//! What is printed of entries: the lines of the steps that they record.
ghost use Rattle.std.specs.Prelude.{◌≡◌, IfOk, string_bytes};
ghost use Rattle.lsr_journal.specs.Entries.{entry_text};

use lsr_text::{push_reply, push_written};
use run_journal::Entry;
use std::alloc::{AllocError, Global};

/// The lines of the step that an entry records: its reply, and after it what was sent, in order. The only error is that memory ran
/// out.
pub(crate) fn entry_text(alloc: Global, entry: &Entry) -> Result<String, AllocError>
    ensures { IfOk result (λ text. string_bytes text ≡ entry_text entry.now) }
{
    let mut text = String::new(alloc);
    push_reply(&mut text, entry.reply)?;
    for frame in entry.outputs.as_slice() {
        push_written(alloc, &mut text, frame.link, frame.bytes.as_slice())?;
    }
    Ok(text)
}
