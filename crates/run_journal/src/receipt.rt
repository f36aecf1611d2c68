//! What a port is told of its entry.

ghost use Rattle.std.specs.Prelude.{◌≡◌};

use crate::mark::Mark;
use journal_bytes::{Bytes, Frames};
use lsr_facts::Reply;

/// What a port is told of its entry.
#[derive(Debug)]
pub struct Receipt {
    /// The port and its numbers after the entry.
    pub(crate) mark: Mark,
    /// What happened, as a journal holds it.
    pub(crate) event: Bytes,
    /// What was answered.
    pub(crate) reply: Reply,
    /// What is to be sent.
    pub(crate) outputs: Frames,
}

/// Written out, so that it is dropped by one call, whatever it holds.
impl Drop for Receipt {
    fn drop(self) {
        let Receipt {
            mark: _mark,
            event: _event,
            reply: _reply,
            outputs: _outputs,
        } = self;
    }
}

impl Receipt {
    /// The port and its numbers after the entry.
    pub fn mark(&self) -> Mark
        ensures { result ≡ self.now.mark }
    {
        self.mark
    }

    /// What happened, as a journal holds it.
    pub fn event(&self) -> &[u8]
        ensures { result.now ≡ self.now.event }
    {
        self.event.as_slice()
    }

    /// What was answered.
    pub fn reply(&self) -> Reply
        ensures { result ≡ self.now.reply }
    {
        self.reply
    }

    /// What is to be sent.
    pub fn outputs(&self) -> &Frames
        ensures { result.now ≡ self.now.outputs }
    {
        &self.outputs
    }
}
