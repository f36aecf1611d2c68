//! The last replies of a session.
ghost use Rattle.std.specs.Prelude.{◌≡◌, ◌-◌, ◌∷◌, ◌++◌, [], IfOk, length, slice_get, string_bytes};
ghost use Rattle.lsr_text.specs.Answers.{replies_text};
ghost use Rattle.lsr_session.specs.Requests.{latest};

use circular_buffer::HeapCircularBuffer;
use lsr_facts::Reply;
use lsr_text::push_replies;
use std::alloc::{AllocError, Global};
use std::marker::Model;

/// How many replies are remembered.
const RECENT_REPLIES: usize = 32;

/// The last 32 replies of a session. Contracts see their list, the newest at the end.
#[derive(Drop)]
pub struct Recent {
    replies: HeapCircularBuffer<Reply>,
}

impl Model for Recent {
    ghost use Rattle.std.specs.Prelude.{◌≡◌, List};
    ghost use Rattle.lsr_facts.specs.declared.reply.Reply.{Reply};

    ghost Value = { List Reply };

    ghost view = { λ r. r.replies.items };

    ghost invariant = { λ r. r.replies.capacity ≡ 32 };
}

impl Recent {
    /// No reply yet. The only error is that memory ran out.
    pub fn new(alloc: Global) -> Result<Recent, AllocError>
        ensures { IfOk result (λ recent. recent ≡ []) }
    {
        Ok(Recent {
            replies: HeapCircularBuffer::with_capacity(alloc, RECENT_REPLIES)?,
        })
    }

    /// Remembers a reply, and forgets the oldest where there are 32.
    pub fn push(&mut self, reply: Reply)
        ensures { self.new ≡ latest (self.old ++ reply ∷ []) }
    {
        self.replies.push_back(reply);
    }

    /// The newest reply, or `None` where there was none yet.
    pub fn newest(&self) -> Option<Reply>
        ensures { result ≡ slice_get self.now (length self.now - 1) }
    {
        self.replies.back().copied()
    }

    /// The lines of the replies, the oldest first. The only error is that memory ran out.
    pub fn text(&self, alloc: Global) -> Result<String, AllocError>
        ensures { IfOk result (λ text. string_bytes text ≡ replies_text self.now) }
    {
        let (older, newer) = self.replies.as_slices();
        let mut text = String::new(alloc);
        push_replies(&mut text, older)?;
        push_replies(&mut text, newer)?;
        Ok(text)
    }
}
