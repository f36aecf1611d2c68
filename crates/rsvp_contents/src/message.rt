ghost use Rattle.std.specs.Prelude.{◌≡◌, ◌↔◌, IsTrue, IsOk, IfOk, IfErr};

use crate::fitting::fits;
use crate::messages::Content;
use std::alloc::{AllocError, Global};
use std::marker::Model;

/// A message: content whose parts are within their limits, and which is written in at most 4,096 bytes
/// that are read again as the same content. Contracts see the content.
#[derive(Debug)]
pub struct Message {
    // A message is large, and moved often.
    content: Box<Content>,
}

/// Written out, so that a message is dropped by one call, whatever it says.
impl Drop for Message {
    fn drop(self) {
        let Message { content: _content } = self;
    }
}

impl Model for Message {
    ghost use Rattle.rsvp_contents.specs.declared.messages.Content.{Content};

    ghost Value = { Content };

    ghost view = { λ m. m.content.value };

    ghost use Rattle.rsvp_contents.specs.Spelling.{IsMessage};

    ghost invariant = { λ m. IsMessage m.content.value };
}

impl Message {
    ghost use Rattle.rsvp_contents.specs.Fitting.{HasRoom, fits_parts};
    ghost use Rattle.rsvp_contents.specs.Spelling.{IsMessage};

    /// The message with this content. The only error is out of memory.
    pub fn new(alloc: Global, content: Content) -> Result<Message, AllocError>
        requires { IsMessage content }
        ensures { IfOk result (λ message. message ≡ content) }
    {
        Ok(Message {
            content: Box::new(alloc, content)?,
        })
    }

    /// Whether the content is a message: its parts fit, and it is written in at most
    /// [`crate::numbers::MAX_MESSAGE_LEN`] bytes.
    pub fn fits(content: &Content) -> bool
        ensures message { IsTrue result ↔ IsMessage content.now }

        // Only a long Tspec makes a message too long whose parts fit.
        ensures room { IsTrue (fits_parts content.now) → HasRoom content.now → IsTrue result }
    {
        fits(content)
    }

    /// The message with this content, where it is one ([`Message::fits`]). Where it is none, it is given
    /// back. Takes no memory.
    pub fn checked(content: Box<Content>) -> Result<Message, Box<Content>>
        ensures ok { IfOk result (λ message. (message ≡ content.value) × IsMessage content.value) }
        ensures err { IfErr result (λ back. (back ≡ content) × ¬ IsMessage content.value) }

        // Only a long Tspec makes a message too long whose parts fit.
        ensures room { IsTrue (fits_parts content.value) → HasRoom content.value → IsOk result }
    {
        if Message::fits(&content) {
            Ok(Message { content })
        } else {
            Err(content)
        }
    }

    /// What it says.
    pub fn content(&self) -> &Content
        ensures content { result.now ≡ self.now }
        ensures fits { IsMessage self.now }
    {
        &self.content
    }

    /// What it says, given back without taking memory.
    pub fn into_content(self) -> Content
        ensures content { result ≡ self }
        ensures fits { IsMessage self }
    {
        let Message { content } = self;
        Box::into_inner(content)
    }
}

impl Clone for Message {
    ghost is_clone = { λ source copy. copy ≡ source };

    /// A copy of the message. The only error is out of memory.
    fn clone(&self) -> Result<Message, AllocError> {
        Ok(Message {
            content: self.content.clone()?,
        })
    }
}

/// What a message was read as.
#[derive(Debug, Drop)]
pub enum Reading {
    /// The message whole.
    Whole(Message),
    /// A message with an object that its type doesn't know: its Class-Num and C-Type.
    Unknown(Message, u8, u8),
}

impl Clone for Reading {
    ghost is_clone = { λ source copy. copy ≡ source };

    /// A copy of the reading. The only error is out of memory.
    fn clone(&self) -> Result<Reading, AllocError> {
        match self {
            Reading::Whole(message) => Ok(Reading::Whole(message.clone()?)),
            Reading::Unknown(message, class, ctype) => {
                Ok(Reading::Unknown(message.clone()?, *class, *ctype))
            }
        }
    }
}
