//! What a world keeps for ever.

use abstract_paths::Output;
use rsvp_contents::Session;

/// A frame that was sent.
#[derive(Debug, Drop)]
pub struct Sent {
    /// The place of the router that sent it.
    pub router: usize,
    /// The frame, and the number of the link that it left by.
    pub output: Output,
}

/// A label that was given.
#[derive(Clone, Copy, Debug, PartialEq, Eq)]
pub struct Given {
    /// The place of the router that gave it.
    pub router: usize,
    /// The session of the LSP that it was given for.
    pub session: Session,
    /// The LSP ID of that LSP (RFC 3209, 4.6.2.1).
    pub lsp: u16,
    /// The label.
    pub label: u32,
}
