//! What is asked for.

use lsr_facts::{Key, ResvStyle};
use rsvp_contents::{FlowDescriptor, Resv};

/// One flow descriptor of a Resv.
#[derive(Clone, Copy, Debug)]
pub struct Asked<'a> {
    /// The number of the link that the reservation is to be on.
    pub link: u16,
    /// The style of the Resv.
    pub style: ResvStyle,
    /// The Resv.
    pub resv: &'a Resv,
    /// The flow descriptor.
    pub descriptor: &'a FlowDescriptor,
    /// The LSP that the flow descriptor is for.
    pub key: Key,
}
