ghost use Rattle.std.specs.Prelude.{◌≡◌};

use crate::sequence::{Exact, Sequence};
use rsvp_objects::{Flowspec, Label, Record, Template};
use std::alloc::AllocError;

/// A flow descriptor of a Resv (RFC 2205, 3.1.4; RFC 3209, 3.2): what is reserved for one LSP.
#[derive(Debug, Drop)]
pub struct FlowDescriptor {
    /// The traffic that is reserved for: its own FLOWSPEC, or the one that counts on.
    pub flowspec: Flowspec,
    /// The LSP.
    pub filter: Template,
    /// The label that the neighbour takes it with.
    pub label: Label,
    /// The route that the Resv took so far.
    pub recorded: Option<Record>,
}

impl Clone for FlowDescriptor {
    ghost is_clone = { λ source copy. copy ≡ source };

    /// A copy of the descriptor. The only error is out of memory.
    fn clone(&self) -> Result<FlowDescriptor, AllocError> {
        Ok(FlowDescriptor {
            flowspec: self.flowspec.clone()?,
            filter: self.filter,
            label: self.label,
            recorded: self.recorded.clone()?,
        })
    }
}

/// An error flow descriptor of a ResvErr (RFC 2205, 3.1.8; RFC 3209, 3.2): one LSP whose reservation failed.
#[derive(Debug, Drop)]
pub struct ErrorDescriptor {
    /// The FLOWSPEC that counts for it, where there is one.
    pub flowspec: Option<Flowspec>,
    /// The LSP.
    pub filter: Template,
}

impl Clone for ErrorDescriptor {
    ghost is_clone = { λ source copy. copy ≡ source };

    /// A copy of the descriptor. The only error is out of memory.
    fn clone(&self) -> Result<ErrorDescriptor, AllocError> {
        Ok(ErrorDescriptor {
            flowspec: self.flowspec.clone()?,
            filter: self.filter,
        })
    }
}

impl Exact for FlowDescriptor {
    ghost clones_equal = { λ source copy same. same };
}

impl Exact for ErrorDescriptor {
    ghost clones_equal = { λ source copy same. same };
}

impl Exact for Template {
    ghost clones_equal = { λ source copy same. same };
}

/// The flow descriptors of a Resv, in their order.
pub type FlowDescriptors = Sequence<FlowDescriptor>;

/// The error flow descriptors of a ResvErr, in their order.
pub type ErrorDescriptors = Sequence<ErrorDescriptor>;

/// The LSPs that a ResvTear names, in their order.
pub type Filters = Sequence<Template>;
