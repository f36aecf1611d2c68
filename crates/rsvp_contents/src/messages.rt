ghost use Rattle.std.specs.Prelude.{◌≡◌};

use crate::passing::Passing;
use crate::{ErrorDescriptors, Filters, FlowDescriptors};
use rsvp_objects::{
    Attr, ErrorSpec, FastReroute, Hop, LabelRequest, Record, Route, Session, Style, Template,
    TimeValues, Tspec,
};
use std::alloc::AllocError;

/// A Path: a sender's wish for a path, on its way to the endpoint (RFC 2205, 3.1.3; RFC 3209, 3.1).
#[derive(Debug, Drop)]
pub struct Path {
    /// The tunnel.
    pub session: Session,
    /// The neighbour that sent it.
    pub hop: Hop,
    /// How often the neighbour refreshes it.
    pub time: TimeValues,
    /// The route that it is to take.
    pub route: Option<Route>,
    /// What the path is to carry.
    pub label_request: LabelRequest,
    /// Priorities, flags and name.
    pub attr: Option<Attr>,
    /// The protection that is asked for.
    pub fast_reroute: Option<FastReroute>,
    /// Objects that are passed on unread; an ADSPEC stands last.
    pub passing: Passing,
    /// The LSP's head and number.
    pub sender: Template,
    /// The traffic that it is to carry.
    pub tspec: Tspec,
    /// The route that it took so far.
    pub recorded: Option<Record>,
}

impl Clone for Path {
    ghost is_clone = { λ source copy. copy ≡ source };

    /// A copy of the Path. The only error is out of memory.
    fn clone(&self) -> Result<Path, AllocError> {
        Ok(Path {
            session: self.session,
            hop: self.hop,
            time: self.time,
            route: self.route.clone()?,
            label_request: self.label_request,
            attr: self.attr.clone()?,
            fast_reroute: self.fast_reroute,
            passing: self.passing.clone()?,
            sender: self.sender,
            tspec: self.tspec.clone()?,
            recorded: self.recorded.clone()?,
        })
    }
}

/// A PathErr: an error of a Path, on its way back to the sender (RFC 2205, 3.1.7).
#[derive(Debug, Drop)]
pub struct PathErr {
    /// The tunnel.
    pub session: Session,
    /// What is wrong, and who found it.
    pub error: ErrorSpec,
    /// The LSP's head and number.
    pub sender: Template,
    /// The traffic of the Path that is answered.
    pub tspec: Option<Tspec>,
}

impl Clone for PathErr {
    ghost is_clone = { λ source copy. copy ≡ source };

    /// A copy of the PathErr. The only error is out of memory.
    fn clone(&self) -> Result<PathErr, AllocError> {
        Ok(PathErr {
            session: self.session,
            error: self.error,
            sender: self.sender,
            tspec: self.tspec.clone()?,
        })
    }
}

/// A PathTear: the end of a path (RFC 2205, 3.1.5).
#[derive(Clone, Copy, Debug, PartialEq, Eq)]
pub struct PathTear {
    /// The tunnel.
    pub session: Session,
    /// The neighbour that sent it.
    pub hop: Hop,
    /// The LSP's head and number.
    pub sender: Template,
}

/// A Resv: a receiver's wish for reservations, on its way to the senders (RFC 2205, 3.1.4; RFC 3209, 3.2).
#[derive(Debug, Drop)]
pub struct Resv {
    /// The tunnel.
    pub session: Session,
    /// The neighbour that sent it.
    pub hop: Hop,
    /// How often the neighbour refreshes it.
    pub time: TimeValues,
    /// Objects that are passed on unread; an ADSPEC stands last.
    pub passing: Passing,
    /// Whether the LSPs share one reservation.
    pub style: Style,
    /// What is reserved for each LSP; none of another style than FF and SE.
    pub descriptors: FlowDescriptors,
}

impl Clone for Resv {
    ghost is_clone = { λ source copy. copy ≡ source };

    /// A copy of the Resv. The only error is out of memory.
    fn clone(&self) -> Result<Resv, AllocError> {
        Ok(Resv {
            session: self.session,
            hop: self.hop,
            time: self.time,
            passing: self.passing.clone()?,
            style: self.style,
            descriptors: self.descriptors.clone()?,
        })
    }
}

/// A ResvErr: an error of a Resv, on its way back to the receiver (RFC 2205, 3.1.8).
#[derive(Debug, Drop)]
pub struct ResvErr {
    /// The tunnel.
    pub session: Session,
    /// The neighbour that sent it.
    pub hop: Hop,
    /// What is wrong, and who found it.
    pub error: ErrorSpec,
    /// The style of the Resv that is answered, whole as it came.
    pub style: Style,
    /// The LSPs whose reservations failed.
    pub descriptors: ErrorDescriptors,
}

impl Clone for ResvErr {
    ghost is_clone = { λ source copy. copy ≡ source };

    /// A copy of the ResvErr. The only error is out of memory.
    fn clone(&self) -> Result<ResvErr, AllocError> {
        Ok(ResvErr {
            session: self.session,
            hop: self.hop,
            error: self.error,
            style: self.style,
            descriptors: self.descriptors.clone()?,
        })
    }
}

/// A ResvTear: the end of reservations (RFC 2205, 3.1.6).
#[derive(Debug, Drop)]
pub struct ResvTear {
    /// The tunnel.
    pub session: Session,
    /// The neighbour that sent it.
    pub hop: Hop,
    /// The style of the reservations.
    pub style: Style,
    /// The LSPs, one or more.
    pub filters: Filters,
}

impl Clone for ResvTear {
    ghost is_clone = { λ source copy. copy ≡ source };

    /// A copy of the ResvTear. The only error is out of memory.
    fn clone(&self) -> Result<ResvTear, AllocError> {
        Ok(ResvTear {
            session: self.session,
            hop: self.hop,
            style: self.style,
            filters: self.filters.clone()?,
        })
    }
}

/// What a message says.
#[derive(Debug, Drop)]
pub enum Content {
    /// A Path, type 1.
    Path(Path),
    /// A Resv, type 2.
    Resv(Resv),
    /// A PathErr, type 3.
    PathErr(PathErr),
    /// A ResvErr, type 4.
    ResvErr(ResvErr),
    /// A PathTear, type 5.
    PathTear(PathTear),
    /// A ResvTear, type 6.
    ResvTear(ResvTear),
}

impl Clone for Content {
    ghost is_clone = { λ source copy. copy ≡ source };

    /// A copy of the content. The only error is out of memory.
    fn clone(&self) -> Result<Content, AllocError> {
        match self {
            Content::Path(path) => Ok(Content::Path(path.clone()?)),
            Content::Resv(resv) => Ok(Content::Resv(resv.clone()?)),
            Content::PathErr(error) => Ok(Content::PathErr(error.clone()?)),
            Content::ResvErr(error) => Ok(Content::ResvErr(error.clone()?)),
            Content::PathTear(tear) => Ok(Content::PathTear(*tear)),
            Content::ResvTear(tear) => Ok(Content::ResvTear(tear.clone()?)),
        }
    }
}
