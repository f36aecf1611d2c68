//! The errors of reservations, and how they are told downstream (RFC 2205, 3.1.8).

ghost use Rattle.std.specs.Option.{option_to_list};
ghost use Rattle.std.specs.List.{AllByRecursion};
ghost use Rattle.std.specs.Prelude.{◌≡◌, ◌∷◌, [], IfOk, IsOk, IsTrue, false};
ghost use Rattle.rsvp_contents.specs.Spelling.{IsMessage};
ghost use Rattle.rsvp_contents.specs.declared.messages.Content.TheVariants as contents;
ghost use Rattle.rsvp_contents.specs.Errors.{counts_on};
ghost use Rattle.rsvp_bodies.specs.Traffic.{flowspec_rate};
ghost use Rattle.abstract_router.specs.Outcomes.{told_downstream};
ghost use Rattle.abstract_router.specs.Preempting.{told_preempted};
ghost use Rattle.abstract_router.specs.Reserving.{named};
ghost use Rattle.message_rules.specs.Rooms.{HaveRoom};

use crate::errors::reservation_error;
use crate::messages::sent_by;
use abstract_paths::Output;
use explicit_routes::link_at;
use lsr_facts::{Key, ResvFact, Router, RsvpError};
use rsvp_contents::{Content, ErrorDescriptor, ErrorDescriptors, Message, Resv, ResvErr};
use rsvp_objects::{ErrorSpec, Hop, Session, Style, Template};
use std::alloc::{AllocError, Global};

/// Bytes of an IPv4 address.
const ADDRESS_LEN: usize = 4;

/// A ResvErr. It asks for descriptors that leave room for the rest of the message. The only error is out of memory.
pub fn resv_err(alloc: Global, error: ResvErr) -> Result<Message, AllocError>
    requires counted { IsTrue (counts_on false error.descriptors) }
    requires room { HaveRoom error.descriptors }
    ensures { IfOk result (λ message. message ≡ contents.ResvErr error) }
{
    let content = Box::new(alloc, Content::ResvErr(error))?;
    Ok(Message::checked(content).unwrap())
}

/// The descriptors of a ResvErr that names this LSP, or none. The only error is out of memory.
fn listed(
    alloc: Global,
    descriptor: Option<ErrorDescriptor>,
) -> Result<ErrorDescriptors, AllocError>
    ensures { IfOk result (λ descriptors. descriptors ≡ option_to_list descriptor) }
{
    let mut descriptors = ErrorDescriptors::new(alloc);
    if let Some(descriptor) = descriptor {
        descriptors.push(descriptor)?;
    }
    Ok(descriptors)
}

/// A ResvErr that names this LSP, or none, and goes downstream by a link, from this router's address there (RFC 2205,
/// 3.1.8); `None` where the router has no such link. It asks for a descriptor that leaves room for the rest of the
/// message. The only error is out of memory.
pub fn told_downstream(
    alloc: Global,
    router: &Router,
    link: u16,
    session: Session,
    error: ErrorSpec,
    style: Style,
    descriptor: Option<ErrorDescriptor>,
) -> Result<Option<Output>, AllocError>
    requires { HaveRoom (option_to_list descriptor) }
    ensures { IfOk result (λ told. told ≡ told_downstream router.now link session error style (option_to_list descriptor)) }
{
    let Some(there) = link_at(router, link) else {
        return Ok(None);
    };
    let error = ResvErr {
        session,
        hop: Hop {
            address: there.address,
            interface: u32::from(link),
        },
        error,
        style,
        descriptors: listed(alloc, descriptor)?,
    };
    let message = resv_err(alloc, error)?;
    Ok(Some(sent_by(link, message)))
}

/// An LSP loses its reservation to another: its next hop is told, in the style and for the traffic that were reserved
/// (RFC 2205, 3.1.8 and B, 12). It asks that the rate of the reservation is defined. The only error is out of memory.
#[tactic(auto, using(crate::proofs::Rooms::rated_has_room))]
pub fn told_preempted(
    alloc: Global,
    router: &Router,
    key: &Key,
    fact: &ResvFact,
) -> Result<Option<Output>, AllocError>
    requires { IsOk (flowspec_rate fact.now.flowspec) }
    ensures { IfOk result (λ told. told ≡ told_preempted router.now key.now fact.now) }
{
    prove!(key.sender.sender.octets().len() == ADDRESS_LEN);
    let descriptor = ErrorDescriptor {
        flowspec: Some(fact.flowspec.clone()?),
        filter: key.sender,
    };
    let error = reservation_error(router, false, RsvpError::PREEMPTED);
    told_downstream(
        alloc,
        router,
        fact.link,
        key.session,
        error,
        fact.style.word(),
        Some(descriptor),
    )
}

/// That a ResvErr has room for each LSP that a Resv reserves for.
#[tactic(auto, using(crate::proofs::Rooms::resv_rooms))]
pub fn resv_leaves_room(resv: &Resv)
    requires { IsMessage (contents.Resv resv.now) }
    ensures { AllByRecursion (λ d. HaveRoom (named d ∷ [])) resv.now.descriptors }
{
    prove!(resv.session.endpoint.octets().len() == ADDRESS_LEN);
    prove!(resv.session.extended.octets().len() == ADDRESS_LEN);
    prove!(resv.hop.address.octets().len() == ADDRESS_LEN);
}

/// That a ResvErr has room for each LSP that another names.
#[tactic(auto, using(crate::proofs::Rooms::resv_err_rooms))]
pub fn resv_err_leaves_room(error: &ResvErr)
    requires { IsMessage (contents.ResvErr error.now) }
    ensures { AllByRecursion (λ d. HaveRoom (d ∷ [])) error.now.descriptors }
{
    prove!(error.session.endpoint.octets().len() == ADDRESS_LEN);
    prove!(error.session.extended.octets().len() == ADDRESS_LEN);
    prove!(error.hop.address.octets().len() == ADDRESS_LEN);
    prove!(error.error.node.octets().len() == ADDRESS_LEN);
}

/// That a ResvErr has room for an LSP under another sender, as it has for the LSP.
#[tactic(auto, using(crate::proofs::Rooms::renamed_has_room))]
pub fn renamed_leaves_room(descriptor: &ErrorDescriptor, filter: &Template)
    requires { HaveRoom (descriptor.now ∷ []) }
    ensures { HaveRoom (record descriptor.now { filter = filter.now } ∷ []) }
{
    prove!(descriptor.filter.sender.octets().len() == ADDRESS_LEN);
    prove!(filter.sender.octets().len() == ADDRESS_LEN);
}
