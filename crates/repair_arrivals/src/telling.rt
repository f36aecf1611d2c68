//! What a bypass's end is told about an LSP that is repaired (RFC 4090, 6.4.3).

ghost use Rattle.std.specs.Prelude.{◌≡◌, ◌∷◌, [], IfOk, IsTrue, false, true};
ghost use Rattle.rsvp_contents.specs.Errors.{counts_on};
ghost use Rattle.abstract_router.specs.Lsps.{around_of};
ghost use Rattle.abstract_router.specs.Outcomes.{reservation_error};
ghost use Rattle.abstract_router.specs.Reserving.{named};
ghost use Rattle.abstract_router.specs.Soundness.{AreHeld};
ghost use Rattle.abstract_router.specs.Through.{told_through};
ghost use Rattle.resv_arrivals.specs.Below.rules.Rooms.{HaveRoom};

use abstract_paths::Output;
use facility_backup::over_at;
use lsr_facts::{Repair, RsvpError};
use message_rules::{hop_through, labelled_by, reservation_error, resv_err};
use resv_arrivals::named;
use rsvp_contents::{ErrorDescriptors, FlowDescriptor, Resv, ResvErr};
use rsvp_objects::{ErrorSpec, Session, Style};
use state_views::StateView;
use std::alloc::{AllocError, Global};

/// A ResvErr for a repaired LSP, as it goes through the bypass, where that is up (RFC 4090, 6.4.3). It asks for descriptors
/// that leave room for the rest of the message. The only error is out of memory.
pub fn told_through<V: StateView>(
    alloc: Global,
    view: &V,
    repair: &Repair,
    session: Session,
    error: ErrorSpec,
    style: Style,
    descriptors: ErrorDescriptors,
) -> Result<Option<Output>, AllocError>
    requires held { AreHeld (V.router view.now) (V.state view.now) }
    requires counted { IsTrue (counts_on false descriptors) }
    requires room { HaveRoom descriptors }
    ensures { IfOk result (λ told. told
        ≡ told_through (around_of (V.router view.now) (V.state view.now)) repair.now session error style descriptors) }
{
    let Some(over) = over_at(view, repair.bypass) else {
        return Ok(None);
    };
    let error = ResvErr {
        session,
        hop: hop_through(view.node().router, repair),
        error,
        style,
        descriptors,
    };
    Ok(Some(labelled_by(over, resv_err(alloc, error)?)))
}

/// The error of a flow descriptor of a Resv that is for a repair: it goes back through the bypass. What the repair keeps stays
/// as it was, so it says in place (RFC 2205, A.5). The only error is out of memory.
pub(crate) fn told_back<V: StateView>(
    alloc: Global,
    view: &V,
    resv: &Resv,
    descriptor: &FlowDescriptor,
    repair: &Repair,
    error: RsvpError,
) -> Result<Option<Output>, AllocError>
    requires held { AreHeld (V.router view.now) (V.state view.now) }
    requires room { HaveRoom (named descriptor.now ∷ []) }
    ensures { IfOk result (λ told. told ≡ told_through (around_of (V.router view.now) (V.state view.now))
        repair.now resv.now.session (reservation_error (V.router view.now) true error) resv.now.style
        (named descriptor.now ∷ [])) }
{
    let found = reservation_error(view.node().router, true, error);
    let mut descriptors = ErrorDescriptors::new(alloc);
    descriptors.push(named(descriptor)?)?;
    let told = told_through(
        alloc,
        view,
        repair,
        resv.session,
        found,
        resv.style,
        descriptors,
    )?;
    Ok(told)
}
