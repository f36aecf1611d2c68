//! What a Resv does (RFC 2205, 3.1.4, 3.7 and 3.10; RFC 3209, 2.4, 4.1 and 4.6.3).

ghost use Rattle.std.specs.Option.{option_to_list};
ghost use Rattle.std.specs.List.{AllByRecursion};
ghost use Rattle.std.specs.Prelude.{◌≡◌, ◌^◌, ◌≤◌, IfOk, OnErr, false, true};
ghost use Rattle.rsvp_contents.specs.Spelling.{IsMessage};
ghost use Rattle.rsvp_contents.specs.declared.messages.Content.TheVariants as contents;
ghost use Rattle.abstract_paths.specs.Soundness.{ArePaths};
ghost use Rattle.abstract_router.specs.Reserving.{all_descriptors, resv_arrival, resv_failed, resv_replied, unknown_resv};
ghost use Rattle.abstract_router.specs.Soundness.{AreHeld};
ghost use Rattle.abstract_router.specs.States.{is_held};
ghost use Rattle.abstract_router.specs.Steps.{stands};
ghost use Rattle.message_rules.specs.Rooms.{HaveRoom};
ghost use Rattle.state_views.specs.Drafts.{IsDraft};
ghost use Rattle.resv_arrivals.specs.Progresses.{is_heard, reached};

use crate::asked::Asked;
use crate::descriptors::{key_in, named};
use crate::granting::next_descriptor;
use crate::progress::Progress;
use crate::replies::{resv_replied, with_told};
use abstract_paths::Outputs;
use lsr_facts::{Key, Reply, ResvStyle, RsvpError};
use message_rules::{reservation_error, resv_leaves_room, told_downstream, unknown_object};
use rsvp_contents::{ErrorDescriptor, Resv};
use state_views::{Draft, Edits, StateView, WholeState};
use std::alloc::{AllocError, Global};

/// A Resv that is in error as a whole: that is told back, and changes nothing.
fn resv_failed<V: StateView>(
    alloc: Global,
    view: &V,
    link: u16,
    resv: &Resv,
    in_place: bool,
    descriptor: Option<ErrorDescriptor>,
    error: RsvpError,
) -> Result<Draft, AllocError>
    requires { HaveRoom (option_to_list descriptor) }
    ensures { IfOk result (λ draft. IsDraft draft
        (resv_failed (V.router view.now) (V.state view.now) link resv.now in_place
        (option_to_list descriptor) error) (V.router view.now) (V.state view.now)) }
{
    let router = view.node().router;
    let found = reservation_error(router, in_place, error);
    let told = told_downstream(
        alloc,
        router,
        link,
        resv.session,
        found,
        resv.style,
        descriptor,
    )?;
    Ok(Draft {
        reply: Reply::Error(error),
        errors: with_told(Outputs::new(alloc), told)?,
        due: None,
        is_silent: false,
        edits: Edits::none(alloc),
    })
}

/// What a Resv's flow descriptors lead to, taken in their order.
fn all_descriptors<V: WholeState>(
    alloc: Global,
    view: &V,
    link: u16,
    style: ResvStyle,
    resv: &Resv,
) -> Result<Progress, AllocError>
    requires moment { (V.state view.now).facts.moment ≤ 2 ^ 62 }
    requires paths { ArePaths (V.router view.now) (V.state view.now).facts.moment (V.state view.now).facts.paths }
    requires held { AreHeld (V.router view.now) (V.state view.now) }
    requires standing { AllByRecursion (λ resv. stands (V.state view.now).facts resv ≡ true) (V.state view.now).resvs }
    requires message { IsMessage (contents.Resv resv.now) }
    ensures reached { IfOk result (λ progress. reached (V.state view.now) progress
        ≡ all_descriptors (V.router view.now) (V.state view.now) link style resv.now) }
    ensures memory { OnErr result (is_heard (all_descriptors (V.router view.now)
        (V.state view.now) link style resv.now) ≡ true) }
{
    resv_leaves_room(resv);
    let mut progress = Progress::new(alloc);
    let descriptors = resv.descriptors.as_slice();
    for (index, descriptor) in descriptors.iter().enumerate() {
        let asked = Asked {
            link,
            style,
            resv,
            descriptor,
            key: key_in(resv, descriptor),
        };
        let is_last = index + 1 == descriptors.len();
        progress = next_descriptor(alloc, view, progress, &asked, is_last)?;
    }
    Ok(progress)
}

/// The reply to a Resv whose flow descriptors led to this.
fn replied<V: WholeState>(alloc: Global, view: &V, progress: Progress) -> Draft
    ensures { IsDraft result (resv_replied (V.state view.now)
        (reached (V.state view.now) progress) progress.first)
        (V.router view.now) (V.state view.now) }
{
    let mut edits = Edits::none(alloc);
    edits.resvs = progress.edits;
    resv_replied(
        alloc,
        view,
        edits,
        progress.errors,
        progress.first,
        progress.has_granted,
    )
}

/// What a Resv does that is read whole. It asks for what holds of each state that a router comes to. The only error is
/// out of memory, and that never comes for a Resv that is refused.
#[tactic(auto, using(crate::proofs::Hearing::heard_speaks), unfolding(abstract_router::specs::Reserving::resv_arrival))]
pub fn resv_arrival<V: WholeState>(
    alloc: Global,
    view: &V,
    link: u16,
    resv: &Resv,
) -> Result<Draft, AllocError>
    requires moment { (V.state view.now).facts.moment ≤ 2 ^ 62 }
    requires paths { ArePaths (V.router view.now) (V.state view.now).facts.moment (V.state view.now).facts.paths }
    requires held { AreHeld (V.router view.now) (V.state view.now) }
    requires standing { AllByRecursion (λ resv. stands (V.state view.now).facts resv ≡ true) (V.state view.now).resvs }
    requires message { IsMessage (contents.Resv resv.now) }
    ensures draft { IfOk result (λ draft. IsDraft draft
        (resv_arrival (V.router view.now) (V.state view.now) link resv.now)
        (V.router view.now) (V.state view.now)) }
    ensures memory { OnErr result ((resv_arrival (V.router view.now) (V.state view.now) link
        resv.now).is_silent ≡ false) }
{
    let Some(style) = ResvStyle::of(resv.style) else {
        return resv_failed(
            alloc,
            view,
            link,
            resv,
            false,
            None,
            RsvpError::UNKNOWN_STYLE,
        );
    };
    let progress = all_descriptors(alloc, view, link, style, resv)?;
    Ok(replied(alloc, view, progress))
}

/// Whether an LSP is reserved or repaired.
fn is_held<V: StateView>(view: &V, key: &Key) -> bool
    ensures { result ≡ is_held (V.state view.now) key.now }
{
    view.resv(key).is_some() || view.repair(key).is_some()
}

/// What a Resv does with an object that it doesn't know: it is in error, for its first flow descriptor (RFC 2205, 3.10
/// and B, 13 and 14). The only error is out of memory.
#[tactic(auto, unfolding(abstract_router::specs::Reserving::unknown_resv))]
pub fn unknown_resv<V: WholeState>(
    alloc: Global,
    view: &V,
    link: u16,
    resv: &Resv,
    class: u8,
    ctype: u8,
) -> Result<Draft, AllocError>
    requires { IsMessage (contents.Resv resv.now) }
    ensures draft { IfOk result (λ draft. IsDraft draft
        (unknown_resv (V.router view.now) (V.state view.now) link resv.now class ctype)
        (V.router view.now) (V.state view.now)) }
    ensures memory { OnErr result ((unknown_resv (V.router view.now) (V.state view.now) link
        resv.now class ctype).is_silent ≡ false) }
{
    resv_leaves_room(resv);
    let error = unknown_object(class, ctype);
    match resv.descriptors.as_slice() {
        [first, ..] => {
            let in_place = is_held(view, &key_in(resv, first));
            let first = Some(named(first)?);
            resv_failed(alloc, view, link, resv, in_place, first, error)
        }
        [] => resv_failed(alloc, view, link, resv, false, None, error),
    }
}
