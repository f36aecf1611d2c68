//! What a Resv does that came back from the end of a bypass.

ghost use Rattle.std.specs.FinMap.Entries.{is_sorted};
ghost use Rattle.std.specs.Prelude.{◌≡◌, ◌^◌, ◌≤◌, IfOk, OnErr, T, false, true};
ghost use Rattle.rsvp_contents.specs.Spelling.{IsMessage};
ghost use Rattle.rsvp_contents.specs.declared.messages.Content.TheVariants as contents;
ghost use Rattle.lsr_facts.specs.Orders.{key_cmp};
ghost use Rattle.abstract_router.specs.Reserving.{resv_replied};
ghost use Rattle.abstract_router.specs.Returning.{all_returned, returned_resv, returned_unknown};
ghost use Rattle.abstract_router.specs.Soundness.{AreHeld};
ghost use Rattle.resv_arrivals.specs.Progresses.{is_heard};
ghost use Rattle.state_views.specs.Drafts.{IsDraft};
ghost use Rattle.repair_arrivals.specs.Progresses.{reached};

use crate::matching::repair_from;
use crate::progress::RepairProgress;
use crate::renewing::next_returned;
use crate::telling::told_back;
use abstract_paths::Outputs;
use lsr_facts::{Refusal, Reply, ResvStyle};
use message_rules::{resv_leaves_room, unknown_object};
use resv_arrivals::{key_in, resv_replied, with_told};
use rsvp_contents::Resv;
use state_views::{Draft, Edits, StateView, WholeState, refused};
use std::alloc::{AllocError, Global};

/// What a Resv's flow descriptors lead to, taken in their order.
fn all_returned<V: WholeState>(
    alloc: Global,
    view: &V,
    style: ResvStyle,
    resv: &Resv,
) -> Result<RepairProgress, AllocError>
    requires moment { (V.state view.now).facts.moment ≤ 2 ^ 62 }
    requires held { AreHeld (V.router view.now) (V.state view.now) }
    requires in_order { T (is_sorted key_cmp (V.state view.now).repairs) }
    requires message { IsMessage (contents.Resv resv.now) }
    ensures reached { IfOk result (λ progress. reached (V.state view.now) progress
        ≡ all_returned (V.router view.now) (V.state view.now) style resv.now) }
    ensures memory { OnErr result (is_heard (all_returned (V.router view.now)
        (V.state view.now) style resv.now) ≡ true) }
{
    resv_leaves_room(resv);
    let mut progress = RepairProgress::new(alloc);
    for descriptor in resv.descriptors.as_slice() {
        progress = next_returned(alloc, view, progress, style, resv, descriptor)?;
    }
    Ok(progress)
}

/// The reply to a Resv whose flow descriptors led to this.
fn replied<V: StateView>(alloc: Global, view: &V, progress: RepairProgress) -> Draft
    ensures { IsDraft result (resv_replied (V.state view.now)
        (reached (V.state view.now) progress) progress.first)
        (V.router view.now) (V.state view.now) }
{
    let mut edits = Edits::none(alloc);
    edits.repairs = progress.edits;
    resv_replied(
        alloc,
        view,
        edits,
        progress.errors,
        progress.first,
        progress.has_granted,
    )
}

/// What a Resv does that came back from the end of a bypass, and is read whole: each flow descriptor renews the repair that it
/// is for. One of another style than FF and SE is for none. It asks for what holds of each state that a router
/// comes to. The only error is out of memory, and that never comes for a Resv that is refused.
#[tactic(auto, using(resv_arrivals::proofs::Hearing::heard_speaks), unfolding(abstract_router::specs::Returning::returned_resv))]
pub fn returned_resv<V: WholeState>(
    alloc: Global,
    view: &V,
    resv: &Resv,
) -> Result<Draft, AllocError>
    requires moment { (V.state view.now).facts.moment ≤ 2 ^ 62 }
    requires held { AreHeld (V.router view.now) (V.state view.now) }
    requires in_order { T (is_sorted key_cmp (V.state view.now).repairs) }
    requires message { IsMessage (contents.Resv resv.now) }
    ensures draft { IfOk result (λ draft. IsDraft draft
        (returned_resv (V.router view.now) (V.state view.now) resv.now)
        (V.router view.now) (V.state view.now)) }
    ensures memory { OnErr result ((returned_resv (V.router view.now) (V.state view.now)
        resv.now).is_silent ≡ false) }
{
    let Some(style) = ResvStyle::of(resv.style) else {
        return Ok(refused(alloc, view, Refusal::NoMatch));
    };
    let progress = all_returned(alloc, view, style, resv)?;
    Ok(replied(alloc, view, progress))
}

/// What such a Resv does with an object that it doesn't know: it is in error, for the repair of its first flow descriptor
/// (RFC 2205, 3.10 and B, 13 and 14). It asks for what holds of each state that a router comes to. The only error is out of
/// memory, and that never comes for a Resv that is refused.
#[tactic(auto, unfolding(abstract_router::specs::Returning::returned_unknown))]
pub fn returned_unknown<V: WholeState>(
    alloc: Global,
    view: &V,
    resv: &Resv,
    class: u8,
    ctype: u8,
) -> Result<Draft, AllocError>
    requires held { AreHeld (V.router view.now) (V.state view.now) }
    requires message { IsMessage (contents.Resv resv.now) }
    ensures draft { IfOk result (λ draft. IsDraft draft
        (returned_unknown (V.router view.now) (V.state view.now) resv.now class ctype)
        (V.router view.now) (V.state view.now)) }
    ensures memory { OnErr result ((returned_unknown (V.router view.now) (V.state view.now)
        resv.now class ctype).is_silent ≡ false) }
{
    resv_leaves_room(resv);
    let [first, ..] = resv.descriptors.as_slice() else {
        return Ok(refused(alloc, view, Refusal::NoMatch));
    };
    let Some(repair) = repair_from(view, resv.hop.address, &key_in(resv, first)) else {
        return Ok(refused(alloc, view, Refusal::NoMatch));
    };
    let error = unknown_object(class, ctype);
    let told = told_back(alloc, view, resv, first, &repair.1, error)?;
    Ok(Draft {
        reply: Reply::Error(error),
        errors: with_told(Outputs::new(alloc), told)?,
        due: None,
        is_silent: false,
        edits: Edits::none(alloc),
    })
}
