//! What comes of a flow descriptor of a Resv that came back from the end of a bypass.

ghost use Rattle.std.specs.FinMap.Entries.{find, is_sorted};
ghost use Rattle.std.specs.Option.{option_map_or};
ghost use Rattle.std.specs.Prelude.{◌≡◌, ◌∷◌, ◌^◌, ◌≤◌, [], IfOk, OnErr, Some, T, nat_le, true};
ghost use Rattle.lsr_facts.specs.Orders.{key_cmp};
ghost use Rattle.abstract_router.specs.Assigning.{fits_share};
ghost use Rattle.abstract_router.specs.Reserving.{named, verdict_by_style};
ghost use Rattle.abstract_router.specs.Reserving as reserving;
ghost use Rattle.abstract_router.specs.Returning.{carried_back, next_returned, renewed};
ghost use Rattle.abstract_router.specs.Soundness.{AreHeld};
ghost use Rattle.resv_arrivals.specs.Below.rules.Rooms.{HaveRoom};
ghost use Rattle.resv_arrivals.specs.Judgements.{IsJudgement};
ghost use Rattle.resv_arrivals.specs.Progresses.{fact_at, is_heard};
ghost use Rattle.repair_arrivals.specs.Progresses.{IsReached, reached};

use crate::matching::repair_from;
use crate::progress::RepairProgress;
use crate::telling::told_back;
use lsr_facts::{Key, Repair, ResvStyle, RsvpError};
use resv_arrivals::{Asked, Judgement, judge_beside, key_in, resv_by, with_told};
use rsvp_contents::{FlowDescriptor, Resv};
use state_views::{StateView, WholeState};
use std::alloc::{AllocError, Global};

/// Whether what an LSP is promised of a bypass, if it is promised any, is as much as this rate, in bytes per second.
fn is_promised<V: StateView>(view: &V, key: &Key, rate: u64) -> bool
    ensures { result ≡ option_map_or (λ given. nat_le rate given.rate) (find key_cmp key.now (V.state view.now).assignments) true }
{
    match view.assignment(key) {
        Some(given) => rate <= given.rate,
        None => true,
    }
}

/// What becomes of a flow descriptor for a repair. It is tested as any other; but it takes no bandwidth of the link, and it has
/// to fit what its LSP is promised of the bypass, if it is promised any.
fn judge_renewal<V: WholeState>(view: &V, asked: &Asked) -> Judgement
    ensures { let s = V.state view.now in
        let fact = fact_at s.facts.moment asked.now in
        IsJudgement fact result (verdict_by_style (V.router view.now) s asked.now.key fact (fits_share s asked.now.key fact)) }
{
    match judge_beside(view, asked) {
        Judgement::Failed(error) => Judgement::Failed(error),
        Judgement::PassedOver => Judgement::PassedOver,
        Judgement::Granted(rate) => {
            if is_promised(view, &asked.key, rate) {
                Judgement::Granted(rate)
            } else {
                Judgement::Failed(RsvpError::NO_BANDWIDTH)
            }
        }
    }
}

/// A flow descriptor for a repair is in error: that goes back through the bypass, and changes nothing.
fn failed<V: StateView>(
    alloc: Global,
    view: &V,
    progress: RepairProgress,
    asked: &Asked,
    repair: &Repair,
    error: RsvpError,
) -> Result<RepairProgress, AllocError>
    requires held { AreHeld (V.router view.now) (V.state view.now) }
    requires room { HaveRoom (named asked.now.descriptor.now ∷ []) }
    requires reached { IsReached (V.state view.now) progress }
    ensures carried { IfOk result (λ now. reached (V.state view.now) now
        ≡ carried_back (V.router view.now) asked.now.resv.now asked.now.descriptor.now (asked.now.key, repair.now)
        (fact_at (V.state view.now).facts.moment asked.now) (reached (V.state view.now) progress)
        (reserving.Failed error)) }
    ensures reached { IfOk result (IsReached (V.state view.now)) }
{
    let told = told_back(alloc, view, asked.resv, asked.descriptor, repair, error)?;
    Ok(RepairProgress {
        errors: with_told(progress.errors, told)?,
        first: progress.first.or(Some(error)),
        ..progress
    })
}

/// A flow descriptor for a repair is granted: what it asks for takes the place of what the repair kept.
fn granted<V: StateView>(
    view: &V,
    progress: RepairProgress,
    asked: &Asked,
    repair: &Repair,
) -> Result<RepairProgress, AllocError>
    requires moment { (V.state view.now).facts.moment ≤ 2 ^ 62 }
    requires in_order { T (is_sorted key_cmp (V.state view.now).repairs) }
    requires found { find key_cmp asked.now.key (V.state view.now).repairs ≡ Some repair.now }
    requires link { asked.now.link ≡ repair.now.resv.link }
    requires reached { IsReached (V.state view.now) progress }
    ensures carried { IfOk result (λ now. reached (V.state view.now) now
        ≡ carried_back (V.router view.now) asked.now.resv.now asked.now.descriptor.now (asked.now.key, repair.now)
        (fact_at (V.state view.now).facts.moment asked.now) (reached (V.state view.now) progress)
        reserving.Granted) }
    ensures reached { IfOk result (IsReached (V.state view.now)) }
{
    let resv = resv_by(
        view.moment(),
        asked.link,
        asked.style,
        asked.resv,
        asked.descriptor,
    )?;
    let renewed = Repair {
        bypass: repair.bypass,
        is_nnhop: repair.is_nnhop,
        resv,
    };
    let mut edits = progress.edits;
    edits.set(asked.key, Some(renewed))?;
    Ok(RepairProgress {
        edits,
        errors: progress.errors,
        first: progress.first,
        has_granted: true,
    })
}

/// What comes of a flow descriptor for a repair.
fn renewed<V: WholeState>(
    alloc: Global,
    view: &V,
    progress: RepairProgress,
    asked: &Asked,
    repair: &Repair,
) -> Result<RepairProgress, AllocError>
    requires moment { (V.state view.now).facts.moment ≤ 2 ^ 62 }
    requires held { AreHeld (V.router view.now) (V.state view.now) }
    requires in_order { T (is_sorted key_cmp (V.state view.now).repairs) }
    requires room { HaveRoom (named asked.now.descriptor.now ∷ []) }
    requires found { find key_cmp asked.now.key (V.state view.now).repairs ≡ Some repair.now }
    requires link { asked.now.link ≡ repair.now.resv.link }
    requires reached { IsReached (V.state view.now) progress }
    ensures carried { IfOk result (λ now. reached (V.state view.now) now
        ≡ renewed (V.router view.now) asked.now.style asked.now.resv.now asked.now.descriptor.now
        (reached (V.state view.now) progress) (asked.now.key, repair.now)) }
    ensures reached { IfOk result (IsReached (V.state view.now)) }
    ensures memory { OnErr result (is_heard (renewed (V.router view.now) asked.now.style asked.now.resv.now
        asked.now.descriptor.now (reached (V.state view.now) progress) (asked.now.key, repair.now)) ≡ true) }
{
    match judge_renewal(view, asked) {
        Judgement::Failed(error) => failed(alloc, view, progress, asked, repair, error),
        Judgement::PassedOver => Ok(progress),
        Judgement::Granted(_) => granted(view, progress, asked, repair),
    }
}

/// What comes of the next flow descriptor: one that is for no repair is passed over. What it is for isn't changed by those
/// before it: they change no bypass and no link.
pub fn next_returned<V: WholeState>(
    alloc: Global,
    view: &V,
    progress: RepairProgress,
    style: ResvStyle,
    resv: &Resv,
    descriptor: &FlowDescriptor,
) -> Result<RepairProgress, AllocError>
    requires moment { (V.state view.now).facts.moment ≤ 2 ^ 62 }
    requires held { AreHeld (V.router view.now) (V.state view.now) }
    requires in_order { T (is_sorted key_cmp (V.state view.now).repairs) }
    requires room { HaveRoom (named descriptor.now ∷ []) }
    requires reached { IsReached (V.state view.now) progress }
    ensures carried { IfOk result (λ now. reached (V.state view.now) now
        ≡ next_returned (V.router view.now) style resv.now (reached (V.state view.now) progress) descriptor.now) }
    ensures reached { IfOk result (IsReached (V.state view.now)) }
    ensures memory { OnErr result (is_heard (next_returned (V.router view.now) style resv.now
        (reached (V.state view.now) progress) descriptor.now) ≡ true) }
{
    let Some(repair) = repair_from(view, resv.hop.address, &key_in(resv, descriptor)) else {
        return Ok(progress);
    };
    let asked = Asked {
        link: repair.1.resv.link,
        style,
        resv,
        descriptor,
        key: repair.0,
    };
    renewed(alloc, view, progress, &asked, &repair.1)
}
