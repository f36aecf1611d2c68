//! What becomes of a flow descriptor of a Resv (RFC 2205, 3.1.4 and B; RFC 3209, 4.1, 4.4.4 and 7.3): the first of these
//! that holds, in the order in which the functions below ask for them.
//!
//! 1. No path of the session is known: error 3/0 (`verdict_of`).
//! 2. None of the LSP is: error 4/0 (`verdict_of`).
//! 3. The path doesn't leave by the link that the Resv came over, or the LSP is repaired: passed over (`verdict_on_path`).
//! 4. Another LSP of the session is reserved on the link in the other style: error 5 (`verdict_on_way`).
//! 5. The FLOWSPEC isn't of a controlled load whose rate is defined: error 21/2 or 21/3 (`judge`).
//! 6. The label can't be put onto a packet: error 24/6 (`judge`).
//! 7. The record names an own address: passed over (`judge`).
//! 8. It has no room on the link: error 1/2 (`verdict_in_room`).
//! 9. Else it is granted.
//!
//! A descriptor for a repair is asked the tests 4 to 7 alone (`judge_beside`).

ghost use Rattle.std.specs.FinMap.Entries.{find};
ghost use Rattle.std.specs.Prelude.{◌≡◌, Ok, Some, false, true};
ghost use Rattle.lsr_facts.specs.Orders.{key_cmp};
ghost use Rattle.rsvp_bodies.specs.Traffic.{flowspec_rate};
ghost use Rattle.abstract_paths.specs.Tears.{leaves_by};
ghost use Rattle.abstract_router.specs.Preempting.{fits_link};
ghost use Rattle.abstract_router.specs.Reserving as reserving;
ghost use Rattle.abstract_router.specs.Reserving.{verdict_by_rate, verdict_by_style, verdict_of, verdict_on_path};
ghost use Rattle.abstract_router.specs.States.{is_repaired};
ghost use Rattle.resv_arrivals.specs.Judgements.{IsJudgement};
ghost use Rattle.resv_arrivals.specs.Progresses.{IsReached, IsVerdict, fact_at, reached};

use crate::asked::Asked;
use crate::claims::{fits, is_claimed, style_in_conflict};
use crate::progress::Progress;
use crate::requests::request_of;
use forwarding_table::is_label;
use lsr_facts::{PathFact, Request, RsvpError, style_conflict};
use message_rules::{has_been_here, leaves_by, traffic_error};
use rsvp_contents::FlowDescriptor;
use state_views::{StateView, WholeState};

/// What becomes of a flow descriptor.
#[derive(Clone, Copy, Debug, PartialEq, Eq)]
pub enum Verdict {
    /// It is in error, and that is told.
    Failed(RsvpError),
    /// It is passed over, and nothing is told.
    PassedOver,
    /// This is granted, which its LSP claims already.
    Renewed,
    /// This is granted.
    Granted(Request),
}

/// What becomes of a flow descriptor, where there is room for what it asks for.
#[derive(Clone, Copy, Debug, PartialEq, Eq)]
pub enum Judgement {
    /// It is in error, and that is told.
    Failed(RsvpError),
    /// It is passed over, and nothing is told.
    PassedOver,
    /// It is granted at this rate, in bytes per second.
    Granted(u64),
}

/// What becomes of a flow descriptor.
#[tactic(auto, unfolding(abstract_router::specs::Reserving::verdict_of))]
pub fn verdict_of<V: WholeState>(view: &V, progress: &Progress, asked: &Asked) -> Verdict
    requires { IsReached (V.router view.now) (V.state view.now) progress.now }
    ensures { IsVerdict (V.router view.now) (V.state view.now) progress.now asked.now result
        (verdict_of (V.router view.now) (reached (V.state view.now) progress.now).state asked.now.key
        (fact_at (V.state view.now).facts.moment asked.now)) }
{
    // A path of its own is one of the session: so the others are asked for only where it has none.
    match view.path(&asked.key) {
        Some(path) => verdict_on_path(view, progress, asked, path),
        None if view.knows_session(&asked.key.session) => Verdict::Failed(RsvpError::NO_SENDER),
        None => Verdict::Failed(RsvpError::NO_PATH),
    }
}

/// What becomes of a flow descriptor whose LSP has this path. One for a repaired LSP is passed over: it comes through no
/// bypass here.
fn verdict_on_path<V: WholeState>(
    view: &V,
    progress: &Progress,
    asked: &Asked,
    path: &PathFact,
) -> Verdict
    requires reached { IsReached (V.router view.now) (V.state view.now) progress.now }
    requires path { find key_cmp asked.now.key (V.state view.now).facts.paths ≡ Some path.now }
    ensures { IsVerdict (V.router view.now) (V.state view.now) progress.now asked.now result
        (verdict_on_path (V.router view.now) (reached (V.state view.now) progress.now).state asked.now.key
        (fact_at (V.state view.now).facts.moment asked.now) path.now) }
{
    if !leaves_by(asked.link, path) || view.repair(&asked.key).is_some() {
        return Verdict::PassedOver;
    }
    verdict_on_way(view, progress, asked, path)
}

/// What becomes of a flow descriptor whose LSP has this path, which leaves by the link, and isn't repaired.
fn verdict_on_way<V: WholeState>(
    view: &V,
    progress: &Progress,
    asked: &Asked,
    path: &PathFact,
) -> Verdict
    requires reached { IsReached (V.router view.now) (V.state view.now) progress.now }
    requires path { find key_cmp asked.now.key (V.state view.now).facts.paths ≡ Some path.now }
    requires leaves { leaves_by asked.now.link path.now ≡ true }
    requires unrepaired { is_repaired (V.state view.now) asked.now.key ≡ false }
    ensures { IsVerdict (V.router view.now) (V.state view.now) progress.now asked.now result
        (verdict_on_path (V.router view.now) (reached (V.state view.now) progress.now).state asked.now.key
        (fact_at (V.state view.now).facts.moment asked.now) path.now) }
{
    match style_in_conflict(view, progress, asked) {
        Some(style) => Verdict::Failed(style_conflict(style)),
        None => verdict_by_rate(view, progress, asked, path),
    }
}

/// What becomes of a flow descriptor whose LSP has this path, and against which no reservation stands.
fn verdict_by_rate<V: WholeState>(
    view: &V,
    progress: &Progress,
    asked: &Asked,
    path: &PathFact,
) -> Verdict
    requires reached { IsReached (V.router view.now) (V.state view.now) progress.now }
    requires path { find key_cmp asked.now.key (V.state view.now).facts.paths ≡ Some path.now }
    ensures { let s = (reached (V.state view.now) progress.now).state in
        let fact = fact_at (V.state view.now).facts.moment asked.now in
        IsVerdict (V.router view.now) (V.state view.now) progress.now asked.now result
        (verdict_by_rate (V.router view.now) fact (fits_link (V.router view.now) s asked.now.key fact) (flowspec_rate fact.flowspec)) }
{
    match judge(view, asked) {
        Judgement::Failed(error) => Verdict::Failed(error),
        Judgement::PassedOver => Verdict::PassedOver,
        Judgement::Granted(rate) => verdict_in_room(view, progress, asked, path, rate),
    }
}

/// What becomes of a flow descriptor by itself, where there is room for what it asks for: by its rate, its label and its
/// record (RFC 2205, B, 21; RFC 3209, 4.4.4 and 7.3).
pub fn judge<V: StateView>(view: &V, asked: &Asked) -> Judgement
    ensures { let fact = fact_at (V.state view.now).facts.moment asked.now in
        IsJudgement fact result (verdict_by_rate (V.router view.now) fact true (flowspec_rate fact.flowspec)) }
{
    let FlowDescriptor {
        flowspec,
        label,
        recorded,
        ..
    } = asked.descriptor;
    let rate = match flowspec.rate() {
        Ok(rate) => rate,
        Err(fault) => return Judgement::Failed(traffic_error(fault)),
    };
    if !is_label(label.number) {
        return Judgement::Failed(RsvpError::UNACCEPTABLE_LABEL);
    }
    if has_been_here(&view.node(), recorded) {
        return Judgement::PassedOver;
    }
    Judgement::Granted(rate)
}

/// What becomes of a flow descriptor whose LSP has this path, and which is granted at this rate, in bytes per second, where
/// there is room. What is claimed already has room, and nobody gives way to it: so all that is reserved isn't added up then.
fn verdict_in_room<V: WholeState>(
    view: &V,
    progress: &Progress,
    asked: &Asked,
    path: &PathFact,
    rate: u64,
) -> Verdict
    requires reached { IsReached (V.router view.now) (V.state view.now) progress.now }
    requires path { find key_cmp asked.now.key (V.state view.now).facts.paths ≡ Some path.now }
    requires rate { flowspec_rate asked.now.descriptor.now.flowspec ≡ Ok rate }
    requires granted { verdict_by_rate (V.router view.now) (fact_at (V.state view.now).facts.moment asked.now)
        true (Ok rate) ≡ reserving.Granted }
    ensures { let s = (reached (V.state view.now) progress.now).state in
        let fact = fact_at (V.state view.now).facts.moment asked.now in
        IsVerdict (V.router view.now) (V.state view.now) progress.now asked.now result
        (verdict_by_rate (V.router view.now) fact (fits_link (V.router view.now) s asked.now.key fact) (flowspec_rate fact.flowspec)) }
{
    let request = request_of(asked.key, asked.link, asked.style, rate, path.attr.as_ref());
    if progress.claims.is_none() && is_claimed(view, progress, &request) {
        return Verdict::Renewed;
    }
    if !fits(view, progress, &request) {
        return Verdict::Failed(RsvpError::NO_BANDWIDTH);
    }
    Verdict::Granted(request)
}

/// What becomes of it by what is reserved of its session on the link, too (RFC 2205, B, 5).
pub fn judge_beside<V: WholeState>(view: &V, asked: &Asked) -> Judgement
    ensures { let s = V.state view.now in
        let fact = fact_at s.facts.moment asked.now in
        IsJudgement fact result (verdict_by_style (V.router view.now) s asked.now.key fact true) }
{
    match view.conflicting_style(asked.link, asked.style, &asked.key) {
        Some(style) => Judgement::Failed(style_conflict(style)),
        None => judge(view, asked),
    }
}
