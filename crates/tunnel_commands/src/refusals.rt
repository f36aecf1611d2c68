//! Why commands are refused: of each its tests, in their order. None takes memory.

ghost use Rattle.std.specs.List.{list_any};
ghost use Rattle.std.specs.Option.{option_map_or};
ghost use Rattle.std.specs.Prelude.{◌≡◌, ◌≤◌, ◌==◌, false, slice_get};
ghost use Rattle.lsr_facts.specs.Tunnels.{AreTunnels};
ghost use Rattle.abstract_paths.specs.Commands.{has_route, refusal_of};
ghost use Rattle.abstract_paths.specs.Heads.{is_full};
ghost use Rattle.abstract_router.specs.Arrivals.{takes_used_bypass};
ghost use Rattle.abstract_paths.specs.declared.commands.Command.TheVariants.{AddTunnel, ChangeTunnel, CancelChange, DropTunnel, AddBypass, DropBypass, AddRoute, DropRoute};

use crate::protecting::{is_above_rate, is_for_bypass, is_onto_its_link, runs_over};
use crate::requests::{is_bad_tunnel, requested_way};
use crate::routes::{MAX_LENGTH, masked_prefix};
use abstract_paths::{Command, NewBypass, NewTunnel, TunnelChange};
use explicit_routes::link_at;
use lsr_facts::Refusal;
use lsr_facts::changes::MAX_LSP_ID;
use lsr_facts::limits::{MAX_BYPASSES, MAX_LSPS, MAX_ROUTES, MAX_TUNNELS};
use rsvp_contents::Prefix;
use state_views::{StateView, WholeState};

/// Whether there is no room for another LSP.
fn is_full<V: WholeState>(view: &V) -> bool
    ensures { result ≡ is_full (V.state view.now).facts }
{
    view.path_count() >= MAX_LSPS
}

/// Why a tunnel isn't added, if it isn't.
fn of_new_tunnel<V: WholeState>(view: &V, asked: &NewTunnel) -> Option<Refusal>
    ensures { result ≡ refusal_of (V.router view.now) (V.state view.now).facts (AddTunnel asked.now) }
{
    if view.tunnel(asked.number).is_some() {
        return Some(Refusal::TunnelExists);
    }
    if view.tunnels().len() >= MAX_TUNNELS || is_full(view) {
        return Some(Refusal::Full);
    }
    if is_bad_tunnel(view, asked) {
        return Some(Refusal::BadRoute);
    }
    None
}

/// Why a tunnel isn't changed, if it isn't.
fn of_change<V: WholeState>(view: &V, change: &TunnelChange) -> Option<Refusal>
    ensures { result ≡ refusal_of (V.router view.now) (V.state view.now).facts (ChangeTunnel change.now) }
{
    let Some(tunnel) = view.tunnel(change.number) else {
        return Some(Refusal::UnknownTunnel);
    };
    if tunnel.pending.is_some() {
        return Some(Refusal::ChangePending);
    }
    if tunnel.last == MAX_LSP_ID || is_full(view) {
        return Some(Refusal::Full);
    }
    let Some(way) = requested_way(view, tunnel.endpoint, &change.route, &change.tspec) else {
        return Some(Refusal::BadRoute);
    };
    if is_onto_its_link(view.bypasses(), change.number, &way) {
        return Some(Refusal::BypassOnItsLink);
    }
    if is_above_rate(view.bypasses(), change.number, change.tspec.rate_asked()) {
        return Some(Refusal::BadCapacity);
    }
    None
}

/// Why a tunnel's change isn't given up, if it isn't: no tunnel has the number.
fn of_cancelling<V: StateView>(view: &V, number: u16) -> Option<Refusal>
    ensures { result ≡ refusal_of (V.router view.now) (V.state view.now).facts (CancelChange number) }
{
    match view.tunnel(number) {
        Some(_) => None,
        None => Some(Refusal::UnknownTunnel),
    }
}

/// Why a tunnel isn't dropped, if it isn't.
fn of_old_tunnel<V: StateView>(view: &V, number: u16) -> Option<Refusal>
    ensures { result ≡ refusal_of (V.router view.now) (V.state view.now).facts (DropTunnel number) }
{
    if view.tunnel(number).is_none() {
        return Some(Refusal::UnknownTunnel);
    }
    if is_for_bypass(view.bypasses(), number) {
        return Some(Refusal::InUse);
    }
    None
}

/// Why a bypass isn't added, if it isn't.
fn of_new_bypass<V: StateView>(view: &V, asked: &NewBypass) -> Option<Refusal>
    requires { AreTunnels (V.router view.now) (V.state view.now).facts.tunnels }
    ensures { result ≡ refusal_of (V.router view.now) (V.state view.now).facts (AddBypass asked.now) }
{
    if link_at(view.node().router, asked.link).is_none() {
        return Some(Refusal::UnknownLink);
    }
    let Some(tunnel) = view.tunnel(asked.tunnel) else {
        return Some(Refusal::UnknownTunnel);
    };
    let bypasses = view.bypasses();
    if bypasses.contains_key(&asked.number) {
        return Some(Refusal::BypassExists);
    }
    if bypasses.as_slice().len() >= MAX_BYPASSES {
        return Some(Refusal::Full);
    }
    if runs_over(view, asked.link, asked.tunnel, tunnel) {
        return Some(Refusal::BypassOnItsLink);
    }
    if !tunnel.carries(asked.capacity) {
        return Some(Refusal::BadCapacity);
    }
    None
}

/// Why a bypass isn't dropped, if it isn't: there is none of the number.
fn of_old_bypass<V: StateView>(view: &V, number: u16) -> Option<Refusal>
    ensures { result ≡ refusal_of (V.router view.now) (V.state view.now).facts (DropBypass number) }
{
    if view.bypasses().contains_key(&number) {
        None
    } else {
        Some(Refusal::UnknownTunnel)
    }
}

/// Whether a static route to exactly these addresses stands.
fn has_route<V: StateView>(view: &V, prefix: Prefix) -> bool
    requires { prefix.length ≤ 32 }
    ensures { result ≡ has_route (V.state view.now).facts prefix }
{
    view.node().routes.contains_key(&masked_prefix(prefix))
}

/// Why a static route isn't added, if it isn't.
fn of_new_route<V: StateView>(view: &V, prefix: Prefix, link: u16) -> Option<Refusal>
    ensures { result ≡ refusal_of (V.router view.now) (V.state view.now).facts (AddRoute prefix link) }
{
    if prefix.length > MAX_LENGTH {
        return Some(Refusal::BadRoute);
    }
    let node = view.node();
    if link_at(node.router, link).is_none() {
        return Some(Refusal::UnknownLink);
    }
    if !has_route(view, prefix) && node.routes.as_slice().len() >= MAX_ROUTES {
        return Some(Refusal::Full);
    }
    None
}

/// Why a static route isn't dropped, if it isn't.
fn of_old_route<V: StateView>(view: &V, prefix: Prefix) -> Option<Refusal>
    ensures { result ≡ refusal_of (V.router view.now) (V.state view.now).facts (DropRoute prefix) }
{
    if prefix.length > MAX_LENGTH || !has_route(view, prefix) {
        return Some(Refusal::BadRoute);
    }
    None
}

/// Why a command is refused, if it is. Takes no memory.
pub(crate) fn refusal_of<V: WholeState>(view: &V, command: &Command) -> Option<Refusal>
    requires { AreTunnels (V.router view.now) (V.state view.now).facts.tunnels }
    ensures { result ≡ refusal_of (V.router view.now) (V.state view.now).facts command.now }
{
    match command {
        Command::AddTunnel(asked) => of_new_tunnel(view, asked),
        Command::ChangeTunnel(change) => of_change(view, change),
        Command::CancelChange(number) => of_cancelling(view, *number),
        Command::DropTunnel(number) => of_old_tunnel(view, *number),
        Command::AddBypass(asked) => of_new_bypass(view, asked),
        Command::DropBypass(number) => of_old_bypass(view, *number),
        Command::AddRoute(prefix, link) => of_new_route(view, *prefix, *link),
        Command::DropRoute(prefix) => of_old_route(view, *prefix),
    }
}

/// Whether the repair at a place runs over the bypass of a number.
fn is_over_at<V: WholeState>(view: &V, place: usize, number: u16) -> bool
    ensures { result ≡ option_map_or (λ repair. repair.1.bypass == number)
        (slice_get (V.state view.now).repairs place) false }
{
    match view.repair_at(place) {
        Some(repair) => repair.1.bypass == number,
        None => false,
    }
}

/// Whether an LSP runs over the bypass of a number (RFC 4090, 6.4).
#[tactic(auto, using(path_steps::proofs::Places::any_from))]
fn is_used<V: WholeState>(view: &V, number: u16) -> bool
    ensures { result ≡ list_any (λ repair. repair.1.bypass == number) (V.state view.now).repairs }
{
    for place in 0..view.repair_count() {
        if is_over_at(view, place, number) {
            return true;
        }
    }
    false
}

/// Whether a command would drop a bypass that an LSP runs over. Takes no memory.
pub(crate) fn takes_used_bypass<V: WholeState>(view: &V, command: &Command) -> bool
    ensures { result ≡ takes_used_bypass (V.state view.now) command.now }
{
    match command {
        Command::DropBypass(number) => is_used(view, *number),
        _ => false,
    }
}
