//! Tunnels that begin, are changed, and go (RFC 3209, 2.1 and 2.5).

ghost use Rattle.std.specs.FinMap.Entries.{is_sorted, put};
ghost use Rattle.std.specs.Prelude.{◌≡◌, ◌+◌, ◌==◌, ◌∷◌, [], false, map, option_to_list, None, IfOk, IfSome, IsTrue, T};
ghost use Rattle.std.specs.Option.{option_map_or};
ghost use Rattle.rsvp_contents.specs.Limits.{is_short_route};
ghost use Rattle.lsr_facts.specs.Orders.{key_cmp};
ghost use Rattle.lsr_facts.specs.Tunnels.{current_key, head_key, pending_key, route_from};
ghost use Rattle.lsr_facts.specs.Changes.{begun};
ghost use Rattle.abstract_paths.specs.Changes.{with_tunnel};
ghost use Rattle.abstract_paths.specs.Commands.{tunnel_by, with_begun, with_cancelled, with_change, with_dropped};
ghost use Rattle.abstract_paths.specs.Heads.{with_head};
ghost use Rattle.abstract_router.specs.States.{State, with_facts, without_held};
ghost use Rattle.state_views.specs.Edits.{edited};
ghost use Rattle.path_steps.specs.Signalling.{with_some};

use abstract_paths::{NewTunnel, TunnelChange};
use lsr_facts::changes::{begin, cancel};
use lsr_facts::{Key, PathFact, Router, Tunnel, TunnelLsp, current_key, head_key, pending_key};
use path_steps::head_of;
use sorted_rows::{Table, TryCopy};
use state_views::{Edits, StateView, without_rows};
use std::alloc::{AllocError, Global};

/// The LSP ID of a tunnel's first LSP.
const FIRST_LSP: u16 = 1;

/// This is known of the tunnel of a number from now on, or nothing. The only error is out of memory.
fn tunnel_edit(
    alloc: Global,
    number: u16,
    now: Option<Tunnel>,
) -> Result<Table<u16, Option<Tunnel>>, AllocError>
    ensures { IfOk result (λ edits. edits ≡ (number, now) ∷ []) }
{
    let mut tunnels = Table::new(alloc);
    tunnels.set(number, now)?;
    Ok(tunnels)
}

/// The tunnel of a number is this from now on, and an LSP of it has this path, if a way leads on. Neither a reservation nor
/// a repair is known of that LSP. The only error is out of memory.
#[tactic(auto, using(crate::proofs::Leaving::without_one))]
fn with_lsp(
    alloc: Global,
    number: u16,
    tunnel: Tunnel,
    key: Key,
    head: Option<(Key, PathFact)>,
) -> Result<Edits, AllocError>
    ensures { IfOk result (λ edits. (s : State) → edited edits s
        ≡ without_held (key ∷ []) (with_facts (with_tunnel number tunnel (with_some head s.facts)) s)) }
{
    let mut paths = Table::new(alloc);
    if let Some((key, fact)) = head {
        paths.set(key, Some(fact))?;
    }
    let mut edits = Edits::none(alloc);
    edits.tunnels = tunnel_edit(alloc, number, Some(tunnel))?;
    edits.paths = paths;
    edits.resvs = without_rows(Table::new(alloc), &[key])?;
    edits.repairs = without_rows(Table::new(alloc), &[key])?;
    Ok(edits)
}

/// A tunnel as it is asked for, with its first LSP. The only error is out of memory.
fn tunnel_by(alloc: Global, asked: &NewTunnel) -> Result<Tunnel, AllocError>
    ensures { IfOk result (λ tunnel. tunnel ≡ tunnel_by asked.now) }
{
    Ok(Tunnel {
        endpoint: asked.endpoint,
        attr: asked.attr.clone()?,
        fast_reroute: asked.fast_reroute,
        current: TunnelLsp {
            id: FIRST_LSP,
            route: asked.route.clone()?,
            tspec: asked.tspec.clone()?,
        },
        pending: None,
        last: FIRST_LSP,
        noted: None,
    })
}

/// A tunnel begins, and its LSP is signalled. The only error is out of memory.
pub(crate) fn with_begun<V: StateView>(
    alloc: Global,
    view: &V,
    asked: &NewTunnel,
) -> Result<Edits, AllocError>
    requires { IsTrue (is_short_route (route_from (V.router view.now) asked.now.route)) }
    ensures { IfOk result (λ edits. edited edits (V.state view.now)
        ≡ without_held (head_key (V.router view.now) asked.now.number asked.now.endpoint 1 ∷ [])
        (with_facts (with_begun (V.router view.now) asked.now.number (tunnel_by asked.now) (V.state view.now).facts)
        (V.state view.now))) }
{
    let number = asked.number;
    let tunnel = tunnel_by(alloc, asked)?;
    let head = head_of(alloc, view, number, &tunnel, &tunnel.current)?;
    let key = current_key(view.node().router, number, &tunnel);
    with_lsp(alloc, number, tunnel, key, head)
}

/// The path that the LSP gets which is to take the place of a tunnel's current one, if there is one and a way leads on.
/// The only error is out of memory.
fn pending_head<V: StateView>(
    alloc: Global,
    view: &V,
    number: u16,
    tunnel: &Tunnel,
) -> Result<Option<(Key, PathFact)>, AllocError>
    requires { IfSome tunnel.now.pending (λ lsp. IsTrue (is_short_route (route_from (V.router view.now) lsp.route))) }
    ensures { IfOk result (λ head. with_some head (V.state view.now).facts ≡ option_map_or
        (λ lsp. with_head (V.router view.now) (number, tunnel.now) lsp (V.state view.now).facts)
        tunnel.now.pending (V.state view.now).facts) }
{
    match &tunnel.pending {
        Some(lsp) => head_of(alloc, view, number, tunnel, lsp),
        None => Ok(None),
    }
}

/// A tunnel is being changed, and the LSP that is to take its current one's place is signalled. The only error is out of
/// memory.
pub(crate) fn with_change<V: StateView>(
    alloc: Global,
    view: &V,
    tunnel: &Tunnel,
    change: &TunnelChange,
) -> Result<Edits, AllocError>
    requires last { (tunnel.now.last == 65535) ≡ false }
    requires route { IsTrue (is_short_route (route_from (V.router view.now) change.now.route)) }
    ensures { IfOk result (λ edits. edited edits (V.state view.now)
        ≡ without_held (head_key (V.router view.now) change.now.number tunnel.now.endpoint (tunnel.now.last + 1) ∷ [])
        (with_facts (with_change (V.router view.now) change.now.number (begun change.now.route change.now.tspec tunnel.now)
        (V.state view.now).facts) (V.state view.now))) }
{
    let number = change.number;
    let mut changed = tunnel.try_copy(alloc)?;
    begin(&mut changed, change.route.clone()?, change.tspec.clone()?);
    let head = pending_head(alloc, view, number, &changed)?;
    let key = head_key(view.node().router, number, changed.endpoint, changed.last);
    with_lsp(alloc, number, changed, key, head)
}

/// The path goes of the LSP that is to take the place of a tunnel's current one, if there is one. The only error is out of
/// memory.
fn without_pending(
    alloc: Global,
    router: &Router,
    number: u16,
    tunnel: &Tunnel,
) -> Result<Table<Key, Option<PathFact>>, AllocError>
    ensures { IfOk result (λ edits. edits
        ≡ map (λ key. (key, None)) (option_to_list (pending_key router.now (number, tunnel.now)))) }
{
    let mut paths = Table::new(alloc);
    if let Some(key) = pending_key(router, number, tunnel) {
        paths.set(key, None)?;
    }
    Ok(paths)
}

/// A tunnel's change is given up, with the LSP that was to take its current one's place. The only error is out of memory.
#[tactic(auto, using(crate::proofs::Leaving::without_pending))]
pub(crate) fn with_cancelled<V: StateView>(
    alloc: Global,
    view: &V,
    number: u16,
    tunnel: &Tunnel,
) -> Result<Edits, AllocError>
    ensures { IfOk result (λ edits. edited edits (V.state view.now)
        ≡ with_facts (with_cancelled (V.router view.now) number tunnel.now (V.state view.now).facts) (V.state view.now)) }
{
    let paths = without_pending(alloc, view.node().router, number, tunnel)?;
    let mut left = tunnel.try_copy(alloc)?;
    cancel(&mut left);
    let mut edits = Edits::none(alloc);
    edits.tunnels = tunnel_edit(alloc, number, Some(left))?;
    edits.paths = paths;
    Ok(edits)
}

/// The paths go of a tunnel's LSPs. The only error is out of memory.
fn without_heads(
    alloc: Global,
    router: &Router,
    number: u16,
    tunnel: &Tunnel,
) -> Result<Table<Key, Option<PathFact>>, AllocError>
    ensures { IfOk result (λ edits. edits ≡ put key_cmp (current_key router.now (number, tunnel.now)) None
        (map (λ key. (key, None)) (option_to_list (pending_key router.now (number, tunnel.now))))) }
{
    let mut paths = without_pending(alloc, router, number, tunnel)?;
    paths.set(current_key(router, number, tunnel), None)?;
    Ok(paths)
}

/// A tunnel goes, with its LSPs. The only error is out of memory.
#[tactic(auto, using(crate::proofs::Leaving::without_heads))]
pub(crate) fn with_dropped<V: StateView>(
    alloc: Global,
    view: &V,
    number: u16,
    tunnel: &Tunnel,
) -> Result<Edits, AllocError>
    requires { T (is_sorted key_cmp (V.state view.now).facts.paths) }
    ensures { IfOk result (λ edits. edited edits (V.state view.now)
        ≡ with_facts (with_dropped (V.router view.now) number tunnel.now (V.state view.now).facts) (V.state view.now)) }
{
    let mut edits = Edits::none(alloc);
    edits.tunnels = tunnel_edit(alloc, number, None)?;
    edits.paths = without_heads(alloc, view.node().router, number, tunnel)?;
    Ok(edits)
}
