//! Tunnels that go over to their new LSPs.

ghost use Rattle.std.specs.FinMap.Entries.{find, is_sorted};
ghost use Rattle.std.specs.List.{list_any};
ghost use Rattle.std.specs.Option.{option_and_then, option_copied, option_or};
ghost use Rattle.std.specs.Ordering.{nat_cmp};
ghost use Rattle.std.specs.Prelude.{◌≡◌, ℕ, IfOk, OnOk, T, false, filter, is_some};
ghost use Rattle.lsr_facts.specs.Orders.{key_cmp};
ghost use Rattle.abstract_router.specs.Steps.{is_ready, taken_over};
ghost use Rattle.state_views.specs.Edits.{edited};
ghost use Rattle.make_before_break.specs.Switching.{ready_at, with_all_switched, with_switched};

use lsr_facts::changes::switch;
use lsr_facts::{Router, Tunnel, current_key, pending_key};
use sorted_rows::{Table, TryCopy};
use state_views::{Changed, Edits, StateView, WholeState, node_of};
use std::alloc::{AllocError, Global};

/// Whether the LSP that is to take the place of the tunnel's current one is reserved.
fn is_ready<A: StateView>(after: &A, number: u16, tunnel: &Tunnel) -> bool
    ensures { result ≡ is_ready (A.router after.now) (A.state after.now) (number, tunnel.now) }
{
    match pending_key(node_of(after).router, number, tunnel) {
        Some(key) => after.resv(&key).is_some(),
        None => false,
    }
}

/// The tunnel of a number, where its new LSP is reserved.
fn ready_at<A: StateView>(after: &A, number: u16) -> Option<&Tunnel>
    ensures { option_copied result ≡ ready_at (A.router after.now) (A.state after.now) number }
{
    let tunnel = after.tunnel(number)?;
    if is_ready(after, number, tunnel) {
        Some(tunnel)
    } else {
        None
    }
}

/// Tunnels, and then those of these numbers whose new LSPs are reserved. The only error is out of memory.
fn with_ready<A: StateView, E>(
    alloc: Global,
    tunnels: Table<u16, Tunnel>,
    after: &A,
    rows: &[(u16, E)],
) -> Result<Table<u16, Tunnel>, AllocError>
    ensures { IfOk result (λ all. (number : ℕ) → find nat_cmp number all
        ≡ option_or (option_and_then (λ row. ready_at (A.router after.now) (A.state after.now) number) (find nat_cmp number rows.now))
        (find nat_cmp number tunnels)) }
{
    let mut all = tunnels;
    for row in rows {
        if let Some(tunnel) = ready_at(after, row.0) {
            all.set(row.0, tunnel.try_copy(alloc)?)?;
        }
    }
    Ok(all)
}

/// Whether one of the tunnels has a new LSP.
fn has_pending(rows: &[(u16, Tunnel)]) -> bool
    ensures { result ≡ list_any (λ row. is_some row.1.pending) rows.now }
{
    rows.iter().any(|row| row.1.pending.is_some())
}

/// The tunnels whose new LSPs are reserved after edits, in the order of their numbers: each is looked at. The only error is out of
/// memory.
fn ready_among_all<V: WholeState>(
    alloc: Global,
    view: &V,
    edits: &Edits,
) -> Result<Vec<(u16, Tunnel)>, AllocError>
    requires { T (is_sorted nat_cmp (V.state view.now).facts.tunnels) }
    ensures { IfOk result (λ ready. ready.items
        ≡ filter (is_ready (V.router view.now) (edited edits.now (V.state view.now)))
        (edited edits.now (V.state view.now)).facts.tunnels) }
{
    let after = Changed { under: view, edits };
    let known = with_ready(alloc, Table::new(alloc), &after, view.tunnels())?;
    let ready = with_ready(alloc, known, &after, edits.tunnels.as_slice())?;
    Ok(ready.into_rows())
}

/// The tunnels whose new LSPs are reserved after edits, in the order of their numbers. It asks that none had a new LSP before, and looks
/// at those alone that are edited. The only error is out of memory.
fn ready_among_edited<V: WholeState>(
    alloc: Global,
    view: &V,
    edits: &Edits,
) -> Result<Vec<(u16, Tunnel)>, AllocError>
    requires order { T (is_sorted nat_cmp (V.state view.now).facts.tunnels) }
    requires none { list_any (λ row. is_some row.1.pending) (V.state view.now).facts.tunnels ≡ false }
    ensures { IfOk result (λ ready. ready.items
        ≡ filter (is_ready (V.router view.now) (edited edits.now (V.state view.now)))
        (edited edits.now (V.state view.now)).facts.tunnels) }
{
    let after = Changed { under: view, edits };
    let ready = with_ready(alloc, Table::new(alloc), &after, edits.tunnels.as_slice())?;
    Ok(ready.into_rows())
}

/// The tunnels whose new LSPs are reserved after edits, in the order of their numbers. Takes no memory where there is none;
/// the only error is out of memory.
fn ready_tunnels<V: WholeState>(
    alloc: Global,
    view: &V,
    edits: &Edits,
) -> Result<Vec<(u16, Tunnel)>, AllocError>
    requires { T (is_sorted nat_cmp (V.state view.now).facts.tunnels) }
    ensures { IfOk result (λ ready. ready.items
        ≡ filter (is_ready (V.router view.now) (edited edits.now (V.state view.now)))
        (edited edits.now (V.state view.now)).facts.tunnels) }
{
    if has_pending(view.tunnels()) {
        ready_among_all(alloc, view, edits)
    } else {
        ready_among_edited(alloc, view, edits)
    }
}

/// Edits, and then a tunnel goes over to its new LSP, and the path of the one that carried its traffic goes. The only error
/// is out of memory.
fn switch_one(
    router: &Router,
    edits: &mut Edits,
    number: u16,
    mut tunnel: Tunnel,
) -> Result<(), AllocError>
    ensures { OnOk result (edits.new ≡ with_switched router.now (number, tunnel) edits.old) }
{
    edits.paths.set(current_key(router, number, &tunnel), None)?;
    switch(&mut tunnel);
    edits.tunnels.set(number, Some(tunnel))
}

/// Edits, and then each of these tunnels goes over to its new LSP, and the path of the one that carried its traffic
/// goes. Takes no memory where there is no tunnel; the only error is out of memory.
fn switch_all(
    router: &Router,
    edits: &mut Edits,
    mut tunnels: Vec<(u16, Tunnel)>,
) -> Result<(), AllocError>
    ensures { OnOk result (edits.new ≡ with_all_switched router.now edits.old tunnels.items) }
{
    while let Some((number, tunnel)) = tunnels.pop() {
        switch_one(router, edits, number, tunnel)?;
    }
    Ok(())
}

/// Edits, and then each tunnel whose new LSP has its reservation goes over to it, and the path of the LSP that carried its
/// traffic goes (RFC 3209, 2.5). Where there is none, the edits stay as they are, and no memory is taken. The only error is
/// out of memory.
#[tactic(auto, using(crate::specs::SwitchingLaws::switched_over))]
pub fn take_over<V: WholeState>(
    alloc: Global,
    view: &V,
    edits: &mut Edits,
) -> Result<(), AllocError>
    requires tunnels { T (is_sorted nat_cmp (V.state view.now).facts.tunnels) }
    requires paths { T (is_sorted key_cmp (V.state view.now).facts.paths) }
    ensures { OnOk result (edited edits.new (V.state view.now)
        ≡ taken_over (V.router view.now) (edited edits.old (V.state view.now))) }
{
    let ready = ready_tunnels(alloc, view, edits)?;
    switch_all(node_of(view).router, edits, ready)
}
