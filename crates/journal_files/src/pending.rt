//! What a file says of LSPs that are to take the place of their tunnels' current ones: their IDs alone. The rest is what their paths say.

ghost use Rattle.std.specs.Prelude.{◌≡◌, IfOk, [], map};
ghost use Rattle.std.specs.Option.{unwrap_or};
ghost use Rattle.journal_files.specs.Pending.{told_lsp, told_state, told_tunnel};

use lsr_facts::{Key, PathFact, Router, State, Tunnel, TunnelLsp, head_key};
use rsvp_bodies::Route;
use sorted_rows::Table;
use std::alloc::{AllocError, Global};

/// A copy of a route; an empty one where there is none.
fn given_route(alloc: Global, given: &Option<Route>) -> Result<Route, AllocError>
    ensures { IfOk result (λ route. route ≡ unwrap_or given.now []) }
{
    match given {
        Some(route) => route.clone(),
        None => Ok(Route::new(alloc)),
    }
}

/// The LSP that is to take the current one's place, with the route that its path's Path came with and the traffic of its path.
fn told_lsp(
    alloc: Global,
    router: &Router,
    paths: &Table<Key, PathFact>,
    number: u16,
    tunnel: &Tunnel,
    id: u16,
) -> Result<TunnelLsp, AllocError>
    ensures { IfOk result (λ lsp. lsp ≡ told_lsp router.now paths.now number tunnel.now id) }
{
    match paths.get(&head_key(router, number, tunnel.endpoint, id)) {
        Some(path) => Ok(TunnelLsp {
            id,
            route: given_route(alloc, &path.given)?,
            tspec: path.tspec.clone()?,
        }),
        None => Ok(TunnelLsp {
            id,
            route: Route::new(alloc),
            tspec: tunnel.current.tspec.clone()?,
        }),
    }
}

/// The tunnel, with what its path says of the LSP that is to take the current one's place.
fn told_tunnel(
    alloc: Global,
    router: &Router,
    paths: &Table<Key, PathFact>,
    row: (u16, Tunnel),
) -> Result<(u16, Tunnel), AllocError>
    ensures { IfOk result (λ told. told ≡ told_tunnel router.now paths.now row) }
{
    let (number, mut tunnel) = row;
    let id = match &tunnel.pending {
        Some(lsp) => lsp.id,
        None => return Ok((number, tunnel)),
    };
    tunnel.pending = Some(told_lsp(alloc, router, paths, number, &tunnel, id)?);
    Ok((number, tunnel))
}

/// The tunnels, each with what its path says.
fn told_rows(
    alloc: Global,
    router: &Router,
    paths: &Table<Key, PathFact>,
    tunnels: Vec<(u16, Tunnel)>,
) -> Result<Vec<(u16, Tunnel)>, AllocError>
    ensures { IfOk result (λ told. told.items ≡ map (told_tunnel router.now paths.now) tunnels.items) }
{
    let mut rows = Vec::new(alloc);
    for row in tunnels {
        rows.push(told_tunnel(alloc, router, paths, row)?)?;
    }
    Ok(rows)
}

/// The tunnels, each with what its path says.
#[tactic(auto, using(crate::proofs::PendingLaws::told_rising))]
fn told_tunnels(
    alloc: Global,
    router: &Router,
    paths: &Table<Key, PathFact>,
    tunnels: Table<u16, Tunnel>,
) -> Result<Table<u16, Tunnel>, AllocError>
    ensures { IfOk result (λ told. told ≡ map (told_tunnel router.now paths.now) tunnels) }
{
    let rows = told_rows(alloc, router, paths, tunnels.into_rows())?;
    Ok(Table::from_rows(rows))
}

/// What a router knows, as its file says it, with what paths say of LSPs that are to take the place of others. The only error is out of
/// memory.
pub(crate) fn told_state(
    alloc: Global,
    router: &Router,
    mut state: State,
) -> Result<State, AllocError>
    ensures { IfOk result (λ told. told ≡ told_state router.now state) }
{
    let tunnels = std::mem::replace(&mut state.facts.tunnels, Table::new(alloc));
    state.facts.tunnels = told_tunnels(alloc, router, &state.facts.paths, tunnels)?;
    Ok(state)
}
