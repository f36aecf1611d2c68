//! The bypasses that may be promised to an LSP (RFC 4090, 4.3 and 6.4.2).

ghost use Rattle.std.specs.FinMap.Entries.{is_sorted};
ghost use Rattle.std.specs.List.{list_any};
ghost use Rattle.std.specs.Ordering.{nat_cmp};
ghost use Rattle.std.specs.Prelude.{◌≡◌, ◌≤◌, ◌+◌, ◌++◌, [], Bool, IfOk, T, filter, length, map, nat_le, ℕ};
ghost use Rattle.lsr_facts.specs.Limits.{max_bypasses};
ghost use Rattle.abstract_router.specs.Assigning.{has_capacity};
ghost use Rattle.abstract_router.specs.BypassTunnels.{bypass_tunnels_of};
ghost use Rattle.abstract_router.specs.Lsps.{around_of};
ghost use Rattle.abstract_router.specs.Protecting.{candidates_of};
ghost use Rattle.bandwidth_protection.specs.Candidates.{AreOpen, in_turn, offered, promising_by, promising_of};

use bypass_shares::Candidates;
use facility_backup::{bypass_tunnel_by, is_preferred, is_protected, selected_by};
use lsr_facts::{Bypass, BypassTunnel, Key, PathFact, ResvFact, Router, Selected};
use state_views::StateView;
use std::alloc::{AllocError, Global};

/// A bypass with its number, where it has bandwidth to promise.
pub(crate) type Numbered = (u16, BypassTunnel);

/// Such a bypass, and so much of it is left, in bytes per second.
pub(crate) type Room = (Numbered, u64);

/// A bypass with its number, where it has bandwidth to promise.
fn promising_by<A: StateView>(after: &A, bypass: &(u16, Bypass)) -> Option<Numbered>
    ensures { result ≡ promising_by (A.router after.now) (A.state after.now) bypass.now }
{
    if bypass.1.capacity == 0 {
        return None;
    }
    let bypass_tunnel = bypass_tunnel_by(after, bypass)?;
    Some((bypass.0, bypass_tunnel))
}

/// All bypasses that have bandwidth to promise, in the order of their numbers. The only error is out of memory.
pub(crate) fn promising<A: StateView>(alloc: Global, after: &A) -> Result<Vec<Numbered>, AllocError>
    ensures all { IfOk result (λ all. all.items ≡ promising_of (A.router after.now) (A.state after.now)) }
    ensures order { IfOk result (λ all. T (is_sorted nat_cmp all.items)) }
    ensures few { IfOk result (λ all. length all.items ≤ length (A.state after.now).facts.bypasses) }
{
    let bypasses = after.bypasses().as_slice();
    let mut all = Vec::new(alloc);
    for bypass in bypasses {
        if let Some(row) = promising_by(after, bypass) {
            all.push(row)?;
        }
    }
    Ok(all)
}

/// Some numbers, and then others. It asks that there is room for all.
fn joined(first: Candidates, others: &[u16]) -> Candidates
    requires { length first + length others.now ≤ max_bypasses }
    ensures { result ≡ first ++ others.now }
{
    let mut all = first;
    for number in others {
        all.push(*number);
    }
    all
}

/// How an LSP with this reservation would be repaired over a bypass, if it may be, and so much of that is left.
fn offered(router: &Router, resv: &ResvFact, rate: u64, room: &Room) -> Option<Selected>
    ensures { result ≡ offered router.now resv.now rate room.now }
{
    let bypass = &room.0;
    if rate <= room.1 {
        return selected_by(router, resv, bypass.0, &bypass.1);
    }
    None
}

/// Whether so much is left of one of these bypasses.
fn is_left(rooms: &[Room], rate: u64) -> bool
    ensures { result ≡ list_any (λ room. nat_le rate room.1) rooms.now }
{
    rooms.iter().any(|room| rate <= room.1)
}

/// Of these bypasses those of which so much is left, and over which an LSP with this reservation may be repaired: first those that
/// end where the head would have it, then the others.
fn best_first(
    router: &Router,
    path: &PathFact,
    resv: &ResvFact,
    rate: u64,
    rooms: &[Room],
) -> Candidates
    requires { length rooms.now ≤ max_bypasses }
    ensures { result ≡ in_turn router.now path.now resv.now rate rooms.now [] [] }
{
    let mut first = Candidates::new();
    let mut others = Candidates::new();
    for room in rooms {
        if let Some(choice) = offered(router, resv, rate, room) {
            if is_preferred(path, choice) {
                first.push(choice.bypass);
            } else {
                others.push(choice.bypass);
            }
        }
    }
    joined(first, others.as_slice())
}

/// The bypasses that may be promised to an LSP, and of which so much is left, the best first. Whichever bypasses it is asked about,
/// it answers which of them these are. Takes no memory.
pub(crate) fn candidates<A: StateView>(
    after: &A,
    rooms: &[Room],
    rate: u64,
    key: &Key,
    path: &PathFact,
    resv: &ResvFact,
) -> Candidates
    requires few { length rooms.now ≤ max_bypasses }
    ensures { (may : ℕ → Bool) → AreOpen (A.router after.now) (A.state after.now) rate rooms.now may →
        result ≡ filter may (map (λ choice. choice.bypass) (filter has_capacity
        (candidates_of (around_of (A.router after.now) (A.state after.now)) key.now path.now resv.now))) }
{
    if !is_left(rooms, rate) {
        return Candidates::new();
    }
    if !is_protected(after, key, path) {
        return Candidates::new();
    }
    best_first(after.node().router, path, resv, rate, rooms)
}
