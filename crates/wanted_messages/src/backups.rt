//! The Path of a repaired LSP, which goes through its bypass (RFC 4090, 6.4.3).

ghost use Rattle.std.specs.List.{AllByRecursion};
ghost use Rattle.std.specs.Option.{option_map, option_map_or};
ghost use Rattle.std.specs.Prelude.{◌≡◌, IfOk, IfSome, IsTrue, true};
ghost use Rattle.forwarding_table.specs.Labels.{is_label};
ghost use Rattle.rsvp_contents.specs.Limits.{is_short_route};
ghost use Rattle.abstract_paths.specs.BackupRoutes.{route_after};
ghost use Rattle.abstract_paths.specs.Soundness.{IsPath};
ghost use Rattle.abstract_router.specs.Lsps.{around_of, lsp_of};
ghost use Rattle.abstract_router.specs.Soundness.{IsResv};
ghost use Rattle.abstract_router.specs.Through.{backup_of, backup_over, backup_path, passing_through};
ghost use Rattle.abstract_router.specs.Wanted.{backup_row};
ghost use Rattle.wanted_messages.specs.Fitting.{CanGoThrough};

use crate::addresses::has_four_octets;
use crate::downstream::Wanted;
use crate::routes::route_after;
use abstract_paths::Output;
use facility_backup::bypass_tunnel_at;
use lsr_facts::{BypassTunnel, Item, Key, Link, Node, PathFact, Repair};
use message_rules::{head_through, hop_through, labelled_by, link_at, path_onward};
use rsvp_bodies::Route;
use rsvp_contents::{Content, Message, Passing, Path};
use rsvp_objects::numbers::CLASS_FAST_REROUTE;
use state_views::{StateView, node_of};
use std::alloc::{AllocError, Global};

/// What is left of the route of a repaired LSP at the bypass's end, where it has one. The only error is out of memory.
fn route_through(
    alloc: Global,
    key: &Key,
    rest: &Option<Route>,
    repair: &Repair,
    bypass_tunnel: &BypassTunnel,
) -> Result<Option<Route>, AllocError>
    requires { IsTrue (option_map_or is_short_route
        (option_map (route_after key.now.session.endpoint bypass_tunnel.now.ends_at repair.now.is_nnhop) rest.now) true) }
    ensures { IfOk result (λ route. route
        ≡ option_map (route_after key.now.session.endpoint bypass_tunnel.now.ends_at repair.now.is_nnhop) rest.now) }
{
    match rest {
        Some(rest) => {
            let endpoint = key.session.endpoint;
            let steps = rest.as_slice();
            let route = route_after(
                alloc,
                endpoint,
                bypass_tunnel.ends_at,
                repair.is_nnhop,
                steps,
            )?;
            Ok(Some(route))
        }
        None => Ok(None),
    }
}

/// What goes on unread through a bypass: all but objects of class FAST_REROUTE, of any C-Type (RFC 4090, 4.1). The only
/// error is out of memory.
fn passing_through(alloc: Global, passing: &Passing) -> Result<Passing, AllocError>
    ensures { IfOk result (λ through. through ≡ passing_through passing.now) }
{
    let mut through = Passing::new(alloc);
    for object in passing.as_slice() {
        if object.class() != CLASS_FAST_REROUTE {
            through.push(object.clone()?)?;
        }
    }
    Ok(through)
}

/// The Path of a repaired LSP: from another sender and another hop, on from the bypass's end, with no FAST_REROUTE; all
/// else is as in the Path that went over the link (RFC 4090, 6.4.3 and 6.4.4). The only error is out of memory.
fn backup_path(
    alloc: Global,
    node: &Node,
    key: &Key,
    path: &PathFact,
    repair: &Repair,
    bypass_tunnel: &BypassTunnel,
    link: &Link,
) -> Result<Path, AllocError>
    requires { IsTrue (option_map_or is_short_route
        (option_map (route_after key.now.session.endpoint bypass_tunnel.now.ends_at repair.now.is_nnhop) path.now.rest) true) }
    ensures { IfOk result (λ backup. backup
        ≡ backup_path node.now.router.now key.now path.now repair.now bypass_tunnel.now link.now) }
{
    let onward = path_onward(alloc, node, key, path, link)?;
    Ok(Path {
        hop: hop_through(node.router, repair),
        route: route_through(alloc, key, &path.rest, repair, bypass_tunnel)?,
        fast_reroute: None,
        passing: passing_through(alloc, &path.passing)?,
        sender: head_through(key.sender, link),
        ..onward
    })
}

/// The Path of a repaired LSP as it goes through this bypass, where that is up. The only error is out of memory.
fn backup_over<V: StateView>(
    alloc: Global,
    view: &V,
    key: &Key,
    path: &PathFact,
    repair: &Repair,
    bypass_tunnel: &BypassTunnel,
) -> Result<Option<Output>, AllocError>
    requires message { CanGoThrough (V.router view.now) key.now path.now repair.now bypass_tunnel.now }
    requires label { IfSome bypass_tunnel.now.over (λ over. is_label over.label ≡ true) }
    ensures output { IfOk result (λ output. output
        ≡ backup_over (V.router view.now) key.now path.now repair.now bypass_tunnel.now) }
{
    let node = node_of(view);
    let Some(link) = link_at(node.router, repair.resv.link) else {
        return Ok(None);
    };
    let Some(over) = bypass_tunnel.over else {
        return Ok(None);
    };
    let backup = backup_path(alloc, &node, key, path, repair, bypass_tunnel, link)?;
    let content = Box::new(alloc, Content::Path(backup))?;
    let message = Message::checked(content).unwrap();
    Ok(Some(labelled_by(over, message)))
}

/// The Path of a repaired LSP as it goes through the bypass of its number, where that is up. The only error is out of
/// memory.
fn backup_of<V: StateView>(
    alloc: Global,
    view: &V,
    key: &Key,
    path: &PathFact,
    repair: &Repair,
) -> Result<Option<Output>, AllocError>
    requires path { IsPath (V.router view.now) (V.state view.now).facts.moment (key.now, path.now) }
    requires resvs { AllByRecursion (IsResv (V.state view.now).facts.moment) (V.state view.now).resvs }
    ensures output { IfOk result (λ output. output
        ≡ backup_of (around_of (V.router view.now) (V.state view.now)) key.now path.now repair.now) }
{
    let Some(bypass_tunnel) = bypass_tunnel_at(view, repair.bypass) else {
        return Ok(None);
    };
    has_four_octets(key.session.endpoint);
    has_four_octets(bypass_tunnel.ends_at);
    backup_over(alloc, view, key, path, repair, &bypass_tunnel)
}

/// What an LSP wants through a bypass, whose path this is: its Path, where it is repaired and the bypass is up. The path is
/// one of a router, and each reservation is as it should be. The only error is out of memory.
pub(crate) fn backup_row<V: StateView>(
    alloc: Global,
    view: &V,
    key: &Key,
    path: &PathFact,
) -> Result<Option<Wanted>, AllocError>
    requires path { IsPath (V.router view.now) (V.state view.now).facts.moment (key.now, path.now) }
    requires resvs { AllByRecursion (IsResv (V.state view.now).facts.moment) (V.state view.now).resvs }
    ensures row { IfOk result (λ row. row ≡ backup_row (around_of (V.router view.now) (V.state view.now))
        (key.now, lsp_of (V.state view.now) key.now path.now)) }
{
    let Some(repair) = view.repair(key) else {
        return Ok(None);
    };
    match backup_of(alloc, view, key, path, repair)? {
        Some(output) => Ok(Some((Item::Backup(*key, repair.bypass), output))),
        None => Ok(None),
    }
}
