//! Tunnels that begin here: their LSPs, and the paths of these (RFC 3209, 2.1 and 4.3.4).

ghost use Rattle.std.specs.Prelude.{◌≡◌, IfOk, IfSome, IsTrue};
ghost use Rattle.rsvp_contents.specs.Limits.{is_short_route};
ghost use Rattle.lsr_facts.specs.Orders.{is_one_of};
ghost use Rattle.lsr_facts.specs.Tunnels.{head_key, heads_of, is_head, route_from};
ghost use Rattle.abstract_paths.specs.Heads.{head_path, with_head};
ghost use Rattle.path_steps.specs.Signalling.{with_some};

use lsr_facts::{
    Choice, Key, PathFact, Role, Router, Tunnel, TunnelLsp, current_key, head_key, pending_key,
};
use message_rules::{ETHERTYPE_IPV4, head_way, link_of, rest_of};
use rsvp_contents::{LabelRequest, Passing, Record};
use sorted_rows::Table;
use state_views::{StateView, node_of};
use std::alloc::{AllocError, Global};

/// Whether the LSP is one of the tunnel of a number.
fn is_of(router: &Router, number: u16, tunnel: &Tunnel, key: &Key) -> bool
    ensures { result ≡ is_one_of (heads_of router.now (number, tunnel.now)) key.now }
{
    if current_key(router, number, tunnel).cmp(key).is_eq() {
        return true;
    }
    match pending_key(router, number, tunnel) {
        Some(pending) => pending.cmp(key).is_eq(),
        None => false,
    }
}

/// Whether the LSP is one of a tunnel that begins here.
#[tactic(auto, unfolding(lsr_facts::specs::Tunnels::is_head))]
pub fn is_head<V: StateView>(view: &V, key: &Key) -> bool
    ensures { result ≡ is_head (V.router view.now) (V.state view.now).facts.tunnels key.now }
{
    let number = key.session.tunnel;
    match view.tunnel(number) {
        Some(tunnel) => is_of(view.node().router, number, tunnel, key),
        None => false,
    }
}

/// The path of a tunnel's LSP that goes this way. The only error is out of memory.
fn head_path(
    alloc: Global,
    tunnel: &Tunnel,
    lsp: &TunnelLsp,
    way: Choice,
) -> Result<PathFact, AllocError>
    ensures { IfOk result (λ fact. fact ≡ head_path tunnel.now lsp.now way) }
{
    Ok(PathFact {
        role: Role::Head,
        origins: Table::new(alloc),
        out_link: link_of(&way),
        given: Some(lsp.route.clone()?),
        rest: rest_of(way),
        recorded: Some(Record::new(alloc)),
        label_request: LabelRequest {
            l3pid: ETHERTYPE_IPV4,
        },
        tspec: lsp.tspec.clone()?,
        attr: Some(tunnel.attr.clone()?),
        fast_reroute: tunnel.fast_reroute,
        passing: Passing::new(alloc),
    })
}

/// The path that a tunnel's LSP has once it is signalled, under its key; `None` where no way leads on. The only error is
/// out of memory, and it comes for none without a way.
#[tactic(auto, unfolding(abstract_paths::specs::Heads::with_head))]
pub fn head_of<V: StateView>(
    alloc: Global,
    view: &V,
    number: u16,
    tunnel: &Tunnel,
    lsp: &TunnelLsp,
) -> Result<Option<(Key, PathFact)>, AllocError>
    requires { IsTrue (is_short_route (route_from (V.router view.now) lsp.now.route)) }
    ensures key { IfOk result (λ head. IfSome head
        (λ path. path.0 ≡ head_key (V.router view.now) number tunnel.now.endpoint lsp.now.id)) }
    ensures head { IfOk result (λ head. with_some head (V.state view.now).facts
        ≡ with_head (V.router view.now) (number, tunnel.now) lsp.now (V.state view.now).facts) }
{
    let node = node_of(view);
    let Ok(way) = head_way(&node, lsp.route.as_slice(), tunnel.endpoint) else {
        return Ok(None);
    };
    let key = head_key(node.router, number, tunnel.endpoint, lsp.id);
    let path = head_path(alloc, tunnel, lsp, way.choice(alloc)?)?;
    Ok(Some((key, path)))
}
