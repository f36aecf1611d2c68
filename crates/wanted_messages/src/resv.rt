//! The Resv that each origin of an LSP is sent (RFC 2205, 3.1.4; RFC 3209, 4.1.1).

ghost use Rattle.std.specs.Prelude.{◌≡◌, IfOk};
ghost use Rattle.rsvp_contents.specs.declared.messages.Content.TheVariants as contents;
ghost use Rattle.lsr_facts.specs.Timeless.{timeless_path};
ghost use Rattle.abstract_router.specs.Lsps.{around_of, lsp_of};
ghost use Rattle.abstract_router.specs.Upstreams.{record_upstream, resv_to, upstream_back, upstream_over, upstream_row, upstream_to};
ghost use Rattle.wanted_messages.specs.Fitting.{IsFitting};
ghost use Rattle.wanted_messages.specs.Telling.{said};

use crate::addresses::has_four_octets;
use crate::records::record_upstream;
use crate::reserved::Reserved;
use crate::upstream::WantedUpstream;
use lsr_facts::{Key, Origin, PathFact, Router, Upstream, Via};
use message_rules::{is_up, link_at, route_to, routed_by, sent_by, under};
use rsvp_contents::{Content, FlowDescriptor, FlowDescriptors, Message, Resv};
use rsvp_objects::{Hop, Label, TimeValues};
use state_views::{StateView, node_of};
use std::alloc::{AllocError, Global};
use std::net::Ipv4Addr;

/// An LSP that has a label and is reserved or repaired, as its origins are told of it.
#[derive(Debug, Drop)]
pub(crate) struct ToldLsp<'a> {
    /// The LSP.
    pub key: &'a Key,
    /// Its path.
    pub path: &'a PathFact,
    /// The label that this router takes it with.
    pub label: u32,
    /// What is said of it.
    pub reserved: Reserved,
}

/// The flow descriptor of an LSP, as it is told to the origin whose Paths name this sender. The only error is out of memory.
fn descriptor_of(
    alloc: Global,
    router: &Router,
    lsp: &ToldLsp,
    sender: Ipv4Addr,
) -> Result<FlowDescriptor, AllocError>
    ensures { IfOk result (λ d. d ≡ record {
      flowspec = lsp.now.reserved.flowspec;
      filter = record lsp.now.key.now.sender { sender = sender };
      label = record { number = lsp.now.label };
      recorded = record_upstream router.now lsp.now.reserved.flags (timeless_path lsp.now.path.now) lsp.now.label
          lsp.now.reserved.recorded;
    }) }
{
    let said = &lsp.reserved;
    Ok(FlowDescriptor {
        flowspec: said.flowspec.clone()?,
        filter: under(sender, *lsp.key).sender,
        label: Label { number: lsp.label },
        recorded: record_upstream(
            alloc,
            router,
            said.flags,
            lsp.path,
            lsp.label,
            &said.recorded,
        )?,
    })
}

/// The Resv to an origin: this router is its hop, by this address, with the interface handle that the origin named; its
/// filter names the sender of the origin's Paths; the label is the router's own. The only error is out of memory.
fn resv_to(
    alloc: Global,
    router: &Router,
    lsp: &ToldLsp,
    origin: &(Ipv4Addr, Origin),
    address: Ipv4Addr,
) -> Result<Resv, AllocError>
    ensures { IfOk result (λ resv. resv ≡ resv_to router.now lsp.now.key.now (timeless_path lsp.now.path.now)
        origin.now address lsp.now.label (said lsp.now.reserved)) }
{
    let mut descriptors = FlowDescriptors::new(alloc);
    descriptors.push(descriptor_of(alloc, router, lsp, origin.0)?)?;
    Ok(Resv {
        session: lsp.key.session,
        hop: Hop {
            address,
            interface: origin.1.hop.interface,
        },
        time: TimeValues {
            refresh_ms: router.refresh_ms,
        },
        passing: lsp.reserved.passing.clone()?,
        style: lsp.reserved.style.word(),
        descriptors,
    })
}

/// The Resv to a previous hop, as a message. What is said of the LSP fits a Resv. The only error is out of memory.
fn message_to(
    alloc: Global,
    router: &Router,
    lsp: &ToldLsp,
    origin: &(Ipv4Addr, Origin),
    address: Ipv4Addr,
) -> Result<Message, AllocError>
    requires { IsFitting (said lsp.now.reserved) }
    ensures { IfOk result (λ message. message ≡ contents.Resv (resv_to router.now lsp.now.key.now
        (timeless_path lsp.now.path.now) origin.now address lsp.now.label (said lsp.now.reserved))) }
{
    let resv = resv_to(alloc, router, lsp, origin, address)?;
    has_four_octets(origin.0);
    let content = Box::new(alloc, Content::Resv(resv))?;
    Ok(Message::checked(content).unwrap())
}

/// The item of an origin.
fn upstream_to(key: &Key, origin: &(Ipv4Addr, Origin)) -> Upstream
    ensures { result ≡ upstream_to key.now origin.now }
{
    Upstream {
        key: *key,
        sender: origin.0,
        link: origin.1.via.number(),
        hop: origin.1.hop.address,
    }
}

/// What a neighbour is sent over the link of this number: nothing where that is down. The only error is out of memory.
fn upstream_over<V: StateView>(
    alloc: Global,
    view: &V,
    lsp: &ToldLsp,
    origin: &(Ipv4Addr, Origin),
    number: u16,
) -> Result<Option<WantedUpstream>, AllocError>
    requires { IsFitting (said lsp.now.reserved) }
    ensures { IfOk result (λ row. row ≡ upstream_over
        (around_of (V.router view.now) (V.state view.now))
        (lsp.now.key.now, lsp_of (V.state view.now) lsp.now.key.now lsp.now.path.now)
        lsp.now.label (said lsp.now.reserved) origin.now number) }
{
    let node = node_of(view);
    if !is_up(node.up, number) {
        return Ok(None);
    }
    let Some(link) = link_at(node.router, number) else {
        return Ok(None);
    };
    let message = message_to(alloc, node.router, lsp, origin, link.address)?;
    Ok(Some((upstream_to(lsp.key, origin), sent_by(number, message))))
}

/// What the head of a bypass is sent, in a Routed frame towards its address: nothing where no way leads there. The only error
/// is out of memory.
fn upstream_back<V: StateView>(
    alloc: Global,
    view: &V,
    lsp: &ToldLsp,
    origin: &(Ipv4Addr, Origin),
) -> Result<Option<WantedUpstream>, AllocError>
    requires { IsFitting (said lsp.now.reserved) }
    ensures { IfOk result (λ row. row ≡ upstream_back
        (around_of (V.router view.now) (V.state view.now))
        (lsp.now.key.now, lsp_of (V.state view.now) lsp.now.key.now lsp.now.path.now)
        lsp.now.label (said lsp.now.reserved) origin.now) }
{
    let node = node_of(view);
    let head = origin.1.hop.address;
    let Some(link) = route_to(&node, head) else {
        return Ok(None);
    };
    let message = message_to(alloc, node.router, lsp, origin, node.router.id)?;
    Ok(Some((upstream_to(lsp.key, origin), routed_by(link, head, message))))
}

/// What an origin is sent, by how its Paths come. The only error is out of memory.
pub(crate) fn upstream_row<V: StateView>(
    alloc: Global,
    view: &V,
    lsp: &ToldLsp,
    origin: &(Ipv4Addr, Origin),
) -> Result<Option<WantedUpstream>, AllocError>
    requires { IsFitting (said lsp.now.reserved) }
    ensures { IfOk result (λ row. row ≡ upstream_row
        (around_of (V.router view.now) (V.state view.now))
        (lsp.now.key.now, lsp_of (V.state view.now) lsp.now.key.now lsp.now.path.now)
        lsp.now.label (said lsp.now.reserved) origin.now) }
{
    match origin.1.via {
        Via::Link(number) => upstream_over(alloc, view, lsp, origin, number),
        Via::Stack => upstream_back(alloc, view, lsp, origin),
    }
}
