ghost use Rattle.std.specs.Prelude.{◌≡◌, ◌++◌, IfOk, OnOk};
ghost use Rattle.field_bytes.specs.Making.{Makes};
ghost use Rattle.fact_fields.specs.Fitting.{HeldFits, IdsFit, TunnelPartsFit};
ghost use Rattle.fact_fields.specs.Tunnels.{IsPlainBypass, IsUntold, bypass_parts, held_bytes, held_parts, ids_bytes, ids_of, ids_parts, noted_parts, pending_id, plain_bypass_parts, tunnel_bytes, tunnel_parts, untold_by};

use crate::options::put_option;
use body_fields::{AttrField, ProtectionField, RouteField, TrafficField, put_byte};
use field_bytes::{Address, Byte, Field, Long, Optional, Pair, Put, ReadFault, Short};
use lsr_facts::{Bypass, Noted, Tunnel, TunnelLsp};
use rsvp_bodies::{Attr, Route, Sender, Tspec};
use rsvp_objects::FastReroute;
use std::alloc::{AllocError, Global};
use std::net::Ipv4Addr;

/// The LSP ID that stands where no LSP is to take the current one's place.
const NO_LSP: u16 = 0;

/// An error that came for a tunnel: the router that found it, its code and its value.
pub(crate) struct NotedField;

/// The parts of an error.
type NotedParts = Pair<Address, Pair<Byte, Short>>;

/// The error of these.
fn noted_of(parts: (Ipv4Addr, (u8, u16))) -> Noted
    ensures { noted_parts result ≡ parts }
{
    let (node, (code, value)) = parts;
    Noted { node, code, value }
}

impl Field for NotedField {
    ghost use Rattle.fact_fields.specs.FieldLaws.{one_noted};
    ghost use Rattle.fact_fields.specs.Fitting.{NotedFits};
    ghost use Rattle.fact_fields.specs.Tunnels.{noted_bytes};

    type Value = Noted;

    ghost Fits = { NotedFits };

    ghost spelling = { noted_bytes };

    ghost one = { one_noted };

    fn read(alloc: Global, bytes: &[u8]) -> Result<(Noted, &[u8]), ReadFault> {
        let (parts, rest) = <NotedParts as Field>::read(alloc, bytes)?;
        Ok((noted_of(parts), rest))
    }
}

impl Put for NotedField {
    fn put(noted: &Noted, out: &mut Vec<u8>) -> Result<(), AllocError> {
        Address::put(&noted.node, out)?;
        put_byte(noted.code, out)?;
        Short::put(&noted.value, out)
    }
}

/// The LSP IDs of a tunnel, and the error that came last.
#[derive(Debug, Drop)]
pub struct TunnelIds {
    /// That of its current LSP.
    pub current: u16,
    /// That of the LSP that is to take its place; 0 where there is none.
    pub pending: u16,
    /// The one that was given last.
    pub last: u16,
    /// The error that came last.
    pub noted: Option<Noted>,
}

/// The LSP IDs of a tunnel, and the error that came last.
pub(crate) struct TunnelIdsField;

/// The parts of these.
type IdsParts = Pair<Short, Pair<Short, Pair<Short, Optional<NotedField>>>>;

/// The LSP IDs of these.
fn ids_by(parts: (u16, (u16, (u16, Option<Noted>)))) -> TunnelIds
    ensures { ids_parts result ≡ parts }
{
    let (current, (pending, (last, noted))) = parts;
    TunnelIds {
        current,
        pending,
        last,
        noted,
    }
}

impl Field for TunnelIdsField {
    ghost use Rattle.fact_fields.specs.FieldLaws.{one_ids};
    ghost use Rattle.fact_fields.specs.Fitting.{IdsFit};
    ghost use Rattle.fact_fields.specs.Tunnels.{ids_bytes};

    type Value = TunnelIds;

    ghost Fits = { IdsFit };

    ghost spelling = { ids_bytes };

    ghost one = { one_ids };

    fn read(alloc: Global, bytes: &[u8]) -> Result<(TunnelIds, &[u8]), ReadFault> {
        let (parts, rest) = <IdsParts as Field>::read(alloc, bytes)?;
        Ok((ids_by(parts), rest))
    }
}

/// What follows a tunnel's route: traffic, attributes, protection, LSP IDs, and the error that came last.
type Held = Pair<
    TrafficField<Sender>,
    Pair<AttrField, Pair<Optional<ProtectionField>, TunnelIdsField>>,
>;

/// What follows a tunnel's route.
type HeldValue = (Tspec, (Attr, (Option<FastReroute>, TunnelIds)));

/// The parts of a tunnel.
type TunnelParts = Pair<Address, Pair<RouteField, Held>>;

/// A tunnel that begins here: where it ends, the route and the traffic of its current LSP, attributes, protection, the IDs of that LSP,
/// of the one that is to take its place, and the one that was given last, and the error that came last. Of the LSP that is to take the
/// current one's place the ID alone is there: what is read has no route for it, and the current traffic.
pub struct TunnelField;

/// The LSP of this ID that is to take the current one's place, of which nothing more is said. None for 0.
fn untold_by(alloc: Global, id: u16, tspec: &Tspec) -> Result<Option<TunnelLsp>, AllocError>
    ensures { IfOk result (λ lsp. lsp ≡ untold_by id tspec.now) }
{
    if id == NO_LSP {
        return Ok(None);
    }
    Ok(Some(TunnelLsp {
        id,
        route: Route::new(alloc),
        tspec: tspec.clone()?,
    }))
}

/// The tunnel of these. The only fault is out of memory.
#[tactic(auto, using(crate::specs::IdLaws::id_again))]
fn tunnel_of(alloc: Global, parts: (Ipv4Addr, (Route, HeldValue))) -> Result<Tunnel, ReadFault>
    ensures { Makes IsUntold tunnel_parts parts result }
{
    let (endpoint, (route, (tspec, (attr, (fast_reroute, ids))))) = parts;
    let pending = untold_by(alloc, ids.pending, &tspec)?;
    Ok(Tunnel {
        endpoint,
        attr,
        fast_reroute,
        current: TunnelLsp {
            id: ids.current,
            route,
            tspec,
        },
        pending,
        last: ids.last,
        noted: ids.noted,
    })
}

impl Field for TunnelField {
    ghost use Rattle.fact_fields.specs.FieldLaws.{one_tunnel};
    ghost use Rattle.fact_fields.specs.Fitting.{TunnelFits};
    ghost use Rattle.fact_fields.specs.Tunnels.{tunnel_bytes};

    type Value = Tunnel;

    ghost Fits = { TunnelFits };

    ghost spelling = { tunnel_bytes };

    ghost one = { one_tunnel };

    fn read(alloc: Global, bytes: &[u8]) -> Result<(Tunnel, &[u8]), ReadFault> {
        let (parts, rest) = <TunnelParts as Field>::read(alloc, bytes)?;
        Ok((tunnel_of(alloc, parts)?, rest))
    }
}

/// The ID of the LSP that is to take the current one's place; 0 where there is none.
fn pending_id(tunnel: &Tunnel) -> u16
    ensures { result ≡ pending_id tunnel.now }
{
    match &tunnel.pending {
        Some(lsp) => lsp.id,
        None => NO_LSP,
    }
}

/// Appends the LSP IDs of a tunnel, and the error that came last.
fn put_ids(tunnel: &Tunnel, out: &mut Vec<u8>) -> Result<(), AllocError>
    ensures ok { OnOk result (out.new.items ≡ out.old.items ++ ids_bytes (ids_of tunnel.now)) }
    ensures fits { OnOk result (IdsFit (ids_of tunnel.now)) }
{
    Short::put(&tunnel.current.id, out)?;
    Short::put(&pending_id(tunnel), out)?;
    Short::put(&tunnel.last, out)?;
    put_option::<NotedField>(&tunnel.noted, out)
}

/// Appends what follows a tunnel's route.
fn put_held(tunnel: &Tunnel, out: &mut Vec<u8>) -> Result<(), AllocError>
    ensures ok { OnOk result (out.new.items ≡ out.old.items ++ held_bytes tunnel.now) }
    ensures fits { OnOk result (HeldFits (held_parts tunnel.now)) }
{
    TrafficField::<Sender>::put(&tunnel.current.tspec, out)?;
    AttrField::put(&tunnel.attr, out)?;
    put_option::<ProtectionField>(&tunnel.fast_reroute, out)?;
    put_ids(tunnel, out)
}

/// Appends a tunnel, and of an LSP that is to take the current one's place the ID alone. The only errors are out of memory, and what has
/// no spelling.
pub fn put_tunnel(tunnel: &Tunnel, out: &mut Vec<u8>) -> Result<(), AllocError>
    ensures ok { OnOk result (out.new.items ≡ out.old.items ++ tunnel_bytes tunnel.now) }
    ensures fits { OnOk result (TunnelPartsFit (tunnel_parts tunnel.now)) }
{
    Address::put(&tunnel.endpoint, out)?;
    RouteField::put(&tunnel.current.route, out)?;
    put_held(tunnel, out)
}

/// A bypass: its tunnel, the link that it protects and its capacity.
pub struct BypassField;

/// The parts of a bypass.
type BypassParts = Pair<Short, Pair<Short, Long>>;

/// The bypass of these.
fn bypass_of(parts: (u16, (u16, u64))) -> Bypass
    ensures { bypass_parts result ≡ parts }
{
    let (tunnel, (link, capacity)) = parts;
    Bypass {
        tunnel,
        link,
        capacity,
    }
}

impl Field for BypassField {
    ghost use Rattle.fact_fields.specs.FieldLaws.{one_bypass};
    ghost use Rattle.fact_fields.specs.Fitting.{BypassFits};
    ghost use Rattle.fact_fields.specs.Tunnels.{bypass_bytes};

    type Value = Bypass;

    ghost Fits = { BypassFits };

    ghost spelling = { bypass_bytes };

    ghost one = { one_bypass };

    fn read(alloc: Global, bytes: &[u8]) -> Result<(Bypass, &[u8]), ReadFault> {
        let (parts, rest) = <BypassParts as Field>::read(alloc, bytes)?;
        Ok((bypass_of(parts), rest))
    }
}

impl Put for BypassField {
    fn put(bypass: &Bypass, out: &mut Vec<u8>) -> Result<(), AllocError> {
        Short::put(&bypass.tunnel, out)?;
        Short::put(&bypass.link, out)?;
        Long::put(&bypass.capacity, out)
    }
}

/// A bypass without a capacity: its tunnel and the link that it protects.
pub struct PlainBypassField;

/// The parts of a bypass without a capacity.
type PlainBypassParts = Pair<Short, Short>;

/// The bypass of these, without a capacity.
fn plain_bypass_of(parts: (u16, u16)) -> Bypass
    ensures parts { plain_bypass_parts result ≡ parts }
    ensures plain { IsPlainBypass result }
{
    let (tunnel, link) = parts;
    Bypass {
        tunnel,
        link,
        capacity: 0,
    }
}

impl Field for PlainBypassField {
    ghost use Rattle.fact_fields.specs.FieldLaws.{one_plain_bypass};
    ghost use Rattle.fact_fields.specs.Fitting.{PlainBypassFits};
    ghost use Rattle.fact_fields.specs.Tunnels.{plain_bypass_bytes};

    type Value = Bypass;

    ghost Fits = { PlainBypassFits };

    ghost spelling = { plain_bypass_bytes };

    ghost one = { one_plain_bypass };

    fn read(alloc: Global, bytes: &[u8]) -> Result<(Bypass, &[u8]), ReadFault> {
        let (parts, rest) = <PlainBypassParts as Field>::read(alloc, bytes)?;
        Ok((plain_bypass_of(parts), rest))
    }
}
