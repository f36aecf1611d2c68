ghost use Rattle.std.specs.Prelude.{◌≡◌};
ghost use Rattle.fact_fields.specs.Keys.{key_parts, upstream_parts};

use field_bytes::{Address, Field, Pair, Put, ReadFault, Short};
use lsr_facts::{Key, Upstream};
use rsvp_objects::{Session, Template};
use std::alloc::{AllocError, Global};
use std::net::Ipv4Addr;

/// The key of an LSP: endpoint, tunnel, extended tunnel ID, sender, LSP ID (RFC 3209, 4.6).
pub struct KeyField;

/// The parts of a key.
type KeyParts = Pair<Address, Pair<Short, Pair<Address, Pair<Address, Short>>>>;

/// The key of these.
fn key_of(parts: (Ipv4Addr, (u16, (Ipv4Addr, (Ipv4Addr, u16))))) -> Key
    ensures { key_parts result ≡ parts }
{
    let (endpoint, (tunnel, (extended, (sender, lsp)))) = parts;
    Key {
        session: Session {
            endpoint,
            tunnel,
            extended,
        },
        sender: Template { sender, lsp },
    }
}

impl Field for KeyField {
    ghost use Rattle.fact_fields.specs.Fitting.{KeyFits};
    ghost use Rattle.fact_fields.specs.Keys.{key_bytes};
    ghost use Rattle.fact_fields.specs.FieldLaws.{one_key};

    type Value = Key;

    ghost Fits = { KeyFits };

    ghost spelling = { key_bytes };

    ghost one = { one_key };

    fn read(alloc: Global, bytes: &[u8]) -> Result<(Key, &[u8]), ReadFault> {
        let (parts, rest) = <KeyParts as Field>::read(alloc, bytes)?;
        Ok((key_of(parts), rest))
    }
}

impl Put for KeyField {
    fn put(key: &Key, out: &mut Vec<u8>) -> Result<(), AllocError> {
        Address::put(&key.session.endpoint, out)?;
        Short::put(&key.session.tunnel, out)?;
        Address::put(&key.session.extended, out)?;
        Address::put(&key.sender.sender, out)?;
        Short::put(&key.sender.lsp, out)
    }
}

/// A Resv that is kept alive at a neighbour: its LSP, the sender that the neighbour's Path named, the link and the neighbour.
pub(crate) struct UpstreamField;

/// The parts of a Resv that is kept alive.
type UpstreamParts = Pair<KeyField, Pair<Address, Pair<Short, Address>>>;

/// The Resv of these.
fn upstream_of(parts: (Key, (Ipv4Addr, (u16, Ipv4Addr)))) -> Upstream
    ensures { upstream_parts result ≡ parts }
{
    let (key, (sender, (link, hop))) = parts;
    Upstream {
        key,
        sender,
        link,
        hop,
    }
}

impl Field for UpstreamField {
    ghost use Rattle.fact_fields.specs.Fitting.{UpstreamFits};
    ghost use Rattle.fact_fields.specs.Keys.{upstream_bytes};
    ghost use Rattle.fact_fields.specs.FieldLaws.{one_upstream};

    type Value = Upstream;

    ghost Fits = { UpstreamFits };

    ghost spelling = { upstream_bytes };

    ghost one = { one_upstream };

    fn read(alloc: Global, bytes: &[u8]) -> Result<(Upstream, &[u8]), ReadFault> {
        let (parts, rest) = <UpstreamParts as Field>::read(alloc, bytes)?;
        Ok((upstream_of(parts), rest))
    }
}

impl Put for UpstreamField {
    fn put(upstream: &Upstream, out: &mut Vec<u8>) -> Result<(), AllocError> {
        KeyField::put(&upstream.key, out)?;
        Address::put(&upstream.sender, out)?;
        Short::put(&upstream.link, out)?;
        Address::put(&upstream.hop, out)
    }
}
