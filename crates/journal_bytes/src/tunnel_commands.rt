//! Tunnels, what they are to become, and bypasses.

ghost use Rattle.std.specs.Prelude.{◌≡◌, ◌++◌, ◌∷◌, OnOk};
ghost use Rattle.rsvp_objects.specs.Values.{fast_reroute_body};
ghost use Rattle.journal_bytes.specs.Events.{affinities_bytes, attr_bytes, bypass_bytes, bypass_numbers, change_bytes, protection_bytes, tunnel_bytes};

use crate::counted::put_counted;
use crate::numbers::*;
use crate::routes::put_route;
use abstract_paths::{NewBypass, NewTunnel, TunnelChange};
use rsvp_bodies::attr_numbers::AFFINITIES_LEN;
use rsvp_bodies::{Affinities, Attr};
use rsvp_objects::FastReroute;
use std::alloc::AllocError;

/// Appends the affinities, or zeros where there are none.
fn put_affinities(affinities: Option<Affinities>, out: &mut Vec<u8>) -> Result<(), AllocError>
    ensures ok { OnOk result (out.new.items ≡ out.old.items ++ affinities_bytes affinities) }
{
    match affinities {
        None => out.extend_from_slice(&[0; AFFINITIES_LEN]),
        Some(affinities) => {
            let [a, b, c, d] = affinities.exclude_any.to_be_bytes();
            let [e, f, g, h] = affinities.include_any.to_be_bytes();
            let [i, j, k, l] = affinities.include_all.to_be_bytes();
            out.extend_from_slice(&[a, b, c, d, e, f, g, h, i, j, k, l])
        }
    }
}

/// Appends the attributes.
fn put_attr(attr: &Attr, out: &mut Vec<u8>) -> Result<(), AllocError>
    ensures ok { OnOk result (out.new.items ≡ out.old.items ++ attr_bytes attr.now) }
{
    out.extend_from_slice(&[attr.ctype()])?;
    put_affinities(attr.affinities, out)?;
    out.extend_from_slice(&[attr.setup, attr.hold, attr.flags])?;
    put_counted(attr.name.as_slice(), out)
}

/// Appends the body of a FAST_REROUTE (RFC 4090, 4.1), and before it the byte that says that it is there.
fn put_request(request: FastReroute, out: &mut Vec<u8>) -> Result<(), AllocError>
    ensures ok { OnOk result (out.new.items ≡ out.old.items ++ (PRESENT ∷ fast_reroute_body request)) }
{
    let (setup, hold) = (request.setup, request.hold);
    let (limit, flags) = (request.hop_limit, request.flags);
    let [a, b, c, d] = request.bandwidth.to_bits().to_be_bytes();
    let [e, f, g, h] = request.affinities.include_any.to_be_bytes();
    let [i, j, k, l] = request.affinities.exclude_any.to_be_bytes();
    let [m, n, o, p] = request.affinities.include_all.to_be_bytes();
    out.extend_from_slice(&[
        PRESENT, setup, hold, limit, flags, a, b, c, d, e, f, g, h, i, j, k, l, m, n, o, p,
    ])
}

/// Appends the protection that is asked for.
fn put_protection(protection: Option<FastReroute>, out: &mut Vec<u8>) -> Result<(), AllocError>
    ensures ok { OnOk result (out.new.items ≡ out.old.items ++ protection_bytes protection) }
{
    match protection {
        None => out.extend_from_slice(&[ABSENT]),
        Some(request) => put_request(request, out),
    }
}

/// Appends a tunnel that is to begin here.
pub(crate) fn put_tunnel(tunnel: &NewTunnel, out: &mut Vec<u8>) -> Result<(), AllocError>
    ensures ok { OnOk result (out.new.items ≡ out.old.items ++ tunnel_bytes tunnel.now) }
{
    out.extend_from_slice(&tunnel.number.to_be_bytes())?;
    out.extend_from_slice(&tunnel.endpoint.octets())?;
    put_route(&tunnel.route, out)?;
    out.extend_from_slice(tunnel.tspec.as_slice())?;
    put_attr(&tunnel.attr, out)?;
    put_protection(tunnel.fast_reroute, out)
}

/// Appends what a tunnel is to become.
pub(crate) fn put_change(change: &TunnelChange, out: &mut Vec<u8>) -> Result<(), AllocError>
    ensures ok { OnOk result (out.new.items ≡ out.old.items ++ change_bytes change.now) }
{
    out.extend_from_slice(&change.number.to_be_bytes())?;
    put_route(&change.route, out)?;
    out.extend_from_slice(change.tspec.as_slice())
}

/// Appends the numbers of a bypass, of its tunnel and of its link.
fn put_bypass_numbers(bypass: NewBypass, out: &mut Vec<u8>) -> Result<(), AllocError>
    ensures ok { OnOk result (out.new.items ≡ out.old.items ++ bypass_numbers bypass) }
{
    out.extend_from_slice(&bypass.number.to_be_bytes())?;
    out.extend_from_slice(&bypass.tunnel.to_be_bytes())?;
    out.extend_from_slice(&bypass.link.to_be_bytes())
}

/// Appends a bypass that is to protect a link.
pub(crate) fn put_bypass(bypass: NewBypass, out: &mut Vec<u8>) -> Result<(), AllocError>
    ensures ok { OnOk result (out.new.items ≡ out.old.items ++ bypass_bytes bypass) }
{
    put_bypass_numbers(bypass, out)?;
    out.extend_from_slice(&bypass.capacity.to_be_bytes())
}
