//! What `lsr config` prints: a configuration as the router understands it, in a form that is a configuration again.
ghost use Rattle.std.specs.List.{flat_map};
ghost use Rattle.std.specs.Prelude.{◌≡◌, ◌++◌, IfOk, OnOk, string_bytes};
ghost use Rattle.lsr_config.specs.Configs.{setup};
ghost use Rattle.config_text.specs.Printing.{bypass_record, capacity_text, config_text, demand_text, ends_text, flag_text, link_record, loose_text, name_byte, name_line, name_text, neighbour_text, next_step, quoted_step, route_record, route_text, router_text, sockets_of, sockets_text, step_text, steps_text, tunnel_record};

use lsr_config::{Config, LinkSockets};
use lsr_facts::{Bypass, Link, Router, Tunnel};
use object_text::rate_bytes;
use rsvp_bodies::{Prefix, Step};
use std::alloc::{AllocError, Global};
use std::fmt::Write;

/// What ends a name.
const NAME_END: &[u8] = b"\"\n";
/// What begins a name.
const NAME_START: &[u8] = b"name = \"";

/// What stands before the records: the router id, the refresh period in milliseconds, the labels, and how long they
/// rest, in milliseconds.
fn router_text(alloc: Global, router: &Router) -> Result<String, AllocError>
    ensures { IfOk result (λ text. string_bytes text ≡ router_text router.now) }
{
    let id = router.id;
    let refresh_ms = router.refresh_ms;
    let first = router.labels.first;
    let last = router.labels.last;
    let label_rest_ms = router.label_rest_ms;
    format!(in alloc;
        "router = \"{id}\"\nrefresh_ms = {refresh_ms}\nlabels = [{first}, {last}]\nlabel_rest_ms = {label_rest_ms}\n"
    )
}

/// A truth value, as a word.
fn flag_text(is_so: bool) -> &'static str
    ensures { result.now ≡ flag_text is_so }
{
    if is_so { "true" } else { "false" }
}

/// The number of a link, and the addresses at its ends.
fn neighbour_text(alloc: Global, row: &(u16, Link)) -> Result<String, AllocError>
    ensures { IfOk result (λ text. string_bytes text ≡ neighbour_text row.now) }
{
    let (number, link) = *row;
    let address = link.address;
    let peer = link.peer;
    let peer_router = link.peer_router;
    format!(in alloc;
        "\n[[link]]\nnumber = {number}\naddress = \"{address}\"\npeer = \"{peer}\"\npeer_router = \"{peer_router}\"\n"
    )
}

/// How much of a link may be reserved, in bytes per second, and whether it is up.
fn capacity_text(alloc: Global, link: &Link) -> Result<String, AllocError>
    ensures { IfOk result (λ text. string_bytes text ≡ capacity_text link.now) }
{
    let limit = link.limit;
    let up = flag_text(link.up);
    format!(in alloc; "limit = {limit}\nup = {up}\n")
}

/// The socket addresses of the link of this number, where it has any.
fn sockets_of(sockets: &[(u16, LinkSockets)], number: u16) -> Option<LinkSockets>
    ensures { result ≡ sockets_of sockets.now number }
{
    sockets.iter().find(|row| row.0 == number).map(|row| row.1)
}

/// The socket addresses of a link, where it has any.
fn sockets_text(alloc: Global, sockets: Option<LinkSockets>) -> Result<String, AllocError>
    ensures { IfOk result (λ text. string_bytes text ≡ sockets_text sockets) }
{
    match sockets {
        Some(LinkSockets { listen, send }) => {
            format!(in alloc; "listen = \"{listen}\"\nsend = \"{send}\"\n")
        }
        None => Ok(String::new(alloc)),
    }
}

/// Appends the record of a link. The only error is that memory ran out.
fn push_link_record(
    alloc: Global,
    text: &mut Vec<u8>,
    row: &(u16, Link),
    sockets: &[(u16, LinkSockets)],
) -> Result<(), AllocError>
    ensures { OnOk result (text.new.items ≡ text.old.items ++ link_record sockets.now row.now) }
{
    let neighbour = neighbour_text(alloc, row)?;
    let capacity = capacity_text(alloc, &row.1)?;
    let addresses = sockets_text(alloc, sockets_of(sockets, row.0))?;
    text.extend_from_slice(neighbour.as_bytes())?;
    text.extend_from_slice(capacity.as_bytes())?;
    text.extend_from_slice(addresses.as_bytes())
}

/// Appends the records of the links, in their order. The only error is that memory ran out.
fn push_links(
    alloc: Global,
    text: &mut Vec<u8>,
    links: &[(u16, Link)],
    sockets: &[(u16, LinkSockets)],
) -> Result<(), AllocError>
    ensures { OnOk result (text.new.items ≡ text.old.items ++ flat_map (link_record sockets.now) links.now) }
{
    for link in links {
        push_link_record(alloc, text, link, sockets)?;
    }
    Ok(())
}

/// The record of a static route.
fn route_record(alloc: Global, row: &(Prefix, u16)) -> Result<String, AllocError>
    ensures { IfOk result (λ text. string_bytes text ≡ route_record row.now) }
{
    let (prefix, link) = *row;
    let address = prefix.address;
    let length = prefix.length;
    format!(in alloc; "\n[[route]]\nprefix = \"{address}/{length}\"\nlink = {link}\n")
}

/// Appends the records of the static routes, in their order. The only error is that memory ran out.
fn push_routes(
    alloc: Global,
    text: &mut Vec<u8>,
    routes: &[(Prefix, u16)],
) -> Result<(), AllocError>
    ensures { OnOk result (text.new.items ≡ text.old.items ++ flat_map route_record routes.now) }
{
    for route in routes {
        let record = route_record(alloc, route)?;
        text.extend_from_slice(record.as_bytes())?;
    }
    Ok(())
}

/// What stands before a step: a tilde where it is loose.
fn loose_text(is_loose: bool) -> &'static str
    ensures { result.now ≡ loose_text is_loose }
{
    if is_loose { "~" } else { "" }
}

/// Appends a step: its prefix, after a tilde where it is loose. Of a step that leads to no prefix, which no configuration has,
/// the digits of its bytes. The only error is that memory ran out.
fn push_step(alloc: Global, text: &mut String, step: &Step) -> Result<(), AllocError>
    ensures { OnOk result (string_bytes text.new ≡ string_bytes text.old ++ step_text step.now) }
{
    match step {
        Step::Ipv4 { loose, prefix } => {
            let tilde = loose_text(*loose);
            let address = prefix.address;
            let length = prefix.length;
            write!(text, "{tilde}{address}/{length}")
        }
        Step::Other(bytes) => {
            let digits = hex::encode(alloc, bytes.as_slice())?;
            text.push_str(&digits)
        }
    }
}

/// Appends a step in quotes. The only error is that memory ran out.
fn push_quoted_step(alloc: Global, text: &mut String, step: &Step) -> Result<(), AllocError>
    ensures { OnOk result (string_bytes text.new ≡ string_bytes text.old ++ quoted_step step.now) }
{
    text.push_str("\"")?;
    push_step(alloc, text, step)?;
    text.push_str("\"")
}

/// Appends the steps after the first. The only error is that memory ran out.
fn push_more_steps(alloc: Global, text: &mut String, steps: &[Step]) -> Result<(), AllocError>
    ensures { OnOk result (string_bytes text.new ≡ string_bytes text.old ++ flat_map next_step steps.now) }
{
    for step in steps {
        text.push_str(", ")?;
        push_quoted_step(alloc, text, step)?;
    }
    Ok(())
}

/// Appends the steps of a route, with commas between them. The only error is that memory ran out.
fn push_steps(alloc: Global, text: &mut String, steps: &[Step]) -> Result<(), AllocError>
    ensures { OnOk result (string_bytes text.new ≡ string_bytes text.old ++ steps_text steps.now) }
{
    match steps {
        [] => Ok(()),
        [first, more @ ..] => {
            push_quoted_step(alloc, text, first)?;
            push_more_steps(alloc, text, more)
        }
    }
}

/// The number of a tunnel and its end.
fn ends_text(alloc: Global, row: &(u16, Tunnel)) -> Result<String, AllocError>
    ensures { IfOk result (λ text. string_bytes text ≡ ends_text row.now) }
{
    let (number, tunnel) = row;
    let endpoint = tunnel.endpoint;
    format!(in alloc; "\n[[tunnel]]\nnumber = {number}\nendpoint = \"{endpoint}\"\n")
}

/// The route of a tunnel.
fn route_text(alloc: Global, steps: &[Step]) -> Result<String, AllocError>
    ensures { IfOk result (λ text. string_bytes text ≡ route_text steps.now) }
{
    let mut text = String::new(alloc);
    text.push_str("route = [")?;
    push_steps(alloc, &mut text, steps)?;
    text.push_str("]\n")?;
    Ok(text)
}

/// What the LSPs of a tunnel ask for: their rate as the digits of its word, their priorities and their flags.
fn demand_text(alloc: Global, tunnel: &Tunnel) -> Result<String, AllocError>
    ensures { IfOk result (λ text. string_bytes text ≡ demand_text tunnel.now) }
{
    let rate = hex::encode(alloc, rate_bytes(tunnel.current.tspec.as_slice()))?;
    let setup = tunnel.attr.setup;
    let hold = tunnel.attr.hold;
    let flags = tunnel.attr.flags;
    format!(in alloc; "rate = \"{rate}\"\nsetup = {setup}\nhold = {hold}\nflags = {flags}\n")
}

/// Appends a byte of a name: a quote or a backslash after a backslash, a control byte by its number. The only error is that
/// memory ran out.
fn push_name_byte(alloc: Global, text: &mut Vec<u8>, byte: u8) -> Result<(), AllocError>
    ensures { OnOk result (text.new.items ≡ text.old.items ++ name_byte byte) }
{
    match byte {
        b'"' => text.extend_from_slice(b"\\\""),
        b'\\' => text.extend_from_slice(b"\\\\"),
        0..=31 | 127 => {
            let digits = hex::encode(alloc, &[byte])?;
            text.extend_from_slice(b"\\u00")?;
            text.extend_from_slice(digits.as_bytes())
        }
        _ => text.extend_from_slice(&[byte]),
    }
}

/// Appends a name, as it stands between quotes. The only error is that memory ran out.
fn push_name(alloc: Global, text: &mut Vec<u8>, name: &[u8]) -> Result<(), AllocError>
    ensures { OnOk result (text.new.items ≡ text.old.items ++ name_text name.now) }
{
    for byte in name {
        push_name_byte(alloc, text, *byte)?;
    }
    Ok(())
}

/// Appends the line of a name. The only error is that memory ran out.
fn push_name_line(alloc: Global, text: &mut Vec<u8>, name: &[u8]) -> Result<(), AllocError>
    ensures { OnOk result (text.new.items ≡ text.old.items ++ name_line name.now) }
{
    text.extend_from_slice(NAME_START)?;
    push_name(alloc, text, name)?;
    text.extend_from_slice(NAME_END)
}

/// Appends the record of a tunnel. The only error is that memory ran out.
fn push_tunnel_record(
    alloc: Global,
    text: &mut Vec<u8>,
    row: &(u16, Tunnel),
) -> Result<(), AllocError>
    ensures { OnOk result (text.new.items ≡ text.old.items ++ tunnel_record row.now) }
{
    let ends = ends_text(alloc, row)?;
    let route = route_text(alloc, row.1.current.route.as_slice())?;
    let demand = demand_text(alloc, &row.1)?;
    text.extend_from_slice(ends.as_bytes())?;
    text.extend_from_slice(route.as_bytes())?;
    text.extend_from_slice(demand.as_bytes())?;
    push_name_line(alloc, text, row.1.attr.name.as_slice())
}

/// Appends the records of the tunnels, in their order. The only error is that memory ran out.
fn push_tunnels(
    alloc: Global,
    text: &mut Vec<u8>,
    tunnels: &[(u16, Tunnel)],
) -> Result<(), AllocError>
    ensures { OnOk result (text.new.items ≡ text.old.items ++ flat_map tunnel_record tunnels.now) }
{
    for tunnel in tunnels {
        push_tunnel_record(alloc, text, tunnel)?;
    }
    Ok(())
}

/// The record of a bypass.
fn bypass_record(alloc: Global, row: &(u16, Bypass)) -> Result<String, AllocError>
    ensures { IfOk result (λ text. string_bytes text ≡ bypass_record row.now) }
{
    let (number, bypass) = *row;
    let tunnel = bypass.tunnel;
    let link = bypass.link;
    let capacity = bypass.capacity;
    format!(in alloc;
        "\n[[bypass]]\nnumber = {number}\ntunnel = {tunnel}\nlink = {link}\ncapacity = {capacity}\n"
    )
}

/// Appends the records of the bypasses, in their order. The only error is that memory ran out.
fn push_bypasses(
    alloc: Global,
    text: &mut Vec<u8>,
    bypasses: &[(u16, Bypass)],
) -> Result<(), AllocError>
    ensures { OnOk result (text.new.items ≡ text.old.items ++ flat_map bypass_record bypasses.now) }
{
    for bypass in bypasses {
        let record = bypass_record(alloc, bypass)?;
        text.extend_from_slice(record.as_bytes())?;
    }
    Ok(())
}

/// The text of a configuration of a router with these static routes, tunnels and bypasses, each in the order of its table, whose
/// links have these socket addresses, by their numbers: each key of the router and then of each link, static route, tunnel and
/// bypass, in the order of [`lsr_config::Key`]. It is TOML, and a configuration again where the tables are one's. The only error
/// is that memory ran out.
pub fn setup_text(
    alloc: Global,
    router: &Router,
    routes: &[(Prefix, u16)],
    tunnels: &[(u16, Tunnel)],
    bypasses: &[(u16, Bypass)],
    sockets: &[(u16, LinkSockets)],
) -> Result<Vec<u8>, AllocError>
    ensures { IfOk result (λ text. text.items ≡ config_text (setup router.now routes.now tunnels.now bypasses.now) sockets.now) }
{
    let mut text = Vec::new(alloc);
    let beginning = router_text(alloc, router)?;
    text.extend_from_slice(beginning.as_bytes())?;
    push_links(alloc, &mut text, router.links.as_slice(), sockets)?;
    push_routes(alloc, &mut text, routes)?;
    push_tunnels(alloc, &mut text, tunnels)?;
    push_bypasses(alloc, &mut text, bypasses)?;
    Ok(text)
}

/// The text of a configuration, whose links have these socket addresses, by their numbers ([`setup_text`]). It is TOML, and a
/// configuration again. The only error is that memory ran out.
pub fn config_text(
    alloc: Global,
    config: &Config,
    sockets: &[(u16, LinkSockets)],
) -> Result<Vec<u8>, AllocError>
    ensures { IfOk result (λ text. text.items ≡ config_text config.now sockets.now) }
{
    setup_text(
        alloc,
        &config.router,
        config.routes.as_slice(),
        config.tunnels.as_slice(),
        config.bypasses.as_slice(),
        sockets,
    )
}
