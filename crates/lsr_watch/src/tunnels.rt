//! What is told of the tunnels that begin here.
ghost use Rattle.std.specs.Prelude.{◌≡◌, ◌++◌, OnOk, flat_map, string_bytes};
ghost use Rattle.lsr_watch.specs.Tunnels.{asked_words, called_words, dropped_line, carries, configured_line, configured_words, end_words, kept_lines, new_lines, standing_line, switched_line, tunnel_lines, tunnels_lines};

use crate::errors::push_error;
use crate::lsps::{is_up, push_rate};
use lsr_facts::{Router, State, Tunnel, current_key};
use lsr_text::push_name;
use std::alloc::{AllocError, Global};
use std::fmt::Write;
use std::net::Ipv4Addr;

/// Whether the LSP that carries the traffic of the tunnel of this number is up.
fn carries(router: &Router, state: &State, number: u16, tunnel: &Tunnel) -> bool
    ensures { result ≡ carries router.now state.now (number, tunnel.now) }
{
    is_up(state, &current_key(router, number, tunnel))
}

/// Appends where a tunnel ends.
#[tactic(auto, unfolding(crate::specs::Tunnels::end_words))]
fn push_end(text: &mut String, endpoint: Ipv4Addr) -> Result<(), AllocError>
    ensures { OnOk result (string_bytes text.new ≡ string_bytes text.old ++ end_words endpoint) }
{
    write!(text, " to {endpoint} rate ")
}

/// Appends where a tunnel ends and at which rate, and ends the line.
#[tactic(auto, unfolding(crate::specs::Tunnels::asked_words))]
fn push_asked(text: &mut String, tunnel: &Tunnel) -> Result<(), AllocError>
    ensures { OnOk result (string_bytes text.new ≡ string_bytes text.old ++ asked_words tunnel.now) }
{
    push_end(text, tunnel.endpoint)?;
    push_rate(text, tunnel.current.tspec.rate().ok())?;
    text.push_str("\n")
}

/// Appends a tunnel's name, where it ends and at which rate, and ends the line.
#[tactic(auto, unfolding(crate::specs::Tunnels::called_words))]
fn push_called(alloc: Global, text: &mut String, tunnel: &Tunnel) -> Result<(), AllocError>
    ensures { OnOk result (string_bytes text.new ≡ string_bytes text.old ++ called_words tunnel.now) }
{
    push_name(alloc, text, tunnel.attr.name.as_slice())?;
    push_asked(text, tunnel)
}

/// Appends, after a tunnel's number, that it was configured, and ends the line.
fn push_configured_words(
    alloc: Global,
    text: &mut String,
    tunnel: &Tunnel,
) -> Result<(), AllocError>
    ensures { OnOk result (string_bytes text.new ≡ string_bytes text.old ++ configured_words tunnel.now) }
{
    text.push_str(" configured: ")?;
    push_called(alloc, text, tunnel)
}

/// Appends that a tunnel was configured.
#[tactic(auto, unfolding(crate::specs::Tunnels::configured_line))]
fn push_configured(alloc: Global, text: &mut String, row: &(u16, Tunnel)) -> Result<(), AllocError>
    ensures { OnOk result (string_bytes text.new ≡ string_bytes text.old ++ configured_line row.now) }
{
    let (number, tunnel) = row;
    write!(text, "tunnel {number}")?;
    push_configured_words(alloc, text, tunnel)
}

/// Appends that a tunnel was dropped, if it isn't there any more.
fn push_if_dropped(text: &mut String, after: &State, row: &(u16, Tunnel)) -> Result<(), AllocError>
    ensures { OnOk result (string_bytes text.new ≡ string_bytes text.old ++ dropped_line after.now row.now) }
{
    let number = row.0;
    if after.facts.tunnels.contains_key(&number) {
        return Ok(());
    }
    write!(text, "tunnel {number} dropped\n")
}

/// Appends that another LSP carries a tunnel's traffic, if one does.
fn push_switched(text: &mut String, number: u16, was: u16, is: u16) -> Result<(), AllocError>
    ensures { OnOk result (string_bytes text.new ≡ string_bytes text.old ++ switched_line number was is) }
{
    if was == is {
        return Ok(());
    }
    write!(
        text,
        "tunnel {number} switched from lsp {was} to lsp {is}\n"
    )
}

/// Appends that a tunnel is up on this LSP and wasn't, or that it was up and isn't.
fn push_standing(
    text: &mut String,
    number: u16,
    lsp: u16,
    was_up: bool,
    is_up: bool,
) -> Result<(), AllocError>
    ensures { OnOk result (string_bytes text.new ≡ string_bytes text.old ++ standing_line number lsp was_up is_up) }
{
    match (was_up, is_up) {
        (false, false) | (true, true) => Ok(()),
        (false, true) => write!(text, "tunnel {number} up on lsp {lsp}\n"),
        (true, false) => write!(text, "tunnel {number} down\n"),
    }
}

/// Appends the lines of a tunnel that was there before.
#[tactic(auto, unfolding(crate::specs::Tunnels::kept_lines))]
fn push_kept(
    alloc: Global,
    text: &mut String,
    router: &Router,
    before: &State,
    after: &State,
    number: u16,
    was: &Tunnel,
    is: &Tunnel,
) -> Result<(), AllocError>
    ensures { OnOk result (string_bytes text.new ≡ string_bytes text.old ++ kept_lines router.now before.now after.now number was.now is.now) }
{
    let was_up = carries(router, before, number, was);
    let is_up = carries(router, after, number, is);
    push_switched(text, number, was.current.id, is.current.id)?;
    push_standing(text, number, is.current.id, was_up, is_up)?;
    push_error(alloc, text, number, was.noted, is.noted)
}

/// Appends the lines of a tunnel that wasn't there before.
#[tactic(auto, unfolding(crate::specs::Tunnels::new_lines))]
fn push_new(
    alloc: Global,
    text: &mut String,
    router: &Router,
    after: &State,
    row: &(u16, Tunnel),
) -> Result<(), AllocError>
    ensures { OnOk result (string_bytes text.new ≡ string_bytes text.old ++ new_lines router.now after.now row.now) }
{
    let (number, tunnel) = row;
    let is_up = carries(router, after, *number, tunnel);
    push_configured(alloc, text, row)?;
    push_standing(text, *number, tunnel.current.id, false, is_up)?;
    push_error(alloc, text, *number, None, tunnel.noted)
}

/// Appends the lines of a tunnel.
fn push_tunnel(
    alloc: Global,
    text: &mut String,
    router: &Router,
    before: &State,
    after: &State,
    row: &(u16, Tunnel),
) -> Result<(), AllocError>
    ensures { OnOk result (string_bytes text.new ≡ string_bytes text.old ++ tunnel_lines router.now before.now after.now row.now) }
{
    match before.facts.tunnels.get(&row.0) {
        Some(was) => push_kept(alloc, text, router, before, after, row.0, was, &row.1),
        None => push_new(alloc, text, router, after, row),
    }
}

/// Appends the lines of the tunnels that were dropped.
fn push_all_dropped(
    text: &mut String,
    after: &State,
    rows: &[(u16, Tunnel)],
) -> Result<(), AllocError>
    ensures { OnOk result (string_bytes text.new ≡ string_bytes text.old ++ flat_map (dropped_line after.now) rows.now) }
{
    for row in rows {
        push_if_dropped(text, after, row)?;
    }
    Ok(())
}

/// Appends the lines of the tunnels that there are.
fn push_all_tunnels(
    alloc: Global,
    text: &mut String,
    router: &Router,
    before: &State,
    after: &State,
) -> Result<(), AllocError>
    ensures { OnOk result (string_bytes text.new ≡ string_bytes text.old
        ++ flat_map (tunnel_lines router.now before.now after.now) after.now.facts.tunnels) }
{
    for row in after.facts.tunnels.as_slice() {
        push_tunnel(alloc, text, router, before, after, row)?;
    }
    Ok(())
}

/// Appends the lines of the tunnels that begin here.
#[tactic(auto, unfolding(crate::specs::Tunnels::tunnels_lines))]
pub(crate) fn push_tunnels(
    alloc: Global,
    text: &mut String,
    router: &Router,
    before: &State,
    after: &State,
) -> Result<(), AllocError>
    ensures { OnOk result (string_bytes text.new ≡ string_bytes text.old ++ tunnels_lines router.now before.now after.now) }
{
    push_all_dropped(text, after, before.facts.tunnels.as_slice())?;
    push_all_tunnels(alloc, text, router, before, after)
}
