//! All that is told between two looks at a router.
ghost use Rattle.std.specs.Prelude.{◌≡◌, ◌++◌, IfOk, OnOk, string_bytes};
ghost use Rattle.lsr_text.specs.Rows.{state_word};
ghost use Rattle.lsr_watch.specs.Changes.{changes_text, link_line, links_lines, lsps_lines, running_line, was_so};

use crate::lsps::{push_came, push_lost, push_repaired};
use crate::tunnels::push_tunnels;
use lsr_facts::{Router, State};
use std::alloc::{AllocError, Global};
use std::fmt::Write;

/// What is told where the router was stopped or started.
fn running_line(before: &State, after: &State) -> &'static str
    ensures { result.now ≡ running_line before.now after.now }
{
    if before.facts.cold == after.facts.cold {
        ""
    } else if after.facts.cold {
        "router stopped by restart: what messages had set up is gone; type start\n"
    } else {
        "router started\n"
    }
}

/// Whether a link was up, or down, as it is now.
fn was_so(before: &State, link: &(u16, bool)) -> bool
    ensures { result ≡ was_so before.now link.now }
{
    match before.facts.up.get(&link.0) {
        Some(was) => *was == link.1,
        None => false,
    }
}

/// Whether a link is up, as a word.
fn state_word(is_up: bool) -> &'static str
    ensures { result.now ≡ state_word is_up }
{
    if is_up { "up" } else { "down" }
}

/// Appends that a link came up or went down, if it did.
fn push_link(text: &mut String, before: &State, link: &(u16, bool)) -> Result<(), AllocError>
    ensures { OnOk result (string_bytes text.new ≡ string_bytes text.old ++ link_line before.now link.now) }
{
    if was_so(before, link) {
        return Ok(());
    }
    let (number, is_up) = link;
    let state = state_word(*is_up);
    write!(text, "link {number} {state}\n")
}

/// Appends the lines of the links.
#[tactic(auto, unfolding(crate::specs::Changes::links_lines))]
fn push_links(text: &mut String, before: &State, after: &State) -> Result<(), AllocError>
    ensures { OnOk result (string_bytes text.new ≡ string_bytes text.old ++ links_lines before.now after.now) }
{
    for link in after.facts.up.as_slice() {
        push_link(text, before, link)?;
    }
    Ok(())
}

/// Appends the lines of the LSPs.
#[tactic(auto, unfolding(crate::specs::Changes::lsps_lines))]
fn push_lsps(text: &mut String, before: &State, after: &State) -> Result<(), AllocError>
    ensures { OnOk result (string_bytes text.new ≡ string_bytes text.old ++ lsps_lines before.now after.now) }
{
    push_came(text, before, after)?;
    push_lost(text, before, after)?;
    push_repaired(text, before, after)
}

/// What changed of a router from one look at its state to the next one, as lines for a log; no text where nothing changed that
/// is told:
///
/// - `router stopped by restart: ..` or `router started`;
/// - `link N down` or `link N up`;
/// - `lsp up: KEY link N rate R (B bit/s)`: an LSP is reserved now, for R bytes per second. KEY is `ENDPOINT/TUNNEL/EXTENDED SENDER/LSP`
///   (RFC 3209, 4.6). A rate below 1 kbit/s is followed by how a rate is written: its word may be a decimal number by mistake;
/// - `path received: KEY (egress here)`: a Path of an LSP came whose egress this router is, and it asks for the reservation; and
///   `path removed: KEY (egress here)`: it is there no more;
/// - `lsp restored to its own path: KEY link N rate R (B bit/s)`: it is reserved now, and was repaired;
/// - `lsp down: KEY`: it was reserved or repaired, and isn't now;
/// - `lsp repaired over bypass N: KEY`: it is repaired now, or over another bypass than before (RFC 4090, 6.4);
/// - `tunnel N dropped`, and `tunnel N configured: "NAME" to ENDPOINT rate R (B bit/s)`, of a tunnel that begins here;
/// - `tunnel N switched from lsp A to lsp B`: another LSP carries its traffic (RFC 3209, 2.5);
/// - `tunnel N up on lsp A` or `tunnel N down`: the LSP that carries its traffic is up now, or isn't any more;
/// - `tunnel N error CODE/VALUE NAME from NODE`: an error came for one of its LSPs, other than the one that was noted before
///   (RFC 2205, 3.1.7): what `lsr explain CODE/VALUE` explains. An error without a name has none here.
///
/// Refreshes, timers, labels and what an LSP is promised aren't told, nor are paths that come and go without a reservation, but
/// for those that end here. What came and went between the two looks can't be told. The only error is that memory ran out.
#[tactic(auto, unfolding(crate::specs::Changes::changes_text))]
pub fn changes_text(
    alloc: Global,
    router: &Router,
    before: &State,
    after: &State,
) -> Result<String, AllocError>
    ensures { IfOk result (λ text. string_bytes text ≡ changes_text router.now before.now after.now) }
{
    let mut text = String::new(alloc);
    text.push_str(running_line(before, after))?;
    push_links(&mut text, before, after)?;
    push_lsps(&mut text, before, after)?;
    push_tunnels(alloc, &mut text, router, before, after)?;
    Ok(text)
}
