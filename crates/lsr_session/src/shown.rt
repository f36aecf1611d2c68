//! What a session shows of its router.
ghost use Rattle.std.specs.Prelude.{◌≡◌, ◌≤◌, ◌<◌, ◌^◌, ◌==◌, ◌++◌, IfOk, OnOk, count_by, flat_map, string_bytes};
ghost use Rattle.bypass_shares.specs.Shares.{assigned_of};
ghost use Rattle.lsr_text.specs.Labels.{labels_text};
ghost use Rattle.lsr_text.specs.Lsps.{path_lsp_text, resv_lsp_text};
ghost use Rattle.lsr_text.specs.Rows.{resvs_text};
ghost use Rattle.lsr_text.specs.Shown.{paths_text};
ghost use Rattle.lsr_text.specs.Tunnels.{tunnels_text};
ghost use Rattle.config_text.specs.Printing.{config_text};
ghost use Rattle.lsr_session.specs.Lsps.{lsp_text, lsps_of_text, lsps_text};
ghost use Rattle.lsr_session.specs.Requests.{IsTextOf, PrintsTable, Shows, bypass_text, bypasses_text, head_text, heads_text, key_of, link_text, links_text, room_text, running, share_text, summary_text, sums_of};

use crate::lsps::{lsp_text, lsps_of_text, lsps_text};
use config_text::setup_text;
use explicit_routes::is_up;
use lsr_config::LinkSockets;
use lsr_facts::{Assignment, Bypass, Key, Link, Repair, State, Tunnel, WORST_PRIORITY};
use lsr_lines::{LspName, Shown};
use lsr_text::{
    PRIORITIES, labels_text, path_lsp_text, paths_text, push_assigned_bypass, push_bypass,
    push_counts, push_head, push_link, push_reserved_link, resv_lsp_text, resvs_text, table_text,
    tunnels_text,
};
use router_core::Machine;
use rsvp_contents::{Session, Template};
use std::alloc::{AllocError, Global};

/// What is shown in place of a configuration with a name that isn't UTF-8, as none is that a configuration or a line says.
const NO_TEXT: &str = "a tunnel's name isn't UTF-8: no configuration says it\n";

/// The lines of the paths that the router knows. The only error is that memory ran out.
fn show_paths(alloc: Global, router: &Machine) -> Result<String, AllocError>
    ensures { IfOk result (λ text. string_bytes text ≡ paths_text router.now.state.facts.paths) }
{
    let state = router.export(alloc)?;
    paths_text(alloc, state.facts.paths.as_slice())
}

/// The lines of the reservations that stand. The only error is that memory ran out.
fn show_resvs(alloc: Global, router: &Machine) -> Result<String, AllocError>
    ensures { IfOk result (λ text. string_bytes text ≡ resvs_text router.now.state.resvs) }
{
    let state = router.export(alloc)?;
    resvs_text(alloc, state.resvs.as_slice())
}

/// Appends the line of what is done with the traffic of a tunnel of the router, if it is reserved. The only error is that
/// memory ran out.
fn push_head_of(
    router: &Machine,
    text: &mut String,
    tunnel: &(u16, Tunnel),
) -> Result<(), AllocError>
    ensures { OnOk result (string_bytes text.new ≡ string_bytes text.old ++ head_text router.now tunnel.now) }
{
    let number = tunnel.0;
    match router.look_tunnel(number) {
        Some(action) => push_head(text, number, &action),
        None => Ok(()),
    }
}

/// Appends such lines for tunnels of the router, in their order. The only error is that memory ran out.
fn push_heads(
    router: &Machine,
    text: &mut String,
    tunnels: &[(u16, Tunnel)],
) -> Result<(), AllocError>
    ensures { OnOk result (string_bytes text.new ≡ string_bytes text.old ++ heads_text router.now tunnels.now) }
{
    for tunnel in tunnels {
        push_head_of(router, text, tunnel)?;
    }
    Ok(())
}

/// The lines of the label table, those of labels and then those of tunnels. The only error is that memory ran out.
fn show_table(alloc: Global, router: &Machine) -> Result<String, AllocError>
    ensures { IfOk result (λ text. PrintsTable router.now (string_bytes text)) }
{
    let actions = router.actions(alloc)?;
    let state = router.export(alloc)?;
    let mut text = table_text(alloc, actions.as_slice())?;
    push_heads(router, &mut text, state.facts.tunnels.as_slice())?;
    Ok(text)
}

/// The lines of the labels that LSPs hold and of those that rest, and how many are free. The only error is that memory ran
/// out.
fn show_labels(alloc: Global, router: &Machine) -> Result<String, AllocError>
    ensures { IfOk result (λ text. string_bytes text ≡ labels_text router.now.router router.now.state) }
{
    let state = router.export(alloc)?;
    labels_text(alloc, router.router(), &state)
}

/// The lines of the tunnels that begin at the router. The only error is that memory ran out.
fn show_tunnels(alloc: Global, router: &Machine) -> Result<String, AllocError>
    ensures { IfOk result (λ text. string_bytes text ≡ tunnels_text router.now.state.facts.tunnels) }
{
    let state = router.export(alloc)?;
    tunnels_text(alloc, state.facts.tunnels.as_slice())
}

/// How many LSPs are repaired over the bypass of a number.
fn uses_of(repairs: &[(Key, Repair)], number: u16) -> usize
    ensures { result ≡ count_by (λ repair. repair.1.bypass == number) repairs.now }
{
    repairs
        .iter()
        .filter(|repair| repair.1.bypass == number)
        .count()
}

/// The sum of what is assigned of the bypass of a number, in bytes per second.
fn sum_of(assignments: &[(Key, Assignment)], number: u16) -> u64
    requires { assigned_of number assignments.now < 2 ^ 64 }
    ensures { result ≡ assigned_of number assignments.now }
{
    let mut sum = 0;
    for (_, given) in assignments {
        if given.bypass == number {
            sum += given.rate;
        }
    }
    sum
}

/// How much of a bypass is assigned, in bytes per second: nothing where it has no capacity.
fn assigned_of(state: &State, row: &(u16, Bypass)) -> u64
    requires { assigned_of row.now.0 state.now.assignments ≤ row.now.1.capacity }
    ensures { result ≡ assigned_of row.now.0 state.now.assignments }
{
    let (number, bypass) = *row;
    if bypass.capacity == 0 {
        return 0;
    }
    sum_of(state.assignments.as_slice(), number)
}

/// Appends the line of a bypass of the router, which knows this. The only error is that memory ran out.
fn push_bypass_of(
    router: &Machine,
    state: &State,
    text: &mut String,
    row: &(u16, Bypass),
) -> Result<(), AllocError>
    requires known { state.now ≡ router.now.state }
    requires within { assigned_of row.now.0 state.now.assignments ≤ row.now.1.capacity }
    ensures { OnOk result (string_bytes text.new ≡ string_bytes text.old ++ bypass_text router.now row.now) }
{
    let is_up = router.over_at(row.0).is_some();
    let uses = uses_of(state.repairs.as_slice(), row.0);
    push_bypass(text, row, is_up, uses, assigned_of(state, row))
}

/// The lines of the bypasses that the router has, in the order of their numbers. The only error is that memory ran out.
fn show_bypasses(alloc: Global, router: &Machine) -> Result<String, AllocError>
    ensures { IfOk result (λ text. string_bytes text ≡ bypasses_text router.now) }
{
    router.soundness();
    let state = router.export(alloc)?;
    let mut text = String::new(alloc);
    for row in state.facts.bypasses.as_slice() {
        push_bypass_of(router, &state, &mut text, row)?;
    }
    Ok(text)
}

/// What is reserved of a link at each priority, 0 (best) to 7, in bytes per second.
fn sums_of(router: &Machine, link: u16) -> [u64; PRIORITIES]
    ensures { result ≡ sums_of router.now.state link }
{
    [
        router.reserved(link, 0),
        router.reserved(link, 1),
        router.reserved(link, 2),
        router.reserved(link, 3),
        router.reserved(link, 4),
        router.reserved(link, 5),
        router.reserved(link, 6),
        router.reserved(link, 7),
    ]
}

/// Appends the line of a link of the router, which knows this. The only error is that memory ran out.
fn push_link_of(
    router: &Machine,
    state: &State,
    text: &mut String,
    row: &(u16, Link),
) -> Result<(), AllocError>
    requires { state.now ≡ router.now.state }
    ensures { OnOk result (string_bytes text.new ≡ string_bytes text.old ++ link_text router.now.state row.now) }
{
    let (number, link) = row;
    let is_up = is_up(&state.facts.up, *number);
    push_link(text, *number, is_up, link.limit, &sums_of(router, *number))
}

/// The lines of the links that the router has, in the order of their numbers. The only error is that memory ran out.
fn show_links(alloc: Global, router: &Machine) -> Result<String, AllocError>
    ensures { IfOk result (λ text. string_bytes text ≡ links_text router.now) }
{
    let state = router.export(alloc)?;
    let mut text = String::new(alloc);
    for row in router.router().links.as_slice() {
        push_link_of(router, &state, &mut text, row)?;
    }
    Ok(text)
}

/// The key of the LSP that is named.
fn key_of(lsp: &LspName) -> Key
    ensures { result ≡ key_of lsp.now }
{
    Key {
        session: Session {
            endpoint: lsp.session.endpoint,
            tunnel: lsp.session.tunnel,
            extended: lsp.session.extended,
        },
        sender: Template {
            sender: lsp.sender.sender,
            lsp: lsp.sender.lsp,
        },
    }
}

/// All that the router knows of the path of an LSP: nothing where there is no path. The only error is that memory ran out.
fn show_path(alloc: Global, router: &Machine, lsp: &LspName) -> Result<String, AllocError>
    ensures { IfOk result (λ text. string_bytes text ≡ path_lsp_text router.now.router router.now.state (key_of lsp.now)) }
{
    let state = router.export(alloc)?;
    path_lsp_text(alloc, router.router(), &state, &key_of(lsp))
}

/// All that the router knows of the reservation of an LSP, or of the one that it is repaired for: nothing where there is
/// none. The only error is that memory ran out.
fn show_resv(alloc: Global, router: &Machine, lsp: &LspName) -> Result<String, AllocError>
    ensures { IfOk result (λ text. string_bytes text ≡ resv_lsp_text router.now.state (key_of lsp.now)) }
{
    let state = router.export(alloc)?;
    resv_lsp_text(alloc, &state, &key_of(lsp))
}

/// Appends the line of what is reserved of a link of the router. The only error is that memory ran out.
fn push_room_of(router: &Machine, text: &mut String, row: &(u16, Link)) -> Result<(), AllocError>
    ensures { OnOk result (string_bytes text.new ≡ string_bytes text.old ++ room_text router.now.state row.now) }
{
    let (number, link) = row;
    push_reserved_link(
        text,
        *number,
        router.reserved(*number, WORST_PRIORITY),
        link.limit,
    )
}

/// Appends the lines of what is reserved of the links of the router. The only error is that memory ran out.
fn push_rooms(router: &Machine, text: &mut String) -> Result<(), AllocError>
    ensures { OnOk result (string_bytes text.new ≡ string_bytes text.old ++ flat_map (room_text router.now.state) router.now.router.links) }
{
    for row in router.router().links.as_slice() {
        push_room_of(router, text, row)?;
    }
    Ok(())
}

/// Appends the line of what is assigned of a bypass, if it has a capacity. The only error is that memory ran out.
fn push_share_of(state: &State, text: &mut String, row: &(u16, Bypass)) -> Result<(), AllocError>
    requires { assigned_of row.now.0 state.now.assignments ≤ row.now.1.capacity }
    ensures { OnOk result (string_bytes text.new ≡ string_bytes text.old ++ share_text state.now row.now) }
{
    let (number, bypass) = *row;
    if bypass.capacity == 0 {
        return Ok(());
    }
    push_assigned_bypass(text, number, assigned_of(state, row), bypass.capacity)
}

/// Appends the lines of what is assigned of bypasses that have a capacity. The only error is that memory ran out.
fn push_shares(router: &Machine, state: &State, text: &mut String) -> Result<(), AllocError>
    requires { state.now ≡ router.now.state }
    ensures { OnOk result (string_bytes text.new ≡ string_bytes text.old ++ flat_map (share_text state.now) state.now.facts.bypasses) }
{
    router.soundness();
    for row in state.facts.bypasses.as_slice() {
        push_share_of(state, text, row)?;
    }
    Ok(())
}

/// How much there is of everything, and how much there may be. The only error is that memory ran out.
fn show_summary(alloc: Global, router: &Machine) -> Result<String, AllocError>
    ensures { IfOk result (λ text. string_bytes text ≡ summary_text router.now) }
{
    let state = router.export(alloc)?;
    let mut text = String::new(alloc);
    push_counts(&mut text, router.router(), &state)?;
    push_rooms(router, &mut text)?;
    push_shares(router, &state, &mut text)?;
    Ok(text)
}

/// The text of these bytes; or, where they aren't UTF-8, that there is none. The only error is that memory ran out.
fn text_of(alloc: Global, bytes: Vec<u8>) -> Result<String, AllocError>
    ensures { IfOk result (λ text. IsTextOf bytes.items (string_bytes text)) }
{
    match String::from_utf8(bytes) {
        Ok(text) => Ok(text),
        Err(_) => String::from_str(alloc, NO_TEXT),
    }
}

/// The running configuration, with what commands changed of it, whose links have these socket addresses, by their numbers. The
/// only error is that memory ran out.
fn show_config(
    alloc: Global,
    router: &Machine,
    sockets: &[(u16, LinkSockets)],
) -> Result<String, AllocError>
    ensures { IfOk result (λ text. IsTextOf (config_text (running router.now) sockets.now) (string_bytes text)) }
{
    let state = router.export(alloc)?;
    let bytes = setup_text(
        alloc,
        router.router(),
        state.facts.routes.as_slice(),
        state.facts.tunnels.as_slice(),
        state.facts.bypasses.as_slice(),
        sockets,
    )?;
    text_of(alloc, bytes)
}

/// How each LSP stands. The only error is that memory ran out.
fn show_lsps(alloc: Global, router: &Machine) -> Result<String, AllocError>
    ensures { IfOk result (λ text. string_bytes text ≡ lsps_text router.now.router router.now.state) }
{
    let state = router.export(alloc)?;
    lsps_text(alloc, router.router(), &state)
}

/// How the LSPs of the tunnel of a number stand: nothing where no such tunnel begins here. The only error is that memory ran
/// out.
fn show_tunnel_lsps(alloc: Global, router: &Machine, number: u16) -> Result<String, AllocError>
    ensures { IfOk result (λ text. string_bytes text ≡ lsps_of_text router.now.router router.now.state number) }
{
    let state = router.export(alloc)?;
    lsps_of_text(alloc, router.router(), &state, number)
}

/// How an LSP stands: nothing where the router has neither a path of it nor a tunnel. The only error is that memory ran out.
fn show_lsp(alloc: Global, router: &Machine, lsp: &LspName) -> Result<String, AllocError>
    ensures { IfOk result (λ text. string_bytes text ≡ lsp_text router.now.router router.now.state (key_of lsp.now)) }
{
    let state = router.export(alloc)?;
    lsp_text(alloc, router.router(), &state, &key_of(lsp))
}

/// The lines that the router shows of what it knows; its links have these socket addresses, by their numbers. The only error is
/// that memory ran out.
pub fn show(
    alloc: Global,
    router: &Machine,
    sockets: &[(u16, LinkSockets)],
    shown: &Shown,
) -> Result<String, AllocError>
    ensures { IfOk result (λ text. Shows router.now sockets.now shown.now (string_bytes text)) }
{
    match shown {
        Shown::Paths => show_paths(alloc, router),
        Shown::Resvs => show_resvs(alloc, router),
        Shown::Table => show_table(alloc, router),
        Shown::Labels => show_labels(alloc, router),
        Shown::Links => show_links(alloc, router),
        Shown::Tunnels => show_tunnels(alloc, router),
        Shown::Bypasses => show_bypasses(alloc, router),
        Shown::Summary => show_summary(alloc, router),
        Shown::Config => show_config(alloc, router, sockets),
        Shown::Lsps => show_lsps(alloc, router),
        Shown::Path(lsp) => show_path(alloc, router, lsp),
        Shown::Resv(lsp) => show_resv(alloc, router, lsp),
        Shown::TunnelLsps(number) => show_tunnel_lsps(alloc, router, *number),
        Shown::Lsp(lsp) => show_lsp(alloc, router, lsp),
    }
}
