//! What `show lsps` and `show lsp` print: how each LSP stands, why it isn't up, and what is asked and known of it.
ghost use Rattle.std.specs.Option.{option_copied};
ghost use Rattle.std.specs.Prelude.{◌≡◌, ◌++◌, IfOk, OnOk, flat_map, string_bytes};
ghost use Rattle.facility_backup.specs.Carrying.{names_tunnel};
ghost use Rattle.lsr_session.specs.Lsps.{asked_lines, beginning_words, called_words, cause_words, chosen, ends_here, entry_words, error_words, gap_before, given_words, head_line, held_at, hop_error, in_line, is_for_bypass, is_pending, known_lines, lsp_line, lsp_lines, lsp_text, lsps_of_text, lsps_text, named_words, no_hop_line, none_word, noted_at, noted_words, origin_words, out_line, path_line, pathless_at, pathless_line, pathless_lines, pathless_why, protection_line, rate_at, rate_words, ready_line, recorded_at, recorded_line, route_line, sent_words, standing_of, standing_words, steps_of, tunnel_text, unprotected, unprotected_line, unsignalled_why, waiting_line, why_line};
ghost use Rattle.lsr_text.specs.Shown.{role_word};

use explicit_routes::{head_way, is_up};
use facility_backup::{is_protected, select};
use lsr_facts::{
    Bypass, Item, Key, Node, Noted, Origin, PathFact, ResvFact, Role, Router, RsvpError, State,
    Tunnel, Via, begins_here, current_key, holding_of, pending_key, setup_of,
};
use lsr_text::{push_key, push_name, push_prefix, push_steps};
use object_text::error_name;
use plain_views::Known;
use rsvp_bodies::{Step, Trace};
use rsvp_contents::Attr;
use rsvp_contents::limits::is_short_route;
use std::alloc::{AllocError, Global};
use std::fmt::Write;
use std::net::Ipv4Addr;

/// The bits of a byte.
const BITS: u64 = 8;

/// How many milliseconds a second has.
const SECOND_MS: u64 = 1_000;

/// How an LSP stands.
#[derive(Clone, Copy)]
pub(crate) enum Standing {
    /// It is reserved on the link to its next hop, or it ends here.
    Up,
    /// Its Path is sent, and no Resv was granted yet.
    Signalling,
    /// It has no path, or the link that it leaves by is down.
    Down,
    /// It runs over the bypass of this number (RFC 4090, 6.4).
    Repaired(u16),
    /// It is the new LSP of a tunnel that is being changed, and carries nothing yet (RFC 3209, 2.5).
    Pending,
}

/// What the router is on an LSP's way, as a word.
fn role_word(role: Role) -> &'static str
    ensures { result.now ≡ role_word role }
{
    match role {
        Role::Transit => "transit",
        Role::Tail => "tail",
        Role::Head => "head",
    }
}

/// Whether an LSP ends here, by what the router is on its way.
fn ends_here(role: Role) -> bool
    ensures { result ≡ ends_here role }
{
    match role {
        Role::Tail => true,
        Role::Transit | Role::Head => false,
    }
}

/// What holds an LSP's label at its next hop: its reservation, or what its repair keeps of that.
fn held_at<'a>(state: &'a State, key: &Key) -> Option<&'a ResvFact>
    ensures { option_copied result ≡ held_at state.now key.now }
{
    if let Some(resv) = state.resvs.get(key) {
        return Some(resv);
    }
    match state.repairs.get(key) {
        Some(repair) => Some(&repair.resv),
        None => None,
    }
}

/// The rate that is reserved for an LSP, or else asked for, in bytes per second; none where its word stands for none.
fn rate_at(state: &State, key: &Key, path: &PathFact) -> Option<u64>
    ensures { result ≡ rate_at state.now key.now path.now }
{
    match held_at(state, key) {
        Some(resv) => resv.flowspec.rate().ok(),
        None => path.tspec.rate().ok(),
    }
}

/// Whether an LSP is to take the place of the one that carries the traffic of a tunnel that begins here.
fn is_pending(router: &Router, state: &State, key: &Key) -> bool
    ensures { result ≡ is_pending router.now state.now key.now }
{
    let number = key.session.tunnel;
    let Some(tunnel) = state.facts.tunnels.get(&number) else {
        return false;
    };
    match pending_key(router, number, tunnel) {
        Some(pending) => pending.cmp(key).is_eq(),
        None => false,
    }
}

/// How an LSP stands that has a path.
#[tactic(auto, unfolding(crate::specs::Lsps::standing_of))]
fn standing_of(router: &Router, state: &State, key: &Key, path: &PathFact) -> Standing
    ensures { result ≡ standing_of router.now state.now key.now path.now }
{
    if let Some(repair) = state.repairs.get(key) {
        return Standing::Repaired(repair.bypass);
    }
    if is_pending(router, state, key) {
        return Standing::Pending;
    }
    if state.resvs.contains_key(key) || ends_here(path.role) {
        return Standing::Up;
    }
    if is_up(&state.facts.up, path.out_link) {
        Standing::Signalling
    } else {
        Standing::Down
    }
}

/// Appends how an LSP stands, in words.
fn push_standing(text: &mut String, standing: Standing) -> Result<(), AllocError>
    ensures { OnOk result (string_bytes text.new ≡ string_bytes text.old ++ standing_words standing) }
{
    match standing {
        Standing::Up => text.push_str("up"),
        Standing::Signalling => text.push_str("signalling"),
        Standing::Down => text.push_str("down"),
        Standing::Repaired(bypass) => write!(text, "repaired over bypass {bypass}"),
        Standing::Pending => text.push_str("pending"),
    }
}

/// Appends a rate, of so many bytes per second, in bits and in bytes, or that there is none.
fn push_rate(text: &mut String, rate: Option<u64>) -> Result<(), AllocError>
    ensures { OnOk result (string_bytes text.new ≡ string_bytes text.old ++ rate_words rate) }
{
    match rate {
        Some(rate) => {
            let bits = rate.saturating_mul(BITS);
            write!(text, " rate {bits} bit/s {rate} bytes/s")
        }
        None => text.push_str(" rate none"),
    }
}

/// Appends the name that attributes say, or that there is none, and ends the line.
fn push_called(alloc: Global, text: &mut String, attr: Option<&Attr>) -> Result<(), AllocError>
    ensures { OnOk result (string_bytes text.new ≡ string_bytes text.old ++ called_words (option_copied attr.entry)) }
{
    let Some(attr) = attr else {
        return text.push_str(" name none\n");
    };
    text.push_str(" name ")?;
    push_name(alloc, text, attr.name.as_slice())?;
    text.push_str("\n")
}

/// Appends which LSP it is, and a word between blanks.
#[tactic(auto, unfolding(crate::specs::Lsps::named_words))]
fn push_named(text: &mut String, key: &Key, word: &str) -> Result<(), AllocError>
    ensures { OnOk result (string_bytes text.new ≡ string_bytes text.old ++ named_words key.now word.now) }
{
    text.push_str("lsp ")?;
    push_key(text, key)?;
    write!(text, " {word} ")
}

/// Appends the beginning of an LSP's line.
#[tactic(auto, unfolding(crate::specs::Lsps::beginning_words))]
fn push_beginning(
    text: &mut String,
    key: &Key,
    role: Role,
    standing: Standing,
) -> Result<(), AllocError>
    ensures { OnOk result (string_bytes text.new ≡ string_bytes text.old ++ beginning_words key.now role standing) }
{
    push_named(text, key, role_word(role))?;
    push_standing(text, standing)
}

/// Appends the line of an LSP: `lsp KEY ROLE STATE rate N bit/s N bytes/s name "NAME"`.
#[tactic(auto, unfolding(crate::specs::Lsps::lsp_line))]
fn push_line(
    alloc: Global,
    text: &mut String,
    key: &Key,
    role: Role,
    standing: Standing,
    rate: Option<u64>,
    attr: Option<&Attr>,
) -> Result<(), AllocError>
    ensures { OnOk result (string_bytes text.new ≡ string_bytes text.old ++ lsp_line key.now role standing rate (option_copied attr.entry)) }
{
    push_beginning(text, key, role, standing)?;
    push_rate(text, rate)?;
    push_called(alloc, text, attr)
}

/// Appends the line of an LSP that has a path.
#[tactic(auto, unfolding(crate::specs::Lsps::path_line))]
fn push_path_line(
    alloc: Global,
    text: &mut String,
    router: &Router,
    state: &State,
    key: &Key,
    path: &PathFact,
) -> Result<(), AllocError>
    ensures { OnOk result (string_bytes text.new ≡ string_bytes text.old ++ path_line router.now state.now key.now path.now) }
{
    let standing = standing_of(router, state, key, path);
    let rate = rate_at(state, key, path);
    push_line(
        alloc,
        text,
        key,
        path.role,
        standing,
        rate,
        path.attr.as_ref(),
    )
}

/// Appends the line of a tunnel's LSP that has no path.
#[tactic(auto, unfolding(crate::specs::Lsps::head_line))]
fn push_head_line(
    alloc: Global,
    text: &mut String,
    router: &Router,
    number: u16,
    tunnel: &Tunnel,
) -> Result<(), AllocError>
    ensures { OnOk result (string_bytes text.new ≡ string_bytes text.old ++ head_line router.now (number, tunnel.now)) }
{
    let key = current_key(router, number, tunnel);
    let rate = tunnel.current.tspec.rate().ok();
    let attr = Some(&tunnel.attr);
    push_line(alloc, text, &key, Role::Head, Standing::Down, rate, attr)
}

/// Appends the line of a tunnel's LSP, if that has no path.
fn push_if_pathless(
    alloc: Global,
    text: &mut String,
    router: &Router,
    state: &State,
    row: &(u16, Tunnel),
) -> Result<(), AllocError>
    ensures { OnOk result (string_bytes text.new ≡ string_bytes text.old ++ pathless_line router.now state.now row.now) }
{
    let (number, tunnel) = row;
    let key = current_key(router, *number, tunnel);
    if state.facts.paths.contains_key(&key) {
        return Ok(());
    }
    push_head_line(alloc, text, router, *number, tunnel)
}

/// Appends the lines of the tunnels whose LSPs have no path.
fn push_pathless_lines(
    alloc: Global,
    text: &mut String,
    router: &Router,
    state: &State,
) -> Result<(), AllocError>
    ensures { OnOk result (string_bytes text.new ≡ string_bytes text.old
        ++ flat_map (pathless_line router.now state.now) state.now.facts.tunnels) }
{
    for row in state.facts.tunnels.as_slice() {
        push_if_pathless(alloc, text, router, state, row)?;
    }
    Ok(())
}

/// A line for each LSP that the router knows, and for each tunnel that begins here and has no path. The only error is that
/// memory ran out.
pub(crate) fn lsps_text(alloc: Global, router: &Router, state: &State) -> Result<String, AllocError>
    ensures { IfOk result (λ text. string_bytes text ≡ lsps_text router.now state.now) }
{
    let mut text = String::new(alloc);
    for row in state.facts.paths.as_slice() {
        push_path_line(alloc, &mut text, router, state, &row.0, &row.1)?;
    }
    push_pathless_lines(alloc, &mut text, router, state)?;
    Ok(text)
}

/// What parts a name from what is before it, if there is a name.
fn gap_before(name: &str) -> &'static str
    ensures { result.now ≡ gap_before name.now }
{
    if name.is_empty() { "" } else { " " }
}

/// Appends an error of this name that came last for an LSP of a tunnel.
#[tactic(auto, unfolding(crate::specs::Lsps::error_words))]
fn push_error(text: &mut String, error: Noted, gap: &str, name: &str) -> Result<(), AllocError>
    ensures { OnOk result (string_bytes text.new ≡ string_bytes text.old ++ error_words error gap.now name.now) }
{
    let code = error.code;
    let value = error.value;
    let node = error.node;
    write!(text, "; last error {code}/{value}{gap}{name} from {node}")
}

/// Appends the error that came last for an LSP of a tunnel, if one came, by the name that `lsr explain` has for it.
fn push_noted(text: &mut String, noted: Option<Noted>) -> Result<(), AllocError>
    ensures { OnOk result (string_bytes text.new ≡ string_bytes text.old ++ noted_words noted) }
{
    match noted {
        Some(error) => {
            let name = error_name(error.code, error.value);
            push_error(text, error, gap_before(name), name)
        }
        None => Ok(()),
    }
}

/// The error that came last for an LSP of the tunnel, if the LSP begins here and one came.
fn noted_at(state: &State, key: &Key, role: Role) -> Option<Noted>
    ensures { result ≡ noted_at state.now key.now role }
{
    if !begins_here(role) {
        return None;
    }
    state.facts.tunnels.get(&key.session.tunnel)?.noted
}

/// Appends how long ago the Path of an LSP was sent last, if it was.
fn push_sent(text: &mut String, state: &State, sent: Option<u64>) -> Result<(), AllocError>
    ensures { OnOk result (string_bytes text.new ≡ string_bytes text.old ++ sent_words state.now sent) }
{
    match sent {
        Some(moment) => {
            let seconds = state.facts.moment.saturating_sub(moment) / SECOND_MS;
            write!(text, "  why Path sent {seconds} s ago, no Resv granted yet")
        }
        None => text.push_str("  why no Path sent yet"),
    }
}

/// Appends why an LSP that has a path isn't up.
fn push_cause(
    text: &mut String,
    state: &State,
    key: &Key,
    path: &PathFact,
) -> Result<(), AllocError>
    ensures { OnOk result (string_bytes text.new ≡ string_bytes text.old ++ cause_words state.now key.now path.now) }
{
    let link = path.out_link;
    if is_up(&state.facts.up, link) {
        let sent = state.facts.sent.get(&Item::Down(*key, link)).copied();
        return push_sent(text, state, sent);
    }
    write!(text, "  why link {link} down")
}

/// Appends the line of why an LSP that has a path isn't up, with the error that came last.
#[tactic(auto, unfolding(crate::specs::Lsps::waiting_line))]
fn push_waiting(
    text: &mut String,
    state: &State,
    key: &Key,
    path: &PathFact,
) -> Result<(), AllocError>
    ensures { OnOk result (string_bytes text.new ≡ string_bytes text.old ++ waiting_line state.now key.now path.now) }
{
    push_cause(text, state, key, path)?;
    push_noted(text, noted_at(state, key, path.role))?;
    text.push_str("\n")
}

/// Appends the line of why an LSP that has a path isn't up, if it isn't.
fn push_why(
    text: &mut String,
    state: &State,
    key: &Key,
    path: &PathFact,
    standing: Standing,
) -> Result<(), AllocError>
    ensures { OnOk result (string_bytes text.new ≡ string_bytes text.old ++ why_line state.now key.now path.now standing) }
{
    match standing {
        Standing::Up | Standing::Repaired(_) => Ok(()),
        Standing::Signalling | Standing::Down | Standing::Pending => {
            push_waiting(text, state, key, path)
        }
    }
}

/// The error where no way leads on by the route of a tunnel's LSP (RFC 3209, 7.3).
#[tactic(auto, unfolding(crate::specs::Lsps::hop_error))]
fn hop_error(router: &Router, state: &State, tunnel: &Tunnel) -> Option<RsvpError>
    ensures { result ≡ hop_error router.now state.now tunnel.now }
{
    let route = &tunnel.current.route;
    if !is_short_route(route) {
        return None;
    }
    let node = Node {
        router,
        up: &state.facts.up,
        routes: &state.facts.routes,
    };
    match head_way(&node, route.as_slice(), tunnel.endpoint) {
        Ok(_way) => None,
        Err(error) => Some(error.error()),
    }
}

/// Appends the line that no way leads on by the route of a tunnel's LSP, by an error of this name.
#[tactic(auto, unfolding(crate::specs::Lsps::no_hop_line))]
fn push_no_hop(text: &mut String, error: RsvpError, name: &str) -> Result<(), AllocError>
    ensures { OnOk result (string_bytes text.new ≡ string_bytes text.old ++ no_hop_line error name.now) }
{
    let code = error.code;
    let value = error.value;
    write!(
        text,
        "  why no next hop by the route: {code}/{value} {name}\n"
    )
}

/// Appends the line of why a tunnel's LSP has no path while the router runs.
#[tactic(auto, unfolding(crate::specs::Lsps::unsignalled_why))]
fn push_unsignalled(
    text: &mut String,
    router: &Router,
    state: &State,
    tunnel: &Tunnel,
) -> Result<(), AllocError>
    ensures { OnOk result (string_bytes text.new ≡ string_bytes text.old ++ unsignalled_why router.now state.now tunnel.now) }
{
    match hop_error(router, state, tunnel) {
        Some(error) => push_no_hop(text, error, error_name(error.code, error.value)),
        None => text.push_str("  why not signalled yet: tried again at each clock tick\n"),
    }
}

/// Appends the line of why a tunnel's LSP has no path.
fn push_pathless_why(
    text: &mut String,
    router: &Router,
    state: &State,
    tunnel: &Tunnel,
) -> Result<(), AllocError>
    ensures { OnOk result (string_bytes text.new ≡ string_bytes text.old ++ pathless_why router.now state.now tunnel.now) }
{
    if state.facts.cold {
        return text.push_str("  why router stopped: start it\n");
    }
    push_unsignalled(text, router, state, tunnel)
}

/// Appends the lines of an LSP's endpoint and of its priorities as they count.
#[tactic(auto, unfolding(crate::specs::Lsps::asked_lines))]
fn push_asked(text: &mut String, endpoint: Ipv4Addr, attr: Option<&Attr>) -> Result<(), AllocError>
    ensures { OnOk result (string_bytes text.new ≡ string_bytes text.old ++ asked_lines endpoint (option_copied attr.entry)) }
{
    let setup = setup_of(attr);
    let hold = holding_of(attr);
    write!(
        text,
        "  endpoint {endpoint}\n  priorities setup {setup} hold {hold}\n"
    )
}

/// What stands where there is none of so many.
fn none_word(count: usize) -> &'static str
    ensures { result.now ≡ none_word count }
{
    if count == 0 { " none" } else { "" }
}

/// Appends the line of the route that is asked for.
#[tactic(auto, unfolding(crate::specs::Lsps::route_line))]
fn push_route(alloc: Global, text: &mut String, steps: &[Step]) -> Result<(), AllocError>
    ensures { OnOk result (string_bytes text.new ≡ string_bytes text.old ++ route_line steps.now) }
{
    let none = none_word(steps.len());
    write!(text, "  route{none}")?;
    push_steps(alloc, text, steps)?;
    text.push_str("\n")
}

/// Appends a node of a record, or a label that it gave out, after a space.
fn push_entry(text: &mut String, entry: &Trace) -> Result<(), AllocError>
    ensures { OnOk result (string_bytes text.new ≡ string_bytes text.old ++ entry_words entry.now) }
{
    match entry {
        Trace::Ipv4 { prefix, .. } => {
            text.push_str(" ")?;
            push_prefix(text, *prefix)
        }
        Trace::Label { label, .. } => write!(text, " label {label}"),
        Trace::Other(_) => Ok(()),
    }
}

/// The route that was recorded of an LSP, by its Resv if it is held, else by its Path; no entry where none was.
fn recorded_at<'a>(state: &'a State, key: &Key, path: &'a PathFact) -> &'a [Trace]
    ensures { result.now ≡ recorded_at state.now key.now path.now }
{
    let recorded = match held_at(state, key) {
        Some(resv) => &resv.recorded,
        None => &path.recorded,
    };
    match recorded {
        Some(record) => record.as_slice(),
        None => &[],
    }
}

/// Appends the line of a record, the entry that was added last first.
#[tactic(auto, unfolding(crate::specs::Lsps::recorded_line))]
fn push_recorded(text: &mut String, entries: &[Trace]) -> Result<(), AllocError>
    ensures { OnOk result (string_bytes text.new ≡ string_bytes text.old ++ recorded_line entries.now) }
{
    let none = none_word(entries.len());
    write!(text, "  recorded{none}")?;
    for entry in entries {
        push_entry(text, entry)?;
    }
    text.push_str("\n")
}

/// Appends how the Paths of an origin come.
fn push_origin(text: &mut String, row: &(Ipv4Addr, Origin)) -> Result<(), AllocError>
    ensures { OnOk result (string_bytes text.new ≡ string_bytes text.old ++ origin_words row.now) }
{
    match row.1.via {
        Via::Link(link) => write!(text, " link {link}"),
        Via::Stack => text.push_str(" stack"),
    }
}

/// Appends the label that this router gave, or that it gave none.
fn push_given(text: &mut String, given: Option<u32>) -> Result<(), AllocError>
    ensures { OnOk result (string_bytes text.new ≡ string_bytes text.old ++ given_words given) }
{
    match given {
        Some(label) => write!(text, "  label in {label}"),
        None => text.push_str("  label in none"),
    }
}

/// Appends the line of the label that this router gave, and of how Paths come.
#[tactic(auto, unfolding(crate::specs::Lsps::in_line))]
fn push_in(
    text: &mut String,
    given: Option<u32>,
    origins: &[(Ipv4Addr, Origin)],
) -> Result<(), AllocError>
    ensures { OnOk result (string_bytes text.new ≡ string_bytes text.old ++ in_line given origins.now) }
{
    push_given(text, given)?;
    for row in origins {
        push_origin(text, row)?;
    }
    text.push_str("\n")
}

/// Appends the line of the label that the next hop gave, or the bypass's end.
fn push_out(text: &mut String, state: &State, key: &Key) -> Result<(), AllocError>
    ensures { OnOk result (string_bytes text.new ≡ string_bytes text.old ++ out_line state.now key.now) }
{
    if let Some(resv) = state.resvs.get(key) {
        let label = resv.label;
        let link = resv.link;
        return write!(text, "  label out {label} link {link}\n");
    }
    match state.repairs.get(key) {
        Some(repair) => {
            let label = repair.resv.label;
            let bypass = repair.bypass;
            write!(text, "  label out {label} bypass {bypass}\n")
        }
        None => text.push_str("  label out none\n"),
    }
}

/// The number of the bypass over which an LSP that is reserved would be repaired (RFC 4090, 6.2).
#[tactic(auto, unfolding(crate::specs::Lsps::chosen))]
fn chosen(router: &Router, state: &State, key: &Key, path: &PathFact) -> Option<u16>
    ensures { result ≡ chosen router.now state.now key.now path.now }
{
    let resv = state.resvs.get(key)?;
    let given = state.assignments.get(key).copied();
    let choice = select(&Known { router, state }, key, path, given, resv)?;
    Some(choice.bypass)
}

/// Whether one of these bypasses runs in the tunnel of this number.
fn names_tunnel(bypasses: &[(u16, Bypass)], number: u16) -> bool
    ensures { result ≡ names_tunnel bypasses.now number }
{
    bypasses.iter().any(|bypass| bypass.1.tunnel == number)
}

/// Whether an LSP begins here, and a bypass runs in its tunnel.
fn is_for_bypass(state: &State, key: &Key, role: Role) -> bool
    ensures { result ≡ is_for_bypass state.now key.now role }
{
    begins_here(role) && names_tunnel(state.facts.bypasses.as_slice(), key.session.tunnel)
}

/// Why an LSP isn't protected for which no bypass is chosen.
#[tactic(auto, unfolding(crate::specs::Lsps::unprotected))]
fn unprotected(router: &Router, state: &State, key: &Key, path: &PathFact) -> &'static str
    ensures { result.now ≡ unprotected router.now state.now key.now path.now }
{
    if ends_here(path.role) {
        return "the LSP ends here";
    }
    if is_for_bypass(state, key, path.role) {
        return "a bypass runs in its tunnel";
    }
    if !is_protected(&Known { router, state }, key, path) {
        return "flag 01 not set";
    }
    if state.resvs.contains_key(key) {
        "no bypass of its link can take it"
    } else {
        "not reserved yet"
    }
}

/// Appends the line of why an LSP isn't protected.
#[tactic(auto, unfolding(crate::specs::Lsps::unprotected_line))]
fn push_unprotected(text: &mut String, why: &str) -> Result<(), AllocError>
    ensures { OnOk result (string_bytes text.new ≡ string_bytes text.old ++ unprotected_line why.now) }
{
    write!(text, "  not protected: {why}\n")
}

/// Appends the line of how an LSP that isn't repaired is protected, or why it isn't.
#[tactic(auto, unfolding(crate::specs::Lsps::ready_line))]
fn push_ready(
    text: &mut String,
    router: &Router,
    state: &State,
    key: &Key,
    path: &PathFact,
) -> Result<(), AllocError>
    ensures { OnOk result (string_bytes text.new ≡ string_bytes text.old ++ ready_line router.now state.now key.now path.now) }
{
    match chosen(router, state, key, path) {
        Some(bypass) => write!(text, "  protected by bypass {bypass}\n"),
        None => push_unprotected(text, unprotected(router, state, key, path)),
    }
}

/// Appends the line of how an LSP is protected, or why it isn't.
fn push_protection(
    text: &mut String,
    router: &Router,
    state: &State,
    key: &Key,
    path: &PathFact,
) -> Result<(), AllocError>
    ensures { OnOk result (string_bytes text.new ≡ string_bytes text.old ++ protection_line router.now state.now key.now path.now) }
{
    match state.repairs.get(key) {
        Some(repair) => {
            let bypass = repair.bypass;
            write!(text, "  protected by bypass {bypass}, in use\n")
        }
        None => push_ready(text, router, state, key, path),
    }
}

/// The steps of the route that a Path came with; none where it came without one.
fn steps_of(path: &PathFact) -> &[Step]
    ensures { result.now ≡ steps_of path.now }
{
    match &path.given {
        Some(route) => route.as_slice(),
        None => &[],
    }
}

/// Appends the lines of what is asked and known of an LSP that has a path: its endpoint and priorities, its routes and its labels.
#[tactic(auto, unfolding(crate::specs::Lsps::known_lines))]
fn push_known(
    alloc: Global,
    text: &mut String,
    state: &State,
    key: &Key,
    path: &PathFact,
) -> Result<(), AllocError>
    ensures { OnOk result (string_bytes text.new ≡ string_bytes text.old ++ known_lines state.now key.now path.now) }
{
    let given = state.labels.get(key).copied();
    push_asked(text, key.session.endpoint, path.attr.as_ref())?;
    push_route(alloc, text, steps_of(path))?;
    push_recorded(text, recorded_at(state, key, path))?;
    push_in(text, given, path.origins.as_slice())?;
    push_out(text, state, key)
}

/// Appends all lines of an LSP that has a path.
#[tactic(auto, unfolding(crate::specs::Lsps::lsp_lines))]
fn push_lsp(
    alloc: Global,
    text: &mut String,
    router: &Router,
    state: &State,
    key: &Key,
    path: &PathFact,
) -> Result<(), AllocError>
    ensures { OnOk result (string_bytes text.new ≡ string_bytes text.old ++ lsp_lines router.now state.now key.now path.now) }
{
    let standing = standing_of(router, state, key, path);
    push_path_line(alloc, text, router, state, key, path)?;
    push_why(text, state, key, path, standing)?;
    push_known(alloc, text, state, key, path)?;
    push_protection(text, router, state, key, path)
}

/// Appends all lines of a tunnel's LSP that has no path.
#[tactic(auto, unfolding(crate::specs::Lsps::pathless_lines))]
fn push_pathless(
    alloc: Global,
    text: &mut String,
    router: &Router,
    state: &State,
    number: u16,
    tunnel: &Tunnel,
) -> Result<(), AllocError>
    ensures { OnOk result (string_bytes text.new ≡ string_bytes text.old ++ pathless_lines router.now state.now (number, tunnel.now)) }
{
    push_head_line(alloc, text, router, number, tunnel)?;
    push_pathless_why(text, router, state, tunnel)?;
    push_asked(text, tunnel.endpoint, Some(&tunnel.attr))?;
    push_route(alloc, text, tunnel.current.route.as_slice())
}

/// Appends all lines of an LSP that has no path, if it is that of a tunnel that begins here.
fn push_if_tunnel(
    alloc: Global,
    text: &mut String,
    router: &Router,
    state: &State,
    key: &Key,
) -> Result<(), AllocError>
    ensures { OnOk result (string_bytes text.new ≡ string_bytes text.old ++ pathless_at router.now state.now key.now) }
{
    let number = key.session.tunnel;
    let Some(tunnel) = state.facts.tunnels.get(&number) else {
        return Ok(());
    };
    if current_key(router, number, tunnel).cmp(key).is_eq() {
        return push_pathless(alloc, text, router, state, number, tunnel);
    }
    Ok(())
}

/// Appends how an LSP stands: nothing where there is neither such a path nor such a tunnel. The only error is that memory ran
/// out.
#[tactic(auto, unfolding(crate::specs::Lsps::lsp_text))]
pub(crate) fn push_lsp_at(
    alloc: Global,
    text: &mut String,
    router: &Router,
    state: &State,
    key: &Key,
) -> Result<(), AllocError>
    ensures { OnOk result (string_bytes text.new ≡ string_bytes text.old ++ lsp_text router.now state.now key.now) }
{
    match state.facts.paths.get(key) {
        Some(path) => push_lsp(alloc, text, router, state, key, path),
        None => push_if_tunnel(alloc, text, router, state, key),
    }
}

/// Appends how the LSPs of a tunnel stand: the one that carries its traffic once it is reserved, and then the one that is to take
/// its place.
fn push_tunnel_lsps(
    alloc: Global,
    text: &mut String,
    router: &Router,
    state: &State,
    number: u16,
    tunnel: &Tunnel,
) -> Result<(), AllocError>
    ensures { OnOk result (string_bytes text.new ≡ string_bytes text.old ++ tunnel_text router.now state.now (number, tunnel.now)) }
{
    let current = current_key(router, number, tunnel);
    push_lsp_at(alloc, text, router, state, &current)?;
    match pending_key(router, number, tunnel) {
        Some(pending) => push_lsp_at(alloc, text, router, state, &pending),
        None => Ok(()),
    }
}

/// How the LSPs of the tunnel of a number stand: nothing where no such tunnel begins here. The only error is that memory ran
/// out.
pub(crate) fn lsps_of_text(
    alloc: Global,
    router: &Router,
    state: &State,
    number: u16,
) -> Result<String, AllocError>
    ensures { IfOk result (λ text. string_bytes text ≡ lsps_of_text router.now state.now number) }
{
    let mut text = String::new(alloc);
    if let Some(tunnel) = state.facts.tunnels.get(&number) {
        push_tunnel_lsps(alloc, &mut text, router, state, number, tunnel)?;
    }
    Ok(text)
}

/// How an LSP stands: nothing where there is neither such a path nor such a tunnel. The only error is that memory ran out.
pub(crate) fn lsp_text(
    alloc: Global,
    router: &Router,
    state: &State,
    key: &Key,
) -> Result<String, AllocError>
    ensures { IfOk result (λ text. string_bytes text ≡ lsp_text router.now state.now key.now) }
{
    let mut text = String::new(alloc);
    push_lsp_at(alloc, &mut text, router, state, key)?;
    Ok(text)
}
