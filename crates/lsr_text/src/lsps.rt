//! What `show path KEY` and `show resv KEY` print: one LSP whole.
ghost use Rattle.std.specs.Option.{option_copied};
ghost use Rattle.std.specs.Prelude.{◌≡◌, ◌++◌, IfOk, OnOk, flat_map, string_bytes};
ghost use Rattle.lsr_text.specs.Lsps.{asked_line, assigned_line, attr_at, attr_line, backup_words, called_words, carried_lines, counted_line, fast_reroute_line, from_words, given_word, hop_lines, hop_words, is_preempted, is_preempting, labels_line, left_words, limit_words, next_line, origin_line, origin_lines, out_words, passed_line, path_head, path_lines, path_lsp_text, preempted_line, preempting_line, priority_words, protection_lines, rate_line, rate_word, repair_line, repair_words, reserved_lines, resv_head, resv_lines, resv_lsp_text, rival_key, rival_line, rival_lines, routed_lines, said_line, used_line, via_words};
ghost use Rattle.object_text.specs.Traffic.{rate_bytes};

use crate::routes::{push_flags, push_name, push_record, push_route};
use crate::rows::style_text;
use crate::shown::{push_key, role_word};
use lsr_facts::{
    Assignment, Key, Link, Origin, PathFact, Repair, ResvFact, Role, Router, State, Via,
    holding_of, setup_of,
};
use object_text::rate_bytes;
use rsvp_bodies::RateWord;
use rsvp_contents::{Attr, FastReroute, Hop};
use std::alloc::{AllocError, Global};
use std::fmt::Write;
use std::net::Ipv4Addr;

/// Appends how the Paths of an origin come: over a link, or through stacks of labels.
fn push_via(text: &mut String, via: Via) -> Result<(), AllocError>
    ensures { OnOk result (string_bytes text.new ≡ string_bytes text.old ++ via_words via) }
{
    match via {
        Via::Link(link) => write!(text, "link {link}"),
        Via::Stack => text.push_str("stack"),
    }
}

/// Appends in how many milliseconds what expires then counts no more, and ends the line.
#[tactic(auto, unfolding(crate::specs::Lsps::left_words))]
fn push_left(text: &mut String, moment: u64, expiry: u64) -> Result<(), AllocError>
    ensures { OnOk result (string_bytes text.new ≡ string_bytes text.old ++ left_words moment expiry) }
{
    let left = expiry.saturating_sub(moment);
    write!(text, " expires {left} ms\n")
}

/// Appends who sends the Paths of an origin.
#[tactic(auto, unfolding(crate::specs::Lsps::from_words))]
fn push_from(text: &mut String, sender: Ipv4Addr) -> Result<(), AllocError>
    ensures { OnOk result (string_bytes text.new ≡ string_bytes text.old ++ from_words sender) }
{
    write!(text, "  from {sender} ")
}

/// Appends from which hop they come.
#[tactic(auto, unfolding(crate::specs::Lsps::hop_words))]
fn push_hop(text: &mut String, hop: Hop) -> Result<(), AllocError>
    ensures { OnOk result (string_bytes text.new ≡ string_bytes text.old ++ hop_words hop) }
{
    let address = hop.address;
    let handle = hop.interface;
    write!(text, " hop {address} lih {handle}")
}

/// Appends the line of an origin, at this moment: who sends the Paths, over which link and from which hop, and in how many
/// milliseconds they count no more.
fn push_origin(text: &mut String, moment: u64, row: &(Ipv4Addr, Origin)) -> Result<(), AllocError>
    ensures { OnOk result (string_bytes text.new ≡ string_bytes text.old ++ origin_line moment row.now) }
{
    let (sender, origin) = row;
    push_from(text, *sender)?;
    push_via(text, origin.via)?;
    push_hop(text, origin.hop)?;
    push_left(text, moment, origin.expiry)
}

/// Appends the lines of the origins.
fn push_origins(
    text: &mut String,
    moment: u64,
    rows: &[(Ipv4Addr, Origin)],
) -> Result<(), AllocError>
    ensures { OnOk result (string_bytes text.new ≡ string_bytes text.old ++ flat_map (origin_line moment) rows.now) }
{
    for row in rows {
        push_origin(text, moment, row)?;
    }
    Ok(())
}

/// Appends the line of the hop after this router: over this link, which is the router's; none where the LSP ends here.
fn push_next(text: &mut String, number: u16, link: Option<&Link>) -> Result<(), AllocError>
    ensures { OnOk result (string_bytes text.new ≡ string_bytes text.old ++ next_line number (option_copied link.entry)) }
{
    match link {
        Some(link) => {
            let hop = link.peer;
            let router = link.peer_router;
            write!(text, "  to link {number} hop {hop} router {router}\n")
        }
        None => text.push_str("  to none\n"),
    }
}

/// Appends the lines of the hops before this router, or that there is none.
fn push_before(
    text: &mut String,
    moment: u64,
    rows: &[(Ipv4Addr, Origin)],
) -> Result<(), AllocError>
    ensures { OnOk result (string_bytes text.new ≡ string_bytes text.old ++ origin_lines moment rows.now) }
{
    match rows {
        [] => text.push_str("  from none\n"),
        rows => push_origins(text, moment, rows),
    }
}

/// Appends the lines of the hops before and after this router.
#[tactic(auto, unfolding(crate::specs::Lsps::hop_lines))]
fn push_hops(
    text: &mut String,
    router: &Router,
    moment: u64,
    fact: &PathFact,
) -> Result<(), AllocError>
    ensures { OnOk result (string_bytes text.new ≡ string_bytes text.old ++ hop_lines router.now moment fact.now) }
{
    push_before(text, moment, fact.origins.as_slice())?;
    push_next(text, fact.out_link, router.links.get(&fact.out_link))
}

/// Appends a rate in bytes per second, `none` where the word is none, and the digits of the word.
#[tactic(auto, unfolding(crate::specs::Lsps::rate_word))]
fn push_rate_word(
    alloc: Global,
    text: &mut String,
    rate: Option<u64>,
    word: &[u8],
) -> Result<(), AllocError>
    ensures { OnOk result (string_bytes text.new ≡ string_bytes text.old ++ rate_word rate word.now) }
{
    let digits = hex::encode(alloc, word)?;
    match rate {
        Some(rate) => write!(text, "rate {rate} word {digits}"),
        None => write!(text, "rate none word {digits}"),
    }
}

/// Appends the line of the rate that a description of traffic says.
#[tactic(auto, unfolding(crate::specs::Lsps::rate_line))]
fn push_rate(
    alloc: Global,
    text: &mut String,
    rate: Option<u64>,
    body: &[u8],
) -> Result<(), AllocError>
    ensures { OnOk result (string_bytes text.new ≡ string_bytes text.old ++ rate_line rate body.now) }
{
    text.push_str("  ")?;
    push_rate_word(alloc, text, rate, rate_bytes(body))?;
    text.push_str("\n")
}

/// Appends the word that a line begins with, and priorities.
#[tactic(auto, unfolding(crate::specs::Lsps::priority_words))]
fn push_priorities(text: &mut String, word: &str, setup: u8, hold: u8) -> Result<(), AllocError>
    ensures { OnOk result (string_bytes text.new ≡ string_bytes text.old ++ priority_words word.now setup hold) }
{
    write!(text, "  {word} setup {setup} hold {hold}")
}

/// Appends the name that attributes say, and ends the line.
#[tactic(auto, unfolding(crate::specs::Lsps::called_words))]
fn push_attr_name(alloc: Global, text: &mut String, attr: &Attr) -> Result<(), AllocError>
    ensures { OnOk result (string_bytes text.new ≡ string_bytes text.old ++ called_words attr.now.name) }
{
    text.push_str(" name ")?;
    push_name(alloc, text, attr.name.as_slice())?;
    text.push_str("\n")
}

/// Appends the line of attributes: priorities as they came, flags and name.
#[tactic(auto, unfolding(crate::specs::Lsps::said_line, crate::specs::Lsps::set_words))]
fn push_said(alloc: Global, text: &mut String, attr: &Attr) -> Result<(), AllocError>
    ensures { OnOk result (string_bytes text.new ≡ string_bytes text.old ++ said_line attr.now) }
{
    push_priorities(text, "attributes", attr.setup, attr.hold)?;
    push_flags(alloc, text, attr.flags)?;
    push_attr_name(alloc, text, attr)
}

/// Appends the line of the attributes, or that there are none.
fn push_attr(alloc: Global, text: &mut String, attr: &Option<Attr>) -> Result<(), AllocError>
    ensures { OnOk result (string_bytes text.new ≡ string_bytes text.old ++ attr_line attr.now) }
{
    match attr {
        Some(attr) => push_said(alloc, text, attr),
        None => text.push_str("  attributes none\n"),
    }
}

/// Appends the line of the priorities as they count.
#[tactic(auto, unfolding(crate::specs::Lsps::counting_line))]
fn push_counted(text: &mut String, attr: Option<&Attr>) -> Result<(), AllocError>
    ensures { OnOk result (string_bytes text.new ≡ string_bytes text.old ++ counted_line (option_copied attr.entry)) }
{
    push_priorities(text, "priorities", setup_of(attr), holding_of(attr))?;
    text.push_str("\n")
}

/// Appends how many hops a backup may have.
#[tactic(auto, unfolding(crate::specs::Lsps::limit_words))]
fn push_limit(text: &mut String, hops: u8) -> Result<(), AllocError>
    ensures { OnOk result (string_bytes text.new ≡ string_bytes text.old ++ limit_words hops) }
{
    write!(text, " hops {hops}")
}

/// Appends the bandwidth of a backup, and ends the line.
#[tactic(auto, unfolding(crate::specs::Lsps::backup_words))]
fn push_backup(alloc: Global, text: &mut String, word: RateWord) -> Result<(), AllocError>
    ensures { OnOk result (string_bytes text.new ≡ string_bytes text.old ++ backup_words word) }
{
    text.push_str(" ")?;
    push_rate_word(alloc, text, word.whole(), &word.to_bits().to_be_bytes())?;
    text.push_str("\n")
}

/// Appends the line of what a FAST_REROUTE asks for (RFC 4090, 4.1).
#[tactic(auto, unfolding(crate::specs::Lsps::asked_line, crate::specs::Lsps::set_words))]
fn push_asked(alloc: Global, text: &mut String, asked: FastReroute) -> Result<(), AllocError>
    ensures { OnOk result (string_bytes text.new ≡ string_bytes text.old ++ asked_line asked) }
{
    push_priorities(text, "reroute", asked.setup, asked.hold)?;
    push_limit(text, asked.hop_limit)?;
    push_flags(alloc, text, asked.flags)?;
    push_backup(alloc, text, asked.bandwidth)
}

/// Appends the line of the protection that is asked for by a FAST_REROUTE, or that there is none.
fn push_fast_reroute(
    alloc: Global,
    text: &mut String,
    asked: Option<FastReroute>,
) -> Result<(), AllocError>
    ensures { OnOk result (string_bytes text.new ≡ string_bytes text.old ++ fast_reroute_line asked) }
{
    match asked {
        Some(asked) => push_asked(alloc, text, asked),
        None => text.push_str("  reroute none\n"),
    }
}

/// Appends the lines of what the LSP is to carry, and of what is asked for it.
#[tactic(auto, unfolding(crate::specs::Lsps::carried_lines))]
fn push_carried(alloc: Global, text: &mut String, fact: &PathFact) -> Result<(), AllocError>
    ensures { OnOk result (string_bytes text.new ≡ string_bytes text.old ++ carried_lines fact.now) }
{
    let protocol = fact.label_request.l3pid;
    write!(text, "  protocol 0x{protocol:x}\n")?;
    push_rate(alloc, text, fact.tspec.rate().ok(), fact.tspec.as_slice())?;
    push_attr(alloc, text, &fact.attr)?;
    push_counted(text, fact.attr.as_ref())?;
    push_fast_reroute(alloc, text, fact.fast_reroute)
}

/// Appends the line of how many objects are passed on unread.
#[tactic(auto, unfolding(crate::specs::Lsps::passed_line))]
fn push_passed(text: &mut String, count: usize) -> Result<(), AllocError>
    ensures { OnOk result (string_bytes text.new ≡ string_bytes text.old ++ passed_line count) }
{
    write!(text, "  passed {count}\n")
}

/// Appends the lines of the route that the Path came with, of what is left of it, of the route that it took, and of the
/// objects that are passed on unread.
#[tactic(auto, unfolding(crate::specs::Lsps::routed_lines))]
fn push_routed(alloc: Global, text: &mut String, fact: &PathFact) -> Result<(), AllocError>
    ensures { OnOk result (string_bytes text.new ≡ string_bytes text.old ++ routed_lines fact.now) }
{
    push_route(alloc, text, "given", &fact.given)?;
    push_route(alloc, text, "rest", &fact.rest)?;
    push_record(alloc, text, &fact.recorded)?;
    push_passed(text, fact.passing.as_slice().len())
}

/// Appends the bypass of a repair, the link that was lost, and the label at the bypass's end.
#[tactic(auto, unfolding(crate::specs::Lsps::repair_words))]
fn push_repair_words(text: &mut String, repair: &Repair) -> Result<(), AllocError>
    ensures { OnOk result (string_bytes text.new ≡ string_bytes text.old ++ repair_words repair.now) }
{
    let bypass = repair.bypass;
    let link = repair.resv.link;
    let label = repair.resv.label;
    write!(text, "  repair bypass {bypass} link {link} label {label}")
}

/// Appends the line of a repair that is in use, at this moment.
#[tactic(auto, unfolding(crate::specs::Lsps::used_line))]
fn push_used(text: &mut String, moment: u64, repair: &Repair) -> Result<(), AllocError>
    ensures { OnOk result (string_bytes text.new ≡ string_bytes text.old ++ used_line moment repair.now) }
{
    push_repair_words(text, repair)?;
    push_left(text, moment, repair.resv.expiry)
}

/// Appends the line of the repair that an LSP runs over, at this moment, or that there is none.
fn push_repair(text: &mut String, moment: u64, repair: Option<&Repair>) -> Result<(), AllocError>
    ensures { OnOk result (string_bytes text.new ≡ string_bytes text.old ++ repair_line moment (option_copied repair.entry)) }
{
    match repair {
        Some(repair) => push_used(text, moment, repair),
        None => text.push_str("  repair none\n"),
    }
}

/// Appends the line of what an LSP is promised of a bypass, in bytes per second, or that it is promised nothing.
fn push_assigned(text: &mut String, given: Option<&Assignment>) -> Result<(), AllocError>
    ensures { OnOk result (string_bytes text.new ≡ string_bytes text.old ++ assigned_line (option_copied given.entry)) }
{
    match given {
        Some(given) => {
            let bypass = given.bypass;
            let rate = given.rate;
            write!(text, "  assigned bypass {bypass} rate {rate}\n")
        }
        None => text.push_str("  assigned none\n"),
    }
}

/// Appends the lines of the repair that an LSP runs over, and of what it is promised for repairs.
#[tactic(auto, unfolding(crate::specs::Lsps::protection_lines))]
fn push_protection(
    text: &mut String,
    state: &State,
    key: &Key,
    repair: Option<&Repair>,
) -> Result<(), AllocError>
    ensures { OnOk result (string_bytes text.new ≡ string_bytes text.old ++ protection_lines state.now key.now (option_copied repair.entry)) }
{
    push_repair(text, state.facts.moment, repair)?;
    push_assigned(text, state.assignments.get(key))
}

/// Appends the first line of a path.
#[tactic(auto, unfolding(crate::specs::Lsps::path_head))]
fn push_path_head(text: &mut String, key: &Key, role: Role) -> Result<(), AllocError>
    ensures { OnOk result (string_bytes text.new ≡ string_bytes text.old ++ path_head key.now role) }
{
    let role = role_word(role);
    text.push_str("path ")?;
    push_key(text, key)?;
    write!(text, " {role}\n")
}

/// Appends all lines of a path.
#[tactic(auto, unfolding(crate::specs::Lsps::path_lines))]
fn push_path_lsp(
    alloc: Global,
    text: &mut String,
    router: &Router,
    state: &State,
    key: &Key,
    fact: &PathFact,
) -> Result<(), AllocError>
    ensures { OnOk result (string_bytes text.new ≡ string_bytes text.old ++ path_lines router.now state.now key.now fact.now) }
{
    push_path_head(text, key, fact.role)?;
    push_hops(text, router, state.facts.moment, fact)?;
    push_carried(alloc, text, fact)?;
    push_routed(alloc, text, fact)?;
    push_protection(text, state, key, state.repairs.get(key))
}

/// All that a router knows of the path of an LSP: nothing where there is no path. The only error is that memory ran out.
pub fn path_lsp_text(
    alloc: Global,
    router: &Router,
    state: &State,
    key: &Key,
) -> Result<String, AllocError>
    ensures { IfOk result (λ text. string_bytes text ≡ path_lsp_text router.now state.now key.now) }
{
    let mut text = String::new(alloc);
    if let Some(fact) = state.facts.paths.get(key) {
        push_path_lsp(alloc, &mut text, router, state, key, fact)?;
    }
    Ok(text)
}

/// The attributes of an LSP's path, if it has some.
fn attr_at<'a>(state: &'a State, key: &Key) -> Option<&'a Attr>
    ensures { option_copied result ≡ attr_at state.now key.now }
{
    state.facts.paths.get(key)?.attr.as_ref()
}

/// Appends a label, or that there is none.
fn push_given(text: &mut String, given: Option<&u32>) -> Result<(), AllocError>
    ensures { OnOk result (string_bytes text.new ≡ string_bytes text.old ++ given_word (option_copied given.entry)) }
{
    match given {
        Some(given) => write!(text, "{given}"),
        None => text.push_str("none"),
    }
}

/// Appends the label that the next hop gave.
#[tactic(auto, unfolding(crate::specs::Lsps::out_words))]
fn push_out(text: &mut String, out: u32) -> Result<(), AllocError>
    ensures { OnOk result (string_bytes text.new ≡ string_bytes text.old ++ out_words out) }
{
    write!(text, "  label out {out} in ")
}

/// Appends the line of the labels of an LSP: the one that its next hop gave, and the one that this router gave, `none` where
/// it begins here.
#[tactic(auto, unfolding(crate::specs::Lsps::labels_line))]
fn push_labels(text: &mut String, out: u32, given: Option<&u32>) -> Result<(), AllocError>
    ensures { OnOk result (string_bytes text.new ≡ string_bytes text.old ++ labels_line out (option_copied given.entry)) }
{
    push_out(text, out)?;
    push_given(text, given)?;
    text.push_str("\n")
}

/// Appends the first line of a reservation, and that of the link that it came over.
#[tactic(auto, unfolding(crate::specs::Lsps::resv_head))]
fn push_resv_head(text: &mut String, key: &Key, fact: &ResvFact) -> Result<(), AllocError>
    ensures { OnOk result (string_bytes text.new ≡ string_bytes text.old ++ resv_head key.now fact.now) }
{
    let style = style_text(fact.style);
    let link = fact.link;
    text.push_str("resv ")?;
    push_key(text, key)?;
    write!(text, " {style}\n  link {link}\n")
}

/// Appends the lines of what is reserved: style, link, rate, labels and priorities.
#[tactic(auto, unfolding(crate::specs::Lsps::reserved_lines))]
fn push_reserved(
    alloc: Global,
    text: &mut String,
    state: &State,
    key: &Key,
    fact: &ResvFact,
) -> Result<(), AllocError>
    ensures { OnOk result (string_bytes text.new ≡ string_bytes text.old ++ reserved_lines state.now key.now fact.now) }
{
    push_resv_head(text, key, fact)?;
    push_rate(
        alloc,
        text,
        fact.flowspec.rate().ok(),
        fact.flowspec.as_slice(),
    )?;
    push_labels(text, fact.label, state.labels.get(key))?;
    push_counted(text, attr_at(state, key))
}

/// Appends all lines of a reservation but those of a repair and of other LSPs.
#[tactic(auto, unfolding(crate::specs::Lsps::resv_lines))]
fn push_resv_lsp(
    alloc: Global,
    text: &mut String,
    state: &State,
    key: &Key,
    fact: &ResvFact,
) -> Result<(), AllocError>
    ensures { OnOk result (string_bytes text.new ≡ string_bytes text.old ++ resv_lines state.now key.now fact.now) }
{
    push_reserved(alloc, text, state, key, fact)?;
    push_record(alloc, text, &fact.recorded)?;
    push_passed(text, fact.passing.as_slice().len())?;
    text.push_str(" ")?;
    push_left(text, state.facts.moment, fact.expiry)
}

/// Whether an LSP has a reservation on the link that is kept at a priority that yields to this setup priority.
fn is_preempted(state: &State, link: u16, setup: u8, row: &(Key, ResvFact)) -> bool
    ensures { result ≡ is_preempted state.now link setup row.now }
{
    row.1.link == link && setup < holding_of(attr_at(state, &row.0))
}

/// Whether an LSP has a reservation on the link, and a setup priority that takes what is kept at this one.
fn is_preempting(state: &State, link: u16, holding: u8, row: &(Key, ResvFact)) -> bool
    ensures { result ≡ is_preempting state.now link holding row.now }
{
    row.1.link == link && setup_of(attr_at(state, &row.0)) < holding
}

/// Appends the key of another LSP, and ends the line.
#[tactic(auto, unfolding(crate::specs::Lsps::rival_key))]
fn push_rival_key(text: &mut String, key: &Key) -> Result<(), AllocError>
    ensures { OnOk result (string_bytes text.new ≡ string_bytes text.old ++ rival_key key.now) }
{
    push_key(text, key)?;
    text.push_str("\n")
}

/// Appends the line of another LSP after these words.
#[tactic(auto, unfolding(crate::specs::Lsps::rival_line))]
fn push_rival(text: &mut String, words: &str, key: &Key) -> Result<(), AllocError>
    ensures { OnOk result (string_bytes text.new ≡ string_bytes text.old ++ rival_line words.now key.now) }
{
    text.push_str(words)?;
    push_rival_key(text, key)
}

/// Appends the line of another LSP, if a reservation on the link takes bandwidth from it.
fn push_preempted(
    text: &mut String,
    state: &State,
    link: u16,
    setup: u8,
    row: &(Key, ResvFact),
) -> Result<(), AllocError>
    ensures { OnOk result (string_bytes text.new ≡ string_bytes text.old ++ preempted_line state.now link setup row.now) }
{
    if is_preempted(state, link, setup, row) {
        return push_rival(text, "  preempts ", &row.0);
    }
    Ok(())
}

/// Appends the line of another LSP, if it takes bandwidth from a reservation on the link.
fn push_preempting(
    text: &mut String,
    state: &State,
    link: u16,
    holding: u8,
    row: &(Key, ResvFact),
) -> Result<(), AllocError>
    ensures { OnOk result (string_bytes text.new ≡ string_bytes text.old ++ preempting_line state.now link holding row.now) }
{
    if is_preempting(state, link, holding, row) {
        return push_rival(text, "  preempted by ", &row.0);
    }
    Ok(())
}

/// Appends the lines of the LSPs on the link of a reservation that it takes bandwidth from.
fn push_all_preempted(
    text: &mut String,
    state: &State,
    link: u16,
    setup: u8,
) -> Result<(), AllocError>
    ensures { OnOk result (string_bytes text.new ≡ string_bytes text.old ++ flat_map (preempted_line state.now link setup) state.now.resvs) }
{
    for row in state.resvs.as_slice() {
        push_preempted(text, state, link, setup, row)?;
    }
    Ok(())
}

/// Appends the lines of the LSPs on the link of a reservation that take its bandwidth.
fn push_all_preempting(
    text: &mut String,
    state: &State,
    link: u16,
    holding: u8,
) -> Result<(), AllocError>
    ensures { OnOk result (string_bytes text.new ≡ string_bytes text.old ++ flat_map (preempting_line state.now link holding) state.now.resvs) }
{
    for row in state.resvs.as_slice() {
        push_preempting(text, state, link, holding, row)?;
    }
    Ok(())
}

/// Appends the lines of the LSPs that take bandwidth from each other and from this one, as far as their priorities say.
#[tactic(auto, unfolding(crate::specs::Lsps::rival_lines))]
fn push_rivals(text: &mut String, state: &State, key: &Key, link: u16) -> Result<(), AllocError>
    ensures { OnOk result (string_bytes text.new ≡ string_bytes text.old ++ rival_lines state.now key.now link) }
{
    let attr = attr_at(state, key);
    push_all_preempted(text, state, link, setup_of(attr))?;
    push_all_preempting(text, state, link, holding_of(attr))
}

/// All that a router knows of the reservation of an LSP, or of the one that it is repaired for: nothing where there is none.
/// The only error is that memory ran out.
pub fn resv_lsp_text(alloc: Global, state: &State, key: &Key) -> Result<String, AllocError>
    ensures { IfOk result (λ text. string_bytes text ≡ resv_lsp_text state.now key.now) }
{
    let mut text = String::new(alloc);
    if let Some(fact) = state.resvs.get(key) {
        push_resv_lsp(alloc, &mut text, state, key, fact)?;
        push_protection(&mut text, state, key, None)?;
        push_rivals(&mut text, state, key, fact.link)?;
    } else if let Some(repair) = state.repairs.get(key) {
        push_resv_lsp(alloc, &mut text, state, key, &repair.resv)?;
        push_protection(&mut text, state, key, Some(repair))?;
    }
    Ok(text)
}
