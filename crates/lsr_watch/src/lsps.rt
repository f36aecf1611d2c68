//! What is told of LSPs.
//!
//! Most looks find the same LSPs as before, each at the same place of its table. So a table is walked place by place, and a row is
//! looked for at that place of the other table first.
ghost use Rattle.std.specs.Prelude.{◌≡◌, ◌++◌, OnOk, flat_map, string_bytes};
ghost use Rattle.lsr_watch.specs.Lsps.{back_line, came_lines, down_line, ending_line, ending_words, ends_here, gone_line, is_over, is_tail, is_up, key_words, lost_held, lost_line, lost_lines, lost_tail_line, rate_hint, rate_words, repair_line, repaired_line, repaired_lines, reserved_line, reserved_words, tail_line, up_line, way_words};

use crate::near::get_near;
use lsr_facts::{Key, PathFact, Repair, ResvFact, Role, State};
use lsr_text::push_key;
use std::alloc::AllocError;
use std::fmt::Write;

/// Whether a path ends here, by what the router is on its way.
fn is_tail(role: Role) -> bool
    ensures { result ≡ is_tail role }
{
    match role {
        Role::Tail => true,
        Role::Transit | Role::Head => false,
    }
}

/// Whether the LSP ends here; its path may stand at this place.
fn ends_here(state: &State, place: usize, key: &Key) -> bool
    ensures { result ≡ ends_here state.now key.now }
{
    match get_near(&state.facts.paths, place, key) {
        Some(path) => is_tail(path.role),
        None => false,
    }
}

/// Whether the LSP is reserved, is repaired, or ends here; what is known of it may stand at this place.
#[tactic(auto, unfolding(crate::specs::Lsps::is_up))]
fn is_up_near(state: &State, place: usize, key: &Key) -> bool
    ensures { result ≡ is_up state.now key.now }
{
    get_near(&state.resvs, place, key).is_some()
        || get_near(&state.repairs, place, key).is_some()
        || ends_here(state, place, key)
}

/// Whether the LSP is reserved, is repaired, or ends here.
pub fn is_up(state: &State, key: &Key) -> bool
    ensures { result ≡ is_up state.now key.now }
{
    is_up_near(state, 0, key)
}

/// Whether the LSP runs over the bypass of this number; its repair may stand at this place.
fn is_over(state: &State, place: usize, key: &Key, bypass: u16) -> bool
    ensures { result ≡ is_over state.now key.now bypass }
{
    match get_near(&state.repairs, place, key) {
        Some(repair) => repair.bypass == bypass,
        None => false,
    }
}

/// How many bits a byte has.
const BITS: u64 = 8;

/// The least rate that anyone asks for, other than 0: 1 kbit/s, in bytes per second.
const LEAST_MEANT: u64 = 125;

/// What is told of a lower one.
const LOW_RATE: &str =
    ", less than 1 kbit/s: was its word meant as a decimal number? ./lsr rate 10M prints the word of 10 Mbit/s";

/// What is told of a rate that nobody asks for, as that of the word `10000000`.
#[tactic(auto, unfolding(crate::specs::Lsps::rate_hint))]
fn rate_hint(rate: u64) -> &'static str
    ensures { result.now ≡ rate_hint rate }
{
    if rate == 0 {
        ""
    } else if rate < LEAST_MEANT {
        LOW_RATE
    } else {
        ""
    }
}

/// Appends a rate in bytes and in bits per second, and what is told of one that nobody asks for; or that there is none.
pub(crate) fn push_rate(text: &mut String, rate: Option<u64>) -> Result<(), AllocError>
    ensures { OnOk result (string_bytes text.new ≡ string_bytes text.old ++ rate_words rate) }
{
    match rate {
        Some(rate) => {
            let bits = rate.saturating_mul(BITS);
            let hint = rate_hint(rate);
            write!(text, "{rate} ({bits} bit/s){hint}")
        }
        None => text.push_str("none"),
    }
}

/// Appends which link is reserved and at which rate, and ends the line.
#[tactic(auto, unfolding(crate::specs::Lsps::reserved_words))]
fn push_reserved(text: &mut String, fact: &ResvFact) -> Result<(), AllocError>
    ensures { OnOk result (string_bytes text.new ≡ string_bytes text.old ++ reserved_words fact.now) }
{
    let link = fact.link;
    write!(text, " link {link} rate ")?;
    push_rate(text, fact.flowspec.rate().ok())?;
    text.push_str("\n")
}

/// Appends which LSP is reserved, on which link and at which rate, and ends the line.
#[tactic(auto, unfolding(crate::specs::Lsps::way_words))]
fn push_way(text: &mut String, row: &(Key, ResvFact)) -> Result<(), AllocError>
    ensures { OnOk result (string_bytes text.new ≡ string_bytes text.old ++ way_words row.now) }
{
    push_key(text, &row.0)?;
    push_reserved(text, &row.1)
}

/// Appends that an LSP is reserved.
fn push_up(text: &mut String, row: &(Key, ResvFact)) -> Result<(), AllocError>
    ensures { OnOk result (string_bytes text.new ≡ string_bytes text.old ++ up_line row.now) }
{
    text.push_str("lsp up: ")?;
    push_way(text, row)
}

/// Appends that an LSP is reserved again.
fn push_back(text: &mut String, row: &(Key, ResvFact)) -> Result<(), AllocError>
    ensures { OnOk result (string_bytes text.new ≡ string_bytes text.old ++ back_line row.now) }
{
    text.push_str("lsp restored to its own path: ")?;
    push_way(text, row)
}

/// Appends that an LSP is reserved, if it wasn't.
fn push_if_reserved(
    text: &mut String,
    before: &State,
    place: usize,
    row: &(Key, ResvFact),
) -> Result<(), AllocError>
    ensures { OnOk result (string_bytes text.new ≡ string_bytes text.old ++ reserved_line before.now row.now) }
{
    if get_near(&before.resvs, place, &row.0).is_some() {
        return Ok(());
    }
    if before.repairs.contains_key(&row.0) {
        push_back(text, row)
    } else {
        push_up(text, row)
    }
}

/// Appends of which LSP this router is the egress, and ends the line.
#[tactic(auto, unfolding(crate::specs::Lsps::ending_words))]
fn push_ending(text: &mut String, key: &Key) -> Result<(), AllocError>
    ensures { OnOk result (string_bytes text.new ≡ string_bytes text.old ++ ending_words key.now) }
{
    push_key(text, key)?;
    text.push_str(" (egress here)\n")
}

/// Appends that a path came that ends here.
fn push_tail(text: &mut String, key: &Key) -> Result<(), AllocError>
    ensures { OnOk result (string_bytes text.new ≡ string_bytes text.old ++ tail_line key.now) }
{
    text.push_str("path received: ")?;
    push_ending(text, key)
}

/// Appends that a path went that ended here.
fn push_gone(text: &mut String, key: &Key) -> Result<(), AllocError>
    ensures { OnOk result (string_bytes text.new ≡ string_bytes text.old ++ gone_line key.now) }
{
    text.push_str("path removed: ")?;
    push_ending(text, key)
}

/// Appends that a path came, if it ends here and didn't.
fn push_if_ending(
    text: &mut String,
    before: &State,
    place: usize,
    row: &(Key, PathFact),
) -> Result<(), AllocError>
    ensures { OnOk result (string_bytes text.new ≡ string_bytes text.old ++ ending_line before.now row.now) }
{
    if is_tail(row.1.role) && !ends_here(before, place, &row.0) {
        return push_tail(text, &row.0);
    }
    Ok(())
}

/// Appends the key of an LSP, and ends the line.
#[tactic(auto, unfolding(crate::specs::Lsps::key_words))]
fn push_key_words(text: &mut String, key: &Key) -> Result<(), AllocError>
    ensures { OnOk result (string_bytes text.new ≡ string_bytes text.old ++ key_words key.now) }
{
    push_key(text, key)?;
    text.push_str("\n")
}

/// Appends that an LSP went down.
fn push_down(text: &mut String, key: &Key) -> Result<(), AllocError>
    ensures { OnOk result (string_bytes text.new ≡ string_bytes text.old ++ down_line key.now) }
{
    text.push_str("lsp down: ")?;
    push_key_words(text, key)
}

/// Appends that an LSP went down, if it isn't up any more.
fn push_if_lost(text: &mut String, after: &State, place: usize, key: &Key) -> Result<(), AllocError>
    ensures { OnOk result (string_bytes text.new ≡ string_bytes text.old ++ lost_line after.now key.now) }
{
    if is_up_near(after, place, key) {
        return Ok(());
    }
    push_down(text, key)
}

/// Appends that a path went, if it ended here and its LSP isn't up any more.
fn push_if_lost_tail(
    text: &mut String,
    after: &State,
    place: usize,
    row: &(Key, PathFact),
) -> Result<(), AllocError>
    ensures { OnOk result (string_bytes text.new ≡ string_bytes text.old ++ lost_tail_line after.now row.now) }
{
    if is_tail(row.1.role) && !is_up_near(after, place, &row.0) {
        return push_gone(text, &row.0);
    }
    Ok(())
}

/// Appends that an LSP runs over a bypass.
fn push_repair(text: &mut String, key: &Key, bypass: u16) -> Result<(), AllocError>
    ensures { OnOk result (string_bytes text.new ≡ string_bytes text.old ++ repair_line key.now bypass) }
{
    write!(text, "lsp repaired over bypass {bypass}: ")?;
    push_key_words(text, key)
}

/// Appends that an LSP runs over a bypass, if it didn't run over this one.
fn push_if_repaired(
    text: &mut String,
    before: &State,
    place: usize,
    row: &(Key, Repair),
) -> Result<(), AllocError>
    ensures { OnOk result (string_bytes text.new ≡ string_bytes text.old ++ repaired_line before.now row.now) }
{
    if is_over(before, place, &row.0, row.1.bypass) {
        return Ok(());
    }
    push_repair(text, &row.0, row.1.bypass)
}

/// Appends the lines of the LSPs that are reserved, and weren't.
fn push_all_reserved(
    text: &mut String,
    before: &State,
    rows: &[(Key, ResvFact)],
) -> Result<(), AllocError>
    ensures { OnOk result (string_bytes text.new ≡ string_bytes text.old ++ flat_map (reserved_line before.now) rows.now) }
{
    for place in 0..rows.len() {
        push_if_reserved(text, before, place, &rows[place])?;
    }
    Ok(())
}

/// Appends the lines of the LSPs that end here, and didn't.
fn push_all_ending(
    text: &mut String,
    before: &State,
    rows: &[(Key, PathFact)],
) -> Result<(), AllocError>
    ensures { OnOk result (string_bytes text.new ≡ string_bytes text.old ++ flat_map (ending_line before.now) rows.now) }
{
    for place in 0..rows.len() {
        push_if_ending(text, before, place, &rows[place])?;
    }
    Ok(())
}

/// Appends the lines of the LSPs that came up, or are back on their own path.
#[tactic(auto, unfolding(crate::specs::Lsps::came_lines))]
pub(crate) fn push_came(text: &mut String, before: &State, after: &State) -> Result<(), AllocError>
    ensures { OnOk result (string_bytes text.new ≡ string_bytes text.old ++ came_lines before.now after.now) }
{
    push_all_reserved(text, before, after.resvs.as_slice())?;
    push_all_ending(text, before, after.facts.paths.as_slice())
}

/// Appends the lines of those LSPs of these rows that aren't up any more.
fn push_all_lost<V>(text: &mut String, after: &State, rows: &[(Key, V)]) -> Result<(), AllocError>
    ensures { OnOk result (string_bytes text.new ≡ string_bytes text.old ++ flat_map (λ row. lost_line after.now row.0) rows.now) }
{
    for place in 0..rows.len() {
        push_if_lost(text, after, place, &rows[place].0)?;
    }
    Ok(())
}

/// Appends the lines of the LSPs of these paths that ended here and aren't up any more.
fn push_all_lost_tails(
    text: &mut String,
    after: &State,
    rows: &[(Key, PathFact)],
) -> Result<(), AllocError>
    ensures { OnOk result (string_bytes text.new ≡ string_bytes text.old ++ flat_map (lost_tail_line after.now) rows.now) }
{
    for place in 0..rows.len() {
        push_if_lost_tail(text, after, place, &rows[place])?;
    }
    Ok(())
}

/// Appends the lines of the LSPs that were reserved or repaired and went down.
#[tactic(auto, unfolding(crate::specs::Lsps::lost_held))]
fn push_lost_held(text: &mut String, before: &State, after: &State) -> Result<(), AllocError>
    ensures { OnOk result (string_bytes text.new ≡ string_bytes text.old ++ lost_held before.now after.now) }
{
    push_all_lost(text, after, before.resvs.as_slice())?;
    push_all_lost(text, after, before.repairs.as_slice())
}

/// Appends the lines of the LSPs that went down.
#[tactic(auto, unfolding(crate::specs::Lsps::lost_lines))]
pub(crate) fn push_lost(text: &mut String, before: &State, after: &State) -> Result<(), AllocError>
    ensures { OnOk result (string_bytes text.new ≡ string_bytes text.old ++ lost_lines before.now after.now) }
{
    push_lost_held(text, before, after)?;
    push_all_lost_tails(text, after, before.facts.paths.as_slice())
}

/// Appends the lines of those LSPs of these rows that didn't run over these bypasses.
fn push_all_repaired(
    text: &mut String,
    before: &State,
    rows: &[(Key, Repair)],
) -> Result<(), AllocError>
    ensures { OnOk result (string_bytes text.new ≡ string_bytes text.old ++ flat_map (repaired_line before.now) rows.now) }
{
    for place in 0..rows.len() {
        push_if_repaired(text, before, place, &rows[place])?;
    }
    Ok(())
}

/// Appends the lines of the LSPs that are repaired, or repaired over another bypass.
#[tactic(auto, unfolding(crate::specs::Lsps::repaired_lines))]
pub(crate) fn push_repaired(
    text: &mut String,
    before: &State,
    after: &State,
) -> Result<(), AllocError>
    ensures { OnOk result (string_bytes text.new ≡ string_bytes text.old ++ repaired_lines before.now after.now) }
{
    push_all_repaired(text, before, after.repairs.as_slice())
}
