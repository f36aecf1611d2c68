//! What `show summary` prints: how much there is of everything, and how much there may be.
ghost use Rattle.std.specs.Prelude.{◌≡◌, ◌++◌, OnOk, count_by, string_bytes};
ghost use Rattle.lsr_text.specs.Summary.{assigned_line, counts_text, has_up, is_near, label_room, labels_lines, limited_line, links_line, lsps_lines, limit_words, reserved_line, tables_lines};

use lsr_facts::limits::{MAX_BYPASSES, MAX_LSPS, MAX_ROUTES, MAX_TUNNELS};
use lsr_facts::{LabelRange, Router, State};
use std::alloc::AllocError;
use std::fmt::Write;

/// Of how many tenths of its limit on something is near it.
const NEAR_TENTHS: u128 = 9;
/// The tenths of the whole.
const TENTHS: u128 = 10;

/// Whether it is at least nine tenths of its limit.
fn is_near(count: u64, limit: u64) -> bool
    ensures { result ≡ is_near count limit }
{
    u128::from(limit) * NEAR_TENTHS <= u128::from(count) * TENTHS
}

/// Appends how much there is and its limit, with a mark where it is near that.
#[tactic(auto, unfolding(crate::specs::Summary::limit_words))]
fn push_limited(text: &mut String, count: u64, limit: u64) -> Result<(), AllocError>
    ensures { OnOk result (string_bytes text.new ≡ string_bytes text.old ++ limit_words count limit) }
{
    let mark = if is_near(count, limit) { " near" } else { "" };
    write!(text, "{count} of {limit}{mark}\n")
}

/// Appends the line of things that have a limit.
#[tactic(auto, unfolding(crate::specs::Summary::limited_line))]
fn push_counted(text: &mut String, name: &str, count: u64, limit: u64) -> Result<(), AllocError>
    ensures { OnOk result (string_bytes text.new ≡ string_bytes text.old ++ limited_line name.now count limit) }
{
    write!(text, "{name} ")?;
    push_limited(text, count, limit)
}

/// How many links are up.
fn count_up(links: &[(u16, bool)]) -> usize
    ensures { result ≡ count_by has_up links.now }
{
    links.iter().filter(|link| link.1).count()
}

/// Appends the line of links.
#[tactic(auto, unfolding(crate::specs::Summary::links_line))]
fn push_links(text: &mut String, router: &Router, state: &State) -> Result<(), AllocError>
    ensures { OnOk result (string_bytes text.new ≡ string_bytes text.old ++ links_line router.now state.now) }
{
    let up = count_up(state.facts.up.as_slice());
    let links = router.links.as_slice().len();
    write!(text, "links {up} up of {links}\n")
}

/// How many labels the range has.
pub(crate) fn label_room(labels: LabelRange) -> u64
    ensures { result ≡ label_room labels }
{
    (u64::from(labels.last) + 1).saturating_sub(u64::from(labels.first))
}

/// Appends the lines of paths, reservations and repairs.
#[tactic(auto, unfolding(crate::specs::Summary::lsps_lines))]
fn push_lsps(text: &mut String, state: &State) -> Result<(), AllocError>
    ensures { OnOk result (string_bytes text.new ≡ string_bytes text.old ++ lsps_lines state.now) }
{
    let limit = MAX_LSPS as u64;
    push_counted(
        text,
        "paths",
        state.facts.paths.as_slice().len() as u64,
        limit,
    )?;
    push_counted(text, "resvs", state.resvs.as_slice().len() as u64, limit)?;
    push_counted(
        text,
        "repairs",
        state.repairs.as_slice().len() as u64,
        limit,
    )
}

/// Appends the lines of tunnels, bypasses and static routes.
#[tactic(auto, unfolding(crate::specs::Summary::tables_lines))]
fn push_tables(text: &mut String, state: &State) -> Result<(), AllocError>
    ensures { OnOk result (string_bytes text.new ≡ string_bytes text.old ++ tables_lines state.now) }
{
    let facts = &state.facts;
    push_counted(
        text,
        "tunnels",
        facts.tunnels.as_slice().len() as u64,
        MAX_TUNNELS as u64,
    )?;
    push_counted(
        text,
        "bypasses",
        facts.bypasses.as_slice().len() as u64,
        MAX_BYPASSES as u64,
    )?;
    push_counted(
        text,
        "routes",
        facts.routes.as_slice().len() as u64,
        MAX_ROUTES as u64,
    )
}

/// Appends the lines of how many labels are held, and how many rest.
#[tactic(auto, unfolding(crate::specs::Summary::labels_lines))]
fn push_labels(text: &mut String, router: &Router, state: &State) -> Result<(), AllocError>
    ensures { OnOk result (string_bytes text.new ≡ string_bytes text.old ++ labels_lines router.now state.now) }
{
    let room = label_room(router.labels);
    push_counted(text, "labels", state.labels.as_slice().len() as u64, room)?;
    push_counted(text, "resting", state.resting.as_slice().len() as u64, room)
}

/// Appends the lines of how much there is of everything but bandwidth. The only error is that memory ran out.
#[tactic(auto, unfolding(crate::specs::Summary::counts_text))]
pub fn push_counts(text: &mut String, router: &Router, state: &State) -> Result<(), AllocError>
    ensures { OnOk result (string_bytes text.new ≡ string_bytes text.old ++ counts_text router.now state.now) }
{
    push_links(text, router, state)?;
    push_lsps(text, state)?;
    push_tables(text, state)?;
    push_labels(text, router, state)
}

/// Appends the line of what is reserved of a link, in bytes per second. The only error is that memory ran out.
pub fn push_reserved_link(
    text: &mut String,
    number: u16,
    reserved: u64,
    limit: u64,
) -> Result<(), AllocError>
    ensures { OnOk result (string_bytes text.new ≡ string_bytes text.old ++ reserved_line number reserved limit) }
{
    write!(text, "link {number} reserved ")?;
    push_limited(text, reserved, limit)
}

/// Appends the line of what is assigned of a bypass, in bytes per second. The only error is that memory ran out.
pub fn push_assigned_bypass(
    text: &mut String,
    number: u16,
    assigned: u64,
    capacity: u64,
) -> Result<(), AllocError>
    ensures { OnOk result (string_bytes text.new ≡ string_bytes text.old ++ assigned_line number assigned capacity) }
{
    write!(text, "bypass {number} assigned ")?;
    push_limited(text, assigned, capacity)
}
