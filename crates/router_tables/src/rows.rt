//! The rows of all tables, and what is made of them.

ghost use Rattle.std.specs.Option.{unwrap_or};
ghost use Rattle.std.specs.Prelude.{◌≡◌, ◌≤◌, length, max};
ghost use Rattle.label_space.specs.Bindings.{AreHeldOf};
ghost use Rattle.label_space.specs.Rests.{AreApart};
ghost use Rattle.lsr_facts.specs.Limits.{max_lsps};
ghost use Rattle.lsr_facts.specs.Orders.{key_cmp};
ghost use Rattle.sorted_rows.specs.Edits.{edited};
ghost use Rattle.router_tables.specs.Changes.{IsChange, changed, rests_with_edits};
ghost use Rattle.router_tables.specs.States.{AreTables, emptied, state_of};

use crate::change::Change;
use crate::repairs::Repairs;
use crate::tunnels::{Tunnels, cancel_all};
use admission::Admission;
use forwarding_table::ForwardingTable;
use label_space::LabelBindings;
use lsr_facts::laws::items_are_in_order;
use lsr_facts::limits::MAX_LSPS;
use lsr_facts::{Assignment, Bypass, Item, Key, KeyNumber, Router, Upstream};
use path_state::PathState;
use refresh_timers::RefreshTimers;
use rsvp_bodies::Prefix;
use slot_rows::{SlotTable, make_edits};
use sorted_rows::Table;

/// Resvs that a router keeps alive upstream: one for each of the four origins of each of 1,024 LSPs.
pub(crate) const MAX_UPSTREAM: usize = 4_096;

/// What a router holds: what never changes of it, and its tables.
#[derive(Debug, Drop)]
pub(crate) struct Rows {
    /// What never changes.
    pub(crate) router: Router,
    /// The moment that it was told last, in milliseconds.
    pub(crate) moment: u64,
    /// Of each link whether it is up.
    pub(crate) up: Table<u16, bool>,
    /// The static routes.
    pub(crate) routes: Table<Prefix, u16>,
    /// The tunnels that begin here.
    pub(crate) tunnels: Tunnels,
    /// The bypasses.
    pub(crate) bypasses: Table<u16, Bypass>,
    /// The paths.
    pub(crate) paths: PathState,
    /// When each Path was sent last that is kept alive at a neighbour.
    pub(crate) timers: RefreshTimers<Item, MAX_LSPS>,
    /// The reservations, and what they claim.
    pub(crate) bandwidth: Admission,
    /// The repairs.
    pub(crate) repairs: Repairs,
    /// What LSPs are promised of the bandwidth of bypasses.
    pub(crate) assignments: SlotTable<Key, Assignment, KeyNumber, MAX_LSPS>,
    /// The labels that LSPs hold, and those that are free.
    pub(crate) labels: LabelBindings,
    /// When each Resv was sent last that is kept alive upstream.
    pub(crate) upstream: RefreshTimers<Upstream, MAX_UPSTREAM>,
    /// What is done with labelled frames, and with the traffic of tunnels.
    pub(crate) table: ForwardingTable,
}

/// What there is, replaced where there is something in its place.
fn replace<T: Drop>(was: &mut T, now: Option<T>)
    ensures { was.new ≡ unwrap_or now was.old }
{
    if let Some(now) = now {
        *was = now;
    }
}

/// Lets the wheels of all that expires or is to be sent again come up to the moment that the router was told last.
fn advance(rows: &mut Rows)
    ensures { rows.new ≡ rows.old }
{
    let moment = rows.moment;
    rows.paths.advance(moment);
    rows.bandwidth.advance(moment);
    rows.timers.advance(moment);
    rows.upstream.advance(moment);
}

/// A moment comes, and then edits of labels are made: those that they free rest until another moment, if there is one.
fn edit_labels(
    labels: &mut LabelBindings,
    moment: u64,
    edits: Table<Key, Option<u32>>,
    rest_until: Option<u64>,
)
    requires room { length (edited key_cmp edits labels.old.labels) ≤ max_lsps }
    requires held { AreHeldOf labels.old.range (edited key_cmp edits labels.old.labels) }
    requires apart { AreApart (edited key_cmp edits labels.old.labels)
        (rests_with_edits moment edits rest_until labels.old) }
    ensures { labels.new ≡ record labels.old {
      moment = max labels.old.moment moment;
      labels = edited key_cmp edits labels.old.labels;
      resting = rests_with_edits moment edits rest_until labels.old;
    } }
{
    labels.wake(moment);
    labels.edit(edits, rest_until.unwrap_or(0));
}

/// Makes a change. Takes no memory, and always succeeds.
pub(crate) fn apply(rows: &mut Rows, change: Change)
    requires tables { AreTables rows.old }
    requires change { IsChange rows.old.router (state_of rows.old) change }
    ensures tables { AreTables rows.new }
    ensures router { rows.new.router ≡ rows.old.router }
    ensures state { state_of rows.new ≡ changed change (state_of rows.old) }
{
    let Change {
        edits,
        bandwidth,
        moments,
        upstream,
        table,
        tunnel_table,
    } = change;
    let edits = edits.into_parts();

    // That items are compared by the order that their rows stand in, and that the rows of the label table are in order.
    items_are_in_order();
    rows.table.rows_are_in_order();
    replace(&mut rows.moment, edits.moment);
    replace(&mut rows.up, edits.up);
    replace(&mut rows.routes, edits.routes);
    replace(&mut rows.bypasses, edits.bypasses);
    make_edits(&mut rows.tunnels, edits.tunnels);
    rows.paths.edit(edits.paths);
    rows.bandwidth.edit(bandwidth);
    make_edits(&mut rows.repairs, edits.repairs);
    make_edits(&mut rows.assignments, edits.assignments);
    edit_labels(
        &mut rows.labels,
        rows.moment,
        edits.labels,
        edits.rest_until,
    );
    rows.timers.edit(moments);
    rows.upstream.edit(upstream);
    rows.table.edit(table);
    rows.table.edit_tunnels(tunnel_table);
    advance(rows);
}

/// What messages set up goes, and changes of tunnels that aren't over are given up. Takes no memory.
pub(crate) fn forget(rows: &mut Rows)
    requires { AreTables rows.old }
    ensures tables { AreTables rows.new }
    ensures router { rows.new.router ≡ rows.old.router }
    ensures state { state_of rows.new ≡ emptied (state_of rows.old) }
{
    cancel_all(&mut rows.tunnels);
    rows.paths.clear();
    rows.timers.clear_all();
    rows.bandwidth.clear();
    rows.repairs.clear();
    rows.assignments.clear();
    rows.labels.clear();
    rows.upstream.clear_all();
    rows.table.clear();
}
