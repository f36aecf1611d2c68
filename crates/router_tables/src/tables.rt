//! The tables of a router.

ghost use Rattle.std.specs.FinMap.Entries.{is_sorted};
ghost use Rattle.std.specs.Ordering.{nat_cmp};
ghost use Rattle.std.specs.Prelude.{◌≡◌, [], IfOk, T, map, false};
ghost use Rattle.lsr_config.specs.Configs.{IsConfig};
ghost use Rattle.lsr_facts.specs.Routers.{IsRouter};
ghost use Rattle.lsr_facts.specs.Claims.{reserved_of};
ghost use Rattle.abstract_router.specs.BypassTunnels.{bypass_tunnels_of, over_at};
ghost use Rattle.abstract_router.specs.Preempting.{claims_of};
ghost use Rattle.abstract_router.specs.Soundness.{IsSound};
ghost use Rattle.abstract_router.specs.Tables.{TellsChange, forwarded, look_tunnel};
ghost use Rattle.router_soundness.specs.Assigned.{AreStanding};
ghost use Rattle.label_table.specs.Rows.{IsTableOf};
ghost use Rattle.router_tables.specs.Changes.{IsChange, changed};
ghost use Rattle.router_tables.specs.States.{AreOpened, emptied, opened};

use crate::change::Change;
use crate::export::export;
use crate::repairs::Repairs;
use crate::rows::{MAX_UPSTREAM, Rows, apply, forget};
use crate::tunnels::{Tunnels, with_room};
use admission::Admission;
use facility_backup::over_at;
use forwarding_table::{Action, Forwarding, ForwardingTable};
use label_space::LabelBindings;
use label_stacks::Stack;
use lsr_config::Config;
use lsr_facts::limits::MAX_LSPS;
use lsr_facts::{Bypass, Item, Link, Over, Router, State, Upstream};
use path_state::PathState;
use refresh_timers::RefreshTimers;
use rsvp_bodies::Prefix;
use slot_rows::SlotTable;
use sorted_rows::Table;
use std::alloc::{AllocError, Global};
use std::marker::Model;

/// The tables of a router, with all the memory that they may ever take. Contracts see the router and what it knows,
/// which is sound at any time.
#[derive(Debug)]
pub struct Tables {
    pub(crate) rows: Rows,
}

/// Written out, so that a crate above drops them by one call, whatever they hold.
impl Drop for Tables {
    fn drop(self) {
        let Tables { rows: _rows } = self;
    }
}

impl Model for Tables {
    ghost use Rattle.router_tables.specs.States.{AreTables, RouterState, router_state_of};

    ghost Value = { RouterState };

    ghost view = { λ t. router_state_of t.rows };

    ghost invariant = { λ t. AreTables t.rows };
}

/// Of each link whether it is up when the router is opened.
fn links_up(alloc: Global, links: &[(u16, Link)]) -> Result<Vec<(u16, bool)>, AllocError>
    ensures { IfOk result (λ up. up.items ≡ map (λ l. (l.0, l.1.up)) links.now) }
{
    links.iter().map(|link| (link.0, link.1.up)).collect(alloc)
}

/// Of each link how much of it may be reserved, in bytes per second.
fn limits_of(alloc: Global, links: &[(u16, Link)]) -> Result<Vec<(u16, u64)>, AllocError>
    ensures { IfOk result (λ limits. limits.items ≡ map (λ l. (l.0, l.1.limit)) links.now) }
{
    links
        .iter()
        .map(|link| (link.0, link.1.limit))
        .collect(alloc)
}

/// The rows of the router of a configuration as it is opened, with the memory of all that there may ever be. The only error is
/// that there is too little.
fn rows_of(alloc: Global, config: Config) -> Result<Rows, AllocError>
    ensures { IfOk result (AreOpened config) }
{
    let Config {
        router,
        routes,
        tunnels,
        bypasses,
    } = config;
    let up = links_up(alloc, router.links.as_slice())?;
    let limits = limits_of(alloc, router.links.as_slice())?;
    Ok(Rows {
        moment: 0,
        up: Table::from_rows(up),
        routes,
        tunnels: with_room(alloc, tunnels)?,
        bypasses,
        paths: PathState::new(alloc)?,
        timers: RefreshTimers::new(alloc, router.refresh_ms)?,
        bandwidth: Admission::new(alloc, Table::from_rows(limits))?,
        repairs: Repairs::new(alloc)?,
        assignments: SlotTable::new(alloc)?,
        labels: LabelBindings::new(alloc, router.labels)?,
        upstream: RefreshTimers::new(alloc, router.refresh_ms)?,
        table: ForwardingTable::new(alloc)?,
        router,
    })
}

impl Tables {
    /// The tables of the router of a configuration as it is opened: it knows no path. It reserves the memory of all
    /// that it may ever know, but for static routes and bypasses, which a change replaces whole; the only error is that
    /// there is too little.
    pub fn new(alloc: Global, config: Config) -> Result<Tables, AllocError>
        ensures { IfOk result (λ tables. tables ≡ opened config) }
    {
        Ok(Tables {
            rows: rows_of(alloc, config)?,
        })
    }

    /// Makes the change of a step. It asks for one of this router as it stands. Takes no memory, and always succeeds.
    pub fn make(&mut self, change: Change)
        requires { IsChange self.old.router self.old.state change }
        ensures { self.new ≡ record self.old { state = changed change self.old.state } }
    {
        apply(&mut self.rows, change);
    }

    /// What messages set up goes: paths, reservations, repairs, labels, and when messages were sent; and changes of
    /// tunnels that aren't over are given up. Takes no memory.
    pub fn forget(&mut self)
        ensures { self.new ≡ record self.old { state = emptied self.old.state } }
    {
        forget(&mut self.rows);
    }

    /// What never changes of the router.
    pub fn router(&self) -> &Router
        ensures { result.now ≡ self.now.router }
    {
        &self.rows.router
    }

    /// What is done with the traffic of the tunnel of this number, or `None` where nothing is.
    #[tactic(auto, unfolding(abstract_router::specs::Tables::look_tunnel))]
    pub fn look_tunnel(&self, number: u16) -> Option<Action>
        ensures { result ≡ look_tunnel self.now.router self.now.state number }
    {
        self.rows.table.look_tunnel(number)
    }

    /// What the bypass of this number runs over, or `None` where there is none or it isn't up (RFC 4090, 3.2).
    pub fn over_at(&self, number: u16) -> Option<Over>
        ensures { result ≡ over_at (bypass_tunnels_of self.now.router self.now.state) number }
    {
        over_at(self, number)
    }

    /// What becomes of a frame with this stack of labels (RFC 3031, 3.10).
    pub fn forward(&self, stack: &Stack) -> Forwarding
        ensures { result ≡ forwarded self.now.router self.now.state stack.now }
    {
        self.rows.table.forward(stack)
    }

    /// Whether anything is forwarded: by a label, or of a tunnel's traffic. Nothing is once all is lost that messages set up.
    pub fn is_forwarding(&self) -> bool
        ensures { TellsChange result self.now.router self.now.state (emptied self.now.state) }
    {
        self.rows.table.label_count() > 0 || self.rows.table.tunnel_count() > 0
    }

    /// All labels under which frames may come, in their order, and what is done with them: a copy. The only error is out
    /// of memory.
    pub fn actions(&self, alloc: Global) -> Result<Table<u32, Action>, AllocError>
        ensures { IfOk result (IsTableOf self.now.router self.now.state) }
    {
        self.rows.table.labels_copied(alloc)
    }

    /// All that the router knows, as a value: a copy. The only error is out of memory.
    pub fn export(&self, alloc: Global) -> Result<State, AllocError>
        ensures { IfOk result (λ state. state ≡ self.now.state) }
    {
        export(alloc, &self.rows)
    }

    /// How much of a link is reserved at this priority, 0 (best) to 7, or a better one, in bytes per second.
    pub fn reserved(&self, link: u16, priority: u8) -> u64
        ensures { result ≡ reserved_of link priority (claims_of self.now.state.facts.paths self.now.state.resvs) }
    {
        self.rows.bandwidth.reserved(link, priority)
    }

    /// What the router knows is sound, and nothing is left to promise of the bandwidth of bypasses. A law: it does nothing when it runs.
    pub fn soundness(&self)
        ensures router { IsRouter self.now.router }
        ensures sound { IsSound self.now.router self.now.state }
        ensures standing { AreStanding self.now.router self.now.state }
        ensures running { self.now.state.facts.cold ≡ false }
    {
        // Whoever opens the value sees its invariant.
        let _rows = &self.rows;
    }
}
