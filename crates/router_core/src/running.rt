//! A router, cold or running.

ghost use Rattle.std.specs.Prelude.{◌≡◌, ◌≢◌, Err, IfErr, IfOk, false, true};
ghost use Rattle.lsr_facts.specs.Routers.{IsRouter};
ghost use Rattle.abstract_paths.specs.declared.events.Event.{Event};
ghost use Rattle.abstract_paths.specs.declared.events.Event.TheVariants as events;
ghost use Rattle.lsr_facts.specs.declared.refusal.Refusal.TheVariants.{HopLimit};
ghost use Rattle.abstract_paths.specs.Relays.{exceeds_hop_limit};
ghost use Rattle.abstract_router.specs.Soundness.{IsSound};
ghost use Rattle.abstract_router.specs.Steps.{Step};
ghost use Rattle.abstract_router.specs.Tables.{TellsChange};
ghost use Rattle.router_soundness.specs.Assigned.{AreStanding};
ghost use Rattle.router_core.specs.Plans.{IsOutFor, IsPlanOf, after_plan, made_by, quiet};
ghost use Rattle.router_core.specs.States.{IsEmpty, cold, emptied, opened};

use crate::plan::{Plan, plan_of};
use abstract_paths::{Event, Outputs};
use lsr_config::Config;
use lsr_facts::{Key, Refusal};
use router_tables::Tables;
use sorted_rows::Table;
use std::alloc::{AllocError, Global};
use std::marker::Model;

/// A router that isn't started: it takes no event but its start, and knows no LSP. Contracts see what it knows.
#[derive(Debug, Drop)]
pub struct Cold {
    tables: Tables,
}

impl Model for Cold {
    ghost use Rattle.router_core.specs.States.{IsEmpty, RouterState, cold};

    ghost Value = { RouterState };

    ghost view = { λ c. cold c.tables };

    ghost invariant = { λ c. IsEmpty c.tables.state };
}

/// A router that runs. Contracts see what it knows, which is sound at any time.
#[derive(Debug, Drop)]
pub struct Running {
    tables: Tables,
}

impl Model for Running {
    ghost use Rattle.router_core.specs.States.{RouterState};

    ghost Value = { RouterState };

    ghost view = { λ r. r.tables };
}

impl Cold {
    /// The router of a configuration, not started yet. It reserves the memory of all LSPs that it may ever know, and
    /// of all messages that these may want; the only error is out of that memory.
    pub fn new(alloc: Global, config: Config) -> Result<Cold, AllocError>
        ensures opened { IfOk result (λ router. router ≡ cold (opened config)) }
    {
        Ok(Cold {
            tables: Tables::new(alloc, config)?,
        })
    }

    /// Starts the router. Takes no memory, and sends nothing.
    pub fn start(self) -> Running
        ensures started { result ≡ record self {
          state = record self.state { facts = record self.state.facts { cold = false } };
        } }
        ensures step { Step self.router self.state (quiet events.Start) result.state }
    {
        let Cold { tables } = self;
        tables.soundness();
        Running { tables }
    }

    /// The tables of the router, as they are once it is started.
    pub fn tables(&self) -> &Tables
        ensures { cold result.now ≡ self.now }
    {
        &self.tables
    }

    /// What the router knows is sound, and holds nothing that messages set up. A law: it does nothing when it runs.
    pub fn soundness(&self)
        ensures router { IsRouter self.now.router }
        ensures sound { IsSound self.now.router self.now.state }
        ensures cold { self.now.state.facts.cold ≡ true }
        ensures empty { IsEmpty self.now.state }
    {
        self.tables.soundness();
    }
}

impl Running {
    /// The plan of an event's step, with all the memory that it takes. It changes nothing. It asks for an event that is no
    /// restart ([`Running::restart`]). A message for another router whose limit ran out has no step
    /// ([`Refusal::HopLimit`]); else the only error is [`Refusal::NoMemory`]: a start, and an event that is refused, always
    /// have their plan.
    pub fn plan(&self, alloc: Global, event: &Event) -> Result<Plan, Refusal>
        requires { event.now ≢ events.Restart }
        ensures planned { IfOk result (IsPlanOf self.now event.now) }
        ensures out { IfErr result (IsOutFor self.now event.now) }
        ensures limit { exceeds_hop_limit self.now.router self.now.state.facts event.now ≡ true → result ≡ Err HopLimit }
    {
        plan_of(alloc, &self.tables, event)
    }

    /// Makes the plan's own step: gives the labels that the plan chose and what it sends, and what is known then is what
    /// the plan's change leaves. It asks for a plan of this router as it stands. Takes no memory, and always succeeds.
    pub fn commit(&mut self, plan: Plan) -> (Table<Key, u32>, Outputs)
        requires { (event : Event) × IsPlanOf self.old event plan }
        ensures step { (event : Event) → IsPlanOf self.old event plan → Step self.old.router self.old.state
            (record (made_by event plan) { labels = result.0; outputs = result.1 }) self.new.state }
        ensures chosen { result.0 ≡ plan.chosen }
        ensures outputs { result.1 ≡ plan.outputs }
        ensures state { self.new.state ≡ after_plan plan self.old.state }
        ensures router { self.new.router ≡ self.old.router }
    {
        let (chosen, outputs, change) = plan.into_parts();
        if let Some(change) = change {
            self.tables.make(Box::into_inner(change));
        }
        (chosen, outputs)
    }

    /// The router loses what messages had set up in it, and is cold until it is started: links, static routes, tunnels and
    /// the moment stay, but changes of tunnels that aren't over are given up. Takes no memory, and sends nothing.
    pub fn restart(self) -> Cold
        ensures restarted { result ≡ cold (record self { state = emptied self.state }) }
        ensures step { Step self.router self.state (quiet events.Restart) result.state }
    {
        let Running { mut tables } = self;
        tables.soundness();
        tables.forget();
        Cold { tables }
    }

    /// Whether anything is forwarded: by a label, or of a tunnel's traffic. A restart ends that.
    pub fn is_forwarding(&self) -> bool
        ensures { TellsChange result self.now.router self.now.state (emptied self.now.state) }
    {
        self.tables.is_forwarding()
    }

    /// The tables of the router.
    pub fn tables(&self) -> &Tables
        ensures { result.now ≡ self.now }
    {
        &self.tables
    }

    /// What the router knows is sound, and nothing is left to promise of the bandwidth of bypasses. A law: it does nothing when it runs.
    pub fn soundness(&self)
        ensures router { IsRouter self.now.router }
        ensures sound { IsSound self.now.router self.now.state }
        ensures standing { AreStanding self.now.router self.now.state }
        ensures running { self.now.state.facts.cold ≡ false }
    {
        self.tables.soundness();
    }
}
