//! A router that is cold or runs.

ghost use Rattle.std.specs.Prelude.{◌≡◌, IfErr, IfOk, OnErr, false, true};
ghost use Rattle.lsr_facts.specs.Routers.{IsRouter};
ghost use Rattle.lsr_facts.specs.Claims.{reserved_of};
ghost use Rattle.abstract_router.specs.BypassTunnels.{bypass_tunnels_of, over_at};
ghost use Rattle.abstract_router.specs.Preempting.{claims_of};
ghost use Rattle.abstract_router.specs.Soundness.{IsSound};
ghost use Rattle.abstract_router.specs.Steps.{Run, Step, opening};
ghost use Rattle.abstract_router.specs.Tables.{forwarded, look_tunnel};
ghost use Rattle.datagrams.specs.Datagrams.{IsDatagram};
ghost use Rattle.router_core.specs.Plans.{after_plan, made_by, quiet};
ghost use Rattle.router_core.specs.States.{emptied, opened};
ghost use Rattle.router_core.specs.Below.labels.Rows.{IsTableOf};
ghost use Rattle.abstract_paths.specs.declared.events.Event.{Event};
ghost use Rattle.abstract_paths.specs.declared.events.Event.TheVariants as events;
ghost use Rattle.router_core.specs.Readies.{IsReady, after_ready, made_of, with_cold};
ghost use Rattle.router_core.specs.declared.ready.Ready.TheVariants as readies;
ghost use Rattle.router_core.specs.Machines.{AreAnswered, IsCopyServed, IsDatagramServed, IsEventLeft, IsEventServed, IsInputServed, IsMadeFor, IsThere, state_in, steps_in};

use crate::forwarding::Labels;
use crate::inputs::{Input, Served};
use crate::ready::Ready;
use crate::{Cold, Plan, Running, Tables};
use abstract_paths::{Event, Made, Outputs};
use datagrams::{Datagram, read_datagram};
use forwarding_table::Action;
use lsr_config::Config;
use lsr_facts::{Key, Over, Refusal, Router, State};
use sorted_rows::Table;
use std::alloc::{AllocError, Global};
use std::marker::Model;
use std::mem;

/// Whether a router runs.
#[derive(Debug, Drop)]
enum Phase {
    /// It runs.
    Running(Running),
    /// It was restarted, and takes no event but its start.
    Cold(Cold),
    /// It is out, while an event is served. Between two calls it never is.
    Between,
}

/// A router, cold or running. Contracts see what it is and knows.
#[derive(Debug)]
pub struct Machine {
    phase: Phase,
}

/// Written out, so that a crate above drops a machine by one call, and isn't proved anew to drop all that a router holds.
impl Drop for Machine {
    fn drop(self) {
        let Machine { phase: _phase } = self;
    }
}

impl Model for Machine {
    ghost use Rattle.router_core.specs.States.{RouterState};
    ghost use Rattle.router_core.specs.Machines.{IsThere, state_in};

    ghost Value = { RouterState };

    ghost view = { λ m. state_in m.phase };

    ghost invariant = { λ m. IsThere m.phase };
}

/// Makes an event's step ready on a running router, as [`Machine::ready`] does.
fn running_step(alloc: Global, router: &Running, event: &Event) -> Result<Ready, Refusal>
    ensures ready { IfOk result (IsReady router.now event.now) }
    ensures left { IfErr result (IsEventLeft router.now.router router.now.state event.now) }
{
    router.soundness();
    if let Event::Restart = event {
        return Ok(Ready::Restart {
            changes_table: router.is_forwarding(),
        });
    }
    Ok(Ready::Plan(router.plan(alloc, event)?))
}

/// Makes an event's step ready on a cold router, as [`Machine::ready`] does.
fn cold_step(router: &Cold, event: &Event) -> Result<Ready, Refusal>
    ensures ready { IfOk result (IsReady router.now event.now) }
    ensures left { IfErr result (IsEventLeft router.now.router router.now.state event.now) }
{
    router.soundness();
    if let Event::Start = event {
        return Ok(Ready::Start);
    }
    Err(Refusal::IsCold)
}

/// Makes a plan's step on a router that is there, in place, and gives the labels that it chose and what it sends. Takes no
/// memory.
fn commit(phase: &mut Phase, plan: Plan) -> (Table<Key, u32>, Outputs)
    requires there { IsThere phase.old }
    requires ready { (event : Event) × IsReady (state_in phase.old) event (readies.Plan plan) }
    ensures there { IsThere phase.new }
    ensures after { state_in phase.new ≡ record (state_in phase.old) { state = after_plan plan (state_in phase.old).state } }
    ensures step { (event : Event) → IsReady (state_in phase.old) event (readies.Plan plan) →
        Step (state_in phase.old).router (state_in phase.old).state
        (record (made_by event plan) { labels = result.0; outputs = result.1 }) (state_in phase.new).state }
    ensures labels { result.0 ≡ plan.chosen }
    ensures outputs { result.1 ≡ plan.outputs }
{
    match phase {
        Phase::Running(router) => router.commit(plan),
        Phase::Cold(router) => {
            router.soundness();
            unreachable!()
        }
        Phase::Between => unreachable!(),
    }
}

/// A running router that is there, once it is restarted. Takes no memory.
fn restarted(phase: Phase) -> Phase
    requires there { IsThere phase }
    requires running { (state_in phase).state.facts.cold ≡ false }
    ensures there { IsThere result }
    ensures after { state_in result ≡ record (state_in phase) { state = with_cold true (emptied (state_in phase).state) } }
    ensures step { Step (state_in phase).router (state_in phase).state (quiet events.Restart) (state_in result).state }
{
    match phase {
        Phase::Running(router) => Phase::Cold(router.restart()),
        Phase::Cold(router) => {
            router.soundness();
            unreachable!()
        }
        Phase::Between => unreachable!(),
    }
}

/// A cold router that is there, once it is started. Takes no memory.
fn started(phase: Phase) -> Phase
    requires there { IsThere phase }
    requires cold { (state_in phase).state.facts.cold ≡ true }
    ensures there { IsThere result }
    ensures after { state_in result ≡ record (state_in phase) { state = with_cold false (state_in phase).state } }
    ensures step { Step (state_in phase).router (state_in phase).state (quiet events.Start) (state_in result).state }
{
    match phase {
        Phase::Cold(router) => Phase::Running(router.start()),
        Phase::Running(router) => {
            router.soundness();
            unreachable!()
        }
        Phase::Between => unreachable!(),
    }
}

/// Makes a step that is made ready on a router that is there, and gives the labels that it chose and what it sends. A plan's
/// is made in place, since a router is large. Takes no memory.
fn make_in(phase: &mut Phase, alloc: Global, ready: Ready) -> (Table<Key, u32>, Outputs)
    requires there { IsThere phase.old }
    requires ready { (event : Event) × IsReady (state_in phase.old) event ready }
    ensures there { IsThere phase.new }
    ensures after { state_in phase.new ≡ record (state_in phase.old) { state = after_ready ready (state_in phase.old).state } }
    ensures step { (event : Event) → IsReady (state_in phase.old) event ready →
        Step (state_in phase.old).router (state_in phase.old).state (made_of event ready) (state_in phase.new).state }
    ensures labels { (event : Event) → result.0 ≡ (made_of event ready).labels }
    ensures outputs { (event : Event) → result.1 ≡ (made_of event ready).outputs }
{
    match ready {
        Ready::Plan(plan) => return commit(phase, plan),
        Ready::Restart { .. } => *phase = restarted(mem::replace(phase, Phase::Between)),
        Ready::Start => *phase = started(mem::replace(phase, Phase::Between)),
    }
    (Table::new(alloc), Outputs::new(alloc))
}

impl Machine {
    /// The router of a configuration as it is opened: it runs. It reserves the memory of all paths that it may ever
    /// know, and of all messages that these may want; the only error is out of memory.
    pub fn open(alloc: Global, config: Config) -> Result<Machine, AllocError>
        ensures opened { IfOk result (λ machine. machine ≡ opened config) }
    {
        let router = Cold::new(alloc, config)?.start();
        Ok(Machine {
            phase: Phase::Running(router),
        })
    }

    /// Opens the router of a configuration and serves what comes, as [`Machine::serve_all`] does: the steps that were made
    /// are a run from its opening, and what it knows at the end is sound. The only error is out of memory, before anything
    /// is served.
    pub fn run(
        alloc: Global,
        config: Config,
        inputs: &[Input],
    ) -> Result<(Machine, Vec<Result<Served, Refusal>>), AllocError>
        ensures answered { IfOk result (λ after. AreAnswered config.router (opening config.router config.routes config.tunnels config.bypasses)
            inputs.now after.1.items after.0.state) }
        ensures run { IfOk result (λ after. Run config.router (opening config.router config.routes config.tunnels config.bypasses)
            (steps_in after.1.items) after.0.state) }
        ensures sound { IfOk result (λ after. IsSound config.router after.0.state) }
        ensures router { IfOk result (λ after. after.0.router ≡ config.router) }
    {
        let mut machine = Machine::open(alloc, config)?;
        let answers = machine.serve_all(alloc, inputs)?;
        Ok((machine, answers))
    }

    /// Makes an event's step ready, with all the memory that it takes. It changes nothing. A cold router refuses each event
    /// but [`Event::Start`] ([`Refusal::IsCold`]). A message for another router whose limit ran out, over a link that is up,
    /// is dropped ([`Refusal::HopLimit`]). Else the only error is [`Refusal::NoMemory`]: a start, a restart, and an event
    /// that is refused always have their step.
    pub fn ready(&self, alloc: Global, event: &Event) -> Result<Ready, Refusal>
        ensures ready { IfOk result (IsReady self.now event.now) }
        ensures left { IfErr result (IsEventLeft self.now.router self.now.state event.now) }
    {
        match &self.phase {
            Phase::Running(router) => running_step(alloc, router, event),
            Phase::Cold(router) => cold_step(router, event),
            Phase::Between => unreachable!(),
        }
    }

    /// Makes a step that is made ready, and gives the labels that it chose and what it sends. It asks for a step of this
    /// router as it stands. Takes no memory, and always succeeds.
    pub fn make(&mut self, alloc: Global, ready: Ready) -> (Table<Key, u32>, Outputs)
        requires { (event : Event) × IsReady self.old event ready }
        ensures after { self.new ≡ record self.old { state = after_ready ready self.old.state } }
        ensures step { (event : Event) → IsReady self.old event ready →
            Step self.old.router self.old.state (made_of event ready) self.new.state }
        ensures labels { (event : Event) → result.0 ≡ (made_of event ready).labels }
        ensures outputs { (event : Event) → result.1 ≡ (made_of event ready).outputs }
    {
        make_in(&mut self.phase, alloc, ready)
    }

    /// Serves an event, and gives the step that was made. What is refused, as [`Machine::ready`] refuses it, changes
    /// nothing.
    pub fn serve_event(&mut self, alloc: Global, event: Event) -> Result<Made, Refusal>
        ensures served { IsEventServed self.old.router self.old.state event self.new.state result }
        ensures router { self.new.router ≡ self.old.router }
    {
        let ready = self.ready(alloc, &event)?;
        let reply = ready.reply();
        let (labels, outputs) = self.make(alloc, ready);
        Ok(Made {
            event,
            labels,
            reply,
            outputs,
        })
    }

    /// Serves an event, and tells what came of it as of any input.
    fn serve_made(&mut self, alloc: Global, event: Event) -> Result<Served, Refusal>
        ensures served { IsMadeFor self.old.router self.old.state event self.new.state result }
        ensures router { self.new.router ≡ self.old.router }
    {
        match self.serve_event(alloc, event) {
            Ok(made) => Ok(Served::Made(made)),
            Err(refusal) => Err(refusal),
        }
    }

    /// What a datagram is that came over a link, by what the router knows: an event, a labelled frame and what becomes of it,
    /// or the datagram's first fault, as [`Machine::serve_datagram`] says.
    pub fn read(&self, alloc: Global, link: u16, bytes: &[u8]) -> Result<Datagram, Refusal>
        ensures { IsDatagram self.now.router (forwarded self.now.router self.now.state) link bytes.now result }
    {
        let tables = self.tables();
        read_datagram(alloc, tables.router(), &Labels { tables }, link, bytes)
    }

    /// Serves a datagram that came over a link, whatever it is, and gives what came of it.
    ///
    /// A labelled frame is passed on or delivered, and changes nothing: the label table alone says where it goes
    /// (RFC 3031, 3.10), and that of a cold router is empty. A message is an event, whose step is made. Any other datagram
    /// is refused for its first fault, in this order: of its frame ([`Refusal::Unread`]); while its labels are followed, a
    /// label that nothing is done with ([`Refusal::NoLabel`]), a TTL that ran out ([`Refusal::HopLimit`]), a ninth label; of
    /// a message for this router its own, and then that its frame doesn't take its type. After that an event is refused as
    /// [`Machine::serve_event`] refuses it. [`Refusal::NoMemory`] can come in place of any answer but a fault of the
    /// datagram's head. What is refused changes nothing.
    pub fn serve_datagram(
        &mut self,
        alloc: Global,
        link: u16,
        bytes: &[u8],
    ) -> Result<Served, Refusal>
        ensures served { IsDatagramServed self.old.router self.old.state link bytes.now self.new.state result }
        ensures router { self.new.router ≡ self.old.router }
    {
        match self.read(alloc, link, bytes) {
            Ok(Datagram::Event(event)) => self.serve_made(alloc, event),
            Ok(Datagram::Passed(passed)) => Ok(Served::Passed(passed)),
            Err(refusal) => Err(refusal),
        }
    }

    /// Serves an event that stays the caller's: it is copied.
    fn serve_copy(&mut self, alloc: Global, event: &Event) -> Result<Served, Refusal>
        ensures served { IsCopyServed self.old.router self.old.state event.now self.new.state result }
        ensures router { self.new.router ≡ self.old.router }
    {
        match event.copied(alloc) {
            Ok(event) => self.serve_made(alloc, event),
            Err(_no_memory) => Err(Refusal::NoMemory),
        }
    }

    /// Serves whatever comes, as [`Machine::serve_datagram`] and [`Machine::serve_event`] do.
    pub fn serve(&mut self, alloc: Global, input: &Input) -> Result<Served, Refusal>
        ensures served { IsInputServed self.old.router self.old.state input.now self.new.state result }
        ensures router { self.new.router ≡ self.old.router }
    {
        match input {
            Input::Datagram { link, bytes } => self.serve_datagram(alloc, *link, bytes),
            Input::Event(event) => self.serve_copy(alloc, event),
        }
    }

    /// Serves what comes, one input after the other, and gives the answer to each, in the same order. What is refused
    /// changes nothing, be it for want of memory: those after it are served all the same. The memory of the list of answers
    /// is reserved before the first input is served; the only error is that there is none, and then nothing changed.
    pub fn serve_all(
        &mut self,
        alloc: Global,
        inputs: &[Input],
    ) -> Result<Vec<Result<Served, Refusal>>, AllocError>
        ensures answered { IfOk result (λ answers. AreAnswered self.old.router self.old.state inputs.now answers.items self.new.state) }
        ensures run { IfOk result (λ answers. Run self.old.router self.old.state (steps_in answers.items) self.new.state) }
        ensures kept { OnErr result (self.new ≡ self.old) }
        ensures sound { IsSound self.new.router self.new.state }
        ensures router { self.new.router ≡ self.old.router }
    {
        self.soundness();
        let mut answers = Vec::with_capacity(alloc, inputs.len())?;
        for input in inputs {
            answers.push_reserved(self.serve(alloc, input));
        }
        self.soundness();
        Ok(answers)
    }

    /// Whether the router is cold: it was restarted, and not started yet.
    pub fn is_cold(&self) -> bool
        ensures { result ≡ self.now.state.facts.cold }
    {
        match &self.phase {
            Phase::Running(router) => {
                router.soundness();
                false
            }
            Phase::Cold(router) => {
                router.soundness();
                true
            }
            Phase::Between => unreachable!(),
        }
    }

    /// What never changes of the router.
    pub fn router(&self) -> &Router
        ensures { result.now ≡ self.now.router }
    {
        self.tables().router()
    }

    /// What the router knows, as a value. The only error is out of memory.
    pub fn export(&self, alloc: Global) -> Result<State, AllocError>
        ensures { IfOk result (λ state. state ≡ self.now.state) }
    {
        let mut state = self.tables().export(alloc)?;
        state.facts.cold = self.is_cold();
        Ok(state)
    }

    /// All labels under which frames may come, in their order, and what is done with them: a copy. A cold router has none.
    /// The only error is out of memory.
    pub fn actions(&self, alloc: Global) -> Result<Table<u32, Action>, AllocError>
        ensures { IfOk result (IsTableOf self.now.router self.now.state) }
    {
        self.tables().actions(alloc)
    }

    /// What is done with the traffic of the tunnel of this number, or `None` where nothing is (RFC 3031, 3.12): a cold router
    /// does nothing with it.
    pub fn look_tunnel(&self, number: u16) -> Option<Action>
        ensures { result ≡ look_tunnel self.now.router self.now.state number }
    {
        self.tables().look_tunnel(number)
    }

    /// What the bypass of this number runs over, or `None` where there is none or it isn't up (RFC 4090, 3.2).
    pub fn over_at(&self, number: u16) -> Option<Over>
        ensures { result ≡ over_at (bypass_tunnels_of self.now.router self.now.state) number }
    {
        self.tables().over_at(number)
    }

    /// How much of a link is reserved at this priority, 0 (best) to 7, or a better one, in bytes per second.
    pub fn reserved(&self, link: u16, priority: u8) -> u64
        ensures { result ≡ reserved_of link priority (claims_of self.now.state.facts.paths self.now.state.resvs) }
    {
        self.tables().reserved(link, priority)
    }

    /// The tables of the router. They say nothing of whether it is cold.
    fn tables(&self) -> &Tables
        ensures router { result.now.router ≡ self.now.router }
        ensures state { result.now.state ≡ with_cold false self.now.state }
    {
        let tables = match &self.phase {
            Phase::Running(router) => router.tables(),
            Phase::Cold(router) => router.tables(),
            Phase::Between => unreachable!(),
        };
        tables.soundness();
        tables
    }

    /// What the router knows is sound. A law: it does nothing when it runs.
    pub fn soundness(&self)
        ensures router { IsRouter self.now.router }
        ensures sound { IsSound self.now.router self.now.state }
    {
        match &self.phase {
            Phase::Running(router) => router.soundness(),
            Phase::Cold(router) => router.soundness(),
            Phase::Between => unreachable!(),
        }
    }
}
