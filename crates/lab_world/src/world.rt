//! A world of routers.

ghost use Rattle.std.specs.Prelude.{◌≡◌, IfErr, IfOk, Some, length, map, true};
ghost use Rattle.std.specs.List.{AllByRecursion};
ghost use Rattle.std.specs.Option.{option_copied, option_map};
ghost use Rattle.abstract_world.specs.Opening.{opened_world};
ghost use Rattle.abstract_world.specs.Wires.{is_closed};
ghost use Rattle.abstract_world.specs.Worlds.{at, frame_of, routers_in};
ghost use Rattle.router_core.specs.States.{opened};
ghost use Rattle.lab_world.specs.Invariant.{IsWorld};
ghost use Rattle.lab_world.specs.Opening.{CanOpen, IsFaultOf};
ghost use Rattle.lab_world.specs.Reads.{IsUnknown, is_given};
ghost use Rattle.world_laws.specs.Sending.{AreLabelsGiven};
ghost use Rattle.world_laws.specs.Truths.{IsTruthful};

use crate::closed::is_closed;
use crate::fault::WorldFault;
use crate::joints::first_fault;
use crate::parts::{copy_of, is_given, open_all};
use abstract_world::{Given, Joint, Sent};
use lsr_config::Config;
use lsr_facts::{Refusal, State};
use router_core::{Machine, Output};
use rsvp_contents::Session;
use std::alloc::Global;
use std::marker::Model;
use world_laws::labels::sent_labels_were_given;

/// The most routers that a world has.
pub const MAX_ROUTERS: usize = 16;

/// Routers in one process, the wires between their links, all frames that they ever sent and all labels that they ever gave.
/// Contracts see these as lists. Routers go by their place: the first one has place 0. Frames go by their number: the first one
/// has number 1.
#[derive(Debug)]
pub struct World {
    pub(crate) routers: Vec<Machine>,
    pub(crate) joints: Vec<Joint>,
    pub(crate) frames: Vec<Sent>,
    pub(crate) given: Vec<Given>,
}

/// Written out, so that it is dropped by one call, whatever it holds.
impl Drop for World {
    fn drop(self) {
        let World {
            routers: _routers,
            joints: _joints,
            frames: _frames,
            given: _given,
        } = self;
    }
}

impl Model for World {
    ghost use Rattle.abstract_world.specs.Worlds.{WorldState};
    ghost use Rattle.lab_world.specs.Invariant.{IsSoundWorld};

    ghost Value = { WorldState };

    ghost view = { λ w. record { routers = w.routers.items; joints = w.joints.items; frames = w.frames.items; given = w.given.items } };

    ghost invariant = { λ w. IsSoundWorld (record { routers = w.routers.items; joints = w.joints.items; frames = w.frames.items; given = w.given.items }) };
}

impl World {
    /// The world of these routers, which are opened and run, and of these wires: no frame was sent, and no label given. Joints name
    /// routers by their places among the configurations.
    ///
    /// The fault is [`WorldFault::Routers`] where there is no router, or more than [`MAX_ROUTERS`]. Else it is [`WorldFault::Joint`]
    /// with the first joint that can't be put up, or [`WorldFault::Memory`] where there isn't memory enough.
    pub fn new(alloc: Global, configs: Vec<Config>, joints: &[Joint]) -> Result<World, WorldFault>
        ensures opened { IfOk result (λ world. world ≡ opened_world (map opened configs.items) joints.now) }
        ensures can { IfOk result (λ world. CanOpen (routers_in (map opened configs.items)) joints.now) }
        ensures fault { IfErr result (IsFaultOf (routers_in (map opened configs.items)) joints.now) }
    {
        if configs.is_empty() || configs.len() > MAX_ROUTERS {
            return Err(WorldFault::Routers);
        }
        let routers = open_all(alloc, configs)?;
        if let Some(number) = first_fault(routers.as_slice(), joints) {
            return Err(WorldFault::Joint(number));
        }
        Ok(World {
            joints: copy_of(alloc, joints)?,
            routers,
            frames: Vec::new(alloc),
            given: Vec::new(alloc),
        })
    }

    /// Whether the wires are as the routers take them to be: each joins links that name each other's address and router id, and
    /// no address is one of two routers, be it a router id or the address of a link.
    pub fn closed(&self) -> bool
        ensures { result ≡ is_closed (routers_in self.now.routers) self.now.joints }
    {
        is_closed(self.routers.as_slice(), self.joints.as_slice())
    }

    /// The frame of this number as it was sent, or `None` where no frame has this number.
    pub(crate) fn sent(&self, number: usize) -> Option<&Sent>
        ensures { option_copied result ≡ frame_of self.now.frames number }
    {
        if number == 0 {
            return None;
        }
        self.frames.get(number - 1)
    }

    /// The frame of this number, and the link that it was sent over, or `None` where no frame has this number.
    pub fn frame(&self, number: usize) -> Option<&Output>
        ensures { option_copied result ≡ option_map (λ sent. sent.output) (frame_of self.now.frames number) }
    {
        let sent = self.sent(number)?;
        Some(&sent.output)
    }

    /// How many frames were sent: the number of the last one.
    pub fn frames(&self) -> usize
        ensures { result ≡ length self.now.frames }
    {
        self.frames.len()
    }

    /// Whether the router of this place ever gave this label to the LSP of this session and LSP ID.
    pub fn given(&self, router: usize, session: &Session, lsp: u16, label: u32) -> bool
        ensures { result ≡ is_given (record { router = router; session = session.now; lsp = lsp; label = label }) self.now.given }
    {
        let wanted = Given {
            router,
            session: *session,
            lsp,
            label,
        };
        is_given(&wanted, self.given.as_slice())
    }

    /// The router of this place, or `None` where there is none.
    pub fn router(&self, place: usize) -> Option<&Machine>
        ensures { option_copied result ≡ at self.now place }
    {
        self.routers.get(place)
    }

    /// How many routers there are.
    pub fn routers(&self) -> usize
        ensures { result ≡ length self.now.routers }
    {
        self.routers.len()
    }

    /// What the router of this place knows, as a value. It is refused where there is no such router ([`Refusal::NoRouter`]); else
    /// the only error is out of memory ([`Refusal::NoMemory`]).
    pub fn facts(&self, alloc: Global, router: usize) -> Result<State, Refusal>
        ensures known { IfOk result (λ state. option_map (λ q. q.state) (at self.now router) ≡ Some state) }
        ensures refused { IfErr result (IsUnknown self.now router) }
    {
        match self.routers.get(router) {
            Some(machine) => Ok(machine.export(alloc)?),
            None => Err(Refusal::NoRouter),
        }
    }

    /// Each router is sound, and each wire could be put up. A law: it does nothing when it runs.
    pub fn soundness(&self)
        ensures { IsWorld self.now.routers self.now.joints }
    {
        // Whoever opens the value sees its invariant.
        let _routers = &self.routers;
    }

    /// Where the world is closed ([`World::closed`]), each label that a table of a router sends frames under, over a link, was given
    /// by the router at the other end for that same LSP (over a bypass: the outer label for the bypass's LSP, the inner one for the
    /// LSP by the router that the bypass ends at); and each frame that was ever sent is truthful. A law: it does nothing when it runs.
    pub fn labels_were_given(&self)
        ensures labels { is_closed (routers_in self.now.routers) self.now.joints ≡ true → AreLabelsGiven self.now }
        ensures frames { is_closed (routers_in self.now.routers) self.now.joints ≡ true → AllByRecursion (IsTruthful self.now) self.now.frames }
    {
        sent_labels_were_given();
        let _routers = &self.routers;
    }
}
