//! What an operator tells a router.

ghost use Rattle.std.specs.Prelude.{◌≡◌, IfOk, OnErr, true};
ghost use Rattle.abstract_paths.specs.Commanding.{has_route};

use crate::tunnels::{NewBypass, NewTunnel, TunnelChange};
use rsvp_contents::Prefix;
use sorted_rows::TryCopy;
use std::alloc::{AllocError, Global};

/// What an operator tells a router.
#[derive(Debug, Drop)]
pub enum Command {
    /// A tunnel is to begin here.
    AddTunnel(NewTunnel),
    /// A tunnel is to take another route, or to carry other traffic (RFC 3209, 2.5).
    ChangeTunnel(TunnelChange),
    /// The change of the tunnel of this number is to be given up.
    CancelChange(u16),
    /// The tunnel of this number is to go.
    DropTunnel(u16),
    /// A bypass is to protect a link.
    AddBypass(NewBypass),
    /// The bypass of this number is to go.
    DropBypass(u16),
    /// What goes to these addresses is to leave by the link of this number.
    AddRoute(Prefix, u16),
    /// The static route to these addresses is to go.
    DropRoute(Prefix),
}

impl Command {
    /// A copy of the command. The only error is out of memory, and it comes for one that has a route alone.
    pub fn copied(&self, alloc: Global) -> Result<Command, AllocError>
        ensures ok { IfOk result (λ copy. copy ≡ self.now) }
        ensures memory { OnErr result (has_route self.now ≡ true) }
    {
        match self {
            Command::AddTunnel(tunnel) => Ok(Command::AddTunnel(tunnel.try_copy(alloc)?)),
            Command::ChangeTunnel(change) => Ok(Command::ChangeTunnel(change.try_copy(alloc)?)),
            Command::CancelChange(number) => Ok(Command::CancelChange(*number)),
            Command::DropTunnel(number) => Ok(Command::DropTunnel(*number)),
            Command::AddBypass(bypass) => Ok(Command::AddBypass(*bypass)),
            Command::DropBypass(number) => Ok(Command::DropBypass(*number)),
            Command::AddRoute(prefix, link) => Ok(Command::AddRoute(*prefix, *link)),
            Command::DropRoute(prefix) => Ok(Command::DropRoute(*prefix)),
        }
    }
}

impl TryCopy for Command {
    fn try_copy(&self, alloc: Global) -> Result<Command, AllocError> {
        self.copied(alloc)
    }
}
