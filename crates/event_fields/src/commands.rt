ghost use Rattle.std.specs.Prelude.{◌≡◌};
ghost use Rattle.event_fields.specs.Commands.{command_parts};

use crate::tunnels::{ChangeField, NewBypassField, NewTunnelField};
use abstract_paths::{Command, NewBypass, NewTunnel, TunnelChange};
use body_fields::PrefixField;
use field_bytes::{Both, Choice, Field, OneOf, Only, Pair, ReadFault, Short};
use rsvp_bodies::Prefix;
use std::alloc::Global;

/// Commands of tunnels, whose codes are the first four.
type OfTunnels = Both<
    2,
    Both<1, Only<NewTunnelField>, Only<ChangeField>>,
    Both<1, Only<Short>, Only<Short>>,
>;

/// Commands of bypasses and static routes, whose codes are the next four.
type OfOthers = Both<
    2,
    Both<1, Only<NewBypassField>, Only<Short>>,
    Both<1, Only<Pair<PrefixField, Short>>, Only<PrefixField>>,
>;

/// What a code says, by halves.
type Told = OneOf<
    OneOf<OneOf<NewTunnel, TunnelChange>, OneOf<u16, u16>>,
    OneOf<OneOf<NewBypass, u16>, OneOf<(Prefix, u16), Prefix>>,
>;

/// A command's code, and what it says.
type CommandParts = Choice<1, Both<4, OfTunnels, OfOthers>>;

/// What an operator told a router: its code, and what the code says.
pub struct CommandField;

/// The command of what its code says.
fn command_of(parts: Told) -> Command
    ensures { command_parts result ≡ parts }
{
    match parts {
        OneOf::This(OneOf::This(OneOf::This(tunnel))) => Command::AddTunnel(tunnel),
        OneOf::This(OneOf::This(OneOf::Other(change))) => Command::ChangeTunnel(change),
        OneOf::This(OneOf::Other(OneOf::This(number))) => Command::CancelChange(number),
        OneOf::This(OneOf::Other(OneOf::Other(number))) => Command::DropTunnel(number),
        OneOf::Other(OneOf::This(OneOf::This(bypass))) => Command::AddBypass(bypass),
        OneOf::Other(OneOf::This(OneOf::Other(number))) => Command::DropBypass(number),
        OneOf::Other(OneOf::Other(OneOf::This((prefix, link)))) => Command::AddRoute(prefix, link),
        OneOf::Other(OneOf::Other(OneOf::Other(prefix))) => Command::DropRoute(prefix),
    }
}

impl Field for CommandField {
    ghost use Rattle.event_fields.specs.Commands.{command_bytes};
    ghost use Rattle.event_fields.specs.Fitting.{CommandFits};
    ghost use Rattle.event_fields.specs.Laws.{one_command};

    type Value = Command;

    ghost Fits = { CommandFits };

    ghost spelling = { command_bytes };

    ghost one = { one_command };

    fn read(alloc: Global, bytes: &[u8]) -> Result<(Command, &[u8]), ReadFault> {
        let (parts, rest) = <CommandParts as Field>::read(alloc, bytes)?;
        Ok((command_of(parts), rest))
    }
}
