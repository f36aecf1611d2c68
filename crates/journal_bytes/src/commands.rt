//! What an operator told a router.

ghost use Rattle.std.specs.Prelude.{◌≡◌, ◌++◌, ◌∷◌, OnOk};
ghost use Rattle.journal_bytes.specs.Events.{command_code, command_fields};

use crate::numbers::*;
use crate::routes::put_prefix;
use crate::tunnel_commands::{put_bypass, put_change, put_tunnel};
use abstract_paths::Command;
use std::alloc::AllocError;

/// The code of the command.
fn command_code(command: &Command) -> u8
    ensures { result ≡ command_code command.now }
{
    match command {
        Command::AddTunnel(_) => CODE_ADD_TUNNEL,
        Command::ChangeTunnel(_) => CODE_CHANGE_TUNNEL,
        Command::CancelChange(_) => CODE_CANCEL_CHANGE,
        Command::DropTunnel(_) => CODE_DROP_TUNNEL,
        Command::AddBypass(_) => CODE_ADD_BYPASS,
        Command::DropBypass(_) => CODE_DROP_BYPASS,
        Command::AddRoute(..) => CODE_ADD_ROUTE,
        Command::DropRoute(_) => CODE_DROP_ROUTE,
    }
}

/// Appends what stands after the command's code.
fn put_fields(command: &Command, out: &mut Vec<u8>) -> Result<(), AllocError>
    ensures ok { OnOk result (out.new.items ≡ out.old.items ++ command_fields command.now) }
{
    match command {
        Command::AddTunnel(tunnel) => put_tunnel(tunnel, out),
        Command::ChangeTunnel(change) => put_change(change, out),
        Command::CancelChange(number) | Command::DropTunnel(number) | Command::DropBypass(number) =>
            out.extend_from_slice(&number.to_be_bytes()),
        Command::AddBypass(bypass) => put_bypass(*bypass, out),
        Command::AddRoute(prefix, link) => {
            put_prefix(*prefix, out)?;
            out.extend_from_slice(&link.to_be_bytes())
        }
        Command::DropRoute(prefix) => put_prefix(*prefix, out),
    }
}

/// Appends the command.
pub(crate) fn put_command(command: &Command, out: &mut Vec<u8>) -> Result<(), AllocError>
    ensures ok { OnOk result (out.new.items ≡ out.old.items ++ (command_code command.now ∷ command_fields command.now)) }
{
    out.extend_from_slice(&[command_code(command)])?;
    put_fields(command, out)
}
