//! Which events a line of `lsr step` tells.
ghost use Rattle.std.specs.Prelude.{◌≡◌, ◌&&◌, IfOk, length};
ghost use Rattle.std.specs.List.{list_all};
ghost use Rattle.journal_lines.specs.Telling.{is_prefix, is_rate_alone, tells_command, tells_event};

use crate::words::word_of;
use abstract_paths::Command;
use event_fields::UnreadEvent;
use explicit_routes::is_own;
use lsr_facts::Router;
use rsvp_bodies::{Route, Step, Tspec, tspec_of};
use std::alloc::{AllocError, Global};

/// The number that no link has.
const NO_LINK: u16 = 0;

/// Whether each step is a prefix.
fn are_prefixes(steps: &[Step]) -> bool
    ensures { result ≡ list_all is_prefix steps.now }
{
    steps.iter().all(|step| matches!(step, Step::Ipv4 { .. }))
}

/// Whether words tell the traffic by its rate alone, and each step by its prefix.
fn tells_way(alloc: Global, tspec: &Tspec, route: &Route) -> Result<bool, AllocError>
    requires { length tspec.now ≡ 32 }
    ensures { IfOk result (λ tells. tells ≡ (is_rate_alone tspec.now && list_all is_prefix route.now)) }
{
    let usual = tspec_of(alloc, tspec.rate_word())?;
    let is_usual = *tspec == usual;
    Ok(is_usual && are_prefixes(route.as_slice()))
}

/// Whether a line tells the command.
fn tells_command(alloc: Global, command: &Command) -> Result<bool, AllocError>
    ensures { IfOk result (λ tells. tells ≡ tells_command command.now) }
{
    match command {
        Command::AddTunnel(tunnel) => {
            let attr = &tunnel.attr;
            if tunnel.fast_reroute.is_some()
                || attr.affinities.is_some()
                || word_of(attr.name.as_slice()).is_none()
            {
                return Ok(false);
            }
            tells_way(alloc, &tunnel.tspec, &tunnel.route)
        }
        Command::ChangeTunnel(change) => tells_way(alloc, &change.tspec, &change.route),
        Command::AddBypass(bypass) => Ok(bypass.link != NO_LINK),
        Command::AddRoute(_, link) => Ok(*link != NO_LINK),
        Command::CancelChange(_)
        | Command::DropTunnel(_)
        | Command::DropBypass(_)
        | Command::DropRoute(_) => Ok(true),
    }
}

/// Whether a line tells the router the event. The only error is out of memory.
pub(crate) fn tells_event(
    alloc: Global,
    router: &Router,
    event: &UnreadEvent,
) -> Result<bool, AllocError>
    ensures { IfOk result (λ tells. tells ≡ tells_event router.now event.now) }
{
    match event {
        UnreadEvent::Arrive(arrive) => Ok(arrive.link != NO_LINK && arrive.unknown.is_none()),
        UnreadEvent::Relay(relay) => Ok(relay.link != NO_LINK && !is_own(router, relay.to)),
        UnreadEvent::LinkUp(link) | UnreadEvent::LinkDown(link) => Ok(*link != NO_LINK),
        UnreadEvent::Tick(_) | UnreadEvent::Restart | UnreadEvent::Start => Ok(true),
        UnreadEvent::Command(command) => tells_command(alloc, command),
    }
}
