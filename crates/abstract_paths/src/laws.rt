//! What the types of events keep: laws, each the contract of a function that changes nothing. It reads a command's route, and
//! nothing else of an event.

ghost use Rattle.rsvp_contents.specs.Picking.{content_in};
ghost use Rattle.rsvp_contents.specs.Spelling.{IsMessage};
ghost use Rattle.std.specs.List.{AllByRecursion};
ghost use Rattle.rsvp_bodies.specs.Affinities.{IsAffinities};
ghost use Rattle.abstract_paths.specs.Events.{IsArrive, IsAskedAttr, IsCommand, IsEvent, IsNewBypass, IsNewTunnel, IsPrefix, IsProtection, IsRelay, IsRoute, IsStep, IsTunnelChange, IsUnknown};

use crate::commands::Command;
use crate::events::Event;
use crate::tunnels::{NewBypass, NewTunnel, TunnelChange};
use crate::ways::{Arrive, Relay};
use link_frames::Reading;
use rsvp_bodies::{Affinities, Attr, Prefix, Route, Step};
use rsvp_contents::FastReroute;

/// Octets of an address.
const ADDRESS_LEN: usize = 4;

/// A set of addresses that can be.
fn is_prefix(prefix: &Prefix)
    ensures { IsPrefix prefix.now }
{
    let _bits = prefix.length;
    prove!(prefix.address.octets().len() == ADDRESS_LEN);
}

/// A step that can be.
fn is_step(step: &Step)
    ensures { IsStep step.now }
{
    match step {
        Step::Ipv4 { prefix, .. } => is_prefix(prefix),
        Step::Other(bytes) => {
            bytes.as_slice();
        }
    }
}

/// Steps that can be.
fn are_steps(steps: &[Step])
    ensures { AllByRecursion IsStep steps.now }
{
    for step in steps {
        is_step(step);
    }
}

/// A route that may be asked for.
fn is_route(route: &Route)
    ensures { IsRoute route.now }
{
    are_steps(route.as_slice());
}

/// Affinities that can be.
fn is_affinities(_affinities: Affinities)
    ensures { IsAffinities _affinities }
{}

/// Attributes that may be asked for.
fn is_attr(attr: &Attr)
    ensures { IsAskedAttr attr.now }
{
    let _setup = attr.setup;
    let _hold = attr.hold;
    let _flags = attr.flags;
    attr.name.as_slice();
    if let Some(affinities) = attr.affinities {
        is_affinities(affinities);
    }
}

/// Protection that may be asked for.
fn is_protection(protection: FastReroute)
    ensures { IsProtection protection }
{
    let _bandwidth = protection.bandwidth.to_bits();
    is_affinities(protection.affinities);
}

/// A tunnel that may be asked for.
fn is_new_tunnel(tunnel: &NewTunnel)
    ensures { IsNewTunnel tunnel.now }
{
    let _number = tunnel.number;
    prove!(tunnel.endpoint.octets().len() == ADDRESS_LEN);
    is_route(&tunnel.route);
    is_attr(&tunnel.attr);
    if let Some(protection) = tunnel.fast_reroute {
        is_protection(protection);
    }
}

/// A change of a tunnel that may be asked for.
fn is_tunnel_change(change: &TunnelChange)
    ensures { IsTunnelChange change.now }
{
    let _number = change.number;
    is_route(&change.route);
}

/// A bypass that may be asked for.
fn is_new_bypass(bypass: &NewBypass)
    ensures { IsNewBypass bypass.now }
{
    let NewBypass {
        number: _number,
        tunnel: _tunnel,
        link: _link,
        capacity: _capacity,
    } = *bypass;
}

/// A command that can be.
fn is_command(command: &Command)
    ensures { IsCommand command.now }
{
    match command {
        Command::AddTunnel(tunnel) => is_new_tunnel(tunnel),
        Command::ChangeTunnel(change) => is_tunnel_change(change),
        Command::AddBypass(bypass) => is_new_bypass(bypass),
        Command::CancelChange(number) | Command::DropTunnel(number) | Command::DropBypass(number) =>
            {
                let _number = *number;
            }
        Command::AddRoute(prefix, link) => {
            is_prefix(prefix);
            let _link = *link;
        }
        Command::DropRoute(prefix) => is_prefix(prefix),
    }
}

/// What a message was read as that can come.
fn is_reading(reading: &Reading)
    ensures message { IsMessage (content_in reading.now) }
    ensures unknown { IsUnknown reading.now }
{
    match reading {
        Reading::Whole(message) => {
            message.content();
        }
        Reading::Unknown(message, class, ctype) => {
            message.content();
            let _class = *class;
            let _ctype = *ctype;
        }
    }
}

/// A message that can come.
fn is_arrive(arrive: &Arrive)
    ensures { IsArrive arrive.now }
{
    let _link = arrive.link;
    is_reading(&arrive.reading);
}

/// A message for another router that can come.
fn is_relay(relay: &Relay)
    ensures { IsRelay relay.now }
{
    let _link = relay.link;
    let _limit = relay.limit;
    relay.message.as_slice();
    prove!(relay.to.octets().len() == ADDRESS_LEN);
}

/// Every event that there is can be, by its type. A law: it changes nothing, and takes no memory.
pub fn is_possible(event: &Event)
    ensures { IsEvent event.now }
{
    match event {
        Event::Arrive(arrive) => is_arrive(arrive),
        Event::Relay(relay) => is_relay(relay),
        Event::Command(command) => is_command(command),
        Event::Tick(moment) => {
            let _moment = *moment;
        }
        Event::LinkUp(number) | Event::LinkDown(number) => {
            let _number = *number;
        }
        Event::Restart | Event::Start => {}
    }
}
