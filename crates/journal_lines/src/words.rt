//! The words of an event, as a line of `lsr step` has them.
ghost use Rattle.std.specs.Prelude.{◌≡◌, ◌++◌, OnOk, codes, string_bytes, true, false};
ghost use Rattle.std.specs.List.{list_all};
ghost use Rattle.std.specs.Option.{MatchOption};
ghost use Rattle.std.specs.Net.Addr.{ipv4_octets};
ghost use Rattle.link_frames.specs.Frames.{routed_bytes};
ghost use Rattle.lsr_text.specs.FrameLines.{bytes_words};
ghost use Rattle.journal_lines.specs.Words.{command_words, event_words, is_letter, is_word, name_word, tunnel_words};

use abstract_paths::{ArrivalWay, Command, NewTunnel};
use event_fields::UnreadEvent;
use link_frames::{KIND_LABELLED, KIND_ROUTED, PAYLOAD_MESSAGE};
use lsr_facts::Router;
use lsr_text::{push_bytes_words, push_name, push_prefix, push_steps};
use object_text::rate_bytes;
use std::alloc::{AllocError, Global};
use std::fmt::Write;
use std::net::Ipv4Addr;

/// The control byte that stands after the letters of ASCII.
const DELETE: u8 = 127;

/// How many entries a stack has that has ended.
const NO_ENTRIES: u8 = 0;

/// What is left of a message's limit at the last router.
const LAST_LIMIT: u8 = 1;

/// Whether all bytes may stand in a word: none is a space or a control byte.
fn are_letters(bytes: &[u8]) -> bool
    ensures { result ≡ list_all is_letter bytes.now }
{
    bytes.iter().all(|byte| *byte > b' ' && *byte != DELETE)
}

/// The name as a word: without spaces and control bytes, in UTF-8. None where it is none.
pub(crate) fn word_of(name: &[u8]) -> Option<&str>
    ensures { MatchOption result (is_word name.now ≡ false) (λ word. (is_word name.now ≡ true) × (word.now ≡ name.now)) }
{
    if name.is_empty() || !are_letters(name) {
        return None;
    }
    match str::from_utf8(name) {
        Ok(word) => Some(word),
        Err(_) => None,
    }
}

/// Appends a name: as it is where it is a word, else between quotes.
fn push_name_word(alloc: Global, text: &mut String, name: &[u8]) -> Result<(), AllocError>
    ensures { OnOk result (string_bytes text.new ≡ string_bytes text.old ++ name_word name.now) }
{
    match word_of(name) {
        Some(word) => text.push_str(word),
        None => push_name(alloc, text, name),
    }
}

/// Appends `tunnel N ENDPOINT RATE SETUP HOLD FLAGS NAME [ROUTE..]`.
fn push_tunnel(alloc: Global, text: &mut String, tunnel: &NewTunnel) -> Result<(), AllocError>
    ensures { OnOk result (string_bytes text.new ≡ string_bytes text.old ++ tunnel_words tunnel.now) }
{
    let number = tunnel.number;
    let endpoint = tunnel.endpoint;
    let rate = hex::encode(alloc, rate_bytes(tunnel.tspec.as_slice()))?;
    write!(text, "tunnel {number} {endpoint} {rate} ")?;
    let setup = tunnel.attr.setup;
    let hold = tunnel.attr.hold;
    let flags = hex::encode(alloc, [tunnel.attr.flags])?;
    write!(text, "{setup} {hold} {flags} ")?;
    push_name_word(alloc, text, tunnel.attr.name.as_slice())?;
    push_steps(alloc, text, tunnel.route.as_slice())
}

/// Appends what an operator told a router.
fn push_command(alloc: Global, text: &mut String, command: &Command) -> Result<(), AllocError>
    ensures { OnOk result (string_bytes text.new ≡ string_bytes text.old ++ command_words command.now) }
{
    match command {
        Command::AddTunnel(tunnel) => push_tunnel(alloc, text, tunnel),
        Command::ChangeTunnel(change) => {
            let number = change.number;
            let rate = hex::encode(alloc, rate_bytes(change.tspec.as_slice()))?;
            write!(text, "change {number} {rate}")?;
            push_steps(alloc, text, change.route.as_slice())
        }
        Command::CancelChange(number) => write!(text, "cancel {number}"),
        Command::DropTunnel(number) => write!(text, "drop {number}"),
        Command::AddBypass(bypass) => {
            let number = bypass.number;
            let tunnel = bypass.tunnel;
            let link = bypass.link;
            let capacity = bypass.capacity;
            write!(text, "bypass {number} {tunnel} {link} {capacity}")
        }
        Command::DropBypass(number) => write!(text, "unbypass {number}"),
        Command::AddRoute(prefix, link) => {
            text.push_str("route ")?;
            push_prefix(text, *prefix)?;
            write!(text, " {link}")
        }
        Command::DropRoute(prefix) => {
            text.push_str("unroute ")?;
            push_prefix(text, *prefix)
        }
    }
}

/// Appends `frame LINK HEX`: a frame with this message after this head.
fn push_frame(
    alloc: Global,
    text: &mut String,
    link: u16,
    head: &[u8],
    message: &[u8],
) -> Result<(), AllocError>
    ensures { OnOk result (string_bytes text.new ≡ string_bytes text.old ++ bytes_words (codes "frame") link (head.now ++ message.now)) }
{
    let mut frame = Vec::from_slice(alloc, head)?;
    frame.extend_from_slice(message)?;
    push_bytes_words(alloc, text, "frame", link, frame.as_slice())
}

/// Appends `frame LINK HEX`: a Routed frame to this address with this message.
fn push_routed(
    alloc: Global,
    text: &mut String,
    link: u16,
    to: Ipv4Addr,
    limit: u8,
    message: &[u8],
) -> Result<(), AllocError>
    ensures { OnOk result (string_bytes text.new ≡ string_bytes text.old ++ bytes_words (codes "frame") link (routed_bytes (ipv4_octets to) limit message.now)) }
{
    let [a, b, c, d] = to.octets();
    push_frame(
        alloc,
        text,
        link,
        &[KIND_ROUTED, a, b, c, d, limit],
        message,
    )
}

/// Appends the words of what happened to the router. The only error is out of memory.
pub(crate) fn push_words(
    alloc: Global,
    text: &mut String,
    router: &Router,
    event: &UnreadEvent,
) -> Result<(), AllocError>
    ensures { OnOk result (string_bytes text.new ≡ string_bytes text.old ++ event_words router.now event.now) }
{
    match event {
        UnreadEvent::Arrive(arrive) => {
            let message = arrive.message.as_slice();
            match arrive.way {
                ArrivalWay::Hop => push_bytes_words(alloc, text, "rx", arrive.link, message),
                ArrivalWay::Stack => {
                    let head = [KIND_LABELLED, NO_ENTRIES, PAYLOAD_MESSAGE];
                    push_frame(alloc, text, arrive.link, &head, message)
                }
                ArrivalWay::Routed => {
                    push_routed(alloc, text, arrive.link, router.id, LAST_LIMIT, message)
                }
            }
        }
        UnreadEvent::Relay(relay) => {
            let message = relay.message.as_slice();
            push_routed(alloc, text, relay.link, relay.to, relay.limit, message)
        }
        UnreadEvent::Tick(moment) => write!(text, "tick {moment}"),
        UnreadEvent::LinkUp(link) => write!(text, "up {link}"),
        UnreadEvent::LinkDown(link) => write!(text, "down {link}"),
        UnreadEvent::Restart => text.push_str("restart"),
        UnreadEvent::Start => text.push_str("start"),
        UnreadEvent::Command(command) => push_command(alloc, text, command),
    }
}
