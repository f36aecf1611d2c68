//! Messages that came.

ghost use Rattle.std.specs.Prelude.{◌≡◌, ◌++◌, ◌∷◌, [], OnOk};
ghost use Rattle.byteorder.specs.Endian.{big_bytes};
ghost use Rattle.rsvp_contents.specs.Picking.{content_in};
ghost use Rattle.rsvp_contents.specs.Written.{message_bytes};
ghost use Rattle.link_frames.specs.Frames.{IsReadAgain};
ghost use Rattle.journal_bytes.specs.Events.{arrive_bytes, counted_bytes, reading_bytes, relay_bytes, way_number};

use crate::counted::put_counted;
use crate::numbers::*;
use abstract_paths::{ArrivalWay, Arrive, Relay};
use rsvp_contents::{Message, Reading};
use rsvp_messages::write_message;
use std::alloc::AllocError;

/// Room for what most messages are written as, so that it doesn't move as it grows.
pub(crate) const MESSAGE_ROOM: usize = 512;

/// The number of the way.
fn way_number(way: ArrivalWay) -> u8
    ensures { result ≡ way_number way }
{
    match way {
        ArrivalWay::Hop => WAY_HOP,
        ArrivalWay::Stack => WAY_STACK,
        ArrivalWay::Routed => WAY_ROUTED,
    }
}

/// Appends the message's bytes, and before them how many they are.
fn put_message(message: &Message, out: &mut Vec<u8>) -> Result<(), AllocError>
    ensures ok { OnOk result
        (out.new.items ≡ out.old.items ++ counted_bytes (message_bytes message.now)) }
    ensures again { OnOk result (IsReadAgain message.now) }
{
    let mut bytes = Vec::with_capacity(*out.allocator(), MESSAGE_ROOM)?;
    write_message(message, &mut bytes)?;
    put_counted(bytes.as_slice(), out)
}

/// Appends what the message was read as: its bytes, and the object that its type doesn't know.
fn put_reading(reading: &Reading, out: &mut Vec<u8>) -> Result<(), AllocError>
    ensures ok { OnOk result (out.new.items ≡ out.old.items ++ reading_bytes reading.now) }
    ensures again { OnOk result (IsReadAgain (content_in reading.now)) }
{
    match reading {
        Reading::Whole(message) => {
            put_message(message, out)?;
            out.extend_from_slice(&[ABSENT])
        }
        Reading::Unknown(message, class, ctype) => {
            put_message(message, out)?;
            out.extend_from_slice(&[PRESENT, *class, *ctype])
        }
    }
}

/// Appends the link and the way of a message for this router.
fn put_arrival(link: u16, way: ArrivalWay, out: &mut Vec<u8>) -> Result<(), AllocError>
    ensures ok { OnOk result
        (out.new.items ≡ out.old.items ++ (big_bytes 2 link ++ (way_number way ∷ []))) }
{
    let [high, low] = link.to_be_bytes();
    out.extend_from_slice(&[high, low, way_number(way)])
}

/// Appends a message for this router.
pub(crate) fn put_arrive(arrive: &Arrive, out: &mut Vec<u8>) -> Result<(), AllocError>
    ensures ok { OnOk result (out.new.items ≡ out.old.items ++ arrive_bytes arrive.now) }
    ensures again { OnOk result (IsReadAgain (content_in arrive.now.reading)) }
{
    put_arrival(arrive.link, arrive.way, out)?;
    put_reading(&arrive.reading, out)
}

/// Appends a message for another router.
pub(crate) fn put_relay(relay: &Relay, out: &mut Vec<u8>) -> Result<(), AllocError>
    ensures ok { OnOk result (out.new.items ≡ out.old.items ++ relay_bytes relay.now) }
{
    out.extend_from_slice(&relay.link.to_be_bytes())?;
    out.extend_from_slice(&relay.to.octets())?;
    out.extend_from_slice(&[relay.limit])?;
    put_counted(relay.message.as_slice(), out)
}
