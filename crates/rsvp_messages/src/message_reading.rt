ghost use Rattle.std.specs.Prelude.{◌≡◌, Err, IfSome, Ok};
ghost use Rattle.rsvp_bodies.specs.declared.fault.ObjectFault.TheVariants as faults;
ghost use Rattle.rsvp_contents.specs.declared.message.Reading.{Reading};
ghost use Rattle.rsvp_contents.specs.Picking.{content_in, kept_read};
ghost use Rattle.rsvp_contents.specs.Spelling.{IsMessage, ReadsMessage, header_fault};
ghost use Rattle.rsvp_messages.specs.Answering.{IsAnswer, fault_for};

use crate::content_reading::{content_of, is_short, reading_of};
use crate::counts::read_objects;
use crate::header_reading::header_fault;
use crate::look::{has_class, is_misplaced, leave_looked_at, refused_in};
use crate::parts_reading::parts_of;
use rsvp_bodies::ObjectFault;
use rsvp_contents::numbers::HEADER_LEN;
use rsvp_contents::{Dropped, Reading};
use rsvp_objects::Object;
use rsvp_objects::numbers::CLASS_INTEGRITY;
use std::alloc::Global;

/// The fault of a message whose objects are refused so.
fn fault_for(fault: ObjectFault) -> Dropped
    ensures { result ≡ fault_for fault }
{
    match fault {
        ObjectFault::Length => Dropped::ObjectLength,
        ObjectFault::Memory => Dropped::NoMemory,
    }
}

/// What a message of this type says by the objects that count and are looked at, or its first fault.
/// [`Dropped::NoMemory`] can come in place of any answer.
fn read_kept(alloc: Global, kind: u8, objects: Vec<Object>) -> Result<Reading, Dropped>
    requires { (reading : Reading) → kept_read kind objects.items ≡ Ok reading → IsMessage (content_in reading) }
    ensures { IsAnswer result (kept_read kind objects.items) }
{
    if has_class(objects.as_slice(), CLASS_INTEGRITY) {
        return Err(Dropped::Integrity);
    }
    let refused = refused_in(kind, objects.as_slice());
    let misplaced = is_misplaced(objects.as_slice());
    let Ok((parts, passing, flows)) = parts_of(alloc, kind, objects) else {
        return Err(Dropped::NoMemory);
    };
    if !is_short(kind, &parts, &passing, flows.as_slice()) {
        return Err(Dropped::TooLong);
    }
    let Ok(content) = content_of(alloc, kind, parts, passing, misplaced, flows.as_slice()) else {
        return Err(Dropped::NoMemory);
    };
    let Some(content) = content else {
        return Err(Dropped::MissingObject);
    };
    match reading_of(alloc, content, refused) {
        Ok(reading) => Ok(reading),
        Err(_no_memory) => Err(Dropped::NoMemory),
    }
}

/// Reads a message, or tells its first fault.
///
/// Faults are looked for in this order: the common header's (RFC 2205, 3.1.1), an object's length or body
/// wherever it stands, an INTEGRITY object, limits, what is absent or breaks the grammar of flow descriptors.
/// [`Dropped::NoMemory`] can come in place of any answer but a fault of the common header, and says nothing
/// of the message.
pub fn read_message(alloc: Global, bytes: &[u8]) -> Result<Reading, Dropped>
    ensures reads { ReadsMessage bytes.now result }

    // A fault of the common header takes no memory to tell.
    ensures header { IfSome (header_fault bytes.now) (λ fault. result ≡ Err fault) }
{
    if let Some(fault) = header_fault(bytes) {
        return Err(fault);
    }
    let kind = bytes[1];
    let (_header, body) = bytes.split_at(HEADER_LEN);
    let mut objects = match read_objects(alloc, kind, body) {
        Ok(objects) => objects,
        Err(fault) => return Err(fault_for(fault)),
    };
    leave_looked_at(kind, &mut objects);
    read_kept(alloc, kind, objects)
}
