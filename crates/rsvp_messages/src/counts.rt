ghost use Rattle.std.specs.Prelude.{◌≡◌, [], OnOk, IfOk, IfErr, List};
ghost use Rattle.rsvp_bodies.specs.Reading.{SpellsEach};
ghost use Rattle.rsvp_objects.specs.declared.object.Object.{Object};
ghost use Rattle.rsvp_objects.specs.Objects.{SpellsObject};
ghost use Rattle.rsvp_contents.specs.Counting.{counted};
ghost use Rattle.rsvp_messages.specs.Counts.{AreClasses, SpellsCounting};

use crate::look::repeats;
use rsvp_bodies::ObjectFault;
use rsvp_objects::{Object, read_object};
use std::alloc::{AllocError, Global};

/// The objects of a Path with all that it can have (RFC 2205, 3.1.3; RFC 3209, 3.1; RFC 4090, 4.1). Few messages have
/// more, so room for them is taken at once.
const USUAL_OBJECTS: usize = 11;

/// How many classes there are: a class is a byte (RFC 2205, 3.1.2).
const CLASSES: usize = 256;

/// The classes of no objects.
fn no_classes() -> [bool; CLASSES]
    ensures { AreClasses result [] }
{
    [false; CLASSES]
}

/// Keeps the object if it counts in a message of this type beside those that count already: the first of a
/// class does, and every one of a class of which several do (RFC 2205, 3.1.2). Which classes count already is told by
/// class.
fn count_in(
    kind: u8,
    kept: &mut Vec<Object>,
    has_class: &mut [bool; CLASSES],
    object: Object,
) -> Result<(), AllocError>
    requires { AreClasses has_class.old kept.old.items }
    ensures counted { OnOk result (kept.new.items ≡ counted kind kept.old.items object) }
    ensures classes { OnOk result (AreClasses has_class.new kept.new.items) }
{
    let class = usize::from(object.class());
    if !has_class[class] || repeats(kind, &object) {
        kept.push(object)?;
        has_class[class] = true;
    }
    Ok(())
}

/// The objects that count in a message of this type among those that the bytes spell.
pub fn read_objects(alloc: Global, kind: u8, bytes: &[u8]) -> Result<Vec<Object>, ObjectFault>
    ensures found { IfOk result (λ kept. SpellsCounting kind bytes.now kept.items) }
    ensures fault { IfErr result (λ fault. fault ≡ ObjectFault.Length → (objects : List Object) → SpellsEach SpellsObject bytes.now objects → ⊥) }
{
    let mut kept = Vec::with_capacity(alloc, USUAL_OBJECTS)?;
    let mut has_class = no_classes();
    let mut rest = bytes;
    while !rest.is_empty() {
        let (object, len) = read_object(alloc, rest)?;
        count_in(kind, &mut kept, &mut has_class, object)?;
        rest = rest.split_at(len).1;
    }
    Ok(kept)
}
