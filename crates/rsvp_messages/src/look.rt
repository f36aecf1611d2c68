//! What one object is among the objects of a message.

ghost use Rattle.std.specs.Prelude.{◌≡◌, find, take, false};
ghost use Rattle.std.specs.Option.{option_map, option_map_or};
ghost use Rattle.rsvp_objects.specs.Objects.{raw_of};
ghost use Rattle.rsvp_objects.specs.declared.object.Object.TheVariants.{Other};
ghost use Rattle.rsvp_contents.specs.Flows.{is_flow};
ghost use Rattle.rsvp_contents.specs.Styles.{is_other};
ghost use Rattle.rsvp_contents.specs.Behind.{is_misplaced, looked_at, up_to_style};
ghost use Rattle.rsvp_contents.specs.Counting.{class_of, object_kind, has_class, has_style, is_flow_class, repeats, is_used_by_path, is_used_by_resv, refuses};
ghost use Rattle.rsvp_contents.specs.Values.{picked, as_style};

use rsvp_contents::is_other;
use rsvp_contents::numbers::*;
use rsvp_objects::numbers::*;
use rsvp_objects::{Kind, Object, Opaque, Style, Treatment};

/// What the object is, as far as its class and C-Type tell.
fn object_kind(object: &Object) -> Kind
    ensures { result ≡ object_kind object.now }
{
    Kind::of(object.class(), object.ctype())
}

/// Whether there is an object of this class.
pub fn has_class(objects: &[Object], class: u8) -> bool
    ensures { result ≡ has_class class objects.now }
{
    objects.iter().any(|object| object.class() == class)
}

/// Whether messages of this type have a STYLE, and flow descriptors after it.
pub fn has_style(kind: u8) -> bool
    ensures { result ≡ has_style kind }
{
    matches!(kind, TYPE_RESV | TYPE_RESV_ERR | TYPE_RESV_TEAR)
}

/// Whether the class is one of flow descriptors.
fn is_flow_class(class: u8) -> bool
    ensures { result ≡ is_flow_class class }
{
    matches!(
        class,
        CLASS_FLOWSPEC | CLASS_FILTER_SPEC | CLASS_LABEL | CLASS_RECORD_ROUTE
    )
}

/// Whether the object is one of flow descriptors.
pub fn is_flow(object: &Object) -> bool
    ensures { result ≡ is_flow object.now }
{
    matches!(
        object,
        Object::Flowspec(_) | Object::FilterSpec(_) | Object::Label(_) | Object::RecordRoute(_)
    )
}

/// Whether several objects of this object's class count in a message of this type.
pub fn repeats(kind: u8, object: &Object) -> bool
    ensures { result ≡ repeats kind object.now }
{
    matches!(object_kind(object), Kind::PolicyData | Kind::Unknown(_))
        || (has_style(kind) && is_flow_class(object.class()))
}

/// Whether a Path uses the class.
fn is_used_by_path(class: u8) -> bool
    ensures { result ≡ is_used_by_path class }
{
    matches!(
        class,
        CLASS_SESSION
            | CLASS_RSVP_HOP
            | CLASS_TIME_VALUES
            | CLASS_SENDER_TEMPLATE
            | CLASS_SENDER_TSPEC
            | CLASS_LABEL_REQUEST
            | CLASS_EXPLICIT_ROUTE
            | CLASS_RECORD_ROUTE
            | CLASS_SESSION_ATTRIBUTE
    )
}

/// Whether a Resv uses the class.
fn is_used_by_resv(class: u8) -> bool
    ensures { result ≡ is_used_by_resv class }
{
    matches!(
        class,
        CLASS_SESSION
            | CLASS_RSVP_HOP
            | CLASS_TIME_VALUES
            | CLASS_STYLE
            | CLASS_FLOWSPEC
            | CLASS_FILTER_SPEC
            | CLASS_LABEL
            | CLASS_RECORD_ROUTE
    )
}

/// Whether a message of this type with an object that is kept as its bytes is one that isn't known (RFC 2205, 3.10
/// and B, 13 and 14).
fn refuses_kept(kind: u8, other: &Opaque) -> bool
    ensures { result ≡ refuses kind (Other other.now) }
{
    match other.kind() {
        Kind::Unknown(Treatment::Reject) => kind == TYPE_PATH || kind == TYPE_RESV,
        Kind::Unlisted if kind == TYPE_PATH => is_used_by_path(other.class()),
        Kind::Unlisted => kind == TYPE_RESV && is_used_by_resv(other.class()),
        _ => false,
    }
}

/// Whether a message of this type with the object is one that isn't known. An object that is read is known.
fn refuses(kind: u8, object: &Object) -> bool
    ensures { result ≡ refuses kind object.now }
{
    match object {
        Object::Other(other) => refuses_kept(kind, other),
        _ => false,
    }
}

/// The class and C-Type of the first object that makes a message of this type one that isn't known.
pub fn refused_in(kind: u8, objects: &[Object]) -> Option<(u8, u8)>
    ensures { result ≡ option_map (λ o. (class_of o, (raw_of o).ctype)) (find (refuses kind) objects.now) }
{
    let object = objects.iter().find(|object| refuses(kind, object))?;
    Some((object.class(), object.ctype()))
}

/// The STYLE of a message.
fn style_of(objects: &[Object]) -> Option<Style>
    ensures { result ≡ picked as_style objects.now }
{
    for object in objects {
        if let Object::Style(style) = object {
            return Some(*style);
        }
    }
    None
}

/// How many of the objects stand up to STYLE, with it.
fn style_end(objects: &[Object]) -> usize
    ensures { take result objects.now ≡ up_to_style objects.now }
{
    for (index, object) in objects.iter().enumerate() {
        if let Object::Style(_) = object {
            return index + 1;
        }
    }
    objects.len()
}

/// Whether the STYLE is neither FF nor SE.
fn has_other_style(objects: &[Object]) -> bool
    ensures { result ≡ option_map_or is_other (picked as_style objects.now) false }
{
    match style_of(objects) {
        Some(style) => is_other(style),
        None => false,
    }
}

/// Leaves the objects that are looked at: of a Resv of another style than FF and SE those up to STYLE.
pub fn leave_looked_at(kind: u8, objects: &mut Vec<Object>)
    ensures { objects.new.items ≡ looked_at kind objects.old.items }
{
    if kind == TYPE_RESV && has_other_style(objects.as_slice()) {
        let end = style_end(objects.as_slice());
        objects.truncate(end);
    }
}

/// Whether an object of a class of flow descriptors stands before STYLE.
pub fn is_misplaced(objects: &[Object]) -> bool
    ensures { result ≡ is_misplaced objects.now }
{
    for object in objects {
        if let Object::Style(_) = object {
            return false;
        }
        if is_flow_class(object.class()) {
            return true;
        }
    }
    false
}
