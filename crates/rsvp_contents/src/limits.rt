//! The limits on what a message carries, and what it passes on.

ghost use Rattle.std.specs.Prelude.{◌≡◌};
ghost use Rattle.std.specs.List.{list_all};
ghost use Rattle.rsvp_objects.specs.declared.object.Object.TheVariants.{Other};
ghost use Rattle.rsvp_contents.specs.Counting.{passes};
ghost use Rattle.rsvp_contents.specs.Limits.{are_short_records, is_short_route, is_short_record, is_short_passing, step_has_address};

use crate::numbers::*;
use crate::passing::Passing;
use rsvp_objects::numbers::CLASS_FAST_REROUTE;
use rsvp_objects::{Kind, Object, Opaque, Record, Route, Step, Treatment};

/// Whether the address of a step, where it has one, is four octets. It always is.
fn has_address(step: &Step) -> bool
    ensures { result ≡ step_has_address step.now }
{
    match step {
        Step::Ipv4 { prefix, .. } => prefix.address.octets().len() == ADDRESS_LEN,
        Step::Other(_) => true,
    }
}

/// Whether the addresses of all steps are four octets. They always are.
fn have_addresses(steps: &[Step]) -> bool
    ensures { result ≡ list_all step_has_address steps.now }
{
    steps.iter().all(|step| has_address(step))
}

/// Whether an explicit route is within its limits.
pub fn is_short_route(route: &Route) -> bool
    ensures { result ≡ is_short_route route.now }
{
    let steps = route.as_slice();
    steps.len() <= MAX_STEPS && route.byte_len() <= MAX_ROUTE_LEN && have_addresses(steps)
}

/// Whether a recorded route is within its limits.
pub fn is_short_record(recorded: &Record) -> bool
    ensures { result ≡ is_short_record recorded.now }
{
    recorded.as_slice().len() <= MAX_TRACES && recorded.byte_len() <= MAX_RECORD_LEN
}

/// Whether what is passed on is within its limits.
pub fn is_short_passing(passing: &Passing) -> bool
    ensures { result ≡ is_short_passing passing.now }
{
    let objects = passing.as_slice();
    if objects.len() > MAX_PASSING {
        return false;
    }
    let mut total = 0;
    for object in objects {
        let len = object.body().as_slice().len();
        if len > MAX_PASSING_BODY_LEN {
            return false;
        }
        total += len;
    }
    total <= MAX_PASSING_LEN
}

/// Whether each recorded route among the objects is within its limits.
pub fn are_short_records(objects: &[Object]) -> bool
    ensures { result ≡ are_short_records objects.now }
{
    objects.iter().all(|object| match object {
        Object::RecordRoute(recorded) => is_short_record(recorded),
        _ => true,
    })
}

/// Whether a message of this type passes the object on unread, in its place.
pub fn passes(kind: u8, other: &Opaque) -> bool
    ensures { result ≡ passes kind (Other other.now) }
{
    match other.kind() {
        Kind::PolicyData | Kind::Unknown(Treatment::Forward) => true,
        Kind::Unlisted => kind == TYPE_PATH && other.class() == CLASS_FAST_REROUTE,
        _ => false,
    }
}
