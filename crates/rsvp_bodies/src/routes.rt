ghost use Rattle.std.specs.Prelude.{◌≡◌, ◌++◌, OnOk, OnErr};
ghost use Rattle.rsvp_bodies.specs.Bodies.{IsBody};
ghost use Rattle.rsvp_bodies.specs.Reading.{ReadsWhole};
ghost use Rattle.rsvp_bodies.specs.Steps.{SpellsRoute, route_bytes};
ghost use Rattle.rsvp_bodies.specs.Traces.{SpellsRecord, record_bytes};

use crate::ObjectFault;
use crate::step::Step;
use crate::subobjects::Subobjects;
use crate::trace::Trace;
use std::alloc::{AllocError, Global};

/// The route that a path is to take: the steps of an EXPLICIT_ROUTE, the nearest first (RFC 3209, 4.3).
pub type Route = Subobjects<Step>;

/// The route that a message took: the entries of a RECORD_ROUTE, the one added last first (RFC 3209, 4.4).
pub type Record = Subobjects<Trace>;

/// The route that the body of an EXPLICIT_ROUTE spells. The fault is [`ObjectFault::Length`] where a step's
/// length is below 4, no multiple of 4, past the end or wrong for its type (RFC 3209, 4.3.3).
pub fn read_route(alloc: Global, bytes: &[u8]) -> Result<Route, ObjectFault>
    requires { IsBody bytes.now }
    ensures { ReadsWhole SpellsRoute bytes.now result }
{
    Route::read(alloc, bytes)
}

/// Writes the body of an EXPLICIT_ROUTE after what `out` holds. The only error is out of memory, which
/// leaves `out` as it was.
pub fn write_route(route: &Route, out: &mut Vec<u8>) -> Result<(), AllocError>
    ensures ok { OnOk result (out.new.items ≡ out.old.items ++ route_bytes route.now) }
    ensures err { OnErr result (out.new.items ≡ out.old.items) }

    // What is written is a body, and it is read as the same route.
    ensures body { OnOk result (IsBody (route_bytes route.now)) }
    ensures again { OnOk result (SpellsRoute (route_bytes route.now) route.now) }
{
    route.write(out)
}

/// The record that the body of a RECORD_ROUTE spells. The fault is [`ObjectFault::Length`] where an entry's
/// length is below 4, no multiple of 4, past the end or wrong for its type (RFC 3209, 4.4.1).
pub fn read_record(alloc: Global, bytes: &[u8]) -> Result<Record, ObjectFault>
    requires { IsBody bytes.now }
    ensures { ReadsWhole SpellsRecord bytes.now result }
{
    Record::read(alloc, bytes)
}

/// Writes the body of a RECORD_ROUTE after what `out` holds. The only error is out of memory, which leaves
/// `out` as it was.
pub fn write_record(recorded: &Record, out: &mut Vec<u8>) -> Result<(), AllocError>
    ensures ok { OnOk result (out.new.items ≡ out.old.items ++ record_bytes recorded.now) }
    ensures err { OnErr result (out.new.items ≡ out.old.items) }

    // What is written is a body, and it is read as the same record.
    ensures body { OnOk result (IsBody (record_bytes recorded.now)) }
    ensures again { OnOk result (SpellsRecord (record_bytes recorded.now) recorded.now) }
{
    recorded.write(out)
}
