use crate::steps::StepField;
use crate::traces::TraceField;
use field_bytes::{Items, Made, Making, Many, ReadFault, Writing, put_list};
use rsvp_bodies::{Record, Route, Step, Trace};
use std::alloc::{AllocError, Global};

/// How a route is spelled: by its steps.
pub struct RouteParts;

/// A route that fits the body of an EXPLICIT_ROUTE: how many steps it has, and the steps.
pub type RouteField = Made<RouteParts>;

impl Making for RouteParts {
    ghost use Rattle.std.specs.Prelude.{refl};
    ghost use Rattle.journal_bytes.specs.Events.{route_bytes};
    ghost use Rattle.body_fields.specs.Routes.{FitsRoute, same_route};

    type Parts = Many<StepField>;

    type Whole = Route;

    ghost Allows = { FitsRoute };

    ghost back = { same_route };

    ghost spelling = { route_bytes };

    ghost told = { λ x y _ _ same. same };

    ghost spelled = { λ route. refl };

    fn make(_alloc: Global, parts: Items<Step>) -> Result<Route, ReadFault> {
        let steps = parts.into_vec();
        if Route::fits(steps.as_slice()) {
            Ok(Route::from_vec(steps))
        } else {
            Err(ReadFault::Format)
        }
    }
}

impl Writing for RouteParts {
    fn put_parts(route: &Route, out: &mut Vec<u8>) -> Result<(), AllocError> {
        put_list::<StepField>(route.as_slice(), out)
    }
}

/// How a recorded route is spelled: by its entries.
pub struct RecordParts;

/// A recorded route that fits the body of a RECORD_ROUTE: how many entries it has, and the entries.
pub type RecordField = Made<RecordParts>;

impl Making for RecordParts {
    ghost use Rattle.std.specs.Prelude.{refl};
    ghost use Rattle.body_fields.specs.Routes.{FitsRecord, record_bytes, same_record};

    type Parts = Many<TraceField>;

    type Whole = Record;

    ghost Allows = { FitsRecord };

    ghost back = { same_record };

    ghost spelling = { record_bytes };

    ghost told = { λ x y _ _ same. same };

    ghost spelled = { λ entries. refl };

    fn make(_alloc: Global, parts: Items<Trace>) -> Result<Record, ReadFault> {
        let entries = parts.into_vec();
        if Record::fits(entries.as_slice()) {
            Ok(Record::from_vec(entries))
        } else {
            Err(ReadFault::Format)
        }
    }
}

impl Writing for RecordParts {
    fn put_parts(record: &Record, out: &mut Vec<u8>) -> Result<(), AllocError> {
        put_list::<TraceField>(record.as_slice(), out)
    }
}
