//! The names of the errors of RSVP (RFC 2205, B; RFC 2750, A; RFC 3209, 7.3).
ghost use Rattle.std.specs.Prelude.{◌≡◌};
ghost use Rattle.object_text.specs.Errors.{admission_error, error_name, named, notice, routing_error, style_error, traffic_error};

/// The name, where the value is the wanted one.
fn named(value: u16, wanted: u16, name: &'static str) -> &'static str
    ensures { result.now ≡ named value wanted name.now }
{
    if value == wanted { name } else { "" }
}

/// The name of an error of code 1, admission control failure.
#[tactic(auto, unfolding(crate::specs::Errors::admission_error))]
fn admission_error(value: u16) -> &'static str
    ensures { result.now ≡ admission_error value }
{
    match value {
        1 => "DelayBound",
        2 => "NoBandwidth",
        3 => "MtuTooLarge",
        _ => "",
    }
}

/// The name of an error of code 5, conflicting reservation style.
#[tactic(auto, unfolding(crate::specs::Errors::style_error))]
fn style_error(value: u16) -> &'static str
    ensures { result.now ≡ style_error value }
{
    match value {
        10 => "ConflictsWithFixed",
        18 => "ConflictsWithShared",
        _ => "",
    }
}

/// The name of an error of code 21, traffic control error.
#[tactic(auto, unfolding(crate::specs::Errors::traffic_error))]
fn traffic_error(value: u16) -> &'static str
    ensures { result.now ≡ traffic_error value }
{
    match value {
        1 => "ServiceConflict",
        2 => "ServiceUnsupported",
        3 => "BadFlowspec",
        4 => "BadTspec",
        5 => "BadAdspec",
        _ => "",
    }
}

/// The name of an error of code 24, routing problem.
#[tactic(auto, unfolding(crate::specs::Errors::routing_error))]
fn routing_error(value: u16) -> &'static str
    ensures { result.now ≡ routing_error value }
{
    match value {
        1 => "BadExplicitRoute",
        2 => "BadStrictNode",
        3 => "BadLooseNode",
        4 => "BadInitialSubobject",
        5 => "NoRoute",
        6 => "BadLabel",
        7 => "RoutingLoop",
        8 => "NonRsvpRouter",
        9 => "LabelsTaken",
        10 => "UnsupportedL3pid",
        _ => "",
    }
}

/// The name of what code 25, notify, tells.
#[tactic(auto, unfolding(crate::specs::Errors::notice))]
fn notice(value: u16) -> &'static str
    ensures { result.now ≡ notice value }
{
    match value {
        1 => "RecordTooLong",
        2 => "RecordNotified",
        3 => "LocallyRepaired",
        _ => "",
    }
}

/// The name of the error of this code and value, as `lsr explain` has it; empty where it has none.
#[tactic(auto, unfolding(crate::specs::Errors::error_name))]
pub fn error_name(code: u8, value: u16) -> &'static str
    ensures { result.now ≡ error_name code value }
{
    match code {
        1 => admission_error(value),
        2 => named(value, 5, "PreemptedByPolicy"),
        3 => named(value, 0, "NoPath"),
        4 => named(value, 0, "NoSender"),
        5 => style_error(value),
        6 => named(value, 0, "UnknownStyle"),
        12 => named(value, 0, "Preempted"),
        13 => "UnknownClass",
        14 => "UnknownCType",
        21 => traffic_error(value),
        23 => named(value, 0, "SystemError"),
        24 => routing_error(value),
        25 => notice(value),
        _ => "",
    }
}
