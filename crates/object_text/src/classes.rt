//! The names of classes.
ghost use Rattle.std.specs.Prelude.{◌≡◌, ◌++◌, OnOk, string_bytes};
ghost use Rattle.object_text.specs.Classes.{class_name, kind_words, treatment_text};

use rsvp_objects::{Kind, Treatment};
use std::alloc::AllocError;
use std::fmt::Write;

/// The name of the class (RFC 2205, A; RFC 3209, 4; RFC 4090, 4.1); empty where it isn't known.
#[tactic(auto, unfolding(crate::specs::Classes::class_name))]
fn class_name(class: u8) -> &'static str
    ensures { result.now ≡ class_name class }
{
    match class {
        0 => "NULL",
        1 => "SESSION",
        3 => "RSVP_HOP",
        4 => "INTEGRITY",
        5 => "TIME_VALUES",
        6 => "ERROR_SPEC",
        7 => "SCOPE",
        8 => "STYLE",
        9 => "FLOWSPEC",
        10 => "FILTER_SPEC",
        11 => "SENDER_TEMPLATE",
        12 => "SENDER_TSPEC",
        13 => "ADSPEC",
        14 => "POLICY_DATA",
        15 => "RESV_CONFIRM",
        16 => "LABEL",
        19 => "LABEL_REQUEST",
        20 => "EXPLICIT_ROUTE",
        21 => "RECORD_ROUTE",
        205 => "FAST_REROUTE",
        207 => "SESSION_ATTRIBUTE",
        _ => "",
    }
}

/// What a router does with an object of an unknown class (RFC 2205, 3.10).
fn treatment_text(treatment: Treatment) -> &'static str
    ensures { result.now ≡ treatment_text treatment }
{
    match treatment {
        Treatment::Reject => "refused",
        Treatment::Ignore => "ignored",
        Treatment::Forward => "passed on",
    }
}

/// Appends the class by its name; where the C-Type or the class isn't known, its number, too.
pub(crate) fn push_kind(
    text: &mut String,
    kind: Kind,
    class: u8,
    ctype: u8,
) -> Result<(), AllocError>
    ensures { OnOk result (string_bytes text.new ≡ string_bytes text.old ++ kind_words kind class ctype) }
{
    match kind {
        Kind::Unlisted => {
            let name = class_name(class);
            write!(text, "{name} C-Type {ctype} unknown")
        }
        Kind::Unknown(treatment) => {
            let treated = treatment_text(treatment);
            write!(text, "class {class} unknown, {treated}")
        }
        Kind::Null
        | Kind::Session
        | Kind::Hop
        | Kind::Integrity
        | Kind::TimeValues
        | Kind::ErrorSpec
        | Kind::Scope
        | Kind::Style
        | Kind::Flowspec
        | Kind::FilterSpec
        | Kind::SenderTemplate
        | Kind::SenderTspec
        | Kind::Adspec
        | Kind::PolicyData
        | Kind::ResvConfirm
        | Kind::Label
        | Kind::LabelRequest
        | Kind::ExplicitRoute
        | Kind::RecordRoute
        | Kind::FastReroute
        | Kind::SessionAttribute
        | Kind::SessionAttributeRa => text.push_str(class_name(class)),
    }
}
