ghost use Rattle.std.specs.Prelude.{◌≡◌};

use crate::numbers::*;
use crate::opaque::Opaque;
use crate::values::{
    ErrorSpec, FastReroute, Hop, Label, LabelRequest, Session, Style, Template, TimeValues,
};
use rsvp_bodies::{Attr, Flowspec, Record, Route, Tspec};

/// An object of RSVP (RFC 2205, 3.1.2 and A; RFC 3209, 4; RFC 4090, 4.1).
#[derive(Debug, Drop)]
pub enum Object {
    /// SESSION, class 1, C-Type 7.
    Session(Session),
    /// RSVP_HOP, class 3, C-Type 1.
    Hop(Hop),
    /// TIME_VALUES, class 5, C-Type 1.
    TimeValues(TimeValues),
    /// ERROR_SPEC, class 6, C-Type 1.
    ErrorSpec(ErrorSpec),
    /// STYLE, class 8, C-Type 1.
    Style(Style),
    /// FLOWSPEC, class 9, C-Type 2.
    Flowspec(Flowspec),
    /// FILTER_SPEC, class 10, C-Type 7.
    FilterSpec(Template),
    /// SENDER_TEMPLATE, class 11, C-Type 7.
    SenderTemplate(Template),
    /// SENDER_TSPEC, class 12, C-Type 2.
    SenderTspec(Tspec),
    /// LABEL, class 16, C-Type 1.
    Label(Label),
    /// LABEL_REQUEST, class 19, C-Type 1.
    LabelRequest(LabelRequest),
    /// EXPLICIT_ROUTE, class 20, C-Type 1.
    ExplicitRoute(Route),
    /// RECORD_ROUTE, class 21, C-Type 1.
    RecordRoute(Record),
    /// FAST_REROUTE, class 205, C-Type 1.
    FastReroute(FastReroute),
    /// SESSION_ATTRIBUTE, class 207, C-Type 7, or 1 where it has affinities.
    SessionAttribute(Attr),
    /// Any other object.
    Other(Opaque),
}

impl Object {
    ghost use Rattle.rsvp_objects.specs.Objects.{raw_of};

    /// The Class-Num that the object is written with.
    pub fn class(&self) -> u8
        ensures { result ≡ (raw_of self.now).class }
    {
        match self {
            Object::Session(_) => CLASS_SESSION,
            Object::Hop(_) => CLASS_RSVP_HOP,
            Object::TimeValues(_) => CLASS_TIME_VALUES,
            Object::ErrorSpec(_) => CLASS_ERROR_SPEC,
            Object::Style(_) => CLASS_STYLE,
            Object::Flowspec(_) => CLASS_FLOWSPEC,
            Object::FilterSpec(_) => CLASS_FILTER_SPEC,
            Object::SenderTemplate(_) => CLASS_SENDER_TEMPLATE,
            Object::SenderTspec(_) => CLASS_SENDER_TSPEC,
            Object::Label(_) => CLASS_LABEL,
            Object::LabelRequest(_) => CLASS_LABEL_REQUEST,
            Object::ExplicitRoute(_) => CLASS_EXPLICIT_ROUTE,
            Object::RecordRoute(_) => CLASS_RECORD_ROUTE,
            Object::FastReroute(_) => CLASS_FAST_REROUTE,
            Object::SessionAttribute(_) => CLASS_SESSION_ATTRIBUTE,
            Object::Other(other) => other.class(),
        }
    }

    /// The C-Type that the object is written with.
    pub fn ctype(&self) -> u8
        ensures { result ≡ (raw_of self.now).ctype }
    {
        match self {
            Object::Session(_) | Object::FilterSpec(_) | Object::SenderTemplate(_) =>
                CTYPE_LSP_TUNNEL_IPV4,
            Object::Flowspec(_) | Object::SenderTspec(_) => CTYPE_INTSERV,
            Object::SessionAttribute(attr) => attr.ctype(),
            Object::Other(other) => other.ctype(),
            _ => CTYPE_FIRST,
        }
    }
}
