use rsvp_objects::{
    Attr, ErrorSpec, FastReroute, Hop, LabelRequest, Record, Route, Session, Style, Template,
    TimeValues, Tspec,
};

/// What the objects of a message say, of whatever type it is: of each class the first that says it. What is
/// passed on and flow descriptors aren't among it.
#[derive(Drop)]
pub struct Parts {
    /// SESSION.
    pub session: Option<Session>,
    /// RSVP_HOP.
    pub hop: Option<Hop>,
    /// TIME_VALUES.
    pub time: Option<TimeValues>,
    /// ERROR_SPEC.
    pub error: Option<ErrorSpec>,
    /// STYLE.
    pub style: Option<Style>,
    /// SENDER_TEMPLATE.
    pub sender: Option<Template>,
    /// SENDER_TSPEC.
    pub tspec: Option<Tspec>,
    /// LABEL_REQUEST.
    pub label_request: Option<LabelRequest>,
    /// EXPLICIT_ROUTE.
    pub route: Option<Route>,
    /// RECORD_ROUTE of a message without flow descriptors.
    pub recorded: Option<Record>,
    /// SESSION_ATTRIBUTE.
    pub attr: Option<Attr>,
    /// FAST_REROUTE.
    pub fast_reroute: Option<FastReroute>,
}
