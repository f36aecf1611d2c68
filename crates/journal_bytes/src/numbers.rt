//! The numbers of the format.

/// The kind of a message for this router.
pub const KIND_ARRIVE: u8 = 1;
/// The kind of a message for another router.
pub const KIND_RELAY: u8 = 2;
/// The kind of a moment that came.
pub const KIND_TICK: u8 = 3;
/// The kind of a link that came up.
pub const KIND_LINK_UP: u8 = 4;
/// The kind of a link that went down.
pub const KIND_LINK_DOWN: u8 = 5;
/// The kind of a restart.
pub const KIND_RESTART: u8 = 6;
/// The kind of a start.
pub const KIND_START: u8 = 7;
/// The kind of a command.
pub const KIND_COMMAND: u8 = 8;

/// The way of a message that came in a Hop frame.
pub const WAY_HOP: u8 = 1;
/// The way of a message that came through a stack of labels.
pub const WAY_STACK: u8 = 2;
/// The way of a message that came in a Routed frame.
pub const WAY_ROUTED: u8 = 3;

/// The code of a tunnel that is to begin here.
pub const CODE_ADD_TUNNEL: u8 = 1;
/// The code of a tunnel that is to change.
pub const CODE_CHANGE_TUNNEL: u8 = 2;
/// The code of a change that is to be given up.
pub const CODE_CANCEL_CHANGE: u8 = 3;
/// The code of a tunnel that is to go.
pub const CODE_DROP_TUNNEL: u8 = 4;
/// The code of a bypass that is to protect a link.
pub const CODE_ADD_BYPASS: u8 = 5;
/// The code of a bypass that is to go.
pub const CODE_DROP_BYPASS: u8 = 6;
/// The code of a static route that is to be taken.
pub const CODE_ADD_ROUTE: u8 = 7;
/// The code of a static route that is to go.
pub const CODE_DROP_ROUTE: u8 = 8;

/// The kind of a step to an IPv4 prefix.
pub const STEP_IPV4: u8 = 1;
/// The kind of a step of another type.
pub const STEP_OTHER: u8 = 2;

/// Stands where something is absent.
pub const ABSENT: u8 = 0;
/// Stands before something that is present.
pub const PRESENT: u8 = 1;

/// Says that a step is strict.
pub const STRICT: u8 = 0;
/// Says that a step is loose.
pub const LOOSE: u8 = 1;
