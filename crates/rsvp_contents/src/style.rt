//! Reservation styles (RFC 2205, A.7).

ghost use Rattle.std.specs.Prelude.{◌≡◌};
ghost use Rattle.rsvp_contents.specs.Styles.{is_fixed, is_shared, is_other};

use rsvp_objects::Style;

/// How many values the low five bits of the option vector have, which name the style.
const STYLES: u32 = 32;
/// The bits of fixed filter, FF: 01010.
pub const FIXED_FILTER: u16 = 10;
/// The bits of shared explicit, SE: 10010.
pub const SHARED_EXPLICIT: u16 = 18;

/// Whether the style is fixed filter: each LSP has its own reservation.
pub fn is_fixed(style: Style) -> bool
    ensures { result ≡ is_fixed style }
{
    style.word % STYLES == u32::from(FIXED_FILTER)
}

/// Whether the style is shared explicit: the LSPs that are named share one reservation.
pub fn is_shared(style: Style) -> bool
    ensures { result ≡ is_shared style }
{
    style.word % STYLES == u32::from(SHARED_EXPLICIT)
}

/// Whether the style is another one.
pub fn is_other(style: Style) -> bool
    ensures { result ≡ is_other style }
{
    !(is_fixed(style) || is_shared(style))
}
