//! Which bytes are subobjects of a route, and which are kept as they came.

ghost use Rattle.std.specs.Prelude.{◌≡◌, ◌↔◌, IsTrue};
ghost use Rattle.rsvp_bodies.specs.Subobjects.{IsOtherStep, IsOtherTrace, IsSubobject, is_label};

/// The fewest bytes of a subobject, and what its length is a multiple of (RFC 3209, 4.3.3).
const WORD_LEN: usize = 4;

/// The type of an IPv4 prefix (RFC 3209, 4.3.3.2 and 4.4.1.1).
const IPV4_TYPE: u8 = 1;

/// The types of steps: the top bit of a step's first byte isn't one of its type (RFC 3209, 4.3.3).
const STEP_TYPES: u8 = 128;

/// The type of a label in a recorded route, its bytes and its C-Type (RFC 3209, 4.4.1.3).
const LABEL_TYPE: u8 = 3;

const LABEL_LEN: usize = 8;

const LABEL_C_TYPE: u8 = 1;

/// Whether the bytes are a subobject: whole words, which their second byte counts.
fn is_subobject(bytes: &[u8]) -> bool
    ensures { IsTrue result ↔ IsSubobject bytes.now }
{
    let len = bytes.len();
    len >= WORD_LEN && len % WORD_LEN == 0 && usize::from(bytes[1]) == len
}

/// Whether the bytes are a step of another type than IPv4.
pub(crate) fn is_other_step(bytes: &[u8]) -> bool
    ensures { IsTrue result ↔ IsOtherStep bytes.now }
{
    is_subobject(bytes) && bytes[0] % STEP_TYPES != IPV4_TYPE
}

/// Whether the bytes are a label of a recorded route, in the form that a LABEL has.
fn is_label(bytes: &[u8]) -> bool
    requires { IsSubobject bytes.now }
    ensures { result ≡ is_label bytes.now }
{
    bytes[0] == LABEL_TYPE && bytes.len() == LABEL_LEN && bytes[3] == LABEL_C_TYPE
}

/// Whether the bytes are an entry of a recorded route that is neither an address nor such a label.
pub(crate) fn is_other_trace(bytes: &[u8]) -> bool
    ensures { IsTrue result ↔ IsOtherTrace bytes.now }
{
    is_subobject(bytes) && bytes[0] != IPV4_TYPE && !is_label(bytes)
}
