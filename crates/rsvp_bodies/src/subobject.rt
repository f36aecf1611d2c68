ghost use Rattle.std.specs.Prelude.{◌≡◌, ◌≤◌, ◌<◌, ◌++◌, length, IfSome, IfNone, OnOk, OnErr, Decides, List, ℕ};
ghost use Rattle.rsvp_bodies.specs.Reading.{ReadsWhole};
ghost use Rattle.rsvp_bodies.specs.Subobjects.{IsSubobject, BeginsWithSubobject};

use crate::ObjectFault;
use crate::route_numbers::WORD_LEN;
use std::alloc::{AllocError, Global};

/// One of the parts that the body of an EXPLICIT_ROUTE or of a RECORD_ROUTE is made of: a type, a length
/// and what the type says (RFC 3209, 4.3.3 and 4.4.1).
pub trait Subobject: Clone + Eq + Drop {
    // which bytes spell the value
    ghost Spells: { List ℕ → Self → Type 0 };

    // what the value is written as
    ghost spelling: { Self → List ℕ };

    /// The value that these bytes spell, a whole subobject: the fault [`ObjectFault::Length`] where its
    /// type has another length.
    fn read(alloc: Global, bytes: &[u8]) -> Result<Self, ObjectFault>
        requires { IsSubobject bytes.now }
        ensures { ReadsWhole Spells bytes.now result };

    /// Writes the value after what `out` holds. The only error is out of memory, which leaves `out` as it
    /// was.
    fn write(&self, out: &mut Vec<u8>) -> Result<(), AllocError>
        ensures ok { OnOk result (out.new.items ≡ out.old.items ++ spelling self.now) }
        ensures again { OnOk result (Spells (spelling self.now) self.now) }
        ensures err { OnErr result (out.new.items ≡ out.old.items) };

    /// How many bytes the value is written as.
    fn byte_len(&self) -> usize
        ensures { result ≡ length (spelling self.now) };

    // what spells a value is a subobject
    ghost is_subobject: { (bytes : List ℕ) (x : Self) → Spells bytes x → IsSubobject bytes };

    // no bytes spell two values
    ghost one_value: { (bytes : List ℕ) (x y : Self) → Spells bytes x → Spells bytes y → x ≡ y };

    // a value is written in as many bytes as it was read from
    ghost same_length: { (bytes : List ℕ) (x : Self) → Spells bytes x → length (spelling x) ≡ length bytes };

    // a clone is the same value
    ghost clones_equal: { (source copy : Self) → Self.is_clone source copy → copy ≡ source };

    // two values compare as equal exactly where they are the same
    ghost equal_is_same: { (a b : Self) → Decides (Self.PartialEq.eq a b) (a ≡ b) };
}

/// The first subobject of the bytes, by its length, and the bytes after it. There is none where the length
/// is below 4, no multiple of 4 or past the end.
pub(crate) fn split_first(bytes: &[u8]) -> Option<(&[u8], &[u8])>
    ensures found { IfSome result (λ parts. IsSubobject parts.0.now × (bytes.now ≡ parts.0.now ++ parts.1.now)) }
    ensures none { IfNone result (¬ BeginsWithSubobject bytes.now) }
{
    let [_, len, ..] = bytes else {
        return None;
    };
    let len = usize::from(*len);
    if len < WORD_LEN || len % WORD_LEN != 0 || len > bytes.len() {
        return None;
    }
    Some(bytes.split_at(len))
}
