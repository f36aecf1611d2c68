ghost use Rattle.std.specs.Prelude.{◌≡◌};
ghost use Rattle.forwarding_table.specs.Labels.{is_label};

use sorted_rows::TryCopy;
use std::alloc::{AllocError, Global};

/// Explicit null (RFC 3032, 2.1): the entry is taken away where it arrives.
pub const EXPLICIT_NULL: u32 = 0;
/// Implicit null (RFC 3032, 2.1): whoever gives it out wants no entry, so none is written.
pub const IMPLICIT_NULL: u32 = 3;
/// The lowest label that may stand for an LSP (RFC 3032, 2.1).
pub const FIRST_LABEL: u32 = 16;
/// The highest label: a label has 20 bits.
pub const LAST_LABEL: u32 = 1_048_575;

/// What is done with a label, or with a payload at the head of a tunnel (RFC 3031, 3.10). Links go by their numbers.
#[derive(Clone, Copy, Debug, PartialEq, Eq)]
pub enum Action {
    /// The label is replaced.
    Swap {
        /// The label in its place.
        label: u32,
        /// The link that the frame leaves by.
        link: u16,
    },
    /// The label is replaced, and a bypass's label is pushed over it (RFC 4090, 3.2).
    SwapPush {
        /// The label in its place.
        inner: u32,
        /// The label of the bypass.
        outer: u32,
        /// The link that the frame leaves by.
        link: u16,
    },
    /// The label is taken away, and what is below it decides.
    Pop,
    /// The head of a tunnel puts its label on a payload. No label has this action.
    PushHead {
        /// The tunnel's own label below that of a bypass, while a repair is in use.
        inner: Option<u32>,
        /// The label on top.
        label: u32,
        /// The link that the frame leaves by.
        link: u16,
    },
}

impl TryCopy for Action {
    fn try_copy(&self, _alloc: Global) -> Result<Action, AllocError> {
        Ok(*self)
    }
}

/// Whether an action may write a number for a label: explicit null, implicit null, or the label of an LSP (RFC 3032,
/// 2.1).
pub fn is_label(label: u32) -> bool
    ensures { result ≡ is_label label }
{
    matches!(
        label,
        EXPLICIT_NULL | IMPLICIT_NULL | FIRST_LABEL..=LAST_LABEL
    )
}
