//! Events in the first format, in which a command for a bypass has no capacity.

ghost use Rattle.std.specs.Prelude.{◌≡◌, ◌++◌};
ghost use Rattle.journal_files.specs.FirstFormat.{is_add_bypass, no_capacity};
ghost use Rattle.field_bytes.specs.Wholes.{ReadsWhole};

use crate::entries::EventText;
use field_bytes::{Field, Octets, ReadFault, read_whole};
use std::alloc::Global;
use std::marker::PhantomData;

/// The kind of a command, and the code of one for a bypass.
const KIND_COMMAND: u8 = 8;

const CODE_ADD_BYPASS: u8 = 5;

/// Bytes of a command's kind and code.
const CODE_LEN: usize = 2;

/// Bytes of a command for a bypass without its capacity.
const FIRST_LEN: usize = 8;

/// A capacity of 0.
const NO_CAPACITY: [u8; 8] = [0; 8];

/// Texts of events, as they stand in a file.
pub trait EventTexts: Field<Value = Octets> {
    ghost use Rattle.journal_files.specs.FirstFormat.{HaveCodes, StandsSo};

    // They are spelled as they stand.
    ghost stands: { StandsSo Self.Fits Self.spelling };

    // None is empty, and a command has a code.
    ghost codes: { HaveCodes Self.Fits };
}

impl EventTexts for EventText {
    ghost use Rattle.std.specs.Prelude.{refl};
    ghost use Rattle.event_fields.specs.EventLaws.{UnreadFits};
    ghost use Rattle.journal_files.specs.FirstFormat.{event_texts};

    ghost stands = { λ text _. refl };

    ghost codes = { event_texts UnreadFits };
}

/// The bytes of an event as the first format has them: a command for a bypass ends before its capacity, which is 0. What is read has it.
pub struct FirstText<T> {
    kind: PhantomData<T>,
}

/// The text of a command for a bypass that begins with these bytes, and whose capacity is 0.
fn with_capacity<T: EventTexts>(alloc: Global, head: &[u8]) -> Result<Octets, ReadFault>
    ensures { ReadsWhole T.Fits T.spelling (head.now ++ no_capacity) result }
{
    let mut bytes = Vec::from_slice(alloc, head)?;
    bytes.extend_from_slice(&NO_CAPACITY)?;
    read_whole::<T>(alloc, bytes.as_slice())
}

/// Whether a command for a bypass stands at the head of the bytes.
fn is_add_bypass(bytes: &[u8]) -> bool
    ensures { result ≡ is_add_bypass bytes.now }
{
    bytes.len() >= CODE_LEN && bytes[0] == KIND_COMMAND && bytes[1] == CODE_ADD_BYPASS
}

impl<T: EventTexts> Field for FirstText<T> {
    ghost use Rattle.journal_files.specs.FirstFormat.{FitsFirst, first_text, one_first};

    type Value = Octets;

    ghost Fits = { FitsFirst T.Fits };

    ghost spelling = { first_text };

    ghost one = { one_first T.Fits T.spelling T.stands T.codes T.one };

    fn read(alloc: Global, bytes: &[u8]) -> Result<(Octets, &[u8]), ReadFault> {
        if !is_add_bypass(bytes) {
            return T::read(alloc, bytes);
        }
        if bytes.len() < FIRST_LEN {
            return Err(ReadFault::Format);
        }
        let (head, rest) = bytes.split_at(FIRST_LEN);
        Ok((with_capacity::<T>(alloc, head)?, rest))
    }
}
