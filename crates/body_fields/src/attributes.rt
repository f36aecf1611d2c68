ghost use Rattle.std.specs.Prelude.{◌≡◌, ◌↔◌, ◌++◌, IsTrue, OnOk};
ghost use Rattle.body_fields.specs.Attributes.{AreAffinities, no_affinities, words_of};
ghost use Rattle.journal_bytes.specs.Events.{affinities_bytes};

use crate::affinities::AffinitiesField;
use crate::octets::{put_byte, put_three};
use field_bytes::{
    Byte, Counted, Field, Made, Making, Octets, Pair, Put, ReadFault, Writing, put_counted,
};
use rsvp_bodies::attr_numbers::{CTYPE_LSP_TUNNEL, CTYPE_LSP_TUNNEL_RA, MAX_NAME_LEN};
use rsvp_bodies::{Affinities, Attr, Name};
use std::alloc::{AllocError, Global};

/// What stands where there are no affinities.
const NO_AFFINITIES: Affinities = Affinities {
    exclude_any: 0,
    include_any: 0,
    include_all: 0,
};

/// How attributes are spelled: by their C-Type, the affinities or zeros, the priorities, the flags and the name.
pub struct AttrParts;

/// What a SESSION_ATTRIBUTE says (RFC 3209, 4.7).
pub type AttrField = Made<AttrParts>;

/// Whether zeros stand where affinities do.
fn are_zeros(words: Affinities) -> bool
    ensures { IsTrue result ↔ (words ≡ no_affinities) }
{
    words == NO_AFFINITIES
}

/// The affinities of attributes of this C-Type. None where such attributes can't be.
#[tactic(auto, using(crate::specs::Attributes::not_affinities))]
fn affinities_of(ctype: u8, words: Affinities) -> Option<Option<Affinities>>
    ensures { AreAffinities ctype words result }
{
    if ctype == CTYPE_LSP_TUNNEL_RA {
        return Some(Some(words));
    }
    if ctype == CTYPE_LSP_TUNNEL && are_zeros(words) {
        return Some(None);
    }
    None
}

impl Making for AttrParts {
    ghost use Rattle.journal_bytes.specs.Events.{attr_bytes};
    ghost use Rattle.body_fields.specs.Attributes.{HasName, attr_parts, attr_spelled, attr_told};

    type Parts = Pair<Byte, Pair<AffinitiesField, Pair<Byte, Pair<Byte, Pair<Byte, Counted>>>>>;

    type Whole = Attr;

    ghost Allows = { HasName };

    ghost back = { attr_parts };

    ghost spelling = { attr_bytes };

    ghost told = { attr_told };

    ghost spelled = { attr_spelled };

    fn make(
        _alloc: Global,
        parts: (u8, (Affinities, (u8, (u8, (u8, Octets))))),
    ) -> Result<Attr, ReadFault> {
        let (ctype, (words, (setup, (hold, (flags, name))))) = parts;
        let Some(affinities) = affinities_of(ctype, words) else {
            return Err(ReadFault::Format);
        };
        if name.as_slice().len() > MAX_NAME_LEN {
            return Err(ReadFault::Format);
        }
        Ok(Attr {
            affinities,
            setup,
            hold,
            flags,
            name: Name::from_vec(name.into_vec()),
        })
    }
}

/// Appends the affinities, or zeros.
fn put_affinities(affinities: Option<Affinities>, out: &mut Vec<u8>) -> Result<(), AllocError>
    ensures ok { OnOk result (out.new.items ≡ out.old.items ++ affinities_bytes affinities) }
    ensures fits { OnOk result (⟦<AffinitiesField as Field>⟧.Fits (words_of affinities)) }
{
    match affinities {
        Some(words) => AffinitiesField::put(&words, out),
        None => AffinitiesField::put(&NO_AFFINITIES, out),
    }
}

impl Writing for AttrParts {
    fn put_parts(attr: &Attr, out: &mut Vec<u8>) -> Result<(), AllocError> {
        put_byte(attr.ctype(), out)?;
        put_affinities(attr.affinities, out)?;
        put_three(attr.setup, attr.hold, attr.flags, out)?;
        put_counted(attr.name.as_slice(), out)
    }
}
