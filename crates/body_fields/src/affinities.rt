use field_bytes::{Made, Making, Pair, Put, ReadFault, Word, Writing};
use rsvp_bodies::Affinities;
use std::alloc::{AllocError, Global};

/// How affinities are spelled: by three words.
pub struct AffinitiesParts;

/// Resource affinities (RFC 3209, 4.7.2): exclude-any, include-any, include-all.
pub type AffinitiesField = Made<AffinitiesParts>;

impl Making for AffinitiesParts {
    ghost use Rattle.std.specs.Prelude.{refl};
    ghost use Rattle.rsvp_bodies.specs.Affinities.{affinities_body};
    ghost use Rattle.body_fields.specs.Attributes.{affinities_parts, affinities_told};

    type Parts = Pair<Word, Pair<Word, Word>>;

    type Whole = Affinities;

    ghost Allows = { λ affinities. Unit {0} };

    ghost back = { affinities_parts };

    ghost spelling = { affinities_body };

    ghost told = { affinities_told };

    ghost spelled = { λ affinities. refl };

    fn make(_alloc: Global, parts: (u32, (u32, u32))) -> Result<Affinities, ReadFault> {
        let (exclude_any, (include_any, include_all)) = parts;
        Ok(Affinities {
            exclude_any,
            include_any,
            include_all,
        })
    }
}

impl Writing for AffinitiesParts {
    fn put_parts(affinities: &Affinities, out: &mut Vec<u8>) -> Result<(), AllocError> {
        Word::put(&affinities.exclude_any, out)?;
        Word::put(&affinities.include_any, out)?;
        Word::put(&affinities.include_all, out)
    }
}
