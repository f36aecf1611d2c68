use crate::octets::put_byte;
use field_bytes::{Address, Byte, Made, Making, Pair, Put, ReadFault, Writing};
use rsvp_bodies::Prefix;
use std::alloc::{AllocError, Global};
use std::net::Ipv4Addr;

/// How a prefix is spelled: by its address and its length.
pub struct PrefixParts;

/// A prefix: its address and how many of its first bits count.
pub type PrefixField = Made<PrefixParts>;

impl Making for PrefixParts {
    ghost use Rattle.std.specs.Prelude.{refl};
    ghost use Rattle.journal_bytes.specs.Events.{prefix_bytes};
    ghost use Rattle.body_fields.specs.Prefixes.{prefix_parts, prefix_told};

    type Parts = Pair<Address, Byte>;

    type Whole = Prefix;

    ghost Allows = { λ prefix. Unit {0} };

    ghost back = { prefix_parts };

    ghost spelling = { prefix_bytes };

    ghost told = { prefix_told };

    ghost spelled = { λ prefix. refl };

    fn make(_alloc: Global, parts: (Ipv4Addr, u8)) -> Result<Prefix, ReadFault> {
        let (address, length) = parts;
        Ok(Prefix { address, length })
    }
}

impl Writing for PrefixParts {
    fn put_parts(prefix: &Prefix, out: &mut Vec<u8>) -> Result<(), AllocError> {
        Address::put(&prefix.address, out)?;
        put_byte(prefix.length, out)
    }
}
