use crate::fault::ReadFault;
use crate::field::{Field, Put};
use std::alloc::{AllocError, Global};
use std::net::Ipv4Addr;

/// An IPv4 address: its four octets.
pub struct Address;

impl Field for Address {
    ghost use Rattle.std.specs.Prelude.{◌≡◌, length};
    ghost use Rattle.std.specs.Net.Addr.{ipv4_octets};
    ghost use Rattle.field_bytes.specs.NumberLaws.{one_address};

    type Value = Ipv4Addr;

    ghost Fits = { λ address. length (ipv4_octets address) ≡ 4 };

    ghost spelling = { ipv4_octets };

    ghost one = { one_address };

    fn read(_alloc: Global, bytes: &[u8]) -> Result<(Ipv4Addr, &[u8]), ReadFault> {
        match bytes {
            [a, b, c, d, rest @ ..] => Ok((Ipv4Addr::new(*a, *b, *c, *d), rest)),
            _ => Err(ReadFault::Format),
        }
    }
}

impl Put for Address {
    fn put(value: &Ipv4Addr, out: &mut Vec<u8>) -> Result<(), AllocError> {
        out.extend_from_slice(&value.octets())
    }
}
