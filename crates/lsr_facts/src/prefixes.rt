ghost use Rattle.std.specs.Prelude.{◌≡◌, ◌≤◌};
ghost use Rattle.lsr_facts.specs.Routers.{masked};

use std::net::Ipv4Addr;

/// Bits of a whole address.
const WHOLE_ADDRESS: u8 = 32;

/// The address with the bits past the length set to 0.
pub fn masked(address: Ipv4Addr, length: u8) -> Ipv4Addr
    requires { length ≤ 32 }
    ensures { result ≡ masked address length }
{
    let bits = address.to_bits();
    let size = 1u64 << (WHOLE_ADDRESS - length);
    Ipv4Addr::from_bits(bits - (u64::from(bits) % size) as u32)
}
