ghost use Rattle.std.specs.Prelude.{◌≡◌, ◌<◌, ◌^◌, IfSome, Option, option_map};
ghost use Rattle.std.specs.Duration.{as_nanos};
ghost use Rattle.capture_files.specs.Times.{nanos_in, time_in, units_in};

use std::time::Duration;

/// The nanoseconds of a second.
const NANOS_PER_SECOND: u128 = 1_000_000_000;
/// The first decimal resolution that isn't known: 10^20 units don't fit 64 bits.
const DECIMAL_END: u8 = 20;
/// The first binary resolution, 2^0 units in a second.
const BINARY_START: u8 = 128;
/// The first binary resolution that isn't known: 2^64 units don't fit 64 bits.
const BINARY_END: u8 = 192;

/// The units in a second, by the value of the option if_tsresol.
fn units_of(resolution: u8) -> Option<u64>
    ensures units { result ≡ units_in resolution }
    ensures some { IfSome result (λ units. 0 < units) }
{
    if resolution < DECIMAL_END {
        return Some(10u64.pow(u32::from(resolution)));
    }
    if resolution >= BINARY_START && resolution < BINARY_END {
        return Some(1u64 << (resolution - BINARY_START));
    }
    None
}

/// The time of so many units since the beginning of 1970. None where the resolution isn't known.
pub(crate) fn time_of(resolution: Option<u8>, count: u64) -> Option<Duration>
    ensures { option_map as_nanos result ≡ time_in resolution count }
{
    let units = units_of(resolution?)?;
    let nanos = u128::from(count) * NANOS_PER_SECOND / u128::from(units);
    Some(Duration::from_nanos_u128(nanos))
}
