//! What is left of the capacities of bypasses.

ghost use Rattle.std.specs.FinMap.Entries.{put};
ghost use Rattle.std.specs.Ordering.{nat_cmp};
ghost use Rattle.std.specs.Prelude.{◌≡◌, ◌-◌, nat_le, find as find_first, OnOk};
ghost use Rattle.bypass_shares.specs.Left.{left_at};

use crate::near::find_near;
use sorted_rows::Table;
use std::alloc::AllocError;

/// What is left of a bypass, in bytes per second: 0 of one that isn't there.
pub fn left_at(left: &Table<u16, u64>, number: u16) -> u64
    ensures { result ≡ left_at left.now number }
{
    match left.get(&number) {
        Some(rate) => *rate,
        None => 0,
    }
}

/// Whether so much is left of a bypass.
pub fn is_left(left: &Table<u16, u64>, rate: u64, number: u16) -> bool
    ensures { result ≡ nat_le rate (left_at left.now number) }
{
    rate <= left_at(left, number)
}

/// The same, where bypasses are asked for in the order of their numbers, from a place on.
fn is_left_near(left: &Table<u16, u64>, rate: u64, number: u16, place: &mut usize) -> bool
    ensures { result ≡ nat_le rate (left_at left.now number) }
{
    match find_near(left.as_slice(), &number, place) {
        Some(most) => rate <= most,
        None => rate == 0,
    }
}

/// The first of these bypasses of which so much is left.
pub fn first_with(left: &Table<u16, u64>, rate: u64, numbers: &[u16]) -> Option<u16>
    ensures { result ≡ find_first (λ number. nat_le rate (left_at left.now number)) numbers.now }
{
    let mut place = 0;
    for number in numbers {
        if is_left_near(left, rate, *number, &mut place) {
            return Some(*number);
        }
    }
    None
}

/// Takes so much of what is left of a bypass. Fails only when out of memory.
pub fn take(left: &mut Table<u16, u64>, number: u16, rate: u64) -> Result<(), AllocError>
    ensures { OnOk result (left.new ≡ put nat_cmp number (left_at left.old number - rate) left.old) }
{
    let rest = left_at(left, number).saturating_sub(rate);
    left.set(number, rest)
}
