//! How long something takes, and how a measure is told.

use std::fmt::Write;
use std::io;
use std::time::Instant;
use worker_cases::Fault;

/// Nanoseconds a second.
const SECOND_NANOS: u128 = 1_000_000_000;
/// Nanoseconds a millisecond.
pub(crate) const MILLI_NANOS: u64 = 1_000_000;

/// How many nanoseconds passed since this moment.
pub(crate) fn nanos_since(rt: &HostRuntime, start: Instant) -> Result<u64, Fault> {
    match start.elapsed(rt) {
        Ok(took) => Ok(u64::try_from(took.as_nanos()).unwrap_or(u64::MAX)),
        Err(_) => Err(Fault::System),
    }
}

/// How many of something there are in a second, where so many took these nanoseconds.
pub(crate) fn per_second(count: u64, nanos: u64) -> u64 {
    let rate = u128::from(count) * SECOND_NANOS / u128::from(nanos.max(1));
    u64::try_from(rate).unwrap_or(u64::MAX)
}

/// Prints a line, with the next word in place of each `@`, and the next number in place of each `#`.
pub(crate) fn tell(
    rt: &HostRuntime,
    line: &str,
    words: &[&str],
    numbers: &[u64],
) -> io::Result<()> {
    let mut told = String::new(rt.alloc());
    let mut words = words.iter();
    let mut numbers = numbers.iter();
    for letter in line.chars() {
        match letter {
            '@' => {
                if let Some(word) = words.next() {
                    told.push_str(word)?;
                }
            }
            '#' => {
                if let Some(number) = numbers.next() {
                    write!(told, "{number}")?;
                }
            }
            _ => told.push(letter)?,
        }
    }
    println!(rt; "{told}")
}
