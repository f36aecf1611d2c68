//! How long it takes to read a message, and to write it.

use crate::measuring::{nanos_since, tell};
use rsvp_messages::{Reading, read_message, write_message};
use std::time::Instant;
use worker_cases::{Fault, PATH_FRAME};

/// Measures how long it takes to read the built-in router's Path, and to write it, by so many times.
pub(crate) fn measure_coding(rt: &HostRuntime, count: u32) -> Result<(), Fault> {
    // (the message stands after the byte of its frame's kind)
    let bytes = PATH_FRAME.get(1..).unwrap_or(PATH_FRAME);
    let Ok(Reading::Whole(message)) = read_message(rt.alloc(), bytes) else {
        return Err(Fault::NotTaken);
    };
    let start = Instant::now(rt)?;
    for _ in 0..count {
        let Ok(Reading::Whole(_message)) = read_message(rt.alloc(), bytes) else {
            return Err(Fault::NotTaken);
        };
    }
    let reading = nanos_since(rt, start)?;
    let mut out = Vec::new(rt.alloc());
    let start = Instant::now(rt)?;
    for _ in 0..count {
        out.clear();
        write_message(&message, &mut out)?;
    }
    let writing = nanos_since(rt, start)?;
    let calls = u64::from(count.max(1));
    let line = "coding: a Path is read in # ns, and written in # ns";
    tell(rt, line, &[], &[reading / calls, writing / calls])?;
    Ok(())
}
