//! Where cases are run, and what is told of them.

use std::alloc::{AllocError, Global};

/// The mark from which on calls take no memory: whoever looks at the error stream may take all of it away.
pub const NO_MEMORY: &str = "no memory\n";
/// The mark from which on calls may take memory again.
pub const MEMORY: &str = "memory\n";

/// The answer of a call; where that is an error that says so, what is looked at then, and the answer of the same call made again.
macro_rules! again {
    ($call:expr, $starved:pat, $look:expr) => {
        match $call {
            Err($starved) => {
                $look;
                $call
            }
            answer => answer,
        }
    };
}

pub(crate) use again;

/// Where cases are run. What is told is printed, which takes no memory.
#[derive(Drop)]
pub struct Bench<'a> {
    /// What reads files and prints.
    pub rt: &'a HostRuntime,
    /// What takes memory.
    pub alloc: Global,
    /// Whether marks are written on the error stream.
    pub is_marked: bool,
    /// Whether something isn't as it has to be.
    pub differs: bool,
}

impl<'a> Bench<'a> {
    /// Tells a text. One that can't be printed is missed by whoever compares what is printed.
    pub fn tell(&self, text: &str) {
        let _told = self.rt.print(text);
    }

    /// Tells a text with a number in place of each `#`.
    pub fn tell_filled(&self, template: &str, numbers: &[u64]) {
        let mut left = numbers.iter();
        for (place, text) in template.split('#').enumerate() {
            if place > 0
                && let Some(number) = left.next()
            {
                let _told = self.rt.print(*number);
            }
            self.tell(text);
        }
    }

    /// Tells what has to be so where it isn't, or can't be seen.
    pub fn expect(&mut self, what: &str, is_so: Result<bool, AllocError>) {
        if !matches!(is_so, Ok(true)) {
            self.differs = true;
            self.tell("not so: ");
            self.tell(what);
            self.tell("\n");
        }
    }

    /// Writes a mark, where that is asked for.
    pub fn mark(&self, text: &str) {
        if self.is_marked {
            let _told = self.rt.eprint(text);
        }
    }
}
