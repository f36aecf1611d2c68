//! An output whose reader may go away.

use std::io;
use std::io::{ErrorKind, Write};

/// An output that goes on when its reader has gone, as `head` goes when it has enough: what is written from then on goes nowhere.
#[derive(Drop)]
pub(crate) struct Lasting<O: Write + Drop> {
    output: O,
    /// Whether the reader has gone.
    is_gone: bool,
}

impl<O: Write + Drop> Lasting<O> {
    /// The reader of this output is there.
    pub(crate) fn new(output: O) -> Lasting<O> {
        Lasting {
            output,
            is_gone: false,
        }
    }
}

impl<O: Write + Drop> Write for Lasting<O> {
    fn write(&mut self, buf: &[u8]) -> io::Result<usize> {
        if !self.is_gone {
            match self.output.write(buf) {
                Err(fault) if fault.kind() == ErrorKind::BrokenPipe => self.is_gone = true,
                written => return written,
            }
        }
        Ok(buf.len())
    }

    fn flush(&mut self) -> io::Result<()> {
        if !self.is_gone {
            match self.output.flush() {
                Err(fault) if fault.kind() == ErrorKind::BrokenPipe => self.is_gone = true,
                flushed => return flushed,
            }
        }
        Ok(())
    }
}
