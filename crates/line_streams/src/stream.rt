//! Streams of bytes.
ghost use Rattle.std.specs.Prelude.{◌≡◌, true, OnErr};
ghost use Rattle.std.specs.Io.{ReadsAtMost};
ghost use Rattle.std.specs.Io.KnownBytes.{ReadConsumes};
ghost use Rattle.line_streams.specs.Texts.{Stream};

use std::io;
use std::io::{ErrorKind, Read};

/// How often a read is made again that is interrupted.
const MAX_RETRIES: usize = 16_777_216;

/// A stream of bytes. Contracts see what is known of it: the bytes that it has left, and whether it may break.
pub trait ByteStream {
    ghost stream: { Self → Stream };

    /// Reads what comes next into the room. Gives its length in bytes, which is 0 only at the stream's end or without
    /// room. The error is that the stream broke.
    fn read_next(&mut self, room: &mut [u8]) -> io::Result<usize>
        ensures bound { ReadsAtMost result room.new }
        ensures bytes { ReadConsumes (stream self.old).bytes (stream self.new).bytes result room.new }
        ensures broke { OnErr result ((stream self.old).may_break ≡ true) }
        ensures breaks { (stream self.new).may_break ≡ true → (stream self.old).may_break ≡ true };
}

/// Any reader is a stream that may break. A read that is interrupted is made again, [`MAX_RETRIES`] times.
impl<R: Read> ByteStream for R {
    ghost stream = { λ reader. record { bytes = R.remaining reader; may_break = true } };

    fn read_next(&mut self, room: &mut [u8]) -> io::Result<usize> {
        for _ in 0..MAX_RETRIES {
            match self.read(room) {
                Ok(count) => return Ok(count),
                Err(error) => {
                    if error.kind() != ErrorKind::Interrupted {
                        return Err(error);
                    }
                }
            }
        }
        self.read(room)
    }
}
