//! Datagrams that were read before they are asked for.

ghost use Rattle.std.specs.Prelude.{◌≤◌, IfSome, length};

use std::alloc::{AllocError, Global};

/// How many datagrams are read ahead at most.
pub(crate) const MOST_AHEAD: usize = 32;
/// How many bytes of datagrams are kept: there is room for the longest one after so many bytes of others.
const ROOM: usize = 131_072;
/// The most bytes of a datagram.
const LONGEST: usize = 65_536;

/// Datagrams that came together, in their order.
#[derive(Drop)]
pub(crate) struct ReadAhead {
    /// Their bytes, one after the other.
    room: Vec<u8>,
    /// Where each ends.
    ends: Vec<usize>,
    /// How many of them were taken.
    taken: usize,
}

impl ReadAhead {
    /// None yet. The only error is out of memory.
    pub(crate) fn new(alloc: Global) -> Result<ReadAhead, AllocError> {
        Ok(ReadAhead {
            room: vec![in alloc; 0_u8; ROOM]?,
            ends: Vec::with_capacity(alloc, MOST_AHEAD)?,
            taken: 0,
        })
    }

    /// Whether all were taken.
    fn is_empty(&self) -> bool {
        self.taken >= self.ends.len()
    }

    /// Where the last one ends.
    fn end(&self) -> usize {
        match self.ends.as_slice().last() {
            Some(end) => *end,
            None => 0,
        }
    }

    /// The room for one more, where there is enough for the longest. Those that were taken are forgotten once all are.
    pub(crate) fn space(&mut self) -> Option<&mut [u8]> {
        if self.is_empty() {
            self.ends.clear();
            self.taken = 0;
        }
        let from = self.end();
        if self.ends.len() >= MOST_AHEAD || from > ROOM - LONGEST || from > self.room.len() {
            return None;
        }
        Some(&mut self.room.as_mut_slice()[from..])
    }

    /// One more stands in the room, of so many bytes.
    pub(crate) fn put(&mut self, len: usize) {
        let end = self.end().saturating_add(len).min(self.room.len());
        let _ = self.ends.push(end);
    }

    /// The one that comes after so many others, of those that aren't taken.
    pub(crate) fn get(&self, index: usize) -> Option<&[u8]> {
        let ends = self.ends.as_slice();
        let at = self.taken.saturating_add(index);
        if at >= ends.len() {
            return None;
        }
        let from = if at == 0 { 0 } else { ends[at - 1] };
        let end = ends[at];
        if from > end || end > self.room.len() {
            return Some(&[]);
        }
        Some(&self.room.as_slice()[from..end])
    }

    /// The next one, put at the front of the buffer, as far as that goes: how many bytes it has.
    pub(crate) fn take(&mut self, buffer: &mut [u8]) -> Option<usize>
        ensures { IfSome result (λ n. n ≤ length buffer.new) }
    {
        let bytes = self.get(0)?;
        let len = bytes.len().min(buffer.len());
        buffer[..len].copy_from_slice(&bytes[..len]);
        self.taken = self.taken.saturating_add(1);
        Some(len)
    }
}
