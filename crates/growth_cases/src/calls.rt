//! The calls of a core that lines ask for.

use abstract_paths::Event;
use interface_workers::{Wire, WireFault};
use lsr_lines::{Request, read_request};
use lsr_session::hop_frame;
use std::alloc::{AllocError, Global};

/// A call of a core.
#[derive(Drop)]
pub enum Call {
    /// An event is fed.
    Feed(Event),
    /// A worker takes a frame, which comes over the link of this number.
    Serve(u16, Vec<u8>),
    /// The entries of the journal are taken away.
    Rotate,
}

/// The call that a line asks for; none where it shows something.
fn call_of(alloc: Global, request: Request) -> Result<Option<Call>, AllocError> {
    match request {
        Request::Receive(arrival) => {
            let frame = hop_frame(alloc, arrival.bytes.as_slice())?;
            Ok(Some(Call::Serve(arrival.link, frame)))
        }
        Request::Frame(arrival) => Ok(Some(Call::Serve(arrival.link, arrival.bytes))),
        Request::Tick(moment) => Ok(Some(Call::Feed(Event::Tick(moment)))),
        Request::LinkDown(link) => Ok(Some(Call::Feed(Event::LinkDown(link)))),
        Request::Command(command) => Ok(Some(Call::Feed(Event::Command(command)))),
        _ => Ok(None),
    }
}

/// The calls that the lines ask for. The only error is out of memory.
pub fn read_calls(alloc: Global, lines: &str) -> Result<Vec<Call>, AllocError> {
    let mut calls = Vec::new(alloc);
    for line in lines.lines() {
        if let Some(request) = read_request(alloc, line)?
            && let Some(call) = call_of(alloc, request)?
        {
            calls.push(call)?;
        }
    }
    Ok(calls)
}

/// A wire on which a frame comes.
#[derive(Clone, Copy)]
pub struct OneFrame<'a> {
    /// The frame.
    pub frame: &'a [u8],
}

impl<'a> Wire for OneFrame<'a> {
    ghost use Rattle.std.specs.Prelude.{None};

    ghost history = { λ _. record { failed = 0; answered = None; given = None } };

    /// The frame, where the buffer has room for it.
    fn receive(&mut self, buffer: &mut [u8]) -> Result<Option<usize>, WireFault> {
        let len = self.frame.len();
        if len > buffer.len() {
            return Ok(None);
        }
        buffer[..len].copy_from_slice(self.frame);
        Ok(Some(len))
    }

    fn send(&mut self, _link: u16, _bytes: &[u8]) -> Result<(), WireFault> {
        Ok(())
    }

    fn failures(&self) -> u64 {
        0
    }
}
