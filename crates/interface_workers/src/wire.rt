//! What carries frames between routers.

ghost use Rattle.std.specs.Prelude.{◌≡◌, ◌<◌, ◌≤◌, ◌-◌, ◌^◌, ◌∷◌, [], IfOk, IfSome, length};
ghost use Rattle.interface_workers.specs.Wires.{WireHistory, after, arrival_of, sending_of};

use thiserror::Error;

/// A wire failed: it took nothing, or gave nothing.
#[derive(Clone, Copy, Debug, PartialEq, Eq, Error)]
#[error("the wire failed: nothing was carried")]
pub struct WireFault;

/// What carries frames to a router's neighbours, and theirs to it. Contracts see how often it failed, and of a wire that keeps a
/// record what it answered and what it was given. A wire that keeps none, as a socket, has no more to say of it: whoever uses a wire is
/// proved for all of them.
pub trait Wire {
    ghost history: { Self → WireHistory };

    /// The next frame that came, put at the front of the buffer: how many bytes it has; `None` where none came in the wire's
    /// time. A fault is answered only where the count of failures rose.
    fn receive(&mut self, buffer: &mut [u8]) -> Result<Option<usize>, WireFault>
        requires { (history self.old).failed < 2 ^ 64 - 1 }
        ensures length { IfOk result (λ came. IfSome came (λ n. n ≤ length buffer.new)) }
        ensures history { history self.new ≡ after (history self.old) (arrival_of result buffer.new ∷ []) [] };

    /// The frame that is there already after `index` others: [`Wire::receive`] gives them in their order, without waiting. Who can't tell says
    /// none.
    fn ahead(&self, _index: usize) -> Option<&[u8]> {
        None
    }

    /// Carries a frame over the link of this number. A fault is answered only where the count of failures rose; the frame is
    /// lost then.
    fn send(&mut self, link: u16, bytes: &[u8]) -> Result<(), WireFault>
        requires { (history self.old).failed < 2 ^ 64 - 1 }
        ensures { history self.new ≡ after (history self.old) [] (sending_of link bytes.now result ∷ []) };

    /// How often it failed.
    fn failures(&self) -> u64
        ensures { result ≡ (history self.now).failed };
}
