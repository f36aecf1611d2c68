//! What stands between a worker and the core.

/// What stands between a worker and the core: it is asked before each event that a port feeds and told after it, outside the router's
/// lock where it says that it may hold the port.
pub trait Gate {
    /// Whether it may hold a port, or asks the core: then a worker keeps the router for no other event while it asks.
    fn may_hold(&self) -> bool {
        true
    }

    /// A port is about to make this call, its first one having the number 1. It may hold the port.
    fn enter(&self, port: u16, call: u64);

    /// The call has ended.
    fn leave(&self, port: u16, call: u64);
}

/// A gate that holds nobody.
#[derive(Clone, Copy, Debug)]
pub struct OpenGate;

impl Gate for OpenGate {
    fn may_hold(&self) -> bool {
        false
    }

    fn enter(&self, _port: u16, _call: u64) {}

    fn leave(&self, _port: u16, _call: u64) {}
}
