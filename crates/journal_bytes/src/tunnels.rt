use crate::exact::Exact;
use lsr_facts::{Bypass, Noted, Tunnel, TunnelLsp};

impl Exact for Noted {
    fn is_same(&self, other: &Noted) -> bool {
        self == other
    }
}

impl Exact for Bypass {
    fn is_same(&self, other: &Bypass) -> bool {
        self == other
    }
}

impl Exact for TunnelLsp {
    fn is_same(&self, other: &TunnelLsp) -> bool {
        self.id == other.id && self.route.is_same(&other.route) && self.tspec.is_same(&other.tspec)
    }
}

impl Exact for Tunnel {
    fn is_same(&self, other: &Tunnel) -> bool {
        self.endpoint == other.endpoint
            && self.last == other.last
            && self.noted.is_same(&other.noted)
            && self.fast_reroute.is_same(&other.fast_reroute)
            && self.attr.is_same(&other.attr)
            && self.current.is_same(&other.current)
            && self.pending.is_same(&other.pending)
    }
}
