//! A wire in memory, on which a script says what comes and when it fails.
ghost use Rattle.std.specs.Prelude.{◌≡◌, ◌+◌, ◌-◌, ◌^◌, ◌<◌, ◌≤◌, IfSome, length};

use interface_workers::{Wire, WireFault};
use std::alloc::Global;

/// What happens on a wire.
#[derive(Clone, Copy)]
pub(crate) struct WirePlan {
    /// The frames that come, in their order.
    pub(crate) arrivals: &'static [&'static [u8]],
    /// Whether they come again and again; else nothing comes after them.
    pub(crate) is_endless: bool,
    /// The call at which the wire fails, from 1 on; 0 for none. A frame that would have come then is lost.
    pub(crate) fails_at: u64,
    /// The place of a frame, from 0 on, in whose stead none comes.
    pub(crate) without: Option<usize>,
}

/// A wire on which nothing comes, and which never fails.
pub(crate) const SILENT: WirePlan = WirePlan {
    arrivals: &[],
    is_endless: false,
    fails_at: 0,
    without: None,
};

/// A frame that a wire was given.
#[derive(Drop)]
pub(crate) struct GivenFrame {
    /// The number of the link.
    pub(crate) link: u16,
    /// Its bytes.
    pub(crate) bytes: Vec<u8>,
    /// Whether the wire carried it; else it is lost.
    pub(crate) is_carried: bool,
}

/// A wire on which frames come by a plan, which goes on where it failed, and which keeps what it was given.
#[derive(Drop)]
pub(crate) struct ScriptedWire {
    alloc: Global,
    plan: WirePlan,
    /// How often it was asked for a frame.
    pub(crate) asked: usize,
    /// How often it was asked for a frame or given one.
    pub(crate) calls: u64,
    failures: u64,
    /// The place of the frame that was lost as it would have come, from 0 on.
    pub(crate) lost_arrival: Option<usize>,
    /// The frames that it was given, in their order.
    pub(crate) given: Vec<GivenFrame>,
}

impl ScriptedWire {
    /// A wire on which nothing happened yet.
    pub(crate) fn new(alloc: Global, plan: WirePlan) -> ScriptedWire {
        ScriptedWire {
            alloc,
            plan,
            asked: 0,
            calls: 0,
            failures: 0,
            lost_arrival: None,
            given: Vec::new(alloc),
        }
    }

    /// The frame that comes at this place, where there is one.
    fn coming(&self, place: usize) -> Option<&'static [u8]> {
        let arrivals = self.plan.arrivals;
        if self.plan.without == Some(place) {
            return None;
        }
        if self.plan.is_endless {
            return arrivals.get(place % arrivals.len().max(1)).copied();
        }
        arrivals.get(place).copied()
    }

    /// One call more: whether the wire fails at it.
    fn fails(&mut self) -> bool
        ensures { self.new.failures ≡ self.old.failures }
    {
        self.calls = self.calls.saturating_add(1);
        self.calls == self.plan.fails_at
    }

    /// One more failure.
    fn fail(&mut self) -> WireFault
        requires { self.old.failures < 2 ^ 64 - 1 }
        ensures { self.new.failures ≡ self.old.failures + 1 }
    {
        self.failures += 1;
        WireFault
    }

    /// Keeps a frame that it is given. Where there is no memory for it nothing is kept.
    fn keep(&mut self, link: u16, bytes: &[u8], is_carried: bool)
        ensures { self.new.failures ≡ self.old.failures }
    {
        if let Ok(bytes) = Vec::from_slice(self.alloc, bytes) {
            let _ = self.given.push(GivenFrame {
                link,
                bytes,
                is_carried,
            });
        }
    }
}

/// Puts a frame at the front of a buffer, where it has room for it: how many bytes it has.
fn put_front(buffer: &mut [u8], frame: &[u8]) -> Option<usize>
    ensures { IfSome result (λ n. n ≤ length buffer.new) }
{
    if frame.len() > buffer.len() {
        return None;
    }
    buffer[..frame.len()].copy_from_slice(frame);
    Some(frame.len())
}

impl Wire for ScriptedWire {
    ghost use Rattle.std.specs.Prelude.{None};

    ghost history = { λ wire. record { failed = wire.failures; answered = None; given = None } };

    /// The next frame that comes, where there is one and the wire doesn't fail.
    fn receive(&mut self, buffer: &mut [u8]) -> Result<Option<usize>, WireFault> {
        let place = self.asked;
        self.asked = self.asked.saturating_add(1);
        if self.fails() {
            self.lost_arrival = Some(place);
            return Err(self.fail());
        }
        match self.coming(place) {
            Some(frame) => Ok(put_front(buffer, frame)),
            None => Ok(None),
        }
    }

    /// Keeps the frame; it is lost where the wire fails.
    fn send(&mut self, link: u16, bytes: &[u8]) -> Result<(), WireFault> {
        let fails = self.fails();
        self.keep(link, bytes, !fails);
        if fails {
            return Err(self.fail());
        }
        Ok(())
    }

    fn failures(&self) -> u64 {
        self.failures
    }
}
