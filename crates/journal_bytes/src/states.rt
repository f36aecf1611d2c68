ghost use Rattle.std.specs.Prelude.{◌≡◌, ◌↔◌, IsTrue};

use crate::exact::Exact;
use lsr_facts::{Assignment, Facts, Repair, ResvFact, State};

impl Exact for Facts {
    fn is_same(&self, other: &Facts) -> bool {
        self.cold == other.cold
            && self.moment == other.moment
            && self.up.is_same(&other.up)
            && self.routes.is_same(&other.routes)
            && self.tunnels.is_same(&other.tunnels)
            && self.bypasses.is_same(&other.bypasses)
            && self.paths.is_same(&other.paths)
            && self.sent.is_same(&other.sent)
    }
}

impl Exact for ResvFact {
    fn is_same(&self, other: &ResvFact) -> bool {
        self.link == other.link
            && self.style == other.style
            && self.label == other.label
            && self.expiry == other.expiry
            && self.flowspec.is_same(&other.flowspec)
            && self.recorded.is_same(&other.recorded)
            && self.passing.is_same(&other.passing)
    }
}

impl Exact for Repair {
    fn is_same(&self, other: &Repair) -> bool {
        self.bypass == other.bypass
            && self.is_nnhop == other.is_nnhop
            && self.resv.is_same(&other.resv)
    }
}

impl Exact for Assignment {
    fn is_same(&self, other: &Assignment) -> bool {
        self == other
    }
}

/// Whether two routers know the same. Takes no memory.
pub fn is_same_state(state: &State, other: &State) -> bool
    ensures { IsTrue result ↔ (state.now ≡ other.now) }
{
    state.facts.is_same(&other.facts)
        && state.resvs.is_same(&other.resvs)
        && state.repairs.is_same(&other.repairs)
        && state.labels.is_same(&other.labels)
        && state.assignments.is_same(&other.assignments)
        && state.resting.is_same(&other.resting)
        && state.sent_upstream.is_same(&other.sent_upstream)
}
