use crate::exact::Exact;
use lsr_facts::{Origin, PathFact};

impl Exact for Origin {
    fn is_same(&self, other: &Origin) -> bool {
        self == other
    }
}

impl Exact for PathFact {
    fn is_same(&self, other: &PathFact) -> bool {
        self.role == other.role
            && self.out_link == other.out_link
            && self.label_request.is_same(&other.label_request)
            && self.fast_reroute.is_same(&other.fast_reroute)
            && self.origins.is_same(&other.origins)
            && self.tspec.is_same(&other.tspec)
            && self.attr.is_same(&other.attr)
            && self.rest.is_same(&other.rest)
            && self.given.is_same(&other.given)
            && self.recorded.is_same(&other.recorded)
            && self.passing.is_same(&other.passing)
    }
}
