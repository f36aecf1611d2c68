ghost use Rattle.std.specs.Prelude.{◌≡◌, ◌↔◌, IsTrue};

use crate::exact::Exact;
use lsr_facts::{Link, Router};

impl Exact for Link {
    fn is_same(&self, other: &Link) -> bool {
        self == other
    }
}

/// Whether what never changes of two routers is the same. Takes no memory.
pub fn is_same_router(router: &Router, other: &Router) -> bool
    ensures { IsTrue result ↔ (router.now ≡ other.now) }
{
    router.id.is_same(&other.id)
        && router.refresh_ms == other.refresh_ms
        && router.labels == other.labels
        && router.label_rest_ms == other.label_rest_ms
        && router.links.is_same(&other.links)
}
