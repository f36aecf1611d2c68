//! Which repair a message is for: the LSP is named as the bypass's end knows it (RFC 4090, 6.4.3).

ghost use Rattle.std.specs.List.{list_any};
ghost use Rattle.std.specs.Option.{option_copied, option_map_or};
ghost use Rattle.std.specs.Prelude.{◌≡◌, drop, false, filter, slice_get};
ghost use Rattle.abstract_router.specs.Returning.{repair_from, repair_known_as, the_one};
ghost use Rattle.facility_backup.specs.Matching.{is_for};

use facility_backup::is_for;
use lsr_facts::{Key, Repair};
use state_views::WholeState;
use std::net::Ipv4Addr;

/// Whether it is for the repair at a place.
fn is_for_at<V: WholeState>(view: &V, hop: Option<Ipv4Addr>, key: &Key, place: usize) -> bool
    ensures { result ≡ option_map_or (is_for (V.router view.now) (V.state view.now) hop key.now)
        (slice_get (V.state view.now).repairs place) false }
{
    match view.repair_at(place) {
        Some(repair) => is_for(view, hop, key, repair),
        None => false,
    }
}

/// Whether it is for a repair from this place on.
#[tactic(auto, using(path_steps::proofs::Places::any_from))]
fn is_for_any<V: WholeState>(view: &V, hop: Option<Ipv4Addr>, key: &Key, from: usize) -> bool
    ensures { result ≡ list_any (is_for (V.router view.now) (V.state view.now) hop key.now)
        (drop from (V.state view.now).repairs) }
{
    for place in from..view.repair_count() {
        if is_for_at(view, hop, key, place) {
            return true;
        }
    }
    false
}

/// The one repair that it is for; `None` where there is none, or there are several.
fn only_one<'a, V: WholeState>(
    view: &'a V,
    hop: Option<Ipv4Addr>,
    key: &Key,
) -> Option<&'a (Key, Repair)>
    ensures { option_copied result ≡ the_one (filter (is_for (V.router view.now) (V.state view.now) hop key.now)
        (V.state view.now).repairs) }
{
    for place in 0..view.repair_count() {
        if is_for_at(view, hop, key, place) {
            if is_for_any(view, hop, key, place + 1) {
                return None;
            }
            return view.repair_at(place);
        }
    }
    None
}

/// The repair that a PathErr is for which names this LSP. Takes no memory.
#[tactic(auto, using(crate::proofs::Matches::any_hop))]
pub(crate) fn repair_known_as<'a, V: WholeState>(
    view: &'a V,
    key: &Key,
) -> Option<&'a (Key, Repair)>
    ensures { option_copied result ≡ repair_known_as (V.router view.now) (V.state view.now) key.now }
{
    only_one(view, None, key)
}

/// The repair that a Resv or a ResvTear is for which names this LSP, and comes from the router of this address: the bypass
/// ends there, too. Takes no memory.
#[tactic(auto, unfolding(abstract_router::specs::Returning::repair_from))]
pub(crate) fn repair_from<'a, V: WholeState>(
    view: &'a V,
    hop: Ipv4Addr,
    key: &Key,
) -> Option<&'a (Key, Repair)>
    ensures { option_copied result ≡ repair_from (V.router view.now) (V.state view.now) hop key.now }
{
    only_one(view, Some(hop), key)
}
