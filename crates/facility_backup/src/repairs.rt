//! The repair of an LSP (RFC 4090, 6.4).

ghost use Rattle.std.specs.Option.{option_map};
ghost use Rattle.std.specs.Prelude.{◌≡◌, IfOk};
ghost use Rattle.abstract_router.specs.Protecting.{repair_with};
ghost use Rattle.abstract_router.specs.Repairing.{repair_on};
ghost use Rattle.facility_backup.specs.Holding.{held_lsp};

use crate::selecting::select;
use lsr_facts::{Key, PathFact, Repair, ResvFact, Selected};
use message_rules::{is_up, leaves_by};
use sorted_rows::TryCopy;
use state_views::{StateView, node_of};
use std::alloc::{AllocError, Global};

/// An LSP that is held: it has a path, and a reservation under whose label the router after it takes it. Only [`held_lsp`]
/// makes one, so nothing else is repaired.
#[derive(Clone, Copy, Debug)]
pub struct Held<'a> {
    key: Key,
    path: &'a PathFact,
    resv: &'a ResvFact,
}

/// The LSP of a key, if it is held. Takes no memory.
pub fn held_lsp<'a, V: StateView>(view: &'a V, key: &Key) -> Option<Held<'a>>
    ensures { option_map (λ held. (held.key, held.path.now, held.resv.now)) result ≡ held_lsp (V.state view.now) key.now }
{
    let resv = view.resv(key)?;
    let path = view.path(key)?;
    Some(Held {
        key: *key,
        path,
        resv,
    })
}

/// The bypass over which it is repaired: the one that is selected by what it is promised, where its path leaves by the link of
/// its reservation, which is down.
fn choice_of<V: StateView>(view: &V, held: &Held) -> Option<Selected>
    ensures { option_map (repair_with held.now.resv.now) result
        ≡ repair_on (V.router view.now) (V.state view.now) held.now.key held.now.resv.now held.now.path.now }
{
    if !leaves_by(held.resv.link, held.path) || is_up(node_of(view).up, held.resv.link) {
        return None;
    }
    let given = view.assignment(&held.key);
    select(view, &held.key, held.path, given, held.resv)
}

/// How an LSP that is held goes on, if it is to be repaired: over the bypass that was selected, under the label by which the
/// router at the bypass's end takes it (RFC 4090, 6.4.1). Takes no memory where it isn't; the only error is out of memory.
pub fn repair<V: StateView>(
    alloc: Global,
    view: &V,
    held: &Held,
) -> Result<Option<Repair>, AllocError>
    ensures { IfOk result (λ found. found
        ≡ repair_on (V.router view.now) (V.state view.now) held.now.key held.now.resv.now held.now.path.now) }
{
    let Some(choice) = choice_of(view, held) else {
        return Ok(None);
    };
    let mut resv = held.resv.try_copy(alloc)?;
    resv.label = choice.label;
    Ok(Some(Repair {
        bypass: choice.bypass,
        is_nnhop: choice.is_nnhop,
        resv,
    }))
}
