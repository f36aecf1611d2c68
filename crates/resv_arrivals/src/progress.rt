//! What some of a Resv's flow descriptors have led to.

ghost use Rattle.std.specs.FinMap.Entries.{find};
ghost use Rattle.std.specs.Option.{option_copied};
ghost use Rattle.std.specs.Prelude.{◌≡◌, [], None, false};
ghost use Rattle.lsr_facts.specs.Orders.{key_cmp};
ghost use Rattle.sorted_rows.specs.Edits.{edited};
ghost use Rattle.abstract_router.specs.States.{State, is_held};

use abstract_paths::Outputs;
use lsr_facts::{Claim, Key, ResvFact, RsvpError};
use sorted_rows::Table;
use state_views::StateView;
use std::alloc::Global;

/// What some of a Resv's flow descriptors have led to.
#[derive(Debug, Drop)]
pub struct Progress {
    /// What reservations claim from now on: `None` where that is as it was.
    pub claims: Option<Table<Key, Claim>>,
    /// Of LSPs what is known of their reservations from now on: `None` where one goes.
    pub edits: Table<Key, Option<ResvFact>>,
    /// The errors that are told, in the order found.
    pub errors: Outputs,
    /// The first error of a descriptor.
    pub first: Option<RsvpError>,
    /// Whether one was granted.
    pub has_granted: bool,
}

impl Progress {
    /// Nothing has changed. Takes no memory.
    pub fn new(alloc: Global) -> Progress
        ensures { result ≡ record { claims = None; edits = []; errors = []; first = None; has_granted = false } }
    {
        Progress {
            claims: None,
            edits: Table::new(alloc),
            errors: Outputs::new(alloc),
            first: None,
            has_granted: false,
        }
    }
}

/// What is known of an LSP's reservation after edits.
#[tactic(auto, using(state_views::specs::EditLaws::row_edited))]
pub fn resv_now<'a, V: StateView>(
    view: &'a V,
    edits: &'a Table<Key, Option<ResvFact>>,
    key: &Key,
) -> Option<&'a ResvFact>
    ensures { option_copied result ≡ find key_cmp key.now (edited key_cmp edits.now (V.state view.now).resvs) }
{
    match edits.get(key) {
        Some(edit) => edit.as_ref(),
        None => view.resv(key),
    }
}

/// Whether an LSP is reserved or repaired after edits of reservations.
pub fn is_held_now<V: StateView>(view: &V, edits: &Table<Key, Option<ResvFact>>, key: &Key) -> bool
    ensures { result ≡ is_held (record (V.state view.now) { resvs = edited key_cmp edits.now (V.state view.now).resvs }) key.now }
{
    resv_now(view, edits, key).is_some() || view.repair(key).is_some()
}
