//! What a ResvTear does that came back from the end of a bypass.

ghost use Rattle.std.specs.FinMap.Entries.{is_sorted};
ghost use Rattle.std.specs.List.{list_any};
ghost use Rattle.std.specs.Option.{option_map};
ghost use Rattle.std.specs.Prelude.{◌≡◌, IfOk, OnErr, T, false, is_some, true};
ghost use Rattle.lsr_facts.specs.Orders.{key_cmp};
ghost use Rattle.abstract_paths.specs.Outcomes.{lsp};
ghost use Rattle.abstract_router.specs.Returning.{repair_from, returned_keys, returned_tear};
ghost use Rattle.state_views.specs.Drafts.{IsDraft};

use crate::matching::repair_from;
use abstract_paths::Outputs;
use lsr_facts::{Key, Refusal, Reply};
use message_rules::lsp;
use rsvp_contents::ResvTear;
use rsvp_objects::Template;
use sorted_rows::Table;
use state_views::{Draft, Edits, WholeState, refused, without_rows};
use std::alloc::{AllocError, Global};

/// The LSP whose repair a filter of a ResvTear is for.
fn torn_by<V: WholeState>(view: &V, tear: &ResvTear, filter: Template) -> Option<Key>
    ensures { result ≡ option_map (λ repair. repair.0) (repair_from (V.router view.now) (V.state view.now)
        tear.now.hop.address (lsp tear.now.session filter)) }
{
    let repair = repair_from(view, tear.hop.address, &lsp(tear.session, filter))?;
    Some(repair.0)
}

/// The LSPs whose repairs a ResvTear is for, as its filters name them.
fn returned_keys<V: WholeState>(
    alloc: Global,
    view: &V,
    tear: &ResvTear,
) -> Result<Vec<Key>, AllocError>
    ensures keys { IfOk result (λ keys. keys.items ≡ returned_keys (V.router view.now) (V.state view.now) tear.now) }
    ensures memory { OnErr result (list_any (λ filter. is_some (option_map (λ repair. repair.0) (repair_from (V.router view.now)
        (V.state view.now) tear.now.hop.address (lsp tear.now.session filter)))) tear.now.filters ≡ true) }
{
    let mut keys = Vec::new(alloc);
    for filter in tear.filters.as_slice() {
        if let Some(key) = torn_by(view, tear, *filter) {
            keys.push(key)?;
        }
    }
    Ok(keys)
}

/// What a ResvTear does that came back from the end of a bypass: it takes away the repairs that it is for.
/// The only error is out of memory, and that never comes for one that is refused.
pub fn returned_tear<V: WholeState>(
    alloc: Global,
    view: &V,
    tear: &ResvTear,
) -> Result<Draft, AllocError>
    requires { T (is_sorted key_cmp (V.state view.now).repairs) }
    ensures draft { IfOk result (λ draft. IsDraft draft
        (returned_tear (V.router view.now) (V.state view.now) tear.now)
        (V.router view.now) (V.state view.now)) }
    ensures memory { OnErr result ((returned_tear (V.router view.now) (V.state view.now)
        tear.now).is_silent ≡ false) }
{
    let torn = returned_keys(alloc, view, tear)?;
    if torn.is_empty() {
        return Ok(refused(alloc, view, Refusal::NoMatch));
    }
    let mut edits = Edits::none(alloc);
    edits.repairs = without_rows(Table::new(alloc), torn.as_slice())?;
    Ok(Draft {
        reply: Reply::Done,
        errors: Outputs::new(alloc),
        due: None,
        is_silent: false,
        edits,
    })
}
