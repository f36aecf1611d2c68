//! What a ResvTear does (RFC 2205, 3.1.6).

ghost use Rattle.std.specs.FinMap.Entries.{is_sorted};
ghost use Rattle.std.specs.List.{list_any};
ghost use Rattle.std.specs.Prelude.{◌≡◌, IfOk, OnErr, T, false, true};
ghost use Rattle.lsr_facts.specs.Orders.{key_cmp};
ghost use Rattle.abstract_paths.specs.Outcomes.{lsp};
ghost use Rattle.abstract_router.specs.Tearing.{resv_tear_arrival};
ghost use Rattle.state_views.specs.Drafts.{IsDraft};
ghost use Rattle.router_steps.specs.Torn.{is_reserved_on, torn_keys};

use abstract_paths::Outputs;
use lsr_facts::{Key, Refusal, Reply};
use message_rules::lsp;
use rsvp_contents::ResvTear;
use sorted_rows::Table;
use state_views::{Draft, Edits, StateView, refused, without_rows};
use std::alloc::{AllocError, Global};

/// Whether the LSP is reserved on a link.
fn is_reserved_on<V: StateView>(view: &V, link: u16, key: &Key) -> bool
    ensures { result ≡ is_reserved_on link (V.state view.now).resvs key.now }
{
    match view.resv(key) {
        Some(resv) => resv.link == link,
        None => false,
    }
}

/// The LSPs from which a ResvTear over a link takes the reservation away, as its filters name them: those that are
/// reserved on the link. Style and hop don't count.
fn torn_keys<V: StateView>(
    alloc: Global,
    view: &V,
    link: u16,
    tear: &ResvTear,
) -> Result<Vec<Key>, AllocError>
    ensures keys { IfOk result (λ keys. keys.items ≡ torn_keys link tear.now (V.state view.now).resvs) }
    ensures memory { OnErr result (list_any (λ filter. is_reserved_on link (V.state view.now).resvs
        (lsp tear.now.session filter)) tear.now.filters ≡ true) }
{
    let mut keys = Vec::new(alloc);
    for filter in tear.filters.as_slice() {
        let key = lsp(tear.session, *filter);
        if is_reserved_on(view, link, &key) {
            keys.push(key)?;
        }
    }
    Ok(keys)
}

/// What a ResvTear does. The only error is out of memory.
pub(crate) fn resv_tear_arrival<V: StateView>(
    alloc: Global,
    view: &V,
    link: u16,
    tear: &ResvTear,
) -> Result<Draft, AllocError>
    requires { T (is_sorted key_cmp (V.state view.now).resvs) }
    ensures draft { IfOk result (λ draft. IsDraft draft
        (resv_tear_arrival (V.state view.now) link tear.now)
        (V.router view.now) (V.state view.now)) }
    ensures memory { OnErr result
        ((resv_tear_arrival (V.state view.now) link tear.now).is_silent ≡ false) }
{
    let torn = torn_keys(alloc, view, link, tear)?;
    if torn.is_empty() {
        return Ok(refused(alloc, view, Refusal::NoMatch));
    }
    let mut edits = Edits::none(alloc);
    edits.resvs = without_rows(Table::new(alloc), torn.as_slice())?;
    Ok(Draft {
        reply: Reply::Done,
        errors: Outputs::new(alloc),
        due: None,
        is_silent: false,
        edits,
    })
}
