//! What a ResvErr does (RFC 2205, 3.1.8; RFC 4090, 6.4.3 and 7.1).

ghost use Rattle.std.specs.List.{flat_map, list_any};
ghost use Rattle.std.specs.Option.{option_to_list};
ghost use Rattle.std.specs.Prelude.{◌≡◌, ◌∷◌, [], IfOk, OnErr, Some, false, filter_map, is_some, map, true};
ghost use Rattle.rsvp_contents.specs.Spelling.{IsMessage};
ghost use Rattle.rsvp_contents.specs.declared.messages.Content.TheVariants as contents;
ghost use Rattle.resv_arrivals.specs.Below.rules.Rooms.{HaveRoom};
ghost use Rattle.abstract_router.specs.Lsps.{around_of};
ghost use Rattle.abstract_router.specs.Soundness.{AreHeld};
ghost use Rattle.abstract_router.specs.Tearing.{err_onward, err_to, is_from_origin, resv_err_arrival, stack_err_arrival, stack_err_onward};
ghost use Rattle.abstract_router.specs.Through.{err_through};
ghost use Rattle.state_views.specs.Drafts.{IsDraft};
ghost use Rattle.router_steps.specs.Onward.{err_by, passed_on, told_of};

use abstract_paths::{Output, Outputs};
use lsr_facts::{Key, PathFact, Refusal, Repair, Reply};
use message_rules::{goes_on, head_through, is_from, link_at, lsp, renamed_leaves_room};
use path_steps::path_through;
use repair_arrivals::told_through;
use resv_arrivals::{resv_err_leaves_room, told_downstream};
use rsvp_contents::{ErrorDescriptor, ErrorDescriptors, ResvErr};
use rsvp_objects::Template;
use state_views::{Draft, Edits, StateView, WholeState, refused};
use std::alloc::{AllocError, Global};

/// What becomes of a descriptor of a ResvErr.
#[derive(Debug, Drop)]
enum Onward {
    /// It matches nothing here.
    NoMatch,
    /// Its LSP is known, and nothing goes on.
    Ends,
    /// This goes on for its LSP.
    GoesOn(Output),
}

/// What becomes of a descriptor of which this goes on, if anything does.
fn onward_of(told: Option<Output>) -> Onward
    ensures { told_of result ≡ Some (option_to_list told) }
{
    match told {
        Some(output) => Onward::GoesOn(output),
        None => Onward::Ends,
    }
}

/// Whether the path came from the neighbour that sent the ResvErr over a link. The interface handle doesn't count.
fn is_from_origin(link: u16, error: &ResvErr, path: &PathFact) -> bool
    ensures { result ≡ is_from_origin link error.now path.now }
{
    path.origins
        .as_slice()
        .iter()
        .any(|origin| is_from(link, error.hop.address, &origin.1))
}

/// What a descriptor says, of the LSP of its session that this filter names. The only error is out of memory.
fn renamed(descriptor: &ErrorDescriptor, filter: Template) -> Result<ErrorDescriptor, AllocError>
    ensures { IfOk result (λ named. named ≡ record descriptor.now { filter = filter }) }
{
    Ok(ErrorDescriptor {
        flowspec: descriptor.flowspec.clone()?,
        filter,
    })
}

/// The one descriptor of a ResvErr for an LSP, under this filter. The only error is out of memory.
fn one_named(
    alloc: Global,
    descriptor: &ErrorDescriptor,
    filter: Template,
) -> Result<ErrorDescriptors, AllocError>
    requires { HaveRoom (descriptor.now ∷ []) }
    ensures named { IfOk result (λ named. named ≡ record descriptor.now { filter = filter } ∷ []) }
    ensures room { IfOk result HaveRoom }
{
    renamed_leaves_room(descriptor, &filter);
    let mut named = ErrorDescriptors::new(alloc);
    named.push(renamed(descriptor, filter)?)?;
    Ok(named)
}

/// A ResvErr for a repaired LSP: it goes through the bypass, where that is up, under the sender that the bypass's end
/// knows (RFC 4090, 6.4.3). The only error is out of memory.
fn err_through<V: StateView>(
    alloc: Global,
    view: &V,
    repair: &Repair,
    error: &ResvErr,
    descriptor: &ErrorDescriptor,
    filter: Template,
) -> Result<Option<Output>, AllocError>
    requires held { AreHeld (V.router view.now) (V.state view.now) }
    requires room { HaveRoom (descriptor.now ∷ []) }
    ensures { IfOk result (λ told. told ≡ err_through (around_of (V.router view.now) (V.state view.now))
        repair.now error.now (record descriptor.now { filter = filter })) }
{
    let Some(link) = link_at(view.node().router, repair.resv.link) else {
        return Ok(None);
    };
    let named = one_named(alloc, descriptor, head_through(filter, link))?;
    let told = told_through(
        alloc,
        view,
        repair,
        error.session,
        error.error,
        error.style,
        named,
    )?;
    Ok(told)
}

/// Where a ResvErr goes on to, for an LSP that doesn't end here, its error and style unchanged, under this filter: the next
/// hop where the LSP is reserved, the bypass's end where it is repaired. It matches nothing where the LSP is neither.
fn err_to<V: StateView>(
    alloc: Global,
    view: &V,
    error: &ResvErr,
    descriptor: &ErrorDescriptor,
    filter: Template,
    key: &Key,
) -> Result<Onward, AllocError>
    requires held { AreHeld (V.router view.now) (V.state view.now) }
    requires room { HaveRoom (descriptor.now ∷ []) }
    ensures told { IfOk result (λ told. told_of told ≡ err_to (V.router view.now)
        (V.state view.now) error.now (record descriptor.now { filter = filter }) key.now) }
    ensures memory { OnErr result (is_some (err_to (V.router view.now)
        (V.state view.now) error.now (record descriptor.now { filter = filter }) key.now) ≡ true) }
{
    if let Some(resv) = view.resv(key) {
        renamed_leaves_room(descriptor, &filter);
        let told = told_downstream(
            alloc,
            view.node().router,
            resv.link,
            error.session,
            error.error,
            error.style,
            Some(renamed(descriptor, filter)?),
        )?;
        return Ok(onward_of(told));
    }
    match view.repair(key) {
        Some(repair) => {
            let told = err_through(alloc, view, repair, error, descriptor, filter)?;
            Ok(onward_of(told))
        }
        None => Ok(Onward::NoMatch),
    }
}

/// What becomes of a descriptor of a ResvErr that came over a link.
fn err_onward<V: StateView>(
    alloc: Global,
    view: &V,
    link: u16,
    error: &ResvErr,
    descriptor: &ErrorDescriptor,
) -> Result<Onward, AllocError>
    requires held { AreHeld (V.router view.now) (V.state view.now) }
    requires room { HaveRoom (descriptor.now ∷ []) }
    ensures told { IfOk result (λ told. told_of told ≡ err_onward (V.router view.now)
        (V.state view.now) link error.now descriptor.now) }
    ensures memory { OnErr result (is_some (err_onward (V.router view.now)
        (V.state view.now) link error.now descriptor.now) ≡ true) }
{
    let key = lsp(error.session, descriptor.filter);
    let Some(path) = view.path(&key) else {
        return Ok(Onward::NoMatch);
    };
    if !is_from_origin(link, error, path) {
        return Ok(Onward::NoMatch);
    }
    if !goes_on(path.role) {
        return Ok(Onward::Ends);
    }
    err_to(alloc, view, error, descriptor, descriptor.filter, &key)
}

/// What becomes of a descriptor of a ResvErr that came through a stack of labels, and so names the sender of an origin: as of
/// any, but that it goes on under the LSP's own sender (RFC 4090, 7.1).
fn stack_err_onward<V: WholeState>(
    alloc: Global,
    view: &V,
    error: &ResvErr,
    descriptor: &ErrorDescriptor,
) -> Result<Onward, AllocError>
    requires held { AreHeld (V.router view.now) (V.state view.now) }
    requires room { HaveRoom (descriptor.now ∷ []) }
    ensures told { IfOk result (λ told. told_of told ≡ stack_err_onward (V.router view.now)
        (V.state view.now) error.now descriptor.now) }
    ensures memory { OnErr result (is_some (stack_err_onward (V.router view.now)
        (V.state view.now) error.now descriptor.now) ≡ true) }
{
    let Some(path) = path_through(view, &lsp(error.session, descriptor.filter)) else {
        return Ok(Onward::NoMatch);
    };
    if !goes_on(path.1.role) {
        return Ok(Onward::Ends);
    }
    err_to(alloc, view, error, descriptor, path.0.sender, &path.0)
}

/// What becomes of a descriptor of a ResvErr that came over a link, or through a stack of labels.
fn err_by<V: WholeState>(
    alloc: Global,
    view: &V,
    over: Option<u16>,
    error: &ResvErr,
    descriptor: &ErrorDescriptor,
) -> Result<Onward, AllocError>
    requires held { AreHeld (V.router view.now) (V.state view.now) }
    requires room { HaveRoom (descriptor.now ∷ []) }
    ensures told { IfOk result (λ told. told_of told ≡ err_by (V.router view.now)
        (V.state view.now) over error.now descriptor.now) }
    ensures memory { OnErr result (is_some (err_by (V.router view.now)
        (V.state view.now) over error.now descriptor.now) ≡ true) }
{
    match over {
        Some(link) => err_onward(alloc, view, link, error, descriptor),
        None => stack_err_onward(alloc, view, error, descriptor),
    }
}

/// What goes on of the descriptors of a ResvErr, of each that matches something here.
fn errs_onward<V: WholeState>(
    alloc: Global,
    view: &V,
    over: Option<u16>,
    error: &ResvErr,
) -> Result<Vec<Option<Output>>, AllocError>
    requires held { AreHeld (V.router view.now) (V.state view.now) }
    requires message { IsMessage (contents.ResvErr error.now) }
    ensures told { IfOk result (λ told. map option_to_list told.items ≡ filter_map (err_by (V.router view.now)
        (V.state view.now) over error.now) error.now.descriptors) }
    ensures memory { OnErr result (list_any (λ d. is_some (err_by (V.router view.now)
        (V.state view.now) over error.now d)) error.now.descriptors ≡ true) }
{
    resv_err_leaves_room(error);
    let mut onward = Vec::new(alloc);
    for descriptor in error.descriptors.as_slice() {
        match err_by(alloc, view, over, error, descriptor)? {
            Onward::NoMatch => {}
            Onward::Ends => onward.push(None)?,
            Onward::GoesOn(output) => onward.push(Some(output))?,
        }
    }
    Ok(onward)
}

/// Those of the messages that go on.
fn outputs_of(alloc: Global, told: Vec<Option<Output>>) -> Result<Outputs, AllocError>
    ensures { IfOk result (λ outputs. outputs ≡ flat_map option_to_list told.items) }
{
    let mut outputs = Outputs::new(alloc);
    for one in told {
        if let Some(output) = one {
            outputs.push(output)?;
        }
    }
    Ok(outputs)
}

/// What a ResvErr does that came over a link, or through a stack of labels, descriptor by descriptor.
fn passed_on<V: WholeState>(
    alloc: Global,
    view: &V,
    over: Option<u16>,
    error: &ResvErr,
) -> Result<Draft, AllocError>
    requires held { AreHeld (V.router view.now) (V.state view.now) }
    requires message { IsMessage (contents.ResvErr error.now) }
    ensures draft { IfOk result (λ draft. IsDraft draft
        (passed_on (V.router view.now) (V.state view.now) over error.now)
        (V.router view.now) (V.state view.now)) }
    ensures memory { OnErr result ((passed_on (V.router view.now)
        (V.state view.now) over error.now).is_silent ≡ false) }
{
    let onward = errs_onward(alloc, view, over, error)?;
    if onward.is_empty() {
        return Ok(refused(alloc, view, Refusal::NoMatch));
    }
    Ok(Draft {
        reply: Reply::Done,
        errors: outputs_of(alloc, onward)?,
        due: None,
        is_silent: false,
        edits: Edits::none(alloc),
    })
}

/// What a ResvErr does that came over a link. The only error is out of memory, and it comes for none that is refused.
#[tactic(auto, unfolding(abstract_router::specs::Tearing::resv_err_arrival, crate::specs::Onward::passed_on))]
pub(crate) fn resv_err_arrival<V: WholeState>(
    alloc: Global,
    view: &V,
    link: u16,
    error: &ResvErr,
) -> Result<Draft, AllocError>
    requires held { AreHeld (V.router view.now) (V.state view.now) }
    requires message { IsMessage (contents.ResvErr error.now) }
    ensures draft { IfOk result (λ draft. IsDraft draft
        (resv_err_arrival (V.router view.now) (V.state view.now) link error.now)
        (V.router view.now) (V.state view.now)) }
    ensures memory { OnErr result ((resv_err_arrival (V.router view.now)
        (V.state view.now) link error.now).is_silent ≡ false) }
{
    passed_on(alloc, view, Some(link), error)
}

/// What a ResvErr does that came through a stack of labels. The only error is out of memory, and it comes for none that
/// is refused.
#[tactic(auto, unfolding(abstract_router::specs::Tearing::stack_err_arrival, crate::specs::Onward::passed_on))]
pub(crate) fn stack_err_arrival<V: WholeState>(
    alloc: Global,
    view: &V,
    error: &ResvErr,
) -> Result<Draft, AllocError>
    requires held { AreHeld (V.router view.now) (V.state view.now) }
    requires message { IsMessage (contents.ResvErr error.now) }
    ensures draft { IfOk result (λ draft. IsDraft draft
        (stack_err_arrival (V.router view.now) (V.state view.now) error.now)
        (V.router view.now) (V.state view.now)) }
    ensures memory { OnErr result ((stack_err_arrival (V.router view.now)
        (V.state view.now) error.now).is_silent ≡ false) }
{
    passed_on(alloc, view, None, error)
}
