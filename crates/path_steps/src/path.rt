//! What a Path does (RFC 2205, 3.1.3 and 3.7; RFC 3209, 4.3 and 4.4).

ghost use Rattle.std.specs.FinMap.Entries.{put};
ghost use Rattle.std.specs.Option.{option_copied};
ghost use Rattle.std.specs.Prelude.{◌≡◌, ◌≤◌, ◌^◌, ◌&&◌, ◌∷◌, [], IfOk, IsTrue, Ok, OnErr, false, is_none, is_some, length, nat_le, not};
ghost use Rattle.lsr_facts.specs.Limits.{max_lsps};
ghost use Rattle.lsr_facts.specs.Orders.{address_cmp};
ghost use Rattle.rsvp_contents.specs.Spelling.{IsMessage};
ghost use Rattle.rsvp_contents.specs.declared.messages.Content.TheVariants as contents;
ghost use Rattle.rsvp_bodies.specs.TokenBuckets.{token_rate};
ghost use Rattle.abstract_paths.specs.Paths.{failed, origin_of, origins_of, path_by, path_on_its_way, taken, unknown_object, way_for};
ghost use Rattle.abstract_paths.specs.Places.{place_of};
ghost use Rattle.abstract_router.specs.Arrivals.{labelled_path_arrival};
ghost use Rattle.abstract_router.specs.Labels.{has_free_label};
ghost use Rattle.abstract_router.specs.Outcomes.{of_paths};
ghost use Rattle.state_views.specs.Drafts.{IsDraft};
ghost use Rattle.state_views.specs.Edits.{unedited};
ghost use Rattle.path_steps.specs.Labelled.{labelled};

use crate::heads::is_head;
use crate::told::{failed, record_errors};
use lsr_facts::limits::MAX_LSPS;
use lsr_facts::{Choice, Key, Origin, PathFact, Refusal, Reply, RsvpError, Via};
use message_rules::{
    RouteFault, carries_ipv4, has_been_here, has_no_rate, lifetime, link_of, lsp, origins_of,
    rest_of, role_of, unknown_object, way_for,
};
use rsvp_contents::Path;
use sorted_rows::Table;
use state_views::{Draft, Edits, StateView, WholeState, node_of, refused};
use std::alloc::{AllocError, Global};
use std::net::Ipv4Addr;

/// A Path that came over a link.
#[derive(Clone, Copy, Debug)]
struct ArrivedPath<'a> {
    /// The path that its LSP has, if one is known.
    known: Option<&'a PathFact>,
    /// The number of the link.
    link: u16,
    /// The Path.
    path: &'a Path,
}

/// The origin that a Path gives its path which comes at a moment, in milliseconds: the neighbour that sent it, and
/// until when that counts.
fn origin_of(moment: u64, link: u16, path: &Path) -> Origin
    requires { moment ≤ 2 ^ 62 }
    ensures { result ≡ origin_of moment link path.now }
{
    Origin {
        via: Via::Link(link),
        hop: path.hop,
        expiry: moment + lifetime(path.time.refresh_ms),
    }
}

/// The origins of a path with that of a Path put among them.
fn origins_by(
    alloc: Global,
    moment: u64,
    arrived: &ArrivedPath,
) -> Result<Table<Ipv4Addr, Origin>, AllocError>
    requires { moment ≤ 2 ^ 62 }
    ensures { IfOk result (λ origins. origins ≡ put address_cmp arrived.now.path.now.sender.sender
        (origin_of moment arrived.now.link arrived.now.path.now) (origins_of (option_copied arrived.now.known))) }
{
    let mut origins = origins_of(alloc, arrived.known)?;
    let origin = origin_of(moment, arrived.link, arrived.path);
    origins.set(arrived.path.sender.sender, origin)?;
    Ok(origins)
}

/// The path that a Path makes or renews.
fn path_by(
    alloc: Global,
    moment: u64,
    arrived: &ArrivedPath,
    way: Choice,
) -> Result<PathFact, AllocError>
    requires { moment ≤ 2 ^ 62 }
    ensures { IfOk result (λ fact. fact
        ≡ path_by moment (option_copied arrived.now.known) arrived.now.link arrived.now.path.now way) }
{
    let path = arrived.path;
    Ok(PathFact {
        role: role_of(&way),
        origins: origins_by(alloc, moment, arrived)?,
        out_link: link_of(&way),
        given: path.route.clone()?,
        rest: rest_of(way),
        recorded: path.recorded.clone()?,
        label_request: path.label_request,
        tspec: path.tspec.clone()?,
        attr: path.attr.clone()?,
        fast_reroute: path.fast_reroute,
        passing: path.passing.clone()?,
    })
}

/// This is known of one LSP's path from now on, or nothing. The only error is out of memory.
pub(crate) fn path_edit(alloc: Global, key: Key, now: Option<PathFact>) -> Result<Edits, AllocError>
    ensures { IfOk result (λ edits. edits ≡ record unedited { paths = (key, now) ∷ [] }) }
{
    let mut rows = Vec::with_capacity(alloc, 1)?;
    rows.push((key, now))?;
    let mut edits = Edits::none(alloc);
    edits.paths = Table::from_rows(rows);
    Ok(edits)
}

/// A Path that is taken.
fn taken<V: StateView>(
    alloc: Global,
    view: &V,
    arrived: &ArrivedPath,
    way: Choice,
) -> Result<Draft, AllocError>
    requires moment { (V.state view.now).facts.moment ≤ 2 ^ 62 }
    requires rate { IsTrue (is_some (token_rate 1 arrived.now.path.now.tspec)) }
    ensures { IfOk result (λ draft. IsDraft draft (of_paths (V.state view.now)
        (taken (V.router view.now) (V.state view.now).facts (option_copied arrived.now.known) arrived.now.link
        arrived.now.path.now way)) (V.router view.now) (V.state view.now)) }
{
    let key = lsp(arrived.path.session, arrived.path.sender);
    let fact = path_by(alloc, view.moment(), arrived, way)?;
    let errors = record_errors(alloc, &node_of(view), &key, arrived.known, &fact)?;
    Ok(Draft {
        reply: Reply::Done,
        errors,
        due: None,
        is_silent: false,
        edits: path_edit(alloc, key, Some(fact))?,
    })
}

/// Whether the path is new, and there is no room for another.
fn is_full<V: WholeState>(view: &V, known: Option<&PathFact>) -> bool
    ensures { result ≡ (is_none (option_copied known.entry)
        && nat_le max_lsps (length (V.state view.now).facts.paths)) }
{
    match known {
        Some(_) => false,
        None => view.path_count() >= MAX_LSPS,
    }
}

/// Whether the path is new, and no label is free for it.
fn lacks_label<V: WholeState>(view: &V, known: Option<&PathFact>) -> bool
    ensures { result ≡ (is_none (option_copied known.entry)
        && not (has_free_label (V.router view.now) (V.state view.now).labels (V.state view.now).resting)) }
{
    match known {
        Some(_) => false,
        None => view.free_label().is_none(),
    }
}

/// A Path whose way is known: it is taken, if there is room for its LSP, and a label (RFC 3209, 4.2.4 and 7.3).
#[tactic(auto, unfolding(abstract_paths::specs::Paths::path_on_its_way))]
fn path_with_way<V: WholeState>(
    alloc: Global,
    view: &V,
    arrived: &ArrivedPath,
    way: Choice,
) -> Result<Draft, AllocError>
    requires moment { (V.state view.now).facts.moment ≤ 2 ^ 62 }
    requires message { IsMessage (contents.Path arrived.now.path.now) }
    requires rate { IsTrue (is_some (token_rate 1 arrived.now.path.now.tspec)) }
    ensures { let known = option_copied arrived.now.known in
        IfOk result (λ draft. IsDraft draft
        (labelled (V.router view.now) (V.state view.now) known arrived.now.link arrived.now.path.now
        (path_on_its_way (V.router view.now) (V.state view.now).facts known arrived.now.link arrived.now.path.now
        (Ok way))) (V.router view.now) (V.state view.now)) }
{
    if is_full(view, arrived.known) {
        return failed(
            alloc,
            view,
            arrived.link,
            arrived.path,
            RsvpError::SYSTEM_ERROR,
        );
    }
    if lacks_label(view, arrived.known) {
        return failed(alloc, view, arrived.link, arrived.path, RsvpError::NO_LABEL);
    }
    taken(alloc, view, arrived, way)
}

/// A Path that nothing is wrong with: its way is asked for.
fn path_on_its_way<V: WholeState>(
    alloc: Global,
    view: &V,
    arrived: &ArrivedPath,
) -> Result<Draft, AllocError>
    requires moment { (V.state view.now).facts.moment ≤ 2 ^ 62 }
    requires message { IsMessage (contents.Path arrived.now.path.now) }
    requires rate { IsTrue (is_some (token_rate 1 arrived.now.path.now.tspec)) }
    ensures { let known = option_copied arrived.now.known in
        IfOk result (λ draft. IsDraft draft
        (labelled (V.router view.now) (V.state view.now) known arrived.now.link arrived.now.path.now
        (path_on_its_way (V.router view.now) (V.state view.now).facts known arrived.now.link arrived.now.path.now
        (way_for (place_of (V.router view.now) (V.state view.now).facts) known arrived.now.path.now)))
        (V.router view.now) (V.state view.now)) }
{
    match way_for(alloc, &node_of(view), arrived.known, arrived.path) {
        Ok(way) => path_with_way(alloc, view, arrived, way),
        Err(RouteFault::Error(error)) => {
            failed(alloc, view, arrived.link, arrived.path, error.error())
        }
        Err(RouteFault::Memory) => Err(AllocError),
    }
}

/// What a Path does that is read whole: the first of these tests that it fails, and else it is taken. Its LSP doesn't
/// begin here; it is to carry IPv4; its rate is defined; it hasn't been here before; a way leads on; there is room for its
/// LSP; and where that is new, a label is free for it. The only error is out of memory, and it comes for none that is
/// refused.
#[tactic(auto, unfolding(abstract_paths::specs::Paths::path_arrival, abstract_router::specs::Arrivals::labelled_path_arrival))]
pub fn labelled_path_arrival<V: WholeState>(
    alloc: Global,
    view: &V,
    link: u16,
    path: &Path,
) -> Result<Draft, AllocError>
    requires moment { (V.state view.now).facts.moment ≤ 2 ^ 62 }
    requires message { IsMessage (contents.Path path.now) }
    ensures draft { IfOk result (λ draft. IsDraft draft
        (labelled_path_arrival (V.router view.now) (V.state view.now) link path.now)
        (V.router view.now) (V.state view.now)) }
    ensures memory { OnErr result ((labelled_path_arrival (V.router view.now)
        (V.state view.now) link path.now).is_silent ≡ false) }
{
    let key = lsp(path.session, path.sender);
    if is_head(view, &key) {
        return Ok(refused(alloc, view, Refusal::NoMatch));
    }
    if !carries_ipv4(path) {
        return failed(alloc, view, link, path, RsvpError::UNSUPPORTED_L3PID);
    }
    if has_no_rate(&path.tspec) {
        return failed(alloc, view, link, path, RsvpError::BAD_TSPEC);
    }
    if has_been_here(&node_of(view), &path.recorded) {
        return failed(alloc, view, link, path, RsvpError::ROUTING_LOOP);
    }
    let known = view.path(&key);
    path_on_its_way(alloc, view, &ArrivedPath { known, link, path })
}

/// What a Path does with an object that it doesn't know. The only error is out of memory.
pub fn unknown_path_arrival<V: StateView>(
    alloc: Global,
    view: &V,
    link: u16,
    path: &Path,
    class: u8,
    ctype: u8,
) -> Result<Draft, AllocError>
    requires { IsMessage (contents.Path path.now) }
    ensures { IfOk result (λ draft. IsDraft draft (of_paths (V.state view.now)
        (failed (V.router view.now) (V.state view.now).facts link path.now (unknown_object class ctype)))
        (V.router view.now) (V.state view.now)) }
{
    failed(alloc, view, link, path, unknown_object(class, ctype))
}
