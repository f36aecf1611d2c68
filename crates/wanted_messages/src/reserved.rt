//! What is said of an LSP to the origins of its Paths, where it is reserved or repaired.

ghost use Rattle.std.specs.Option.{option_map, unwrap_or};
ghost use Rattle.std.specs.Prelude.{◌≡◌, [], IfOk, length};
ghost use Rattle.abstract_router.specs.Lsps.{around_of, lsp_of};
ghost use Rattle.abstract_router.specs.Upstreams.{records_labels, reserved_by_end, reserved_by_next, reserved_for, wants_sharing};
ghost use Rattle.wanted_messages.specs.Telling.{said};

use facility_backup::{held_of, own_flags};
use lsr_facts::{Key, PathFact, ResvFact, ResvStyle};
use message_rules::goes_on;
use rsvp_bodies::{Flowspec, Record};
use rsvp_contents::Passing;
use rsvp_objects::Attr;
use state_views::StateView;
use std::alloc::{AllocError, Global};

/// The flag by which a Path asks for its labels to be recorded (RFC 3209, 4.7.1).
const LABEL_RECORDING: u8 = 0x02;
/// The flag by which a Path asks for a reservation that its session shares (RFC 3209, 4.7.1).
const SHARED_STYLE: u8 = 0x04;

/// The flags of an LSP that ends here: there is nothing to protect (RFC 4090, 4.4).
const UNPROTECTED: u8 = 0;

/// What a Resv says of an LSP.
#[derive(Debug, Drop)]
pub(crate) struct Reserved {
    /// How it is reserved.
    pub style: ResvStyle,
    /// The traffic that is reserved for.
    pub flowspec: Flowspec,
    /// How this router protects the LSP (RFC 4090, 4.4).
    pub flags: u8,
    /// The route that the Resv took so far.
    pub recorded: Record,
    /// What it passes on.
    pub passing: Passing,
}

/// Whether the Path asks for its labels to be recorded.
#[tactic(auto, using(crate::proofs::Flags::recording_flag))]
pub(crate) fn records_labels(attr: &Option<Attr>) -> bool
    ensures { result ≡ records_labels attr.now }
{
    match attr {
        Some(attr) => attr.flags & LABEL_RECORDING != 0,
        None => false,
    }
}

/// Whether the Path asks for a reservation that its session shares.
#[tactic(auto, using(crate::proofs::Flags::sharing_flag))]
fn wants_sharing(attr: &Option<Attr>) -> bool
    ensures { result ≡ wants_sharing attr.now }
{
    match attr {
        Some(attr) => attr.flags & SHARED_STYLE != 0,
        None => false,
    }
}

/// What the router itself reserves of an LSP that ends here: in the style that its Path asks for, for its traffic, which
/// is a whole token bucket. The only error is out of memory.
fn reserved_by_end(alloc: Global, path: &PathFact) -> Result<Reserved, AllocError>
    requires { length path.now.tspec ≡ 32 }
    ensures { IfOk result (λ a. said a ≡ reserved_by_end path.now) }
{
    let style = if wants_sharing(&path.attr) {
        ResvStyle::SharedExplicit
    } else {
        ResvStyle::FixedFilter
    };
    Ok(Reserved {
        style,
        flowspec: Flowspec::of_tspec(alloc, &path.tspec)?,
        flags: UNPROTECTED,
        recorded: Record::new(alloc),
        passing: Passing::new(alloc),
    })
}

/// The route that a Resv took so far, which is empty where none is recorded. The only error is out of memory.
fn record_so_far(alloc: Global, recorded: &Option<Record>) -> Result<Record, AllocError>
    ensures { IfOk result (λ entries. entries ≡ unwrap_or recorded.now []) }
{
    match recorded {
        Some(entries) => entries.clone(),
        None => Ok(Record::new(alloc)),
    }
}

/// What the next hop reserved, as it is passed on with these flags. The only error is out of memory.
fn reserved_by_next(alloc: Global, flags: u8, resv: &ResvFact) -> Result<Reserved, AllocError>
    ensures { IfOk result (λ a. said a ≡ reserved_by_next flags resv.now) }
{
    Ok(Reserved {
        style: resv.style,
        flowspec: resv.flowspec.clone()?,
        flags,
        recorded: record_so_far(alloc, &resv.recorded)?,
        passing: resv.passing.clone()?,
    })
}

/// What is said of an LSP, if it is reserved or repaired. Its path's Tspec is a whole token bucket. The only error is out of
/// memory.
pub(crate) fn reserved_for<V: StateView>(
    alloc: Global,
    view: &V,
    key: &Key,
    path: &PathFact,
) -> Result<Option<Reserved>, AllocError>
    requires { length path.now.tspec ≡ 32 }
    ensures { IfOk result (λ a. option_map said a ≡ reserved_for (around_of (V.router view.now) (V.state view.now))
        (key.now, lsp_of (V.state view.now) key.now path.now)) }
{
    if !goes_on(path.role) {
        return Ok(Some(reserved_by_end(alloc, path)?));
    }
    match held_of(view, key) {
        Some(resv) => {
            let flags = own_flags(view, key, path);
            Ok(Some(reserved_by_next(alloc, flags, resv)?))
        }
        None => Ok(None),
    }
}
