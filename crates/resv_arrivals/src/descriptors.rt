//! What a flow descriptor of a Resv asks for (RFC 2205, 3.1.4).

ghost use Rattle.std.specs.Prelude.{◌≡◌, ◌^◌, ◌≤◌, IfOk};
ghost use Rattle.abstract_router.specs.Reserving.{key_in, named, resv_by};

use lsr_facts::{Key, ResvFact, ResvStyle};
use message_rules::{lifetime, lsp};
use rsvp_contents::{ErrorDescriptor, FlowDescriptor, Resv};
use std::alloc::AllocError;

/// The LSP that a flow descriptor is for.
pub fn key_in(resv: &Resv, descriptor: &FlowDescriptor) -> Key
    ensures { result ≡ key_in resv.now descriptor.now }
{
    lsp(resv.session, descriptor.filter)
}

/// A flow descriptor as an error names it. The only error is out of memory.
pub fn named(descriptor: &FlowDescriptor) -> Result<ErrorDescriptor, AllocError>
    ensures { IfOk result (λ error. error ≡ named descriptor.now) }
{
    Ok(ErrorDescriptor {
        flowspec: Some(descriptor.flowspec.clone()?),
        filter: descriptor.filter,
    })
}

/// The reservation that a flow descriptor asks for which comes at a moment, in milliseconds. It asks for a moment of at
/// most 2^62. The only error is out of memory.
pub fn resv_by(
    moment: u64,
    link: u16,
    style: ResvStyle,
    resv: &Resv,
    descriptor: &FlowDescriptor,
) -> Result<ResvFact, AllocError>
    requires { moment ≤ 2 ^ 62 }
    ensures { IfOk result (λ fact. fact ≡ resv_by moment link style resv.now descriptor.now) }
{
    Ok(ResvFact {
        link,
        style,
        flowspec: descriptor.flowspec.clone()?,
        label: descriptor.label.number,
        recorded: descriptor.recorded.clone()?,
        passing: resv.passing.clone()?,
        expiry: moment + lifetime(resv.time.refresh_ms),
    })
}
