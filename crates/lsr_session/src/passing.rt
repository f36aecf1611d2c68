//! What is printed of labelled frames.
ghost use Rattle.std.specs.Prelude.{◌≡◌, IfOk, string_bytes};
ghost use Rattle.lsr_session.specs.Requests.{passed_text};

use lsr_text::{push_delivery, push_sent};
use router_core::Passed;
use std::alloc::{AllocError, Global};

/// The line of what became of a labelled frame. The only error is that memory ran out.
pub fn passed_text(alloc: Global, passed: &Passed) -> Result<String, AllocError>
    ensures { IfOk result (λ text. string_bytes text ≡ passed_text passed.now) }
{
    let mut text = String::new(alloc);
    match passed {
        Passed::Sent { link, frame } => push_sent(alloc, &mut text, *link, frame)?,
        Passed::Delivered(payload) => push_delivery(alloc, &mut text, payload)?,
    }
    Ok(text)
}
