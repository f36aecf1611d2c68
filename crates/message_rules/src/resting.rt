//! Whether what is wanted rests: it was sent before, and isn't due (RFC 2205, 3.7).

ghost use Rattle.std.specs.Option.{option_copied, option_map_or};
ghost use Rattle.std.specs.Prelude.{◌≡◌, ◌&&◌, IfOk, false, not};
ghost use Rattle.explicit_routes.specs.Below.paths.Outputs.{is_same_frame};

use crate::frames::is_same_frame;
use abstract_paths::Output;
use std::alloc::{AllocError, Global};

/// Whether it is the frame that was sent before, if one was.
fn is_known_frame(alloc: Global, was: Option<&Output>, wants: &Output) -> Result<bool, AllocError>
    ensures { IfOk result (λ same. same ≡ option_map_or (λ o. is_same_frame wants.now.frame o.frame) (option_copied was.entry) false) }
{
    match was {
        Some(was) => is_same_frame(alloc, &wants.frame, &was.frame),
        None => Ok(false),
    }
}

/// Whether an item rests: it isn't due, and was wanted before with the same frame. The only error is out of memory.
pub fn rests(
    alloc: Global,
    is_due: bool,
    was: Option<&Output>,
    wants: &Output,
) -> Result<bool, AllocError>
    ensures { IfOk result (λ so. so ≡ (not is_due && option_map_or (λ o. is_same_frame wants.now.frame o.frame) (option_copied was.entry) false)) }
{
    if is_due {
        return Ok(false);
    }
    is_known_frame(alloc, was, wants)
}
