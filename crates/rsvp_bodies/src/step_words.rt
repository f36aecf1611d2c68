ghost use Rattle.rsvp_bodies.specs.Finding.{Finds};
ghost use Rattle.rsvp_bodies.specs.RouteWords.{IsStepText};

use crate::Step;
use crate::prefix_words::read_prefix;

/// What stands before a step that is loose.
const LOOSE: char = '~';

/// The step that the text writes: a prefix, as `10.0.0.5/32`, to a node of which it leads over no other node, or with `~`
/// before it over any (RFC 3209, 4.3.3.1).
pub fn read_step(text: &str) -> Option<Step>
    ensures { Finds (IsStepText text.now) result }
{
    let (loose, written) = match text.strip_prefix(LOOSE) {
        Some(written) => (true, written),
        None => (false, text),
    };
    let prefix = read_prefix(written)?;
    Some(Step::Ipv4 { loose, prefix })
}
