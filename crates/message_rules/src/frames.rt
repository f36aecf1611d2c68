//! Frames that end what others set up, and whether frames are the same.

ghost use Rattle.std.specs.Prelude.{◌≡◌, IfOk, Some, map};
ghost use Rattle.rsvp_contents.specs.Spelling.{IsMessage};
ghost use Rattle.rsvp_contents.specs.declared.messages.Content.TheVariants as contents;
ghost use Rattle.explicit_routes.specs.Below.paths.Outputs.{is_same_frame, tear_by, tear_of};

use crate::messages::sent_by;
use abstract_paths::{Frame, Output, Payload};
use rsvp_contents::{Content, Filters, FlowDescriptor, Message, Path, PathTear, Resv, ResvTear};
use rsvp_messages::frame_bytes;
use std::alloc::{AllocError, Global};

/// The LSPs that flow descriptors name.
fn filters_of(alloc: Global, descriptors: &[FlowDescriptor]) -> Result<Filters, AllocError>
    ensures { IfOk result (λ filters. filters ≡ map (λ d. d.filter) descriptors.now) }
{
    let mut filters = Filters::new(alloc);
    for descriptor in descriptors {
        filters.push(descriptor.filter)?;
    }
    Ok(filters)
}

/// The message that ends what a Path set up. The only error is out of memory.
fn path_tear_of(alloc: Global, path: &Path) -> Result<Message, AllocError>
    ensures { IfOk result (λ tear. Some tear ≡ tear_of (contents.Path path.now)) }
{
    let tear = Content::PathTear(PathTear {
        session: path.session,
        hop: path.hop,
        sender: path.sender,
    });
    Ok(Message::checked(Box::new(alloc, tear)?).unwrap())
}

/// The message that ends what a Resv set up; none, where it names no LSP. It asks that the Resv is a message: then the
/// tear, which says less, fits one.
fn resv_tear_of(alloc: Global, resv: &Resv) -> Result<Option<Message>, AllocError>
    requires { IsMessage (contents.Resv resv.now) }
    ensures { IfOk result (λ tear. tear ≡ tear_of (contents.Resv resv.now)) }
{
    let descriptors = resv.descriptors.as_slice();
    if descriptors.is_empty() {
        return Ok(None);
    }
    let filters = filters_of(alloc, descriptors)?;
    let tear = Content::ResvTear(ResvTear {
        session: resv.session,
        hop: resv.hop,
        style: resv.style,
        filters,
    });
    Ok(Some(Message::checked(Box::new(alloc, tear)?).unwrap()))
}

/// The message that ends what a message set up.
fn tear_of(alloc: Global, message: &Message) -> Result<Option<Message>, AllocError>
    ensures { IfOk result (λ tear. tear ≡ tear_of message.now) }
{
    match message.content() {
        Content::Path(path) => Ok(Some(path_tear_of(alloc, path)?)),
        Content::Resv(resv) => resv_tear_of(alloc, resv),
        _ => Ok(None),
    }
}

/// The tear of what was sent: it goes the same way, over the same link. What others sent has none. The only error is out of memory.
pub fn tear_by(alloc: Global, was: &Output) -> Result<Option<Output>, AllocError>
    ensures { IfOk result (λ tear. tear ≡ tear_by was.now.link was.now.frame) }
{
    match &was.frame {
        Frame::Hop(message) => match tear_of(alloc, message)? {
            Some(tear) => Ok(Some(sent_by(was.link, tear))),
            None => Ok(None),
        },
        Frame::Labelled(stack, Payload::Message(message)) => match tear_of(alloc, message)? {
            Some(tear) => Ok(Some(Output {
                link: was.link,
                frame: Frame::Labelled(stack.copied(), Payload::Message(tear)),
            })),
            None => Ok(None),
        },
        Frame::Routed { to, limit, message } => match tear_of(alloc, message)? {
            Some(tear) => Ok(Some(Output {
                link: was.link,
                frame: Frame::Routed {
                    to: *to,
                    limit: *limit,
                    message: tear,
                },
            })),
            None => Ok(None),
        },
        _ => Ok(None),
    }
}

/// Whether the frames are the same, byte for byte.
pub(crate) fn is_same_frame(alloc: Global, a: &Frame, b: &Frame) -> Result<bool, AllocError>
    ensures { IfOk result (λ same. same ≡ is_same_frame a.now b.now) }
{
    let first = frame_bytes(alloc, a)?;
    let second = frame_bytes(alloc, b)?;
    Ok(first == second)
}
