//! The errors of paths, and whom they are told upstream (RFC 2205, 3.1.7).

ghost use Rattle.std.specs.Prelude.{◌≡◌, IfOk};
ghost use Rattle.explicit_routes.specs.Below.paths.MessageLaws.{LeavesRoom};
ghost use Rattle.explicit_routes.specs.Below.paths.Outcomes.{path_err, told_to, told_upstream};
ghost use Rattle.explicit_routes.specs.Below.paths.Places.{place_at};

use crate::messages::sent_back;
use abstract_paths::{Output, Outputs};
use lsr_facts::{Key, Node, Origin, PathFact};
use rsvp_bodies::Tspec;
use rsvp_contents::{Content, Message, PathErr};
use rsvp_objects::{ErrorSpec, Session, Template};
use std::alloc::{AllocError, Global};
use std::net::Ipv4Addr;

/// A PathErr. It asks for a Tspec, if any, that leaves room for the rest of the message. The only error is out of memory.
pub fn path_err(
    alloc: Global,
    session: Session,
    sender: Template,
    tspec: Option<Tspec>,
    error: ErrorSpec,
) -> Result<Message, AllocError>
    requires { LeavesRoom tspec }
    ensures { IfOk result (λ message. message ≡ path_err session sender tspec error) }
{
    let content = Content::PathErr(PathErr {
        session,
        error,
        sender,
        tspec,
    });
    Ok(Message::checked(Box::new(alloc, content)?).unwrap())
}

/// An error of a path, told to one of its origins, under the sender that the origin's Paths name; nothing where no way
/// leads there.
fn told_to(
    alloc: Global,
    node: &Node,
    key: &Key,
    tspec: &Option<Tspec>,
    error: ErrorSpec,
    origin: &(Ipv4Addr, Origin),
) -> Result<Option<Output>, AllocError>
    requires { LeavesRoom tspec.now }
    ensures { IfOk result (λ told. told ≡ told_to (place_at node.now) key.now tspec.now error origin.now) }
{
    let sender = Template {
        sender: origin.0,
        lsp: key.sender.lsp,
    };
    let message = path_err(alloc, key.session, sender, tspec.clone()?, error)?;
    Ok(sent_back(node, origin.1.via, origin.1.hop.address, message))
}

/// An error of a path, told to each of its origins (RFC 2205, 3.1.7): to a neighbour over its link, to the head of a
/// bypass by the way that leads there, if one does. It asks for a Tspec, if any, that leaves room for
/// the rest of the message. The only error is out of memory.
pub fn told_upstream(
    alloc: Global,
    node: &Node,
    key: &Key,
    fact: &PathFact,
    tspec: &Option<Tspec>,
    error: ErrorSpec,
) -> Result<Outputs, AllocError>
    requires { LeavesRoom tspec.now }
    ensures { IfOk result (λ told. told ≡ told_upstream (place_at node.now) key.now fact.now tspec.now error) }
{
    let mut told = Outputs::new(alloc);
    for origin in fact.origins.as_slice() {
        if let Some(output) = told_to(alloc, node, key, tspec, error, origin)? {
            told.push(output)?;
        }
    }
    Ok(told)
}
