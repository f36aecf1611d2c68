//! Parts of a world: its routers, its wires, its frames and labels.

ghost use Rattle.std.specs.Prelude.{◌≡◌, ◌++◌, ◌+◌, ◌≤◌, IfOk, length, map, vec_capacity, vec_len};
ghost use Rattle.std.specs.List.{AllByRecursion};
ghost use Rattle.abstract_world.specs.Worlds.{given_by, sent_by};
ghost use Rattle.router_core.specs.States.{opened};
ghost use Rattle.lab_world.specs.Invariant.{IsSoundRouter};
ghost use Rattle.lab_world.specs.Reads.{is_given, is_same_given};

use abstract_world::{Given, Joint, Sent};
use lsr_config::Config;
use lsr_facts::{Key, is_same_session};
use router_core::{Machine, Outputs};
use std::alloc::{AllocError, Global};

/// A copy of the joints. The only error is out of memory.
pub(crate) fn copy_of(alloc: Global, joints: &[Joint]) -> Result<Vec<Joint>, AllocError>
    ensures { IfOk result (λ copy. copy.items ≡ joints.now) }
{
    let mut copy = Vec::with_capacity(alloc, joints.len())?;
    for joint in joints {
        copy.push_reserved(*joint);
    }
    Ok(copy)
}

/// The routers of the configurations, open and running. The only error is out of memory.
pub(crate) fn open_all(alloc: Global, configs: Vec<Config>) -> Result<Vec<Machine>, AllocError>
    ensures opened { IfOk result (λ routers. routers.items ≡ map opened configs.items) }
    ensures sound { IfOk result (λ routers. AllByRecursion IsSoundRouter routers.items) }
{
    let mut routers = Vec::with_capacity(alloc, configs.len())?;
    for config in configs {
        let machine = Machine::open(alloc, config)?;
        machine.soundness();
        routers.push(machine)?;
    }
    Ok(routers)
}

/// Puts the frames that the router of a place sent behind those before them. It asks for room for them.
pub(crate) fn send_all(frames: &mut Vec<Sent>, router: usize, outputs: Outputs)
    requires { vec_len frames.old + length outputs ≤ vec_capacity frames.old }
    ensures { frames.new.items ≡ frames.old.items ++ map (sent_by router) outputs }
{
    for output in outputs.into_vec() {
        frames.push_reserved(Sent { router, output });
    }
}

/// Puts the labels that the router of a place gave behind those before them. It asks for room for them.
pub(crate) fn give_all(given: &mut Vec<Given>, router: usize, labels: &[(Key, u32)])
    requires { vec_len given.old + length labels.now ≤ vec_capacity given.old }
    ensures { given.new.items ≡ given.old.items ++ map (given_by router) labels.now }
{
    for (key, label) in labels {
        given.push_reserved(Given {
            router,
            session: key.session,
            lsp: key.sender.lsp,
            label: *label,
        });
    }
}

/// Whether they are one: the same label, which the same router gave to the same LSP.
fn is_same_given(one: &Given, other: &Given) -> bool
    ensures { result ≡ is_same_given one.now other.now }
{
    one.router == other.router
        && is_same_session(&one.session, &other.session)
        && one.lsp == other.lsp
        && one.label == other.label
}

/// Whether this label that was given is one of these.
pub(crate) fn is_given(wanted: &Given, given: &[Given]) -> bool
    ensures { result ≡ is_given wanted.now given.now }
{
    given.iter().any(|row| is_same_given(row, wanted))
}
