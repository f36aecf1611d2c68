ghost use Rattle.std.specs.Prelude.{◌≡◌, ◌≤◌, ◌<◌, ◌∷◌, ◌++◌, [], ℕ, All, IfSome, Option, length};
ghost use Rattle.arrayvec.specs.ArrayVec.{array_vec_len};
ghost use Rattle.label_stacks.specs.Entries.{IsEntry};
ghost use Rattle.forwarding_table.specs.Actions.{WritesLabels};
ghost use Rattle.forwarding_table.specs.Labels.{IsLabel};
ghost use Rattle.forwarding_table.specs.Forwarding.{action_at, forward_of, passed_on, written_for};
ghost use Rattle.forwarding_table.specs.declared.action.Action.{Action};

use crate::action::{Action, EXPLICIT_NULL, IMPLICIT_NULL};
use arrayvec::ArrayVec;
use label_stacks::{Stack, StackEntry};

/// Why a stack of labels is dropped.
#[derive(Clone, Copy, Debug, PartialEq, Eq)]
pub enum Fault {
    /// The table has no action for the label (RFC 3031, 3.18).
    NoLabel,
    /// No further router may pass it on: the TTL ran out (RFC 3032, 2.4.1).
    HopLimit,
    /// It would have more than eight entries.
    TooLong,
}

/// What becomes of a stack of labels.
#[derive(Debug, Drop)]
pub enum Forwarding {
    /// The stack ended, so what it carries is for this router.
    Deliver,
    /// It goes on.
    Send {
        /// The number of the link that it leaves by.
        link: u16,
        /// The stack as it leaves. It is empty where the next router asked for no entry.
        stack: Stack,
    },
    /// It is dropped.
    Drop(Fault),
}

/// Entries of a stack that is made.
type Entries = ArrayVec<StackEntry, { Stack::MAX_LEN }>;

/// Writes an entry with this label in place of the last one that was looked at. Implicit null isn't written.
fn write_label(entries: &mut Entries, label: u32, last: &StackEntry)
    requires hops { 1 ≤ last.now.ttl }
    requires room { array_vec_len entries.old < 8 }
    ensures { entries.new.items ≡ entries.old.items ++ written_for last.now label }
{
    if label != IMPLICIT_NULL {
        entries.push(StackEntry {
            label,
            class: last.class,
            ttl: last.ttl - 1,
        });
    }
}

/// Sends a stack over a link with these labels, the first of them on top, in place of the last entry that was looked
/// at, and with the entries below it as they came.
fn pass_on(labels: &[u32], link: u16, last: &StackEntry, below: &[StackEntry]) -> Forwarding
    requires few { length labels.now ≤ 2 }
    requires labels { All IsLabel labels.now }
    requires last { IsEntry last.now }
    requires below { All IsEntry below.now }
    ensures { result ≡ passed_on labels.now link last.now below.now }
{
    if last.ttl <= 1 {
        return Forwarding::Drop(Fault::HopLimit);
    }
    let mut entries: Entries = ArrayVec::new();
    for label in labels {
        write_label(&mut entries, *label, last);
    }
    match entries.try_extend_from_slice(below) {
        Ok(()) => Forwarding::Send {
            link,
            stack: Stack::new(entries),
        },
        Err(_) => Forwarding::Drop(Fault::TooLong),
    }
}

/// Whatever says what is done with labels (RFC 3031, 3.10 and 3.11).
pub trait LabelActions {
    ghost look: { Self → ℕ → Option Action };

    /// What is done with a label, or `None` where nothing is. What the action writes for labels are labels.
    fn action_of(&self, label: u32) -> Option<Action>
        ensures found { result ≡ look self.now label }
        ensures labels { IfSome result WritesLabels };
}

/// The action of an entry: explicit null is popped, and any other label is looked up.
fn action_at<L: LabelActions>(labels: &L, entry: &StackEntry) -> Option<Action>
    ensures action { result ≡ action_at (L.look labels.now) entry.now }
    ensures labels { IfSome result WritesLabels }
{
    if entry.label == EXPLICIT_NULL {
        Some(Action::Pop)
    } else {
        labels.action_of(entry.label)
    }
}

/// What becomes of a stack of labels by what is done with each (RFC 3031, 3.13; RFC 3032, 2.1 and 2.4.1). It is dropped
/// for the first of its faults in the order of [`Fault`]. Takes no memory.
pub fn forward<L: LabelActions>(labels: &L, stack: &Stack) -> Forwarding
    ensures { result ≡ forward_of (L.look labels.now) stack.now }
{
    let mut rest = stack.as_slice();
    while let [last, below @ ..] = rest {
        match action_at(labels, last) {
            Some(Action::Pop) => rest = below,
            Some(Action::Swap { label, link }) => return pass_on(&[label], link, last, below),
            Some(Action::SwapPush { inner, outer, link }) => {
                return pass_on(&[outer, inner], link, last, below);
            }
            Some(Action::PushHead { .. }) | None => return Forwarding::Drop(Fault::NoLabel),
        }
    }
    Forwarding::Deliver
}
