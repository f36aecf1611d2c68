//! The labels that are free beside those that plain rows hold and those that rest.

ghost use Rattle.std.specs.List.{find};
ghost use Rattle.std.specs.Prelude.{◌≡◌};
ghost use Rattle.label_space.specs.FreeLabels.{is_free, is_held, labels_in};

use lsr_facts::{Key, LabelRange};
use sorted_rows::Table;

/// Whether an LSP holds a label.
fn is_held(labels: &[(Key, u32)], label: u32) -> bool
    ensures { result ≡ is_held labels.now label }
{
    labels.iter().any(|held| held.1 == label)
}

/// Whether no LSP holds a label, and it doesn't rest.
fn is_free(labels: &[(Key, u32)], resting: &Table<u32, u64>, label: u32) -> bool
    ensures { result ≡ is_free labels.now resting.now label }
{
    !is_held(labels, label) && !resting.contains_key(&label)
}

/// The first label of a range that no LSP holds and that doesn't rest, or `None` where there is none. It looks at one label more
/// than are held or rest, at most.
pub(crate) fn first_free(
    range: LabelRange,
    labels: &[(Key, u32)],
    resting: &Table<u32, u64>,
) -> Option<u32>
    ensures { result ≡ find (is_free labels.now resting.now) (labels_in range) }
{
    for label in range.first..=range.last {
        if is_free(labels, resting, label) {
            return Some(label);
        }
    }
    None
}
