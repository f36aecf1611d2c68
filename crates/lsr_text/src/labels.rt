//! What `show labels` prints: which labels are held, which rest, and how many are free.
ghost use Rattle.std.specs.Prelude.{◌≡◌, ◌++◌, IfOk, OnOk, flat_map, string_bytes};
ghost use Rattle.lsr_text.specs.Labels.{count_free, free_line, held_line, held_words, holder_words, labels_text, resting_line};

use crate::shown::push_key;
use crate::summary::label_room;
use lsr_facts::{Key, Router, State};
use std::alloc::{AllocError, Global};
use std::fmt::Write;

/// Appends a label that is held.
#[tactic(auto, unfolding(crate::specs::Labels::held_words))]
fn push_held_label(text: &mut String, label: u32) -> Result<(), AllocError>
    ensures { OnOk result (string_bytes text.new ≡ string_bytes text.old ++ held_words label) }
{
    write!(text, "held {label} ")
}

/// Appends the LSP that holds a label, and ends the line.
#[tactic(auto, unfolding(crate::specs::Labels::holder_words))]
fn push_holder(text: &mut String, key: &Key) -> Result<(), AllocError>
    ensures { OnOk result (string_bytes text.new ≡ string_bytes text.old ++ holder_words key.now) }
{
    push_key(text, key)?;
    text.push_str("\n")
}

/// Appends the line of a label that an LSP holds.
fn push_held(text: &mut String, row: &(Key, u32)) -> Result<(), AllocError>
    ensures { OnOk result (string_bytes text.new ≡ string_bytes text.old ++ held_line row.now) }
{
    push_held_label(text, row.1)?;
    push_holder(text, &row.0)
}

/// Appends the lines of the labels that LSPs hold, in the order of the LSPs.
fn push_all_held(text: &mut String, rows: &[(Key, u32)]) -> Result<(), AllocError>
    ensures { OnOk result (string_bytes text.new ≡ string_bytes text.old ++ flat_map held_line rows.now) }
{
    for row in rows {
        push_held(text, row)?;
    }
    Ok(())
}

/// Appends the line of a label that rests, at this moment: until when, and how many milliseconds that is still.
fn push_resting(text: &mut String, moment: u64, row: &(u32, u64)) -> Result<(), AllocError>
    ensures { OnOk result (string_bytes text.new ≡ string_bytes text.old ++ resting_line moment row.now) }
{
    let (label, until) = *row;
    let left = until.saturating_sub(moment);
    write!(text, "resting {label} until {until} left {left} ms\n")
}

/// Appends the lines of the labels that rest, in their order.
fn push_all_resting(text: &mut String, moment: u64, rows: &[(u32, u64)]) -> Result<(), AllocError>
    ensures { OnOk result (string_bytes text.new ≡ string_bytes text.old ++ flat_map (resting_line moment) rows.now) }
{
    for row in rows {
        push_resting(text, moment, row)?;
    }
    Ok(())
}

/// How many labels of the router's range are neither held nor rest.
fn count_free(router: &Router, state: &State) -> u64
    ensures { result ≡ count_free router.now state.now }
{
    let held = state.labels.as_slice().len() as u64;
    let resting = state.resting.as_slice().len() as u64;
    label_room(router.labels)
        .saturating_sub(held)
        .saturating_sub(resting)
}

/// Appends the line of how many labels are free.
#[tactic(auto, unfolding(crate::specs::Labels::free_line))]
fn push_free(text: &mut String, router: &Router, state: &State) -> Result<(), AllocError>
    ensures { OnOk result (string_bytes text.new ≡ string_bytes text.old ++ free_line router.now state.now) }
{
    let free = count_free(router, state);
    let room = label_room(router.labels);
    write!(text, "free {free} of {room}\n")
}

/// The lines of the labels that LSPs hold and of those that rest, and how many are free. The only error is that memory ran out.
pub fn labels_text(alloc: Global, router: &Router, state: &State) -> Result<String, AllocError>
    ensures { IfOk result (λ text. string_bytes text ≡ labels_text router.now state.now) }
{
    let mut text = String::new(alloc);
    push_all_held(&mut text, state.labels.as_slice())?;
    push_all_resting(&mut text, state.facts.moment, state.resting.as_slice())?;
    push_free(&mut text, router, state)?;
    Ok(text)
}
