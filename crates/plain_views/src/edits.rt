//! Edits that are made in plain values.

ghost use Rattle.std.specs.Option.{option_map_or};
ghost use Rattle.std.specs.Prelude.{◌≡◌, IfOk, OnOk, unwrap_or};
ghost use Rattle.sorted_rows.specs.Edits as rows;
ghost use Rattle.label_space.specs.Rests.{freed_by, rested, resting_past, with_rest};
ghost use Rattle.state_views.specs.Edits.{edited};

use lsr_facts::{Key, State};
use sorted_rows::Table;
use state_views::{EditParts, Edits};
use std::alloc::AllocError;

/// Makes edits of rows. The only error is out of memory; then some of them are made.
#[tactic(auto, using(crate::specs::Editing::edited_last))]
pub fn edit_rows<K: Ord + Drop, V: Drop>(
    table: &mut Table<K, V>,
    edits: Table<K, Option<V>>,
) -> Result<(), AllocError>
    ensures { OnOk result (table.new ≡ rows.edited K.cmp edits table.old) }
{
    // From the end on: of two edits of one key the first counts.
    let mut edits = edits.into_rows();
    while let Some((key, now)) = edits.pop() {
        match now {
            Some(value) => table.set(key, value)?,
            None => table.remove(&key),
        }
    }
    Ok(())
}

/// Takes another value in place of one, where there is another.
fn replace<T: Drop>(value: &mut T, now: Option<T>)
    ensures { value.new ≡ unwrap_or now value.old }
{
    if let Some(now) = now {
        *value = now;
    }
}

/// The labels that still rest once a moment comes, in milliseconds, if one comes.
fn wake(resting: &mut Table<u32, u64>, moment: Option<u64>)
    ensures { resting.new ≡ option_map_or (λ moment. resting_past moment resting.old) moment resting.old }
{
    if let Some(moment) = moment {
        resting.retain(|_, until| moment < *until);
    }
}

/// The labels of the LSPs that edits name rest until a moment, in milliseconds. The only error is out of memory; then some of
/// them rest.
fn rest_freed(
    resting: &mut Table<u32, u64>,
    until: u64,
    edits: &Table<Key, Option<u32>>,
    labels: &[(Key, u32)],
) -> Result<(), AllocError>
    ensures { OnOk result (resting.new ≡ with_rest until (freed_by edits.now labels.now) resting.old) }
{
    let mut place = labels.len();
    while place > 0 {
        place -= 1;
        let (key, label) = labels[place];
        if edits.contains_key(&key) {
            resting.set(label, until)?;
        }
    }
    Ok(())
}

/// The labels that edits free rest until a moment, in milliseconds, where that is after the present one. The only error is out
/// of memory; then some of them rest.
fn rest(
    resting: &mut Table<u32, u64>,
    moment: u64,
    until: Option<u64>,
    edits: &Table<Key, Option<u32>>,
    labels: &Table<Key, u32>,
) -> Result<(), AllocError>
    ensures { OnOk result (resting.new
        ≡ option_map_or (λ until. rested moment until (freed_by edits.now labels.now) resting.old) until resting.old) }
{
    match until {
        Some(until) if moment < until => rest_freed(resting, until, edits, labels.as_slice()),
        _ => Ok(()),
    }
}

/// What is known after edits: the moments at which messages were sent are no part of them. The only error is out of memory.
pub fn apply_edits(state: State, edits: Edits) -> Result<State, AllocError>
    ensures { IfOk result (λ after. after ≡ edited edits state) }
{
    let mut state = state;
    let EditParts {
        moment,
        up,
        routes,
        tunnels,
        bypasses,
        paths,
        resvs,
        repairs,
        labels,
        assignments,
        rest_until,
    } = edits.into_parts();
    wake(&mut state.resting, moment);
    replace(&mut state.facts.moment, moment);
    replace(&mut state.facts.up, up);
    replace(&mut state.facts.routes, routes);
    replace(&mut state.facts.bypasses, bypasses);
    rest(
        &mut state.resting,
        state.facts.moment,
        rest_until,
        &labels,
        &state.labels,
    )?;
    edit_rows(&mut state.facts.tunnels, tunnels)?;
    edit_rows(&mut state.facts.paths, paths)?;
    edit_rows(&mut state.resvs, resvs)?;
    edit_rows(&mut state.repairs, repairs)?;
    edit_rows(&mut state.labels, labels)?;
    edit_rows(&mut state.assignments, assignments)?;
    Ok(state)
}
