// Values of a tunnel: what each says, or `None` where it isn't of its kind.
ghost use Rattle.std.specs.Prelude.{◌≡◌, ◌≤◌, ◌↔◌, length, map, IfOk, IsTrue};
ghost use Rattle.toml.specs.View.{view};
ghost use Rattle.rsvp_bodies.specs.Finding.{Finds};
ghost use Rattle.lsr_config.specs.Values.{IsDefinedRateText, IsInAddress, IsNameText, IsShortStepText, SaysEach, SaysName, SaysRate, SaysStep, SaysSteps};

use crate::values::WHOLE_ADDRESS;
use rsvp_bodies::attr_numbers::MAX_NAME_LEN;
use rsvp_bodies::{Name, RateWord, Route, Step, read_rate, read_step};
use std::alloc::{AllocError, Global};
use toml::Value;

/// The most steps of a tunnel's route: with this router's own step before them they are as many as a message carries.
const MAX_STEPS: usize = 31;

/// The steps that the value lists. The only error is out of memory.
pub(crate) fn steps_in(alloc: Global, value: &Value) -> Result<Option<Route>, AllocError>
    ensures { IfOk result (Finds (SaysSteps (view value.now))) }
{
    match value.as_array() {
        Some(array) => steps_of(alloc, array.as_slice()),
        None => Ok(None),
    }
}

/// The steps that the values write, where they aren't too many. The only error is out of memory.
fn steps_of(alloc: Global, values: &[Value]) -> Result<Option<Route>, AllocError>
    ensures { IfOk result
        (Finds (λ steps. SaysEach SaysStep (map view values.now) steps × (length steps ≤ 31))) }
{
    if values.len() > MAX_STEPS {
        return Ok(None);
    }
    let mut steps = Vec::new(alloc);
    for value in values {
        let Some(step) = step_in(value) else {
            return Ok(None);
        };
        steps.push(step)?;
    }
    Ok(Some(Route::from_vec(steps)))
}

/// The step that the value writes.
fn step_in(value: &Value) -> Option<Step>
    ensures { Finds (SaysStep (view value.now)) result }
{
    step_of(value.as_str()?)
}

/// The step that the text writes, where it leads to a prefix of at most 32 bits.
fn step_of(text: &str) -> Option<Step>
    ensures { Finds (IsShortStepText text.now) result }
{
    let step = read_step(text)?;
    if !is_in_address(&step) {
        return None;
    }
    Some(step)
}

/// Whether a step leads to a prefix of at most 32 bits.
fn is_in_address(step: &Step) -> bool
    ensures { IsTrue result ↔ IsInAddress step.now }
{
    match step {
        Step::Ipv4 { prefix, .. } => prefix.length <= WHOLE_ADDRESS,
        Step::Other(_) => false,
    }
}

/// The rate that the value writes.
pub(crate) fn rate_in(value: &Value) -> Option<RateWord>
    ensures { Finds (SaysRate (view value.now)) result }
{
    rate_of(value.as_str()?)
}

/// The rate that the text writes, where it is a number of bytes per second.
fn rate_of(text: &str) -> Option<RateWord>
    ensures { Finds (IsDefinedRateText text.now) result }
{
    let rate = read_rate(text)?;
    if rate.whole().is_none() {
        return None;
    }
    Some(rate)
}

/// The name that the value is. The only error is out of memory.
pub(crate) fn name_in(alloc: Global, value: &Value) -> Result<Option<Name>, AllocError>
    ensures { IfOk result (Finds (SaysName (view value.now))) }
{
    match value.as_str() {
        Some(text) => name_of(alloc, text),
        None => Ok(None),
    }
}

/// The name that the text is, where it isn't too long. The only error is out of memory.
fn name_of(alloc: Global, text: &str) -> Result<Option<Name>, AllocError>
    ensures { IfOk result (Finds (IsNameText text.now)) }
{
    if text.len() > MAX_NAME_LEN {
        return Ok(None);
    }
    Ok(Some(Name::copy_of(alloc, text.as_bytes())?))
}
