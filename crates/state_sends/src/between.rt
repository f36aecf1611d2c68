//! What is sent between what was wanted and what is.

ghost use Rattle.std.specs.FinMap.Entries.{find, is_sorted};
ghost use Rattle.std.specs.List.Sorted.{IsSorted};
ghost use Rattle.std.specs.Option.{option_copied, option_map, option_to_list};
ghost use Rattle.std.specs.Prelude.{◌≡◌, ◌++◌, [], IfOk, None, Some, T, if◌then◌else◌, is_none};
ghost use Rattle.abstract_paths.specs.Outputs.{between, errors_out, send_for, tear_for};
ghost use Rattle.abstract_paths.specs.Touched.{forgotten, moments_between, renewed_moment};
ghost use Rattle.state_sends.specs.Placing.{placed};

use crate::rests::fresh;
use crate::rows::{get_near, place_after};
use abstract_paths::{Output, Outputs};
use message_rules::{is_up, tear_by};
use sorted_rows::Table;
use std::alloc::{AllocError, Global};

/// What a comparison of what was wanted with what is leads to.
#[derive(Debug, Drop)]
pub struct Sends<I: Ord> {
    /// The frames that end what is wanted no more, in the order of items.
    pub tears: Outputs,
    /// The frames of what is wanted and new, changed or due, in the order of items.
    pub sends: Outputs,
    /// What becomes of the moments at which items were sent last: `None` for one that is wanted no more.
    pub moments: Table<I, Option<u64>>,
}

/// An output after others, if there is one.
pub(crate) fn with_output(outputs: Outputs, output: Option<Output>) -> Result<Outputs, AllocError>
    ensures { IfOk result (λ out. out ≡ outputs ++ option_to_list output) }
{
    let mut out = outputs;
    if let Some(output) = output {
        out.push(output)?;
    }
    Ok(out)
}

/// A moment among others, if there is one.
pub(crate) fn with_moment<I: Ord + Drop>(
    moments: Table<I, Option<u64>>,
    row: Option<(I, Option<u64>)>,
) -> Result<Table<I, Option<u64>>, AllocError>
    ensures { IfOk result (λ table. table ≡ placed I.cmp moments (option_to_list row)) }
{
    let mut table = moments;
    if let Some((item, moment)) = row {
        table.set(item, moment)?;
    }
    Ok(table)
}

/// The errors whose link is up.
pub fn errors_out(up: &Table<u16, bool>, errors: Outputs) -> Outputs
    ensures { result ≡ errors_out up.now errors }
{
    let mut sent = errors.into_vec();
    sent.retain(|output| is_up(up, output.link));
    Outputs::from_vec(sent)
}

/// The tear for what was wanted, where it is wanted no more and its link is up.
fn tear_for<I>(
    alloc: Global,
    up: &Table<u16, bool>,
    found: Option<&Output>,
    was: &(I, Output),
) -> Result<Option<Output>, AllocError>
    ensures { IfOk result (λ tear. tear ≡ tear_for up.now (option_copied found.entry) was.now) }
{
    if found.is_some() || !is_up(up, was.1.link) {
        return Ok(None);
    }
    tear_by(alloc, &was.1)
}

/// The moment goes of what was wanted and is no more.
fn forgotten<I: Copy>(found: Option<&Output>, was: &(I, Output)) -> Option<(I, Option<u64>)>
    ensures { result ≡ forgotten (option_copied found.entry) was.now }
{
    if found.is_some() {
        return None;
    }
    Some((was.0, None))
}

/// What is sent and forgotten for what was wanted and is no more.
fn torn<I: Ord + Copy + Drop>(
    alloc: Global,
    up: &Table<u16, bool>,
    was: &[(I, Output)],
    is: &[(I, Output)],
) -> Result<Sends<I>, AllocError>
    requires { T (is_sorted I.cmp is.now) }
    ensures tears { IfOk result (λ torn. torn.tears ≡ between I.cmp (tear_for up.now) was.now is.now) }
    ensures sends { IfOk result (λ torn. torn.sends ≡ []) }
    ensures moments { IfOk result (λ torn. torn.moments ≡ placed I.cmp [] (between I.cmp forgotten was.now is.now)) }
{
    let mut tears = Outputs::new(alloc);
    let mut moments = Table::new(alloc);
    let mut place = 0_usize;
    for row in was {
        let found = get_near(is, place, &row.0);
        place = place_after(place, found);
        let tear = tear_for(alloc, up, found, row)?;
        tears = with_output(tears, tear)?;
        moments = with_moment(moments, forgotten(found, row))?;
    }
    Ok(Sends {
        tears,
        sends: Outputs::new(alloc),
        moments,
    })
}

/// The moment of what is sent, if it is.
pub(crate) fn renewed_moment<I: Copy>(
    moment: u64,
    sent: &Option<(I, Output)>,
) -> Option<(I, Option<u64>)>
    ensures { result ≡ option_map (λ row. (row.0, Some moment)) sent.now }
{
    match sent {
        Some(row) => Some((row.0, Some(moment))),
        None => None,
    }
}

/// The frame of what is sent, if it is.
pub(crate) fn output_of<I: Drop>(sent: Option<(I, Output)>) -> Option<Output>
    ensures { result ≡ option_map (λ row. row.1) sent }
{
    match sent {
        Some(row) => Some(row.1),
        None => None,
    }
}

/// What is sent and renewed of what is wanted, after what is there.
fn kept<I: Ord + Copy + Drop>(
    alloc: Global,
    due: &[I],
    moment: u64,
    was: &[(I, Output)],
    is: Vec<(I, Output)>,
    torn: Sends<I>,
) -> Result<Sends<I>, AllocError>
    requires due { IsSorted I.cmp due.now }
    requires was { T (is_sorted I.cmp was.now) }
    ensures tears { IfOk result (λ kept. kept.tears ≡ torn.tears) }
    ensures sends { IfOk result (λ kept. kept.sends ≡ torn.sends
        ++ between I.cmp (send_for I.cmp due.now) is.items was.now) }
    ensures moments { IfOk result (λ kept. kept.moments ≡ placed I.cmp torn.moments
        (between I.cmp (renewed_moment I.cmp due.now moment)
        is.items was.now)) }
{
    let Sends {
        tears,
        mut sends,
        mut moments,
    } = torn;

    // From the last row on, once they are turned round: each is moved.
    let mut left = is;
    left.reverse();
    let mut place = 0_usize;
    while let Some(wants) = left.pop() {
        let known = get_near(was, place, &wants.0);
        place = place_after(place, known);
        let going = fresh(alloc, due, known, wants)?;
        moments = with_moment(moments, renewed_moment(moment, &going))?;
        sends = with_output(sends, output_of(going))?;
    }
    Ok(Sends {
        tears,
        sends,
        moments,
    })
}

/// What is sent between what was wanted and what is, and what becomes of the moments at which items were sent last:
/// what is wanted no more is torn down where its link is up (RFC 2205, 2.3), and what is new, changed or due is sent. All
/// rows, and what is due, stand in the order of items; the moment is that of the step, in milliseconds. The only error is
/// out of memory.
pub fn sends_between<I: Ord + Copy + Drop>(
    alloc: Global,
    up: &Table<u16, bool>,
    due: &[I],
    moment: u64,
    was: &[(I, Output)],
    is: Vec<(I, Output)>,
) -> Result<Sends<I>, AllocError>
    requires due { IsSorted I.cmp due.now }
    requires was { T (is_sorted I.cmp was.now) }
    requires is { T (is_sorted I.cmp is.items) }
    ensures tears { IfOk result (λ sends. sends.tears ≡ between I.cmp (tear_for up.now) was.now is.items) }
    ensures sends { IfOk result (λ sends. sends.sends
        ≡ between I.cmp (send_for I.cmp due.now) is.items was.now) }
    ensures moments { IfOk result (λ sends. (item : I) → find I.cmp item sends.moments ≡ find I.cmp item
        (moments_between I.cmp due.now moment
        was.now is.items)) }
{
    let told = torn(alloc, up, was, is.as_slice())?;
    let sends = kept(alloc, due, moment, was, is, told)?;
    Ok(sends)
}
