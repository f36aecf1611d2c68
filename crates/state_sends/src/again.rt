//! What is sent again where nothing else changes.

ghost use Rattle.std.specs.FinMap.Entries.{find, is_sorted};
ghost use Rattle.std.specs.List.Sorted.{IsSorted};
ghost use Rattle.std.specs.Option.{option_map};
ghost use Rattle.std.specs.Prelude.{◌≡◌, [], ℕ, Bool, List, IfOk, Some, T, filter_map};
ghost use Rattle.abstract_paths.specs.Outputs.{between, send_for, tear_for};
ghost use Rattle.abstract_paths.specs.Touched.{moments_between};
ghost use Rattle.state_sends.specs.Going.{going};
ghost use Rattle.state_sends.specs.Placing.{placed};

use crate::between::{Sends, output_of, renewed_moment, with_moment, with_output};
use crate::rests::is_due_near;
use crate::rows::place_after;
use abstract_paths::{Output, Outputs};
use sorted_rows::Table;
use std::alloc::{AllocError, Global};

/// A row, where its item is due: mostly it stands at a place among those that are.
fn going<I: Ord + Drop>(due: &[I], place: usize, row: (I, Output)) -> Option<(I, Output)>
    requires { IsSorted I.cmp due.now }
    ensures { result ≡ going I.cmp due.now row }
{
    if !is_due_near(due, place, &row.0) {
        return None;
    }
    Some(row)
}

/// Those rows are sent, and renewed, that are due.
fn all_going<I: Ord + Copy + Drop>(
    alloc: Global,
    due: &[I],
    moment: u64,
    is: Vec<(I, Output)>,
) -> Result<Sends<I>, AllocError>
    requires { IsSorted I.cmp due.now }
    ensures tears { IfOk result (λ sends. sends.tears ≡ []) }
    ensures sends { IfOk result (λ sends. sends.sends
        ≡ filter_map (λ row. option_map (λ r. r.1) (going I.cmp due.now row)) is.items) }
    ensures moments { IfOk result (λ sends. sends.moments ≡ placed I.cmp []
        (filter_map (λ row. option_map (λ r. (r.0, Some moment)) (going I.cmp due.now row)) is.items)) }
{
    let mut sends = Outputs::new(alloc);
    let mut moments = Table::new(alloc);

    // From the last row on, once they are turned round: each is moved.
    let mut left = is;
    left.reverse();
    let mut place = 0_usize;
    while let Some(row) = left.pop() {
        let sent = going(due, place, row);
        place = place_after(place, sent.as_ref());
        moments = with_moment(moments, renewed_moment(moment, &sent))?;
        sends = with_output(sends, output_of(sent))?;
    }
    Ok(Sends {
        tears: Outputs::new(alloc),
        sends,
        moments,
    })
}

/// What is sent where the same is wanted before and after: what is due, again. Nothing is torn down, and no moment is
/// forgotten. The rows, and what is due, stand in the order of items; the moment is that of the step, in milliseconds. The
/// only error is out of memory.
pub fn sends_again<I: Ord + Copy + Drop>(
    alloc: Global,
    due: &[I],
    moment: u64,
    is: Vec<(I, Output)>,
) -> Result<Sends<I>, AllocError>
    requires due { IsSorted I.cmp due.now }
    requires is { T (is_sorted I.cmp is.items) }
    ensures tears { IfOk result (λ sends. (up : List (ℕ × Bool)) → sends.tears
        ≡ between I.cmp (tear_for up) is.items is.items) }
    ensures sends { IfOk result (λ sends. sends.sends
        ≡ between I.cmp (send_for I.cmp due.now) is.items is.items) }
    ensures moments { IfOk result (λ sends. (item : I) → find I.cmp item sends.moments ≡ find I.cmp item
        (moments_between I.cmp due.now moment is.items is.items)) }
{
    let sends = all_going(alloc, due, moment, is)?;
    Ok(sends)
}
