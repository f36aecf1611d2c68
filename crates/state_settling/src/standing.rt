//! What LSPs have that stands no more: reservations, then repairs, then promises of bandwidth.

ghost use Rattle.std.specs.FinMap.Entries.{find, is_sorted};
ghost use Rattle.std.specs.List.{AllByRecursion};
ghost use Rattle.std.specs.Option.{option_and_then, option_copied};
ghost use Rattle.std.specs.Prelude.{◌≡◌, ◌++◌, [], None, true, Bool, IfOk, List, OnOk, Option, T, filter_map, length, refl, slice_get};
ghost use Rattle.sorted_rows.specs.Edits as edit_rows;
ghost use Rattle.lsr_facts.specs.Orders.{key_cmp};
ghost use Rattle.lsr_facts.specs.declared.key.Key.{Key};
ghost use Rattle.lsr_facts.specs.declared.router.Router.{Router};
ghost use Rattle.abstract_router.specs.Assigning.{assignments_left};
ghost use Rattle.abstract_router.specs.Repairing.{repair_stands, repairs_left};
ghost use Rattle.abstract_router.specs.States.{State, is_held, is_one_of};
ghost use Rattle.abstract_router.specs.Steps.{resvs_left};
ghost use Rattle.abstract_router.specs.Standing.{stands};
ghost use Rattle.state_views.specs.Edits.{edited};
ghost use Rattle.state_views.specs.declared.edits.Edits.{Edits};
ghost use Rattle.state_settling.specs.Falling.{failing_key, fails_at};

use facility_backup::{is_same_around, repair_stands, stands};
use lsr_facts::{Assignment, Key, Repair, ResvFact};
use sorted_rows::Table;
use state_views::{Changed, Edits, StateView, WholeState, without_rows};
use std::alloc::{AllocError, Global};
use std::mem;

/// What an LSP has as long as it stands.
trait Falling {
    ghost rows: { State → List (Key × Self) };

    ghost row_stands: { Router → State → Key × Self → Bool };

    /// Whether an LSP has one that stands no more.
    fn falls<V: StateView>(view: &V, key: &Key) -> bool
        ensures { result ≡ fails_at (row_stands (V.router view.now) (V.state view.now)) (rows (V.state view.now)) key.now };
}

/// What an LSP has as long as it stands by links, by bypasses and by its path.
trait Standing: Falling {
    ghost row_edits: { Edits → List (Key × Option Self) };

    /// How many there are.
    fn row_count<V: WholeState>(view: &V) -> usize
        ensures { result ≡ length (Self.rows (V.state view.now)) };

    /// The one at a place, in the order of the LSPs; `None` past the last.
    fn row_at<'a, V: WholeState>(view: &'a V, place: usize) -> Option<&'a (Key, Self)>
        ensures { option_copied result ≡ slice_get (Self.rows (V.state view.now)) place };

    /// Those that are edited.
    fn edited_rows(edits: &Edits) -> &[(Key, Option<Self>)]
        ensures { result.now ≡ row_edits edits.now };

    /// Whether after edits each stands that stood, unless the path of its LSP is edited. It says no wherever that isn't plain.
    fn stand_still<V: StateView>(view: &V, edits: &Edits) -> bool
        ensures { result ≡ true → (key : Key) (row : Self) → find key_cmp key edits.now.paths ≡ None
            → Self.row_stands (V.router view.now) (V.state view.now) (key, row) ≡ true
            → Self.row_stands (V.router view.now) (edited edits.now (V.state view.now)) (key, row) ≡ true };

    ghost rows_edited: { (s : State) (e : Edits) → Self.rows (edited e s) ≡ edit_rows.edited key_cmp (row_edits e) (Self.rows s) };
}

impl Falling for ResvFact {
    ghost rows = { λ s. s.resvs };

    ghost row_stands = { λ r s. stands s.facts };

    fn falls<V: StateView>(view: &V, key: &Key) -> bool {
        match view.resv(key) {
            Some(resv) => !stands(view, key, resv),
            None => false,
        }
    }
}

impl Standing for ResvFact {
    ghost row_edits = { λ e. e.resvs };

    fn row_count<V: WholeState>(view: &V) -> usize {
        view.resv_count()
    }

    fn row_at<'a, V: WholeState>(view: &'a V, place: usize) -> Option<&'a (Key, ResvFact)> {
        view.resv_at(place)
    }

    fn edited_rows(edits: &Edits) -> &[(Key, Option<ResvFact>)] {
        edits.resvs.as_slice()
    }

    /// No link came up or went down.
    #[tactic(auto, using(crate::specs::FallingLaws::resvs_stand_still))]
    fn stand_still<V: StateView>(_view: &V, edits: &Edits) -> bool {
        edits.up.is_none()
    }

    ghost rows_edited = { λ s e. refl };
}

impl Falling for Repair {
    ghost rows = { λ s. s.repairs };

    ghost row_stands = { repair_stands };

    fn falls<V: StateView>(view: &V, key: &Key) -> bool {
        match view.repair(key) {
            Some(repair) => !repair_stands(view, key, repair),
            None => false,
        }
    }
}

impl Standing for Repair {
    ghost row_edits = { λ e. e.repairs };

    fn row_count<V: WholeState>(view: &V) -> usize {
        view.repair_count()
    }

    fn row_at<'a, V: WholeState>(view: &'a V, place: usize) -> Option<&'a (Key, Repair)> {
        view.repair_at(place)
    }

    fn edited_rows(edits: &Edits) -> &[(Key, Option<Repair>)] {
        edits.repairs.as_slice()
    }

    /// No bypass changed.
    #[tactic(auto, using(crate::specs::FallingLaws::repairs_stand_still))]
    fn stand_still<V: StateView>(view: &V, edits: &Edits) -> bool {
        is_same_around(view, edits)
    }

    ghost rows_edited = { λ s e. refl };
}

/// A promise of bandwidth stands while its LSP is reserved or repaired.
impl Falling for Assignment {
    ghost rows = { λ s. s.assignments };

    ghost row_stands = { λ r s given. is_held s given.0 };

    fn falls<V: StateView>(view: &V, key: &Key) -> bool {
        match view.assignment(key) {
            Some(_) => !(view.resv(key).is_some() || view.repair(key).is_some()),
            None => false,
        }
    }
}

/// The LSP, where what it has stands no more.
fn fallen_key<S: Falling, V: StateView>(view: &V, key: &Key) -> Option<Key>
    ensures { result ≡ failing_key (S.row_stands (V.router view.now) (V.state view.now)) (S.rows (V.state view.now)) key.now }
{
    if S::falls(view, key) {
        Some(*key)
    } else {
        None
    }
}

/// LSPs, and then those of these rows for which what they have stands no more. The only error is out of memory.
fn with_fallen<S: Falling, A: StateView, E>(
    mut keys: Vec<Key>,
    after: &A,
    edits: &[(Key, E)],
) -> Result<Vec<Key>, AllocError>
    ensures { IfOk result (λ all. all.items ≡ keys.items
        ++ filter_map (λ edit. failing_key (S.row_stands (A.router after.now) (A.state after.now)) (S.rows (A.state after.now)) edit.0) edits.now) }
{
    for edit in edits {
        if let Some(key) = fallen_key::<S, A>(after, &edit.0) {
            keys.push(key)?;
        }
    }
    Ok(keys)
}

/// The LSP that has the one at a place before, where what it has after stands no more.
fn fallen_at<S: Standing, V: WholeState, A: StateView>(
    before: &V,
    after: &A,
    place: usize,
) -> Option<Key>
    ensures { result ≡ option_and_then (λ row. failing_key (S.row_stands (A.router after.now) (A.state after.now)) (S.rows (A.state after.now)) row.0)
        (slice_get (S.rows (V.state before.now)) place) }
{
    let row = S::row_at(before, place)?;
    fallen_key::<S, A>(after, &row.0)
}

/// LSPs, and then all that had one before and for which what they have after stands no more. The only error is out of
/// memory.
fn with_all_fallen<S: Standing, V: WholeState, A: StateView>(
    mut keys: Vec<Key>,
    before: &V,
    after: &A,
) -> Result<Vec<Key>, AllocError>
    ensures { IfOk result (λ all. all.items ≡ keys.items
        ++ filter_map (λ row. failing_key (S.row_stands (A.router after.now) (A.state after.now)) (S.rows (A.state after.now)) row.0)
        (S.rows (V.state before.now))) }
{
    for place in 0..S::row_count(before) {
        if let Some(key) = fallen_at::<S, V, A>(before, after, place) {
            keys.push(key)?;
        }
    }
    Ok(keys)
}

/// The LSPs for which what they have after these edits stands no more. It asks that all there were before stood. It goes over
/// all of them only where more may have fallen than by their paths; else over the edits. The only error is out of memory.
fn fallen<S: Standing, V: WholeState>(
    alloc: Global,
    view: &V,
    edits: &Edits,
) -> Result<Vec<Key>, AllocError>
    requires { AllByRecursion (λ row. S.row_stands (V.router view.now) (V.state view.now) row ≡ true) (S.rows (V.state view.now)) }
    ensures { IfOk result (λ keys. (key : Key) → is_one_of keys.items key
        ≡ fails_at (S.row_stands (V.router view.now) (edited edits.now (V.state view.now))) (S.rows (edited edits.now (V.state view.now))) key) }
{
    let after = Changed { under: view, edits };
    let keys = with_fallen::<S, _, _>(Vec::new(alloc), &after, S::edited_rows(edits))?;
    if S::stand_still(view, edits) {
        with_fallen::<S, _, _>(keys, &after, edits.paths.as_slice())
    } else {
        with_all_fallen::<S, _, _>(keys, view, &after)
    }
}

/// Edits, and then those reservations go that stand no more. It asks that all there were before the edits stood. The only
/// error is out of memory.
#[tactic(auto, using(crate::specs::FallingLaws::standing_left))]
pub(crate) fn take_resvs<V: WholeState>(
    alloc: Global,
    view: &V,
    edits: &mut Edits,
) -> Result<(), AllocError>
    requires order { T (is_sorted key_cmp (V.state view.now).resvs) }
    requires stood { AllByRecursion (λ resv. stands (V.state view.now).facts resv ≡ true) (V.state view.now).resvs }
    ensures { OnOk result (edited edits.new (V.state view.now) ≡ resvs_left (edited edits.old (V.state view.now))) }
{
    let gone = fallen::<ResvFact, V>(alloc, view, edits)?;
    if gone.is_empty() {
        return Ok(());
    }
    let resvs = mem::replace(&mut edits.resvs, Table::new(alloc));
    edits.resvs = without_rows(resvs, &gone)?;
    Ok(())
}

/// Edits, and then those repairs go that stand no more. It asks that all there were before the edits stood. The only error is
/// out of memory.
#[tactic(auto, using(crate::specs::FallingLaws::repairs_standing_left))]
pub(crate) fn take_repairs<V: WholeState>(
    alloc: Global,
    view: &V,
    edits: &mut Edits,
) -> Result<(), AllocError>
    requires order { T (is_sorted key_cmp (V.state view.now).repairs) }
    requires stood { AllByRecursion (λ repair. repair_stands (V.router view.now) (V.state view.now) repair ≡ true)
        (V.state view.now).repairs }
    ensures { OnOk result (edited edits.new (V.state view.now)
        ≡ repairs_left (V.router view.now) (edited edits.old (V.state view.now))) }
{
    let gone = fallen::<Repair, V>(alloc, view, edits)?;
    if gone.is_empty() {
        return Ok(());
    }
    let repairs = mem::replace(&mut edits.repairs, Table::new(alloc));
    edits.repairs = without_rows(repairs, &gone)?;
    Ok(())
}

/// The LSPs that these edits leave a promise of bandwidth and neither a reservation nor a repair. It asks that before them there
/// was none. The only error is out of memory.
fn unheld<V: StateView>(alloc: Global, view: &V, edits: &Edits) -> Result<Vec<Key>, AllocError>
    requires { AllByRecursion (λ given. is_held (V.state view.now) given.0 ≡ true) (V.state view.now).assignments }
    ensures { IfOk result (λ keys. (key : Key) → is_one_of keys.items key
        ≡ fails_at (λ given. is_held (edited edits.now (V.state view.now)) given.0) (edited edits.now (V.state view.now)).assignments key) }
{
    let after = Changed { under: view, edits };
    let promised = edits.assignments.as_slice();
    let keys = with_fallen::<Assignment, _, _>(Vec::new(alloc), &after, promised)?;
    let keys = with_fallen::<Assignment, _, _>(keys, &after, edits.resvs.as_slice())?;
    with_fallen::<Assignment, _, _>(keys, &after, edits.repairs.as_slice())
}

/// Whether nobody was promised anything before edits, and they promise nobody anything.
fn is_unpromised<V: WholeState>(view: &V, edits: &Edits) -> bool
    ensures { result ≡ true → (edited edits.now (V.state view.now)).assignments ≡ [] }
{
    view.assignment_count() == 0 && edits.assignments.as_slice().is_empty()
}

/// Edits, and then the promises of bandwidth go of LSPs that are neither reserved nor repaired. It asks that before the edits
/// there were none. Takes no memory where nothing is promised; the only error is out of memory.
#[tactic(auto, using(crate::specs::FallingLaws::assignments_held))]
pub(crate) fn take_assignments<V: WholeState>(
    alloc: Global,
    view: &V,
    edits: &mut Edits,
) -> Result<(), AllocError>
    requires order { T (is_sorted key_cmp (V.state view.now).assignments) }
    requires held { AllByRecursion (λ given. is_held (V.state view.now) given.0 ≡ true) (V.state view.now).assignments }
    ensures { OnOk result (edited edits.new (V.state view.now) ≡ assignments_left (edited edits.old (V.state view.now))) }
{
    if is_unpromised(view, edits) {
        return Ok(());
    }
    let gone = unheld(alloc, view, edits)?;
    let assignments = mem::replace(&mut edits.assignments, Table::new(alloc));
    edits.assignments = without_rows(assignments, &gone)?;
    Ok(())
}
