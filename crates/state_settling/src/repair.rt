//! The repair of what a lost link takes away (RFC 4090, 6.4 and 6.5).

ghost use Rattle.std.specs.FinMap.Entries.{find, is_sorted, put};
ghost use Rattle.std.specs.List.{AllByRecursion, flat_map};
ghost use Rattle.std.specs.Option.{option_and_then, option_map, option_map_or, option_or};
ghost use Rattle.std.specs.Prelude.{◌≡◌, None, Some, true, IfOk, OnOk, T, map};
ghost use Rattle.lsr_facts.specs.Orders.{key_cmp};
ghost use Rattle.lsr_facts.specs.declared.key.Key.{Key};
ghost use Rattle.abstract_paths.specs.MessageLaws.{LeavesRoom};
ghost use Rattle.abstract_paths.specs.Outcomes.{found_here, told_upstream};
ghost use Rattle.abstract_paths.specs.Places.{place_at};
ghost use Rattle.lsr_facts.specs.Errors.{locally_repaired};
ghost use Rattle.abstract_router.specs.Repairing.{new_repairs, put_repair, repaired, told_of, told_repaired};
ghost use Rattle.abstract_router.specs.Steps.{stands};
ghost use Rattle.state_views.specs.Edits.{edited};
ghost use Rattle.state_views.specs.Joining.{joined_rows};
ghost use Rattle.state_settling.specs.Repairs.{repair_at};

use facility_backup::{held_lsp, repair};
use lsr_facts::{Key, Node, PathFact, Repair, ResvFact, RsvpError};
use message_rules::{found_here, told_upstream};
use sorted_rows::Table;
use state_views::{Changed, Edits, Outputs, StateView, WholeState, joined_rows, node_of};
use std::alloc::{AllocError, Global};
use std::mem;

/// The repair of an LSP, if there is to be one. Takes no memory where there is none; the only error is out of memory.
fn repair_at<A: StateView>(
    alloc: Global,
    after: &A,
    key: &Key,
) -> Result<Option<Repair>, AllocError>
    ensures { IfOk result (λ found. found ≡ repair_at (A.router after.now) (A.state after.now) key.now) }
{
    match held_lsp(after, key) {
        Some(held) => repair(alloc, after, &held),
        None => Ok(None),
    }
}

/// Repairs, and then that of this LSP, if there is to be one. The only error is out of memory.
fn with_repair<A: StateView>(
    alloc: Global,
    repairs: Table<Key, Repair>,
    after: &A,
    key: Key,
) -> Result<Table<Key, Repair>, AllocError>
    ensures { IfOk result (λ all. all ≡ option_map_or (λ repair. put key_cmp key repair repairs)
        (repair_at (A.router after.now) (A.state after.now) key) repairs) }
{
    let mut all = repairs;
    if let Some(repair) = repair_at(alloc, after, &key)? {
        all.set(key, repair)?;
    }
    Ok(all)
}

/// Repairs, and then those of the LSPs of which these edits leave a reservation. It asks that the others have none. The only
/// error is out of memory.
fn with_repairs<A: StateView>(
    alloc: Global,
    repairs: Table<Key, Repair>,
    after: &A,
    rows: &[(Key, Option<ResvFact>)],
) -> Result<Table<Key, Repair>, AllocError>
    requires order { T (is_sorted key_cmp rows.now) }
    requires gone { (key : Key) → find key_cmp key rows.now ≡ Some None → find key_cmp key (A.state after.now).resvs ≡ None }
    ensures { IfOk result (λ all. (key : Key) → find key_cmp key all
        ≡ option_or (option_and_then (λ row. repair_at (A.router after.now) (A.state after.now) key) (find key_cmp key rows.now))
        (find key_cmp key repairs)) }
{
    let mut all = repairs;
    for row in rows {
        if row.1.is_some() {
            all = with_repair(alloc, all, after, row.0)?;
        }
    }
    Ok(all)
}

/// Repairs, and then those of all LSPs that had a reservation before. The only error is out of memory.
fn with_all_repairs<V: WholeState, A: StateView>(
    alloc: Global,
    repairs: Table<Key, Repair>,
    before: &V,
    after: &A,
) -> Result<Table<Key, Repair>, AllocError>
    ensures { IfOk result (λ all. (key : Key) → find key_cmp key all
        ≡ option_or (option_and_then (λ row. repair_at (A.router after.now) (A.state after.now) key) (find key_cmp key (V.state before.now).resvs))
        (find key_cmp key repairs)) }
{
    let mut all = repairs;
    for place in 0..before.resv_count() {
        if let Some(row) = before.resv_at(place) {
            all = with_repair(alloc, all, after, row.0)?;
        }
    }
    Ok(all)
}

/// All repairs that there are to be after edits. It asks that all reservations that there were before stood. It goes over
/// all of them only where links changed; else over the edits. The only error is out of memory.
fn known_repairs<V: WholeState>(
    alloc: Global,
    view: &V,
    edits: &Edits,
) -> Result<Table<Key, Repair>, AllocError>
    requires { AllByRecursion (λ resv. stands (V.state view.now).facts resv ≡ true) (V.state view.now).resvs }
    ensures { IfOk result (λ all. (key : Key) → find key_cmp key all
        ≡ repair_at (V.router view.now) (edited edits.now (V.state view.now)) key) }
{
    let after = Changed { under: view, edits };
    let known = with_repairs(alloc, Table::new(alloc), &after, edits.resvs.as_slice())?;
    match edits.up {
        Some(_) => with_all_repairs(alloc, known, view, &after),
        None => Ok(known),
    }
}

/// All repairs that there are to be after edits, in the order of their keys. It asks that all reservations that there
/// were before stood. The only error is out of memory.
fn new_repairs<V: WholeState>(
    alloc: Global,
    view: &V,
    edits: &Edits,
) -> Result<Table<Key, Repair>, AllocError>
    requires order { T (is_sorted key_cmp (V.state view.now).resvs) }
    requires stood { AllByRecursion (λ resv. stands (V.state view.now).facts resv ≡ true) (V.state view.now).resvs }
    ensures { IfOk result (λ repairs. repairs ≡ new_repairs (V.router view.now) (edited edits.now (V.state view.now))) }
{
    let repairs = known_repairs(alloc, view, edits)?;

    // That they are in order: so no others have the same keys and values.
    let _ = repairs.as_slice();
    Ok(repairs)
}

/// The errors that tell the origins of a path that its LSP runs over a bypass (RFC 4090, 6.5). It asks for a Tspec that
/// leaves room for the rest of the message.
fn told_on(alloc: Global, node: &Node, key: &Key, path: &PathFact) -> Result<Outputs, AllocError>
    requires { LeavesRoom (Some path.now.tspec) }
    ensures { IfOk result (λ told. told
        ≡ told_upstream (place_at node.now) key.now path.now (Some path.now.tspec)
        (found_here node.now.router.now locally_repaired)) }
{
    let error = found_here(node.router, RsvpError::LOCALLY_REPAIRED);
    told_upstream(alloc, node, key, path, &Some(path.tspec.clone()?), error)
}

/// The errors that a repair tells.
fn told_of<A: StateView>(
    alloc: Global,
    after: &A,
    repair: &(Key, Repair),
) -> Result<Outputs, AllocError>
    requires { AllByRecursion (λ path. LeavesRoom (Some path.1.tspec)) (A.state after.now).facts.paths }
    ensures { IfOk result (λ told. told ≡ told_of (A.router after.now) (A.state after.now) repair.now) }
{
    match after.path(&repair.0) {
        Some(path) => told_on(alloc, &node_of(after), &repair.0, path),
        None => Ok(Outputs::new(alloc)),
    }
}

/// The errors that these repairs tell, in the order of the repairs. The only error is out of memory.
fn told_of_all<A: StateView>(
    alloc: Global,
    after: &A,
    repairs: &[(Key, Repair)],
) -> Result<Outputs, AllocError>
    requires { AllByRecursion (λ path. LeavesRoom (Some path.1.tspec)) (A.state after.now).facts.paths }
    ensures { IfOk result (λ told. told ≡ flat_map (told_of (A.router after.now) (A.state after.now)) repairs.now) }
{
    let mut told = Vec::new(alloc);
    for repair in repairs {
        let mut more = told_of(alloc, after, repair)?.into_vec();
        told.append(&mut more)?;
    }
    Ok(Outputs::from_vec(told))
}

/// Edits by which LSPs have these repairs. The only error is out of memory.
fn puts_of(
    alloc: Global,
    repairs: Vec<(Key, Repair)>,
) -> Result<Vec<(Key, Option<Repair>)>, AllocError>
    ensures { IfOk result (λ puts. puts.items ≡ map put_repair repairs.items) }
{
    let mut puts = Vec::with_capacity(alloc, repairs.len())?;
    for (key, repair) in repairs {
        puts.push((key, Some(repair)))?;
    }
    Ok(puts)
}

/// Edits of repairs, and then LSPs have these. The only error is out of memory.
fn with_put(
    alloc: Global,
    edits: Table<Key, Option<Repair>>,
    repairs: Table<Key, Repair>,
) -> Result<Table<Key, Option<Repair>>, AllocError>
    ensures { IfOk result (λ all. all ≡ joined_rows key_cmp edits (map put_repair repairs)) }
{
    let puts = puts_of(alloc, repairs.into_rows())?;
    joined_rows(edits, Table::from_rows(puts))
}

/// Edits, and then what a lost link takes away is repaired; and the errors that this tells, in the order of the LSPs (RFC
/// 4090, 6.4 and 6.5). It asks that all reservations stood before the edits, and that each path after them leaves room for an
/// error that names it. The only error is out of memory.
pub(crate) fn repair_all<V: WholeState>(
    alloc: Global,
    view: &V,
    edits: &mut Edits,
) -> Result<Outputs, AllocError>
    requires order { T (is_sorted key_cmp (V.state view.now).resvs) }
    requires stood { AllByRecursion (λ resv. stands (V.state view.now).facts resv ≡ true) (V.state view.now).resvs }
    requires repairs { T (is_sorted key_cmp (V.state view.now).repairs) }
    requires room { AllByRecursion (λ path. LeavesRoom (Some path.1.tspec)) (edited edits.old (V.state view.now)).facts.paths }
    ensures after { OnOk result (edited edits.new (V.state view.now)
        ≡ repaired (V.router view.now) (edited edits.old (V.state view.now))) }
    ensures told { IfOk result (λ told. told
        ≡ told_repaired (V.router view.now) (edited edits.old (V.state view.now))) }
{
    let repairs = new_repairs(alloc, view, edits)?;
    if repairs.as_slice().is_empty() {
        return Ok(Outputs::new(alloc));
    }
    let after = Changed { under: view, edits };
    let told = told_of_all(alloc, &after, repairs.as_slice())?;
    let was = mem::replace(&mut edits.repairs, Table::new(alloc));
    edits.repairs = with_put(alloc, was, repairs)?;
    Ok(told)
}
