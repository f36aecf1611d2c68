//! Edits of what a router knows, and what it knows with edits over it.

ghost use Rattle.std.specs.Prelude.{◌≡◌, IfOk};
ghost use Rattle.sorted_rows.specs.Edits as rows;
ghost use Rattle.lsr_facts.specs.Orders.{key_cmp};
ghost use Rattle.abstract_router.specs.States.{State};
ghost use Rattle.state_views.specs.Edits.{edited, parts_of, unedited, without_rows};
ghost use Rattle.state_views.specs.Joining.{joined_rows};

use crate::views::StateView;
use lsr_facts::{Assignment, Bypass, Key, Node, PathFact, Repair, ResvFact, Tunnel};
use rsvp_bodies::Prefix;
use sorted_rows::Table;
use std::alloc::{AllocError, Global};

/// What a step changes, but for the moments at which messages were sent.
#[derive(Debug)]
pub struct Edits {
    /// The moment from now on, in milliseconds, where one came.
    pub moment: Option<u64>,
    /// Of each link whether it is up from now on, where a link came up or went down.
    pub up: Option<Table<u16, bool>>,
    /// The static routes from now on, where one came or went.
    pub routes: Option<Table<Prefix, u16>>,
    /// What is known of tunnels that begin here from now on, by number: `None` where one goes.
    pub tunnels: Table<u16, Option<Tunnel>>,
    /// The bypasses from now on, by number, where one came or went.
    pub bypasses: Option<Table<u16, Bypass>>,
    /// Of LSPs what is known of their paths from now on: `None` where a path goes.
    pub paths: Table<Key, Option<PathFact>>,
    /// Of LSPs what is known of their reservations from now on: `None` where one goes.
    pub resvs: Table<Key, Option<ResvFact>>,
    /// Of LSPs what is known of their repairs from now on: `None` where one goes.
    pub repairs: Table<Key, Option<Repair>>,
    /// Of LSPs the label that each has from now on: `None` where it is free again.
    pub labels: Table<Key, Option<u32>>,
    /// Of LSPs what each is promised of a bypass's bandwidth from now on: `None` where a promise goes.
    pub assignments: Table<Key, Option<Assignment>>,
    /// Until when the labels rest that these edits free, in milliseconds, where they rest at all.
    pub rest_until: Option<u64>,
}

/// The parts of edits, each to be moved on: edits themselves are dropped by one call, so nobody else takes them apart.
#[derive(Debug, Drop)]
pub struct EditParts {
    /// As [`Edits::moment`].
    pub moment: Option<u64>,
    /// As [`Edits::up`].
    pub up: Option<Table<u16, bool>>,
    /// As [`Edits::routes`].
    pub routes: Option<Table<Prefix, u16>>,
    /// As [`Edits::tunnels`].
    pub tunnels: Table<u16, Option<Tunnel>>,
    /// As [`Edits::bypasses`].
    pub bypasses: Option<Table<u16, Bypass>>,
    /// As [`Edits::paths`].
    pub paths: Table<Key, Option<PathFact>>,
    /// As [`Edits::resvs`].
    pub resvs: Table<Key, Option<ResvFact>>,
    /// As [`Edits::repairs`].
    pub repairs: Table<Key, Option<Repair>>,
    /// As [`Edits::labels`].
    pub labels: Table<Key, Option<u32>>,
    /// As [`Edits::assignments`].
    pub assignments: Table<Key, Option<Assignment>>,
    /// As [`Edits::rest_until`].
    pub rest_until: Option<u64>,
}

/// Written out, so that they are dropped by one call, whatever they hold.
impl Drop for Edits {
    fn drop(self) {
        let Edits {
            moment: _moment,
            up: _up,
            routes: _routes,
            tunnels: _tunnels,
            bypasses: _bypasses,
            paths: _paths,
            resvs: _resvs,
            repairs: _repairs,
            labels: _labels,
            assignments: _assignments,
            rest_until: _rest_until,
        } = self;
    }
}

impl Edits {
    /// Nothing changes. Takes no memory.
    pub fn none(alloc: Global) -> Edits
        ensures { result ≡ unedited }
    {
        Edits {
            moment: None,
            up: None,
            routes: None,
            tunnels: Table::new(alloc),
            bypasses: None,
            paths: Table::new(alloc),
            resvs: Table::new(alloc),
            repairs: Table::new(alloc),
            labels: Table::new(alloc),
            assignments: Table::new(alloc),
            rest_until: None,
        }
    }

    /// The parts. Takes no memory.
    pub fn into_parts(self) -> EditParts
        ensures { result ≡ parts_of self }
    {
        let Edits {
            moment,
            up,
            routes,
            tunnels,
            bypasses,
            paths,
            resvs,
            repairs,
            labels,
            assignments,
            rest_until,
        } = self;
        EditParts {
            moment,
            up,
            routes,
            tunnels,
            bypasses,
            paths,
            resvs,
            repairs,
            labels,
            assignments,
            rest_until,
        }
    }
}

/// Rows of edits with others that are made after them. Where there are none before, the others are all: then no row moves.
/// The only error is out of memory.
#[tactic(auto, using(crate::specs::Joining::joined_last))]
pub fn joined_rows<K: Ord + Drop, V: Drop>(
    rows: Table<K, Option<V>>,
    later: Table<K, Option<V>>,
) -> Result<Table<K, Option<V>>, AllocError>
    ensures { IfOk result (λ all. all ≡ joined_rows K.cmp rows later) }
{
    let mut all = rows;

    // That the later ones are in order: so they are all, where they are joined to none.
    let _ = later.as_slice();
    if all.as_slice().is_empty() {
        return Ok(later);
    }
    let mut later = later.into_rows();
    while let Some((key, now)) = later.pop() {
        all.set(key, now)?;
    }
    Ok(all)
}

/// Edits of what LSPs have, and then these LSPs have none. The only error is out of memory.
pub fn without_rows<V: Drop>(
    edits: Table<Key, Option<V>>,
    gone: &[Key],
) -> Result<Table<Key, Option<V>>, AllocError>
    ensures { IfOk result (λ left. left ≡ without_rows edits gone.now) }
{
    let mut left = edits;
    for key in gone {
        left.set(*key, None)?;
    }
    Ok(left)
}

/// What is known after edits that aren't made.
#[derive(Debug, Drop)]
pub struct Changed<'a, V> {
    /// What is known without them.
    pub under: &'a V,
    /// The edits.
    pub edits: &'a Edits,
}

impl<'a, V: StateView> StateView for Changed<'a, V> {
    ghost router = { λ c. V.router c.under.now };

    ghost state = { λ c. edited c.edits.now (V.state c.under.now) };

    fn node(&self) -> Node<'_> {
        let node = self.under.node();
        let node = match &self.edits.up {
            Some(up) => Node { up, ..node },
            None => node,
        };
        match &self.edits.routes {
            Some(routes) => Node { routes, ..node },
            None => node,
        }
    }

    fn refresh_ms(&self) -> u32 {
        self.under.refresh_ms()
    }

    fn label_rest_ms(&self) -> u32 {
        self.under.label_rest_ms()
    }

    fn moment(&self) -> u64 {
        match self.edits.moment {
            Some(moment) => moment,
            None => self.under.moment(),
        }
    }

    #[tactic(auto, using(crate::specs::EditLaws::tunnel_edited))]
    fn tunnel(&self, number: u16) -> Option<&Tunnel> {
        match self.edits.tunnels.get(&number) {
            Some(edit) => edit.as_ref(),
            None => self.under.tunnel(number),
        }
    }

    fn bypasses(&self) -> &Table<u16, Bypass> {
        match &self.edits.bypasses {
            Some(bypasses) => bypasses,
            None => self.under.bypasses(),
        }
    }

    #[tactic(auto, using(crate::specs::EditLaws::row_edited))]
    fn path(&self, key: &Key) -> Option<&PathFact> {
        match self.edits.paths.get(key) {
            Some(edit) => edit.as_ref(),
            None => self.under.path(key),
        }
    }

    #[tactic(auto, using(crate::specs::EditLaws::row_edited))]
    fn resv(&self, key: &Key) -> Option<&ResvFact> {
        match self.edits.resvs.get(key) {
            Some(edit) => edit.as_ref(),
            None => self.under.resv(key),
        }
    }

    #[tactic(auto, using(crate::specs::EditLaws::row_edited))]
    fn repair(&self, key: &Key) -> Option<&Repair> {
        match self.edits.repairs.get(key) {
            Some(edit) => edit.as_ref(),
            None => self.under.repair(key),
        }
    }

    #[tactic(auto, using(crate::specs::EditLaws::row_edited))]
    fn label(&self, key: &Key) -> Option<u32> {
        match self.edits.labels.get(key) {
            Some(edit) => *edit,
            None => self.under.label(key),
        }
    }

    #[tactic(auto, using(crate::specs::EditLaws::row_edited))]
    fn assignment(&self, key: &Key) -> Option<Assignment> {
        match self.edits.assignments.get(key) {
            Some(edit) => *edit,
            None => self.under.assignment(key),
        }
    }
}
