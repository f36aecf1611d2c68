ghost use Rattle.std.specs.FinMap.Entries.{find, is_sorted, put, where_key};
ghost use Rattle.std.specs.List.{list_any};
ghost use Rattle.std.specs.Option.{option_copied};
ghost use Rattle.std.specs.Ordering.{is_eq};
ghost use Rattle.std.specs.Prelude.{◌≡◌, ◌≤◌, T, [], IfOk, filter, length, not, slice_get};
ghost use Rattle.lsr_facts.specs.Lifetimes.{expire, expires};
ghost use Rattle.lsr_facts.specs.Limits.{max_lsps};
ghost use Rattle.lsr_facts.specs.Orders.{key_cmp};
ghost use Rattle.lsr_facts.specs.Claims.{is_same_session};
ghost use Rattle.sorted_rows.specs.Edits.{edited};
ghost use Rattle.sorted_rows.specs.Rows.{keys_of};
ghost use Rattle.path_state.specs.Origins.{origins_of};

use crate::expiry::Expiry;
use lsr_facts::limits::MAX_LSPS;
use lsr_facts::{Key, KeyNumber, Origin, PathFact, keep_living, lives_on};
use rsvp_objects::Session;
use slot_rows::Probe;
use sorted_rows::{Sweep, Table, TryCopy};
use std::alloc::{AllocError, Global};
use std::cmp::Ordering;
use std::marker::Model;
use std::net::Ipv4Addr;
use timed_rows::TimedTable;

/// What a router knows of the path of each LSP (RFC 2205, 2.3): at most 1,024 LSPs, in the order of their keys.
/// Contracts see the list of keys and facts.
#[derive(Debug, Drop)]
pub struct PathState {
    rows: TimedTable<Key, PathFact, Expiry, KeyNumber, MAX_LSPS>,
}

impl Model for PathState {
    ghost use Rattle.std.specs.Prelude.{List};
    ghost use Rattle.lsr_facts.specs.declared.key.Key.{Key};
    ghost use Rattle.lsr_facts.specs.declared.path_fact.PathFact.{PathFact};

    ghost Value = { List (Key × PathFact) };

    ghost view = { λ s. s.rows.rows };
}

/// What lives on at a moment, in milliseconds, and what is left of it.
#[derive(Drop)]
struct Survivors {
    moment: u64,
}

impl Sweep<Key, PathFact> for Survivors {
    ghost use Rattle.lsr_facts.specs.Lifetimes.{lives_on, living};

    ghost stays = { λ s. lives_on s.moment };

    ghost left = { λ s. living s.moment };

    fn stays(&self, path: &(Key, PathFact)) -> bool {
        lives_on(self.moment, path)
    }

    fn leave(&self, fact: &mut PathFact) {
        keep_living(self.moment, fact);
    }
}

/// The keys of a session.
#[derive(Drop)]
struct OfSession {
    session: Session,
}

impl Probe<Key> for OfSession {
    ghost use Rattle.lsr_facts.specs.Orders.{session_cmp};

    ghost compares = { λ s key. session_cmp key.session s.session };

    fn compare(&self, key: &Key) -> Ordering {
        key.session.cmp(&self.session)
    }
}

impl PathState {
    /// No paths. It reserves the memory of all paths that it may ever hold; the only error is that there is too
    /// little memory.
    pub fn new(alloc: Global) -> Result<PathState, AllocError>
        ensures { IfOk result (λ state. state ≡ []) }
    {
        Ok(PathState {
            rows: TimedTable::new(alloc, Expiry)?,
        })
    }

    /// How many paths are known.
    pub fn len(&self) -> usize
        ensures { result ≡ length self.now }
    {
        self.rows.len()
    }

    /// The path at a place, in the order of the keys, from 0 on; `None` past the last.
    pub fn row(&self, place: usize) -> Option<&(Key, PathFact)>
        ensures { option_copied result ≡ slice_get self.now place }
    {
        self.rows.row(place)
    }

    /// The keys rise, and there are at most 1,024 paths. It does nothing when it runs.
    pub fn rows_are_in_order(&self)
        ensures sorted { T (is_sorted key_cmp self.now) }
        ensures few { length self.now ≤ max_lsps }
    {
        self.rows.rows_are_in_order();
    }

    /// The paths as a table of their own: a copy. The only error is out of memory.
    pub fn copied(&self, alloc: Global) -> Result<Table<Key, PathFact>, AllocError>
        ensures { IfOk result (λ paths. paths ≡ self.now) }
    {
        self.rows.copied(alloc)
    }

    /// The LSPs of whose paths a moment, in milliseconds, takes anything away (RFC 2205, 2.3), in the order of their
    /// keys. The only error is out of memory.
    pub fn expiring(&self, alloc: Global, moment: u64) -> Result<Vec<Key>, AllocError>
        ensures { IfOk result (λ keys. keys.items ≡ keys_of (filter (expires moment) self.now)) }
    {
        self.rows.come(alloc, moment)
    }

    /// Whether a path of the session is known.
    pub fn knows_session(&self, session: &Session) -> bool
        ensures { result ≡ list_any (λ path. is_same_session session.now path.0.session) self.now }
    {
        // That the rows are in order: so the sessions are, and the search finds what there is.
        self.rows.rows_are_in_order();
        self.rows.search(&OfSession { session: *session }).is_ok()
    }

    /// What is known of an LSP's path, or `None` where the LSP isn't known.
    pub fn get(&self, key: &Key) -> Option<&PathFact>
        ensures { option_copied result ≡ find key_cmp key.now self.now }
    {
        self.rows.get(key)
    }

    /// Where an LSP's path comes from, by the sender that the Path named: from nowhere where the LSP isn't known.
    pub fn origins(&self, key: &Key) -> &[(Ipv4Addr, Origin)]
        ensures { result.now ≡ origins_of key.now self.now }
    {
        match self.get(key) {
            Some(fact) => fact.origins.as_slice(),
            None => &[],
        }
    }

    /// This is known of an LSP's path from now on, in place of what was known. It asks that at most 1,024 LSPs are
    /// known then. Takes no memory.
    pub fn put(&mut self, key: Key, fact: PathFact)
        requires { length (put key_cmp key fact self.old) ≤ max_lsps }
        ensures { self.new ≡ put key_cmp key fact self.old }
    {
        self.rows.set(key, fact);
    }

    /// Nothing is known of an LSP's path any more. Where the LSP isn't known, nothing changes. Takes no memory.
    pub fn remove(&mut self, key: &Key)
        ensures { self.new ≡ where_key key_cmp (λ k. not (is_eq (key_cmp key.now k))) self.old }
    {
        self.rows.remove(key);
    }

    /// Makes edits: of each LSP that they name this is known from now on, or nothing. It asks that at most 1,024 LSPs
    /// are known then. Takes no memory.
    pub fn edit(&mut self, edits: Table<Key, Option<PathFact>>)
        requires { length (edited key_cmp edits self.old) ≤ max_lsps }
        ensures { self.new ≡ edited key_cmp edits self.old }
    {
        self.rows.edit(edits);
    }

    /// Nothing is known of any LSP's path any more. Takes no memory.
    pub fn clear(&mut self)
        ensures { self.new ≡ [] }
    {
        self.rows.clear();
    }

    /// Lets the wheel come up to this moment, in milliseconds, or to the first before it that takes anything away of a
    /// path: then [`PathState::expiring`] has less to go over. Nothing changes.
    pub fn advance(&mut self, moment: u64)
        ensures { self.new ≡ self.old }
    {
        self.rows.advance(moment);
    }

    /// A moment comes, in milliseconds: each origin goes whose expiry isn't above it, and with its last origin a
    /// path, unless it begins at this router (RFC 2205, 2.3). Takes no memory.
    #[tactic(auto, unfolding(lsr_facts::specs::Lifetimes::expire))]
    pub fn expire(&mut self, moment: u64)
        ensures { self.new ≡ expire moment self.old }
    {
        self.rows.sweep(&Survivors { moment });
    }
}

impl TryCopy for PathState {
    fn try_copy(&self, alloc: Global) -> Result<PathState, AllocError> {
        Ok(PathState {
            rows: self.rows.try_copy(alloc)?,
        })
    }
}
