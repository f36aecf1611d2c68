//! The reservations that a router knows, by LSP, in memory that is taken when the table is made.

ghost use Rattle.std.specs.FinMap.Entries.{find, is_sorted, put, where_key};
ghost use Rattle.std.specs.Option.{option_copied, option_map};
ghost use Rattle.std.specs.Ordering.{is_eq};
ghost use Rattle.std.specs.Prelude.{◌≡◌, ◌≤◌, T, [], IfOk, filter, find as find_first, length, not, slice_get};
ghost use Rattle.lsr_facts.specs.Limits.{max_lsps};
ghost use Rattle.lsr_facts.specs.Orders.{key_cmp};
ghost use Rattle.lsr_facts.specs.Conflicts.{conflicts};
ghost use Rattle.lsr_facts.specs.Reservations.{expire_resvs, resv_lives_past};
ghost use Rattle.sorted_rows.specs.Edits.{edited};
ghost use Rattle.sorted_rows.specs.Rows.{keys_of};

use lsr_facts::limits::MAX_LSPS;
use lsr_facts::{Key, KeyNumber, ResvFact, ResvStyle, is_same_session, is_same_style};
use rsvp_objects::Session;
use slot_rows::{Probe, RowTest};
use sorted_rows::{Sweep, Table, TryCopy};
use std::alloc::{AllocError, Global};
use std::cmp::Ordering;
use std::marker::Model;
use timed_rows::{Timed, TimedTable};

/// What a router knows of the reservation of each LSP (RFC 2205, 2.3): at most 1,024 LSPs, in the order of their keys.
/// Contracts see the list of keys and facts.
#[derive(Debug, Drop)]
pub(crate) struct ResvState {
    rows: TimedTable<Key, ResvFact, Expiry, KeyNumber, MAX_LSPS>,
}

impl Model for ResvState {
    ghost use Rattle.std.specs.Prelude.{List};
    ghost use Rattle.lsr_facts.specs.declared.key.Key.{Key};
    ghost use Rattle.lsr_facts.specs.declared.resv_fact.ResvFact.{ResvFact};

    ghost Value = { List (Key × ResvFact) };

    ghost view = { λ s. s.rows.rows };
}

/// A reservation's moment is its expiry.
#[derive(Clone, Copy, Debug, Drop)]
struct Expiry;

impl Timed<ResvFact> for Expiry {
    ghost use Rattle.std.specs.Prelude.{Some};

    ghost at = { λ e fact. Some fact.expiry };

    fn at(&self, fact: &ResvFact) -> Option<u64> {
        Some(fact.expiry)
    }
}

/// The reservations that have not expired at a moment, in milliseconds.
#[derive(Drop)]
struct Survivors {
    moment: u64,
}

impl Sweep<Key, ResvFact> for Survivors {
    ghost use Rattle.lsr_facts.specs.Reservations.{resv_lives_past};

    ghost stays = { λ s resv. resv_lives_past s.moment resv.1 };

    ghost left = { λ s fact. fact };

    fn stays(&self, resv: &(Key, ResvFact)) -> bool {
        resv.1.lives_past(self.moment)
    }

    fn leave(&self, _fact: &mut ResvFact) {}
}

/// Whether a reservation is that of another LSP of the session, on the link, in the other style.
fn conflicts(link: u16, style: ResvStyle, key: &Key, resv: &(Key, ResvFact)) -> bool
    ensures { result ≡ conflicts link style key.now resv.now }
{
    is_same_session(&key.session, &resv.0.session)
        && key.cmp(&resv.0).is_ne()
        && resv.1.link == link
        && !is_same_style(style, resv.1.style)
}

/// The keys of a session.
#[derive(Drop)]
struct OfSession {
    session: Session,
}

impl Probe<Key> for OfSession {
    ghost use Rattle.lsr_facts.specs.Orders.{session_cmp};

    ghost compares = { λ s key. session_cmp key.session s.session };

    fn compare(&self, key: &Key) -> Ordering {
        key.session.cmp(&self.session)
    }
}

/// The reservations of other LSPs of a key's session, on a link, in the other style.
#[derive(Drop)]
struct Conflicting {
    link: u16,
    style: ResvStyle,
    key: Key,
}

impl RowTest<Key, ResvFact> for Conflicting {
    ghost use Rattle.lsr_facts.specs.Conflicts.{conflicts};

    ghost passes = { λ c. conflicts c.link c.style c.key };

    fn passes(&self, resv: &(Key, ResvFact)) -> bool {
        conflicts(self.link, self.style, &self.key, resv)
    }
}

impl ResvState {
    /// No reservations. It reserves the memory of all reservations that it may ever hold; the only error is that there
    /// is too little memory.
    pub(crate) fn new(alloc: Global) -> Result<ResvState, AllocError>
        ensures { IfOk result (λ state. state ≡ []) }
    {
        Ok(ResvState {
            rows: TimedTable::new(alloc, Expiry)?,
        })
    }

    /// How many LSPs have a reservation.
    pub(crate) fn len(&self) -> usize
        ensures { result ≡ length self.now }
    {
        self.rows.len()
    }

    /// The reservation at a place, in the order of the keys, from 0 on; `None` past the last.
    pub(crate) fn row(&self, place: usize) -> Option<&(Key, ResvFact)>
        ensures { option_copied result ≡ slice_get self.now place }
    {
        self.rows.row(place)
    }

    /// The keys rise, and there are at most 1,024 reservations. It does nothing when it runs.
    pub(crate) fn rows_are_in_order(&self)
        ensures sorted { T (is_sorted key_cmp self.now) }
        ensures few { length self.now ≤ max_lsps }
    {
        self.rows.rows_are_in_order();
    }

    /// The LSPs whose reservations expire at a moment, in milliseconds (RFC 2205, 2.3), in the order of their keys.
    /// The only error is out of memory.
    pub(crate) fn expiring(&self, alloc: Global, moment: u64) -> Result<Vec<Key>, AllocError>
        ensures { IfOk result (λ keys. keys.items ≡ keys_of (filter (λ resv. not (resv_lives_past moment resv.1)) self.now)) }
    {
        self.rows.come(alloc, moment)
    }

    /// How another LSP of the session is reserved on a link, where that is in the other style: the first of them.
    pub(crate) fn conflicting_style(
        &self,
        link: u16,
        style: ResvStyle,
        key: &Key,
    ) -> Option<ResvStyle>
        ensures { result ≡ option_map (λ other. other.1.style) (find_first (conflicts link style key.now) self.now) }
    {
        let session = OfSession {
            session: key.session,
        };
        let conflicting = Conflicting {
            link,
            style,
            key: *key,
        };

        // The reservations of a session stand together.
        match self.rows.find_in_run(&session, &conflicting) {
            Some(resv) => Some(resv.1.style),
            None => None,
        }
    }

    /// The reservations as a table of their own: a copy. The only error is out of memory.
    pub fn copied(&self, alloc: Global) -> Result<Table<Key, ResvFact>, AllocError>
        ensures { IfOk result (λ resvs. resvs ≡ self.now) }
    {
        self.rows.copied(alloc)
    }

    /// What is known of an LSP's reservation, or `None` where the LSP has none.
    pub(crate) fn get(&self, key: &Key) -> Option<&ResvFact>
        ensures { option_copied result ≡ find key_cmp key.now self.now }
    {
        self.rows.get(key)
    }

    /// This is known of an LSP's reservation from now on, in place of what was known. It asks that at most 1,024 LSPs
    /// have one then. Takes no memory.
    pub(crate) fn put(&mut self, key: Key, fact: ResvFact)
        requires { length (put key_cmp key fact self.old) ≤ max_lsps }
        ensures { self.new ≡ put key_cmp key fact self.old }
    {
        self.rows.set(key, fact);
    }

    /// An LSP has no reservation any more. Where it has none, nothing changes. Takes no memory.
    pub(crate) fn remove(&mut self, key: &Key)
        ensures { self.new ≡ where_key key_cmp (λ k. not (is_eq (key_cmp key.now k))) self.old }
    {
        self.rows.remove(key);
    }

    /// Makes edits: each LSP that they name has this reservation from now on, or none. It asks that at most 1,024 LSPs
    /// have one then. Takes no memory.
    pub(crate) fn edit(&mut self, edits: Table<Key, Option<ResvFact>>)
        requires { length (edited key_cmp edits self.old) ≤ max_lsps }
        ensures { self.new ≡ edited key_cmp edits self.old }
    {
        self.rows.edit(edits);
    }

    /// No LSP has a reservation any more. Takes no memory.
    pub(crate) fn clear(&mut self)
        ensures { self.new ≡ [] }
    {
        self.rows.clear();
    }

    /// Lets the wheel come up to this moment, in milliseconds, or to the first expiry before it: then
    /// [`ResvState::expiring`] has less to go over. Nothing changes.
    pub(crate) fn advance(&mut self, moment: u64)
        ensures { self.new ≡ self.old }
    {
        self.rows.advance(moment);
    }

    /// A moment comes, in milliseconds: each reservation goes whose expiry isn't above it (RFC 2205, 2.3). Takes no
    /// memory.
    pub(crate) fn expire(&mut self, moment: u64)
        ensures { self.new ≡ expire_resvs moment self.old }
    {
        self.rows.sweep(&Survivors { moment });
    }
}

impl TryCopy for ResvState {
    fn try_copy(&self, alloc: Global) -> Result<ResvState, AllocError> {
        Ok(ResvState {
            rows: self.rows.try_copy(alloc)?,
        })
    }
}
