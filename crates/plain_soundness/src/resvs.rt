//! Reservations and repairs, each by itself, and of one style for a session on a link.

ghost use Rattle.std.specs.Prelude.{◌≡◌, ◌↔◌, IsTrue};
ghost use Rattle.lsr_facts.specs.declared.key.Key.{Key};
ghost use Rattle.abstract_router.specs.Soundness.{AreOfOneStyle, AreRepaired, IsResv};

use crate::checks::{Check, holds_of_all};
use crate::paths::has_short_record;
use forwarding_table::is_label;
use lsr_facts::{Key, Repair, ResvFact, State, is_same_session, is_same_style};
use rsvp_contents::limits::is_short_passing;
use rsvp_contents::numbers::TYPE_RESV;
use rsvp_contents::{are_passed_by, has_adspec_last};
use sorted_rows::Table;

/// Whether what a reservation says of itself is as it should be at a moment, in milliseconds.
fn is_resv(moment: u64, resv: &ResvFact) -> bool
    ensures { (key : Key) → IsTrue result ↔ IsResv moment (key, resv.now) }
{
    let passing = resv.passing.as_slice();
    resv.flowspec.rate().is_ok()
        && is_label(resv.label)
        && moment <= resv.expiry
        && has_short_record(&resv.recorded)
        && is_short_passing(&resv.passing)
        && are_passed_by(TYPE_RESV, passing)
        && has_adspec_last(passing)
}

/// A reservation as it should be at a moment, in milliseconds.
#[derive(Drop)]
pub(crate) struct ResvCheck {
    pub(crate) moment: u64,
}

impl Check<(Key, ResvFact)> for ResvCheck {
    ghost use Rattle.abstract_router.specs.Soundness.{IsResv};

    ghost Holds = { λ c resv. IsResv c.moment resv };

    fn holds(&self, resv: &(Key, ResvFact)) -> bool {
        is_resv(self.moment, &resv.1)
    }
}

/// A reservation that is of one style with another one, where both are of one session on one link.
#[derive(Drop)]
struct StyleCheck<'a> {
    resv: &'a (Key, ResvFact),
}

impl Check<(Key, ResvFact)> for StyleCheck<'_> {
    ghost use Rattle.plain_soundness.specs.Styles.{ArePairOfOneStyle};

    ghost Holds = { λ c other. ArePairOfOneStyle c.resv.now other };

    fn holds(&self, other: &(Key, ResvFact)) -> bool {
        self.resv.1.link != other.1.link
            || !is_same_session(&self.resv.0.session, &other.0.session)
            || is_same_style(self.resv.1.style, other.1.style)
    }
}

/// A reservation that is of one style with each of these of its session and link.
#[derive(Drop)]
struct StylesCheck<'a> {
    resvs: &'a [(Key, ResvFact)],
}

impl Check<(Key, ResvFact)> for StylesCheck<'_> {
    ghost use Rattle.std.specs.List.{AllByRecursion};
    ghost use Rattle.plain_soundness.specs.Styles.{ArePairOfOneStyle};

    ghost Holds = { λ c resv. AllByRecursion (ArePairOfOneStyle resv) c.resvs.now };

    fn holds(&self, resv: &(Key, ResvFact)) -> bool {
        holds_of_all(&StyleCheck { resv }, self.resvs)
    }
}

/// Whether the LSPs of one session on one link are reserved in one style (RFC 2205, 1.3).
pub(crate) fn are_of_one_style(resvs: &Table<Key, ResvFact>) -> bool
    ensures { IsTrue result ↔ AreOfOneStyle resvs.now }
{
    let rows = resvs.as_slice();
    holds_of_all(&StylesCheck { resvs: rows }, rows)
}

/// A repair that keeps a reservation as it should be at a moment, in milliseconds.
#[derive(Drop)]
struct KeptCheck {
    moment: u64,
}

impl Check<(Key, Repair)> for KeptCheck {
    ghost use Rattle.abstract_router.specs.Soundness.{IsResv};

    ghost Holds = { λ c repair. IsResv c.moment (repair.0, repair.1.resv) };

    fn holds(&self, repair: &(Key, Repair)) -> bool {
        is_resv(self.moment, &repair.1.resv)
    }
}

/// A repair of an LSP that isn't reserved.
#[derive(Drop)]
struct UnreservedCheck<'a> {
    resvs: &'a Table<Key, ResvFact>,
}

impl Check<(Key, Repair)> for UnreservedCheck<'_> {
    ghost use Rattle.std.specs.FinMap.Entries.{find};
    ghost use Rattle.std.specs.Prelude.{◌≡◌, None};
    ghost use Rattle.lsr_facts.specs.Orders.{key_cmp};

    ghost Holds = { λ c repair. find key_cmp repair.0 c.resvs.now ≡ None };

    fn holds(&self, repair: &(Key, Repair)) -> bool {
        self.resvs.get(&repair.0).is_none()
    }
}

/// Whether repairs are as they should be.
pub(crate) fn are_repaired(state: &State) -> bool
    ensures { IsTrue result ↔ AreRepaired state.now }
{
    let moment = state.facts.moment;
    let resvs = &state.resvs;
    let repairs = state.repairs.as_slice();
    holds_of_all(&KeptCheck { moment }, repairs)
        && holds_of_all(&UnreservedCheck { resvs }, repairs)
}
