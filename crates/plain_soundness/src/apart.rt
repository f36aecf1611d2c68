//! Paths, two by two: a message that comes through a stack of labels is of one of them at most.

ghost use Rattle.std.specs.Prelude.{◌≡◌, ◌↔◌, IsTrue};
ghost use Rattle.lsr_facts.specs.declared.key.Key.{Key};
ghost use Rattle.lsr_facts.specs.declared.path_fact.PathFact.{PathFact};
ghost use Rattle.abstract_paths.specs.Soundness.{AreApart, ArePaths};
ghost use Rattle.plain_soundness.specs.Apart.{ArePairApart, IsNoStackOf};

use crate::checks::{Check, holds_of_all};
use crate::paths::PathCheck;
use lsr_facts::limits::MAX_LSPS;
use lsr_facts::{Key, Origin, PathFact, Router};
use message_rules::{came_through, is_stack, under};
use sorted_rows::Table;
use std::net::Ipv4Addr;

/// An origin of an LSP's path whose Paths don't come through a stack, or are none of another path's.
#[derive(Drop)]
struct StackCheck<'a> {
    key: &'a Key,
    other: &'a (Key, PathFact),
}

impl Check<(Ipv4Addr, Origin)> for StackCheck<'_> {
    ghost use Rattle.plain_soundness.specs.Apart.{IsNoStackOf};

    ghost Holds = { λ c origin. IsNoStackOf c.key.now c.other.now origin };

    fn holds(&self, origin: &(Ipv4Addr, Origin)) -> bool {
        !is_stack(origin.1.via) || !came_through(&under(origin.0, *self.key), self.other)
    }
}

/// An origin whose Paths don't come through a stack.
#[derive(Drop)]
struct HopCheck;

impl Check<(Ipv4Addr, Origin)> for HopCheck {
    ghost use Rattle.std.specs.Prelude.{◌≡◌, false};
    ghost use Rattle.abstract_paths.specs.Merging.{is_stack};

    ghost Holds = { λ c origin. is_stack origin.1.via ≡ false };

    fn holds(&self, origin: &(Ipv4Addr, Origin)) -> bool {
        !is_stack(origin.1.via)
    }
}

/// Whether no Paths of an LSP come through stacks: then no message that comes so is of its path.
fn has_no_stack(path: &(Key, PathFact)) -> bool
    ensures { IsTrue result → (other : Key × PathFact) → ArePairApart path.now other }
{
    holds_of_all(&HopCheck, path.1.origins.as_slice())
}

/// Another path than this one, or the same; no message that comes through a stack is of both, where they are two.
#[derive(Drop)]
struct PairCheck<'a> {
    path: &'a (Key, PathFact),
}

impl Check<(Key, PathFact)> for PairCheck<'_> {
    ghost use Rattle.plain_soundness.specs.Apart.{ArePairApart};

    ghost Holds = { λ c other. ArePairApart c.path.now other };

    fn holds(&self, other: &(Key, PathFact)) -> bool {
        if self.path.0.cmp(&other.0).is_eq() {
            return true;
        }
        let check = StackCheck {
            key: &self.path.0,
            other,
        };
        holds_of_all(&check, self.path.1.origins.as_slice())
    }
}

/// A path that is apart from each of these.
#[derive(Drop)]
struct ApartCheck<'a> {
    paths: &'a [(Key, PathFact)],
}

impl Check<(Key, PathFact)> for ApartCheck<'_> {
    ghost use Rattle.std.specs.List.{AllByRecursion};
    ghost use Rattle.plain_soundness.specs.Apart.{ArePairApart};

    ghost Holds = { λ c path. AllByRecursion (ArePairApart path) c.paths.now };

    fn holds(&self, path: &(Key, PathFact)) -> bool {
        has_no_stack(path) || holds_of_all(&PairCheck { path }, self.paths)
    }
}

/// Whether a message that comes through a stack of labels is of one path at most.
fn are_apart(paths: &Table<Key, PathFact>) -> bool
    ensures { IsTrue result ↔ AreApart paths.now }
{
    let rows = paths.as_slice();
    holds_of_all(&ApartCheck { paths: rows }, rows)
}

/// Whether these are paths of a router at a moment, in milliseconds: at most 1,024.
pub(crate) fn are_paths(router: &Router, moment: u64, paths: &Table<Key, PathFact>) -> bool
    ensures { IsTrue result ↔ ArePaths router.now moment paths.now }
{
    let rows = paths.as_slice();
    rows.len() <= MAX_LSPS && holds_of_all(&PathCheck { router, moment }, rows) && are_apart(paths)
}
