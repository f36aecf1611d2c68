//! What holds of the facts whoever keeps them. Each law is the contract of a function that does nothing.

ghost use Rattle.std.specs.Cmp.{IsTotalOrder};
ghost use Rattle.std.specs.FinMap.Entries.{find, is_sorted};
ghost use Rattle.std.specs.Prelude.{◌≡◌, List, T};
ghost use Rattle.std.specs.declared.cmp.Ordering.TheVariants.{Equal};
ghost use Rattle.lsr_facts.specs.Errors as errors;
ghost use Rattle.lsr_facts.specs.Orders.{key_cmp, item_cmp, prefix_cmp};
ghost use Rattle.lsr_facts.specs.declared.facts.Facts.{Facts};
ghost use Rattle.lsr_facts.specs.declared.key.Key.{Key};
ghost use Rattle.lsr_facts.specs.declared.key.Item.{Item};
ghost use Rattle.lsr_facts.specs.declared.path_fact.PathFact.{PathFact};

use crate::errors::RsvpError;
use crate::key::{Item, Key};
use rsvp_contents::Prefix;

/// Keys stand in the order of endpoint, tunnel, extended tunnel ID, sender and LSP ID. It is total, and keys
/// that it doesn't tell apart are equal.
pub fn keys_are_in_order()
    ensures order { ⟦<Key as Ord>⟧.cmp ≡ key_cmp }
    ensures total { IsTotalOrder key_cmp }
    ensures exact { (a b : Key) → key_cmp a b ≡ Equal → a ≡ b }
{}

/// Items stand in the order of their kinds, then of key, and then of link or bypass. It is total, and items that it doesn't tell apart are equal.
pub fn items_are_in_order()
    ensures order { ⟦<Item as Ord>⟧.cmp ≡ item_cmp }
    ensures total { IsTotalOrder item_cmp }
    ensures exact { (a b : Item) → item_cmp a b ≡ Equal → a ≡ b }
{}

/// Prefixes stand in the order of address and length. It is total, and prefixes that it doesn't tell apart are
/// equal.
pub fn prefixes_are_in_order()
    ensures order { ⟦<Prefix as Ord>⟧.cmp ≡ prefix_cmp }
    ensures total { IsTotalOrder prefix_cmp }
    ensures exact { (a b : Prefix) → prefix_cmp a b ≡ Equal → a ≡ b }
{}

/// Facts of the same moment with the same lists are equal, where both are cold or both run.
pub fn same_lists_are_same_facts()
    ensures { (a b : Facts) → a.cold ≡ b.cold → a.moment ≡ b.moment →
        a.up ≡ b.up → a.routes ≡ b.routes → a.tunnels ≡ b.tunnels → a.bypasses ≡ b.bypasses → a.paths ≡ b.paths → a.sent ≡ b.sent → a ≡ b }
{}

/// Paths in order that answer each look-up alike are the same paths.
pub fn same_answers_are_same_paths()
    ensures { (a b : List (Key × PathFact)) →
        T (is_sorted key_cmp a) → T (is_sorted key_cmp b) →
        ((k : Key) → find key_cmp k a ≡ find key_cmp k b) → a ≡ b }
{}

/// The errors have the codes and values of the standards.
pub fn errors_have_their_numbers()
    ensures tspec { RsvpError.BAD_TSPEC ≡ errors.bad_tspec }
    ensures system { RsvpError.SYSTEM_ERROR ≡ errors.system_error }
    ensures route { RsvpError.BAD_EXPLICIT_ROUTE ≡ errors.bad_explicit_route }
    ensures strict { RsvpError.BAD_STRICT_NODE ≡ errors.bad_strict_node }
    ensures loose { RsvpError.BAD_LOOSE_NODE ≡ errors.bad_loose_node }
    ensures initial { RsvpError.BAD_INITIAL_SUBOBJECT ≡ errors.bad_initial_subobject }
    ensures none { RsvpError.NO_ROUTE ≡ errors.no_route }
    ensures round { RsvpError.ROUTING_LOOP ≡ errors.routing_loop }
    ensures l3pid { RsvpError.UNSUPPORTED_L3PID ≡ errors.unsupported_l3pid }
    ensures long { RsvpError.RECORD_TOO_LONG ≡ errors.record_too_long }
    ensures bandwidth { RsvpError.NO_BANDWIDTH ≡ errors.no_bandwidth }
    ensures no_path { RsvpError.NO_PATH ≡ errors.no_path }
    ensures sender { RsvpError.NO_SENDER ≡ errors.no_sender }
    ensures unknown_style { RsvpError.UNKNOWN_STYLE ≡ errors.unknown_style }
    ensures preempted { RsvpError.PREEMPTED ≡ errors.preempted }
    ensures service { RsvpError.UNSUPPORTED_SERVICE ≡ errors.unsupported_service }
    ensures flowspec { RsvpError.BAD_FLOWSPEC ≡ errors.bad_flowspec }
    ensures unacceptable { RsvpError.UNACCEPTABLE_LABEL ≡ errors.unacceptable_label }
    ensures no_label { RsvpError.NO_LABEL ≡ errors.no_label }
    ensures repaired { RsvpError.LOCALLY_REPAIRED ≡ errors.locally_repaired }
{}
