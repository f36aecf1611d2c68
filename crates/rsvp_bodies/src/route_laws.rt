//! What is true of every route, whatever bytes spell it: functions that do nothing, with the law as their
//! contract.

ghost use Rattle.std.specs.Prelude.{◌≡◌, ◌++◌, ◌↔◌, IsTrue, List, ℕ};
ghost use Rattle.rsvp_bodies.specs.Subobjects.{IsSubobject};
ghost use Rattle.rsvp_bodies.specs.Steps.{SpellsRoute};
ghost use Rattle.rsvp_bodies.specs.Traces.{SpellsRecord};
ghost use Rattle.rsvp_bodies.specs.declared.prefix.Prefix.{Prefix};
ghost use Rattle.rsvp_bodies.specs.declared.step.Step.{Step};
ghost use Rattle.rsvp_bodies.specs.declared.trace.Trace.{Trace};

/// No bytes spell two explicit routes.
pub fn one_route()
    ensures { (bytes : List ℕ) (a b : List Step) → SpellsRoute bytes a → SpellsRoute bytes b → a ≡ b }
{}

/// No bytes spell two recorded routes.
pub fn one_record()
    ensures { (bytes : List ℕ) (a b : List Trace) → SpellsRecord bytes a → SpellsRecord bytes b → a ≡ b }
{}

/// No subobject begins another, so bytes are cut into subobjects in one way.
pub fn one_subobject()
    ensures { (a b rest others : List ℕ) → a ++ rest ≡ b ++ others → IsSubobject a → IsSubobject b → a ≡ b }
{}

/// Prefixes, steps and entries compare as equal exactly where they are the same.
pub fn equal_is_same()
    ensures prefix { (a b : Prefix) → (IsTrue (⟦<crate::Prefix as PartialEq>⟧.eq a b) ↔ (a ≡ b)) }
    ensures step { (a b : Step) → (IsTrue (⟦<crate::Step as PartialEq>⟧.eq a b) ↔ (a ≡ b)) }
    ensures trace { (a b : Trace) → (IsTrue (⟦<crate::Trace as PartialEq>⟧.eq a b) ↔ (a ≡ b)) }
{}
