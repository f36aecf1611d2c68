//! What holds of attributes whoever reads or writes them.

ghost use Rattle.std.specs.Prelude.{◌≡◌, ◌↔◌, IsTrue};
ghost use Rattle.rsvp_bodies.specs.declared.attr.Attr.{Attr};

/// Attributes compare as equal exactly where they are the same.
pub fn equal_attributes_are_same()
    ensures { (a b : Attr) → (IsTrue (⟦<crate::Attr as PartialEq>⟧.eq a b) ↔ (a ≡ b)) }
{}
