//! What holds of the bytes of objects whoever reads or writes them. Each law is the contract of a
//! function that does nothing.

ghost use Rattle.std.specs.Prelude.{◌≡◌, ◌≤◌, ◌++◌, ℕ, List, length};
ghost use Rattle.rsvp_objects.specs.declared.object.Object.{Object};
ghost use Rattle.rsvp_objects.specs.Objects.{SpellsObject, spelling};

/// No bytes spell two objects, and no object's bytes begin another's. So what is written is read again
/// as the same object whatever stands after it, and a list of objects is cut in one way.
pub fn one_object()
    ensures { (first rest other behind : List ℕ) (a b : Object) →
        first ++ rest ≡ other ++ behind → SpellsObject first a → SpellsObject other b →
        (first ≡ other) × (a ≡ b) }
{}

/// An object is written in at most as many bytes as it was read from: all are kept but needless padding.
pub fn written_no_longer()
    ensures { (bytes : List ℕ) (object : Object) →
        SpellsObject bytes object → length (spelling object) ≤ length bytes }
{}
