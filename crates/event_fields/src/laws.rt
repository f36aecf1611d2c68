//! What holds of the bytes of all events: laws, each the contract of a function that changes nothing.

ghost use Rattle.std.specs.Prelude.{◌≡◌, List, ℕ};
ghost use Rattle.abstract_paths.specs.Events.{IsEvent};
ghost use Rattle.abstract_paths.specs.declared.events.Event.{Event};
ghost use Rattle.journal_bytes.specs.Events.{IsWrittenAgain, event_bytes};
ghost use Rattle.event_fields.specs.Spelled.{SpellsEvent};

use crate::unread::EventField;
use field_bytes::bytes_tell_apart;

/// No bytes spell two events.
pub fn one_event()
    ensures { (bytes : List ℕ) (a b : Event) → SpellsEvent bytes a → SpellsEvent bytes b → a ≡ b }
{
    bytes_tell_apart::<EventField>();
}

/// What this router writes of an event spells it, where its message is read again as it is written.
pub fn written_spells()
    ensures { (event : Event) → IsEvent event → IsWrittenAgain event → SpellsEvent (event_bytes event) event }
{}
