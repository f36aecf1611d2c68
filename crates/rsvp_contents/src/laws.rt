//! What holds of messages whoever reads or writes them. Each law is the contract of a function that does
//! nothing.

ghost use Rattle.std.specs.Prelude.{◌≡◌, ◌↔◌, ◌⊎◌, IsTrue, ℕ, List};
ghost use Rattle.std.specs.List.{All};
ghost use Rattle.rsvp_objects.specs.Objects.{SpellsObject, spelling};
ghost use Rattle.rsvp_contents.specs.declared.dropped.Dropped.{Dropped};
ghost use Rattle.rsvp_contents.specs.declared.messages.Content.{Content};
ghost use Rattle.rsvp_contents.specs.declared.message.Reading.{Reading};
ghost use Rattle.rsvp_contents.specs.declared.message.Reading.TheVariants.{Unknown, Whole};
ghost use Rattle.rsvp_contents.specs.Addresses.{are_addressed};
ghost use Rattle.rsvp_contents.specs.Fitting.{fits_content};
ghost use Rattle.rsvp_contents.specs.Picking.{content_in};
ghost use Rattle.rsvp_contents.specs.Written.{objects_of, message_bytes, type_of};
ghost use Rattle.rsvp_contents.specs.Spelling.{IsFirstFault, IsMessage, SpellsReading};

/// What is read is a message: it can be written in at most 4,096 bytes, and its objects are read again as
/// the same content.
pub fn what_is_read_is_a_message()
    ensures whole { (bytes : List ℕ) (content : Content) → SpellsReading bytes (Whole content) → IsMessage content }
    ensures unknown { (bytes : List ℕ) (content : Content) (class ctype : ℕ) → SpellsReading bytes (Unknown content class ctype) → IsMessage content }
{}

/// Every address that was read is four octets.
pub fn what_is_read_is_addressed()
    ensures { (bytes : List ℕ) (reading : Reading) → SpellsReading bytes reading → IsTrue (are_addressed (content_in reading)) }
{}

/// A reading with an object that its type doesn't know is a Path, type 1, or a Resv, type 2.
pub fn what_is_unknown_is_a_path_or_a_resv()
    ensures { (bytes : List ℕ) (content : Content) (class ctype : ℕ) → SpellsReading bytes (Unknown content class ctype) → (type_of content ≡ 1) ⊎ (type_of content ≡ 2) }
{}

/// No bytes spell two readings, none have two first faults, and none that spell a reading have a fault.
pub fn one_reading()
    ensures reading { (bytes : List ℕ) (a b : Reading) → SpellsReading bytes a → SpellsReading bytes b → a ≡ b }
    ensures fault { (bytes : List ℕ) (f g : Dropped) → IsFirstFault bytes f → IsFirstFault bytes g → f ≡ g }
    ensures not_both { (bytes : List ℕ) (reading : Reading) (f : Dropped) → SpellsReading bytes reading → IsFirstFault bytes f → ⊥ }
{}

/// What a message is written as spells it whole.
pub fn what_is_written_spells()
    ensures { (content : Content) → IsMessage content → All (λ o. SpellsObject (spelling o) o) (objects_of content) → SpellsReading (message_bytes content) (Whole content) }
{}

/// Content is a message exactly where it fits: it is written in at most 4,096 bytes; the route, the record
/// and what is passed on are within their limits; and that is what a reader passes on, an ADSPEC last and
/// at most one object of class FAST_REROUTE with the Path's own.
pub fn what_fits_is_a_message()
    ensures { (content : Content) → IsMessage content ↔ IsTrue (fits_content content) }
{}
