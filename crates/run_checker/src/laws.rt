//! What holds of entries, whoever checks them. Each law is the contract of a function that does nothing.

ghost use Rattle.std.specs.Prelude.{◌≡◌, List};
ghost use Rattle.lsr_facts.specs.declared.router.Router.{Router};
ghost use Rattle.abstract_paths.specs.declared.events.Made.{Made};
ghost use Rattle.abstract_router.specs.Soundness.{IsSound};
ghost use Rattle.abstract_router.specs.States.{State};
ghost use Rattle.abstract_router.specs.Steps.{Run, Step};
ghost use Rattle.journal_bytes.specs.Entries.{IsEntryOf};
ghost use Rattle.journal_bytes.specs.Events.{IsWrittenAgain};
ghost use Rattle.journal_bytes.specs.declared.entry.Entry.{Entry};
ghost use Rattle.run_checker.specs.Faulty.{IsFaultless, IsWrong};
ghost use Rattle.run_checker.specs.Recorded.{AreKept, AreRecorded, IsRecorded};
ghost use Rattle.run_checker.specs.declared.fault.EntryFault.{EntryFault};

/// What a journal keeps of a run records it: each entry its step, where the step's message is read again as it is written. So a run that
/// is kept from a sound base is never refused.
pub fn journal_entries_are_recorded()
    ensures step { (r : Router) (before after : State) (made : Made) (e : Entry) →
        Step r before made after → IsEntryOf made e → IsWrittenAgain made.event → IsRecorded r before e after }
    ensures run { (r : Router) (before after : State) (made : List Made) (entries : List Entry) →
        Run r before made after → AreKept made entries → AreRecorded r before entries after }
{}

/// An entry records one step at most.
pub fn one_step_is_recorded()
    ensures { (r : Router) (before a b : State) (e : Entry) → IsRecorded r before e a → IsRecorded r before e b → a ≡ b }
{}

/// An entry with which something is wrong records no step.
pub fn wrong_entries_record_nothing()
    ensures { (r : Router) (before after : State) (e : Entry) (fault : EntryFault) →
        IsWrong fault r before e → IsRecorded r before e after → ⊥ }
{}

/// A check of a run from a sound base tells of no fault, but that memory ran out.
pub fn runs_are_faultless()
    ensures { (r : Router) (base end : State) (entries : List Entry) → IsSound r base → AreRecorded r base entries end → IsFaultless r base entries }
{}
