//! What holds of segments, whoever checks them. Each law is the contract of a function that changes nothing.
ghost use Rattle.std.specs.Prelude.{◌≡◌, List, ℕ};
ghost use Rattle.abstract_router.specs.Soundness.{IsSound};
ghost use Rattle.journal_files.specs.Recordings.{SpellsFile};
ghost use Rattle.journal_files.specs.declared.recordings.Recording.{Recording};
ghost use Rattle.lsr_config.specs.Configs.{Setup};
ghost use Rattle.run_checker.specs.Faulty.{IsFaultless};
ghost use Rattle.run_checker.specs.Recorded.{AreRecorded};
ghost use Rattle.run_journal.specs.Journals.{IsSegment, Stretch};
ghost use Rattle.lsr_journal.specs.Segments.{SpellsSegment, entries_of};

use journal_files::laws::files_spell_one_recording;

/// What a journal hands out is a run for whoever trusts nobody: its base is sound, and its entries record a run from there to its end. So
/// a check of them ends there, and tells of no fault, but that memory ran out.
pub fn segments_are_faultless()
    ensures sound { (s : Stretch) → IsSegment s → IsSound s.router s.base }
    ensures run { (s : Stretch) → IsSegment s → AreRecorded s.router s.base (entries_of s) s.end }
    ensures faultless { (s : Stretch) → IsSegment s → IsFaultless s.router s.base (entries_of s) }
{}

/// So it is with the file of a segment, whoever reads it. What a check says of such a file is that it is damaged, or that there is a bug in what no proof
/// speaks of.
pub fn files_of_segments_are_faultless()
    ensures { (bytes text : List ℕ) (config : Setup) (s : Stretch) (read : Recording) → IsSegment s → s.router ≡ config.router →
        SpellsSegment bytes text config s → SpellsFile bytes read → IsFaultless read.config.router read.base read.entries }
{
    files_spell_one_recording();
}
