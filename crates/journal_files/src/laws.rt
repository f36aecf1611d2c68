//! What holds of all files: laws, each the contract of a function that changes nothing.

ghost use Rattle.std.specs.Prelude.{◌≡◌, List, ℕ};
ghost use Rattle.abstract_paths.specs.Soundness.{IsStanding};
ghost use Rattle.lsr_facts.specs.declared.router.Router.{Router};
ghost use Rattle.lsr_facts.specs.declared.state.State.{State};
ghost use Rattle.journal_files.specs.Fitting.{FormatFits};
ghost use Rattle.journal_files.specs.Pending.{ArePendingTold};
ghost use Rattle.journal_files.specs.Recordings.{IsRecording, SpellsFile, file_bytes, stored};
ghost use Rattle.journal_files.specs.Formats.{format_bytes};
ghost use Rattle.journal_files.specs.declared.formats.FileFormat.{FileFormat};
ghost use Rattle.journal_files.specs.declared.recordings.Recording.{Recording};

use crate::formats::{FirstBody, SecondBody, ThirdBody};
use field_bytes::bytes_tell_apart;

/// In what stands, the paths of LSPs that are to take the place of others say of them what their tunnels say: so a file, which has their
/// IDs alone, tells them whole.
pub fn standing_routers_are_told()
    ensures { (r : Router) (s : State) → IsStanding r s.facts → ArePendingTold r s }
{}

/// The file that a format has of a recording which it can hold spells the recording.
pub fn files_spell_recordings()
    ensures { (format : FileFormat) (r : Recording) → IsRecording format r → FormatFits format (stored r)
        → SpellsFile (file_bytes format (format_bytes format (stored r))) r }
{}

/// No file spells two recordings: so what is written is read back.
pub fn files_spell_one_recording()
    ensures { (bytes : List ℕ) (a b : Recording) → SpellsFile bytes a → SpellsFile bytes b → a ≡ b }
{
    bytes_tell_apart::<FirstBody>();
    bytes_tell_apart::<SecondBody>();
    bytes_tell_apart::<ThirdBody>();
}
