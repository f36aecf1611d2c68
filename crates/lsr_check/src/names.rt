ghost use Rattle.std.specs.Prelude.{◌≡◌};
ghost use Rattle.lsr_check.specs.Names.{clause_name};

use plain_soundness::Clause;

/// The name of a clause of soundness, as docs/ROUTER.md has it.
pub(crate) fn clause_name(clause: Clause) -> &'static str
    ensures { result.now ≡ clause_name clause }
{
    match clause {
        Clause::Paths => "paths",
        Clause::Held => "held",
        Clause::Standing => "standing",
        Clause::Repaired => "repaired",
        Clause::RepairsStanding => "repairs_standing",
        Clause::Labels => "labels",
        Clause::Assigned => "assigned",
        Clause::Resting => "resting",
        Clause::Sent => "sent",
        Clause::SentUpstream => "sent_upstream",
    }
}
