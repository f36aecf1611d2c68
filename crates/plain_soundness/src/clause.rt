use std::fmt;

/// A clause of what always holds of a router (docs/ROUTER.md, "What always holds").
#[derive(Clone, Copy, Debug, PartialEq, Eq)]
pub enum Clause {
    /// Links, static routes, time, tunnels, bypasses and paths are as they should be.
    Paths,
    /// Reservations are as they should be, and within the limits of their links.
    Held,
    /// Each reservation stands on its path.
    Standing,
    /// Repairs are as they should be, and no LSP is both reserved and repaired.
    Repaired,
    /// Each repair stands on its path and on a bypass that is up.
    RepairsStanding,
    /// Exactly the LSPs that don't begin here have labels, each its own.
    Labels,
    /// Promises are within the capacities of bypasses, and held by LSPs that may have them.
    Assigned,
    /// The labels that rest are held by no LSP.
    Resting,
    /// Of exactly the Paths that are wanted it is known when they were sent last.
    Sent,
    /// And of exactly the Resvs.
    SentUpstream,
}

impl fmt::Display for Clause {
    /// The name that the clause has in docs/ROUTER.md.
    fn fmt<W: fmt::Write>(&self, f: &mut fmt::Formatter<W>) -> fmt::Result {
        f.write_str(match self {
            Clause::Paths => "paths",
            Clause::Held => "held",
            Clause::Standing => "standing",
            Clause::Repaired => "repaired",
            Clause::RepairsStanding => "repairs_standing",
            Clause::Labels => "labels",
            Clause::Assigned => "assigned",
            Clause::Resting => "resting",
            Clause::Sent => "sent",
            Clause::SentUpstream => "sent_upstream",
        })
    }
}
