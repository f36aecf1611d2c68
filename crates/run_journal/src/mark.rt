//! What a port knows of its last entry.

ghost use Rattle.std.specs.Prelude.{◌≡◌};
ghost use Rattle.run_journal.specs.Marks.{is_same_mark};

/// The numbers of a port's last entry, all 0 where it had none yet.
#[derive(Clone, Copy, Debug, PartialEq, Eq)]
pub struct Mark {
    /// The number of the port, 1 to [`crate::MAX_PORTS`].
    pub port: u16,
    /// How many entries the port had.
    pub place: u64,
    /// The number of its last one among the entries of all ports.
    pub entry: u64,
    /// How many entries changed what is forwarded, up to that one.
    pub published: u64,
}

impl Mark {
    /// Whether all numbers of both are the same.
    pub(crate) fn is_same(self, other: Mark) -> bool
        ensures { result ≡ is_same_mark self other }
    {
        self.port == other.port
            && self.place == other.place
            && self.entry == other.entry
            && self.published == other.published
    }
}
