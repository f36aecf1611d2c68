//! Entries, as the numbers of a journal count them.

use journal_bytes::Entry;

/// An entry of the journal, and what is counted of it beside.
#[derive(Debug, Drop)]
pub struct CountedEntry {
    /// The entry. Its port is one of 1 to [`crate::MAX_PORTS`].
    pub entry: Entry,
    /// Whether what is forwarded changed: the action of a label, or of a tunnel.
    pub changes_table: bool,
}
