//! How a console answers.

use lsr_config::LinkSockets;
use sorted_rows::Table;

/// How a console answers.
#[derive(Drop)]
pub struct Manner {
    /// Whether what is sent for a line is printed, too.
    pub echo: bool,
    /// Whether an end mark stands after each answer, by which a program sees where the answer ends: a line with a full stop alone.
    pub marks: bool,
    /// The socket addresses of the router's links, by the links' numbers.
    pub sockets: Table<u16, LinkSockets>,
    /// What `show counters` says after the ports: the router's files that aren't written, if any.
    pub unwritten: String,
}
