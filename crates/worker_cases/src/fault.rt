//! Why a case or a measure gives nothing.

use std::alloc::AllocError;
use std::io;
use thiserror::Error;

/// Why there is no answer, and what to do about it.
#[derive(Clone, Copy, Debug, Error)]
pub enum Fault {
    /// There is too little memory.
    #[error("out of memory: give it more memory, or a smaller N")]
    Memory,
    /// There is no place for a reader of the label table.
    #[error("no place for a reader of the label table: end other runs of this program, and run it again")]
    Reader,
    /// The sockets of the link of this number can't be had.
    #[error("link {0}: its sockets can't be had: see that UDP ports of 127.0.0.1 are free, and run it again")]
    Socket(u16),
    /// A neighbour waited for a minute, or its socket failed.
    #[error("a neighbour couldn't send all: give a smaller N, or run it again when the machine does less")]
    NotSent,
    /// A label that was published wasn't found.
    #[error("a label that was published wasn't found: tell the developers the words that you ran")]
    NotFound,
    /// A frame wasn't taken.
    #[error("the router didn't take a frame that it should have: tell the developers the words that you ran")]
    NotTaken,
    /// The system failed: its clock can't be read, it has no socket, or what is told can't be printed.
    #[error("the clock can't be read, no socket can be had, or standard output can't be written: see that its reader is there, and run it again")]
    System,
}

impl From<AllocError> for Fault {
    fn from(_: AllocError) -> Fault {
        Fault::Memory
    }
}

impl From<io::Error> for Fault {
    fn from(_: io::Error) -> Fault {
        Fault::System
    }
}
