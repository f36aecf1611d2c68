use thiserror::Error;

/// What is wrong with a capture file.
#[derive(Clone, Copy, Debug, Error)]
pub enum Damage {
    /// The file ends within its header, or within the record or block that begins at the place of the fault.
    #[error("the file ends too early")]
    Short,
    /// The file begins with no magic number of a classic pcap or a pcapng file, or a section with none of a byte order.
    #[error("a magic number is unknown")]
    Magic,
    /// The major version isn't the one that is known: 2 of a classic pcap file, 1 of a section of a pcapng file.
    #[error("the version is unknown")]
    Version,
    /// A block's length is below 12, no multiple of 4 or not the one at its end, or too small for what it holds.
    #[error("a length is wrong")]
    Length,
    /// A packet is of an interface that its section hasn't described.
    #[error("its interface is unknown")]
    Interface,
    /// There is no memory for an interface. The file may be good: free some and read it again.
    #[error("out of memory")]
    Memory,
}

/// Where a capture file breaks, and how. What stands before that place could be read.
#[derive(Clone, Copy, Debug, Error)]
#[error("byte {at}: {damage}")]
pub struct CaptureFault {
    /// The offset in bytes of what is damaged: the file's header, a record or a block.
    pub at: usize,
    /// What is wrong with it.
    pub damage: Damage,
}
