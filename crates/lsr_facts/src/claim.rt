use crate::Key;
use crate::resv_fact::ResvStyle;

/// What an LSP takes of a link's bandwidth.
#[derive(Clone, Copy, Debug, PartialEq, Eq)]
pub struct Claim {
    /// Bytes per second, at most 2^50.
    pub rate: u64,
    /// The number of the link.
    pub link: u16,
    /// Whether the LSPs of its session share it.
    pub style: ResvStyle,
    /// The priority at which it is kept, 0 (best) to 7.
    pub holding: u8,
}

/// What an LSP asks for: this claim, in place of the one that it has, if it has one.
#[derive(Clone, Copy, Debug, PartialEq, Eq)]
pub struct Request {
    /// The LSP.
    pub key: Key,
    /// What it asks for.
    pub claim: Claim,
    /// The priority at which it takes bandwidth from others, 0 (best) to 7.
    pub setup: u8,
}
