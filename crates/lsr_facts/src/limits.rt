//! The most that one router keeps.

/// Links of a router.
pub const MAX_LINKS: usize = 16;
/// Static routes of a router.
pub const MAX_ROUTES: usize = 256;
/// Tunnels that begin at a router.
pub const MAX_TUNNELS: usize = 256;
/// Bypasses of a router.
pub const MAX_BYPASSES: usize = 64;
/// LSPs of a router.
pub const MAX_LSPS: usize = 1_024;
/// Origins of an LSP.
pub const MAX_ORIGINS: usize = 4;
/// Labels that a router gives out.
pub const MAX_LABELS: u32 = 4_096;
/// The greatest moment, in milliseconds: 2^62.
pub const MAX_MOMENT: u64 = 1 << 62;
/// The greatest limit on a link's reserved bandwidth, in bytes per second: 2^50.
pub const MAX_LIMIT: u64 = 1 << 50;
