use std::net::SocketAddr;

/// The socket addresses of a link.
#[derive(Clone, Copy, PartialEq, Eq)]
pub struct LinkSockets {
    /// The address at which its frames come in.
    pub listen: SocketAddr,
    /// The address to which they go.
    pub send: SocketAddr,
}
