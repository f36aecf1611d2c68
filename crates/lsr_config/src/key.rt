// The keys of a configuration.
ghost use Rattle.std.specs.Prelude.{◌≡◌};
ghost use Rattle.lsr_config.specs.Keys.{key_name};

use std::fmt;

/// A key that a configuration may have. Each stands in one kind of table, but four: `number` in links, in tunnels and
/// in bypasses, and `link`, `route` and `tunnel`, which are names of tables too.
#[derive(Clone, Copy, Debug, PartialEq, Eq)]
pub enum Key {
    /// `router`, the router id.
    Router,
    /// `refresh_ms`, how often the router refreshes its state, in milliseconds.
    RefreshMs,
    /// `labels`, the first and the last label that the router gives out.
    Labels,
    /// `label_rest_ms`, how long a label rests once it is free, before it is given out again, in milliseconds.
    LabelRestMs,
    /// `link`, the table of the links, the link of a route, and the one that a bypass protects.
    Link,
    /// `number`, the number of a link, of a tunnel or of a bypass.
    Number,
    /// `address`, the router's own address on a link.
    Address,
    /// `peer`, the neighbour's address on a link.
    Peer,
    /// `peer_router`, the neighbour's router id.
    PeerRouter,
    /// `limit`, the most bandwidth that is reserved on a link, in bytes per second.
    Limit,
    /// `up`, whether a link is up when the router is opened.
    Up,
    /// `listen`, the socket address at which a link's datagrams arrive.
    Listen,
    /// `send`, the socket address to which a link's datagrams go.
    Send,
    /// `route`, the table of the static routes, and the route that a tunnel's LSPs are to take.
    Route,
    /// `prefix`, the addresses of a route.
    Prefix,
    /// `tunnel`, the table of the tunnels, and the tunnel in which a bypass runs.
    Tunnel,
    /// `endpoint`, where a tunnel ends.
    Endpoint,
    /// `rate`, the traffic that a tunnel is to carry.
    Rate,
    /// `setup`, the priority with which a tunnel's LSPs are set up.
    Setup,
    /// `hold`, the priority with which they are held.
    Hold,
    /// `flags`, what they ask for.
    Flags,
    /// `name`, the name of a tunnel's LSPs.
    Name,
    /// `bypass`, the table of the bypasses.
    Bypass,
    /// `capacity`, the bandwidth that a bypass has for repairs, in bytes per second.
    Capacity,
}

impl Key {
    /// The key as a configuration spells it.
    pub fn name(self) -> &'static str
        ensures { result.now ≡ key_name self }
    {
        match self {
            Key::Router => "router",
            Key::RefreshMs => "refresh_ms",
            Key::Labels => "labels",
            Key::LabelRestMs => "label_rest_ms",
            Key::Link => "link",
            Key::Number => "number",
            Key::Address => "address",
            Key::Peer => "peer",
            Key::PeerRouter => "peer_router",
            Key::Limit => "limit",
            Key::Up => "up",
            Key::Listen => "listen",
            Key::Send => "send",
            Key::Route => "route",
            Key::Prefix => "prefix",
            Key::Tunnel => "tunnel",
            Key::Endpoint => "endpoint",
            Key::Rate => "rate",
            Key::Setup => "setup",
            Key::Hold => "hold",
            Key::Flags => "flags",
            Key::Name => "name",
            Key::Bypass => "bypass",
            Key::Capacity => "capacity",
        }
    }
}

impl fmt::Display for Key {
    fn fmt<W: fmt::Write>(&self, f: &mut fmt::Formatter<W>) -> fmt::Result {
        f.write_str(self.name())
    }
}
