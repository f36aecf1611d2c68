ghost use Rattle.lsr_config.specs.Reading.{IsRead};
ghost use Rattle.lsr_config.specs.declared.config.TheConstants.{BUILT_IN};

use crate::document::read_document;
use crate::fault::ConfigFault;
use lsr_facts::{Bypass, Router, Tunnel};
use rsvp_bodies::Prefix;
use sorted_rows::Table;
use std::alloc::Global;
use std::marker::Model;
use toml::Value;

/// The built-in router, as an operator would write it.
pub const BUILT_IN: &str = r#"router = "10.0.0.2"
refresh_ms = 30000
labels = [16, 4111]

[[link]]
number = 1
address = "10.1.0.2"
peer = "10.1.0.1"
peer_router = "10.0.0.1"
limit = 1250000

[[link]]
number = 2
address = "10.2.0.2"
peer = "10.2.0.3"
peer_router = "10.0.0.3"
limit = 1250000

[[route]]
prefix = "10.0.0.4/32"
link = 2
"#;

/// What an operator configures. A router can be opened with each that there is.
#[derive(Debug, Drop)]
pub struct Config {
    /// The router.
    pub router: Router,
    /// The static routes: the number of the link to each prefix.
    pub routes: Table<Prefix, u16>,
    /// The tunnels that begin at the router, by their numbers, each with its first LSP.
    pub tunnels: Table<u16, Tunnel>,
    /// The bypasses of the router's links, by their numbers.
    pub bypasses: Table<u16, Bypass>,
}

impl Model for Config {
    ghost use Rattle.lsr_config.specs.Configs.{IsConfig, Setup, setup};

    ghost Value = { Setup };

    ghost view = { λ c. setup c.router c.routes c.tunnels c.bypasses };

    ghost invariant = { λ c. IsConfig (setup c.router c.routes c.tunnels c.bypasses) };
}

impl Config {
    ghost use Rattle.lsr_config.specs.Configs.{IsConfig};

    /// Reads the text of a configuration. The text is TOML, with the keys that [`Key`](crate::Key) lists.
    ///
    /// The fault is that of the first rule that the text breaks: [`ConfigFault::Text`] where it isn't TOML, and then
    /// by tables (the router's keys, `link`, `route`, `tunnel`, `bypass`), records by their place, keys in the order of
    /// [`Key`](crate::Key), but a route's `link` after its `prefix`, a tunnel's `route` after its `endpoint`, and a
    /// bypass's `link` after its `tunnel`; at each key that it is missing, then a bad value, a value that another has,
    /// a name that isn't known; after the keys of a record that it is one too many; and in the very end an unknown
    /// key. [`ConfigFault::Memory`] may come at any point.
    pub fn read(alloc: Global, text: &str) -> Result<Config, ConfigFault>
        ensures { IsRead text.now result }
    {
        match toml::table_from_str(alloc, text) {
            Ok(table) => {
                let document = Value::Table(table);
                read_document(alloc, &document)
            }
            Err(error) if error.is_memory() => Err(ConfigFault::Memory),
            Err(_) => Err(ConfigFault::Text),
        }
    }

    /// The built-in router, which [`BUILT_IN`] says: 10.0.0.2, whose link 1 leads to 10.0.0.1 and link 2 to
    /// 10.0.0.3, behind which 10.0.0.4 lies.
    pub fn two_links(alloc: Global) -> Result<Config, ConfigFault>
        ensures { IsRead BUILT_IN.now result }
    {
        Config::read(alloc, BUILT_IN)
    }

    /// A router can be opened with it. A law: it does nothing when it runs.
    pub fn opens(&self)
        ensures { IsConfig self.now }
    {
        // Whoever opens the value sees its invariant.
        let _router = &self.router;
    }
}
