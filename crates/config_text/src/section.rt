// The tables of records, and where in a document something stands.
ghost use Rattle.std.specs.Prelude.{◌≡◌};
ghost use Rattle.config_text.specs.Sections.{section_key};

use lsr_config::Key;

/// A table of records of a configuration.
#[derive(Clone, Copy, Debug, PartialEq, Eq)]
pub enum Section {
    /// The links.
    Links,
    /// The static routes.
    Routes,
    /// The tunnels.
    Tunnels,
    /// The bypasses.
    Bypasses,
}

impl Section {
    /// The key under which its records stand.
    pub fn key(self) -> Key
        ensures { result ≡ section_key self }
    {
        match self {
            Section::Links => Key::Link,
            Section::Routes => Key::Route,
            Section::Tunnels => Key::Tunnel,
            Section::Bypasses => Key::Bypass,
        }
    }
}

/// Where in a configuration a key stands, or should stand.
#[derive(Clone, Copy, Debug, PartialEq, Eq)]
pub enum Spot {
    /// Before the records.
    Top,
    /// In this table the record of this number, counted from 1.
    Record(Section, usize),
}
