// What is wrong with a configuration.
ghost use Rattle.std.specs.Prelude.{◌≡◌, option_map};
ghost use Rattle.lsr_config.specs.Faults.{fault_word, fault_name};

use crate::key::Key;
use crate::unknown_name::UnknownName;
use std::alloc::AllocError;
use thiserror::Error;

/// Why a text is no configuration that a router can run with: the first thing that is wrong with it.
#[derive(Debug, Drop, Error)]
pub enum ConfigFault {
    /// The text isn't TOML.
    #[error("the configuration is not TOML: see that each line is a table's header or `key = value`")]
    Text,
    /// A key that is needed isn't there.
    #[error("give a value to `{0}`")]
    Missing(Key),
    /// A value isn't of the kind that its key takes, or is out of its range.
    #[error("give `{0}` a value that it can have")]
    BadValue(Key),
    /// A number, an address or a prefix stands there twice.
    #[error("give each `{0}` a value of its own")]
    Repeated(Key),
    /// The value names something that isn't there.
    #[error("`{0}` names nothing that this configuration has: add it, or name another")]
    UnknownName(Key),
    /// A table has more records than a router keeps.
    #[error("take records out of the table `{0}`: it has more than a router keeps")]
    TooMany(Key),
    /// No configuration has this key.
    #[error("take out `{0}`: there is no such key")]
    UnknownKey(UnknownName),
    /// There isn't memory enough to read the text.
    #[error("there is not memory enough to read the configuration")]
    Memory,
}

impl From<AllocError> for ConfigFault {
    ghost use Rattle.lsr_config.specs.declared.fault.ConfigFault.TheVariants.{Memory};

    ghost from_gives = { λ _ fault. fault ≡ Memory };

    fn from(_error: AllocError) -> ConfigFault {
        ConfigFault::Memory
    }
}

impl ConfigFault {
    /// The kind of the fault in one word, as `Missing`.
    pub fn word(&self) -> &'static str
        ensures { result.now ≡ fault_word self.now }
    {
        match self {
            ConfigFault::Text => "Text",
            ConfigFault::Missing(_) => "Missing",
            ConfigFault::BadValue(_) => "BadValue",
            ConfigFault::Repeated(_) => "Repeated",
            ConfigFault::UnknownName(_) => "UnknownName",
            ConfigFault::TooMany(_) => "TooMany",
            ConfigFault::UnknownKey(_) => "UnknownKey",
            ConfigFault::Memory => "Memory",
        }
    }

    /// The key that is at fault as the text spells it, or `None` where the fault is that of the whole text.
    pub fn name(&self) -> Option<&str>
        ensures { option_map (λ name. name.now) result ≡ fault_name self.now }
    {
        match self {
            ConfigFault::Missing(key)
            | ConfigFault::BadValue(key)
            | ConfigFault::Repeated(key)
            | ConfigFault::UnknownName(key)
            | ConfigFault::TooMany(key) => Some(key.name()),
            ConfigFault::UnknownKey(name) => Some(name.as_str()),
            ConfigFault::Text | ConfigFault::Memory => None,
        }
    }
}
