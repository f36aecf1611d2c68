//! The name of a core.

ghost use Rattle.lsr_config.specs.Configs.{Setup};
ghost use Rattle.shared_core.specs.Names.{no_setup};

use std::marker::Brand;
use std::sync::ledger::Ledger;

/// The name of a core: that of its ledger, so no other core has it. It knows the configuration of the core's router.
pub trait CoreName: Ledger {
    // how the router is configured
    ghost config: { Setup };
}

// until a call picks it
impl CoreName for Brand {
    ghost config = { no_setup };
}
