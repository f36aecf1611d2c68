//! An operator that fed nothing.
ghost use Rattle.interface_workers.specs.Chains.{HasRoom};
ghost use Rattle.lsr_rounds.specs.Attending.{IsAttended};

use interface_workers::{CoreName, Port, Work};

/// Where nothing was fed, a router was attended to.
pub(crate) fn fed_nothing<L: CoreName>(port: &Port<L>, work: &Work)
    requires { HasRoom work.now }
    ensures { IsAttended L.config work.now port.now.mark port.now.taken work.now port.now.mark port.now.taken }
{}
