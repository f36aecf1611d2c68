//! The label table of a router, as datagrams ask it.

ghost use Rattle.std.specs.Prelude.{◌≡◌};
ghost use Rattle.abstract_router.specs.Tables.{forwarded};

use crate::Tables;
use datagrams::Forwards;
use forwarding_table::Forwarding;
use label_stacks::Stack;

/// The label table among a router's tables.
#[derive(Debug, Drop)]
pub(crate) struct Labels<'a> {
    /// The tables.
    pub(crate) tables: &'a Tables,
}

impl<'a> Forwards for Labels<'a> {
    ghost forwarded = { λ labels. forwarded labels.tables.now.router labels.tables.now.state };

    fn forward(&self, stack: &Stack) -> Forwarding {
        self.tables.forward(stack)
    }
}
