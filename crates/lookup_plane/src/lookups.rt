//! Look-ups by one list of changes.

ghost use Rattle.std.specs.Prelude.{◌≡◌, ◌≤◌, ◌<◌, IfSome, List, MatchResult, length};
ghost use Rattle.forwarding_table.specs.Actions.{WritesLabels};
ghost use Rattle.forwarding_table.specs.Forwarding.{forward_of};
ghost use Rattle.left_right.specs.Sides.{view};
ghost use Rattle.lookup_plane.specs.Changes.{StartsWith, look, look_tunnel};
ghost use Rattle.lookup_plane.specs.declared.change.TableChange.{TableChange};
ghost use Rattle.lookup_plane.specs.declared.closed.Closed.TheVariants.{Behind};

use crate::closed::Closed;
use crate::rule::{Look, TableReader, TableReading};
use forwarding_table::{Action, Forwarding, LabelActions, forward};
use label_stacks::Stack;
use std::marker::Model;

/// A reader while it reads: all answers are by one list of published changes. Until it ends, the writer can publish
/// once more, and then waits for it. Contracts see that list, and how many changes the reader has learnt that there are.
pub struct Lookups {
    reading: TableReading,
    at_least: u64,
}

impl Model for Lookups {
    ghost use Rattle.left_right.specs.Sides.{view as view_of};
    ghost use Rattle.lookup_plane.specs.Changes.{Learnt};
    ghost use Rattle.lookup_plane.specs.Published.{Shows, content};

    ghost Value = { Learnt };

    ghost view = { λ l. record { seen = (view_of l.reading.place).seen; at_least = l.at_least } };

    ghost invariant = { λ l. Shows (content l.reading.part.value) (view_of l.reading.place).seen };
}

impl Drop for Lookups {
    fn drop(self) {
        let Self {
            reading,
            at_least: _,
        } = self;
        reading.leave();
    }
}

/// Begins to read. The reader comes back where the writer is gone, or where there are fewer changes than this.
pub(crate) fn begin(reader: TableReader, at_least: u64) -> Result<Lookups, (TableReader, Closed)>
    ensures { MatchResult result
        (λ lookups. StartsWith lookups.seen (view reader.place).seen × (lookups.at_least ≡ at_least)
        × (at_least ≤ length lookups.seen))
        (λ back. StartsWith (view back.0.place).seen (view reader.place).seen
        × (back.1 ≡ Behind → length (view back.0.place).seen < at_least)) }
{
    match reader.enter_as::<Look>() {
        Ok(reading) if reading.get().count < at_least => Err((reading.leave(), Closed::Behind)),
        Ok(reading) => Ok(Lookups { reading, at_least }),
        Err(reader) => Err((reader, Closed::WriterGone)),
    }
}

impl Lookups {
    /// What is done with a label, or `None` where nothing is.
    pub fn look(&self, label: u32) -> Option<Action>
        ensures found { result ≡ look self.now.seen label }
        ensures labels { IfSome result WritesLabels }
    {
        self.reading.get().look(label)
    }

    /// What is done with the traffic of a tunnel, by its number, or `None` where nothing is.
    pub fn look_tunnel(&self, number: u16) -> Option<Action>
        ensures { result ≡ look_tunnel self.now.seen number }
    {
        self.reading.get().look_tunnel(number)
    }

    /// What becomes of a stack of labels (RFC 3031, 3.10 to 3.13). Takes no memory.
    pub fn forward(&self, stack: &Stack) -> Forwarding
        ensures { result ≡ forward_of (look self.now.seen) stack.now }
    {
        forward(self, stack)
    }

    /// Ends to read, and gives the reader back with how many changes it has learnt that there are.
    pub(crate) fn end(self) -> (TableReader, u64)
        ensures { ((view result.0.place).seen ≡ self.seen) × (result.1 ≡ self.at_least) }
    {
        let Self { reading, at_least } = self;
        (reading.leave(), at_least)
    }
}

impl LabelActions for Lookups {
    ghost look = { λ lookups. look lookups.seen };

    fn action_of(&self, label: u32) -> Option<Action> {
        self.look(label)
    }
}

/// What can be asked of a label table: it is answered by one list of published changes.
pub trait Inquiry {
    /// What is answered.
    type Answer;

    // it is an answer by these changes
    ghost answered: { Self → List TableChange → Self.Answer → Type 0 };

    /// The answer by the changes that a reader sees while it reads.
    fn ask(&self, lookups: &Lookups) -> Self::Answer
        ensures { answered self.now lookups.now.seen result };
}
