//! The formats of a file: what each has after its number, and what it allows a text to say.

ghost use Rattle.journal_files.specs.Texts.{Allows, Answers};

use crate::entries::{EntryField, EventText};
use crate::first_format::FirstText;
use crate::states::StateField;
use crate::tables::{AbsentTable, PromiseTable, RestingTable};
use crate::texts::names_no_capacity;
use fact_fields::{BypassField, PlainBypassField};
use field_bytes::{Counted, Items, Many, Octets, Pair, ReadFault};
use journal_bytes::Entry;
use lsr_config::Config;
use lsr_facts::{Assignment, Key, State};
use std::alloc::Global;

/// The formats of a file.
#[derive(Clone, Copy, Debug, PartialEq, Eq)]
pub enum FileFormat {
    /// No capacities, no promises, no labels that rest.
    First,
    /// Capacities and promises, no labels that rest.
    Second,
    /// All that a router knows.
    Third,
}

/// A file's text, its base and its entries.
pub(crate) type Stored = (Octets, (State, Items<Entry>));

/// What a file has after its format's number: a text, what the router knew, and entries, by how these two are spelled.
type BodyField<S, E> = Pair<Counted, Pair<S, Many<EntryField<E>>>>;

/// What a router knew, in the first format.
pub type FirstBase = StateField<
    PlainBypassField,
    AbsentTable<Key, Assignment>,
    AbsentTable<u32, u64>,
>;

/// What a router knew, in the second format.
pub type SecondBase = StateField<BypassField, PromiseTable, AbsentTable<u32, u64>>;

/// What a router knew, in the third format.
pub type ThirdBase = StateField<BypassField, PromiseTable, RestingTable>;

/// What follows the number of the first format.
pub type FirstBody = BodyField<FirstBase, FirstText<EventText>>;

/// What follows the number of the second format.
pub type SecondBody = BodyField<SecondBase, EventText>;

/// What follows the number of the third format.
pub type ThirdBody = BodyField<ThirdBase, EventText>;

impl FileFormat {
    /// Whether the format allows a text that says this configuration.
    pub(crate) fn allows(
        self,
        alloc: Global,
        text: &str,
        config: &Config,
    ) -> Result<bool, ReadFault>
        ensures { Answers (Allows self text.now config.now) result }
    {
        match self {
            FileFormat::Third => Ok(true),
            FileFormat::Second => Ok(config.router.label_rest_ms == 0),
            FileFormat::First if config.router.label_rest_ms != 0 => Ok(false),
            FileFormat::First => names_no_capacity(alloc, text),
        }
    }
}
