//! Journals as files: which bytes spell a recording (a configuration's text, what a router knew, and the entries of its journal from
//! there on), and the recording that they spell. There are three formats; the newest is written, and all are read.
#![tactic(auto)]

mod entries;
mod first_format;
mod formats;
pub mod laws;
mod pending;
mod reading;
mod recordings;
mod replies;
mod states;
mod tables;
mod texts;
mod writing;

pub use entries::{EntryField, EventText, FrameField, LabelField, PutEvent};
pub use first_format::{EventTexts, FirstText};
pub use formats::{FileFormat, FirstBase, FirstBody, SecondBase, SecondBody, ThirdBase, ThirdBody};
pub use reading::{read_base, read_entry};
pub use recordings::{Recording, config_of, format_of, read_segment};
pub use replies::{REFUSALS, RefusalField, RefusalParts, ReplyField};
pub use states::{
    LabelState, LabelStateField, LinkState, LinkStateField, LspState, LspStateField, NodeState,
    NodeStateField, StateField,
};
pub use tables::{
    AbsentParts, AbsentTable, BypassTable, LabelTable, PathTable, PromiseTable, RepairTable,
    RestingTable, ResvTable, RouteTable, TunnelTable, UpTable,
};
pub use writing::{AsEntry, write_file};
