//! Fields of a file: which bytes spell a value, how it is read, and how it is written. Numbers, addresses, pairs, options, lists,
//! bytes that are counted, what is made of parts, and values of several kinds.
#![tactic(auto)]

mod addresses;
mod cases;
mod fault;
mod field;
mod flags;
mod laws;
mod lists;
mod made;
mod numbers;
mod octets;
mod options;
mod pairs;
mod texts;
mod whole;

pub use addresses::Address;
pub use cases::{Both, Cases, Choice, OneOf, Only};
pub use fault::ReadFault;
pub use field::{Field, Put};
pub use flags::Flag;
pub use laws::bytes_tell_apart;
pub use lists::{Items, Many, put_items, put_list};
pub use made::{Made, Making, Writing};
pub use numbers::{Byte, Long, Nothing, Short, Word};
pub use octets::{Counted, Exactly, Octets, put_counted};
pub use options::Optional;
pub use pairs::Pair;
pub use texts::TextOf;
pub use whole::read_whole;
