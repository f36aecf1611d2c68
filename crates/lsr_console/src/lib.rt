//! The console of a router that runs: an operator writes lines, and each is answered at once by the router, while the run goes on.
#![tactic(auto)]

mod answering;
mod asking;
mod attending;
mod console;
mod counters;
mod ending;
mod feeding;
mod forms;
mod listening;
mod manner;
mod printing;
mod said;

pub use console::Console;
pub use ending::ConsoleEnding;
pub use forms::HELP;
pub use line_streams::InputFault;
pub use listening::{Heard, WAITING_LINES, listen, open_lines};
pub use manner::Manner;
