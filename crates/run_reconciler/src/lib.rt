//! Whether receipts and stretches of a journal are those of one run: of one router, from its opening on, of which each port was told its
//! own entries, each once and in their order; and whether that router is the one of a configuration. A run is judged as a whole, or round
//! by round, where only the last stretch of the rounds before is kept.
#![tactic(auto)]

mod judging;
mod reconciling;
mod round;

pub use judging::judge;
pub use reconciling::{Mismatch, OneRun, reconcile, whole_journals_are_runs};
pub use round::{first_rounds_are_runs, judge_round, next_rounds_go_on, rounds_are_one_run};
