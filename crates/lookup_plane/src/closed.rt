//! Why a reader gets no answer.

use thiserror::Error;

/// Why there is no answer. Neither comes while the writer lives and shows its changes before it tells of them. No contract can say so:
/// a reader that always answers [`Closed::WriterGone`] keeps its own, and runs alone show it.
#[derive(Clone, Copy, Debug, PartialEq, Eq, Error)]
pub enum Closed {
    /// The writer is gone.
    #[error("the label table is closed")]
    WriterGone,
    /// What readers see lacks changes that this reader has learnt of.
    #[error("the label table is behind what was learnt")]
    Behind,
}
