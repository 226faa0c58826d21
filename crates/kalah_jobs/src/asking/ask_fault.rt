//! Why `answer_lines` stopped early.
use thiserror::Error;

/// An error that ended the answers before the last line.
#[derive(Clone, Copy, Debug, PartialEq, Eq, Error)]
pub enum AskFault {
    /// A read failed.
    #[error("cannot read")]
    Read,
    /// A write failed.
    #[error("write failed")]
    Write,
}
