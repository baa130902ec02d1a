//! Why the program ends before its input does.

use gfx_base::NoMemory;
use thiserror::Error;

/// Why the program ends before its input does.
#[derive(Clone, Copy, Debug, PartialEq, Eq, Error)]
pub enum Ending {
    /// A read failed.
    #[error("input: read failed")]
    Read,
    /// The input ends inside a record.
    #[error("input: cut")]
    Cut,
    /// A record has more bytes than its kind may have.
    #[error("input: TooLong")]
    TooLong,
    /// A write failed.
    #[error("output: write failed")]
    Write,
    /// An answer has more bytes than a record can say.
    #[error("output: TooLong")]
    LongAnswer,
    /// No memory is left for a record.
    #[error("memory: none left")]
    Memory,
}

impl From<NoMemory> for Ending {
    fn from(_e: NoMemory) -> Ending {
        Ending::Memory
    }
}
