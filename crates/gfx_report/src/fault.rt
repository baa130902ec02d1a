use thiserror::Error;

/// Why a report that takes memory isn't whole.
#[derive(Clone, Copy, Debug, PartialEq, Eq, Error)]
pub enum ReportFault {
    /// A write failed.
    #[error("a write failed")]
    Failed,
    /// No memory is left.
    #[error("no memory is left")]
    Memory,
}
