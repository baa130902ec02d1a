use gfx_base::Refusal;
use thiserror::Error;

/// Why a client goes no further. The first fault closes it, and it answers the closed form of that
/// fault from then on.
#[derive(Clone, Copy, Debug, PartialEq, Eq, Error)]
pub enum ClientFault {
    /// The message of this number, counted from 1, is refused.
    #[error("message {number} is refused: {refusal}")]
    Refused { number: u64, refusal: Refusal },
    /// No memory is left.
    #[error("no memory is left")]
    Memory,
    /// A message was refused before.
    #[error("message {number} was refused before: {refusal}")]
    ClosedRefused { number: u64, refusal: Refusal },
    /// Memory ran out before.
    #[error("memory ran out before")]
    ClosedMemory,
}
