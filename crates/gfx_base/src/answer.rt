ghost use Rattle.std.specs.Prelude.{◌≡◌};

use crate::refusal::Refusal;
use std::alloc::{AllocError, AllocFailed};

/// No memory is left for what a call has to keep.
#[derive(Clone, Copy, Debug, PartialEq, Eq)]
pub struct NoMemory;

impl From<AllocError> for NoMemory {
    fn from(_e: AllocError) -> NoMemory {
        NoMemory
    }
}

impl<T: Drop> From<AllocFailed<T>> for NoMemory {
    fn from(_e: AllocFailed<T>) -> NoMemory {
        NoMemory
    }
}

/// A read or a write of the outside failed.
#[derive(Clone, Copy, Debug, PartialEq, Eq)]
pub struct Failed;

/// Why a call gave no answer: what it was given is refused, for one of the reasons `R`, or no memory
/// is left.
#[derive(Clone, Copy, Debug, PartialEq, Eq)]
pub enum Cause<R> {
    /// What was given breaks a rule.
    Refused(R),
    /// No memory is left.
    Memory,
}

/// Why a call on messages, streams or what they make gave no answer.
pub type Fault = Cause<Refusal>;

impl From<Refusal> for Cause<Refusal> {
    ghost use Rattle.gfx_base.specs.declared.answer.Cause.TheVariants.{Refused};

    ghost from_gives = { λ r e. e ≡ Refused r };

    fn from(refusal: Refusal) -> Cause<Refusal> {
        Cause::Refused(refusal)
    }
}

impl<R> From<NoMemory> for Cause<R> {
    ghost use Rattle.gfx_base.specs.declared.answer.Cause.TheVariants.{Memory};

    ghost from_gives = { λ _ e. e ≡ Memory };

    fn from(_e: NoMemory) -> Cause<R> {
        Cause::Memory
    }
}

impl<R> From<AllocError> for Cause<R> {
    ghost use Rattle.gfx_base.specs.declared.answer.Cause.TheVariants.{Memory};

    ghost from_gives = { λ _ e. e ≡ Memory };

    fn from(_e: AllocError) -> Cause<R> {
        Cause::Memory
    }
}

impl<R, T: Drop> From<AllocFailed<T>> for Cause<R> {
    ghost use Rattle.gfx_base.specs.declared.answer.Cause.TheVariants.{Memory};

    ghost from_gives = { λ _ e. e ≡ Memory };

    fn from(_e: AllocFailed<T>) -> Cause<R> {
        Cause::Memory
    }
}
