ghost use Rattle.std.specs.Prelude.{◌≡◌};
ghost use Rattle.gfx_input.specs.Reading.{fault_of};

use gfx_base::NoMemory;
use thiserror::Error;

/// Why what an input is given to broke off.
#[derive(Clone, Copy, Debug, PartialEq, Eq, Error)]
pub enum TakeFault {
    /// A write failed.
    #[error("a write failed")]
    Write,
    /// No memory is left.
    #[error("no memory is left")]
    Memory,
}

impl From<NoMemory> for TakeFault {
    ghost use Rattle.gfx_input.specs.declared.fault.TakeFault.TheVariants.{Memory};

    ghost from_gives = { λ _ e. e ≡ Memory };

    fn from(_e: NoMemory) -> TakeFault {
        TakeFault::Memory
    }
}

/// Why an input is read no further, apart from what it holds.
#[derive(Clone, Copy, Debug, PartialEq, Eq, Error)]
pub enum InputFault {
    /// A read failed.
    #[error("a read failed")]
    Read,
    /// A write of what it is given to failed.
    #[error("a write failed")]
    Write,
    /// No memory is left.
    #[error("no memory is left")]
    Memory,
}

impl From<TakeFault> for InputFault {
    ghost from_gives = { λ fault e. e ≡ fault_of fault };

    fn from(fault: TakeFault) -> InputFault {
        match fault {
            TakeFault::Write => InputFault::Write,
            TakeFault::Memory => InputFault::Memory,
        }
    }
}
