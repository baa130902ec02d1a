ghost use Rattle.std.specs.Prelude.{◌≡◌};
ghost use Rattle.gfxpipe.specs.Did.{trouble_of};

use gfx_base::NoMemory;
use gfx_input::InputFault;

/// Why a command could not go on, apart from what it was given.
#[derive(Clone, Copy, Debug, PartialEq, Eq)]
pub enum Trouble {
    /// A read failed.
    Read,
    /// A write to the output failed.
    Write,
    /// No memory is left.
    Memory,
}

impl From<NoMemory> for Trouble {
    ghost use Rattle.gfxpipe.specs.declared.trouble.Trouble.TheVariants.{Memory};

    ghost from_gives = { λ _ e. e ≡ Memory };

    fn from(_e: NoMemory) -> Trouble {
        Trouble::Memory
    }
}

impl From<InputFault> for Trouble {
    ghost from_gives = { λ fault e. e ≡ trouble_of fault };

    fn from(fault: InputFault) -> Trouble {
        match fault {
            InputFault::Read => Trouble::Read,
            InputFault::Write => Trouble::Write,
            InputFault::Memory => Trouble::Memory,
        }
    }
}
