ghost use Rattle.std.specs.Prelude.{◌≡◌};
ghost use Rattle.gfx_script_text.specs.Told.{error_at};

use gfx_script::{Flaw, ScriptKind};
use std::alloc::AllocFailed;
use thiserror::Error;

/// Why a script isn't read.
#[derive(Clone, Copy, Debug, PartialEq, Eq, Error)]
pub enum ScriptError {
    /// The step of this number, counted from 1, is wrong; 0 stands for a fault outside the steps.
    #[error("step {step} of the script, or 0 for what is no step: {kind}")]
    Fault { step: u32, kind: ScriptKind },
    /// No memory is left.
    #[error("no memory is left")]
    Memory,
}

impl ScriptError {
    /// A flaw of the step of this number.
    pub fn at(step: u32, flaw: Flaw) -> ScriptError
        ensures { result ≡ error_at step flaw }
    {
        match flaw {
            Flaw::Refused(kind) => ScriptError::Fault { step, kind },
            Flaw::Memory => ScriptError::Memory,
        }
    }
}

impl<T: Drop> From<AllocFailed<T>> for ScriptError {
    ghost use Rattle.gfx_script_text.specs.declared.error.ScriptError.TheVariants.{Memory};

    ghost from_gives = { λ _ e. e ≡ Memory };

    fn from(_e: AllocFailed<T>) -> ScriptError {
        ScriptError::Memory
    }
}
