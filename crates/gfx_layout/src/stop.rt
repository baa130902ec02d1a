ghost use Rattle.std.specs.Prelude.{◌≡◌};

use gfx_base::{Cause, Refusal};

/// What stops the reading of bytes by a layout.
#[derive(Clone, Copy, Debug, PartialEq, Eq)]
pub enum Stop {
    /// The bytes end too soon.
    Short,
    /// The bytes go on behind their layout.
    Long,
    /// The bytes break a rule.
    Rule(Refusal),
}

impl From<Stop> for Cause<Stop> {
    ghost use Rattle.gfx_base.specs.declared.answer.Cause.TheVariants.{Refused};

    ghost from_gives = { λ stop e. e ≡ Refused stop };

    fn from(stop: Stop) -> Cause<Stop> {
        Cause::Refused(stop)
    }
}
