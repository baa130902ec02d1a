//! A chooser of this program's own.
ghost use Rattle.std.specs.Prelude.{false, nat_le, Some, None, if◌then◌else◌};
ghost use Rattle.gfx_script.specs.declared.step.Kind.TheVariants.{Bands};

use gfx_chooser::{Chooser, Facts};
use gfx_script::Kind;

/// Low pictures are lines of text, whose columns come again: they go by bands. It is never spent.
#[derive(Clone, Copy, Debug, PartialEq, Eq)]
pub struct Lines {
    /// The most rows of such a picture.
    pub most: u16,
}

impl Chooser for Lines {
    ghost reply = { λ lines before facts. if nat_le facts.height lines.most then Some Bands else None };

    ghost is_spent = { λ lines before. false };

    fn choose(&mut self, facts: &Facts) -> Option<Kind> {
        (facts.height <= self.most).then_some(Kind::Bands)
    }

    fn spent(&self) -> bool {
        false
    }
}
