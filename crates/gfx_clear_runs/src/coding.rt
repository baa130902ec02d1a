ghost use Rattle.std.specs.Prelude.{◌<◌, ◌≤◌, length, IfOk};
ghost use Rattle.gfx_base.specs.Outcome.{Says};
ghost use Rattle.gfx_clear_runs.specs.Elements.{element};
ghost use Rattle.gfx_clear_runs.specs.Views.{reading};

use crate::element::{Stretch, run_at};
use crate::palette::Palette;
use gfx_base::Refusal;

/// How the elements of a part are spelled.
#[derive(Drop)]
pub enum Coding {
    /// Runs, each a colour and a length.
    Runs,
    /// Segments of a palette.
    Segments(Palette),
}

impl Coding {
    /// The element at the front of bytes.
    #[inline(always)]
    pub fn element_at(&self, bytes: &[u8]) -> Result<Stretch<'_>, Refusal>
        ensures value { Says (λ s. element s.colour s.count s.more.now s.size) result (reading self.now bytes.now) }
        ensures within { IfOk result (λ s. (0 < s.size) × (s.size ≤ length bytes.now)) }
        ensures few { IfOk result (λ s. length s.more.now ≤ 127) }
    {
        match self {
            Coding::Runs => run_at(bytes),
            Coding::Segments(palette) => palette.segment_at(bytes),
        }
    }
}
