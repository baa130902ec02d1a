ghost use Rattle.std.specs.Prelude.{◌≡◌, ◌&&◌, nat_eq};
ghost use Rattle.gfx_base.specs.Outcome.{Says};

use gfx_base::Rgbs;

/// An area as it was drawn: its sides in pixels, and its pixels row by row from the top.
#[derive(Drop)]
pub struct Glyph {
    pub width: u16,
    pub height: u16,
    pub pixels: Rgbs,
}

impl Glyph {
    /// Whether it has this size.
    pub(crate) fn has_size(&self, width: u16, height: u16) -> bool
        ensures { result ≡ (nat_eq self.now.width width && nat_eq self.now.height height) }
    {
        self.width == width && self.height == height
    }
}
