//! A cell as it stood before it was drawn on.
ghost use Rattle.std.specs.Prelude.{◌≡◌, length};

use gfx_base::{Cell, Pixel};

/// A cell as it stood: its 4,096 places, row by row in rows of 64.
#[derive(Drop)]
pub struct KeptCell {
    pub(crate) cell: Cell,
    pub(crate) pixels: Vec<Pixel>,
    pub(crate) ghost whole: { length pixels.items ≡ 4096 },
}
