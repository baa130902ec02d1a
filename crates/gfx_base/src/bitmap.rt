ghost use Rattle.std.specs.Prelude.{◌≡◌, ◌*◌, length};

use crate::items::Pixels;

/// A rectangle of pixels on its own, row by row from the top.
#[derive(Debug, Drop)]
pub struct Bitmap {
    pub width: u16,
    pub height: u16,
    pub pixels: Pixels,
    pub ghost area: { length pixels ≡ width * height },
}
