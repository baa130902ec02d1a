ghost use Rattle.std.specs.Prelude.{◌≡◌};
ghost use Rattle.gfx_base.specs.Geometry.{lies_in, width_of, height_of, sized};

/// A place on a surface or on the output ([MS-RDPEGFX] RDPGFX_POINT16), in pixels from the top left.
#[derive(Clone, Copy, Debug, PartialEq, Eq)]
pub struct Point {
    pub x: u16,
    pub y: u16,
}

/// The side of a cell in pixels: that of a tile of RemoteFX ([MS-RDPEGFX] 2.2.4.2), and the unit in which the
/// room of surfaces is counted.
pub const CELL_SIDE: u16 = 64;

/// A cell of a surface: a square of 64 by 64 pixels, by its column and row of cells from the top left.
#[derive(Clone, Copy, Debug, PartialEq, Eq)]
pub struct Cell {
    pub x: u16,
    pub y: u16,
}

/// A rectangle in pixels, its right and bottom sides excluded ([MS-RDPEGFX] RDPGFX_RECT16). As it
/// is read from a message it may be anything, also upside down.
#[derive(Clone, Copy, Debug, PartialEq, Eq)]
pub struct Rect {
    pub left: u16,
    pub top: u16,
    pub right: u16,
    pub bottom: u16,
}

impl Rect {
    /// The rectangle of these sides that begins at the top left.
    pub fn sized(width: u16, height: u16) -> Rect
        ensures { result ≡ sized width height }
    {
        Rect {
            left: 0,
            top: 0,
            right: width,
            bottom: height,
        }
    }

    /// Whether the rectangle, which may be empty, lies in an area of these sides.
    pub fn lies_in(self, width: u16, height: u16) -> bool
        ensures { result ≡ lies_in width height self }
    {
        self.left <= self.right
            && self.right <= width
            && self.top <= self.bottom
            && self.bottom <= height
    }

    /// How many columns it has; none where its right side is left of its left one.
    pub fn width(self) -> u16
        ensures { result ≡ width_of self }
    {
        self.right.saturating_sub(self.left)
    }

    /// How many rows it has; none where its bottom is above its top.
    pub fn height(self) -> u16
        ensures { result ≡ height_of self }
    {
        self.bottom.saturating_sub(self.top)
    }
}
