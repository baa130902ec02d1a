//! One place of a ring.
ghost use Rattle.std.specs.Prelude.{◌≡◌, ◌≤◌, length};
ghost use Rattle.gfx_base.specs.Colour.{same_pixels};

use arrayvec::ArrayVec;
use gfx_base::Rgb;
use std::marker::Model;

/// At most `MOST` pixels, from the top.
#[derive(Drop)]
pub(crate) struct Bar<const MOST: usize> {
    pixels: ArrayVec<Rgb, MOST>,
}

/// What stands at a place: pixels, or nothing where it was never written.
pub(crate) type Slot<const MOST: usize> = Option<Bar<MOST>>;

impl<const MOST: usize> Model for Bar<MOST> {
    ghost use Rattle.std.specs.Prelude.{List};
    ghost use Rattle.gfx_base.specs.declared.pixel.Rgb.{Rgb};

    ghost Value = { List Rgb };

    ghost view = { λ a. a.pixels.items };
}

impl<const MOST: usize> Bar<MOST> {
    /// A copy of these pixels. It takes no memory.
    #[inline(always)]
    pub(crate) fn new(pixels: &[Rgb]) -> Self
        requires { length pixels.now ≤ MOST }
        ensures { result ≡ pixels.now }
    {
        let mut copy = ArrayVec::new();
        // There is room for so many.
        let _ = copy.try_extend_from_slice(pixels);
        Bar { pixels: copy }
    }

    #[inline(always)]
    pub(crate) fn as_slice(&self) -> &[Rgb]
        ensures value { result.now ≡ self.now }
        ensures fits { length result.now ≤ MOST }
    {
        self.pixels.as_slice()
    }

    /// Whether these are its pixels.
    #[inline(always)]
    pub(crate) fn has(&self, pixels: &[Rgb]) -> bool
        ensures { result ≡ same_pixels self.now pixels.now }
    {
        self.as_slice() == pixels
    }
}
