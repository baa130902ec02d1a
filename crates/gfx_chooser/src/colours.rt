//! The colours of a picture.
ghost use Rattle.std.specs.Prelude.{◌≡◌, true, Some};
ghost use Rattle.gfx_chooser.specs.Facts.{colours_counted};
ghost use Rattle.gfx_base.specs.Colour.{has_colour};

use crate::facts::MOST_COLOURS;
use arrayvec::ArrayVec;
use gfx_base::Rgb;
use gfx_script::Picture;

/// How many colours are kept to be counted.
const ROOM: usize = MOST_COLOURS as usize;

/// Colours, each once.
type Colours = ArrayVec<Rgb, ROOM>;

/// How many colours a picture has, alpha not counted; `MOST_COLOURS` where it has more. It takes no memory, and looks
/// at no pixel once it has found so many.
pub fn count_colours(picture: &Picture) -> u16
    ensures { result ≡ colours_counted picture.now }
{
    let mut colours = Colours::new();
    let mut last = None;
    'rows: for y in 0..picture.height {
        'pixels: for x in 0..picture.width {
            let colour = picture.pixel(x, y).colour();
            if is_last(last, colour) {
                continue;
            }
            last = Some(colour);
            if has_colour(&colours, colour) {
                continue;
            }
            colours.push(colour);
            if colours.is_full() {
                return MOST_COLOURS;
            }
        }
    }
    colours.len() as u16
}

/// Whether a colour is the same as the last, if there was one.
#[inline(always)]
fn is_last(last: Option<Rgb>, colour: Rgb) -> bool
    ensures { result ≡ true → last ≡ Some colour }
{
    match last {
        None => false,
        Some(last) => last.is_same(colour),
    }
}

/// Whether these colours have one.
fn has_colour(colours: &[Rgb], colour: Rgb) -> bool
    ensures { result ≡ has_colour colours.now colour }
{
    colours.contains(&colour)
}
