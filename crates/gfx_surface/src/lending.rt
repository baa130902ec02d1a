//! Two pieces of the places of cells for a closure, which never share one.
ghost use Rattle.std.specs.Prelude.{◌≡◌, ◌≤◌, ◌<◌, ◌+◌, ◌-◌, length, map, take, drop, List, ◌⊎◌};
ghost use Rattle.std.specs.Borrow.{MutBor};
ghost use Rattle.gfx_base.specs.declared.format.Format.TheVariants.{Xrgb};
ghost use Rattle.gfx_base.specs.declared.pixel.Pixel.{Pixel as AnyPixel};
ghost use Rattle.gfx_surface.specs.Lending.{Lent, LentKept, LentOf};
ghost use Rattle.gfx_surface.specs.Picture.{shade};

use crate::colour::shaded;
use gfx_base::{Format, Pixel};

/// Gives a closure two pieces of this length, which share no place, and keeps what it leaves there as
/// this format does.
pub(crate) fn lend_pair<F: FnOnce(&mut [Pixel], &mut [Pixel])>(
    cells: &mut [Pixel],
    first: usize,
    second: usize,
    size: usize,
    format: Format,
    f: F,
)
    requires apart { (first + size ≤ second) ⊎ (second + size ≤ first) }
    requires some { 0 < size }
    requires first { first + size ≤ length cells.old }
    requires second { second + size ≤ length cells.old }
    requires callable { (p q : MutBor (List AnyPixel)) → p.now ≡ take size (drop first cells.old)
        → q.now ≡ take size (drop second cells.old) → F.pre f p q }
    ensures { LentOf F.FnOnce f format first size second size cells.old cells.new }
{
    if first < second {
        lend_two(cells, first, size, second, size, format, f);
    } else {
        lend_turned(cells, first, size, second, size, format, f);
    }
}

/// Gives a closure the pieces of these lengths that begin at two places, the first of them before the
/// second, and keeps what it leaves there as this format does.
pub(crate) fn lend_two<F: FnOnce(&mut [Pixel], &mut [Pixel])>(
    cells: &mut [Pixel],
    first: usize,
    first_length: usize,
    second: usize,
    second_length: usize,
    format: Format,
    f: F,
)
    requires order { first + first_length ≤ second }
    requires within { second + second_length ≤ length cells.old }
    requires callable { (p q : MutBor (List AnyPixel)) → p.now ≡ take first_length (drop first cells.old)
        → q.now ≡ take second_length (drop second cells.old) → F.pre f p q }
    ensures { LentOf F.FnOnce f format first first_length second second_length cells.old cells.new }
{
    let (low, high) = cells.split_at_mut(second);
    lend(
        &mut low[first..first + first_length],
        &mut high[..second_length],
        format,
        f,
    );
}

/// The same, where the first of them is behind the second.
fn lend_turned<F: FnOnce(&mut [Pixel], &mut [Pixel])>(
    cells: &mut [Pixel],
    first: usize,
    first_length: usize,
    second: usize,
    second_length: usize,
    format: Format,
    f: F,
)
    requires order { second + second_length ≤ first }
    requires within { first + first_length ≤ length cells.old }
    requires callable { (p q : MutBor (List AnyPixel)) → p.now ≡ take first_length (drop first cells.old)
        → q.now ≡ take second_length (drop second cells.old) → F.pre f p q }
    ensures { LentOf F.FnOnce f format first first_length second second_length cells.old cells.new }
{
    let (low, high) = cells.split_at_mut(first);
    lend(
        &mut high[..first_length],
        &mut low[second..second + second_length],
        format,
        f,
    );
}

/// Gives a closure two slices, and keeps what it leaves there as this format does.
fn lend<F: FnOnce(&mut [Pixel], &mut [Pixel])>(
    first: &mut [Pixel],
    second: &mut [Pixel],
    format: Format,
    f: F,
)
    requires callable { (p q : MutBor (List AnyPixel)) → p.now ≡ first.old → q.now ≡ second.old → F.pre f p q }
    ensures { LentKept F.FnOnce f format first.old second.old first.new second.new }
{
    f(first, second);
    keep(first, format);
    keep(second, format);
}

/// Makes pixels as this format keeps them.
fn keep(pixels: &mut [Pixel], format: Format)
    ensures { pixels.new ≡ map (shade format) pixels.old }
{
    match format {
        Format::Argb => {}
        Format::Xrgb => make_opaque(pixels),
    }
}

/// Makes pixels opaque.
fn make_opaque(pixels: &mut [Pixel])
    ensures { pixels.new ≡ map (shade Xrgb) pixels.old }
{
    'pixels: for i in 0..pixels.len() {
        pixels[i] = shaded(Format::Xrgb, pixels[i]);
    }
}
