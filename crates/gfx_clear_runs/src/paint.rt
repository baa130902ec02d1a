//! Parts of runs painted where their pixels belong, with no memory taken.
ghost use Rattle.std.specs.Prelude.{◌≡◌, ◌≤◌, ◌+◌, ◌++◌, length, map, take, replicate};
ghost use Rattle.gfx_base.specs.Colour.{opaque};
ghost use Rattle.gfx_clear_runs.specs.Outcome.{Paints};
ghost use Rattle.gfx_clear_runs.specs.Reading.{part_of, rlex_of, runs_of, segments_behind};
ghost use Rattle.gfx_clear_runs.specs.Views.{reading};

use crate::coding::Coding;
use crate::element::Stretch;
use crate::palette::{PALETTE_MOST, Palette, read_entries, stop_bits};
use crate::read::reason_behind;
use gfx_base::{Pixel, Refusal, Rgb};

/// Paints the pixels of a residual layer, which are to cover all of these, opaque. After a refusal any pixels
/// may stand there.
pub fn paint_runs(bytes: &[u8], out: &mut [Pixel]) -> Result<(), Refusal>
    ensures { Paints result (length out.old) (runs_of bytes.now) out.new }
{
    paint_part(&Coding::Runs, bytes, out)
}

/// Paints the pixels of the RLEX subcodec, which are to cover all of these, opaque. After a refusal any pixels
/// may stand there.
#[tactic(auto, unfolding(crate::specs::Reading::rlex_of, crate::specs::Reading::covering))]
pub fn paint_rlex(bytes: &[u8], out: &mut [Pixel]) -> Result<(), Refusal>
    ensures { Paints result (length out.old) (rlex_of bytes.now) out.new }
{
    let [count, rest @ ..] = bytes else {
        return Err(Refusal::ClearLengths);
    };
    let count = usize::from(*count);
    if count == 0 || count > PALETTE_MOST {
        return Err(Refusal::PaletteRange);
    }
    paint_segments(count, rest, out)
}

/// Paints the pixels of segments behind a palette of so many colours.
fn paint_segments(count: usize, bytes: &[u8], out: &mut [Pixel]) -> Result<(), Refusal>
    requires { count ≤ 127 }
    ensures { Paints result (length out.old) (segments_behind count bytes.now) out.new }
{
    let size = 3 * count;
    if bytes.len() < size {
        return Err(Refusal::ClearLengths);
    }
    let palette = Palette {
        colours: read_entries(count, bytes),
        bits: stop_bits(count),
    };
    let (_, segments) = bytes.split_at(size);
    paint_part(&Coding::Segments(palette), segments, out)
}

/// Paints the pixels of a part, which are to cover all of these.
fn paint_part(coding: &Coding, bytes: &[u8], out: &mut [Pixel]) -> Result<(), Refusal>
    ensures { Paints result (length out.old) (part_of (reading coding.now) bytes.now) out.new }
{
    let mut rest = bytes;
    let mut at = 0;
    'elements: while !rest.is_empty() {
        let stretch = match coding.element_at(rest) {
            Ok(stretch) => stretch,
            Err(reason) => return Err(reason),
        };
        let (_, after) = rest.split_at(stretch.size);
        let gained = stretch.area();
        if gained > (out.len() - at) as u64 {
            return Err(reason_behind(coding, after));
        }
        paint(&stretch, at, out);
        at += gained as usize;
        rest = after;
    }
    if at < out.len() {
        return Err(Refusal::RunTotal);
    }
    Ok(())
}

/// Paints a stretch from a place on. What stands behind it may change too.
#[inline(always)]
fn paint(stretch: &Stretch<'_>, at: usize, out: &mut [Pixel])
    requires { at + (stretch.now.count + length stretch.now.more.now) ≤ length out.old }
    ensures { take (at + (stretch.now.count + length stretch.now.more.now)) out.new ≡ take at out.old ++ map opaque (replicate stretch.now.count stretch.now.colour ++ stretch.now.more.now) }
{
    let count = stretch.count as usize;
    paint_copies(stretch.colour.opaque(), count, at, out);
    paint_each(stretch.more, at + count, out);
}

/// How many pixels are written at once, where there is room for them.
const BLOCK: usize = 8;

/// Paints so many pixels of a colour from a place on. What stands behind them may change too.
#[inline(always)]
fn paint_copies(pixel: Pixel, count: usize, at: usize, out: &mut [Pixel])
    requires { at + count ≤ length out.old }
    ensures { take (at + count) out.new ≡ take at out.old ++ replicate count pixel }
{
    // A few cost no more than one, and what is behind them is painted later.
    if count <= BLOCK && out.len() - at >= BLOCK {
        out[at..at + BLOCK].fill(pixel);
    } else {
        out[at..at + count].fill(pixel);
    }
}

/// Paints colours from a place on.
#[inline(always)]
fn paint_each(colours: &[Rgb], at: usize, out: &mut [Pixel])
    requires { at + length colours.now ≤ length out.old }
    ensures { take (at + length colours.now) out.new ≡ take at out.old ++ map opaque colours.now }
{
    'colours: for i in 0..colours.len() {
        out[at + i] = colours[i].opaque();
    }
}
