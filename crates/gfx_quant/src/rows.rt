ghost use Rattle.std.specs.Prelude.{◌≡◌, ◌≤◌, ◌<◌, ◌+◌, ◌*◌, ◌^◌, ℕ, pos, ◌+ℤ◌, ◌-ℤ◌, ◌*ℤ◌, IsTrue, Some, slice_get};
ghost use Rattle.std.specs.Int.{int_shr};
ghost use Rattle.gfx_dwt.specs.Ranges.{AllWithin, Within, at};
ghost use Rattle.gfx_quant.specs.Colour.{channel, colour_of};
ghost use Rattle.gfx_quant.specs.Planes.{AreColours};

use crate::colour::{CB_IN_BLUE, CB_IN_GREEN, CR_IN_GREEN, CR_IN_RED, level, to_colour};
use crate::greys::{put_greys, put_solid};
use crate::halves::{Halves, join_halves, pair};
use gfx_base::Pixel;
use gfx_dwt::all_are;

/// Up to this magnitude of its samples all of a pixel is found in 16 bits.
const QUICK: i16 = 8191;

// A factor is a multiple of 65,536 and a rest of 16 bits: the processor multiplies by such a rest, and drops
// the low half of the product, in one step.
#[inline]
fn blue_rest(cb: i16) -> i32
    requires { Within 8191 cb }
    ensures value { result ≡ (CB_IN_BLUE -ℤ pos 131072) *ℤ cb }
    ensures small { Within (2 ^ 27) result }
{
    (CB_IN_BLUE - 131_072) * i32::from(cb)
}

#[inline]
fn green_rest(cb: i16, cr: i16) -> i32
    requires cb { Within 8191 cb }
    requires cr { Within 8191 cr }
    ensures value { result ≡ CB_IN_GREEN *ℤ cb +ℤ (CR_IN_GREEN +ℤ pos 65536) *ℤ cr }
    ensures small { Within (2 ^ 29) result }
{
    CB_IN_GREEN * i32::from(cb) + (CR_IN_GREEN + 65_536) * i32::from(cr)
}

#[inline]
fn red_rest(cr: i16) -> i32
    requires { Within 8191 cr }
    ensures value { result ≡ (CR_IN_RED -ℤ pos 65536) *ℤ cr }
    ensures small { Within (2 ^ 29) result }
{
    (CR_IN_RED - 65_536) * i32::from(cr)
}

#[inline]
fn shifted(rest: i32) -> i32
    ensures { result ≡ int_shr rest 16 }
{
    rest >> 16
}

#[inline]
fn shortened(number: i32) -> i16
    requires { Within 16383 number }
    ensures { result ≡ number }
{
    number as i16
}

#[inline]
#[tactic(auto, using(crate::proofs::Rests::whole_within))]
fn whole(rest: i32) -> i16
    requires { Within (2 ^ 29) rest }
    ensures value { result ≡ int_shr rest 16 }
    ensures small { Within (2 ^ 13) result }
{
    shortened(shifted(rest))
}

#[inline]
#[tactic(auto, using(crate::proofs::Rests::small_whole_within))]
fn small_whole(rest: i32) -> i16
    requires { Within (2 ^ 27) rest }
    ensures value { result ≡ int_shr rest 16 }
    ensures small { Within (2 ^ 11) result }
{
    whole(rest)
}

#[inline]
fn blue_total(y: i16, cb: i16, part: i16) -> i16
    requires y { Within 8191 y }
    requires cb { Within 8191 cb }
    requires part { Within (2 ^ 11) part }
    ensures { result ≡ y +ℤ pos 4096 +ℤ (cb +ℤ cb +ℤ part) }
{
    y + 4096 + (cb + cb + part)
}

#[inline]
fn green_total(y: i16, cr: i16, part: i16) -> i16
    requires y { Within 8191 y }
    requires cr { Within 8191 cr }
    requires part { Within (2 ^ 13) part }
    ensures { result ≡ y +ℤ pos 4096 +ℤ (part -ℤ cr) }
{
    y + 4096 + (part - cr)
}

#[inline]
fn red_total(y: i16, cr: i16, part: i16) -> i16
    requires y { Within 8191 y }
    requires cr { Within 8191 cr }
    requires part { Within (2 ^ 13) part }
    ensures { result ≡ y +ℤ pos 4096 +ℤ (cr +ℤ part) }
{
    y + 4096 + (cr + part)
}

#[inline]
fn blue_of(y: i16, cb: i16) -> u8
    requires y { Within 8191 y }
    requires cb { Within 8191 cb }
    ensures { result ≡ channel y (CB_IN_BLUE *ℤ cb) }
{
    level(i64::from(blue_total(y, cb, small_whole(blue_rest(cb)))))
}

#[inline]
fn green_of(y: i16, cb: i16, cr: i16) -> u8
    requires y { Within 8191 y }
    requires cb { Within 8191 cb }
    requires cr { Within 8191 cr }
    ensures { result ≡ channel y (CB_IN_GREEN *ℤ cb +ℤ CR_IN_GREEN *ℤ cr) }
{
    level(i64::from(green_total(y, cr, whole(green_rest(cb, cr)))))
}

#[inline]
fn red_of(y: i16, cr: i16) -> u8
    requires y { Within 8191 y }
    requires cr { Within 8191 cr }
    ensures { result ≡ channel y (CR_IN_RED *ℤ cr) }
{
    level(i64::from(red_total(y, cr, whole(red_rest(cr)))))
}

#[inline]
fn is_quick(sample: i16) -> bool
    ensures { IsTrue result → Within 8191 sample }
{
    -QUICK <= sample && sample <= QUICK
}

/// Whether all samples of a row are small enough.
// No early return: so it is done on many samples at a time.
#[inline]
fn are_quick(plane: &[i16; 4096], from: usize) -> bool
    requires { from + 64 ≤ 4096 }
    ensures { IsTrue result → (k : ℕ) → k < 64 → Within 8191 (at plane.now (from + k)) }
{
    let mut quick = true;
    for place in 0..64 {
        quick &= is_quick(plane[from + place]);
    }
    quick
}

/// Two halves of each pixel of a row.
#[inline]
fn put_halves(
    y: &[i16; 4096],
    cb: &[i16; 4096],
    cr: &[i16; 4096],
    from: usize,
    low: &mut [u16; 64],
    high: &mut [u16; 64],
)
    requires end { from + 64 ≤ 4096 }
    requires y { (k : ℕ) → k < 64 → Within 8191 (at y.now (from + k)) }
    requires cb { (k : ℕ) → k < 64 → Within 8191 (at cb.now (from + k)) }
    requires cr { (k : ℕ) → k < 64 → Within 8191 (at cr.now (from + k)) }
    ensures low { (k : ℕ) → k < 64 → slice_get low.new k ≡ Some (channel (at y.now (from + k)) (CB_IN_BLUE *ℤ at cb.now (from + k)) + 256 * channel (at y.now (from + k)) (CB_IN_GREEN *ℤ at cb.now (from + k) +ℤ CR_IN_GREEN *ℤ at cr.now (from + k))) }
    ensures high { (k : ℕ) → k < 64 → slice_get high.new k ≡ Some (channel (at y.now (from + k)) (CR_IN_RED *ℤ at cr.now (from + k))) }
{
    for place in 0..64 {
        let at = from + place;
        let blue = blue_of(y[at], cb[at]);
        let green = green_of(y[at], cb[at], cr[at]);
        low[place] = pair(blue, green);
        high[place] = u16::from(red_of(y[at], cr[at]));
    }
}

/// The pixels of a row whose samples are small enough.
#[inline]
fn put_quick_row(
    y: &[i16; 4096],
    cb: &[i16; 4096],
    cr: &[i16; 4096],
    from: usize,
    halves: &mut Halves,
    out: &mut [Pixel; 4096],
)
    requires end { from + 64 ≤ 4096 }
    requires y { (k : ℕ) → k < 64 → Within 8191 (at y.now (from + k)) }
    requires cb { (k : ℕ) → k < 64 → Within 8191 (at cb.now (from + k)) }
    requires cr { (k : ℕ) → k < 64 → Within 8191 (at cr.now (from + k)) }
    ensures row { (k : ℕ) → k < 64 → slice_get out.new (from + k) ≡ Some (colour_of (at y.now (from + k)) (at cb.now (from + k)) (at cr.now (from + k))) }
    ensures before { (k : ℕ) → k < from → slice_get out.new k ≡ slice_get out.old k }
{
    put_halves(y, cb, cr, from, &mut halves.low, &mut halves.high);
    join_halves(&halves.low, &halves.high, from, out);
}

#[inline]
fn colour_narrow(y: i16, cb: i16, cr: i16) -> Pixel
    ensures { result ≡ colour_of y cb cr }
{
    to_colour(i32::from(y), i32::from(cb), i32::from(cr))
}

/// The pixels of a row of any samples.
fn put_any_row(
    y: &[i16; 4096],
    cb: &[i16; 4096],
    cr: &[i16; 4096],
    from: usize,
    out: &mut [Pixel; 4096],
)
    requires end { from + 64 ≤ 4096 }
    ensures row { (k : ℕ) → k < 64 → slice_get out.new (from + k) ≡ Some (colour_of (at y.now (from + k)) (at cb.now (from + k)) (at cr.now (from + k))) }
    ensures before { (k : ℕ) → k < from → slice_get out.new k ≡ slice_get out.old k }
{
    for place in 0..64 {
        let at = from + place;
        out[at] = colour_narrow(y[at], cb[at], cr[at]);
    }
}

/// The pixels of a row: in 16 bits where its samples are small enough.
#[inline]
fn put_row(
    y: &[i16; 4096],
    cb: &[i16; 4096],
    cr: &[i16; 4096],
    from: usize,
    halves: &mut Halves,
    out: &mut [Pixel; 4096],
)
    requires end { from + 64 ≤ 4096 }
    ensures row { (k : ℕ) → k < 64 → slice_get out.new (from + k) ≡ Some (colour_of (at y.now (from + k)) (at cb.now (from + k)) (at cr.now (from + k))) }
    ensures before { (k : ℕ) → k < from → slice_get out.new k ≡ slice_get out.old k }
{
    if are_quick(y, from) && are_quick(cb, from) && are_quick(cr, from) {
        put_quick_row(y, cb, cr, from, halves, out);
    } else {
        put_any_row(y, cb, cr, from, out);
    }
}

/// Whether all samples of a tile are its first.
#[inline]
fn is_solid(plane: &[i16; 4096]) -> bool
    ensures { IsTrue result → (k : ℕ) → k < 4096 → at plane.now k ≡ at plane.now 0 }
{
    all_are(plane, plane[0])
}

/// Whether all samples of a tile are nought.
#[inline]
fn are_nought(plane: &[i16; 4096]) -> bool
    ensures { IsTrue result → (k : ℕ) → k < 4096 → at plane.now k ≡ pos 0 }
{
    all_are(plane, 0)
}

/// The pixels of a tile's samples in 16 bits, each as `to_colour` gives it.
pub fn to_colours_narrow(
    y: &[i16; 4096],
    cb: &[i16; 4096],
    cr: &[i16; 4096],
    out: &mut [Pixel; 4096],
)
    ensures { AreColours y.now cb.now cr.now out.new }
{
    if is_solid(y) && is_solid(cb) && is_solid(cr) {
        put_solid(colour_narrow(y[0], cb[0], cr[0]), out);
        return;
    }
    if are_nought(cb) && are_nought(cr) {
        put_greys(y, out);
        return;
    }
    let mut halves = Halves::new();
    for number in 0..64 {
        put_row(y, cb, cr, 64 * number, &mut halves, out);
    }
}

/// The pixels of a tile's samples, each as `to_colour` gives it. It goes pixel by pixel: samples that fit 16 bits
/// are for `to_colours_narrow`.
pub fn to_colours(y: &[i32; 4096], cb: &[i32; 4096], cr: &[i32; 4096], out: &mut [Pixel; 4096])
    requires y { AllWithin (2 ^ 23) y.now }
    requires cb { AllWithin (2 ^ 23) cb.now }
    requires cr { AllWithin (2 ^ 23) cr.now }
    ensures { AreColours y.now cb.now cr.now out.new }
{
    for place in 0..4096 {
        out[place] = to_colour(y[place], cb[place], cr[place]);
    }
}
