//! One column of a band.
ghost use Rattle.std.specs.Prelude.{◌≡◌, ◌≤◌, ◌+◌, ◌*◌, ◌<◌, length, ◌++◌, ℕ, replicate, slice_index_or, Ok, IfOk, IfSome, OnErr};
ghost use Rattle.gfx_base.specs.declared.pixel.Rgb.{Rgb as AnyRgb};
ghost use Rattle.arrayvec.specs.ArrayVec.{array_vec_len};
ghost use Rattle.gfx_base.specs.Outcome.{Says};
ghost use Rattle.gfx_clear_store.specs.Rings.{with_mark, with_bar, with_short};
ghost use Rattle.gfx_clear_bands.specs.Bars.{bar, hit_bar, short_bar, missed_bar, colour_at, colours, made_bar};
ghost use Rattle.gfx_clear_bands.specs.Inner.{read_as};

use crate::word::{Word, word_of};
use arrayvec::ArrayVec;
use gfx_base::{Refusal, Rgb};
use gfx_clear_store::{BARS, MOST_BAR, MOST_SHORT, SHORTS, Store};

/// A column that was read, and the bytes behind it.
#[derive(Drop)]
pub(crate) struct BarRead<'a> {
    pub(crate) pixels: ArrayVec<Rgb, MOST_BAR>,
    pub(crate) rest: &'a [u8],
}

/// Reads the next column. What it makes is kept in the store; a refusal leaves the store as it was.
#[tactic(auto, unfolding(crate::specs::Bars::bar, gfx_base::specs::Results::and_then))]
pub(crate) fn read_bar<'a>(
    store: &mut Store,
    bytes: &'a [u8],
    height: u16,
    background: Rgb,
) -> Result<BarRead<'a>, Refusal>
    requires { height ≤ MOST_BAR }
    ensures height { IfOk result (λ read. array_vec_len read.pixels ≡ height) }
    ensures bar { Says (λ read. read_as read store.new.held) result (bar store.old.held height background bytes.now) }
    ensures err { OnErr result (store.new ≡ store.old) }
    ensures shorter { IfOk result (λ read. length read.rest.now ≤ length bytes.now) }
    ensures marked { store.new.marked ≡ store.old.marked }
{
    if bytes.len() < 2 {
        return Err(Refusal::ClearLengths);
    }
    let number = u16::from_le_bytes([bytes[0], bytes[1]]);
    let rest = &bytes[2..];
    match word_of(number) {
        Word::Hit { place } => read_hit(store, rest, height, place),
        Word::ShortHit { place } => read_short_hit(store, rest, height, background, place),
        Word::Miss { on, off } => read_miss(store, rest, height, background, on, off),
    }
}

/// A column that stands in the store, and the bytes behind its word.
#[derive(Clone, Copy)]
pub(crate) struct Held<'a, 'b> {
    pub(crate) pixels: &'a [Rgb],
    pub(crate) rest: &'b [u8],
}

/// The next column where it is a bar of the store, and of this height; None where it is another, or refused.
#[tactic(auto, unfolding(crate::specs::Bars::bar, crate::specs::Bars::hit_bar, gfx_base::specs::Results::and_then))]
pub(crate) fn held_bar<'a, 'b>(
    store: &'a Store,
    bytes: &'b [u8],
    height: u16,
) -> Option<Held<'a, 'b>>
    ensures bar { IfSome result (λ held. (background : AnyRgb) → bar store.now.held height background bytes.now ≡ Ok (record { pixels = held.pixels.now; rings = store.now.held; rest = held.rest.now })) }
    ensures height { IfSome result (λ held. length held.pixels.now ≡ height) }
    ensures shorter { IfSome result (λ held. length held.rest.now ≤ length bytes.now) }
{
    if bytes.len() < 2 {
        return None;
    }
    let number = u16::from_le_bytes([bytes[0], bytes[1]]);
    let Word::Hit { place } = word_of(number) else {
        return None;
    };
    let pixels = store.bar(place)?;
    if pixels.len() != usize::from(height) {
        return None;
    }
    Some(Held {
        pixels,
        rest: &bytes[2..],
    })
}

/// The colour of three bytes.
#[inline(always)]
pub(crate) fn colour_at(bytes: &[u8], at: usize) -> Rgb
    requires { at + 3 ≤ length bytes.now }
    ensures { result ≡ colour_at bytes.now at }
{
    Rgb {
        b: bytes[at],
        g: bytes[at + 1],
        r: bytes[at + 2],
    }
}

/// Reads a column that is a bar of the store.
#[tactic(auto, unfolding(crate::specs::Bars::hit_bar, gfx_base::specs::Results::and_then))]
fn read_hit<'a>(
    store: &Store,
    rest: &'a [u8],
    height: u16,
    place: u16,
) -> Result<BarRead<'a>, Refusal>
    requires height { height ≤ MOST_BAR }
    requires place { place < BARS }
    ensures height { IfOk result (λ read. array_vec_len read.pixels ≡ height) }
    ensures bar { Says (λ read. read_as read store.now.held) result (hit_bar store.now.held height place rest.now) }
    ensures shorter { IfOk result (λ read. length read.rest.now ≤ length rest.now) }
{
    match store.bar(place) {
        Some(held) => {
            if held.len() != usize::from(height) {
                return Err(Refusal::BarHeight);
            }
            Ok(BarRead {
                pixels: copy_of(held),
                rest,
            })
        }
        None => Err(Refusal::BarEmpty),
    }
}

/// Reads a column that is a short of the store on a background.
#[tactic(auto, unfolding(crate::specs::Bars::short_bar, gfx_base::specs::Results::and_then))]
fn read_short_hit<'a>(
    store: &mut Store,
    rest: &'a [u8],
    height: u16,
    background: Rgb,
    place: u16,
) -> Result<BarRead<'a>, Refusal>
    requires height { height ≤ MOST_BAR }
    requires place { place < SHORTS }
    ensures height { IfOk result (λ read. array_vec_len read.pixels ≡ height) }
    ensures bar { Says (λ read. read_as read store.new.held) result (short_bar store.old.held height background place rest.now) }
    ensures err { OnErr result (store.new ≡ store.old) }
    ensures shorter { IfOk result (λ read. length read.rest.now ≤ length rest.now) }
    ensures marked { store.new.marked ≡ store.old.marked }
{
    if rest.is_empty() {
        return Err(Refusal::ClearLengths);
    }
    let pixels = match store.short(place) {
        Some(short) => made_bar(height, background, rest[0], short),
        None => return Err(Refusal::BarEmpty),
    };
    keep(store, pixels.as_slice());
    Ok(BarRead {
        pixels,
        rest: &rest[1..],
    })
}

/// Reads a column that brings a short of its own.
#[tactic(auto, unfolding(crate::specs::Bars::missed_bar, gfx_base::specs::Results::and_then))]
fn read_miss<'a>(
    store: &mut Store,
    rest: &'a [u8],
    height: u16,
    background: Rgb,
    on: u8,
    off: u8,
) -> Result<BarRead<'a>, Refusal>
    requires height { height ≤ MOST_BAR }
    requires off { off < 64 }
    ensures height { IfOk result (λ read. array_vec_len read.pixels ≡ height) }
    ensures bar { Says (λ read. read_as read store.new.held) result (missed_bar store.old.held height background on off rest.now) }
    ensures err { OnErr result (store.new ≡ store.old) }
    ensures shorter { IfOk result (λ read. length read.rest.now ≤ length rest.now) }
    ensures marked { store.new.marked ≡ store.old.marked }
{
    if on > off {
        return Err(Refusal::BarOrder);
    }
    let count = usize::from(off - on);
    if rest.len() < 3 * count {
        return Err(Refusal::ClearLengths);
    }
    let short = colours(rest, count);
    let pixels = made_bar(height, background, on, short.as_slice());
    keep_short(store, short.as_slice());
    keep(store, pixels.as_slice());
    Ok(BarRead {
        pixels,
        rest: &rest[3 * count..],
    })
}

/// Keeps a bar.
#[inline(always)]
pub(crate) fn keep(store: &mut Store, pixels: &[Rgb])
    requires { length pixels.now ≤ MOST_BAR }
    ensures { store.new ≡ with_mark (with_bar pixels.now store.old.held) store.old.marked }
{
    // It takes no memory.
    let _ = store.add_bar(pixels);
}

/// Keeps a short.
#[inline(always)]
pub(crate) fn keep_short(store: &mut Store, pixels: &[Rgb])
    requires { length pixels.now ≤ MOST_SHORT }
    ensures { store.new ≡ with_mark (with_short pixels.now store.old.held) store.old.marked }
{
    // It takes no memory.
    let _ = store.add_short(pixels);
}

fn copy_of(pixels: &[Rgb]) -> ArrayVec<Rgb, MOST_BAR>
    requires { length pixels.now ≤ MOST_BAR }
    ensures { result.items ≡ pixels.now }
{
    let mut copy = ArrayVec::new();
    // There is room for so many.
    let _ = copy.try_extend_from_slice(pixels);
    copy
}

/// So many colours from the front of the bytes.
fn colours(bytes: &[u8], count: usize) -> ArrayVec<Rgb, MOST_SHORT>
    requires most { count ≤ MOST_SHORT }
    requires within { 3 * count ≤ length bytes.now }
    ensures { result.items ≡ colours count bytes.now }
{
    let mut found = ArrayVec::new();
    'colours: for n in 0..count {
        found.push(colour_at(bytes, 3 * n));
    }
    found
}

/// A bar from a short that begins in this row, on a background.
#[tactic(auto, unfolding(crate::specs::Bars::made_bar))]
fn made_bar(height: u16, background: Rgb, on: u8, short: &[Rgb]) -> ArrayVec<Rgb, MOST_BAR>
    requires { height ≤ MOST_BAR }
    ensures bar { result.items ≡ made_bar height background on short.now }
    ensures height { array_vec_len result ≡ height }
{
    let mut bar = ArrayVec::new();
    'rows: for row in 0..height {
        bar.push(pixel_of(background, on, short, row));
    }
    bar
}

/// The pixel in a row of such a bar.
#[inline(always)]
fn pixel_of(background: Rgb, on: u8, short: &[Rgb], row: u16) -> Rgb
    ensures { (height : ℕ) → row < height → result ≡ slice_index_or (replicate on background ++ (short.now ++ replicate height background)) row background }
{
    if row < u16::from(on) {
        return background;
    }
    match short.get(usize::from(row - u16::from(on))) {
        Some(pixel) => *pixel,
        None => background,
    }
}
