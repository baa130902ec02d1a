ghost use Rattle.std.specs.Prelude.{◌≡◌, ◌+◌, ◌/◌, ◌%◌, ◌<◌, ◌≤◌, ◌^◌, [], length, IfOk};
ghost use Rattle.gfx_base.specs.Outcome.{Says};
ghost use Rattle.gfx_clear_runs.specs.Elements.{element, run_at, segment_at, segment_from};

use crate::length::{Length, length_at};
use crate::palette::Palette;
use gfx_base::{Refusal, Rgb};

/// A colour so many times, more pixels behind it, and how many bytes they were spelled in.
#[derive(Clone, Copy)]
pub struct Stretch<'a> {
    pub colour: Rgb,
    pub count: u32,
    pub more: &'a [Rgb],
    pub size: usize,
}

/// The run at the front of bytes.
#[inline(always)]
#[tactic(auto, unfolding(crate::specs::Elements::run_at, crate::specs::Elements::run_with))]
pub(crate) fn run_at(bytes: &[u8]) -> Result<Stretch<'static>, Refusal>
    ensures value { Says (λ s. element s.colour s.count s.more.now s.size) result (run_at bytes.now) }
    ensures within { IfOk result (λ s. (0 < s.size) × (s.size ≤ length bytes.now)) }
    ensures few { IfOk result (λ s. length s.more.now ≤ 127) }
{
    let [b, g, r, rest @ ..] = bytes else {
        return Err(Refusal::ClearLengths);
    };
    match length_at(rest) {
        None => Err(Refusal::ClearLengths),
        Some(run) => Ok(Stretch {
            colour: Rgb {
                b: *b,
                g: *g,
                r: *r,
            },
            count: run.count,
            more: &[],
            size: 3 + run.size,
        }),
    }
}

/// A byte above so many of its bits, and these bits.
#[inline(always)]
fn halves(byte: u8, bits: u32) -> (u8, u8)
    requires { bits < 8 }
    ensures upper { result.0 ≡ byte / 2 ^ bits }
    ensures lower { result.1 ≡ byte % 2 ^ bits }
{
    let upper = byte >> bits;
    (upper, byte - (upper << bits))
}

impl Palette {
    /// The segment at the front of bytes.
    #[inline(always)]
    #[tactic(auto, unfolding(crate::specs::Elements::segment_at, crate::specs::Elements::segment_with))]
    pub fn segment_at(&self, bytes: &[u8]) -> Result<Stretch<'_>, Refusal>
        ensures value { Says (λ s. element s.colour s.count s.more.now s.size) result (segment_at self.now.colours.items bytes.now) }
        ensures within { IfOk result (λ s. (0 < s.size) × (s.size ≤ length bytes.now)) }
        ensures few { IfOk result (λ s. length s.more.now ≤ 127) }
    {
        let [byte, rest @ ..] = bytes else {
            return Err(Refusal::ClearLengths);
        };
        match length_at(rest) {
            None => Err(Refusal::ClearLengths),
            Some(run) => {
                let (depth, stop) = halves(*byte, self.bits);
                self.segment_from(usize::from(stop), usize::from(depth), run)
            }
        }
    }

    /// The colours up to where a segment stops, the first of them so many times before.
    #[inline(always)]
    #[tactic(auto, unfolding(crate::specs::Elements::segment_from))]
    fn segment_from(&self, stop: usize, depth: usize, run: Length) -> Result<Stretch<'_>, Refusal>
        requires { run.size < 8 }
        ensures value { Says (λ s. element s.colour s.count s.more.now s.size) result (segment_from self.now.colours.items stop depth run) }
        ensures size { IfOk result (λ s. s.size ≡ 1 + run.size) }
        ensures few { IfOk result (λ s. length s.more.now ≤ 127) }
    {
        let colours = self.colours.as_slice();
        if stop >= colours.len() || depth > stop {
            return Err(Refusal::PaletteRange);
        }
        let start = stop - depth;
        Ok(Stretch {
            colour: colours[start],
            count: run.count,
            more: &colours[start..stop + 1],
            size: 1 + run.size,
        })
    }
}

impl<'a> Stretch<'a> {
    /// How many pixels it has.
    pub fn area(&self) -> u64
        requires { length self.now.more.now ≤ 127 }
        ensures { result ≡ self.now.count + length self.now.more.now }
    {
        u64::from(self.count) + self.more.len() as u64
    }
}
