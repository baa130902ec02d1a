ghost use Rattle.std.specs.Prelude.{◌≡◌, ◌+◌, ◌-◌, ◌∷◌, ◌++◌, ◌<◌, ◌≤◌, ◌^◌, length, OnOk, OnErr, MatchOption};
ghost use Rattle.std.specs.List.{flat_map};
ghost use Rattle.gfx_clear_runs.specs.Lengths.{length_spelled};
ghost use Rattle.gfx_clear_runs.specs.Views.{spelling};
ghost use Rattle.gfx_clear_runs.specs.Inner.{IsGrown};
ghost use Rattle.gfx_clear_runs.specs.Writing.{Writes, entry_spelled, longest_runs, place_of, rlex_by, rlex_written, run, run_spelled, runs_written, segment_spelled, segments_written};

use crate::coding::Coding;
use crate::collect::colours_of;
use crate::front::front_run;
use crate::palette::{Colours, PALETTE_MOST, Palette, stop_bits};
use gfx_base::{Bytes, NoMemory, Rgb};

/// Appends a residual layer of these pixels: their longest runs, each with the shortest run length.
pub fn write_runs(pixels: &[Rgb], out: &mut Bytes) -> Result<(), NoMemory>
    requires { length pixels.now < 2 ^ 32 }
    ensures ok { OnOk result (out.new ≡ out.old ++ runs_written pixels.now) }
    ensures err { OnErr result (out.new ≡ out.old) }
{
    let before = out.len();
    match put_runs(&Coding::Runs, pixels, out) {
        Ok(()) => Ok(()),
        Err(full) => {
            out.truncate(before);
            Err(full)
        }
    }
}

/// Appends the longest runs of these pixels, each as its coding spells it.
fn put_runs(coding: &Coding, pixels: &[Rgb], out: &mut Bytes) -> Result<(), NoMemory>
    requires { length pixels.now < 2 ^ 32 }
    ensures ok { OnOk result (out.new ≡ out.old ++ flat_map (spelling coding.now) (longest_runs pixels.now)) }
    ensures err { OnErr result (IsGrown out.old out.new) }
{
    let mut rest = pixels;
    'runs: while !rest.is_empty() {
        let colour = rest[0];
        let count = front_run(colour, rest);
        coding.put(colour, count as u32, out)?;
        let (_, after) = rest.split_at(count);
        rest = after;
    }
    Ok(())
}

/// Appends the RLEX subcodec of these pixels; false exactly where they have more colours than a palette
/// may have, or none.
pub fn write_rlex(pixels: &[Rgb], out: &mut Bytes) -> Result<bool, NoMemory>
    requires { length pixels.now < 2 ^ 32 }
    ensures { Writes result (rlex_written pixels.now) out.old out.new }
{
    match colours_of(pixels) {
        None => Ok(false),
        Some(colours) => write_with(colours, pixels, out),
    }
}

/// Appends the RLEX subcodec of these pixels with the palette of their colours, if there are any.
fn write_with(colours: Colours, pixels: &[Rgb], out: &mut Bytes) -> Result<bool, NoMemory>
    requires { length pixels.now < 2 ^ 32 }
    ensures { Writes result (rlex_by colours.items pixels.now) out.old out.new }
{
    if colours.is_empty() {
        return Ok(false);
    }
    let before = out.len();
    let bits = stop_bits(colours.len());
    match put_segments(Palette { colours, bits }, pixels, out) {
        Ok(()) => Ok(true),
        Err(full) => {
            out.truncate(before);
            Err(full)
        }
    }
}

/// Appends the RLEX subcodec of these pixels with a palette.
fn put_segments(palette: Palette, pixels: &[Rgb], out: &mut Bytes) -> Result<(), NoMemory>
    requires { length pixels.now < 2 ^ 32 }
    ensures ok { OnOk result (out.new ≡ out.old ++ segments_written palette.colours.items pixels.now) }
    ensures err { OnErr result (IsGrown out.old out.new) }
{
    put_palette(&palette.colours, out)?;
    put_runs(&Coding::Segments(palette), pixels, out)
}

/// Appends the number of a palette's colours, and these.
fn put_palette(colours: &Colours, out: &mut Bytes) -> Result<(), NoMemory>
    ensures ok { OnOk result (out.new ≡ out.old ++ length colours.now.items ∷ flat_map entry_spelled colours.now.items) }
    ensures err { OnErr result (IsGrown out.old out.new) }
{
    out.push(colours.len() as u8)?;
    for colour in colours.as_slice() {
        out.append(&[colour.b, colour.g, colour.r])?;
    }
    Ok(())
}

impl Coding {
    /// Appends a run.
    #[inline(always)]
    fn put(&self, colour: Rgb, count: u32, out: &mut Bytes) -> Result<(), NoMemory>
        requires { 0 < count }
        ensures ok { OnOk result (out.new ≡ out.old ++ spelling self.now (run colour count)) }
        ensures err { OnErr result (IsGrown out.old out.new) }
    {
        match self {
            Coding::Runs => put_run(colour, count, out),
            Coding::Segments(palette) => put_segment(&palette.colours, colour, count, out),
        }
    }
}

/// Appends a run of a residual layer.
#[inline(always)]
#[tactic(auto, unfolding(crate::specs::Lengths::length_spelled))]
fn put_run(colour: Rgb, count: u32, out: &mut Bytes) -> Result<(), NoMemory>
    ensures ok { OnOk result (out.new ≡ out.old ++ run_spelled (run colour count)) }
    ensures err { OnErr result (IsGrown out.old out.new) }
{
    out.append(&[colour.b, colour.g, colour.r])?;
    put_length(count, out)
}

/// Appends a run as a segment that stops where it starts.
fn put_segment(palette: &Colours, colour: Rgb, count: u32, out: &mut Bytes) -> Result<(), NoMemory>
    requires { 0 < count }
    ensures ok { OnOk result (out.new ≡ out.old ++ segment_spelled palette.now.items (run colour count)) }
    ensures err { OnErr result (IsGrown out.old out.new) }
{
    out.push(place_of(palette, colour))?;
    put_length(count - 1, out)
}

/// The place of a colour in a palette, or the number of its colours where it isn't there.
fn place_of(palette: &Colours, colour: Rgb) -> u8
    ensures { result ≡ place_of palette.now.items colour }
{
    let mut place = 0;
    for held in palette.as_slice() {
        if colour.is_same(*held) {
            return place;
        }
        place += 1;
    }
    place
}

/// Appends a run length in its shortest form.
#[tactic(auto, unfolding(crate::specs::Lengths::length_spelled))]
fn put_length(count: u32, out: &mut Bytes) -> Result<(), NoMemory>
    ensures ok { OnOk result (out.new ≡ out.old ++ length_spelled count) }
    ensures err { OnErr result (out.new ≡ out.old) }
{
    if count < 0xFF {
        return out.push(count as u8);
    }
    if count < 0xFFFF {
        let [low, high] = (count as u16).to_le_bytes();
        return out.append(&[0xFF, low, high]);
    }
    let [first, second, third, fourth] = count.to_le_bytes();
    out.append(&[0xFF, 0xFF, 0xFF, first, second, third, fourth])
}
