ghost use Rattle.std.specs.Prelude.{◌≡◌, ◌≤◌, ◌++◌, length, replicate, MatchResult, OnOk, OnErr};
ghost use Rattle.gfx_clear_runs.specs.Elements.{pixels_in, element};
ghost use Rattle.gfx_clear_runs.specs.Outcome.{Appends, IsBegun};
ghost use Rattle.gfx_clear_runs.specs.Inner.{reason_of};
ghost use Rattle.gfx_clear_runs.specs.Reading.{part_of, rlex_of, runs_of, segments_behind};
ghost use Rattle.gfx_clear_runs.specs.Views.{reading};

use crate::coding::Coding;
use crate::element::Stretch;
use crate::palette::{PALETTE_MOST, Palette, read_entries, stop_bits};
use gfx_base::{Fault, NoMemory, Refusal, Rgb, Rgbs};

/// Appends the pixels of a residual layer, which are to cover an area.
pub fn read_runs(bytes: &[u8], area: u32, out: &mut Rgbs) -> Result<(), Fault>
    ensures { Appends result area (runs_of bytes.now) out.old out.new }
{
    append_part(&Coding::Runs, bytes, area, out)
}

/// Appends the pixels of the RLEX subcodec, which are to cover an area.
#[tactic(auto, unfolding(crate::specs::Reading::rlex_of, crate::specs::Reading::covering))]
pub fn read_rlex(bytes: &[u8], area: u32, out: &mut Rgbs) -> Result<(), Fault>
    ensures { Appends result area (rlex_of bytes.now) out.old out.new }
{
    let [count, rest @ ..] = bytes else {
        return Err(Fault::Refused(Refusal::ClearLengths));
    };
    let count = usize::from(*count);
    if count == 0 || count > PALETTE_MOST {
        return Err(Fault::Refused(Refusal::PaletteRange));
    }
    append_segments(count, rest, area, out)
}

/// Appends the pixels of segments behind a palette of so many colours.
fn append_segments(count: usize, bytes: &[u8], area: u32, out: &mut Rgbs) -> Result<(), Fault>
    requires { count ≤ 127 }
    ensures { Appends result area (segments_behind count bytes.now) out.old out.new }
{
    let size = 3 * count;
    if bytes.len() < size {
        return Err(Fault::Refused(Refusal::ClearLengths));
    }
    let palette = Palette {
        colours: read_entries(count, bytes),
        bits: stop_bits(count),
    };
    let (_, segments) = bytes.split_at(size);
    append_part(&Coding::Segments(palette), segments, area, out)
}

/// Appends the pixels of a part, which are to cover an area.
fn append_part(coding: &Coding, bytes: &[u8], area: u32, out: &mut Rgbs) -> Result<(), Fault>
    ensures { Appends result area (part_of (reading coding.now) bytes.now) out.old out.new }
{
    let mut rest = bytes;
    let mut left = area;
    'elements: while !rest.is_empty() {
        let stretch = match coding.element_at(rest) {
            Ok(stretch) => stretch,
            Err(reason) => return Err(Fault::Refused(reason)),
        };
        let (_, after) = rest.split_at(stretch.size);
        let gained = stretch.area();
        if gained > u64::from(left) {
            return Err(Fault::Refused(reason_behind(coding, after)));
        }
        append(&stretch, out)?;
        left -= gained as u32;
        rest = after;
    }
    if left > 0 {
        return Err(Fault::Refused(Refusal::RunTotal));
    }
    Ok(())
}

/// Why a part is refused whose elements are too many already.
#[cold]
pub(crate) fn reason_behind(coding: &Coding, bytes: &[u8]) -> Refusal
    ensures { result ≡ reason_of (part_of (reading coding.now) bytes.now) }
{
    let mut rest = bytes;
    'behind: while !rest.is_empty() {
        let stretch = match coding.element_at(rest) {
            Ok(stretch) => stretch,
            Err(reason) => return reason,
        };
        let (_, after) = rest.split_at(stretch.size);
        rest = after;
    }
    Refusal::RunTotal
}

/// Appends the pixels of a stretch.
#[inline(always)]
fn append(stretch: &Stretch<'_>, out: &mut Rgbs) -> Result<(), NoMemory>
    ensures ok { OnOk result (out.new ≡ out.old ++ (replicate stretch.now.count stretch.now.colour ++ stretch.now.more.now)) }
    ensures err { OnErr result (IsBegun (replicate stretch.now.count stretch.now.colour ++ stretch.now.more.now) out.old out.new) }
{
    append_copies(stretch.colour, stretch.count, out)?;
    out.append(stretch.more)
}

/// How many copies are appended at once, where there are that many.
const BLOCK: usize = 64;

/// Appends so many copies of a colour.
#[inline(always)]
fn append_copies(colour: Rgb, count: u32, out: &mut Rgbs) -> Result<(), NoMemory>
    ensures ok { OnOk result (out.new ≡ out.old ++ replicate count colour) }
    ensures err { OnErr result (IsBegun (replicate count colour) out.old out.new) }
{
    if count < 8 {
        append_few(colour, count, out)
    } else {
        append_many(colour, count, out)
    }
}

/// Appends copies one by one.
#[inline(always)]
fn append_few(colour: Rgb, count: u32, out: &mut Rgbs) -> Result<(), NoMemory>
    ensures ok { OnOk result (out.new ≡ out.old ++ replicate count colour) }
    ensures err { OnErr result (IsBegun (replicate count colour) out.old out.new) }
{
    'copies: for _ in 0..count {
        out.push(colour)?;
    }
    Ok(())
}

/// Appends copies in blocks.
fn append_many(colour: Rgb, count: u32, out: &mut Rgbs) -> Result<(), NoMemory>
    ensures ok { OnOk result (out.new ≡ out.old ++ replicate count colour) }
    ensures err { OnErr result (IsBegun (replicate count colour) out.old out.new) }
{
    let block = [colour; BLOCK];
    let mut left = count as usize;
    'blocks: while left > 0 {
        let size = left.min(BLOCK);
        out.append(&block[..size])?;
        left -= size;
    }
    Ok(())
}
