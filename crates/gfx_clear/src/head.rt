//! The head of a stream.
ghost use Rattle.std.specs.Prelude.{◌≡◌, ◌≤◌, length};
ghost use Rattle.std.specs.Int.{w16};
ghost use Rattle.gfx_base.specs.Field.{number_at};
ghost use Rattle.gfx_base.specs.Outcome.{Says};
ghost use Rattle.gfx_clear.specs.Heads.{is_set, head_size, glyph_use, is_due, has_place, is_small, head};

use gfx_base::Refusal;

/// An index of a glyph stands behind the sequence number.
pub(crate) const GLYPH_INDEX: u8 = 1;

/// The glyph at that index is shown, and nothing follows.
pub(crate) const GLYPH_HIT: u8 = 2;

/// Both rings are written from their start on.
pub(crate) const CACHE_RESET: u8 = 4;

/// How many glyphs there may be; their indices are below this.
const GLYPHS: u16 = 4000;

/// No glyph has more pixels.
const MOST_GLYPH: u32 = 1024;

/// What a stream does with glyphs.
#[derive(Clone, Copy)]
pub(crate) enum GlyphUse {
    Unused,
    /// What it draws is stored at an index.
    Stores { index: u16 },
    /// What stands at an index is drawn.
    Shows { index: u16 },
}

/// What stands before the layers of a stream.
#[derive(Clone, Copy)]
pub(crate) struct Head {
    pub(crate) sequence: u8,
    pub(crate) glyph: GlyphUse,
    pub(crate) reset: bool,
}

/// Reads the head of a stream for so many pixels, and returns the bytes behind it.
#[tactic(auto, unfolding(crate::specs::Heads::head, gfx_base::specs::Results::and_then))]
pub(crate) fn read_head<'a>(
    expected: Option<u8>,
    area: u32,
    bytes: &'a [u8],
) -> Result<(Head, &'a [u8]), Refusal>
    ensures { Says (λ read. (read.0, read.1.now)) result (head expected area bytes.now) }
{
    let [flags, ..] = bytes else {
        return Err(Refusal::ClearLengths);
    };
    let flags = *flags;
    let size = head_size(flags);
    if bytes.len() < size {
        return Err(Refusal::ClearLengths);
    }
    let glyph = match glyph_use(flags, bytes) {
        Ok(glyph) => glyph,
        Err(refusal) => return Err(refusal),
    };
    let sequence = bytes[1];
    if !is_due(expected, sequence) {
        return Err(Refusal::ClearSequence);
    }
    if !has_place(glyph) {
        return Err(Refusal::GlyphIndex);
    }
    if !is_small(area, glyph) {
        return Err(Refusal::GlyphArea);
    }
    let (_, rest) = bytes.split_at(size);
    let reset = is_set(CACHE_RESET, flags);
    Ok((
        Head {
            sequence,
            glyph,
            reset,
        },
        rest,
    ))
}

/// Whether the flag of this value is set.
fn is_set(flag: u8, flags: u8) -> bool
    requires { 1 ≤ flag }
    ensures { result ≡ is_set flag flags }
{
    flags / flag % 2 == 1
}

/// How many bytes a head with these flags has.
fn head_size(flags: u8) -> usize
    ensures { result ≡ head_size flags }
{
    if is_set(GLYPH_INDEX, flags) { 4 } else { 2 }
}

/// What the flags say of the index, which follows where they say that there is one.
fn glyph_use(flags: u8, bytes: &[u8]) -> Result<GlyphUse, Refusal>
    requires { head_size flags ≤ length bytes.now }
    ensures { result ≡ glyph_use flags (number_at w16 bytes.now 2) }
{
    let hit = is_set(GLYPH_HIT, flags);
    if !is_set(GLYPH_INDEX, flags) {
        return if hit {
            Err(Refusal::ClearFlags)
        } else {
            Ok(GlyphUse::Unused)
        };
    }
    let index = u16::from_le_bytes([bytes[2], bytes[3]]);
    Ok(if hit {
        GlyphUse::Shows { index }
    } else {
        GlyphUse::Stores { index }
    })
}

/// Whether this sequence number may come.
fn is_due(expected: Option<u8>, sequence: u8) -> bool
    ensures { result ≡ is_due expected sequence }
{
    match expected {
        None => true,
        Some(expected) => sequence == expected,
    }
}

/// Whether the index, if there is one, is in its range.
fn has_place(glyph: GlyphUse) -> bool
    ensures { result ≡ has_place glyph }
{
    match glyph {
        GlyphUse::Unused => true,
        GlyphUse::Stores { index } => index < GLYPHS,
        GlyphUse::Shows { index } => index < GLYPHS,
    }
}

/// Whether so many pixels may be stored or shown, if they are.
fn is_small(area: u32, glyph: GlyphUse) -> bool
    ensures { result ≡ is_small area glyph }
{
    match glyph {
        GlyphUse::Unused => true,
        GlyphUse::Stores { .. } => area <= MOST_GLYPH,
        GlyphUse::Shows { .. } => area <= MOST_GLYPH,
    }
}
