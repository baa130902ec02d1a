//! The parts of a stream, and the first of them.
ghost use Rattle.std.specs.Prelude.{◌≡◌, ◌≤◌, ◌+◌, length};
ghost use Rattle.std.specs.Int.{w32};
ghost use Rattle.gfx_base.specs.Field.{number_at};
ghost use Rattle.gfx_base.specs.Outcome.{Gives, Says};
ghost use Rattle.gfx_clear_store.specs.Rings.{Rings};
ghost use Rattle.gfx_clear_bands.specs.Canvas.{on_canvas};
ghost use Rattle.gfx_clear.specs.Parts.{parts, residual};
ghost use Rattle.gfx_clear.specs.Inner.{parts_seen};

use gfx_base::{Fault, Pixel, Refusal};
use gfx_clear_runs::paint_runs;

/// How many bytes the sizes of the three parts have.
pub(crate) const COUNTS: usize = 12;

/// The three layers of a stream, each as it stands there.
#[derive(Clone, Copy)]
pub(crate) struct Parts<'a> {
    pub(crate) residual: &'a [u8],
    pub(crate) bands: &'a [u8],
    pub(crate) subcodecs: &'a [u8],
}

/// The parts of these bytes.
#[tactic(auto, unfolding(crate::specs::Parts::parts, gfx_base::specs::Results::and_then))]
pub(crate) fn read_parts(bytes: &[u8]) -> Result<Parts<'_>, Refusal>
    ensures { Says parts_seen result (parts bytes.now) }
{
    if bytes.len() < COUNTS {
        return Err(Refusal::ClearLengths);
    }
    let first = number_at(bytes, 0);
    let second = number_at(bytes, 4);
    let third = number_at(bytes, 8);
    let (_, rest) = bytes.split_at(COUNTS);
    if u64::from(first) + u64::from(second) + u64::from(third) != rest.len() as u64 {
        return Err(Refusal::ClearLengths);
    }
    let (residual, rest) = rest.split_at(first as usize);
    let (bands, subcodecs) = rest.split_at(second as usize);
    Ok(Parts {
        residual,
        bands,
        subcodecs,
    })
}

/// The number of the four bytes at a place.
pub(crate) fn number_at(bytes: &[u8], at: usize) -> u32
    requires { at + 4 ≤ length bytes.now }
    ensures { result ≡ number_at w32 bytes.now at }
{
    u32::from_le_bytes([bytes[at], bytes[at + 1], bytes[at + 2], bytes[at + 3]])
}

/// Draws the residual layer on a canvas.
#[tactic(auto, unfolding(crate::specs::Parts::residual, gfx_base::specs::Results::and_then))]
pub(crate) fn draw_residual(bytes: &[u8], canvas: &mut [Pixel]) -> Result<(), Fault>
    ensures { (held : Rings) → Gives (λ _. on_canvas canvas.new held) result (residual (length canvas.old) (on_canvas canvas.old held) bytes.now) }
{
    if bytes.is_empty() {
        return Ok(());
    }
    match paint_runs(bytes, canvas) {
        Ok(()) => Ok(()),
        Err(refusal) => Err(Fault::Refused(refusal)),
    }
}
