ghost use Rattle.std.specs.Prelude.{◌≡◌, ◌+◌, ◌<◌, ◌≤◌, length, IfSome};
ghost use Rattle.std.specs.Int.{w16, w32};
ghost use Rattle.gfx_base.specs.Field.{field};
ghost use Rattle.gfx_clear_runs.specs.Lengths.{length_at, middle_length};

use gfx_base::{field_u16, field_u32};

/// A run length, and how many bytes it was spelled in.
#[derive(Clone, Copy)]
pub struct Length {
    pub count: u32,
    pub size: usize,
}

/// The byte behind which the middle form of a run length stands.
const MIDDLE_MARK: u8 = 0xFF;

/// The number behind which the long form of a run length stands.
const LONG_MARK: u16 = 0xFFFF;

/// The run length at the front of bytes; None exactly where they end before it does.
#[inline(always)]
#[tactic(auto, unfolding(crate::specs::Lengths::length_at, crate::specs::Lengths::middle_length, crate::specs::Lengths::long_length))]
pub(crate) fn length_at(bytes: &[u8]) -> Option<Length>
    ensures value { result ≡ length_at bytes.now }
    ensures within { IfSome result (λ run. (0 < run.size) × (run.size < 8) × (run.size ≤ length bytes.now)) }
{
    let short = *bytes.first()?;
    if short != MIDDLE_MARK {
        return Some(Length {
            count: u32::from(short),
            size: 1,
        });
    }
    marked_length_at(bytes)
}

/// The run length behind its first mark.
#[tactic(auto, unfolding(crate::specs::Lengths::middle_length, crate::specs::Lengths::long_length))]
fn marked_length_at(bytes: &[u8]) -> Option<Length>
    ensures value { result ≡ middle_length (field w16 bytes.now 1) (field w32 bytes.now 3) }
    ensures within { IfSome result (λ run. (0 < run.size) × (run.size < 8) × (run.size ≤ length bytes.now)) }
{
    let middle = field_u16(bytes, 1)?;
    if middle != LONG_MARK {
        return Some(Length {
            count: u32::from(middle),
            size: 3,
        });
    }
    let long = field_u32(bytes, 3)?;
    Some(Length {
        count: long,
        size: 7,
    })
}
