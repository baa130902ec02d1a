//! The word that each column begins with.
ghost use Rattle.std.specs.Prelude.{◌≡◌};
ghost use Rattle.gfx_clear_bands.specs.Bars.{word_of};

/// How a column is sent.
#[derive(Clone, Copy)]
pub(crate) enum Word {
    /// As a place of the bars.
    Hit { place: u16 },
    /// As a place of the shorts. The row where the short begins follows.
    ShortHit { place: u16 },
    /// As a short of its own, from one row up to another. Its pixels follow.
    Miss { on: u8, off: u8 },
}

/// From this word on it is a hit.
pub(crate) const HIT: u16 = 0x8000;

/// From this word on, below the hits, it is a short hit.
pub(crate) const SHORT_HIT: u16 = 0x4000;

/// What a row after the last is worth in a miss, beside its first row.
pub(crate) const OFF: u16 = 0x100;

/// What a column's word says.
pub(crate) fn word_of(number: u16) -> Word
    ensures { result ≡ word_of number }
{
    if number >= HIT {
        Word::Hit {
            place: number - HIT,
        }
    } else if number >= SHORT_HIT {
        Word::ShortHit {
            place: number - SHORT_HIT,
        }
    } else {
        Word::Miss {
            on: (number % OFF) as u8,
            off: (number / OFF) as u8,
        }
    }
}
