ghost use Rattle.std.specs.Prelude.{◌≡◌, ◌+◌, ◌*◌, ◌/◌, ◌%◌, ◌<◌, IsTrue};
ghost use Rattle.gfx_base.specs.Results.{check};
ghost use Rattle.gfx_base.specs.declared.refusal.Refusal.TheVariants.{QuantRange};
ghost use Rattle.gfx_quant.specs.Quant.{are_nibbles, is_base, quant_bytes, quant_values};

use gfx_base::Refusal;

/// The least value that a band may be quantised by ([MS-RDPEGFX] RFX_COMPONENT_CODEC_QUANT).
pub const LEAST_BASE: u8 = 6;

/// What a band's base and what a level leaves out of it are at most together.
pub const MOST_BITS: u8 = 15;

/// A number for each band of a component, in the order of `Band`: what the band is quantised by, or
/// how many low bits of it a quality leaves out ([MS-RDPEGFX] RFX_COMPONENT_CODEC_QUANT).
#[derive(Clone, Copy, Debug, PartialEq, Eq)]
pub struct Quant {
    pub values: [u8; 10],
    pub ghost nibbles: { IsTrue (are_nibbles values) },
}

/// A component of a tile's colour.
#[derive(Clone, Copy, Debug, PartialEq, Eq)]
pub enum Component {
    Y,
    Cb,
    Cr,
}

fn low_nibble(byte: u8) -> u8
    ensures value { result ≡ byte % 16 }
    ensures small { result < 16 }
{
    byte % 16
}

fn high_nibble(byte: u8) -> u8
    ensures value { result ≡ byte / 16 }
    ensures small { result < 16 }
{
    byte / 16
}

/// Reads a quant's five bytes: the low nibble of each comes before its high one.
pub fn quant_from(bytes: &[u8; 5]) -> Quant
    ensures values { result.values ≡ quant_values bytes.now }
    ensures back { quant_bytes result.values ≡ bytes.now }
{
    let [first, second, third, fourth, fifth] = *bytes;
    Quant {
        values: [
            high_nibble(fourth),
            low_nibble(fifth),
            high_nibble(fifth),
            low_nibble(third),
            high_nibble(third),
            low_nibble(fourth),
            high_nibble(first),
            low_nibble(second),
            high_nibble(second),
            low_nibble(first),
        ],
    }
}

/// The byte of two nibbles.
fn byte_of(low: u8, high: u8) -> u8
    requires low { low < 16 }
    requires high { high < 16 }
    ensures value { result ≡ low + 16 * high }
    ensures low { result % 16 ≡ low }
    ensures high { result / 16 ≡ high }
{
    low + 16 * high
}

/// Writes a quant as its five bytes.
pub fn quant_to(quant: &Quant) -> [u8; 5]
    ensures bytes { result ≡ quant_bytes quant.now.values }
    ensures back { quant_values result ≡ quant.now.values }
{
    let [hl1, lh1, hh1, hl2, lh2, hh2, hl3, lh3, hh3, ll3] = quant.values;
    [
        byte_of(ll3, hl3),
        byte_of(lh3, hh3),
        byte_of(hl2, lh2),
        byte_of(hh2, hl1),
        byte_of(lh1, hh1),
    ]
}

pub(crate) fn all_at_least_base(values: &[u8]) -> bool
    ensures { result ≡ is_base values.now }
{
    values.iter().all(|value| *value >= LEAST_BASE)
}

/// Whether a component may be quantised by these values: each is at least `LEAST_BASE`, else QuantRange.
pub fn check_base(quant: &Quant) -> Result<(), Refusal>
    ensures { result ≡ check QuantRange (is_base quant.now.values) }
{
    if all_at_least_base(&quant.values) {
        Ok(())
    } else {
        Err(Refusal::QuantRange)
    }
}
