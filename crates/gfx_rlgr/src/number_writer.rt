//! Numbers as codes.
ghost use Rattle.std.specs.Prelude.{◌≡◌, ◌+◌, ◌/◌, ◌%◌, ◌<◌, ◌≤◌, ◌^◌, ◌∷◌, ◌++◌, replicate, OnOk, true, false};
ghost use Rattle.gfx_bits.specs.Bits.{digits};
ghost use Rattle.gfx_rlgr.specs.Code.{kr, number_code, after_number};
ghost use Rattle.gfx_rlgr.specs.Steps.{AreWithin};

use crate::params::Params;
use gfx_bits::{BitWriter, NoBits};

/// A number's code of fewer ones is written at once: it has 26 bits at most.
const FEW_ONES: u32 = 16;

/// Writes a number's code.
pub(crate) fn write_number(
    bits: &mut BitWriter,
    params: &mut Params,
    number: u32,
) -> Result<(), NoBits>
    requires { AreWithin params.old }
    ensures { OnOk result ((bits.new ≡ bits.old ++ number_code (kr params.old) number) × (params.new ≡ after_number params.old number)) }
{
    let low = params.kr();
    let ones = number >> low;
    write_code(bits, number, ones, low)?;
    params.after_ones(ones);
    Ok(())
}

// Writes that many ones, a zero, and so many low bits of a number. Mostly one word holds them all.
fn write_code(bits: &mut BitWriter, number: u32, ones: u32, low: u8) -> Result<(), NoBits>
    requires low { low ≤ 10 }
    requires ones { ones ≡ number / 2 ^ low }
    ensures { OnOk result (bits.new ≡ bits.old ++ number_code low number) }
{
    if ones < FEW_ONES {
        return bits.push(short_code(number, ones, low), ones as u8 + 1 + low);
    }
    bits.push_ones(ones)?;
    bits.push(0, 1)?;
    bits.push(number & ((1 << low) - 1), low)
}

// Few ones, a zero, and the low bits of a number, as a number.
#[inline(always)]
fn short_code(number: u32, ones: u32, low: u8) -> u32
    requires ones { ones < FEW_ONES }
    requires low { low ≤ 10 }
    ensures bits { digits (ones + 1 + low) result ≡ replicate ones true ++ (false ∷ digits low (number % 2 ^ low)) }
    ensures below { result < 2 ^ (ones + 1 + low) }
{
    let head = ((1 << ones) - 1) << (low + 1);
    head + (number & ((1 << low) - 1))
}
