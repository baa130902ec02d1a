ghost use Rattle.std.specs.Prelude.{All, ◌≡◌, ◌<◌, ◌^◌, ◌∷◌, [], true, pos, List, length, take, map, OnOk, IfOk, IfErr, OnErr, Ok, Err};
ghost use Rattle.gfx_base.specs.declared.refusal.Refusal.TheVariants.{CoefficientRange};
ghost use Rattle.gfx_bits.specs.Bits.{bits_of};
ghost use Rattle.gfx_rlgr.specs.Bound.{greatest};
ghost use Rattle.gfx_rlgr.specs.declared.mode.Mode.{Mode};
ghost use Rattle.gfx_rlgr.specs.declared.mode.Mode.TheVariants.{Rlgr1};
ghost use Rattle.gfx_rlgr.specs.Code.{Token, start, k};
ghost use Rattle.gfx_rlgr.specs.Rlgr.{Decodes, Reading, terms as terms_from};
ghost use Rattle.gfx_rlgr.specs.Steps.{AreWithin, ReadsToken, kept, shown, filled};

use crate::mode::Mode;
use crate::number_reader::{read_number, signed, unfolded};
use crate::pair_reader::read_pair;
use crate::params::{MAGNITUDE_MAX, Params, TERMS};
use crate::placing::{Terms, higher, place};
use gfx_base::Refusal;
use gfx_bits::BitReader;

/// Reads the 4,096 values that the bytes say in a mode, with zero bits behind their end ([MS-RDPRFX]
/// 3.1.8.1.7.3). A magnitude above 32,767 among them is `CoefficientRange`, and so is a pair whose
/// first number is above the sum; all values are then zero. What it gives is the greatest magnitude.
/// It takes no memory.
pub fn decode(mode: Mode, bytes: &[u8], out: &mut [i16; 4096]) -> Result<u16, Refusal>
    ensures ok { OnOk result (Decodes mode bytes.now (Ok out.new)) }
    ensures greatest { IfOk result (λ most. most ≡ greatest out.new) }
    ensures refused { IfErr result (λ refusal. (refusal ≡ CoefficientRange) × Decodes mode bytes.now (Err CoefficientRange)) }
    ensures err { OnErr result (All (λ value. value ≡ pos 0) out.new) }
{
    let most = fill_by(mode, bytes, out);
    if u32::from(most) <= MAGNITUDE_MAX {
        return Ok(most);
    }
    clear(out);
    Err(Refusal::CoefficientRange)
}

// What `fill` does, by a loop for each mode.
#[inline(always)]
fn fill_by(mode: Mode, bytes: &[u8], out: &mut [i16; 4096]) -> u16
    ensures { (tokens : List Token) × Reading mode (bits_of bytes.now) tokens
        × (out.new ≡ map kept (take 4096 (terms_from start tokens)))
        × (result ≡ greatest out.new) }
{
    match mode {
        Mode::Rlgr1 => fill(Mode::Rlgr1, bytes, out),
        Mode::Rlgr3 => fill(Mode::Rlgr3, bytes, out),
    }
}

// Reads tokens until the values are there, and gives the greatest magnitude.
#[inline(always)]
fn fill(mode: Mode, bytes: &[u8], out: &mut [i16; 4096]) -> u16
    ensures { (tokens : List Token) × Reading mode (bits_of bytes.now) tokens
        × (out.new ≡ map kept (take 4096 (terms_from start tokens)))
        × (result ≡ greatest out.new) }
{
    clear(out);
    let mut bits = BitReader::new(bytes);
    let mut params = Params::start();
    let mut at = 0;
    let mut most = 0;
    'tokens: while at < TERMS {
        let terms = read_token(mode, &mut bits, &mut params);
        let (next, magnitude) = place(out, at, terms);
        at = next;
        most = higher(most, magnitude);
    }
    most
}

// Makes all values zero.
fn clear(out: &mut [i16; 4096])
    ensures { out.new ≡ filled 4096 [] }
{
    *out = [0; 4096];
}

// Reads a token, by whether the parameters have runs.
#[inline(always)]
fn read_token(mode: Mode, bits: &mut BitReader<'_>, params: &mut Params) -> Terms
    requires within { AreWithin params.old }
    requires count { length bits.old < 2 ^ 67 }
    ensures { ReadsToken mode bits.old bits.new params.old params.new (shown result) }
{
    let k = params.k();
    if k == 0 {
        return read_single(mode, bits, params);
    }
    if bits.read(1) == 0 {
        params.after_run();
        return Terms::Zeros(1 << k);
    }
    read_last_run(bits, params, k)
}

// Reads the rest of a run that a value ends, behind its first bit.
#[inline(always)]
fn read_last_run(bits: &mut BitReader<'_>, params: &mut Params, width: u8) -> Terms
    requires within { AreWithin params.old }
    requires width { width ≡ k params.old }
    requires run { 0 < width }
    ensures { (mode : Mode) → ReadsToken mode (true ∷ bits.old) bits.new params.old params.new (shown result) }
{
    let zeros = bits.read(width);
    let negative = bits.read(1) == 1;
    params.after_last_run();
    let below = read_number(bits, params);
    Terms::ValueBehind(zeros, signed(negative, below))
}

// Reads a token where there are no runs: a value in RLGR1, two in RLGR3.
#[inline(always)]
fn read_single(mode: Mode, bits: &mut BitReader<'_>, params: &mut Params) -> Terms
    requires within { AreWithin params.old }
    requires single { k params.old ≡ 0 }
    requires count { length bits.old < 2 ^ 67 }
    ensures { ReadsToken mode bits.old bits.new params.old params.new (shown result) }
{
    match mode {
        Mode::Rlgr1 => Terms::ValueBehind(0, read_value(bits, params)),
        Mode::Rlgr3 => {
            let (one, other) = read_pair(bits, params);
            Terms::TwoValues(one, other)
        }
    }
}

// Reads a value on its own.
#[inline(always)]
fn read_value(bits: &mut BitReader<'_>, params: &mut Params) -> i16
    requires within { AreWithin params.old }
    requires single { k params.old ≡ 0 }
    ensures { ReadsToken Rlgr1 bits.old bits.new params.old params.new (result ∷ []) }
{
    let number = read_number(bits, params);
    params.after_value(number);
    unfolded(number)
}
