ghost use Rattle.std.specs.Prelude.{◌≡◌, ◌≢◌, ◌+◌, ◌-◌, ◌*◌, ◌<◌, ◌≤◌, ◌^◌, ◌∷◌, ◌++◌, [], pos, length, take, min, replicate, slice_index_or, get_or, IfOk, OnOk, Ok, true, if◌then◌else◌};
ghost use Rattle.std.specs.List.{AllPass};
ghost use Rattle.gfx_rlgr.specs.Bound.{AreSmall};
ghost use Rattle.gfx_rlgr.specs.declared.mode.Mode.{Mode};
ghost use Rattle.gfx_rlgr.specs.declared.mode.Mode.TheVariants.{Rlgr1, Rlgr3};
ghost use Rattle.gfx_rlgr.specs.Code.{k, folded, is_negative};
ghost use Rattle.gfx_rlgr.specs.Rlgr.{Decodes, Encodes, in_range};
ghost use Rattle.gfx_rlgr.specs.Steps.{AreWithin, WritesToken, Covers};

use crate::digits::digits_of;
use crate::mode::Mode;
use crate::number_writer::write_number;
use crate::params::Params;
use gfx_base::{Bytes, NoMemory};
use gfx_bits::{BitWriter, NoBits};
use std::alloc::Global;

/// Writes 4,096 values of magnitudes up to 32,767 in a mode ([MS-RDPRFX] 3.1.8.1.7.3). Zeros at the
/// end are covered by runs, in RLGR3 0 stands for a second value that isn't there, and zero bits fill
/// the last byte.
pub fn encode(alloc: Global, mode: Mode, values: &[i32; 4096]) -> Result<Bytes, NoMemory>
    requires { AllPass in_range values.now }
    // These bytes and no others.
    ensures written { IfOk result (λ bytes. Encodes mode values.now bytes) }
    // `decode` gives the values back.
    ensures decoded { IfOk result (λ bytes. Decodes mode bytes (Ok values.now)) }
    ensures bound { IfOk result (λ bytes. AreSmall values.now → length bytes ≤ 65535) }
{
    match write(alloc, mode, values) {
        Ok(bytes) => Ok(Bytes::from_vec(bytes)),
        Err(_) => Err(NoMemory),
    }
}

// Writes token after token until the values are covered.
fn write(alloc: Global, mode: Mode, values: &[i32]) -> Result<Vec<u8>, NoBits>
    requires count { length values.now ≡ 4096 }
    requires range { AllPass in_range values.now }
    ensures { IfOk result (λ bytes. Encodes mode values.now bytes.items) }
{
    let mut bits = BitWriter::new(alloc);
    let mut params = Params::start();
    let mut at = 0;
    'tokens: while at < values.len() {
        at = write_token(mode, &mut bits, &mut params, values, at)?;
    }
    bits.finish()
}

// Writes the token for the values from this place on, and says where the next begins.
fn write_token(
    mode: Mode,
    bits: &mut BitWriter,
    params: &mut Params,
    values: &[i32],
    at: usize,
) -> Result<usize, NoBits>
    requires within { AreWithin params.old }
    requires place { at < length values.now }
    requires range { AllPass in_range values.now }
    ensures { IfOk result (λ next. Covers mode values.now at next bits.old bits.new params.old params.new) }
{
    let width = params.k();
    if width == 0 {
        return write_single(mode, bits, params, values, at);
    }
    let end = values.len().min(at + (1 << width));
    let next = zeros_to(values, at, end);
    if next == end {
        bits.push(0, 1)?;
        params.after_run();
        return Ok(next);
    }
    write_last_run(bits, params, width, (next - at) as u32, values[next])?;
    Ok(next + 1)
}

// Writes the token where there are no runs: a value in RLGR1, two in RLGR3.
fn write_single(
    mode: Mode,
    bits: &mut BitWriter,
    params: &mut Params,
    values: &[i32],
    at: usize,
) -> Result<usize, NoBits>
    requires within { AreWithin params.old }
    requires single { k params.old ≡ 0 }
    requires place { at < length values.now }
    requires range { AllPass in_range values.now }
    ensures { IfOk result (λ next. Covers mode values.now at next bits.old bits.new params.old params.new) }
{
    match mode {
        Mode::Rlgr1 => write_one(bits, params, values, at),
        Mode::Rlgr3 => write_two(bits, params, values, at),
    }
}

// Writes the value at this place on its own.
fn write_one(
    bits: &mut BitWriter,
    params: &mut Params,
    values: &[i32],
    at: usize,
) -> Result<usize, NoBits>
    requires within { AreWithin params.old }
    requires single { k params.old ≡ 0 }
    requires place { at < length values.now }
    requires range { AllPass in_range values.now }
    ensures { IfOk result (λ next. Covers Rlgr1 values.now at next bits.old bits.new params.old params.new) }
{
    write_value(bits, params, values[at])?;
    Ok(at + 1)
}

// Writes the value at this place and the next.
fn write_two(
    bits: &mut BitWriter,
    params: &mut Params,
    values: &[i32],
    at: usize,
) -> Result<usize, NoBits>
    requires within { AreWithin params.old }
    requires single { k params.old ≡ 0 }
    requires place { at < length values.now }
    requires range { AllPass in_range values.now }
    ensures { IfOk result (λ next. Covers Rlgr3 values.now at next bits.old bits.new params.old params.new) }
{
    let other = value_at(values, at + 1);
    write_pair(bits, params, values[at], other)?;
    Ok(values.len().min(at + 2))
}

// The value at this place, 0 behind the last.
#[inline(always)]
fn value_at(values: &[i32], at: usize) -> i32
    requires { AllPass in_range values.now }
    ensures value { result ≡ get_or values.now at (pos 0) }
    ensures range { in_range result ≡ true }
{
    if at < values.len() { values[at] } else { 0 }
}

// Where the zeros from this place on end, at most there.
fn zeros_to(values: &[i32], at: usize, end: usize) -> usize
    requires place { at ≤ end }
    requires end { end ≤ length values.now }
    ensures from { at ≤ result }
    ensures within { result ≤ end }
    ensures zeros { take result values.now ≡ take at values.now ++ replicate (result - at) (pos 0) }
    ensures ends { result < end → slice_index_or values.now result (pos 0) ≢ pos 0 }
{
    let mut next = at;
    'zeros: while next < end {
        if values[next] != 0 {
            return next;
        }
        next += 1;
    }
    next
}

// Writes zeros that a value ends.
fn write_last_run(
    bits: &mut BitWriter,
    params: &mut Params,
    width: u8,
    zeros: u32,
    value: i32,
) -> Result<(), NoBits>
    requires within { AreWithin params.old }
    requires width { width ≡ k params.old }
    requires run { 0 < width }
    requires zeros { zeros < 2 ^ width }
    requires value { value ≢ pos 0 }
    ensures { OnOk result ((mode : Mode) → WritesToken mode bits.old bits.new params.old params.new (replicate zeros (pos 0) ++ value ∷ [])) }
{
    bits.push(1, 1)?;
    bits.push(zeros, width)?;
    bits.push(sign_of(value), 1)?;
    params.after_last_run();
    write_number(bits, params, value.unsigned_abs() - 1)
}

// A value's sign as a bit.
fn sign_of(value: i32) -> u32
    ensures { result ≡ (if is_negative value then 1 else 0) }
{
    if value < 0 { 1 } else { 0 }
}

// Writes a value on its own.
fn write_value(bits: &mut BitWriter, params: &mut Params, value: i32) -> Result<(), NoBits>
    requires within { AreWithin params.old }
    requires single { k params.old ≡ 0 }
    requires range { in_range value ≡ true }
    ensures { OnOk result (WritesToken Rlgr1 bits.old bits.new params.old params.new (value ∷ [])) }
{
    let number = folded_number(value);
    write_number(bits, params, number)?;
    params.after_value(number as u64);
    Ok(())
}

// Writes two values: the sum of their numbers, and the first in as many bits as the sum has.
fn write_pair(
    bits: &mut BitWriter,
    params: &mut Params,
    first: i32,
    second: i32,
) -> Result<(), NoBits>
    requires within { AreWithin params.old }
    requires single { k params.old ≡ 0 }
    requires first { in_range first ≡ true }
    requires second { in_range second ≡ true }
    ensures { OnOk result (WritesToken Rlgr3 bits.old bits.new params.old params.new (first ∷ (second ∷ []))) }
{
    let one = folded_number(first);
    let other = folded_number(second);
    let sum = one + other;
    write_number(bits, params, sum)?;
    bits.push(one, digits_of(sum) as u8)?;
    params.after_pair(one, other);
    Ok(())
}

// The number of a value: the even ones are 0, 1, 2, .., the odd ones -1, -2, ..
fn folded_number(value: i32) -> u32
    requires { in_range value ≡ true }
    ensures value { result ≡ folded value }
    ensures small { result ≤ 65534 }
{
    if value < 0 {
        2 * value.unsigned_abs() - 1
    } else {
        2 * value.unsigned_abs()
    }
}
