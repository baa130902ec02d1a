ghost use Rattle.std.specs.Prelude.{◌≡◌, ◌<◌, ◌≤◌, ◌-◌, ◌+◌, ◌*◌, ◌/◌, ◌%◌, ◌^◌, ◌++◌, pos, neg_ℤ, ◌-ℤ◌, ◌*ℤ◌, OnOk, MatchBool, ◌<ℤ◌, ◌≤ℤ◌, if◌then◌else◌};
ghost use Rattle.std.specs.Int.{int_shr};
ghost use Rattle.std.specs.Int.RustNames.{unsigned_abs};
ghost use Rattle.gfx_bits.specs.Bits.{digits};
ghost use Rattle.gfx_dwt.specs.declared.layout.Band.{Band};
ghost use Rattle.gfx_dwt.specs.Ranges.{Within};
ghost use Rattle.gfx_srl.specs.Steps.{Writes};
ghost use Rattle.gfx_quant.specs.Coefficient.{truncated};
ghost use Rattle.gfx_tile_state.specs.Entries.{is_low, way};
ghost use Rattle.gfx_tile_make.specs.Upgrade.{gained};
ghost use Rattle.gfx_tile_make.specs.Writing.{WritesEntry};

use gfx_base::NoMemory;
use gfx_bits::BitWriter;
use gfx_srl::SrlWriter;

/// The writers of an upgrade's data, which run through all bands of a component.
#[derive(Drop)]
pub struct Writers {
    pub srl: SrlWriter,
    pub bits: BitWriter,
}

/// Writes what a value gains where `before` low bits were left out of it, and then `behind`. An `Err`
/// says nothing of what was written.
#[inline(always)]
pub(crate) fn write_entry(
    writers: &mut Writers,
    value: i32,
    before: u8,
    behind: u8,
    low: bool,
) -> Result<(), NoMemory>
    requires falls { behind < before }
    requires few { before ≤ 15 }
    requires small { Within 65535 value }
    ensures { OnOk result ((band : Band) → low ≡ is_low band → WritesEntry (way (before - behind) low (truncated band value before)) (before - behind) (gained band value before behind) writers.old writers.new) }
{
    let n = before - behind;
    if low {
        return push_number(&mut writers.bits, low_gained(value, before, behind), n);
    }
    let magnitude = value.unsigned_abs();
    let sent = without(magnitude, behind);
    if without(magnitude, before) == 0 {
        return writers.srl.push(signed(sent, value < 0), n);
    }
    push_number(&mut writers.bits, low_bits(sent, n), n)
}

/// Writes a number of `n` bits.
#[inline(always)]
fn push_number(bits: &mut BitWriter, number: u32, n: u8) -> Result<(), NoMemory>
    requires few { n ≤ 32 }
    requires below { number < 2 ^ n }
    ensures { OnOk result (bits.new ≡ bits.old ++ digits n number) }
{
    match bits.push(number, n) {
        Ok(()) => Ok(()),
        Err(_) => Err(NoMemory),
    }
}

/// What a value of LL3 gains: its floor at the one place less what its floor at the other says of it.
#[inline(always)]
fn low_gained(value: i32, before: u8, behind: u8) -> u32
    requires falls { behind < before }
    requires few { before ≤ 15 }
    ensures value { pos result ≡ int_shr value behind -ℤ int_shr value before *ℤ pos (2 ^ (before - behind)) }
    ensures below { result < 2 ^ (before - behind) }
{
    rest(
        floored(value, behind),
        floored(value, before),
        weight(before - behind),
    ) as u32
}

#[inline(always)]
fn floored(value: i32, bits: u8) -> i32
    requires { bits ≤ 15 }
    ensures { result ≡ int_shr value bits }
{
    value >> bits
}

#[inline(always)]
fn weight(n: u8) -> i32
    requires { n ≤ 15 }
    ensures { result ≡ pos (2 ^ n) }
{
    1 << n
}

#[inline(always)]
fn rest(floor: i32, coarse: i32, weight: i32) -> i64
    ensures { result ≡ floor -ℤ coarse *ℤ weight }
{
    i64::from(floor) - weighed(coarse, weight)
}

#[inline(always)]
fn weighed(value: i32, weight: i32) -> i64
    ensures value { result ≡ value *ℤ weight }
    ensures small { Within (2 ^ 62) result }
{
    i64::from(value) * i64::from(weight)
}

/// A number without its low bits.
#[inline(always)]
fn without(number: u32, bits: u8) -> u32
    requires { bits ≤ 15 }
    ensures { result ≡ number / 2 ^ bits }
{
    number >> bits
}

/// The low bits of a number.
#[inline(always)]
fn low_bits(number: u32, n: u8) -> u32
    requires { n ≤ 15 }
    ensures value { result ≡ number % 2 ^ n }
    ensures below { result < 2 ^ n }
{
    number & ((1 << n) - 1)
}

/// A magnitude with a sign.
#[inline(always)]
fn signed(magnitude: u32, down: bool) -> i32
    requires { magnitude ≤ 65535 }
    ensures { result ≡ (if down then neg_ℤ (pos magnitude) else pos magnitude) }
{
    if down {
        -(magnitude as i32)
    } else {
        magnitude as i32
    }
}
