//! Sums that aren't zero: each takes a raw number, away from zero.

ghost use Rattle.std.specs.Prelude.{◌≡◌, ◌≤◌, ◌<◌, ◌+◌, ◌-◌, ◌^◌, pos, ℕ, Bool, true, false, ◌&&◌, List, slice_index, take, drop};
ghost use Rattle.gfx_bits.specs.Bits.{number};
ghost use Rattle.gfx_dwt.specs.Ranges.{AllCoefficients, Within, at};
ghost use Rattle.gfx_tile_state.specs.declared.entries.Readers.{Readers};
ghost use Rattle.gfx_tile_state.specs.Entries.{AreAlike, Pass};
ghost use Rattle.gfx_tile_state.specs.Sifting.{Sifted};

use crate::entries::{MOST_OF_FOUR, Readers, away, is_below_zero, read_four, read_raw};
use crate::upgrading::adding::add_entry;

/// Adds a raw number to the sum of a listed place, which isn't zero, away from it, and says whether the sum stays in the
/// range of a coefficient.
#[inline(always)]
fn add_other(
    plane: &mut [i16; 4096],
    others: &[u16; 1024],
    index: usize,
    magnitude: i32,
    position: u8,
) -> bool
    requires room { index < 1024 }
    requires inside { slice_index others.now index < 4096 }
    requires magnitude { Within (2 ^ 24) magnitude }
    requires least { 1 ≤ position }
    requires most { position ≤ 30 }
    requires coefficients { AllCoefficients plane.old }
    ensures sifted { (pass : Pass) (from to n count : ℕ) (noughts : List ℕ) (fits : Bool) (old new : Readers) → from ≤ to → to ≤ 4096 → AreAlike pass from to n position false → 1 ≤ n → index < count → count ≤ 1024
        → magnitude ≡ pos (number n old.bits) → new.bits ≡ drop n old.bits → new.srl ≡ old.srl
        → Sifted pass from to noughts (take count others.now) 0 index plane.old fits old
        → Sifted pass from to noughts (take count others.now) 0 (index + 1) plane.new (fits && result) new }
    ensures coefficients { AllCoefficients plane.new }
{
    let place = usize::from(others[index]);
    let entry = away(magnitude, is_below_zero(plane[place]));
    add_entry(plane, place, entry, position)
}

/// Upgrades the next four places of a list whose sums aren't zero, and says whether all their sums stay in the range of a
/// coefficient.
#[inline(always)]
fn pass_four(
    plane: &mut [i16; 4096],
    others: &[u16; 1024],
    index: usize,
    n: u8,
    position: u8,
    readers: &mut Readers<'_>,
) -> bool
    requires room { index + 4 ≤ 1024 }
    requires inside { (j : ℕ) → j < index + 4 → slice_index others.now j < 4096 }
    requires some { 1 ≤ n }
    requires few { n ≤ MOST_OF_FOUR }
    requires least { 1 ≤ position }
    requires most { position ≤ 30 }
    requires coefficients { AllCoefficients plane.old }
    ensures sifted { (pass : Pass) (from to count : ℕ) (noughts : List ℕ) (fits : Bool) → from ≤ to → to ≤ 4096 → index + 4 ≤ count → count ≤ 1024 → AreAlike pass from to n position false
        → Sifted pass from to noughts (take count others.now) 0 index plane.old fits readers.old
        → Sifted pass from to noughts (take count others.now) 0 (index + 4) plane.new (fits && result) readers.new }
    ensures coefficients { AllCoefficients plane.new }
{
    let (first, second, third, fourth) = read_four(&mut readers.bits, n);
    let first_fits = add_other(plane, others, index, first, position);
    let second_fits = add_other(plane, others, index + 1, second, position);
    let third_fits = add_other(plane, others, index + 2, third, position);
    let fourth_fits = add_other(plane, others, index + 3, fourth, position);
    first_fits & second_fits & third_fits & fourth_fits
}

/// Upgrades places of a list, from one on, whose sums aren't zero, and says whether all their sums stay in the range of a
/// coefficient.
#[inline(always)]
fn pass_others(
    plane: &mut [i16; 4096],
    others: &[u16; 1024],
    from: usize,
    count: usize,
    n: u8,
    position: u8,
    readers: &mut Readers<'_>,
) -> bool
    requires order { from ≤ count }
    requires room { count ≤ 1024 }
    requires inside { (j : ℕ) → j < count → slice_index others.now j < 4096 }
    requires some { 1 ≤ n }
    requires few { n ≤ 24 }
    requires least { 1 ≤ position }
    requires most { position ≤ 30 }
    requires coefficients { AllCoefficients plane.old }
    ensures sifted { (pass : Pass) (start to : ℕ) (noughts : List ℕ) (fits : Bool) → start ≤ to → to ≤ 4096 → AreAlike pass start to n position false → Sifted pass start to noughts (take count others.now) 0 from plane.old fits readers.old
        → Sifted pass start to noughts (take count others.now) 0 count plane.new (fits && result) readers.new }
    ensures coefficients { AllCoefficients plane.new }
{
    let mut fits = true;
    for index in from..count {
        let place = usize::from(others[index]);
        let entry = read_raw(readers, plane[place], n, false);
        fits &= add_entry(plane, place, entry, position);
    }
    fits
}

/// The same from the first place on, four at a time while there are so many.
#[inline(always)]
fn pass_others_by_fours(
    plane: &mut [i16; 4096],
    others: &[u16; 1024],
    count: usize,
    n: u8,
    position: u8,
    readers: &mut Readers<'_>,
) -> bool
    requires room { count ≤ 1024 }
    requires inside { (j : ℕ) → j < count → slice_index others.now j < 4096 }
    requires some { 1 ≤ n }
    requires few { n ≤ MOST_OF_FOUR }
    requires least { 1 ≤ position }
    requires most { position ≤ 30 }
    requires coefficients { AllCoefficients plane.old }
    ensures sifted { (pass : Pass) (from to : ℕ) (noughts : List ℕ) (fits : Bool) → from ≤ to → to ≤ 4096 → AreAlike pass from to n position false → Sifted pass from to noughts (take count others.now) 0 0 plane.old fits readers.old
        → Sifted pass from to noughts (take count others.now) 0 count plane.new (fits && result) readers.new }
    ensures coefficients { AllCoefficients plane.new }
{
    let mut fits = true;
    let mut index = 0;
    'fours: while count - index >= 4 {
        fits &= pass_four(plane, others, index, n, position, readers);
        index += 4;
    }
    let rest_fits = pass_others(plane, others, index, count, n, position, readers);
    fits & rest_fits
}

/// The same, by fours for one bit and for two, the most frequent numbers; the compiler makes a loop of each.
#[inline(always)]
fn pass_others_by_bits(
    plane: &mut [i16; 4096],
    others: &[u16; 1024],
    count: usize,
    n: u8,
    position: u8,
    readers: &mut Readers<'_>,
) -> bool
    requires room { count ≤ 1024 }
    requires inside { (j : ℕ) → j < count → slice_index others.now j < 4096 }
    requires some { 1 ≤ n }
    requires few { n ≤ 24 }
    requires least { 1 ≤ position }
    requires most { position ≤ 30 }
    requires coefficients { AllCoefficients plane.old }
    ensures sifted { (pass : Pass) (from to : ℕ) (noughts : List ℕ) (fits : Bool) → from ≤ to → to ≤ 4096 → AreAlike pass from to n position false → Sifted pass from to noughts (take count others.now) 0 0 plane.old fits readers.old
        → Sifted pass from to noughts (take count others.now) 0 count plane.new (fits && result) readers.new }
    ensures coefficients { AllCoefficients plane.new }
{
    if n == 1 {
        return pass_others_by_fours(plane, others, count, 1, position, readers);
    }
    if n == 2 {
        return pass_others_by_fours(plane, others, count, 2, position, readers);
    }
    pass_others(plane, others, 0, count, n, position, readers)
}

/// The same with readers of its own.
// They stay in registers, and nothing else does: a reader behind a reference, or in a larger function, is kept in memory.
#[inline(never)]
pub(crate) fn upgrade_others(
    plane: &mut [i16; 4096],
    others: &[u16; 1024],
    count: usize,
    n: u8,
    position: u8,
    readers: &mut Readers<'_>,
) -> bool
    requires room { count ≤ 1024 }
    requires inside { (j : ℕ) → j < count → slice_index others.now j < 4096 }
    requires some { 1 ≤ n }
    requires few { n ≤ 24 }
    requires least { 1 ≤ position }
    requires most { position ≤ 30 }
    requires coefficients { AllCoefficients plane.old }
    ensures sifted { (pass : Pass) (from to : ℕ) (noughts : List ℕ) (fits : Bool) → from ≤ to → to ≤ 4096 → AreAlike pass from to n position false → Sifted pass from to noughts (take count others.now) 0 0 plane.old fits readers.old
        → Sifted pass from to noughts (take count others.now) 0 count plane.new (fits && result) readers.new }
    ensures coefficients { AllCoefficients plane.new }
{
    let mut own = readers.copy();
    let fits = pass_others_by_bits(plane, others, count, n, position, &mut own);
    *readers = own;
    fits
}
