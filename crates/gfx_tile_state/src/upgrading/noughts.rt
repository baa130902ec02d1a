//! Sums that are zero: what the coded values make of them, token by token.

ghost use Rattle.std.specs.Int.RustNames.{unsigned_abs};
ghost use Rattle.std.specs.Prelude.{◌≡◌, ◌≤◌, ◌<◌, ◌+◌, ◌-◌, ◌^◌, pos, ℕ, Bool, true, false, ◌&&◌, List, [], ◌∷◌, ◌++◌, replicate, slice_index, take, if◌then◌else◌};
ghost use Rattle.gfx_dwt.specs.Ranges.{AllCoefficients, at};
ghost use Rattle.gfx_srl.specs.Steps.{BeginsToken, ReadsMany};
ghost use Rattle.gfx_tile_state.specs.declared.entries.Readers.{Readers};
ghost use Rattle.gfx_tile_state.specs.Entries.{AreAlike, Pass};
ghost use Rattle.gfx_tile_state.specs.Sifting.{Sifted};

use crate::entries::Readers;
use crate::upgrading::adding::put_entry;
use gfx_srl::MOST_AHEAD;

/// What `SrlReader::step` says; where a token is known to begin, it is looked at as a whole.
#[inline(always)]
fn step_of(readers: &mut Readers<'_>, n: u8, room: usize, begins: bool) -> (usize, i32)
    requires some { 1 ≤ n }
    requires few { n ≤ 24 }
    requires room { 1 ≤ room }
    requires begins { begins ≡ true → (n ≤ MOST_AHEAD) × BeginsToken readers.old.srl }
    ensures bits { readers.new.bits ≡ readers.old.bits }
    ensures within { result.0 ≤ room }
    ensures zeros { result.1 ≡ pos 0 → (1 ≤ result.0) × ReadsMany n (replicate result.0 (pos 0)) readers.old.srl readers.new.srl }
    ensures value { (result.1 ≡ pos 0 → ⊥) → (result.0 < room) × ReadsMany n (replicate result.0 (pos 0) ++ result.1 ∷ []) readers.old.srl readers.new.srl }
    ensures small { unsigned_abs result.1 < 2 ^ n }
    ensures begins { result.0 < room → BeginsToken readers.new.srl }
{
    if begins {
        return readers.srl.step_ahead(n, room);
    }
    readers.srl.step(n, room)
}

/// Passes listed places from one on, whose sums are zero, and upgrades the one behind them, if a value comes for it: a
/// token at most. It says where it goes on, and whether the sum stays in the range of a coefficient.
#[inline(always)]
fn pass_token(
    plane: &mut [i16; 4096],
    noughts: &[u16; 1024],
    at: usize,
    count: usize,
    n: u8,
    position: u8,
    readers: &mut Readers<'_>,
    begins: bool,
    sure: bool,
) -> (usize, bool)
    requires room { count ≤ 1024 }
    requires left { at < count }
    requires inside { (j : ℕ) → j < count → slice_index noughts.now j < 4096 }
    requires some { 1 ≤ n }
    requires few { n ≤ 24 }
    requires least { 1 ≤ position }
    requires most { position ≤ 30 }
    requires begins { begins ≡ true → (n ≤ MOST_AHEAD) × BeginsToken readers.old.srl }
    requires sure { sure ≡ true → n + position ≤ 16 }
    requires coefficients { AllCoefficients plane.old }
    ensures on { at < result.0 }
    ensures within { result.0 ≤ count }
    ensures begins { result.0 < count → BeginsToken readers.new.srl }
    ensures sifted { (pass : Pass) (from to : ℕ) (others : List ℕ) (others_done : ℕ) (fits : Bool) → from ≤ to → to ≤ 4096 → AreAlike pass from to n position false → Sifted pass from to (take count noughts.now) others at others_done plane.old fits readers.old
        → Sifted pass from to (take count noughts.now) others result.0 others_done plane.new (fits && result.1) readers.new }
    ensures coefficients { AllCoefficients plane.new }
{
    let (passed, value) = step_of(readers, n, count - at, begins);
    let next = at + passed;
    if value == 0 {
        return (next, true);
    }
    let place = usize::from(noughts[next]);
    (next + 1, put_entry(plane, place, value, position, sure))
}

/// Upgrades the listed places from one on, whose sums are zero, and says whether all their sums stay in the range of a
/// coefficient. Where a token is known to begin, so does each behind it, as long as places are left.
#[inline(always)]
fn pass_tokens(
    plane: &mut [i16; 4096],
    noughts: &[u16; 1024],
    at: usize,
    count: usize,
    n: u8,
    position: u8,
    readers: &mut Readers<'_>,
    begins: bool,
    sure: bool,
) -> bool
    requires room { count ≤ 1024 }
    requires order { at ≤ count }
    requires inside { (j : ℕ) → j < count → slice_index noughts.now j < 4096 }
    requires some { 1 ≤ n }
    requires few { n ≤ 24 }
    requires least { 1 ≤ position }
    requires most { position ≤ 30 }
    requires begins { begins ≡ true → at < count → (n ≤ MOST_AHEAD) × BeginsToken readers.old.srl }
    requires sure { sure ≡ true → n + position ≤ 16 }
    requires coefficients { AllCoefficients plane.old }
    ensures sifted { (pass : Pass) (from to : ℕ) (others : List ℕ) (others_done : ℕ) (fits : Bool) → from ≤ to → to ≤ 4096 → AreAlike pass from to n position false → Sifted pass from to (take count noughts.now) others at others_done plane.old fits readers.old
        → Sifted pass from to (take count noughts.now) others count others_done plane.new (fits && result) readers.new }
    ensures coefficients { AllCoefficients plane.new }
{
    let mut fits = true;
    let mut at = at;
    'tokens: while at < count {
        let (next, fit) = pass_token(
            plane, noughts, at, count, n, position, readers, begins, sure,
        );
        at = next;
        fits &= fit;
    }
    fits
}

/// Upgrades places whose sum is zero, and says whether all their sums stay in the range of a coefficient. What was left
/// of a token by the band before comes first; then tokens begin.
#[inline(always)]
fn pass_noughts(
    plane: &mut [i16; 4096],
    noughts: &[u16; 1024],
    count: usize,
    n: u8,
    position: u8,
    readers: &mut Readers<'_>,
    sure: bool,
) -> bool
    requires room { count ≤ 1024 }
    requires inside { (j : ℕ) → j < count → slice_index noughts.now j < 4096 }
    requires some { 1 ≤ n }
    requires few { n ≤ 24 }
    requires least { 1 ≤ position }
    requires most { position ≤ 30 }
    requires sure { sure ≡ true → n + position ≤ 16 }
    requires coefficients { AllCoefficients plane.old }
    ensures sifted { (pass : Pass) (from to : ℕ) (others : List ℕ) (others_done : ℕ) (fits : Bool) → from ≤ to → to ≤ 4096 → AreAlike pass from to n position false → Sifted pass from to (take count noughts.now) others 0 others_done plane.old fits readers.old
        → Sifted pass from to (take count noughts.now) others count others_done plane.new (fits && result) readers.new }
    ensures coefficients { AllCoefficients plane.new }
{
    if n > MOST_AHEAD || count == 0 {
        return pass_tokens(plane, noughts, 0, count, n, position, readers, false, sure);
    }
    let (at, first_fits) = pass_token(plane, noughts, 0, count, n, position, readers, false, sure);
    let rest_fit = pass_tokens(plane, noughts, at, count, n, position, readers, true, sure);
    first_fits & rest_fit
}

/// The same. For one bit and for two, the most frequent values, the compiler makes a loop of its own, without a test of
/// their range where the position is so low that none leaves it.
#[inline(always)]
fn pass_noughts_by_bits(
    plane: &mut [i16; 4096],
    noughts: &[u16; 1024],
    count: usize,
    n: u8,
    position: u8,
    readers: &mut Readers<'_>,
) -> bool
    requires room { count ≤ 1024 }
    requires inside { (j : ℕ) → j < count → slice_index noughts.now j < 4096 }
    requires some { 1 ≤ n }
    requires few { n ≤ 24 }
    requires least { 1 ≤ position }
    requires most { position ≤ 30 }
    requires coefficients { AllCoefficients plane.old }
    ensures sifted { (pass : Pass) (from to : ℕ) (others : List ℕ) (others_done : ℕ) (fits : Bool) → from ≤ to → to ≤ 4096 → AreAlike pass from to n position false → Sifted pass from to (take count noughts.now) others 0 others_done plane.old fits readers.old
        → Sifted pass from to (take count noughts.now) others count others_done plane.new (fits && result) readers.new }
    ensures coefficients { AllCoefficients plane.new }
{
    let sure = n + position <= 16;
    if (n == 1) & sure {
        return pass_noughts(plane, noughts, count, 1, position, readers, true);
    }
    if (n == 2) & sure {
        return pass_noughts(plane, noughts, count, 2, position, readers, true);
    }
    pass_noughts(plane, noughts, count, n, position, readers, false)
}

/// The same with readers of its own.
// They stay in registers, and nothing else does: a reader behind a reference, or in a larger function, is kept in memory.
#[inline(never)]
pub(crate) fn upgrade_noughts(
    plane: &mut [i16; 4096],
    noughts: &[u16; 1024],
    count: usize,
    n: u8,
    position: u8,
    readers: &mut Readers<'_>,
) -> bool
    requires room { count ≤ 1024 }
    requires inside { (j : ℕ) → j < count → slice_index noughts.now j < 4096 }
    requires some { 1 ≤ n }
    requires few { n ≤ 24 }
    requires least { 1 ≤ position }
    requires most { position ≤ 30 }
    requires coefficients { AllCoefficients plane.old }
    ensures sifted { (pass : Pass) (from to : ℕ) (others : List ℕ) (others_done : ℕ) (fits : Bool) → from ≤ to → to ≤ 4096 → AreAlike pass from to n position false → Sifted pass from to (take count noughts.now) others 0 others_done plane.old fits readers.old
        → Sifted pass from to (take count noughts.now) others count others_done plane.new (fits && result) readers.new }
    ensures coefficients { AllCoefficients plane.new }
{
    let mut own = readers.copy();
    let fits = pass_noughts_by_bits(plane, noughts, count, n, position, &mut own);
    *readers = own;
    fits
}
