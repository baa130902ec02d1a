ghost use Rattle.std.specs.Prelude.{◌≡◌, ℕ, ◌+◌, ◌≤◌, max, MatchBool, ◌≤ℤ◌};
ghost use Rattle.std.specs.Int.RustNames.{unsigned_abs};
ghost use Rattle.gfx_dwt.specs.Narrow.{AreSmall};
ghost use Rattle.gfx_dwt.specs.Ranges.{AllWithin, Within};

/// Up to this magnitude of its high half a line is joined in 16 bits: then an odd sample has room, twice a high number and
/// half the sum of two even samples.
const HIGH: u16 = 8_191;

/// What the greatest magnitudes of the two halves of such a line, and so an even sample, may be together.
const BOTH: u16 = 16_382;

/// The lower of two numbers.
#[inline]
pub(crate) fn lower(one: i16, other: i16) -> i16
    ensures one { result ≤ℤ one }
    ensures other { result ≤ℤ other }
    ensures kept { (bound : ℕ) → Within bound one → Within bound other → Within bound result }
{
    if other < one { other } else { one }
}

/// The higher of two numbers.
#[inline]
pub(crate) fn higher(one: i16, other: i16) -> i16
    ensures one { one ≤ℤ result }
    ensures other { other ≤ℤ result }
    ensures kept { (bound : ℕ) → Within bound one → Within bound other → Within bound result }
{
    if one < other { other } else { one }
}

/// The greatest magnitude among numbers of which these are the lowest and the highest.
#[inline]
pub(crate) fn greatest_of(lowest: i16, highest: i16) -> u16
    ensures { result ≡ max (unsigned_abs lowest) (unsigned_abs highest) }
{
    lowest.unsigned_abs().max(highest.unsigned_abs())
}

/// The greatest magnitude among numbers: that of the lowest or of the highest of them and nought.
// No early return: so it is done on many numbers at a time.
pub(crate) fn most_of(values: &[i16]) -> u16
    ensures all { AllWithin result values.now }
    ensures least { (bound : ℕ) → AllWithin bound values.now → result ≤ bound }
{
    let mut lowest = 0;
    let mut highest = 0;
    for place in 0..values.len() {
        lowest = lower(lowest, values[place]);
        highest = higher(highest, values[place]);
    }
    greatest_of(lowest, highest)
}

/// Whether a low and a high half of these greatest magnitudes fit 16 bits together.
#[inline]
pub(crate) fn fit(low: u16, high: u16) -> bool
    ensures { MatchBool result ((high ≤ 8191) × (low + high ≤ 16382)) (high ≤ 8191 → low + high ≤ 16382 → ⊥) }
{
    high <= HIGH && low <= BOTH - high
}

/// Whether a low and a high half fit 16 bits together.
pub(crate) fn are_small(low: &[i16], high: &[i16]) -> bool
    ensures { MatchBool result (AreSmall low.now high.now) (AreSmall low.now high.now → ⊥) }
{
    fit(most_of(low), most_of(high))
}

/// Whether a low half fits 16 bits where the high one is nought.
pub(crate) fn is_low(values: &[i16]) -> bool
    ensures { MatchBool result (AllWithin 16382 values.now) (AllWithin 16382 values.now → ⊥) }
{
    most_of(values) <= BOTH
}
