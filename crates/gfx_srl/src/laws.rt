ghost use Rattle.std.specs.Prelude.{All, ◌≡◌, ◌≤◌, ◌<◌, ◌+◌, ◌*◌, ℕ, List, Bool, length, map};
ghost use Rattle.gfx_base.specs.Field.{IsBytes};
ghost use Rattle.gfx_bits.specs.Bits.{bits_of};
ghost use Rattle.gfx_srl.specs.Code.{Pair};
ghost use Rattle.gfx_srl.specs.Srl.{Srl, Written, AreNarrow, width_of};
ghost use Rattle.gfx_srl.specs.Says.{pairs_of, srl, value_of};
ghost use Rattle.gfx_srl.specs.Steps.{HasRead, Reader};
ghost use Rattle.gfx_srl.specs.Writes.{FitsWidth, srl_bytes};

/// Bits say one thing at given widths.
pub fn one_meaning()
    ensures { (bits : List Bool) (one other : List Pair) → map width_of one ≡ map width_of other → Srl bits one → Srl bits other → one ≡ other }
{}

/// Bits always say a value for each width, and what they say is a function of both. At a width of 0
/// there is no value but 0, so some bits say nothing there.
pub fn what_bits_say()
    ensures says { (bits : List Bool) (widths : List ℕ) → All (λ width. 0 < width) widths → Srl bits (pairs_of widths (srl bits widths)) }
    ensures count { (bits : List Bool) (widths : List ℕ) → length (srl bits widths) ≡ length widths }
    ensures only { (bits : List Bool) (widths : List ℕ) (pairs : List Pair) → All (λ width. 0 < width) widths → map width_of pairs ≡ widths → Srl bits pairs → map value_of pairs ≡ srl bits widths }
{}

/// What a reader has read is what the bits say.
pub fn reading_says()
    ensures { (bits : List Bool) (pairs : List Pair) (reader : Reader) → HasRead bits pairs reader → Srl bits pairs }
{}

/// What a server writes is read again.
pub fn written_is_read()
    ensures { (pairs : List Pair) (bytes : List ℕ) → Written pairs bytes → Srl (bits_of bytes) pairs }
{}

/// Pairs have one spelling, so the bytes that a server writes for them follow from them alone.
pub fn one_writing()
    ensures { (pairs : List Pair) (one other : List ℕ) → IsBytes one → IsBytes other → Written pairs one → Written pairs other → one ≡ other }
{}

/// Pairs have a spelling just where each value fits its width, and the bytes that a server writes
/// for pairs are a function of them.
pub fn what_is_written()
    ensures written { (pairs : List Pair) → All FitsWidth pairs → Written pairs (srl_bytes pairs) }
    ensures fits { (pairs : List Pair) (bytes : List ℕ) → Written pairs bytes → All FitsWidth pairs }
    ensures bytes { (pairs : List Pair) → IsBytes (srl_bytes pairs) }
    ensures only { (pairs : List Pair) (bytes : List ℕ) → IsBytes bytes → Written pairs bytes → bytes ≡ srl_bytes pairs }
{}

/// Values of up to six bits take at most 74 bits each, so those of a whole component fit 16 bits of
/// length.
pub fn written_is_short()
    ensures { (pairs : List Pair) (bytes : List ℕ) → Written pairs bytes → AreNarrow pairs → 8 * length bytes ≤ 74 * length pairs + 7 }
{}
