ghost use Rattle.std.specs.Prelude.{◌≡◌, ◌≤◌, ℕ, ℤ, List, length, false, Result, Ok, Err};
ghost use Rattle.std.specs.List.{AllPass, list_all};
ghost use Rattle.gfx_base.specs.declared.refusal.Refusal.{Refusal};
ghost use Rattle.gfx_base.specs.declared.refusal.Refusal.TheVariants.{CoefficientRange};
ghost use Rattle.gfx_base.specs.Field.{IsBytes};
ghost use Rattle.gfx_bits.specs.Bits.{bits_of};
ghost use Rattle.gfx_rlgr.specs.declared.mode.Mode.{Mode};
ghost use Rattle.gfx_rlgr.specs.Bound.{AreSmall};
ghost use Rattle.gfx_rlgr.specs.Code.{Token, adds_up};
ghost use Rattle.gfx_rlgr.specs.Rlgr.{Reading, Decodes, Encodes, in_range};
ghost use Rattle.gfx_rlgr.specs.Says.{decoded};
ghost use Rattle.gfx_rlgr.specs.Writes.{encoded};

use crate::params::TERMS;

/// One bit string has at most one reading in a mode, so bytes say one thing.
pub fn one_meaning()
    ensures { (mode : Mode) (bytes : List ℕ) (one other : Result (List ℤ) Refusal) → Decodes mode bytes one → Decodes mode bytes other → one ≡ other }
{}

/// Bytes always say something in a mode, and what they say is a function of them.
pub fn what_bytes_say()
    ensures says { (mode : Mode) (bytes : List ℕ) → Decodes mode bytes (decoded mode bytes) }
    ensures only { (mode : Mode) (bytes : List ℕ) (due : Result (List ℤ) Refusal) → Decodes mode bytes due → due ≡ decoded mode bytes }
{}

/// Bytes with a pair whose first number is above the sum are refused, whatever place the pair has.
pub fn broken_pairs_are_refused()
    ensures { (mode : Mode) (bytes : List ℕ) (tokens : List Token) → Reading mode (bits_of bytes) tokens → list_all adds_up tokens ≡ false → decoded mode bytes ≡ Err CoefficientRange }
{}

/// Values have one spelling in a mode, so the bytes that a server writes for them follow from them
/// alone.
pub fn one_writing()
    ensures { (mode : Mode) (values : List ℤ) (one other : List ℕ) → IsBytes one → IsBytes other → Encodes mode values one → Encodes mode values other → one ≡ other }
{}

/// Values always have such a spelling, and the bytes that a server writes for them are a function
/// of them.
pub fn what_is_written()
    ensures written { (mode : Mode) (values : List ℤ) → length values ≡ TERMS → Encodes mode values (encoded mode values) }
    ensures bytes { (mode : Mode) (values : List ℤ) → IsBytes (encoded mode values) }
    ensures only { (mode : Mode) (values : List ℤ) (bytes : List ℕ) → length values ≡ TERMS → IsBytes bytes → Encodes mode values bytes → bytes ≡ encoded mode values }
{}

/// The bytes that a server writes for values in range say these values and nothing else, so that
/// `decode` gives back what `encode` wrote.
pub fn written_is_read()
    ensures says { (mode : Mode) (values : List ℤ) (bytes : List ℕ) → length values ≡ TERMS → AllPass in_range values → Encodes mode values bytes → Decodes mode bytes (Ok values) }
    ensures only { (mode : Mode) (values : List ℤ) (bytes : List ℕ) (due : Result (List ℤ) Refusal) → length values ≡ TERMS → AllPass in_range values
        → Encodes mode values bytes → Decodes mode bytes due → due ≡ Ok values }
{}

/// Values as small as those of a level of a tile have codes that fit a tile's 16-bit lengths.
pub fn codes_are_short()
    ensures { (mode : Mode) (values : List ℤ) (bytes : List ℕ) → length values ≡ TERMS → AreSmall values → Encodes mode values bytes → length bytes ≤ 65535 }
{}
