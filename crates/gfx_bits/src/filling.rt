ghost use Rattle.std.specs.Prelude.{◌≡◌, ◌<◌, ℕ, List, Bool, slice_index};
ghost use Rattle.gfx_bits.specs.Bits.{IsPadded};
ghost use Rattle.gfx_bits.specs.Padding.{padded};

/// Bits fill one list of bytes, and it is a function of them.
pub fn what_bits_fill()
    ensures filled { (bits : List Bool) → IsPadded bits (padded bits) }
    ensures bytes { (bits : List Bool) (i : ℕ) → slice_index (padded bits) i < 256 }
    ensures only { (bits : List Bool) (bytes : List ℕ) → ((i : ℕ) → slice_index bytes i < 256) → IsPadded bits bytes → bytes ≡ padded bits }
{}
