ghost use Rattle.std.specs.Prelude.{◌≡◌, ◌<◌, ◌≤◌, ◌^◌, ℕ};
ghost use Rattle.gfx_rlgr.specs.Code.{bit_length};

/// How many binary digits a number has; 0 has none.
#[inline(always)]
pub(crate) fn digits_of(number: u32) -> u32
    ensures value { result ≡ bit_length number }
    ensures small { result ≤ 32 }
    ensures few { (width : ℕ) → number < 2 ^ width → result ≤ width }
{
    u32::BITS - number.leading_zeros()
}

/// The same of a large number.
#[inline(always)]
pub(crate) fn digits_of_large(number: u128) -> u32
    ensures value { result ≡ bit_length number }
    ensures few { (width : ℕ) → number < 2 ^ width → result ≤ width }
{
    u128::BITS - number.leading_zeros()
}
