/// The parameter does not pass this (KPMAX).
pub const PARAMETER_MAX: u32 = 80;

/// The parameter at the start: 1 in eighths.
pub const PARAMETER_START: u32 = 8;

/// The parameter counts in eighths (2 ^ LSGR).
pub const FRACTION: u32 = 8;

/// What a full run adds to the parameter (UP_GR).
pub const RUN_UP: u32 = 4;

/// What a value takes from the parameter (DN_GR).
pub const VALUE_DOWN: u32 = 6;

ghost use Rattle.std.specs.Prelude.{◌≡◌, ◌≤◌, ◌<◌, ◌+◌, ◌-◌, min};
ghost use Rattle.gfx_srl.specs.Code.{k};

/// A run's length is 2 ^ k.
#[inline(always)]
pub(crate) fn width_of(kp: u32) -> u8
    requires { kp ≤ PARAMETER_MAX }
    ensures value { result ≡ k kp }
    ensures small { result ≤ 10 }
{
    (kp / FRACTION) as u8
}

/// The parameter after a full run.
#[inline(always)]
pub(crate) fn after_run(kp: u32) -> u32
    requires { kp ≤ PARAMETER_MAX }
    ensures { result ≡ min PARAMETER_MAX (kp + RUN_UP) }
{
    (kp + RUN_UP).min(PARAMETER_MAX)
}

/// The parameter after a value.
#[inline(always)]
pub(crate) fn after_value(kp: u32) -> u32
    ensures { result ≡ kp - VALUE_DOWN }
{
    kp.saturating_sub(VALUE_DOWN)
}
