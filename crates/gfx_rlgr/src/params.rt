ghost use Rattle.std.specs.Prelude.{◌≡◌, ◌+◌, ◌-◌, ◌*◌, ◌/◌, ◌^◌, ◌<◌, ◌≤◌, min};
ghost use Rattle.gfx_rlgr.specs.Code.{start, k, kr, krp_after, kp_after, kp_after_pair};

/// How many values a component of a tile has.
pub const TERMS: usize = 4096;

/// The largest magnitude of a value: those beyond it are refused (this project's own rule).
pub const MAGNITUDE_MAX: u32 = 32_767;

/// Neither parameter passes this (KPMAX).
pub const PARAMETER_MAX: u32 = 80;

/// Both parameters at the start: 1 in eighths.
pub const PARAMETER_START: u32 = 8;

/// A parameter counts in eighths (2 ^ LSGR).
pub const FRACTION: u32 = 8;

/// What a full run adds to kp (UP_GR).
pub const RUN_UP: u32 = 4;

/// What a run that a value ends takes from kp (DN_GR).
pub const RUN_DOWN: u32 = 6;

/// What a zero on its own adds to kp (UQ_GR).
pub const VALUE_UP: u32 = 3;

/// What another value on its own takes from kp (DQ_GR).
pub const VALUE_DOWN: u32 = 3;

/// What two zeros add to kp (2 * UQ_GR).
pub const PAIR_UP: u32 = 6;

/// What two values that aren't 0 take from kp (2 * DQ_GR).
pub const PAIR_DOWN: u32 = 6;

/// What a number without ones takes from krp.
pub const CODE_DOWN: u32 = 2;

/// The two parameters, which adapt the code to what came before.
#[derive(Clone, Copy)]
pub struct Params {
    pub kp: u32,
    pub krp: u32,
}

impl Params {
    /// The parameters before the first token.
    #[inline(always)]
    pub fn start() -> Params
        ensures { result ≡ start }
    {
        Params {
            kp: PARAMETER_START,
            krp: PARAMETER_START,
        }
    }

    /// A run's length is 2 ^ k.
    #[inline(always)]
    pub fn k(self) -> u8
        requires { self.kp ≤ 80 }
        ensures { result ≡ k self }
    {
        (self.kp / FRACTION) as u8
    }

    /// How many low bits a number's code has.
    #[inline(always)]
    pub fn kr(self) -> u8
        requires { self.krp ≤ 80 }
        ensures { result ≡ kr self }
    {
        (self.krp / FRACTION) as u8
    }

    /// After a full run.
    #[inline(always)]
    pub fn after_run(&mut self)
        requires { self.old.kp ≤ 80 }
        ensures { self.new ≡ record self.old { kp = min 80 (self.old.kp + 4) } }
    {
        self.kp = (self.kp + RUN_UP).min(PARAMETER_MAX);
    }

    /// After a run that a value ends.
    #[inline(always)]
    pub fn after_last_run(&mut self)
        ensures { self.new ≡ record self.old { kp = self.old.kp - 6 } }
    {
        self.kp = self.kp.saturating_sub(RUN_DOWN);
    }

    /// After a value on its own, which is coded as this number.
    #[inline(always)]
    pub fn after_value(&mut self, number: u64)
        requires { self.old.kp ≤ 80 }
        ensures { self.new ≡ record self.old { kp = kp_after number self.old.kp } }
    {
        let up = (self.kp + VALUE_UP).min(PARAMETER_MAX);
        let down = self.kp.saturating_sub(VALUE_DOWN);
        self.kp = if number == 0 { up } else { down };
    }

    /// After two values, by whether their numbers, this one and the other, are 0.
    #[inline(always)]
    pub fn after_pair(&mut self, one: u32, other: u32)
        requires { self.old.kp ≤ 80 }
        ensures { self.new ≡ record self.old { kp = kp_after_pair one other self.old.kp } }
    {
        // Without a branch, since zeros among the values are hard to foresee.
        let up = PAIR_UP * u32::from(one == 0) * u32::from(other == 0);
        let down = PAIR_DOWN * u32::from(one != 0) * u32::from(other != 0);
        self.kp = (self.kp + up).min(PARAMETER_MAX).saturating_sub(down);
    }

    /// After a number's code with this many ones.
    #[inline(always)]
    pub fn after_ones(&mut self, ones: u32)
        requires { self.old.krp ≤ 80 }
        ensures { self.new ≡ record self.old { krp = krp_after ones self.old.krp } }
    {
        // Without a branch, since the count of ones is hard to foresee.
        let up = ones.min(PARAMETER_MAX) * u32::from(ones > 1);
        let down = CODE_DOWN * u32::from(ones == 0);
        self.krp = (self.krp + up).min(PARAMETER_MAX).saturating_sub(down);
    }
}
