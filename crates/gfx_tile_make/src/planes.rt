ghost use Rattle.std.specs.Prelude.{◌≡◌, ◌<◌, ◌-ℤ◌, pos, length};
ghost use Rattle.gfx_dwt.specs.Ranges.{AllCoefficients, AllWithin, IsCoefficient, Within};
ghost use Rattle.gfx_tile_make.specs.Planes.{differences, less};

#[inline(always)]
fn narrowed(number: i32) -> i16
    requires { IsCoefficient number }
    ensures { result ≡ number }
{
    number as i16
}

#[inline(always)]
fn between(own: i16, kept: i16) -> i32
    ensures value { result ≡ own -ℤ kept }
    ensures small { Within 65535 result }
{
    i32::from(own) - i32::from(kept)
}

#[inline(always)]
fn behind(value: i32, last: i32) -> i32
    requires value { Within 1024 value }
    requires last { Within 1024 last }
    ensures { result ≡ value -ℤ last }
{
    value - last
}

/// The numbers of a plane, each in 16 bits.
pub(crate) fn store(plane: &[i32; 4096], out: &mut [i16])
    requires coefficients { AllCoefficients plane.now }
    requires room { length out.old ≡ 4096 }
    ensures { out.new ≡ plane.now }
{
    for place in 0..4096 {
        out[place] = narrowed(plane[place]);
    }
}

/// A plane less another.
pub(crate) fn subtract(own: &[i16], kept: &[i16], out: &mut [i32; 4096])
    requires own { length own.now ≡ 4096 }
    requires kept { length kept.now ≡ 4096 }
    ensures value { out.new ≡ less own.now kept.now }
    ensures small { AllWithin 65535 out.new }
{
    for place in 0..4096 {
        out[place] = between(own[place], kept[place]);
    }
}

/// Puts in place of each number how far it is above the one before it.
pub(crate) fn differ(values: &mut [i32])
    requires { AllWithin 1024 values.old }
    ensures { values.new ≡ differences (pos 0) values.old }
{
    let mut last = 0;
    for place in 0..values.len() {
        let value = values[place];
        values[place] = behind(value, last);
        last = value;
    }
}
