ghost use Rattle.std.specs.Prelude.{◌≡◌, ◌≤◌, ◌<◌, ◌+◌, ◌*◌, ◌^◌, pos, negsuc, ◌+ℤ◌, ◌-ℤ◌, ◌*ℤ◌};
ghost use Rattle.std.specs.Int.{int_shr};
ghost use Rattle.gfx_dwt.specs.Ranges.{IsSample, Within};
ghost use Rattle.gfx_quant.specs.Colour.{channel, chroma_blue, chroma_red, clamped, colour_of, lifted, luma};

use gfx_base::Pixel;

/// What a sample's deviation adds to a channel, 65,536 standing for one ([MS-RDPRFX] 3.1.8.1.3).
pub const CR_IN_RED: i32 = 91_916;

pub const CB_IN_GREEN: i32 = -22_527;

pub const CR_IN_GREEN: i32 = -46_819;

pub const CB_IN_BLUE: i32 = 115_992;

#[inline]
fn multiplied(factor: i32, sample: i32) -> i64
    ensures { result ≡ factor *ℤ sample }
{
    i64::from(factor) * i64::from(sample)
}

#[inline]
#[tactic(auto, using(crate::proofs::Bounds::product_within))]
fn product(factor: i32, sample: i32) -> i64
    requires factor { Within (2 ^ 17) factor }
    requires sample { Within (2 ^ 23) sample }
    ensures value { result ≡ factor *ℤ sample }
    ensures small { Within (2 ^ 40) result }
{
    multiplied(factor, sample)
}

#[inline]
fn lift(y: i32) -> i64
    requires { Within (2 ^ 23) y }
    ensures value { result ≡ lifted y }
    ensures small { Within (2 ^ 40) result }
{
    (i64::from(y) + 4096) * 65536
}

/// What Cb and Cr add to the green channel.
#[inline]
fn green_added(cb: i32, cr: i32) -> i64
    requires cb { Within (2 ^ 23) cb }
    requires cr { Within (2 ^ 23) cr }
    ensures value { result ≡ CB_IN_GREEN *ℤ cb +ℤ CR_IN_GREEN *ℤ cr }
    ensures small { Within (2 ^ 41) result }
{
    product(CB_IN_GREEN, cb) + product(CR_IN_GREEN, cr)
}

#[inline]
fn total(lifted: i64, added: i64) -> i64
    requires lifted { Within (2 ^ 40) lifted }
    requires added { Within (2 ^ 41) added }
    ensures { result ≡ lifted +ℤ added }
{
    lifted + added
}

#[inline]
fn shifted(number: i64) -> i64
    ensures { result ≡ int_shr number 21 }
{
    number >> 21
}

#[inline]
fn clamp_byte(number: i64) -> u8
    ensures { result ≡ clamped number }
{
    number.clamp(0, 255) as u8
}

/// The channel of a sum, which is 32 times as large. All widths share it: the compiler narrows it to the width
/// that the sum came in.
#[inline]
pub(crate) fn level(total: i64) -> u8
    ensures { result ≡ clamped (int_shr total 5) }
{
    clamp_byte(total >> 5)
}

#[inline]
#[tactic(auto, unfolding(crate::specs::Colour::channel))]
fn channel_of(y: i32, added: i64) -> u8
    requires y { Within (2 ^ 23) y }
    requires added { Within (2 ^ 41) added }
    ensures { result ≡ channel y added }
{
    clamp_byte(shifted(total(lift(y), added)))
}

/// The pixel of three samples, which are within 2^23; it is opaque.
pub fn to_colour(y: i32, cb: i32, cr: i32) -> Pixel
    requires y { Within (2 ^ 23) y }
    requires cb { Within (2 ^ 23) cb }
    requires cr { Within (2 ^ 23) cr }
    ensures { result ≡ colour_of y cb cr }
{
    Pixel {
        b: channel_of(y, product(CB_IN_BLUE, cb)),
        g: channel_of(y, green_added(cb, cr)),
        r: channel_of(y, product(CR_IN_RED, cr)),
        a: 255,
    }
}

/// How far a channel is from the green one.
#[inline]
fn from_green(channel: u8, green: u8) -> i32
    ensures value { result ≡ pos channel -ℤ pos green }
    ensures small { Within 255 result }
{
    i32::from(channel) - i32::from(green)
}

#[inline]
fn divided(number: i32) -> i32
    ensures { result ≡ int_shr number 11 }
{
    number >> 11
}

#[inline]
#[tactic(auto, using(crate::proofs::Bounds::sample_of))]
fn sample(number: i32) -> i32
    requires { Within (2 ^ 23) number }
    ensures value { result ≡ int_shr number 11 }
    ensures small { IsSample result }
{
    divided(number)
}

#[inline]
fn luma_part(red: i32, blue: i32) -> i32
    requires red { Within 255 red }
    requires blue { Within 255 blue }
    ensures { result ≡ pos 19595 *ℤ red +ℤ pos 7471 *ℤ blue }
{
    19_595 * red + 7_471 * blue
}

#[inline]
fn chroma_blue_part(red: i32, blue: i32) -> i32
    requires red { Within 255 red }
    requires blue { Within 255 blue }
    ensures { result ≡ pos 39 *ℤ blue -ℤ pos 11071 *ℤ red }
{
    39 * blue - 11_071 * red
}

#[inline]
fn chroma_red_part(red: i32, blue: i32) -> i32
    requires red { Within 255 red }
    requires blue { Within 255 blue }
    ensures { result ≡ pos 32756 *ℤ red -ℤ pos 5327 *ℤ blue }
{
    32_756 * red - 5_327 * blue
}

#[inline]
fn with_green(part: i32, green: u8) -> i32
    requires { IsSample part }
    ensures { result ≡ part +ℤ pos 32 *ℤ pos green -ℤ pos 4096 }
{
    part + 32 * i32::from(green) - 4096
}

#[inline]
fn with_blue(part: i32, blue: i32) -> i32
    requires part { IsSample part }
    requires blue { Within 255 blue }
    ensures { result ≡ part +ℤ pos 16 *ℤ blue }
{
    part + 16 * blue
}

// The factors of Y sum to 65,536, and those of Cb and of Cr to nought. So red and blue count by how far they are
// from green, and what is left to multiply by fits 16 bits, which the processor does faster.
#[inline]
pub(crate) fn luma_of(pixel: Pixel) -> i32
    ensures value { result ≡ luma pixel }
    ensures small { IsSample result }
{
    let blue = from_green(pixel.b, pixel.g);
    let red = from_green(pixel.r, pixel.g);
    with_green(sample(luma_part(red, blue)), pixel.g)
}

#[inline]
pub(crate) fn chroma_blue_of(pixel: Pixel) -> i32
    ensures value { result ≡ chroma_blue pixel }
    ensures small { IsSample result }
{
    let blue = from_green(pixel.b, pixel.g);
    let red = from_green(pixel.r, pixel.g);
    with_blue(sample(chroma_blue_part(red, blue)), blue)
}

#[inline]
pub(crate) fn chroma_red_of(pixel: Pixel) -> i32
    ensures value { result ≡ chroma_red pixel }
    ensures small { IsSample result }
{
    let blue = from_green(pixel.b, pixel.g);
    let red = from_green(pixel.r, pixel.g);
    sample(chroma_red_part(red, blue))
}

/// The samples Y, Cb and Cr of a pixel; its alpha is left out.
pub fn from_colour(pixel: Pixel) -> (i32, i32, i32)
    ensures value { result ≡ (luma pixel, chroma_blue pixel, chroma_red pixel) }
    ensures y { IsSample result.0 }
    ensures cb { IsSample result.1 }
    ensures cr { IsSample result.2 }
{
    (luma_of(pixel), chroma_blue_of(pixel), chroma_red_of(pixel))
}
