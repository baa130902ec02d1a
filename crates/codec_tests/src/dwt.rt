//! Wavelet transforms: checksums of what an independent program makes of patterns.
ghost use Rattle.gfx_dwt.specs.Ranges.{AllCoefficients, AllSamples, IsCoefficient, IsSample};
ghost use Rattle.std.specs.Prelude.{◌<◌};

use gfx_dwt::{Transform, Workspace, forward, forward_with, inverse, inverse_narrow, inverse_with};

/// What a plane is filled with.
#[derive(Clone, Copy, Debug, PartialEq, Eq)]
enum Pattern {
    /// The greatest value at one place, and noughts.
    Impulse(usize),
    /// From the least value up, in even steps.
    Ramp,
    /// Three times the least value, three times the greatest, and again.
    Extremes,
    /// Noughts before a place, and the ramp from there on.
    RampFrom(usize),
    /// Noughts before a place, and the extremes from there on.
    ExtremesFrom(usize),
}

fn coefficient(pattern: Pattern, k: usize) -> i32
    requires { k < 4096 }
    ensures { IsCoefficient result }
{
    match pattern {
        Pattern::Impulse(at) if at == k => 32_767,
        Pattern::Impulse(_) => 0,
        Pattern::RampFrom(start) if k < start => 0,
        Pattern::ExtremesFrom(start) if k < start => 0,
        Pattern::Ramp => 16 * (k as i32) - 32_768,
        Pattern::RampFrom(_) => 16 * (k as i32) - 32_768,
        Pattern::Extremes if (k / 3) % 2 == 0 => -32_768,
        Pattern::Extremes => 32_767,
        Pattern::ExtremesFrom(_) if (k / 3) % 2 == 0 => -32_768,
        Pattern::ExtremesFrom(_) => 32_767,
    }
}

fn sample(pattern: Pattern, k: usize) -> i32
    requires { k < 4096 }
    ensures { IsSample result }
{
    match pattern {
        Pattern::Impulse(at) if at == k => 8_191,
        Pattern::Impulse(_) => 0,
        Pattern::RampFrom(start) if k < start => 0,
        Pattern::ExtremesFrom(start) if k < start => 0,
        Pattern::Ramp => 4 * (k as i32) - 8_192,
        Pattern::RampFrom(_) => 4 * (k as i32) - 8_192,
        Pattern::Extremes if (k / 3) % 2 == 0 => -8_192,
        Pattern::Extremes => 8_191,
        Pattern::ExtremesFrom(_) if (k / 3) % 2 == 0 => -8_192,
        Pattern::ExtremesFrom(_) => 8_191,
    }
}

fn draw_coefficients(pattern: Pattern, plane: &mut [i32; 4096])
    ensures { AllCoefficients plane.new }
{
    for k in 0..4096 {
        plane[k] = coefficient(pattern, k);
    }
}

fn draw_samples(pattern: Pattern, plane: &mut [i32; 4096])
    ensures { AllSamples plane.new }
{
    for k in 0..4096 {
        plane[k] = sample(pattern, k);
    }
}

/// A sixteenth of a coefficient, toward zero.
fn small(coefficient: i32) -> i16
    requires { IsCoefficient coefficient }
{
    (coefficient / 16) as i16
}

fn draw_small(pattern: Pattern, plane: &mut [i16; 4096]) {
    for k in 0..4096 {
        plane[k] = small(coefficient(pattern, k));
    }
}

fn widen(narrow: &[i16; 4096], plane: &mut [i32; 4096]) {
    for k in 0..4096 {
        plane[k] = i32::from(narrow[k]);
    }
}

/// All places in one number, modulo 2^64.
fn checksum(plane: &[i32; 4096]) -> i64 {
    let mut sum = 0i64;
    for value in plane {
        sum = sum.wrapping_mul(31).wrapping_add(i64::from(*value));
    }
    sum
}

/// A pattern, and the checksums of what becomes of it with the plain transform and with reduce-extrapolate.
#[derive(Clone, Copy)]
struct Case(Pattern, i64, i64);

const INVERSES: [Case; 7] = [
    Case(
        Pattern::Impulse(0),
        1438759454779682588,
        -5068588433320194180,
    ),
    Case(Pattern::Impulse(1022), -2287150865911628485, -4002478017),
    Case(
        Pattern::Impulse(2077),
        155197853332076544,
        6345366397761622214,
    ),
    Case(
        Pattern::Impulse(4031),
        4092128877111639605,
        -7905565764524025583,
    ),
    Case(
        Pattern::Impulse(4095),
        -627824836160079599,
        -4650972541419417959,
    ),
    Case(Pattern::Ramp, 7274807197934568116, 1260126910184160968),
    Case(Pattern::Extremes, -3876889710620914789, 7664680262893782694),
];

/// What the inverse makes of a pattern, by both transforms.
fn inverses(pattern: Pattern) -> (i64, i64) {
    (plain_inverse(pattern), reduced_inverse(pattern))
}

fn plain_inverse(pattern: Pattern) -> i64 {
    let mut plane = [0; 4096];
    draw_coefficients(pattern, &mut plane);
    inverse(&mut plane, Transform::Plain);
    checksum(&plane)
}

fn reduced_inverse(pattern: Pattern) -> i64 {
    let mut tmp = [7; 4096];
    let mut plane = [0; 4096];
    draw_coefficients(pattern, &mut plane);
    inverse_with(&mut plane, Transform::Reduced, &mut tmp);
    checksum(&plane)
}

/// The first pattern of which something else is made, if there is one.
fn first_wrong_inverse() -> Option<Pattern> {
    for Case(pattern, plain, reduced) in &INVERSES {
        if inverses(*pattern) != (*plain, *reduced) {
            return Some(*pattern);
        }
    }
    None
}

#[test]
fn inverse_of_patterns(rt: HostRuntime) {
    assert_eq!(rt; first_wrong_inverse(), None);
}

/// What becomes of a plane in 16 bits, if they are enough.
fn narrow_checksum(plane: &[i16; 4096], transform: Transform) -> Option<i64> {
    let mut out = [7; 4096];
    let mut wide = [7; 4096];
    if !inverse_narrow(plane, transform, &mut out, &mut Workspace::new()) {
        return None;
    }
    widen(&out, &mut wide);
    Some(checksum(&wide))
}

/// A pattern, and the checksums of what becomes of a sixteenth of it in 16 bits.
#[derive(Clone, Copy)]
struct SmallCase(Pattern, Option<i64>, Option<i64>);

const SMALL_INVERSES: [SmallCase; 10] = [
    SmallCase(
        Pattern::Impulse(0),
        Some(1250001506784046364),
        Some(-5257346381315830404),
    ),
    SmallCase(
        Pattern::Impulse(1022),
        Some(7180518297593983035),
        Some(-249262017),
    ),
    SmallCase(
        Pattern::Impulse(2077),
        Some(7320073800707436544),
        Some(-2455355016496017210),
    ),
    SmallCase(
        Pattern::Impulse(4031),
        Some(-7183201797302999627),
        Some(2290023343204489489),
    ),
    SmallCase(
        Pattern::Impulse(4095),
        Some(-8812141201024874735),
        Some(70894763801099417),
    ),
    SmallCase(
        Pattern::Ramp,
        Some(5051081215984516320),
        Some(7014011954067292392),
    ),
    SmallCase(Pattern::Extremes, None, None),
    SmallCase(
        Pattern::RampFrom(3072),
        Some(-8599872013058977440),
        Some(-6539889198971355668),
    ),
    SmallCase(
        Pattern::RampFrom(3840),
        Some(-6022962387228101857),
        Some(4684290059256670011),
    ),
    SmallCase(
        Pattern::ExtremesFrom(3840),
        Some(-8508967097365626683),
        Some(8518770096231899295),
    ),
];

/// What the inverse in 16 bits makes of a sixteenth of a pattern, by both transforms.
fn small_inverses(pattern: Pattern) -> (Option<i64>, Option<i64>) {
    let mut plane = [0; 4096];
    draw_small(pattern, &mut plane);
    (
        narrow_checksum(&plane, Transform::Plain),
        narrow_checksum(&plane, Transform::Reduced),
    )
}

/// The first pattern of which something else is made, if there is one.
fn first_wrong_small() -> Option<Pattern> {
    for SmallCase(pattern, plain, reduced) in &SMALL_INVERSES {
        if small_inverses(*pattern) != (*plain, *reduced) {
            return Some(*pattern);
        }
    }
    None
}

#[test]
fn inverse_of_small_patterns_in_16_bits(rt: HostRuntime) {
    assert_eq!(rt; first_wrong_small(), None);
}

const FORWARDS: [Case; 7] = [
    Case(
        Pattern::Impulse(0),
        -8754295438958458391,
        -4047519638771561019,
    ),
    Case(
        Pattern::Impulse(1022),
        1081308364124418752,
        -4861167661219122936,
    ),
    Case(
        Pattern::Impulse(2077),
        -4786840899106832287,
        -158410603323093414,
    ),
    Case(
        Pattern::Impulse(4031),
        -3013142100802104604,
        4549668143124396366,
    ),
    Case(
        Pattern::Impulse(4095),
        -7688749572146745071,
        3423333788665564318,
    ),
    Case(Pattern::Ramp, 334019581717353200, 7100820779918872704),
    Case(Pattern::Extremes, -3826979134262782427, 5739614390206443877),
];

/// What the forward transforms make of a pattern.
fn forwards(pattern: Pattern) -> (i64, i64) {
    (plain_forward(pattern), reduced_forward(pattern))
}

fn plain_forward(pattern: Pattern) -> i64 {
    let mut plane = [0; 4096];
    draw_samples(pattern, &mut plane);
    forward(&mut plane, Transform::Plain);
    checksum(&plane)
}

fn reduced_forward(pattern: Pattern) -> i64 {
    let mut tmp = [7; 4096];
    let mut plane = [0; 4096];
    draw_samples(pattern, &mut plane);
    forward_with(&mut plane, Transform::Reduced, &mut tmp);
    checksum(&plane)
}

/// The first pattern of which something else is made, if there is one.
fn first_wrong_forward() -> Option<Pattern> {
    for Case(pattern, plain, reduced) in &FORWARDS {
        if forwards(*pattern) != (*plain, *reduced) {
            return Some(*pattern);
        }
    }
    None
}

#[test]
fn forward_of_patterns(rt: HostRuntime) {
    assert_eq!(rt; first_wrong_forward(), None);
}
