//! Which settings a server may code its tiles by (this project's own rule), at the edges of the rule.
ghost use Rattle.std.specs.Prelude.{◌<◌};

use gfx_dwt::Transform;
use gfx_quant::{Component, Level, Levels, Quant, Rounding, Setting, quant_from};

// The same number, 0 to 15, in each band.
fn even(number: u8) -> Quant {
    quant_from(&[number.wrapping_mul(17); 5])
}

// 6 in each band but the two of one byte, each a nibble of it.
fn apart(at: usize, byte: u8) -> Quant
    requires { at < 5 }
{
    let mut bytes = [0x66; 5];
    bytes[at] = byte;
    quant_from(&bytes)
}

// An even base in each component, and levels that each leave out so much everywhere.
fn is_accepted(base: u8, left_out: &[u8]) -> bool {
    let mut levels = Levels::new();
    for number in left_out {
        if levels.len() < 7 {
            levels.push(Level {
                y: even(*number),
                cb: even(*number),
                cr: even(*number),
            });
        }
    }
    let setting = Setting {
        transform: Transform::Plain,
        rounding: Rounding::Nearest,
        y: even(base),
        cb: even(base),
        cr: even(base),
        levels,
    };
    setting.is_accepted()
}

// This base and one level in one component; the others are even and fine.
fn is_accepted_in(component: Component, base: Quant, left_out: Quant) -> bool {
    let mut setting = Setting {
        transform: Transform::Reduced,
        rounding: Rounding::Zero,
        y: even(6),
        cb: even(6),
        cr: even(6),
        levels: Levels::new(),
    };
    let mut level = Level::whole();
    match component {
        Component::Y => {
            setting.y = base;
            level.y = left_out;
        }
        Component::Cb => {
            setting.cb = base;
            level.cb = left_out;
        }
        Component::Cr => {
            setting.cr = base;
            level.cr = left_out;
        }
    }
    setting.levels.push(level);
    setting.is_accepted()
}

// A base, two levels, and whether they are accepted.
const TWO_LEVELS: [(u8, u8, u8, bool); 10] = [
    // A base of 6 to 15, and 15 together with a level.
    (6, 9, 6, true),
    (5, 9, 6, false),
    (6, 10, 6, false),
    (15, 0, 0, true),
    (15, 1, 0, false),
    // Falls of 0 to 6, also behind the last listed level.
    (6, 9, 3, true),
    (6, 9, 2, false),
    (6, 6, 6, true),
    (6, 5, 6, false),
    (6, 7, 7, false),
];

// The first of them that is answered otherwise, if there is one.
fn first_wrong() -> Option<(u8, u8, u8, bool)> {
    for (base, first, second, want) in &TWO_LEVELS {
        if is_accepted(*base, &[*first, *second]) != *want {
            return Some((*base, *first, *second, *want));
        }
    }
    None
}

#[test]
fn two_levels(rt: HostRuntime) {
    assert_eq!(rt; first_wrong(), None);
}

#[test]
fn none_to_seven_levels(rt: HostRuntime) {
    let answers = [
        is_accepted(6, &[]),
        is_accepted(6, &[0]),
        is_accepted(9, &[6]),
        is_accepted(6, &[7]),
        is_accepted(6, &[9, 8, 7, 6, 4, 2, 1]),
        is_accepted(6, &[9, 8, 7, 6, 4, 5, 1]),
    ];
    assert_eq!(rt; answers, [false, true, true, false, true, false]);
}

// A base and a level, of which a nibble of one breaks the rule: below 6, above 15 together with a level, or a fall
// of 7.
const BREAKING: [(u8, u8); 6] = [
    (0x56, 0x66),
    (0x65, 0x66),
    (0xa6, 0x66),
    (0x6a, 0x66),
    (0x66, 0x76),
    (0x66, 0x67),
];

// Whether all of these are refused in one byte of a component.
fn all_are_refused(component: Component, at: usize) -> bool
    requires { at < 5 }
{
    for (base, left_out) in &BREAKING {
        if is_accepted_in(component, apart(at, *base), apart(at, *left_out)) {
            return false;
        }
    }
    true
}

// Whether one band of a component is enough.
fn one_is_enough(component: Component) -> bool {
    for at in 0..5 {
        if !all_are_refused(component, at) {
            return false;
        }
    }
    is_accepted_in(component, even(6), even(6))
}

// One band of one component is enough: below 6, above 15 together with a level, or a fall of 7.
#[test]
fn one_band(rt: HostRuntime) {
    let answers = [
        one_is_enough(Component::Y),
        one_is_enough(Component::Cb),
        one_is_enough(Component::Cr),
    ];
    assert_eq!(rt; answers, [true; 3]);
}
