//! RLGR1: codes of an independent program, both ways.
ghost use Rattle.std.specs.Prelude.{◌≡◌};
ghost use Rattle.std.specs.List.{list_all};
ghost use Rattle.gfx_rlgr.specs.Rlgr.{in_range};

use gfx_base::{Bytes, Refusal};
use gfx_rlgr::{Mode, decode, encode};
use std::alloc::Global;

// The values that are not zero, and their places.
fn placed(sparse: &[(usize, i32)]) -> [i32; 4096] {
    let mut values = [0; 4096];
    for (place, value) in sparse {
        if *place < 4096 {
            values[*place] = *value;
        }
    }
    values
}

fn all_in_range(values: &[i32; 4096]) -> bool
    ensures { result ≡ list_all in_range values.now }
{
    values.iter().all(|value| value.unsigned_abs() <= 32767)
}

fn encoded(alloc: Global, values: &[i32; 4096]) -> Option<Bytes> {
    if all_in_range(values) {
        encode(alloc, Mode::Rlgr1, values).ok()
    } else {
        None
    }
}

// Whether these bytes are decoded to these values.
fn says(bytes: &[u8], sparse: &[(usize, i32)]) -> bool {
    let mut out = [7; 4096];
    decode(Mode::Rlgr1, bytes, &mut out).is_ok() && is_placed(&out, sparse)
}

// Whether these are the values, and all others are zero.
fn is_placed(out: &[i16; 4096], sparse: &[(usize, i32)]) -> bool {
    let due = placed(sparse);
    for place in 0..4096 {
        if i32::from(out[place]) != due[place] {
            return false;
        }
    }
    true
}

// Whether these values are encoded to these bytes.
fn is_encoded(alloc: Global, sparse: &[(usize, i32)], bytes: &[u8]) -> bool {
    match encoded(alloc, &placed(sparse)) {
        Some(written) => written.as_slice() == bytes,
        None => false,
    }
}

// Vectors of another program: runs that pass the end, both parameters at both ends of their range.
const VECTORS: [(&[u8], &[(usize, i32)]); 7] = [
    (&[0x00, 0x00, 0x00], &[]),
    (&[0x80, 0x00, 0x00, 0x00], &[(0, 1)]),
    (&[0xA0, 0x00, 0x00, 0x00], &[(0, -1)]),
    (&[0x00, 0x00, 0x08, 0x06, 0xC0], &[(4095, 5)]),
    (
        &[
            0x87, 0x73, 0xBF, 0x37, 0xD5, 0xF2, 0xCF, 0x6D, 0xC0, 0x00, 0x0D, 0x7F, 0xFF, 0xFF,
            0xFF, 0xFC, 0xC0, 0x00, 0x00,
        ],
        &[
            (0, 1),
            (1, -2),
            (2, 3),
            (3, -4),
            (4, 5),
            (5, -6),
            (6, 7),
            (7, -8),
            (8, 9),
            (9, -10),
            (10, 11),
            (11, -12),
            (40, 300),
        ],
    ),
    (
        &[0x82, 0x49, 0x57, 0x80, 0x00, 0x00, 0x00],
        &[
            (0, 1),
            (2, -1),
            (4, -1),
            (6, -1),
            (8, -1),
            (9, -1),
            (10, -1),
            (11, 2),
        ],
    ),
    (
        &[0x7E, 0x00, 0x00, 0x6E, 0xDE, 0x00, 0xBC, 0x64],
        &[(3, -7), (700, 9), (4000, 2)],
    ),
];

// Whether each vector is right both ways.
fn all_go_both_ways(alloc: Global) -> bool {
    for (bytes, sparse) in &VECTORS {
        if !says(bytes, sparse) || !is_encoded(alloc, sparse, bytes) {
            return false;
        }
    }
    true
}

#[test]
fn vectors(rt: HostRuntime) {
    assert!(rt; all_go_both_ways(rt.alloc()));
}

// Codes that no encoder writes: nothing, codes that end early, and a value behind the last place.
const FOREIGN: [(&[u8], &[(usize, i32)]); 5] = [
    (&[], &[]),
    (&[0x7F, 0xFF, 0xFF, 0xFF], &[(3, -57)]),
    (&[0xFF; 600], &[(1, -9595)]),
    (&[0x00, 0x00, 0x08, 0x07, 0xC0], &[(4095, -5)]),
    (&[0x00, 0x00, 0x08, 0x09, 0xC0], &[]),
];

// Whether each of them is decoded to its values.
fn all_are_decoded() -> bool {
    for (bytes, sparse) in &FOREIGN {
        if !says(bytes, sparse) {
            return false;
        }
    }
    true
}

// A value behind the last place, with thousands of ones.
fn long_is_decoded() -> bool {
    let mut bytes = [0xFF; 4204];
    bytes[0] = 0x00;
    bytes[1] = 0x00;
    bytes[2] = 0x08;
    bytes[3] = 0x09;
    says(&bytes, &[])
}

#[test]
fn foreign_codes(rt: HostRuntime) {
    assert!(rt; all_are_decoded() && long_is_decoded());
}

// Whether a magnitude of thousands of ones too many is refused, and leaves noughts.
fn is_out_of_range() -> bool {
    let mut out = [7; 4096];
    decode(Mode::Rlgr1, &[0xFF; 4200], &mut out) == Err(Refusal::CoefficientRange)
        && is_placed(&out, &[])
}

// A magnitude of thousands of ones too many.
#[test]
fn out_of_range(rt: HostRuntime) {
    assert!(rt; is_out_of_range());
}

// The largest magnitudes.
const LARGEST: [(usize, i32); 2] = [(0, 32767), (1, -32767)];

// Whether they take so many bytes, and are decoded from these.
fn largest_go_both_ways(alloc: Global) -> bool {
    match encoded(alloc, &placed(&LARGEST)) {
        Some(written) => written.len() == 2065 && says(written.as_slice(), &LARGEST),
        None => false,
    }
}

// The largest magnitudes take thousands of bits; another program writes 2,065 bytes for them.
#[test]
fn largest_magnitudes(rt: HostRuntime) {
    assert!(rt; largest_go_both_ways(rt.alloc()));
}
