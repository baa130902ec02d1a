//! RLGR3: codes of an independent program, both ways.
ghost use Rattle.std.specs.Prelude.{◌≡◌};
ghost use Rattle.std.specs.List.{list_all};
ghost use Rattle.gfx_rlgr.specs.Rlgr.{in_range};

use gfx_base::{Bytes, Refusal};
use gfx_rlgr::{Mode, decode, encode};
use std::alloc::Global;
use std::process::Abort;
use std::test::Fail;

// The values that are not zero, and their places.
fn placed(sparse: &[(usize, i32)]) -> [i32; 4096] {
    let mut values = [0; 4096];
    for (place, value) in sparse {
        if *place < 4096 {
            values[*place] = *value;
        }
    }
    values
}

fn all_in_range(values: &[i32; 4096]) -> bool
    ensures { result ≡ list_all in_range values.now }
{
    values.iter().all(|value| value.unsigned_abs() <= 32767)
}

fn encoded(alloc: Global, values: &[i32; 4096]) -> Option<Bytes> {
    if all_in_range(values) {
        encode(alloc, Mode::Rlgr3, values).ok()
    } else {
        None
    }
}

// These bytes are decoded to these values.
fn says(rt: &impl Abort, bytes: &[u8], sparse: &[(usize, i32)]) {
    let mut out = [7; 4096];
    assert!(rt; decode(Mode::Rlgr3, bytes, &mut out).is_ok());
    let due = placed(sparse);
    for (place, value) in out.iter().enumerate() {
        assert_eq!(rt; i32::from(*value), due[place], "at {place}");
    }
}

// Vectors of another program: runs that pass the end, pairs of every kind, both parameters at both ends of their range.
#[test]
fn vectors(rt: HostRuntime) -> Result<(), Fail> {
    let table: [(&[u8], &[(usize, i32)]); 8] = [
        (&[0x00, 0x00, 0x00], &[]),
        (&[0x80, 0x00, 0x00, 0x00], &[(0, 1)]),
        (&[0x87, 0x40, 0x00, 0x00, 0x00], &[(0, 1), (1, 1), (2, -1)]),
        (&[0x00, 0x00, 0x08, 0x06, 0xC0], &[(4095, 5)]),
        (&[0x86, 0x09, 0x80, 0x00, 0x00], &[(0, 1), (2, 1), (5, 3)]),
        (
            &[
                0x87, 0xFC, 0x7F, 0xE9, 0xFF, 0x2B, 0xF1, 0x3F, 0x4A, 0x73, 0xDC, 0x00, 0x0D, 0x7F,
                0xFF, 0xFF, 0xFF, 0xFC, 0xC0, 0x00, 0x00,
            ],
            &[
                (0, 1),
                (1, -2),
                (2, 3),
                (3, -4),
                (4, 5),
                (5, -6),
                (6, 7),
                (7, -8),
                (8, 9),
                (9, -10),
                (10, 11),
                (11, -12),
                (40, 300),
            ],
        ),
        (
            &[0x84, 0x92, 0x67, 0x20, 0x00, 0x00, 0x00],
            &[
                (0, 1),
                (2, -1),
                (4, -1),
                (6, -1),
                (8, -1),
                (9, -1),
                (10, -1),
                (11, 2),
            ],
        ),
        (
            &[0x7E, 0x00, 0x00, 0xDE, 0x3C, 0x01, 0x78, 0xC8],
            &[(3, -7), (700, 9), (4000, 2)],
        ),
    ];
    for (bytes, sparse) in table {
        says(&rt, bytes, sparse);
        let written = encoded(rt.alloc(), &placed(sparse)).ok_or("no code")?;
        assert_eq!(rt; written.as_slice(), bytes);
    }
    Ok(())
}

// Codes that no encoder writes: nothing, codes that end early, and a value behind the last place.
#[test]
fn foreign_codes(rt: HostRuntime) {
    says(&rt, &[], &[]);
    says(&rt, &[0x7F, 0xFF, 0xFF, 0xFF], &[(3, -57)]);
    says(&rt, &[0xFF; 600], &[(1, -9595)]);
    says(&rt, &[0x00, 0x00, 0x08, 0x07, 0xC0], &[(4095, -5)]);
    says(&rt, &[0x00, 0x00, 0x08, 0x09, 0xC0], &[]);
    says(&rt, &[0x87, 0xFF, 0xFF, 0xFF], &[(0, 1), (2, -14)]);
}

fn is_refused(rt: &impl Abort, bytes: &[u8]) {
    let mut out = [7; 4096];
    assert_eq!(rt;
        decode(Mode::Rlgr3, bytes, &mut out),
        Err(Refusal::CoefficientRange)
    );
    for value in out {
        assert_eq!(rt; value, 0);
    }
}

// A pair whose first number is 3 and the sum 2, and magnitudes of thousands of ones too many.
#[test]
fn refused(rt: HostRuntime) {
    is_refused(&rt, &[0x86, 0xC0]);
    is_refused(&rt, &[0xFF; 4200]);
    let mut bytes = [0xFF; 9001];
    bytes[0] = 0x87;
    is_refused(&rt, &bytes);
}

// The largest magnitudes take thousands of bits; another program writes 16,392 bytes for them.
#[test]
fn largest_magnitudes(rt: HostRuntime) -> Result<(), Fail> {
    let sparse = [(0, 1), (1, 32767), (2, -32767)];
    let written = encoded(rt.alloc(), &placed(&sparse)).ok_or("no code")?;
    assert_eq!(rt; written.len(), 16392);
    says(&rt, written.as_slice(), &sparse);
    Ok(())
}
