//! SRL: codes of an independent program, both ways.
ghost use Rattle.std.specs.Prelude.{◌≡◌, ◌<◌, ◌≤◌, ◌^◌, IsTrue};
ghost use Rattle.std.specs.Int.RustNames.{unsigned_abs};

use gfx_base::Bytes;
use gfx_srl::{SrlReader, SrlWriter};
use std::alloc::Global;

// The code of values, all of one width.
fn written(alloc: Global, values: &[i32], width: u8) -> Option<Bytes>
    requires some { 1 ≤ width }
    requires few { width ≤ 24 }
{
    let mut writer = SrlWriter::new(alloc);
    for value in values {
        if value.unsigned_abs() >= 1 << width {
            return None;
        }
        writer.push(*value, width).ok()?;
    }
    writer.finish().ok()
}

// Whether these bytes say these values at this width, and zeros behind them.
fn says(bytes: &[u8], values: &[i32], width: u8) -> bool
    requires some { 1 ≤ width }
    requires few { width ≤ 24 }
{
    let mut reader = SrlReader::new(bytes);
    for value in values {
        if reader.read(width) != *value {
            return false;
        }
    }
    true
}

// Whether these are the code of the values.
fn is_written(alloc: Global, values: &[i32], width: u8, bytes: &[u8]) -> bool
    requires some { 1 ≤ width }
    requires few { width ≤ 24 }
{
    match written(alloc, values, width) {
        Some(code) => code.as_slice() == bytes,
        None => false,
    }
}

// Vectors of another program: both signs, the largest magnitude, runs that grow, zeros at the end.
const VECTORS: [(&[i32], u8, &[u8]); 5] = [
    (&[-1], 1, &[0xA0]),
    (&[0, 0, 5, 0, -7, 1, -1], 3, &[0x40, 0xA8, 0x17, 0x80]),
    (&[0; 40], 6, &[0x00]),
    (
        &[63, 0, -62, 0, 0, 1],
        6,
        &[
            0x80, 0x00, 0x00, 0x00, 0x00, 0x00, 0x00, 0x00, 0x30, 0x00, 0x00, 0x00, 0x00, 0x00,
            0x00, 0x00, 0x49,
        ],
    ),
    (&[2, -2, 3, -3, 1], 2, &[0x8E, 0xC6, 0x50]),
];

// Whether each vector is right both ways.
fn all_go_both_ways(alloc: Global) -> bool {
    for (values, width, bytes) in &VECTORS {
        let width = *width;
        if width < 1 || width > 24 {
            return false;
        }
        if !says(bytes, values, width) || !is_written(alloc, values, width, bytes) {
            return false;
        }
    }
    true
}

#[test]
fn vectors(rt: HostRuntime) {
    assert!(rt; all_go_both_ways(rt.alloc()));
}

// Whether a reader gives so many noughts at the largest width.
fn gives_noughts(reader: &mut SrlReader<'_>, count: u32) -> bool {
    for _ in 0..count {
        if reader.read(24) != 0 {
            return false;
        }
    }
    true
}

// Whether a magnitude that no one ends goes to the largest of its width.
fn goes_past_the_end() -> bool {
    let mut reader = SrlReader::new(&[0xC0]);
    let first = (reader.read(24), reader.read(24)) == (0, 16_777_215);
    first && gives_noughts(&mut reader, 100)
}

// A magnitude that no one ends goes to the largest of its width, and nothing but zeros follows.
#[test]
fn past_the_end(rt: HostRuntime) {
    assert!(rt; goes_past_the_end());
}
