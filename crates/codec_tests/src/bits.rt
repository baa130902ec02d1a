//! Bits: values of an independent program.
use gfx_bits::{BitReader, BitWriter, NoBits};
use std::alloc::Global;

// Whether a reader gives these numbers, each of so many bits.
fn gives(bits: &mut BitReader<'_>, numbers: &[(u8, u32)]) -> bool {
    for (count, number) in numbers {
        if *count > 32 || bits.read(*count) != *number {
            return false;
        }
    }
    true
}

// The first SRL code of -1, and zeros behind it.
fn gives_code() -> bool {
    let mut bits = BitReader::new(&[0xA0]);
    gives(&mut bits, &[(1, 1), (2, 1), (32, 0)])
}

// A word that lies across four bytes and a half.
fn gives_word() -> bool {
    let mut bits = BitReader::new(&[0x12, 0x34, 0x56, 0x78, 0x9A]);
    gives(&mut bits, &[(4, 1), (32, 0x2345_6789), (8, 0xA0)])
}

const ONES: [u8; 16] = [0xFF; 16];

// A run of ones over more than a window.
fn gives_ones() -> bool {
    let mut bits = BitReader::new(&ONES);
    let first = bits.read(3) == 7;
    first && bits.read_ones() == 125 && bits.read_ones() == 0
}

// Ones and a number behind them: 1110 101 0, and no end of them.
fn gives_heads() -> bool {
    let mut bits = BitReader::new(&[0xEA]);
    let mut ones = BitReader::new(&ONES);
    bits.read_ones_then(3) == (3, 5) && ones.read_ones_then(9) == (128, 0)
}

// The first SRL code of -1, and a run of ones over more than a window.
#[test]
fn reads(rt: HostRuntime) {
    let right = [gives_code(), gives_word(), gives_ones(), gives_heads()];
    assert_eq!(rt; right, [true; 4]);
}

// Whether what a writer has is these bytes.
fn is_finished(bits: BitWriter, due: &[u8]) -> Result<bool, NoBits> {
    let bytes = bits.finish()?;
    Ok(bytes.as_slice() == due)
}

fn push_code(bits: &mut BitWriter) -> Result<(), NoBits> {
    bits.push(1, 1)?;
    bits.push(1, 2)
}

// Zeros to the end of a byte.
fn writes_code(alloc: Global) -> Result<bool, NoBits> {
    let mut bits = BitWriter::new(alloc);
    let pushed = push_code(&mut bits);
    let finished = is_finished(bits, &[0xA0]);
    pushed?;
    finished
}

// A word filled in the middle of a number, nothing, and a run of ones.
const WORD: [u8; 14] = [
    0x12, 0x34, 0x56, 0x78, 0x9F, 0xFF, 0xFF, 0xFF, 0xFF, 0xFF, 0xFF, 0xFF, 0xFF, 0xC0,
];

fn push_word(bits: &mut BitWriter) -> Result<(), NoBits> {
    bits.push(1, 4)?;
    bits.push(0x2345_6789, 32)?;
    bits.push(0, 0)?;
    bits.push_ones(70)?;
    bits.push(0, 1)
}

fn writes_word(alloc: Global) -> Result<bool, NoBits> {
    let mut bits = BitWriter::new(alloc);
    let pushed = push_word(&mut bits);
    let finished = is_finished(bits, &WORD);
    pushed?;
    finished
}

// A writer's bytes: a word filled in the middle of a number, and zeros to the end of a byte.
#[test]
fn writes(rt: HostRuntime) {
    let nothing = is_finished(BitWriter::new(rt.alloc()), &[]);
    let right = [writes_code(rt.alloc()), writes_word(rt.alloc()), nothing];
    assert_eq!(rt; right, [Ok(true); 3]);
}
