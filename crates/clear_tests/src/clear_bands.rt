//! The bands of ClearCodec: streams of an independent program, the worked examples, and each refusal.
use crate::claiming::{claim, claim_with_memory};
use gfx_base::{Bytes, Fault, NoMemory, Refusal, Rgb};
use gfx_clear_bands::{read_bands, write_bands};
use gfx_clear_store::Store;
use std::alloc::Global;

const WHITE: Rgb = Rgb {
    b: 255,
    g: 255,
    r: 255,
};

const BLACK: Rgb = Rgb { b: 0, g: 0, r: 0 };

const LIGHT: Rgb = Rgb {
    b: 240,
    g: 240,
    r: 240,
};

const BROWN: Rgb = Rgb {
    b: 160,
    g: 96,
    r: 32,
};

// A picture of 8 by 54 with a light window of 4 by 27.
fn colour_at(x: u16, y: u16) -> Rgb {
    if (14..41).contains(&y) && (2..6).contains(&x) {
        LIGHT
    } else {
        BROWN
    }
}

fn window(alloc: Global) -> Result<Vec<Rgb>, NoMemory> {
    let mut pixels = Vec::new(alloc);
    for y in 0..54 {
        for x in 0..8 {
            pixels.push(colour_at(x, y))?;
        }
    }
    Ok(pixels)
}

fn is_window(pixels: &[Rgb]) -> bool {
    for y in 0..54 {
        for x in 0..8 {
            if pixels.get(8 * usize::from(y) + usize::from(x)) != Some(&colour_at(x, y)) {
                return false;
            }
        }
    }
    true
}

// The bytes that it is written as, each with how often it comes: a background column and a hit on it, a short of 27
// pixels, hits.
const FIRST: [(&[u8], u8); 7] = [
    (
        &[
            0x00, 0x00, 0x07, 0x00, 0x00, 0x00, 0x33, 0x00, 0xA0, 0x60, 0x20, 0x00, 0x00, 0x00,
            0x80, 0x0E, 0x29,
        ],
        1,
    ),
    (&[0xF0], 81),
    (&[0x01, 0x80], 3),
    (&[0x00, 0x80], 2),
    (
        &[
            0x00, 0x00, 0x07, 0x00, 0x34, 0x00, 0x35, 0x00, 0xA0, 0x60, 0x20,
        ],
        1,
    ),
    (&[0x00, 0x40, 0x00], 1),
    (&[0x02, 0x80], 7),
];

// And once it was written before: hits alone.
const SECOND: [(&[u8], u8); 6] = [
    (
        &[
            0x00, 0x00, 0x07, 0x00, 0x00, 0x00, 0x33, 0x00, 0xA0, 0x60, 0x20,
        ],
        1,
    ),
    (&[0x00, 0x80], 2),
    (&[0x01, 0x80], 4),
    (&[0x00, 0x80], 2),
    (
        &[
            0x00, 0x00, 0x07, 0x00, 0x34, 0x00, 0x35, 0x00, 0xA0, 0x60, 0x20,
        ],
        1,
    ),
    (&[0x02, 0x80], 8),
];

// Pieces, each so many times.
fn joined(alloc: Global, pieces: &[(&[u8], u8)]) -> Result<Bytes, NoMemory> {
    let mut bytes = Bytes::new(alloc);
    for (piece, count) in pieces {
        for _ in 0..*count {
            bytes.append(piece)?;
        }
    }
    Ok(bytes)
}

// Writes the window once more. `write_bands` has a condition on the number of pixels.
fn written(alloc: Global, store: &mut Store) -> Result<Bytes, NoMemory> {
    let pixels = window(alloc)?;
    let mut out = Bytes::new(alloc);
    if pixels.len() == 432 {
        write_bands(store, &pixels, 8, 54, &mut out)?;
    }
    Ok(out)
}

// Whether the window, written once more, goes as these bytes.
fn is_written(alloc: Global, store: &mut Store, pieces: &[(&[u8], u8)]) -> Result<bool, NoMemory> {
    let got = written(alloc, store)?;
    let due = joined(alloc, pieces)?;
    Ok(got.as_slice() == due.as_slice())
}

// Whether the window goes as the first stream, and then as the second.
fn writes_both(alloc: Global, store: &mut Store) -> Result<bool, NoMemory> {
    for pieces in &[FIRST.as_slice(), SECOND.as_slice()] {
        if !is_written(alloc, store, pieces)? {
            return Ok(false);
        }
    }
    Ok(true)
}

#[test]
fn writes_a_window(rt: HostRuntime) -> Result<(), NoMemory> {
    let mut store = Store::new(rt.alloc())?;
    let same = writes_both(rt.alloc(), &mut store);
    claim_with_memory(&rt, same);
    Ok(())
}

// Reads bands of a picture of 8 by 54 over black, and answers whether they draw the window, whole.
fn draws_window(
    alloc: Global,
    store: &mut Store,
    pieces: &[(&[u8], u8)],
) -> Result<bool, NoMemory> {
    let bytes = joined(alloc, pieces)?;
    let mut pixels = vec![in alloc; BLACK; 432]?;
    let mut drawn = vec![in alloc; false; 432]?;
    let read = read_bands(store, bytes.as_slice(), 8, 54, &mut pixels, &mut drawn);
    Ok(read.is_ok() && is_window(&pixels) && drawn.iter().all(|pixel| *pixel))
}

// Whether both streams draw the window, and leave the cursors alike.
fn reads_both(alloc: Global, store: &mut Store) -> Result<bool, NoMemory> {
    for pieces in &[FIRST.as_slice(), SECOND.as_slice()] {
        if !draws_window(alloc, store, pieces)? || store.cursors() != (3, 2) {
            return Ok(false);
        }
    }
    Ok(true)
}

#[test]
fn reads_a_window(rt: HostRuntime) -> Result<(), NoMemory> {
    let mut store = Store::new(rt.alloc())?;
    let drawn = reads_both(rt.alloc(), &mut store);
    claim_with_memory(&rt, drawn);
    Ok(())
}

// What white above black is written as, twice.
const TWO_PIXELS: [u8; 29] = [
    0x00, 0x00, 0x00, 0x00, 0x00, 0x00, 0x01, 0x00, 0xFF, 0xFF, 0xFF, 0x01, 0x02, 0x00, 0x00, 0x00,
    0x00, 0x00, 0x00, 0x00, 0x00, 0x00, 0x01, 0x00, 0xFF, 0xFF, 0xFF, 0x00, 0x80,
];

// Writes that, and answers whether it goes so.
fn are_written(alloc: Global, store: &mut Store) -> Result<bool, NoMemory> {
    let mut out = Bytes::new(alloc);
    for _ in 0..2 {
        write_bands(store, &[WHITE, BLACK], 1, 2, &mut out)?;
    }
    Ok(out.as_slice() == TWO_PIXELS.as_slice())
}

#[test]
fn writes_two_pixels(rt: HostRuntime) -> Result<(), NoMemory> {
    let mut store = Store::new(rt.alloc())?;
    let same = are_written(rt.alloc(), &mut store);
    claim_with_memory(&rt, same);
    Ok(())
}

// The refusal of bands of a picture of 3 by 2, and the cursors by then.
fn refused(store: &mut Store, bytes: &[u8]) -> (Option<Refusal>, (u16, u16)) {
    store.mark();
    let read = read_bands(store, bytes, 3, 2, &mut [BLACK; 6], &mut [false; 6]);
    let cursors = store.cursors();
    store.roll_back();
    match read {
        Err(Fault::Refused(refusal)) => (Some(refusal), cursors),
        _ => (None, cursors),
    }
}

// Bands of a picture of 3 by 2, why they are refused, and the cursors by then.
const REFUSED: [(&[u8], Option<Refusal>, (u16, u16)); 12] = [
    (&[], None, (0, 0)),
    // A head cut short, columns and rows in the wrong order or outside.
    (
        &[0, 0, 0, 0, 0, 0, 0, 0, 1, 2],
        Some(Refusal::ClearLengths),
        (0, 0),
    ),
    (
        &[1, 0, 0, 0, 0, 0, 0, 0, 1, 2, 3],
        Some(Refusal::BandShape),
        (0, 0),
    ),
    (
        &[0, 0, 3, 0, 0, 0, 0, 0, 1, 2, 3],
        Some(Refusal::BandShape),
        (0, 0),
    ),
    (
        &[0, 0, 0, 0, 1, 0, 0, 0, 1, 2, 3],
        Some(Refusal::BandShape),
        (0, 0),
    ),
    (
        &[0, 0, 0, 0, 0, 0, 2, 0, 1, 2, 3],
        Some(Refusal::BandShape),
        (0, 0),
    ),
    // A word cut short, a short that ends above its start before its pixels are missing.
    (
        &[0, 0, 0, 0, 0, 0, 0, 0, 1, 2, 3, 0],
        Some(Refusal::ClearLengths),
        (0, 0),
    ),
    (
        &[0, 0, 0, 0, 0, 0, 0, 0, 1, 2, 3, 2, 1],
        Some(Refusal::BarOrder),
        (0, 0),
    ),
    (
        &[0, 0, 0, 0, 0, 0, 0, 0, 1, 2, 3, 0, 1, 9, 9],
        Some(Refusal::ClearLengths),
        (0, 0),
    ),
    // The row of a short hit is read before its place.
    (
        &[0, 0, 0, 0, 0, 0, 0, 0, 1, 2, 3, 5, 0x40],
        Some(Refusal::ClearLengths),
        (0, 0),
    ),
    (
        &[0, 0, 0, 0, 0, 0, 0, 0, 1, 2, 3, 5, 0x40, 0],
        Some(Refusal::BarEmpty),
        (0, 0),
    ),
    // Two misses, then a place that was never written.
    (
        &[
            0, 0, 2, 0, 0, 0, 1, 0, 1, 2, 3, 0, 0, 1, 2, 4, 5, 6, 100, 0x80,
        ],
        Some(Refusal::BarEmpty),
        (2, 2),
    ),
];

// Whether nothing was ever written on the first places.
fn is_unwritten(store: &Store) -> bool {
    store.bar(0) == None && store.short(1) == None
}

// Whether all are refused so, and leave the store as it was.
fn are_refused(store: &mut Store) -> bool {
    for (bytes, refusal, cursors) in &REFUSED {
        if refused(store, bytes) != (*refusal, *cursors) || store.cursors() != (0, 0) {
            return false;
        }
    }
    is_unwritten(store)
}

#[test]
fn refuses(rt: HostRuntime) -> Result<(), NoMemory> {
    let mut store = Store::new(rt.alloc())?;
    let right = are_refused(&mut store);
    claim(&rt, right);
    Ok(())
}

// The refusal of a hit in a band that ends in this row, and the cursors by then.
fn refused_to(store: &mut Store, bottom: u8) -> (Option<Refusal>, (u16, u16)) {
    refused(store, &[0, 0, 0, 0, 0, 0, bottom, 0, 1, 2, 3, 0, 0x80])
}

// Whether a bar of one row serves a band of one alone.
fn serves_one_row(store: &mut Store) -> bool {
    // It takes no memory.
    let _ = store.add_bar(&[WHITE]);
    refused_to(store, 1) == (Some(Refusal::BarHeight), (1, 0))
        && refused_to(store, 0) == (None, (1, 0))
}

// A bar of one row doesn't serve a band of two.
#[test]
fn refuses_another_height(rt: HostRuntime) -> Result<(), NoMemory> {
    let mut store = Store::new(rt.alloc())?;
    let right = serves_one_row(&mut store);
    claim(&rt, right);
    Ok(())
}
