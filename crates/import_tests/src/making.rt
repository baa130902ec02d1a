//! Kept files of bitmaps of one colour each.
use gfx_base::{Bytes, Fault, NoMemory};
use gfx_import::{Kept, read_kept};
use std::alloc::Global;

/// An entry of a file: its key, its sides, and the bytes of each of its pixels.
#[derive(Clone, Copy)]
pub struct Plain {
    pub key: u64,
    pub width: u16,
    pub height: u16,
    pub pixel: [u8; 4],
}

/// Red, as blue, green, red and alpha.
pub const RED: [u8; 4] = [0, 0, 255, 255];

/// Green.
pub const GREEN: [u8; 4] = [0, 255, 0, 255];

/// A red bitmap of these sides.
pub(crate) fn red(key: u64, width: u16, height: u16) -> Plain {
    Plain {
        key,
        width,
        height,
        pixel: RED,
    }
}

/// The bytes of a file that says it has so many entries, before them.
pub(crate) fn start(alloc: Global, count: u16) -> Result<Bytes, NoMemory> {
    let mut bytes = Bytes::new(alloc);
    bytes.append(b"KEPT")?;
    bytes.append(&count.to_le_bytes())?;
    Ok(bytes)
}

/// The bytes of a row of so many such pixels.
fn row_of(alloc: Global, pixel: [u8; 4], width: u16) -> Result<Bytes, NoMemory> {
    let mut row = Bytes::new(alloc);
    for _column in 0..width {
        row.append(&pixel)?;
    }
    Ok(row)
}

/// Puts an entry at the end of a file.
pub(crate) fn put(alloc: Global, bytes: &mut Bytes, one: Plain) -> Result<(), NoMemory> {
    bytes.append(&one.key.to_le_bytes())?;
    bytes.append(&one.width.to_le_bytes())?;
    bytes.append(&one.height.to_le_bytes())?;
    let row = row_of(alloc, one.pixel, one.width)?;
    for _row in 0..one.height {
        bytes.append(row.as_slice())?;
    }
    Ok(())
}

/// Puts entries at the end of a file.
fn put_all(alloc: Global, bytes: &mut Bytes, entries: &[Plain]) -> Result<(), NoMemory> {
    for one in entries {
        put(alloc, bytes, *one)?;
    }
    Ok(())
}

/// A file of these entries, which are few.
fn file_of(alloc: Global, entries: &[Plain]) -> Result<Bytes, NoMemory> {
    let count = entries.len().min(65_535) as u16;
    let mut bytes = start(alloc, count)?;
    put_all(alloc, &mut bytes, entries)?;
    Ok(bytes)
}

/// What is kept in a file of these entries.
pub(crate) fn kept(alloc: Global, entries: &[Plain]) -> Result<Kept, Fault> {
    let file = file_of(alloc, entries)?;
    read_kept(alloc, file.as_slice())
}

/// Lets go of what is kept, which is proved once here.
pub(crate) fn let_go(kept: Kept) {
    drop(kept);
}

/// A file of so many empty bitmaps, whose keys count from 0.
pub(crate) fn numbered(alloc: Global, count: u16) -> Result<Bytes, NoMemory> {
    let mut bytes = start(alloc, count)?;
    put_numbered(alloc, &mut bytes, count)?;
    Ok(bytes)
}

/// Puts so many empty bitmaps at the end of a file, whose keys count from 0.
fn put_numbered(alloc: Global, bytes: &mut Bytes, count: u16) -> Result<(), NoMemory> {
    for key in 0..count {
        put(alloc, bytes, red(u64::from(key), 0, 0))?;
    }
    Ok(())
}
