//! Kept files by hand from the format, and as they are written.
use crate::claiming::claim;
use crate::making::{let_go, numbered};
use gfx_base::{Bitmap, Bytes, Fault, NoMemory, Pixel, Pixels, Refusal};
use gfx_import::{Kept, MOST_ENTRIES, read_kept, write_kept};
use std::alloc::Global;

/// Key 5 with one red pixel, and key 2 with two green ones, one above the other.
const FILE: &[u8] = b"KEPT\x02\x00\
    \x05\x00\x00\x00\x00\x00\x00\x00\x01\x00\x01\x00\x00\x00\xff\xff\
    \x02\x00\x00\x00\x00\x00\x00\x00\x01\x00\x02\x00\x00\xff\x00\xff\x00\xff\x00\xff";

/// Whether bytes are no file.
fn is_broken(alloc: Global, bytes: &[u8]) -> bool {
    let read = read_kept(alloc, bytes);
    matches!(&read, Err(Fault::Refused(Refusal::KeptShape)))
}

/// The sides of a bitmap, and the green and red of its first pixel.
fn shown(bitmap: &Bitmap) -> Option<(u16, u16, u8, u8)> {
    let pixel = bitmap.pixels.get(0)?;
    Some((bitmap.width, bitmap.height, pixel.g, pixel.r))
}

/// The bitmap under a key.
fn shown_under(kept: &Kept, key: u64) -> Option<(u16, u16, u8, u8)> {
    shown(kept.find(key)?)
}

/// The key and the bitmap at a place.
fn shown_at(kept: &Kept, place: usize) -> Option<(u64, (u16, u16, u8, u8))> {
    let (key, bitmap) = kept.at(place)?;
    Some((key, shown(bitmap)?))
}

/// Whether a file holds the bitmaps that are due, by their places and by their keys.
fn shows(kept: &Kept) -> bool {
    kept.len() == 2
        && shown_at(kept, 1) == Some((2, (1, 2, 255, 0)))
        && shown_under(kept, 5) == Some((1, 1, 0, 255))
        && shown_under(kept, 1) == None
        && shown_at(kept, 2) == None
}

/// Whether the file is read so.
fn is_read(alloc: Global) -> Result<bool, Fault> {
    let kept = read_kept(alloc, FILE)?;
    let right = shows(&kept);
    let_go(kept);
    Ok(right)
}

#[test]
fn a_file_is_read(rt: HostRuntime) {
    claim(&rt, is_read(rt.alloc()));
}

/// What is kept as a file, behind a byte that was there.
fn written(alloc: Global, kept: &Kept) -> Result<Bytes, NoMemory> {
    let mut out = Bytes::new(alloc);
    out.push(7)?;
    write_kept(kept, &mut out)?;
    Ok(out)
}

/// Whether what is kept is written as this file, behind a byte that was there.
fn writes(alloc: Global, kept: &Kept, file: &[u8]) -> Result<bool, NoMemory> {
    let out = written(alloc, kept)?;
    Ok(out.as_slice().get(1..) == Some(file))
}

/// Whether what is read of the file is written as it again.
fn is_written(alloc: Global) -> Result<bool, Fault> {
    let kept = read_kept(alloc, FILE)?;
    let right = writes(alloc, &kept, FILE);
    let_go(kept);
    Ok(right?)
}

#[test]
fn a_file_is_written(rt: HostRuntime) {
    claim(&rt, is_written(rt.alloc()));
}

/// The first size to which the file is cut and is still one, if there is any.
fn first_whole(alloc: Global) -> Option<usize> {
    for size in 0..FILE.len() {
        if !is_broken(alloc, FILE.split_at(size).0) {
            return Some(size);
        }
    }
    None
}

/// The file, and a byte behind it.
fn longer(alloc: Global) -> Result<Bytes, NoMemory> {
    let mut more = Bytes::new(alloc);
    more.append(FILE)?;
    more.push(0)?;
    Ok(more)
}

/// Whether that is no file.
fn longer_is_broken(alloc: Global) -> Result<bool, Fault> {
    let more = longer(alloc)?;
    Ok(is_broken(alloc, more.as_slice()))
}

#[test]
fn a_file_that_is_cut_anywhere_is_none(rt: HostRuntime) {
    assert_eq!(rt; first_whole(rt.alloc()), None);
    claim(&rt, longer_is_broken(rt.alloc()));
}

/// Files that break a rule: another start, a count that lies, a key that is there twice, sides of far more pixels than
/// there are.
const BROKEN: [&[u8]; 8] = [
    b"kEPT\x00\x00",
    b"KEPS\x00\x00",
    b"KEPT\x01\x00",
    b"KEPT\x00\x00\x05\x00\x00\x00\x00\x00\x00\x00\x00\x00\x00\x00",
    b"KEPT\x02\x00\x05\x00\x00\x00\x00\x00\x00\x00\x00\x00\x00\x00",
    b"KEPT\x02\x00\x05\x00\x00\x00\x00\x00\x00\x00\x00\x00\x00\x00\x05\x00\x00\x00\x00\x00\x00\x00\x00\x00\x00\x00",
    b"KEPT\x01\x00\x05\x00\x00\x00\x00\x00\x00\x00\xff\xff\xff\xff\x00\x00\x00\x00",
    b"KEPT\xff\xff",
];

/// Whether none of these is a file.
fn all_are_broken(alloc: Global) -> bool {
    for bytes in &BROKEN {
        if !is_broken(alloc, bytes) {
            return false;
        }
    }
    true
}

/// Whether a file of no entries is read.
fn none_is_read(alloc: Global) -> Result<bool, Fault> {
    let none = read_kept(alloc, b"KEPT\x00\x00")?;
    let right = none.is_empty();
    let_go(none);
    Ok(right)
}

#[test]
fn what_breaks_a_rule_is_no_file(rt: HostRuntime) {
    assert!(rt; all_are_broken(rt.alloc()));
    claim(&rt, none_is_read(rt.alloc()));
}

/// Whether a file has the most entries, and their keys.
fn has_most(kept: &Kept) -> bool {
    kept.len() == MOST_ENTRIES && kept.find(5_460).is_some() && kept.find(5_461).is_none()
}

/// Whether so many are read.
fn most_are_read(alloc: Global) -> Result<bool, Fault> {
    let most = numbered(alloc, 5_461)?;
    let kept = read_kept(alloc, most.as_slice())?;
    let right = has_most(&kept);
    let_go(kept);
    Ok(right)
}

#[test]
fn a_file_has_5461_entries(rt: HostRuntime) {
    claim(&rt, most_are_read(rt.alloc()));
}

/// Whether one more is no file.
fn more_are_none(alloc: Global) -> Result<bool, Fault> {
    let more = numbered(alloc, 5_462)?;
    Ok(is_broken(alloc, more.as_slice()))
}

#[test]
fn a_file_has_no_more_entries(rt: HostRuntime) {
    claim(&rt, more_are_none(rt.alloc()));
}

/// One grey pixel, if it is one.
fn dot(alloc: Global, shade: u8) -> Result<Option<Bitmap>, NoMemory> {
    let mut pixels = Pixels::new(alloc);
    pixels.push(Pixel {
        b: shade,
        g: shade,
        r: shade,
        a: 255,
    })?;
    Ok(dot_of(pixels))
}

fn dot_of(pixels: Pixels) -> Option<Bitmap> {
    if pixels.len() != 1 {
        return None;
    }
    Some(Bitmap {
        width: 1,
        height: 1,
        pixels,
    })
}

/// Keeps a dot under a key, and says whether it is kept.
fn add(alloc: Global, kept: &mut Kept, key: u64, shade: u8) -> Result<Option<bool>, NoMemory> {
    match dot(alloc, shade)? {
        Some(bitmap) if bitmap.width == 1 && bitmap.height == 1 => {
            let added = kept.add(key, bitmap)?;
            Ok(Some(added))
        }
        _ => Ok(None),
    }
}

fn shade_of(kept: &Kept, key: u64) -> Option<u8> {
    let bitmap = kept.find(key)?;
    bitmap.pixels.get(0).map(|pixel| pixel.b)
}

/// Whether a key is kept once, with what came first.
fn keeps_once(alloc: Global, kept: &mut Kept) -> Result<bool, NoMemory> {
    let first = add(alloc, kept, 9, 1)? == Some(true);
    let second = add(alloc, kept, 3, 2)? == Some(true);
    let again = add(alloc, kept, 9, 7)? == Some(false);
    let shades = (shade_of(kept, 9), shade_of(kept, 3), shade_of(kept, 4));
    Ok(first && second && again && kept.len() == 2 && shades == (Some(1), Some(2), None))
}

/// The same where nothing is kept before.
fn new_keeps_once(alloc: Global) -> Result<bool, Fault> {
    let mut kept = Kept::new(alloc);
    let right = keeps_once(alloc, &mut kept);
    let_go(kept);
    Ok(right?)
}

#[test]
fn a_key_is_kept_once(rt: HostRuntime) {
    claim(&rt, new_keeps_once(rt.alloc()));
}
