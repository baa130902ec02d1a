//! Blocks of RemoteFX Progressive: the worked examples both ways, and every refusal in its order.
use gfx_base::{Bytes, Fault, Refusal};
use gfx_prog_block::{
    Area, Block, Blocks, PackedQuant, Region, RegionLevel, Tile, TileHead, read_blocks,
    write_blocks,
};
use std::alloc::Global;

// A grey tile, as a server paints it first.
const GREY: &[u8] = b"\xc0\xcc\x0c\0\0\0\xca\xac\xcc\xca\0\x01\
\xc3\xcc\x0a\0\0\0\x01\x40\0\0\
\xc1\xcc\x0c\0\0\0\0\0\0\0\x01\0\
\xc4\xcc\x59\0\0\0\x40\x01\0\x03\x01\x01\x01\0\x20\0\0\0\0\0\0\0\x40\0\x40\0\
\x66\x66\x66\x66\x66\x66\x66\x66\x66\x66\x66\x66\x66\x66\x66\
\0\x44\x44\x44\x44\x44\x44\x44\x44\x44\x44\x44\x44\x44\x44\x44\
\xc6\xcc\x20\0\0\0\0\x01\x02\0\0\0\0\0\0\x03\0\x03\0\x03\0\0\0\0\0\0\0\0\0\0\0\0\
\xc2\xcc\x06\0\0\0";

// A region without tiles.
const LISTS: &[u8] = b"\xc4\xcc\x2f\0\0\0\x40\x01\0\x01\x01\x01\0\0\0\0\0\0\x01\0\x02\0\x03\0\x04\0\
\x10\x32\x54\x76\x98\x07\x10\x32\x54\x76\x98\x98\x76\x54\x32\x10\xaa\xbb\xcc\xdd\xee";

// A region with a tile of each kind, each place with another number.
const EACH: &[u8] = b"\xc4\xcc\x77\0\0\0\x40\0\0\0\0\x80\x03\0\x65\0\0\0\
\xc5\xcc\x1a\0\0\0\x01\x02\x03\x04\x05\x06\x07\x01\x01\0\x01\0\x01\0\x01\0\x0a\x0b\x0c\x0d\
\xc6\xcc\x1c\0\0\0\x01\x02\x03\x04\x05\x06\x07\x08\xff\x01\0\x01\0\x02\0\x01\0\x0a\x0b\x0c\x0d\x0e\
\xc7\xcc\x2f\0\0\0\x01\x02\x03\x04\x05\x06\x07\0\x01\0\x02\0\x03\0\x04\0\x05\0\x06\0\
\x01\x02\x02\x03\x03\x03\x04\x04\x04\x04\x05\x05\x05\x05\x05\x06\x06\x06\x06\x06\x06";

const HEAD: TileHead = TileHead {
    quant_y: 1,
    quant_cb: 2,
    quant_cr: 3,
    x_idx: 0x0504,
    y_idx: 0x0706,
};

// Bytes that are read and written back.
#[tactic(auto, using(gfx_prog_block::proofs::BlockLaws::all_spellable))]
fn again(alloc: Global, bytes: &[u8]) -> Option<Bytes> {
    let Ok(blocks) = read_blocks(alloc, bytes) else {
        return None;
    };
    let mut out = Bytes::new(alloc);
    write_blocks(&blocks, &mut out).ok()?;
    Some(out)
}

// Bytes, and those that are written back. What a sync block holds is written anew.
const WRITTEN: [(&[u8], &[u8]); 5] = [
    (GREY, GREY),
    (LISTS, LISTS),
    (EACH, EACH),
    (b"", b""),
    (
        b"\xc0\xcc\x0c\0\0\0\x01\x02\x03\x04\x05\x06",
        b"\xc0\xcc\x0c\0\0\0\xca\xac\xcc\xca\0\x01",
    ),
];

// Whether these bytes are read, and those written back.
fn is_written(alloc: Global, bytes: &[u8], due: &[u8]) -> bool {
    match again(alloc, bytes) {
        Some(out) => out.as_slice() == due,
        None => false,
    }
}

// Whether all are written back so.
fn all_are_written(alloc: Global) -> bool {
    for (bytes, due) in &WRITTEN {
        if !is_written(alloc, bytes, due) {
            return false;
        }
    }
    true
}

// What is written back is what was read; what a sync block holds is written anew.
#[test]
fn read_and_written(rt: HostRuntime) {
    assert!(rt; all_are_written(rt.alloc()));
}

// The rectangle of the region.
const AREA: Area = Area {
    x: 1,
    y: 2,
    width: 3,
    height: 4,
};

// Whether a quant has these values, and is packed from them again.
fn is_packed(packed: PackedQuant) -> bool {
    let quant = packed.quant();
    quant.values == [7, 8, 9, 4, 5, 6, 1, 2, 3, 0] && PackedQuant::new(&quant) == packed
}

// Whether the level of a region has this quality, and its last quant these values.
fn is_leveled(level: RegionLevel) -> bool {
    level.quality == 7 && level.cr.quant().values == [13, 14, 14, 12, 12, 13, 10, 11, 11, 10]
}

// Whether a region has the lists that are due, if each has an item.
fn has_lists(region: &Region<'_>) -> Option<bool> {
    let rect = region.rects.get(0)? == AREA;
    let quant = is_packed(region.quants.get(0)?);
    Some(rect && quant && is_leveled(region.levels.get(0)?))
}

// The region that blocks begin with, if they do.
fn region_of<'a, 'b>(blocks: &'b Blocks<'a>) -> Option<&'b Region<'a>> {
    match blocks.get(0) {
        Some(Block::Region(region)) => Some(region),
        _ => None,
    }
}

// Whether the lists of the region are read so, if they are read.
fn lists_are_read(alloc: Global) -> Option<bool> {
    let blocks = read_blocks(alloc, LISTS).ok()?;
    let lists = match region_of(&blocks) {
        Some(region) => has_lists(region),
        None => None,
    };
    drop(blocks);
    lists
}

// The lists of a region, as an independent program prints them.
#[test]
fn lists_of_a_region(rt: HostRuntime) {
    assert_eq!(rt; lists_are_read(rt.alloc()), Some(true));
}

// Whether a tile has the fields that are due of its kind.
fn shows(tile: &Tile<'_>) -> bool {
    match tile {
        Tile::Simple { head, flags, pass } => {
            (*head, *flags) == (HEAD, 1)
                && pass.y.as_slice() == b"\x0a".as_slice()
                && pass.tail.as_slice() == b"\x0d".as_slice()
        }
        Tile::First {
            head,
            flags,
            quality,
            pass,
        } => {
            (*head, *flags, *quality) == (HEAD, 8, 0xFF)
                && pass.cb.as_slice() == b"\x0b".as_slice()
                && pass.cr.as_slice() == b"\x0c\x0d".as_slice()
        }
        Tile::Upgrade {
            head,
            quality,
            pass,
        } => {
            (*head, *quality) == (HEAD, 0)
                && pass.y_raw.as_slice() == b"\x02\x02".as_slice()
                && pass.cr_srl.as_slice() == b"\x05\x05\x05\x05\x05".as_slice()
        }
    }
}

// Whether a region has three tiles, each with the fields that are due.
fn has_tiles(region: &Region<'_>) -> bool {
    for tile in region.tiles.as_slice() {
        if !shows(tile) {
            return false;
        }
    }
    region.flags == 0x80 && region.tiles.len() == 3
}

// Whether the tiles of the region are read so, if they are read.
fn tiles_are_read(alloc: Global) -> Option<bool> {
    let blocks = read_blocks(alloc, EACH).ok()?;
    let tiles = match region_of(&blocks) {
        Some(region) => has_tiles(region),
        None => false,
    };
    drop(blocks);
    Some(tiles)
}

// The fields of tiles, as an independent program prints them.
#[test]
fn tiles_of_each_kind(rt: HostRuntime) {
    assert_eq!(rt; tiles_are_read(rt.alloc()), Some(true));
}

// Bytes that are no blocks, and the first fault, as an independent program answers it.
const REFUSED: [(&[u8], Refusal); 18] = [
    (b"\xc2\xcc\x06\0\0", Refusal::BlockLength),
    (b"\xc2\xcc\x05\0\0\0", Refusal::BlockLength),
    (b"\xc2\xcc\x07\0\0\0\xff", Refusal::BlockLength),
    (b"\xc9\xcc\x09\0\0\0", Refusal::BlockLength),
    (b"\xc9\xcc\x06\0\0\0", Refusal::BlockUnknown),
    (b"\xc5\xcc\x06\0\0\0", Refusal::BlockUnknown),
    (b"\xc3\xcc\x0a\0\0\0\x01\x41\0\0", Refusal::BlockUnknown),
    (b"\xc3\xcc\x0b\0\0\0\x01\x41\0\0\0", Refusal::BlockLength),
    (
        b"\xc4\xcc\x12\0\0\0\x41\0\0\0\0\0\0\0\0\0\0\0",
        Refusal::BlockUnknown,
    ),
    (
        b"\xc4\xcc\x13\0\0\0\x41\0\0\0\0\0\0\0\0\0\0\0\xff",
        Refusal::BlockLength,
    ),
    // A tile is due, and there is none, a beginning of one, another block, or one of a wrong length.
    (
        b"\xc4\xcc\x12\0\0\0\x40\0\0\0\0\0\x01\0\0\0\0\0",
        Refusal::TileCount,
    ),
    (
        b"\xc4\xcc\x13\0\0\0\x40\0\0\0\0\0\x01\0\x01\0\0\0\xcc",
        Refusal::BlockLength,
    ),
    (
        b"\xc4\xcc\x18\0\0\0\x40\0\0\0\0\0\x01\0\x06\0\0\0\xc2\xcc\x06\0\0\0",
        Refusal::BlockUnknown,
    ),
    (
        b"\xc4\xcc\x18\0\0\0\x40\0\0\0\0\0\x01\0\x06\0\0\0\xc6\xcc\x06\0\0\0",
        Refusal::BlockLength,
    ),
    (
        b"\xc4\xcc\x18\0\0\0\x40\0\0\0\0\0\x01\0\x06\0\0\0\xc6\xcc\x07\0\0\0",
        Refusal::BlockLength,
    ),
    // No tile is due any more.
    (
        b"\xc4\xcc\x18\0\0\0\x40\0\0\0\0\0\0\0\x06\0\0\0\xc2\xcc\x06\0\0\0",
        Refusal::TileCount,
    ),
    // What comes first in the bytes is refused, whatever follows.
    (
        b"\xc2\xcc\x06\0\0\0\xc9\xcc\x06\0\0\0\xc2",
        Refusal::BlockUnknown,
    ),
    (
        b"\xc2\xcc\x06\0\0\0\xc9\xcc\x08\0\0\0\xc2",
        Refusal::BlockLength,
    ),
];

// Whether bytes are refused so.
fn is_refused(alloc: Global, bytes: &[u8], refusal: Refusal) -> bool {
    match read_blocks(alloc, bytes) {
        Ok(_) => false,
        Err(fault) => fault == Fault::Refused(refusal),
    }
}

// The refusal that is due of the first bytes that are answered otherwise, if there are any.
fn first_wrong(alloc: Global) -> Option<Refusal> {
    for (bytes, refusal) in &REFUSED {
        if !is_refused(alloc, bytes, *refusal) {
            return Some(*refusal);
        }
    }
    None
}

// The first fault, as an independent program answers it.
#[test]
fn refusals(rt: HostRuntime) {
    assert_eq!(rt; first_wrong(rt.alloc()), None);
}
