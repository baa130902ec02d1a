//! Messages that a server makes of tiles, as an independent program makes them.
ghost use Rattle.std.specs.Prelude.{◌≡◌, ◌∷◌, [], IfSome, length};

use gfx_base::{Bytes, Cell, Pixel, Rect};
use gfx_dwt::Transform;
use gfx_prog_encode::{TileSend, improve_message, paint_message};
use gfx_quant::{Level, Levels, Quant, Rounding, Setting};
use gfx_tile_make::SourceTile;
use std::alloc::Global;
use std::test::Fail;

// What both messages of a white tile begin with, but for the index of the second, and end with.
const BEGINS: &[u8] =
    b"\xc0\xcc\x0c\0\0\0\xca\xac\xcc\xca\0\x01\xc3\xcc\x0a\0\0\0\x01\x40\0\0\xc1\xcc\x0c\0\0\0";

const ENDS: &[u8] = b"\xc2\xcc\x06\0\0\0";

// The paint behind its index, up to the end.
const PAINTS: &[u8] =
    b"\0\0\0\0\x01\0\xc4\xcc\x5b\0\0\0\x40\x01\0\x03\x01\x01\x01\0\x22\0\0\0\0\0\0\0\x40\0\x40\0\
\x66\x66\x66\x66\x66\x66\x66\x66\x66\x66\x66\x66\x66\x66\x66\
\0\x44\x44\x44\x44\x44\x44\x44\x44\x44\x44\x44\x44\x44\x44\x44\
\xc6\xcc\x22\0\0\0\0\x01\x02\0\0\0\0\0\0\x05\0\x03\0\x03\0\0\0\0\0\x1e\xcd\xc0\0\0\0\0\0\0";

// So the second.
const IMPROVES: &[u8] =
    b"\x01\0\0\0\x01\0\xc4\xcc\xd7\0\0\0\x40\x01\0\x03\x01\x01\x01\0\x9e\0\0\0\0\0\0\0\x40\0\x40\0\
\x66\x66\x66\x66\x66\x66\x66\x66\x66\x66\x66\x66\x66\x66\x66\
\0\x44\x44\x44\x44\x44\x44\x44\x44\x44\x44\x44\x44\x44\x44\x44\
\xc7\xcc\x9e\0\0\0\0\x01\x02\0\0\0\0\xff\x03\0\x29\0\x03\0\x29\0\x03\0\x29\0\0\0\0\
\xff\xff\xff\xff\xff\xff\xff\xff\xff\xff\xff\xff\xff\xff\xff\xff\xff\xff\xff\xff\
\xff\xff\xff\xff\xff\xff\xff\xff\xff\xff\xff\xff\xff\xff\xff\xff\xff\xff\xff\xff\xf0\
\0\0\0\0\0\0\0\0\0\0\0\0\0\0\0\0\0\0\0\0\0\0\0\0\0\0\0\0\0\0\0\0\0\0\0\0\0\0\0\0\0\0\0\0\
\0\0\0\0\0\0\0\0\0\0\0\0\0\0\0\0\0\0\0\0\0\0\0\0\0\0\0\0\0\0\0\0\0\0\0\0\0\0\0\0\0\0\0\0";

// The setting of scripts that name none.
fn usual() -> Setting
    ensures { length result.levels ≡ 1 }
{
    let base = Quant { values: [6; 10] };
    let left_out = Quant { values: [4; 10] };
    let mut levels = Levels::new();
    levels.push(Level {
        y: left_out,
        cb: left_out,
        cr: left_out,
    });
    Setting {
        transform: Transform::Reduced,
        rounding: Rounding::Zero,
        y: base,
        cb: base,
        cr: base,
        levels,
    }
}

fn white_tile(alloc: Global, setting: &Setting) -> Option<SourceTile>
    ensures { IfSome result (λ tile. tile.setting ≡ setting.now) }
{
    let white = Pixel {
        b: 0xff,
        g: 0xff,
        r: 0xff,
        a: 0xff,
    };
    if setting.is_accepted() {
        SourceTile::from_pixels(alloc, &[white; 4096], setting).ok()
    } else {
        None
    }
}

// The messages that paint a white tile and then raise it to the last level.
fn messages(alloc: Global) -> Option<(Bytes, Bytes)> {
    let setting = usual();
    let tile = white_tile(alloc, &setting)?;
    let mut send = TileSend {
        cell: Cell { x: 0, y: 0 },
        rect: Rect::sized(64, 64),
        tile,
        level: 0,
    };
    let first = paint_message(alloc, &setting, slice_of(&send), 0).ok()?;
    send.level = 1;
    let second = improve_message(alloc, &setting, slice_of(&send), 1).ok()?;
    Some((first, second))
}

fn slice_of(send: &TileSend) -> &[TileSend]
    ensures { result.now ≡ send.now ∷ [] }
{
    std::slice::from_ref(send)
}

// Whether bytes are a beginning, a middle and an end.
fn is_joined(bytes: &[u8], middle: &[u8]) -> bool {
    match bytes.strip_prefix(BEGINS) {
        Some(rest) => rest.strip_suffix(ENDS) == Some(middle),
        None => false,
    }
}

#[test]
fn a_white_tile_is_painted_and_improved(rt: HostRuntime) -> Result<(), Fail> {
    let (first, second) = messages(rt.alloc()).ok_or("no messages")?;
    assert!(rt; is_joined(first.as_slice(), PAINTS));
    assert!(rt; is_joined(second.as_slice(), IMPROVES));
    Ok(())
}
