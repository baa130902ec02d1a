//! Pictures with their paints.

use crate::bodies::BodyFault;
use gfx_base::Point;
use gfx_layout::{Fields, Stop};
use gfx_script::{Kind, Picture, ScriptKind};
use std::alloc::Global;

/// How many bytes stand before the pixels of a paint.
const FRONT: usize = 13;

/// The number that stands for no glyph.
const NO_GLYPH: u16 = 0xffff;

/// A picture, and where and how it is painted.
#[derive(Drop)]
pub struct Paint {
    pub id: u16,
    pub at: Point,
    pub picture: Picture,
    pub kind: Option<Kind>,
    pub glyph: Option<u16>,
}

/// What stands before the pixels of a paint.
#[derive(Clone, Copy, Debug)]
struct Front {
    id: u16,
    at: Point,
    width: u16,
    height: u16,
    kind: u8,
    glyph: u16,
}

/// Reads a paint. Its pixels are copied once, into the picture.
pub fn read_paint(alloc: Global, body: &[u8]) -> Result<Paint, BodyFault> {
    if body.len() < FRONT {
        return Err(BodyFault::Wrong(ScriptKind::Key));
    }
    let (front, rows) = body.split_at(FRONT);
    let front = read_front(front)?;
    let kind = kind_of(front.kind)?;
    let picture = Picture::from_rows(alloc, front.width, front.height, rows)?;
    Ok(Paint {
        id: front.id,
        at: front.at,
        picture,
        kind,
        glyph: glyph_of(front.glyph),
    })
}

fn read_front(bytes: &[u8]) -> Result<Front, Stop> {
    let mut fields = Fields::new(bytes);
    let id = fields.u16()?;
    let at: Point = fields.one()?;
    let width = fields.u16()?;
    let height = fields.u16()?;
    let kind = fields.u8()?;
    let glyph = fields.u16()?;
    Ok(Front {
        id,
        at,
        width,
        height,
        kind,
        glyph,
    })
}

/// The kind that a number names; 0 leaves it open.
fn kind_of(number: u8) -> Result<Option<Kind>, ScriptKind> {
    match number {
        0 => Ok(None),
        1 => Ok(Some(Kind::Raw)),
        2 => Ok(Some(Kind::Residual)),
        3 => Ok(Some(Kind::Bands)),
        4 => Ok(Some(Kind::Palette)),
        5 => Ok(Some(Kind::Plain)),
        6 => Ok(Some(Kind::Progressive)),
        7 => Ok(Some(Kind::Video)),
        _ => Err(ScriptKind::Range),
    }
}

/// The index of a glyph, if there is one.
fn glyph_of(number: u16) -> Option<u16> {
    (number != NO_GLYPH).then_some(number)
}
