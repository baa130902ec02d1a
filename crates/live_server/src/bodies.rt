//! Bodies of records: the numbers of each step in their order, lists to the end of the body.

ghost use Rattle.std.specs.Prelude.{◌<◌};

use crate::commands::Word;
use gfx_base::{Cause, Format, Pixel, Point, Points, Rect, Rects};
use gfx_layout::{Fields, Part, Stop};
use gfx_script::{Flaw, ScriptKind, Step};
use std::alloc::Global;

/// Why a body gives nothing.
#[derive(Clone, Copy, Debug, PartialEq, Eq)]
pub enum BodyFault {
    /// It is wrong: Key where it has another length than its kind has, and Range where a number names nothing.
    Wrong(ScriptKind),
    /// No memory is left.
    Memory,
}

impl From<ScriptKind> for BodyFault {
    fn from(kind: ScriptKind) -> BodyFault {
        BodyFault::Wrong(kind)
    }
}

impl From<Stop> for BodyFault {
    fn from(_stop: Stop) -> BodyFault {
        BodyFault::Wrong(ScriptKind::Key)
    }
}

impl From<Cause<Stop>> for BodyFault {
    fn from(cause: Cause<Stop>) -> BodyFault {
        match cause {
            Cause::Refused(stop) => stop.into(),
            Cause::Memory => BodyFault::Memory,
        }
    }
}

impl From<Flaw> for BodyFault {
    fn from(flaw: Flaw) -> BodyFault {
        match flaw {
            Flaw::Refused(kind) => BodyFault::Wrong(kind),
            Flaw::Memory => BodyFault::Memory,
        }
    }
}

/// Reads a step.
pub fn read_step(alloc: Global, word: Word, body: &[u8]) -> Result<Step, BodyFault> {
    match word {
        Word::Surface => read_surface(body),
        Word::Delete => Ok(Step::Delete { id: read_id(body)? }),
        Word::Reset => read_reset(body),
        Word::Map => read_map(body),
        Word::Fill => read_fill(alloc, body),
        Word::Copy => read_copy(alloc, body),
        Word::Keep => read_keep(body),
        Word::Show => read_show(alloc, body),
        Word::Forget => read_forget(body),
        Word::Improve => Ok(Step::Improve { id: read_id(body)? }),
        Word::Frame => read_frame(body),
    }
}

fn read_surface(body: &[u8]) -> Result<Step, BodyFault> {
    let mut fields = Fields::new(body);
    let id = fields.u16()?;
    let width = fields.u16()?;
    let height = fields.u16()?;
    let format = fields.u8()?;
    fields.end()?;
    let format = Format::from_byte(format).ok_or(ScriptKind::Range)?;
    Ok(Step::Surface {
        id,
        width,
        height,
        format,
    })
}

/// Reads a body that is the id of a surface.
fn read_id(body: &[u8]) -> Result<u16, BodyFault> {
    let mut fields = Fields::new(body);
    let id = fields.u16()?;
    fields.end()?;
    Ok(id)
}

fn read_reset(body: &[u8]) -> Result<Step, BodyFault> {
    let mut fields = Fields::new(body);
    let width = fields.u32()?;
    let height = fields.u32()?;
    fields.end()?;
    Ok(Step::Reset { width, height })
}

fn read_map(body: &[u8]) -> Result<Step, BodyFault> {
    let mut fields = Fields::new(body);
    let id = fields.u16()?;
    let x = fields.u32()?;
    let y = fields.u32()?;
    fields.end()?;
    Ok(Step::Map { id, x, y })
}

fn read_fill(alloc: Global, body: &[u8]) -> Result<Step, BodyFault> {
    let mut fields = Fields::new(body);
    let id = fields.u16()?;
    let colour: Pixel = fields.one()?;
    let rects: Rects = fields.items(alloc, count_behind(body, 6, Rect::SIZE))?;
    fields.end()?;
    Ok(Step::Fill { id, colour, rects })
}

fn read_copy(alloc: Global, body: &[u8]) -> Result<Step, BodyFault> {
    let mut fields = Fields::new(body);
    let from = fields.u16()?;
    let to = fields.u16()?;
    let rect: Rect = fields.one()?;
    let points: Points = fields.items(alloc, count_behind(body, 12, Point::SIZE))?;
    fields.end()?;
    Ok(Step::Copy {
        from,
        to,
        rect,
        points,
    })
}

fn read_keep(body: &[u8]) -> Result<Step, BodyFault> {
    let mut fields = Fields::new(body);
    let id = fields.u16()?;
    let key = fields.u64()?;
    let rect: Rect = fields.one()?;
    fields.end()?;
    Ok(Step::Keep { id, key, rect })
}

fn read_show(alloc: Global, body: &[u8]) -> Result<Step, BodyFault> {
    let mut fields = Fields::new(body);
    let key = fields.u64()?;
    let to = fields.u16()?;
    let points: Points = fields.items(alloc, count_behind(body, 10, Point::SIZE))?;
    fields.end()?;
    Ok(Step::Show { key, to, points })
}

fn read_forget(body: &[u8]) -> Result<Step, BodyFault> {
    let mut fields = Fields::new(body);
    let key = fields.u64()?;
    fields.end()?;
    Ok(Step::Forget { key })
}

fn read_frame(body: &[u8]) -> Result<Step, BodyFault> {
    Fields::new(body).end()?;
    Ok(Step::Frame)
}

/// How many whole items of a size stand behind the first bytes of a body.
fn count_behind(body: &[u8], front: usize, size: usize) -> usize
    requires { 0 < size }
{
    body.len().saturating_sub(front) / size
}
