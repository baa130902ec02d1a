//! What stands round every block and every tile: its type, and its length with these six bytes
//! ([MS-RDPEGFX] 2.2.4.2).

ghost use Rattle.std.specs.Prelude.{◌+◌, ◌<◌, ◌^◌, ◌++◌};
ghost use Rattle.gfx_base.specs.Outcome.{Says};
ghost use Rattle.gfx_layout.specs.Reading.{read};
ghost use Rattle.gfx_layout.specs.Shape.{digits, u16 as two_bytes, u32 as four_bytes};
ghost use Rattle.gfx_layout.specs.Writing.{Puts};
ghost use Rattle.gfx_prog_block.specs.Layouts.{frame};

use crate::tile::Piece;
use gfx_base::{Bytes, NoMemory, Refusal};
use gfx_layout::{Fields, Part, Stop};

/// How many bytes stand before a body.
pub const FRAME: usize = 6;

/// A block whose type isn't judged yet.
#[derive(Debug, Drop)]
pub struct Frame<'a> {
    pub kind: u16,
    pub body: Piece<'a>,
}

/// Reads the next block's frame.
#[tactic(auto, unfolding(gfx_layout::specs::Reading::read, gfx_base::specs::Results::and_then))]
pub(crate) fn read_frame<'a>(fields: &mut Fields<'a>) -> Result<Frame<'a>, Stop>
    ensures { Says (λ found. (found, fields.new)) result (read frame fields.old) }
{
    let kind = fields.u16()?;
    let size = fields.u32()? as usize;
    if size < FRAME {
        return Err(Stop::Rule(Refusal::BlockLength));
    }
    let body = fields.bytes(size - FRAME)?;
    Ok(Frame {
        kind,
        body: Piece::new(body),
    })
}

/// Puts what stands before a body of so many bytes.
#[tactic(auto, unfolding(gfx_layout::specs::Shape::text))]
pub(crate) fn put_frame(out: &mut Bytes, kind: u16, body: usize) -> Result<(), NoMemory>
    requires { 6 + body < 2 ^ 32 }
    ensures { Puts result out.old out.new (digits two_bytes kind ++ digits four_bytes (6 + body)) }
{
    kind.put(out)?;
    ((FRAME + body) as u32).put(out)
}
