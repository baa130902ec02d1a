//! What decodes messages, and the memory that it keeps from one to the next.
ghost use Rattle.std.specs.Prelude.{IfOk, IfSome, IsTrue};
ghost use Rattle.gfx_base.specs.Geometry.{lies_in};
ghost use Rattle.gfx_base.specs.Outcome.{Applies, WantsOnlyIf};
ghost use Rattle.gfx_rfx_video.specs.BlockReading.{begins_block};
ghost use Rattle.gfx_rfx_video.specs.Inside.{IsCanvas};
ghost use Rattle.gfx_rfx_video.specs.Video.{after_blocks, after_video};

use crate::applying::apply_whole;
use crate::block::VideoBlock;
use crate::block_reading::read_video_blocks;
use crate::canvas::Canvas;
use gfx_base::{Fault, NoMemory, Rect};
use gfx_surface::{CellLog, Surface};
use std::alloc::Global;
use std::marker::Model;

/// A decoder of RemoteFX video, for any number of messages and surfaces. No message depends on another: what stays from one
/// to the next is memory alone, so that the next one takes none for its tiles, and contracts see nothing of it.
///
/// Between messages it keeps some 100 KB in which tiles are read and coloured, and the memory of the cells that a message
/// drew on, 16 KB each: at most a copy of the largest surface drawn so far, and never more than 2,048 cells (32 MB).
#[derive(Drop)]
pub struct VideoDecoder {
    alloc: Global,
    /// None before the first tiles.
    canvas: Option<Box<Canvas>>,
    /// Between messages nothing is kept in it but memory.
    log: CellLog,
}

impl Model for VideoDecoder {
    ghost use Rattle.gfx_rfx_video.specs.Kept.{IsReady};

    ghost Value = { Unit {0} };

    ghost view = { λ _. tt };

    ghost invariant = { IsReady };
}

impl VideoDecoder {
    /// A decoder before its first message. It takes no memory.
    pub fn new(alloc: Global) -> VideoDecoder {
        VideoDecoder {
            alloc,
            canvas: None,
            log: CellLog::new(alloc),
        }
    }

    /// Applies the data of a message for a rectangle of a surface ([MS-RDPRFX] 2.2.2 and 3.1.8.1).
    ///
    /// Refusals are BlockLength, BlockUnknown and TileCount of all its structure, and then, tile set after tile set,
    /// EntropyUnknown, QuantRange, and tile after tile QuantIndex and CoefficientRange; tiles outside the rectangle are
    /// decoded all the same. Any fault leaves the surface as it was. Memory is wanted only where the first block's frame and
    /// type are accepted.
    pub fn decode(&mut self, surface: &mut Surface, rect: Rect, bytes: &[u8]) -> Result<(), Fault>
        requires { IsTrue (lies_in surface.old.width surface.old.height rect) }
        ensures value { Applies result surface.old surface.new (after_video rect bytes.now surface.old) }
        ensures memory { WantsOnlyIf result (begins_block bytes.now) }
    {
        let blocks = read_video_blocks(self.alloc, bytes)?;
        if blocks.is_empty() {
            return Ok(());
        }
        self.apply(surface, rect, blocks.as_slice())
    }

    /// Applies blocks, or none of them.
    fn apply(
        &mut self,
        surface: &mut Surface,
        rect: Rect,
        blocks: &[VideoBlock<'_>],
    ) -> Result<(), Fault>
        requires { IsTrue (lies_in surface.old.width surface.old.height rect) }
        ensures { Applies result surface.old surface.new (after_blocks rect blocks.now surface.old) }
    {
        let mut canvas = some_canvas(self.alloc, self.canvas.take())?;
        let result = apply_whole(
            self.alloc,
            surface,
            canvas.as_mut(),
            &mut self.log,
            rect,
            blocks,
        );
        self.canvas = Some(canvas);
        result
    }
}

/// The canvas of messages before, or the first one.
fn some_canvas(alloc: Global, kept: Option<Box<Canvas>>) -> Result<Box<Canvas>, NoMemory>
    requires { IfSome kept (λ canvas. IsCanvas canvas.value) }
    ensures { IfOk result (λ canvas. IsCanvas canvas.value) }
{
    match kept {
        Some(canvas) => Ok(canvas),
        None => first_canvas(alloc),
    }
}

/// A canvas in memory of its own. No other call has room for one among its locals.
#[inline(never)]
fn first_canvas(alloc: Global) -> Result<Box<Canvas>, NoMemory>
    ensures { IfOk result (λ canvas. IsCanvas canvas.value) }
{
    Ok(Box::new(alloc, Canvas::new(alloc)?)?)
}

/// Applies the data of a message for a rectangle of a surface as `VideoDecoder::decode` does, with memory of its own.
pub fn decode_video(
    alloc: Global,
    surface: &mut Surface,
    rect: Rect,
    bytes: &[u8],
) -> Result<(), Fault>
    requires { IsTrue (lies_in surface.old.width surface.old.height rect) }
    ensures value { Applies result surface.old surface.new (after_video rect bytes.now surface.old) }
    ensures memory { WantsOnlyIf result (begins_block bytes.now) }
{
    VideoDecoder::new(alloc).decode(surface, rect, bytes)
}
