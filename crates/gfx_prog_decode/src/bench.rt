//! What messages are applied with, kept from one to the next.
ghost use Rattle.std.specs.Prelude.{◌≡◌, IfOk};
ghost use Rattle.gfx_prog_decode.specs.Undo.{kept, nothing};

use crate::canvas::Canvas;
use crate::log::Log;
use gfx_base::NoMemory;
use gfx_tile_state::Scratch;
use std::alloc::Global;

/// What a message is applied with: the canvas that its tiles are drawn on and the memory that they are worked in, together
/// some 80,000 bytes, and the log by which it is undone. Between two messages the log is empty, and keeps the memory of at most
/// 2,048 records and as many cells.
#[derive(Drop)]
pub(crate) struct Bench {
    pub(crate) alloc: Global,
    pub(crate) canvas: Canvas,
    pub(crate) scratch: Scratch,
    pub(crate) log: Log,
}

impl Bench {
    /// A bench with an empty log, for any number of messages. It isn't inlined, since it stands on the stack before it is moved
    /// to its box.
    #[inline(never)]
    pub(crate) fn new(alloc: Global) -> Result<Box<Bench>, NoMemory>
        ensures { IfOk result (λ bench. kept bench.value.log ≡ nothing) }
    {
        let bench = Bench {
            alloc,
            canvas: Canvas::new(alloc)?,
            scratch: Scratch::new(),
            log: Log::new(alloc),
        };
        Ok(Box::new(alloc, bench)?)
    }
}
