//! A stream that several tests use, its recording of fragments, and how a command is run.
ghost use Rattle.std.specs.Prelude.{◌<◌, ◌^◌};

use gfx_base::{NoMemory, SliceSource, VecSink};
use gfx_fragments::{Ended, fragment, join};
use gfx_input::InputFault;
use std::alloc::Global;

/// The four messages of one red surface in one frame, of 18, 17, 26 and 14 bytes.
pub const STREAM: &[u8] =
    b"\x12\x00\x00\x00\xe0\x04\x0b\x00\x00\x00\x10\x00\x00\x00\x00\x00\x00\x00\x01\x00\x00\x00\
    \x11\x00\x00\x00\xe0\x04\x09\x00\x00\x00\x0f\x00\x00\x00\x01\x00\x02\x00\x01\x00\x20\
    \x1a\x00\x00\x00\xe0\x04\x04\x00\x00\x00\x18\x00\x00\x00\x01\x00\x00\x00\xff\x00\x01\x00\x00\x00\x00\x00\x02\x00\x01\x00\
    \x0e\x00\x00\x00\xe0\x04\x0c\x00\x00\x00\x0c\x00\x00\x00\x01\x00\x00\x00";

/// Its recording: each message is one DATA of channel 1.
pub const RECORDING: &[u8] =
    b"\x14\x00\x30\x01\xe0\x04\x0b\x00\x00\x00\x10\x00\x00\x00\x00\x00\x00\x00\x01\x00\x00\x00\
    \x13\x00\x30\x01\xe0\x04\x09\x00\x00\x00\x0f\x00\x00\x00\x01\x00\x02\x00\x01\x00\x20\
    \x1c\x00\x30\x01\xe0\x04\x04\x00\x00\x00\x18\x00\x00\x00\x01\x00\x00\x00\xff\x00\x01\x00\x00\x00\x00\x00\x02\x00\x01\x00\
    \x10\x00\x30\x01\xe0\x04\x0c\x00\x00\x00\x0c\x00\x00\x00\x01\x00\x00\x00";

/// The room of an output.
const ROOM: usize = 70_000;

/// Which command is run.
#[derive(Clone, Copy, Debug, PartialEq, Eq)]
pub enum Way {
    /// `fragment`.
    Cut,
    /// `join`.
    Join,
}

/// What a command has come to.
#[derive(Drop)]
pub struct Ran<'a> {
    pub answer: Result<Ended, InputFault>,
    pub out: VecSink<'a>,
}

/// Runs a command on these bytes, of which so many count. The reads and the writes of these numbers fail.
pub(crate) fn run_within<'a>(
    alloc: Global,
    way: Way,
    limit: usize,
    bytes: &[u8],
    reads: &[u64],
    writes: &'a [u64],
) -> Result<Ran<'a>, NoMemory>
    requires { limit < 2 ^ 63 }
{
    let mut input = SliceSource::new(bytes, reads);
    let mut out = VecSink::new(alloc, ROOM, writes)?;
    let answer = match way {
        Way::Cut => fragment(alloc, limit, &mut input, &mut out),
        Way::Join => join(alloc, limit, &mut input, &mut out),
    };
    Ok(Ran { answer, out })
}

/// Runs a command on these bytes, all of which count.
pub(crate) fn run_on(alloc: Global, way: Way, bytes: &[u8]) -> Result<Ran<'static>, NoMemory> {
    run_within(alloc, way, 1_073_741_824, bytes, &[], &[])
}
