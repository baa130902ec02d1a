//! The header of a message, whichever way it goes ([MS-RDPEGFX] 2.2.1.5), read and written.
#![tactic(auto, unfolding(crate::specs::Header::size_of, crate::specs::Header::header, crate::specs::Shape::part_in, crate::specs::Shape::text))]

ghost use Rattle.std.specs.Prelude.{◌≡◌, ◌+◌, ◌≤◌, ◌<◌, ◌^◌, length, IfOk};
ghost use Rattle.std.specs.Int.{w16};
ghost use Rattle.gfx_base.specs.Field.{number_at};
ghost use Rattle.gfx_layout.specs.Header.{size_of, header, no_flags};
ghost use Rattle.gfx_layout.specs.Writing.{Puts};

use crate::part::Part;
use gfx_base::{Bytes, NoMemory, Refusal};

/// How many bytes a header has.
pub const HEADER: usize = 8;

/// Where the length of the message stands in its header.
const LENGTH: usize = 4;

/// The flags that are written: the standard has none.
const NO_FLAGS: u16 = 0;

/// How many bytes the message at the front has, its header among them, as the header says. Refusals are
/// PduTruncated where there are fewer bytes, and PduLength where the header says fewer than its own.
pub fn read_size(bytes: &[u8]) -> Result<usize, Refusal>
    ensures value { result ≡ size_of bytes.now }
    ensures within { IfOk result (λ size. (8 ≤ size) × (size ≤ length bytes.now)) }
{
    if bytes.len() < HEADER {
        return Err(Refusal::PduTruncated);
    }
    let (_, length) = bytes.split_at(LENGTH);
    let size = u32::read(length) as usize;
    if size < HEADER {
        return Err(Refusal::PduLength);
    }
    if bytes.len() < size {
        return Err(Refusal::PduTruncated);
    }
    Ok(size)
}

/// The number of the id that a header announces.
pub fn read_number(bytes: &[u8]) -> u16
    requires { 8 ≤ length bytes.now }
    ensures { result ≡ number_at w16 bytes.now 0 }
{
    u16::read(bytes)
}

/// Puts the header of a message at the end whose id has this number, and whose body has so many bytes.
pub fn put_header(out: &mut Bytes, number: u16, body: usize) -> Result<(), NoMemory>
    requires { 8 + body < 2 ^ 32 }
    ensures { Puts result out.old out.new (header number no_flags (8 + body)) }
{
    number.put(out)?;
    NO_FLAGS.put(out)?;
    ((HEADER + body) as u32).put(out)
}
