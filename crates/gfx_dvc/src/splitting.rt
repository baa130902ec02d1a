//! Cutting a channel message into fragments, each behind its length.
#![tactic(auto, unfolding(crate::specs::Cutting::recorded_fragment, crate::specs::Cutting::data_fragment, crate::specs::Cutting::narrow_fragment, crate::specs::Cutting::wide_fragment, gfx_layout::specs::Shape::text))]

ghost use Rattle.std.specs.Prelude.{◌≡◌, ◌++◌, ◌≤◌, ◌<◌, nat_le, length, OnOk, OnErr};
ghost use Rattle.std.specs.List.{flat_map};
ghost use Rattle.gfx_layout.specs.Writing.{Puts};
ghost use Rattle.gfx_dvc.specs.Cutting.{data_fragment, narrow_fragment, wide_fragment, data_fragments, several, recorded_fragment, recorded, IsCut};

use crate::profile::{
    CHANNEL, DATA_BYTE, MOST_DATA, MOST_FRAGMENT, MOST_LONE, MOST_NARROW, MOST_NARROW_DATA,
    MOST_WIDE_DATA, NARROW_BYTE, WIDE_BYTE,
};
use gfx_base::{Bytes, MOST_MESSAGE, NoMemory};
use gfx_layout::Part;

/// A DATA, behind its length.
fn put_data(piece: &[u8], out: &mut Bytes) -> Result<(), NoMemory>
    requires { length piece.now ≤ MOST_DATA }
    ensures { Puts result out.old out.new (recorded_fragment (data_fragment piece.now)) }
{
    ((MOST_FRAGMENT - MOST_DATA + piece.len()) as u16).put(out)?;
    DATA_BYTE.put(out)?;
    CHANNEL.put(out)?;
    out.append(piece)
}

/// A DATA_FIRST with a total of two bytes, behind its length.
fn put_narrow(total: u16, piece: &[u8], out: &mut Bytes) -> Result<(), NoMemory>
    requires { length piece.now ≤ MOST_NARROW_DATA }
    ensures { Puts result out.old out.new (recorded_fragment (narrow_fragment total piece.now)) }
{
    ((MOST_FRAGMENT - MOST_NARROW_DATA + piece.len()) as u16).put(out)?;
    NARROW_BYTE.put(out)?;
    CHANNEL.put(out)?;
    total.put(out)?;
    out.append(piece)
}

/// A DATA_FIRST with a total of four bytes, behind its length.
fn put_wide(total: u32, piece: &[u8], out: &mut Bytes) -> Result<(), NoMemory>
    requires { length piece.now ≤ MOST_WIDE_DATA }
    ensures { Puts result out.old out.new (recorded_fragment (wide_fragment total piece.now)) }
{
    ((MOST_FRAGMENT - MOST_WIDE_DATA + piece.len()) as u16).put(out)?;
    WIDE_BYTE.put(out)?;
    CHANNEL.put(out)?;
    total.put(out)?;
    out.append(piece)
}

/// These bytes in DATA, each as full as can be, and each behind its length.
fn put_all(bytes: &[u8], out: &mut Bytes) -> Result<(), NoMemory>
    ensures { Puts result out.old out.new (flat_map recorded_fragment (data_fragments MOST_DATA bytes.now)) }
{
    let count = bytes.len().div_ceil(MOST_DATA);
    let mut rest = bytes;
    'pieces: for _index in 0..count {
        let (piece, after) = rest.split_at(MOST_DATA.min(rest.len()));
        put_data(piece, out)?;
        rest = after;
    }
    Ok(())
}

/// A message in several fragments, the first of them with a total of two bytes.
fn put_narrow_message(message: &[u8], out: &mut Bytes) -> Result<(), NoMemory>
    requires { length message.now ≤ MOST_NARROW }
    ensures { Puts result out.old out.new (flat_map recorded_fragment (several (narrow_fragment (length message.now)) MOST_NARROW_DATA message.now)) }
{
    let (first, rest) = message.split_at(MOST_NARROW_DATA.min(message.len()));
    put_narrow(message.len() as u16, first, out)?;
    put_all(rest, out)
}

/// A message in several fragments, the first of them with a total of four bytes.
fn put_wide_message(message: &[u8], out: &mut Bytes) -> Result<(), NoMemory>
    requires { length message.now ≤ MOST_MESSAGE }
    ensures { Puts result out.old out.new (flat_map recorded_fragment (several (wide_fragment (length message.now)) MOST_WIDE_DATA message.now)) }
{
    let (first, rest) = message.split_at(MOST_WIDE_DATA.min(message.len()));
    put_wide(message.len() as u32, first, out)?;
    put_all(rest, out)
}

/// Whether a message of so many bytes goes in one DATA.
fn is_lone(size: usize) -> bool
    ensures { result ≡ nat_le size MOST_LONE }
{
    size <= MOST_LONE
}

/// Whether a total of so many bytes goes in two bytes.
fn is_narrow(size: usize) -> bool
    ensures { result ≡ nat_le size MOST_NARROW }
{
    size <= MOST_NARROW
}

/// The fragments of a message, each behind its length.
fn put_fragments(message: &[u8], out: &mut Bytes) -> Result<(), NoMemory>
    requires { length message.now ≤ MOST_MESSAGE }
    ensures { Puts result out.old out.new (recorded message.now) }
{
    if is_lone(message.len()) {
        put_data(message, out)
    } else if is_narrow(message.len()) {
        put_narrow_message(message, out)
    } else {
        put_wide_message(message, out)
    }
}

/// Appends a channel message, of 1 to 67,108,864 bytes, as fragments of channel 1, each behind its length of two bytes
/// ([MS-RDPEDYC] 2.2.3.1, 2.2.3.2; the length and the choice of fragments are this project's own): one DATA where it has at most
/// 1,590 bytes; else a DATA_FIRST whose total has two bytes, or four above 65,535, and DATA, where every fragment but
/// the last has 1,600 bytes. Without memory `out` stays as it was.
pub fn split(message: &[u8], out: &mut Bytes) -> Result<(), NoMemory>
    requires some { 0 < length message.now }
    requires fits { length message.now ≤ MOST_MESSAGE }
    ensures ok { OnOk result (out.new ≡ out.old ++ recorded message.now) }
    ensures err { OnErr result (out.new ≡ out.old) }
    // Its fragments are this message whole, and each may be recorded.
    ensures law { IsCut message.now }
{
    let before = out.len();
    let done = put_fragments(message, out);
    if done.is_err() {
        out.truncate(before);
    }
    done
}
