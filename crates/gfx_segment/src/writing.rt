ghost use Rattle.std.specs.Prelude.{◌≡◌, ℕ, List, ◌+◌, ◌++◌, ◌*◌, ◌≤◌, ◌<◌, length, take, drop, OnOk, OnErr};
ghost use Rattle.std.specs.Int.{w32, to_le_bytes};
ghost use Rattle.gfx_segment.specs.Framing.{prefixed, wrapped, sized_block, sized_blocks, ReadBack};
ghost use Rattle.gfx_segment.specs.Pieces.{Puts};

use crate::profile::{MOST_BLOCK, MOST_PAYLOAD, MULTIPART, PREFIX, RDP8, SEGMENTS_AT, SINGLE};
use gfx_base::{Bytes, MOST_MESSAGE, NoMemory};

/// A message's descriptor is one byte.
const DESCRIPTOR: usize = 1;

/// A block's header is one byte.
const HEADER: usize = 1;

/// Appends a payload, of at most 67,000,000 bytes, as a channel message behind its length
/// ([MS-RDPEGFX] 2.2.5.1; the length is this project's own): one block where the payload has at most
/// 65,535 bytes, else blocks of 65,535 bytes each with the rest in the last. Without memory `out`
/// stays as it was.
pub fn wrap(payload: &[u8], out: &mut Bytes) -> Result<(), NoMemory>
    requires { length payload.now ≤ MOST_PAYLOAD }
    ensures ok { OnOk result (out.new ≡ out.old ++ wrapped payload.now) }
    ensures err { OnErr result (out.new ≡ out.old) }
    ensures law { (more : List ℕ) → ReadBack payload.now more }
{
    wrap_joined(&[], payload, out)
}

/// The same of a payload that lies in two pieces, one behind the other, of any length each. They are not
/// joined before: each byte is copied once, to its place in `out`.
pub fn wrap_joined(head: &[u8], tail: &[u8], out: &mut Bytes) -> Result<(), NoMemory>
    requires { length head.now + length tail.now ≤ MOST_PAYLOAD }
    ensures ok { OnOk result (out.new ≡ out.old ++ wrapped (head.now ++ tail.now)) }
    ensures err { OnErr result (out.new ≡ out.old) }
    ensures law { (more : List ℕ) → ReadBack (head.now ++ tail.now) more }
{
    let start = out.len();
    let done = put_message(head, tail, out);
    if done.is_err() {
        out.truncate(start);
    }
    done
}

/// Appends a channel message, of at most 67,108,864 bytes, behind its length, as it stands (the length is
/// this project's own): a client's message is alone in one, without blocks. Without memory `out` stays
/// as it was.
pub fn prefix(message: &[u8], out: &mut Bytes) -> Result<(), NoMemory>
    requires { length message.now ≤ MOST_MESSAGE }
    ensures ok { OnOk result (out.new ≡ out.old ++ prefixed message.now) }
    ensures err { OnErr result (out.new ≡ out.old) }
{
    let before = out.len();
    let done = put_prefixed(message, out);
    if done.is_err() {
        out.truncate(before);
    }
    done
}

/// A message as it stands, behind its length.
fn put_prefixed(message: &[u8], out: &mut Bytes) -> Result<(), NoMemory>
    requires { length message.now ≤ MOST_MESSAGE }
    ensures { Puts result out.old out.new (prefixed message.now) }
{
    put_length(message.len(), out)?;
    out.append(message)
}

/// The length of a message.
fn put_length(length: usize, out: &mut Bytes) -> Result<(), NoMemory>
    requires { length ≤ MOST_MESSAGE }
    ensures ok { OnOk result (out.new ≡ out.old ++ to_le_bytes w32 length) }
    ensures err { OnErr result (out.new ≡ out.old) }
{
    out.append(&(length as u32).to_le_bytes())
}

/// A message of a payload in two pieces, behind its length.
fn put_message(head: &[u8], tail: &[u8], out: &mut Bytes) -> Result<(), NoMemory>
    requires { length head.now + length tail.now ≤ MOST_PAYLOAD }
    ensures { Puts result out.old out.new (wrapped (head.now ++ tail.now)) }
{
    if head.len() + tail.len() <= MOST_BLOCK {
        put_single(head, tail, out)
    } else {
        put_segments(head, tail, out)
    }
}

/// A message of one block, behind its length.
fn put_single(head: &[u8], tail: &[u8], out: &mut Bytes) -> Result<(), NoMemory>
    requires { length head.now + length tail.now ≤ MOST_BLOCK }
    ensures { Puts result out.old out.new (wrapped (head.now ++ tail.now)) }
{
    put_length(head.len() + tail.len() + DESCRIPTOR + HEADER, out)?;
    out.append(&[SINGLE, RDP8])?;
    put_both(head, tail, out)
}

/// A message of several blocks, behind its length.
fn put_segments(head: &[u8], tail: &[u8], out: &mut Bytes) -> Result<(), NoMemory>
    requires more { MOST_BLOCK < length head.now + length tail.now }
    requires fits { length head.now + length tail.now ≤ MOST_PAYLOAD }
    ensures { Puts result out.old out.new (wrapped (head.now ++ tail.now)) }
{
    let size = head.len() + tail.len();
    let count = size.div_ceil(MOST_BLOCK);
    let blocks = size + count * (PREFIX + HEADER);
    put_length(DESCRIPTOR + SEGMENTS_AT + blocks, out)?;
    out.append(&[MULTIPART])?;
    out.append(&(count as u16).to_le_bytes())?;
    out.append(&(size as u32).to_le_bytes())?;
    put_blocks(count, head, tail, out)
}

/// So many blocks, the last with what is left.
fn put_blocks(count: usize, head: &[u8], tail: &[u8], out: &mut Bytes) -> Result<(), NoMemory>
    ensures { Puts result out.old out.new (sized_blocks MOST_BLOCK count (head.now ++ tail.now)) }
{
    let mut head_left = head;
    let mut tail_left = tail;
    'turns: for _index in 0..count {
        let (first, head_after) = cut_at_most(head_left, MOST_BLOCK);
        let (second, tail_after) = cut_at_most(tail_left, MOST_BLOCK - first.len());
        put_block(first, second, out)?;
        head_left = head_after;
        tail_left = tail_after;
    }
    Ok(())
}

/// At most so many bytes of the front, and those behind them.
fn cut_at_most(bytes: &[u8], most: usize) -> (&[u8], &[u8])
    ensures front { result.0.now ≡ take most bytes.now }
    ensures back { result.1.now ≡ drop most bytes.now }
    ensures within { length result.0.now ≤ most }
{
    bytes.split_at(most.min(bytes.len()))
}

/// Content in two pieces as a block, behind its size.
fn put_block(first: &[u8], second: &[u8], out: &mut Bytes) -> Result<(), NoMemory>
    requires { length first.now + length second.now ≤ MOST_BLOCK }
    ensures { Puts result out.old out.new (sized_block (first.now ++ second.now)) }
{
    let size = (first.len() + second.len() + HEADER) as u32;
    out.append(&size.to_le_bytes())?;
    out.append(&[RDP8])?;
    put_both(first, second, out)
}

/// Two pieces, one behind the other.
fn put_both(first: &[u8], second: &[u8], out: &mut Bytes) -> Result<(), NoMemory>
    ensures { Puts result out.old out.new (first.now ++ second.now) }
{
    out.append(first)?;
    out.append(second)
}
