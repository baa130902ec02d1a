ghost use Rattle.std.specs.Prelude.{◌≡◌, ◌==◌, ◌&&◌, length, List, ◌++◌, take, drop, Ok, Err, IfOk, MatchResult};
ghost use Rattle.gfx_base.specs.Outcome.{Gives, WantsOnlyIf};
ghost use Rattle.gfx_segment.specs.Framing.{block_data, next_block, blocks, segments, payload, is_described};
ghost use Rattle.gfx_segment.specs.Pieces.{onto};

use crate::profile::{
    COMPRESSED, MOST_BLOCK, MULTIPART, PREFIX, RDP8, SEGMENTS_AT, SINGLE, SIZE_AT, TYPES,
};
use gfx_base::{Bytes, Fault, Refusal, field_u16, field_u32};
use std::alloc::Global;

/// A part of a message and the bytes behind it.
#[derive(Clone, Copy)]
struct Cut<'a> {
    block: &'a [u8],
    after: &'a [u8],
}

/// The content of a block, behind its header.
#[tactic(auto, unfolding(crate::specs::Framing::block_data))]
pub(crate) fn content_of(block: &[u8]) -> Result<&[u8], Refusal>
    ensures value { MatchResult result (λ content. block_data block.now ≡ Ok content.now) (λ r. block_data block.now ≡ Err r) }
    ensures behind { IfOk result (λ content. content.now ≡ drop 1 block.now) }
{
    let [header, content @ ..] = block else {
        return Err(Refusal::SegmentSize);
    };
    if *header % TYPES != RDP8 {
        return Err(Refusal::Descriptor);
    }
    if *header / COMPRESSED % 2 == 1 {
        return Err(Refusal::BulkCompressed);
    }
    if content.len() > MOST_BLOCK {
        return Err(Refusal::SegmentSize);
    }
    Ok(content)
}

/// The next block, behind its size, and the bytes behind it.
#[tactic(auto, unfolding(crate::specs::Framing::next_block, crate::specs::Framing::cut_of))]
fn cut_block(bytes: &[u8]) -> Result<Cut<'_>, Refusal>
    ensures { MatchResult result (λ cut. next_block bytes.now ≡ Ok (cut.block.now, cut.after.now)) (λ r. next_block bytes.now ≡ Err r) }
{
    let Some(size) = field_u32(bytes, 0) else {
        return Err(Refusal::SegmentSize);
    };
    let size = size as usize;
    let (_, behind) = bytes.split_at(PREFIX);
    if size > behind.len() {
        return Err(Refusal::SegmentSize);
    }
    let (block, after) = behind.split_at(size);
    Ok(Cut { block, after })
}

/// The payload of a message of one block.
fn read_block(alloc: Global, block: &[u8]) -> Result<Bytes, Fault>
    ensures { Gives (λ p. p) result (block_data block.now) }
{
    let content = content_of(block)?;
    let mut payload = Bytes::new(alloc);
    payload.append(content)?;
    Ok(payload)
}

/// Puts the payload of a message of several blocks, behind its descriptor, in the place of what is held. A
/// fault may leave a part of it.
pub(crate) fn read_segments(bytes: &[u8], payload: &mut Bytes) -> Result<(), Fault>
    ensures { Gives (λ _. payload.new) result (segments bytes.now) }
{
    let Some(count) = field_u16(bytes, 0) else {
        return Err(Fault::Refused(Refusal::SegmentSize));
    };
    let Some(size) = field_u32(bytes, SIZE_AT) else {
        return Err(Fault::Refused(Refusal::SegmentSize));
    };
    let (_, blocks) = bytes.split_at(SEGMENTS_AT);
    payload.truncate(0);
    let after = append_blocks(count, blocks, payload)?;
    if !is_agreed(after, payload, size) {
        return Err(Fault::Refused(Refusal::SegmentSize));
    }
    Ok(())
}

/// Nothing is left behind the blocks, and their content is as long as was said.
fn is_agreed(after: &[u8], content: &Bytes, size: u32) -> bool
    ensures { result ≡ (length after.now == 0 && length content.now == size) }
{
    after.is_empty() && content.len() == size as usize
}

/// Appends the content of so many blocks, and answers the bytes behind them.
fn append_blocks<'a>(count: u16, bytes: &'a [u8], payload: &mut Bytes) -> Result<&'a [u8], Fault>
    ensures { Gives (λ after. (payload.new, after.now)) result
        (onto payload.old (blocks count bytes.now)) }
{
    let mut rest = bytes;
    'turns: for _index in 0..count {
        let cut = cut_block(rest)?;
        payload.append(content_of(cut.block)?)?;
        rest = cut.after;
    }
    Ok(rest)
}

/// The payload of a channel message.
#[tactic(auto, unfolding(crate::specs::Framing::payload, crate::specs::Framing::is_described))]
pub(crate) fn read_payload(alloc: Global, message: &[u8]) -> Result<Bytes, Fault>
    ensures value { Gives (λ p. p) result (payload message.now) }
    ensures memory { WantsOnlyIf result (is_described message.now) }
{
    let [descriptor, rest @ ..] = message else {
        return Err(Fault::Refused(Refusal::Descriptor));
    };
    match *descriptor {
        SINGLE => read_block(alloc, rest),
        MULTIPART => {
            let mut payload = Bytes::new(alloc);
            read_segments(rest, &mut payload)?;
            Ok(payload)
        }
        _ => Err(Fault::Refused(Refusal::Descriptor)),
    }
}
