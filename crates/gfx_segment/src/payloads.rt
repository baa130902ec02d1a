ghost use Rattle.std.specs.Prelude.{◌≡◌, ◌+◌, ◌≤◌, [], length, take, drop, OnOk, OnErr, IsTrue};
ghost use Rattle.gfx_base.specs.Outcome.{WantsOnlyIf};
ghost use Rattle.gfx_base.specs.declared.refusal.Refusal.{Refusal};
ghost use Rattle.gfx_segment.specs.Framing.{holding, fed, payload, is_described, is_drained, may_give, ended};
ghost use Rattle.gfx_segment.specs.Payloads.{Opens, OpensMessage};
ghost use Rattle.gfx_segment.specs.Whole.{streamed};

use crate::blocks::{content_of, read_segments};
use crate::edge::{Edge, edge_of};
use crate::profile::{MULTIPART, PREFIX, SINGLE};
use crate::splitter::Splitter;
use gfx_base::{Bytes, Fault, NoMemory, Refusal};
use std::alloc::Global;
use std::marker::Model;

/// Where a payload begins in a channel message of one block: behind its descriptor and the block's header.
const CONTENT_AT: usize = 2;

/// The payloads of a stream whose bytes come in any pieces, one open at a time. One of a single block is lent
/// where it lies among the bytes that were fed, one of several blocks from a buffer that stays. Contracts see
/// the bytes that are not used yet, and what is left of the open payload.
#[derive(Debug, Drop)]
pub struct Payloads {
    splitter: Splitter,
    joined: Bytes,
    place: Place,
}

/// Where the rest of the open payload lies.
#[derive(Clone, Copy, Debug)]
pub(crate) enum Place {
    /// Nowhere: nothing of it is left.
    Closed,
    /// From `at` to the end of the channel message at the front, which has `whole` bytes with its length.
    Lying { at: usize, whole: usize },
    /// From `at` on in the content of the blocks.
    Joined { at: usize },
}

impl Model for Payloads {
    ghost use Rattle.gfx_segment.specs.Payloads.{Payloads, held_by, IsHeld};

    ghost Value = { Payloads };

    ghost view = { λ s. held_by s.splitter s.joined s.place };

    ghost invariant = { λ s. IsHeld s.splitter s.joined s.place };
}

impl Payloads {
    /// Nothing is fed yet. It takes no memory.
    pub fn new(alloc: Global) -> Payloads
        ensures { result ≡ record { splitter = holding []; left = [] } }
    {
        Payloads {
            splitter: Splitter::new(alloc),
            joined: Bytes::new(alloc),
            place: Place::Closed,
        }
    }

    /// Takes the next bytes of the stream, cut anywhere. Behind a refusal nothing is kept.
    pub fn feed(&mut self, piece: &[u8]) -> Result<(), NoMemory>
        ensures ok { OnOk result (self.new ≡ record self.old { splitter = fed self.old.splitter piece.now }) }
        ensures err { OnErr result (self.new ≡ self.old) }
    {
        self.splitter.feed(piece)
    }

    /// Takes a whole channel message, without a length before it, as if it stood behind its length in the stream. One
    /// that is longer than any may be is taken as a length that no message has, and none of its bytes. Behind a
    /// refusal nothing is kept.
    pub fn feed_whole(&mut self, message: &[u8]) -> Result<(), NoMemory>
        ensures ok { OnOk result (self.new ≡ record self.old { splitter = fed self.old.splitter (streamed message.now) }) }
        ensures err { OnErr result (self.new ≡ self.old) }
    {
        self.splitter.feed_whole(message)
    }

    /// What is left of the open payload.
    pub fn left(&self) -> &[u8]
        ensures { result.now ≡ self.now.left }
    {
        match self.place {
            Place::Closed => &[],
            Place::Lying { at, whole } => &self.splitter.rest()[at..whole],
            Place::Joined { at } => &self.joined.as_slice()[at..],
        }
    }

    /// Lets go of this many bytes of the open payload.
    pub fn pass(&mut self, count: usize)
        requires { count ≤ length self.old.left }
        ensures { self.new ≡ record self.old { left = drop count self.old.left } }
    {
        match self.place {
            Place::Closed => {}
            Place::Lying { at, whole } => {
                if at + count < whole {
                    self.place = Place::Lying {
                        at: at + count,
                        whole,
                    };
                } else {
                    self.place = Place::Closed;
                    self.splitter.pass(whole);
                }
            }
            Place::Joined { at } => {
                if count < self.joined.len() - at {
                    self.place = Place::Joined { at: at + count };
                } else {
                    self.place = Place::Closed;
                }
            }
        }
    }

    /// Opens the payload of the next whole channel message ([MS-RDPEGFX] 2.2.5.1); false exactly where the
    /// bytes left hold no whole one and no refusal. Refused with ChannelLength, Descriptor, SegmentSize or
    /// BulkCompressed, which it keeps and answers again. Without memory all stays as it was; memory is taken
    /// only behind a whole message's known descriptor.
    pub fn open_next(&mut self) -> Result<bool, Fault>
        requires { self.old.left ≡ [] }
        ensures opens { Opens result self.old self.new }
        ensures memory { WantsOnlyIf result (may_give self.old.splitter) }
    {
        self.place = Place::Closed;
        if let Some(refusal) = self.splitter.kept() {
            return Err(Fault::Refused(refusal));
        }
        match edge_of(self.splitter.rest()) {
            Edge::Short => Ok(false),
            Edge::Bad => {
                self.splitter.keep(Refusal::ChannelLength);
                Err(Fault::Refused(Refusal::ChannelLength))
            }
            Edge::Whole { size } => {
                match open_message(&mut self.splitter, &mut self.joined, size) {
                    Ok(place) => {
                        self.place = place;
                        Ok(true)
                    }
                    Err(Fault::Refused(refusal)) => {
                        self.splitter.keep(refusal);
                        Err(Fault::Refused(refusal))
                    }
                    Err(Fault::Memory) => Err(Fault::Memory),
                }
            }
        }
    }

    /// The end of the stream, once no message can be taken any more: ChannelTruncated exactly where
    /// bytes are left and no refusal is kept.
    pub fn finish(&self) -> Result<(), Refusal>
        requires drained { IsTrue (is_drained self.now.splitter) }
        requires end { self.now.left ≡ [] }
        ensures { result ≡ ended self.now.splitter }
    {
        self.splitter.finish()
    }
}

/// Opens the payload of the channel message of this size at the front. A fault leaves the splitter as it was.
#[tactic(auto, unfolding(crate::specs::Framing::payload, crate::specs::Framing::is_described))]
fn open_message(splitter: &mut Splitter, joined: &mut Bytes, size: usize) -> Result<Place, Fault>
    requires { PREFIX + size ≤ length splitter.old.rest }
    ensures opens { OpensMessage result splitter.old size splitter.new joined.new }
    ensures memory { WantsOnlyIf result (is_described (take size (drop PREFIX splitter.old.rest))) }
{
    match splitter.message(size) {
        [SINGLE, block @ ..] => {
            let content = content_of(block)?;
            if content.is_empty() {
                splitter.pass(PREFIX + size);
                return Ok(Place::Closed);
            }
            Ok(Place::Lying {
                at: PREFIX + CONTENT_AT,
                whole: PREFIX + size,
            })
        }
        [MULTIPART, segments @ ..] => {
            read_segments(segments, joined)?;
            splitter.pass(PREFIX + size);
            Ok(Place::Joined { at: 0 })
        }
        _ => Err(Fault::Refused(Refusal::Descriptor)),
    }
}
