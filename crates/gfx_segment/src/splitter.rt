ghost use Rattle.std.specs.Prelude.{◌≡◌, ℕ, List, [], Result, ◌++◌, ◌+◌, ◌≤◌, length, take, drop, IsTrue, OnOk, OnErr, IfOk, Ok, is_ok};
ghost use Rattle.gfx_base.specs.Outcome.{WantsOnlyIf};
ghost use Rattle.gfx_segment.specs.Framing.{Splitter, holding, refused, fed, payload, next, after_next, Answers, Stands, TakesIn, GivesOut, taken, is_drained, may_give, ended};
ghost use Rattle.gfx_segment.specs.Whole.{streamed};
ghost use Rattle.gfx_base.specs.declared.refusal.Refusal.{Refusal};

use crate::blocks::read_payload;
use crate::edge::{Edge, edge_of};
use crate::profile::PREFIX;
use gfx_base::{Bytes, Fault, MOST_MESSAGE, NoMemory, Refusal};
use std::alloc::Global;
use std::marker::Model;

/// The length of no message, as bytes: 4,294,967,295.
const NO_LENGTH: [u8; 4] = [255; 4];

/// Cuts bytes, which come in any pieces, into channel messages. Contracts see the bytes that it has
/// not used yet, and the refusal that it keeps.
#[derive(Debug, Drop)]
pub struct Splitter {
    alloc: Global,
    buffer: Vec<u8>,
    start: usize,
    refusal: Option<Refusal>,
}

impl Model for Splitter {
    ghost use Rattle.std.specs.Prelude.{◌*◌, ◌≤◌, length, drop};
    ghost use Rattle.gfx_segment.specs.Framing.{Splitter};

    ghost Value = { Splitter };

    ghost view = { λ s. record { rest = drop s.start s.buffer.items; refusal = s.refusal } };

    ghost invariant = { λ s. 2 * s.start ≤ length s.buffer.items };
}

impl Splitter {
    /// Nothing is fed yet. It takes no memory.
    pub fn new(alloc: Global) -> Splitter
        ensures exact { result ≡ holding [] }
        ensures law { (read : List ℕ → Result (List ℕ) Refusal) → Stands read [] [] result }
    {
        Splitter {
            alloc,
            buffer: Vec::new(alloc),
            start: 0,
            refusal: None,
        }
    }

    /// Takes the next bytes of the stream, cut anywhere. Behind a refusal nothing is kept.
    pub fn feed(&mut self, piece: &[u8]) -> Result<(), NoMemory>
        ensures ok { OnOk result (self.new ≡ fed self.old piece.now) }
        ensures law { OnOk result (TakesIn self.old self.new piece.now) }
        ensures err { OnErr result (self.new ≡ self.old) }
    {
        self.take_in(piece)
    }

    /// Takes a whole channel message, without a length before it, as if it stood behind its length in the stream. One
    /// that is longer than any may be is taken as a length that no message has, and none of its bytes. Behind a
    /// refusal nothing is kept.
    pub fn feed_whole(&mut self, message: &[u8]) -> Result<(), NoMemory>
        ensures ok { OnOk result (self.new ≡ fed self.old (streamed message.now)) }
        ensures law { OnOk result (TakesIn self.old self.new (streamed message.now)) }
        ensures err { OnErr result (self.new ≡ self.old) }
    {
        self.take_whole(message)
    }

    #[tactic(auto, unfolding(crate::specs::Whole::streamed_within, crate::specs::Framing::prefixed))]
    fn take_whole(&mut self, message: &[u8]) -> Result<(), NoMemory>
        ensures ok { OnOk result (self.new ≡ fed self.old (streamed message.now)) }
        ensures err { OnErr result (self.new ≡ self.old) }
    {
        if self.refusal.is_some() {
            return Ok(());
        }
        if message.len() > MOST_MESSAGE as usize {
            return self.take_in(&NO_LENGTH);
        }
        let before = self.buffer.len();
        self.buffer
            .extend_from_slice(&(message.len() as u32).to_le_bytes())?;
        if self.buffer.extend_from_slice(message).is_err() {
            self.buffer.truncate(before);
            return Err(NoMemory);
        }
        Ok(())
    }

    fn take_in(&mut self, piece: &[u8]) -> Result<(), NoMemory>
        ensures ok { OnOk result (self.new ≡ fed self.old piece.now) }
        ensures err { OnErr result (self.new ≡ self.old) }
    {
        if self.refusal.is_some() {
            return Ok(());
        }
        self.buffer.extend_from_slice(piece)?;
        Ok(())
    }

    /// The payload of the next whole channel message ([MS-RDPEGFX] 2.2.5.1); None exactly where the
    /// bytes left hold no whole one and no refusal. Refused with ChannelLength, Descriptor,
    /// SegmentSize or BulkCompressed, which it keeps and answers again. Without memory all stays as it was;
    /// memory is taken only behind a whole message's known descriptor.
    pub fn next_message(&mut self) -> Result<Option<Bytes>, Fault>
        ensures exact { Answers result self.old self.new (next payload self.old) (after_next payload self.old) }
        ensures law { GivesOut payload self.old self.new (taken result) }
        ensures memory { WantsOnlyIf result (may_give self.old) }
    {
        self.take_message()
    }

    /// The next whole channel message as it stands, without its length; None exactly where the bytes
    /// left hold no whole one and no refusal. Refused with ChannelLength, or with the refusal that is
    /// kept. Without memory all stays as it was; a refusal takes none.
    pub fn next_raw(&mut self) -> Result<Option<Bytes>, Fault>
        ensures exact { Answers result self.old self.new (next Ok self.old) (after_next Ok self.old) }
        ensures law { GivesOut Ok self.old self.new (taken result) }
        ensures memory { WantsOnlyIf result (is_ok (next Ok self.old)) }
    {
        self.take_raw()
    }

    /// The end of the stream, once no message can be taken any more: ChannelTruncated exactly where
    /// bytes are left and no refusal is kept.
    #[tactic(auto, unfolding(crate::specs::Framing::ended))]
    pub fn finish(&self) -> Result<(), Refusal>
        requires { IsTrue (is_drained self.now) }
        ensures { result ≡ ended self.now }
    {
        if self.refusal.is_none() && !self.rest().is_empty() {
            return Err(Refusal::ChannelTruncated);
        }
        Ok(())
    }

    pub(crate) fn rest(&self) -> &[u8]
        ensures { result.now ≡ self.now.rest }
    {
        &self.buffer[self.start..]
    }

    /// The message of this size at the front.
    pub(crate) fn message(&self, size: usize) -> &[u8]
        requires { PREFIX + size ≤ length self.now.rest }
        ensures { result.now ≡ take size (drop PREFIX self.now.rest) }
    {
        let (_, behind) = self.rest().split_at(PREFIX);
        let (message, _) = behind.split_at(size);
        message
    }

    pub(crate) fn kept(&self) -> Option<Refusal>
        ensures { result ≡ self.now.refusal }
    {
        self.refusal
    }

    /// Keeps a refusal, and no bytes.
    pub(crate) fn keep(&mut self, refusal: Refusal)
        ensures { self.new ≡ refused refusal }
    {
        self.buffer.clear();
        self.start = 0;
        self.refusal = Some(refusal);
    }

    /// Lets go of this many bytes. They leave the buffer once they are more than half of it.
    pub(crate) fn pass(&mut self, count: usize)
        requires { count ≤ length self.old.rest }
        ensures { self.new ≡ record self.old { rest = drop count self.old.rest } }
    {
        self.start += count;
        if self.start > self.buffer.len() - self.start {
            let left = self.buffer.len() - self.start;
            self.buffer.copy_within(self.start.., 0);
            self.buffer.truncate(left);
            self.start = 0;
        }
    }

    fn take_message(&mut self) -> Result<Option<Bytes>, Fault>
        ensures exact { Answers result self.old self.new (next payload self.old) (after_next payload self.old) }
        ensures memory { WantsOnlyIf result (may_give self.old) }
    {
        if let Some(refusal) = self.kept() {
            return Err(Fault::Refused(refusal));
        }
        match edge_of(self.rest()) {
            Edge::Short => Ok(None),
            Edge::Bad => {
                self.keep(Refusal::ChannelLength);
                Err(Fault::Refused(Refusal::ChannelLength))
            }
            Edge::Whole { size } => {
                match read_payload(self.alloc, self.message(size)) {
                    Ok(payload) => {
                        self.pass(PREFIX + size);
                        Ok(Some(payload))
                    }
                    Err(Fault::Refused(refusal)) => {
                        self.keep(refusal);
                        Err(Fault::Refused(refusal))
                    }
                    Err(Fault::Memory) => Err(Fault::Memory),
                }
            }
        }
    }

    fn take_raw(&mut self) -> Result<Option<Bytes>, Fault>
        ensures exact { Answers result self.old self.new (next Ok self.old) (after_next Ok self.old) }
        ensures memory { WantsOnlyIf result (is_ok (next Ok self.old)) }
    {
        if let Some(refusal) = self.kept() {
            return Err(Fault::Refused(refusal));
        }
        match edge_of(self.rest()) {
            Edge::Short => Ok(None),
            Edge::Bad => {
                self.keep(Refusal::ChannelLength);
                Err(Fault::Refused(Refusal::ChannelLength))
            }
            Edge::Whole { size } => {
                let mut message = Bytes::new(self.alloc);
                message.append(self.message(size))?;
                self.pass(PREFIX + size);
                Ok(Some(message))
            }
        }
    }
}
