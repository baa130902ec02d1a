ghost use Rattle.std.specs.Prelude.{◌≡◌, ◌+◌, ◌≤◌, [], ◌++◌, nat_le, length, None, Some, is_ok, MatchResult};
ghost use Rattle.gfx_base.specs.Outcome.{Says, WantsOnlyIf};
ghost use Rattle.gfx_base.specs.declared.refusal.Refusal.{Refusal};
ghost use Rattle.gfx_dvc.specs.Joining.{Joiner, fresh, refused, is_of, is_in_order, is_sized, whole, so_far, passed, reached, put, step, Answers, ended};
ghost use Rattle.gfx_dvc.specs.Joined.{Joined};
ghost use Rattle.gfx_dvc.specs.Laws.{TakesOn};

use crate::fragment::Fragment;
use crate::header::read_fragment;
use crate::open::{Gathered, Open};
use gfx_base::{Bytes, Fault, MOST_MESSAGE, NoMemory, Refusal};
use std::alloc::Global;
use std::marker::Model;

/// Joins the fragments of one channel to channel messages. Contracts see the channel's id, once it is known, the
/// message that is open, and the refusal that it keeps.
#[derive(Debug, Drop)]
pub struct Joiner {
    alloc: Global,
    channel: Option<u32>,
    message: Option<Open>,
    refusal: Option<Refusal>,
}

impl Model for Joiner {
    ghost use Rattle.gfx_dvc.specs.Joining.{Joiner};

    ghost Value = { Joiner };

    ghost view = { λ j. record { channel = j.channel; message = j.message; refusal = j.refusal } };
}

impl Joiner {
    /// Nothing is taken yet. It takes no memory.
    pub fn new(alloc: Global) -> Joiner
        ensures exact { result ≡ fresh }
        ensures law { Joined [] [] result }
    {
        Joiner {
            alloc,
            channel: None,
            message: None,
            refusal: None,
        }
    }

    /// Takes the next fragment, and gives the channel message that it ends; None exactly where a message is open
    /// behind it. Refusals, in this order: BulkCompressed, FragmentKind, FragmentLength for a header that isn't whole,
    /// FragmentChannel, FragmentOrder, ChannelLength, FragmentLength for more data than the total leaves. A refusal is
    /// kept and answered again. Without memory all stays as it was; memory is taken only for a fragment that passes.
    pub fn take(&mut self, fragment: &[u8]) -> Result<Option<Bytes>, Fault>
        ensures exact { Answers result self.old self.new (step self.old fragment.now) }
        ensures law { TakesOn result self.old self.new fragment.now }
        ensures memory { WantsOnlyIf result (is_ok (step self.old fragment.now)) }
    {
        self.join(fragment)
    }

    /// The end of the fragments: ChannelTruncated exactly where a message is open and no refusal is kept.
    #[tactic(auto, unfolding(crate::specs::Joining::ended))]
    pub fn finish(&self) -> Result<(), Refusal>
        ensures { result ≡ ended self.now }
    {
        if self.refusal.is_none() && self.message.is_some() {
            return Err(Refusal::ChannelTruncated);
        }
        Ok(())
    }

    fn join(&mut self, fragment: &[u8]) -> Result<Option<Bytes>, Fault>
        ensures exact { Answers result self.old self.new (step self.old fragment.now) }
        ensures memory { WantsOnlyIf result (is_ok (step self.old fragment.now)) }
    {
        match self.passed(fragment) {
            Ok(passed) => Ok(self.put(&passed)?),
            Err(refusal) => {
                self.keep(refusal);
                Err(Fault::Refused(refusal))
            }
        }
    }

    /// A fragment, once it has passed the checks.
    #[tactic(auto, unfolding(crate::specs::Joining::passed, crate::specs::Joining::none_kept, gfx_base::specs::Results::and_then))]
    fn passed<'a>(&self, bytes: &'a [u8]) -> Result<Fragment<'a>, Refusal>
        ensures { Says (λ f. f) result (passed self.now bytes.now) }
    {
        if let Some(refusal) = self.refusal {
            return Err(refusal);
        }
        let fragment = read_fragment(bytes)?;
        if !self.is_of(fragment.header.channel) {
            return Err(Refusal::FragmentChannel);
        }
        if !self.is_in_order(fragment.header.total) {
            return Err(Refusal::FragmentOrder);
        }
        if !self.is_sized(fragment.header.total, fragment.piece.as_slice()) {
            return Err(Refusal::ChannelLength);
        }
        if !self.has_room(fragment.header.total, fragment.piece.as_slice()) {
            return Err(Refusal::FragmentLength);
        }
        Ok(fragment)
    }

    /// Whether this is the channel of the fragments so far.
    fn is_of(&self, id: u32) -> bool
        ensures { result ≡ is_of self.now.channel id }
    {
        match self.channel {
            Some(first) => id == first,
            None => true,
        }
    }

    /// Whether a message opens only where none is open.
    fn is_in_order(&self, total: Option<u32>) -> bool
        ensures { result ≡ is_in_order self.now.message total }
    {
        self.message.is_none() || total.is_none()
    }

    /// Whether a message that opens has a total that a channel message may have, and one alone in its fragment has bytes.
    fn is_sized(&self, total: Option<u32>, piece: &[u8]) -> bool
        ensures { result ≡ is_sized self.now.message total piece.now }
    {
        if self.message.is_some() {
            return true;
        }
        match total {
            Some(total) => total > 0 && total <= MOST_MESSAGE,
            None => !piece.is_empty(),
        }
    }

    /// Whether the fragment's message has as many bytes as have come with this piece.
    fn has_room(&self, total: Option<u32>, piece: &[u8]) -> bool
        ensures { result ≡ nat_le (length (so_far self.now.message piece.now)) (whole self.now.message total piece.now) }
    {
        self.size_with(piece) <= self.whole(total, piece)
    }

    /// How many bytes of the fragment's message have come with this piece.
    fn size_with(&self, piece: &[u8]) -> usize
        ensures { result ≡ length (so_far self.now.message piece.now) }
    {
        match &self.message {
            Some(open) => open.bytes.len() + piece.len(),
            None => piece.len(),
        }
    }

    /// How many bytes the fragment's message has.
    fn whole(&self, total: Option<u32>, piece: &[u8]) -> usize
        ensures { result ≡ whole self.now.message total piece.now }
    {
        if let Some(open) = &self.message {
            return open.total;
        }
        match total {
            Some(total) => total as usize,
            None => piece.len(),
        }
    }

    /// Puts a fragment's piece to its message.
    #[tactic(auto, unfolding(crate::specs::Joining::put))]
    fn put(&mut self, fragment: &Fragment<'_>) -> Result<Option<Bytes>, NoMemory>
        requires clear { self.old.refusal ≡ None }
        requires room { length (so_far self.old.message fragment.now.piece) ≤ whole self.old.message fragment.now.header.total fragment.now.piece }
        ensures { MatchResult result (λ given. put self.old fragment.now ≡ (given, self.new)) (λ _. self.new ≡ self.old) }
    {
        let piece = fragment.piece.as_slice();
        let total = self.whole(fragment.header.total, piece);
        match self.message.take() {
            Some(open) => self.go_on(fragment.header.channel, open, piece),
            None => self.start(fragment.header.channel, total, piece),
        }
    }

    /// Puts a piece to the message that was open.
    fn go_on(
        &mut self,
        channel: u32,
        mut begun: Open,
        piece: &[u8],
    ) -> Result<Option<Bytes>, NoMemory>
        requires clear { self.old.refusal ≡ None }
        requires room { length begun.bytes + length piece.now ≤ begun.total }
        ensures { MatchResult result (λ given. reached channel begun.total (begun.bytes ++ piece.now) ≡ (given, self.new)) (λ _. self.new ≡ record self.old { message = Some begun }) }
    {
        if begun.bytes.gain(piece, begun.total).is_err() {
            self.message = Some(begun);
            return Err(NoMemory);
        }
        Ok(self.reach(channel, begun))
    }

    /// Opens a message of so many bytes with its first piece.
    fn start(&mut self, channel: u32, total: usize, piece: &[u8]) -> Result<Option<Bytes>, NoMemory>
        requires clear { self.old.refusal ≡ None }
        requires room { length piece.now ≤ total }
        ensures { MatchResult result (λ given. reached channel total piece.now ≡ (given, self.new)) (λ _. self.new ≡ self.old) }
    {
        let mut bytes = Gathered::new(self.alloc);
        bytes.gain(piece, total)?;
        Ok(self.reach(channel, Open { total, bytes }))
    }

    /// Gives a message that is whole, and leaves one that isn't open.
    #[tactic(auto, unfolding(crate::specs::Joining::reached))]
    fn reach(&mut self, channel: u32, message: Open) -> Option<Bytes>
        requires { self.old.refusal ≡ None }
        ensures { reached channel message.total message.bytes ≡ (result, self.new) }
    {
        self.channel = Some(channel);
        if message.bytes.len() == message.total {
            self.message = None;
            return Some(message.bytes.into_bytes());
        }
        self.message = Some(message);
        None
    }

    /// Keeps a refusal, and no bytes.
    fn keep(&mut self, refusal: Refusal)
        ensures { self.new ≡ refused refusal }
    {
        self.channel = None;
        self.message = None;
        self.refusal = Some(refusal);
    }
}
