//! The command `fragment`: each channel message of a stream is recorded as fragments once it is whole.
ghost use Rattle.std.specs.Prelude.{◌≡◌, ℕ, ◌≤◌, ◌<◌, ◌^◌, true, List, [], length, Option, Some, None, IfOk, OnOk};
ghost use Rattle.gfx_base.specs.Memory.{next_count};
ghost use Rattle.gfx_base.specs.Stream.{change};
ghost use Rattle.gfx_base.specs.declared.refusal.Refusal.{Refusal};
ghost use Rattle.gfx_base.specs.declared.TheConstants.{MOST_MESSAGE};
ghost use Rattle.gfx_dvc.specs.Cutting.{recorded};
ghost use Rattle.gfx_input.specs.Reading.{TakesPiece};
ghost use Rattle.gfx_segment.specs.Framing.{holding, is_drained};
ghost use Rattle.gfx_fragments.specs.Due.{Does};
ghost use Rattle.gfx_fragments.specs.Found.{fragmented, left_open, has_bytes};
ghost use Rattle.gfx_fragments.specs.Turns.{IsCutting, HasCut, RefusesCut, CutsOn, WritesItem};

use crate::ended::{Ended, ended_by, left_open};
use gfx_base::{Bytes, Fault, Refusal, Sink, Source, write_all};
use gfx_dvc::split;
use gfx_input::{InputFault, TakeFault, Taken, Taker, read_input};
use gfx_segment::Splitter;
use std::alloc::Global;

/// It takes the bytes of a stream until a message is refused, and records each message as fragments once it is whole.
#[derive(Drop)]
struct Fragmenter {
    splitter: Splitter,
    /// The fragments of the last message that was recorded.
    recorded: Bytes,
    /// How many messages were recorded, up to the last value of a count.
    number: u64,
    /// Why the next is refused.
    refusal: Option<Refusal>,
}

impl Fragmenter {
    /// Nothing is taken yet. It takes no memory.
    fn new(alloc: Global) -> Fragmenter
        ensures splitter { result.splitter ≡ holding [] }
        ensures number { result.number ≡ 0 }
        ensures refusal { result.refusal ≡ None }
    {
        Fragmenter {
            splitter: Splitter::new(alloc),
            recorded: Bytes::new(alloc),
            number: 0,
            refusal: None,
        }
    }
}

impl Taker for Fragmenter {
    ghost use Rattle.gfx_fragments.specs.Due.{IsFine};
    ghost use Rattle.gfx_fragments.specs.Found.{fragmented, fragments_due};
    ghost use Rattle.gfx_fragments.specs.Turns.{HasCut, RefusesCut};
    ghost use Rattle.gfx_input.specs.Taking.{fixed, stays, settled};

    ghost stands = { λ taker bytes. HasCut taker bytes };

    ghost stops = { λ taker bytes. RefusesCut taker bytes };

    ghost is_fine = { λ bytes. IsFine fragmented bytes };

    ghost written = { λ bytes. fragments_due bytes };

    ghost allowed = { fixed };

    fn allowed(&self, limit: usize) -> usize {
        limit
    }

    fn give<O: Sink>(&mut self, piece: &[u8], out: &mut O) -> Result<Taken, TakeFault> {
        self.splitter.feed(piece)?;
        cut_all(self, out)
    }

    ghost fronts = { λ _ _ n stands. stands.fine n };

    ghost grows = { λ limit _ _. stays limit };

    ghost settles = { λ limit bytes _ all. settled limit bytes all };
}

/// Reads a stream of channel messages within the limit, each behind its length, and writes its recording of fragments,
/// message by message ([MS-RDPEDYC] 2.2.3.1, 2.2.3.2; both recordings are this project's own). It ends with the first
/// message that is refused: ChannelLength as soon as its length is there, and ChannelTruncated for one that isn't whole
/// at the end. What is in a message isn't looked at. It holds one message, as it came and as fragments, and one piece.
pub fn fragment<I: Source, O: Sink>(
    alloc: Global,
    limit: usize,
    input: &mut I,
    out: &mut O,
) -> Result<Ended, InputFault>
    requires { limit < 2 ^ 63 }
    ensures { Does fragmented result limit
        (change (I.faults input.old) (I.faults input.new) (I.left input.old) (I.left input.new))
        (change (O.faults out.old) (O.faults out.new) (O.held out.old) (O.held out.new)) }
{
    let mut taker = Fragmenter::new(alloc);
    let read = read_input(input, limit, &mut taker, out)?;
    let refusal = refusal_of(&taker);
    Ok(ended_by(read, taker.number, refusal))
}

/// Why the next message is refused where the stream ends here.
fn refusal_of(taker: &Fragmenter) -> Option<Refusal>
    requires { taker.now.refusal ≡ None → is_drained taker.now.splitter ≡ true }
    ensures kept { (r : Refusal) → taker.now.refusal ≡ Some r → result ≡ Some r }
    ensures last { taker.now.refusal ≡ None → taker.now.splitter.refusal ≡ None → result ≡ left_open (has_bytes taker.now.splitter.rest) }
{
    if taker.refusal.is_some() {
        return taker.refusal;
    }
    left_open(is_open(taker))
}

/// Whether a message is begun that isn't whole.
fn is_open(taker: &Fragmenter) -> bool
    requires { is_drained taker.now.splitter ≡ true }
    ensures { taker.now.splitter.refusal ≡ None → result ≡ has_bytes taker.now.splitter.rest }
{
    taker.splitter.finish().is_err()
}

/// Records all messages that are whole.
fn cut_all<O: Sink>(taker: &mut Fragmenter, out: &mut O) -> Result<Taken, TakeFault>
    ensures { (bytes : List ℕ) (before : ℕ) (held : Option (List ℕ))
        → IsCutting taker.old bytes (change before (O.faults out.old) held (O.held out.old))
        → TakesPiece HasCut RefusesCut (fragmented bytes).text result taker.new bytes
        (change before (O.faults out.new) held (O.held out.new)) }
{
    'messages: loop {
        if let Some(taken) = cut_next(taker, out)? {
            return Ok(taken);
        }
    }
}

/// Records the next message. `None` says that there may be more.
fn cut_next<O: Sink>(taker: &mut Fragmenter, out: &mut O) -> Result<Option<Taken>, TakeFault>
    ensures turns { (bytes : List ℕ) (before : ℕ) (held : Option (List ℕ))
        → IsCutting taker.old bytes (change before (O.faults out.old) held (O.held out.old))
        → CutsOn result taker.new bytes (change before (O.faults out.new) held (O.held out.new)) }
    ensures fewer { IfOk result (λ answer. answer ≡ None → length taker.new.splitter.rest < length taker.old.splitter.rest) }
{
    match taker.splitter.next_raw() {
        Ok(Some(message)) => put_message(message, taker, out),
        Ok(None) => Ok(Some(Taken::More)),
        Err(Fault::Refused(refusal)) => {
            taker.refusal = Some(refusal);
            Ok(Some(Taken::Stopped))
        }
        Err(Fault::Memory) => Err(TakeFault::Memory),
    }
}

/// Writes the fragments of a message, and counts it.
fn put_message<O: Sink>(
    message: Bytes,
    taker: &mut Fragmenter,
    out: &mut O,
) -> Result<Option<Taken>, TakeFault>
    requires some { 0 < length message }
    requires fits { length message ≤ MOST_MESSAGE }
    ensures splitter { taker.new.splitter ≡ taker.old.splitter }
    ensures refusal { taker.new.refusal ≡ taker.old.refusal }
    ensures number { OnOk result (taker.new.number ≡ next_count taker.old.number) }
    ensures text { WritesItem result (change (O.faults out.old) (O.faults out.new) (O.held out.old) (O.held out.new))
        (recorded message) }
{
    taker.recorded.truncate(0);
    split(message.as_slice(), &mut taker.recorded)?;
    match write_all(out, taker.recorded.as_slice()) {
        Ok(()) => {
            taker.number = taker.number.saturating_add(1);
            Ok(None)
        }
        Err(_) => Err(TakeFault::Write),
    }
}
