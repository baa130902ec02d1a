//! The command `join`: the fragments of a recording are joined, and each channel message is written once it is whole.
ghost use Rattle.std.specs.Prelude.{◌≡◌, ℕ, ◌+◌, ◌≤◌, ◌<◌, ◌^◌, List, [], ◌||◌, length, take, drop, Option, Some, None, is_some, is_ok, IfOk};
ghost use Rattle.std.specs.List.{flat_map};
ghost use Rattle.gfx_base.specs.Stream.{Writes, change};
ghost use Rattle.gfx_base.specs.declared.refusal.Refusal.{Refusal};
ghost use Rattle.gfx_dvc.specs.Joining.{fresh, given, step};
ghost use Rattle.gfx_dvc.specs.declared.profile.TheConstants.{PREFIX};
ghost use Rattle.gfx_input.specs.Reading.{TakesPiece, WantsOnlyIf};
ghost use Rattle.gfx_segment.specs.Framing.{prefixed};
ghost use Rattle.gfx_fragments.specs.Cut.{One, next_fragment};
ghost use Rattle.gfx_fragments.specs.Due.{Does};
ghost use Rattle.gfx_fragments.specs.Found.{joined, left_open, has_bytes};
ghost use Rattle.gfx_fragments.specs.Turns.{IsJoining, HasJoined, RefusesJoin, JoinsOn, WritesItem};

use crate::edge::{Edge, edge_of};
use crate::ended::{Ended, ended_by, left_open};
use crate::pending::Pending;
use gfx_base::{Bytes, Failed, Fault, Refusal, Sink, Source, write_all};
use gfx_dvc::{Joiner, PREFIX};
use gfx_input::{InputFault, TakeFault, Taken, Taker, read_input};
use std::alloc::Global;

/// It takes the bytes of a recording of fragments until one is refused, and writes each message once it is whole.
#[derive(Drop)]
struct Assembler {
    /// The bytes that weren't used yet.
    pending: Pending,
    joiner: Joiner,
    /// How many fragments were joined, up to the last value of a count.
    number: u64,
    /// Why the next is refused.
    refusal: Option<Refusal>,
}

impl Assembler {
    /// Nothing is taken yet. It takes no memory.
    fn new(alloc: Global) -> Assembler
        ensures pending { result.pending ≡ [] }
        ensures joiner { result.joiner ≡ fresh }
        ensures number { result.number ≡ 0 }
        ensures refusal { result.refusal ≡ None }
    {
        Assembler {
            pending: Pending::new(alloc),
            joiner: Joiner::new(alloc),
            number: 0,
            refusal: None,
        }
    }
}

impl Taker for Assembler {
    ghost use Rattle.gfx_fragments.specs.Due.{IsFine};
    ghost use Rattle.gfx_fragments.specs.Found.{joined, joined_due};
    ghost use Rattle.gfx_fragments.specs.Turns.{HasJoined, RefusesJoin};
    ghost use Rattle.gfx_input.specs.Taking.{fixed, stays, settled};

    ghost stands = { λ taker bytes. HasJoined taker bytes };

    ghost stops = { λ taker bytes. RefusesJoin taker bytes };

    ghost is_fine = { λ bytes. IsFine joined bytes };

    ghost written = { λ bytes. joined_due bytes };

    ghost allowed = { fixed };

    fn allowed(&self, limit: usize) -> usize {
        limit
    }

    fn give<O: Sink>(&mut self, piece: &[u8], out: &mut O) -> Result<Taken, TakeFault> {
        self.pending.gain(piece)?;
        join_all(self, out)
    }

    ghost fronts = { λ _ _ n stands. stands.fine n };

    ghost grows = { λ limit _ _. stays limit };

    ghost settles = { λ limit bytes _ all. settled limit bytes all };
}

/// Reads a recording of fragments within the limit, each behind its length of two bytes, and writes the stream of the
/// channel messages that they are joined to, each behind its length of four ([MS-RDPEDYC] 2.2.3.1, 2.2.3.2; both
/// recordings are this project's own). It ends with the first fragment that is refused: ChannelLength as soon as its
/// length is there, else by the checks of `Joiner::take`; and with ChannelTruncated where a fragment or a message isn't
/// whole at the end. It holds one message and one piece.
pub fn join<I: Source, O: Sink>(
    alloc: Global,
    limit: usize,
    input: &mut I,
    out: &mut O,
) -> Result<Ended, InputFault>
    requires { limit < 2 ^ 63 }
    ensures { Does joined result limit
        (change (I.faults input.old) (I.faults input.new) (I.left input.old) (I.left input.new))
        (change (O.faults out.old) (O.faults out.new) (O.held out.old) (O.held out.new)) }
{
    let mut taker = Assembler::new(alloc);
    let read = read_input(input, limit, &mut taker, out)?;
    let refusal = refusal_of(&taker);
    Ok(ended_by(read, taker.number, refusal))
}

/// Why the next fragment is refused where the recording ends here.
fn refusal_of(taker: &Assembler) -> Option<Refusal>
    ensures kept { (r : Refusal) → taker.now.refusal ≡ Some r → result ≡ Some r }
    ensures last { taker.now.refusal ≡ None → taker.now.joiner.refusal ≡ None → result ≡ left_open (is_some taker.now.joiner.message || has_bytes taker.now.pending) }
{
    if taker.refusal.is_some() {
        return taker.refusal;
    }
    left_open(is_open(taker))
}

/// Whether a message is open, or a fragment is begun, that isn't whole.
fn is_open(taker: &Assembler) -> bool
    ensures { taker.now.joiner.refusal ≡ None → result ≡ (is_some taker.now.joiner.message || has_bytes taker.now.pending) }
{
    taker.joiner.finish().is_err() | !taker.pending.rest().is_empty()
}

/// Joins all fragments that are whole.
fn join_all<O: Sink>(taker: &mut Assembler, out: &mut O) -> Result<Taken, TakeFault>
    ensures { (bytes : List ℕ) (before : ℕ) (held : Option (List ℕ))
        → IsJoining taker.old bytes (change before (O.faults out.old) held (O.held out.old))
        → TakesPiece HasJoined RefusesJoin (joined bytes).text result taker.new bytes
        (change before (O.faults out.new) held (O.held out.new)) }
{
    'fragments: loop {
        if let Some(taken) = join_next(taker, out)? {
            return Ok(taken);
        }
    }
}

/// Joins the next fragment. `None` says that there may be more.
fn join_next<O: Sink>(taker: &mut Assembler, out: &mut O) -> Result<Option<Taken>, TakeFault>
    ensures turns { (bytes : List ℕ) (before : ℕ) (held : Option (List ℕ))
        → IsJoining taker.old bytes (change before (O.faults out.old) held (O.held out.old))
        → JoinsOn result taker.new bytes (change before (O.faults out.new) held (O.held out.new)) }
    ensures fewer { IfOk result (λ answer. answer ≡ None → length taker.new.pending < length taker.old.pending) }
{
    match edge_of(taker.pending.rest()) {
        Edge::Whole { size } => take_fragment(size, taker, out),
        Edge::Short => Ok(Some(Taken::More)),
        Edge::Bad => {
            taker.refusal = Some(Refusal::ChannelLength);
            Ok(Some(Taken::Stopped))
        }
    }
}

/// Joins the fragment of this size, which is at the front. Memory is wanting only for one that passes the joiner's checks.
fn take_fragment<O: Sink>(
    size: usize,
    taker: &mut Assembler,
    out: &mut O,
) -> Result<Option<Taken>, TakeFault>
    requires within { PREFIX + size ≤ length taker.old.pending }
    requires cut { next_fragment taker.old.pending ≡ One (take size (drop PREFIX taker.old.pending)) (drop (PREFIX + size) taker.old.pending) }
    ensures turns { (bytes : List ℕ) (before : ℕ) (held : Option (List ℕ))
        → IsJoining taker.old bytes (change before (O.faults out.old) held (O.held out.old))
        → JoinsOn result taker.new bytes (change before (O.faults out.new) held (O.held out.new)) }
    ensures fewer { IfOk result (λ answer. answer ≡ None → taker.new.pending ≡ drop (PREFIX + size) taker.old.pending) }
    ensures memory { WantsOnlyIf result (is_ok (step taker.old.joiner (take size (drop PREFIX taker.old.pending)))) }
{
    match taker.joiner.take(taker.pending.fragment(size)) {
        Ok(message) => {
            taker.pending.pass(PREFIX + size);
            taker.number = taker.number.saturating_add(1);
            put_given(message, out)
        }
        Err(Fault::Refused(refusal)) => {
            taker.refusal = Some(refusal);
            Ok(Some(Taken::Stopped))
        }
        Err(Fault::Memory) => Err(TakeFault::Memory),
    }
}

/// Writes the message that a fragment ended, if there is one.
fn put_given<O: Sink>(message: Option<Bytes>, out: &mut O) -> Result<Option<Taken>, TakeFault>
    ensures { WritesItem result (change (O.faults out.old) (O.faults out.new) (O.held out.old) (O.held out.new))
        (flat_map prefixed (given message)) }
{
    let Some(message) = message else {
        return Ok(None);
    };
    match put_message(message.as_slice(), out) {
        Ok(()) => Ok(None),
        Err(_) => Err(TakeFault::Write),
    }
}

/// Writes a channel message behind its length, which has four bytes.
#[tactic(auto, unfolding(gfx_segment::specs::Framing::prefixed))]
fn put_message<O: Sink>(message: &[u8], out: &mut O) -> Result<(), Failed>
    ensures { Writes result (change (O.faults out.old) (O.faults out.new) (O.held out.old) (O.held out.new))
        (prefixed message.now) }
{
    let size = message.len().to_le_bytes();
    write_all(out, &size[..4])?;
    write_all(out, message)
}
