ghost use Rattle.std.specs.Prelude.{◌≡◌, ℕ, ◌≤◌, List, [], ◌++◌, length, true, false, ◌↔◌, ◌&&◌, IsTrue, OnOk, OnErr, IfOk, None};
ghost use Rattle.gfx_client.specs.Standing.{StandsFor, StandsFrom, HasBrought, HasBroughtFrom, Brings, IsDrained, Plays, PlaysFrom, Imports, ends_from};
ghost use Rattle.gfx_state.specs.History.{Effect, coming};
ghost use Rattle.gfx_state.specs.Cursor.{given};
ghost use Rattle.gfx_state.specs.State.{State};
ghost use Rattle.gfx_client.specs.Wanting.{LacksOnlyIf, may_want};
ghost use Rattle.gfx_base.specs.Outcome.{WantsOnlyIf};
ghost use Rattle.gfx_layout.specs.Header.{is_headed};
ghost use Rattle.gfx_pdu.specs.Id.{id_of_number};
ghost use Rattle.gfx_segment.specs.Framing.{may_give};
ghost use Rattle.gfx_client.specs.Replies.{hello, is_empty_reply, reply_to, stepped_of, stream_of};
ghost use Rattle.gfx_damage.specs.Damage.{undamaged};
ghost use Rattle.gfx_damage.specs.History.{damaged};
ghost use Rattle.gfx_import.specs.Started.{cache_by};
ghost use Rattle.gfx_pdu.specs.declared.pdu.Pdu.{Pdu};
ghost use Rattle.gfx_pdu.specs.Spelling.{id_of};

use crate::fault::ClientFault;
use crate::offered::Offered;
use crate::replies::{Reply, is_empty_reply, reply_to};
use crate::stepped::Stepped;
use gfx_base::{Bytes, Fault, NoMemory, Refusal};
use gfx_bitmap_cache::Cache;
use gfx_caps::{MOST_OFFERS, Offers};
use gfx_clear::ClearState;
use gfx_damage::Damage;
use gfx_import::{Kept, import_cache};
use gfx_pdu::{Id, read_pdu_ref};
use gfx_prog_decode::Records;
use gfx_segment::Payloads;
use gfx_state::State;
use gfx_surface_map::SurfaceMap;
use std::alloc::Global;

/// A client: the versions that it offers, the bytes that it was given and has not used with what is left of
/// the payload that it is in, what the messages before have drawn, and where.
#[derive(Drop)]
pub struct Client {
    alloc: Global,
    offered: Offered,
    payloads: Payloads,
    state: State,
    damage: Damage,
    applied: u64,
    closed: Option<ClientFault>,
    living: bool,
}

impl Client {
    ghost use Rattle.gfx_client.specs.Client.{cursor_of, closed_by, damage_of, is_living, offers_of, IsUntouched, Takes, Steps, Advances, TakesMessage, OpensMessage, IsAtPayloadEnd, IsAtEnd, end_of};

    /// A client at the start of a stream, which offers these versions. It takes the room of the ClearCodec
    /// stores.
    pub fn new(alloc: Global, offers: Offers) -> Result<Client, NoMemory>
        requires { length offers ≤ MOST_OFFERS }
        ensures stands { IfOk result (λ client. StandsFor client []) }
        ensures brought { IfOk result (λ client. HasBrought client [] []) }
        ensures drained { IfOk result IsDrained }
        ensures untouched { IfOk result IsUntouched }
        ensures offers { IfOk result (λ client. offers_of client ≡ offers) }
        ensures damage { IfOk result (λ client. damage_of client ≡ undamaged) }
        ensures living { IfOk result (λ client. is_living client ≡ false) }
    {
        Client::begin(alloc, offers, false)
    }

    /// The same of a client in a living session, which passes over the reply of a server that takes none of the bitmaps
    /// that were offered to it: where `take_whole` is given an RDPGFX_CACHE_IMPORT_REPLY_PDU of no slot ([MS-RDPEGFX]
    /// 2.2.2.17), alone in its channel message, it is as if it hadn't come.
    pub fn living(alloc: Global, offers: Offers) -> Result<Client, NoMemory>
        requires { length offers ≤ MOST_OFFERS }
        ensures stands { IfOk result (λ client. StandsFor client []) }
        ensures brought { IfOk result (λ client. HasBrought client [] []) }
        ensures drained { IfOk result IsDrained }
        ensures untouched { IfOk result IsUntouched }
        ensures offers { IfOk result (λ client. offers_of client ≡ offers) }
        ensures damage { IfOk result (λ client. damage_of client ≡ undamaged) }
        ensures living { IfOk result (λ client. is_living client ≡ true) }
    {
        Client::begin(alloc, offers, true)
    }

    /// A client at the start of a stream.
    fn begin(alloc: Global, offers: Offers, living: bool) -> Result<Client, NoMemory>
        requires { length offers ≤ MOST_OFFERS }
        ensures stands { IfOk result (λ client. StandsFor client []) }
        ensures brought { IfOk result (λ client. HasBrought client [] []) }
        ensures drained { IfOk result IsDrained }
        ensures untouched { IfOk result IsUntouched }
        ensures offers { IfOk result (λ client. offers_of client ≡ offers) }
        ensures damage { IfOk result (λ client. damage_of client ≡ undamaged) }
        ensures living { IfOk result (λ client. is_living client ≡ living) }
    {
        let state = State::new(alloc, false)?;
        Ok(Client {
            alloc,
            offered: Offered::new(offers),
            payloads: Payloads::new(alloc),
            state,
            damage: Damage::new(alloc),
            applied: 0,
            closed: None,
            living,
        })
    }

    /// Lets the client go. What this costs to prove is paid here once, and not at each of a caller's exits.
    pub fn let_go(self) {}

    /// What a client says first, for the server to choose a version: the message that offers its
    /// versions ([MS-RDPEGFX] RDPGFX_CAPS_ADVERTISE_PDU), as it is sent. No state of the client bars it.
    pub fn hello(&self) -> Result<Bytes, NoMemory>
        ensures { IfOk result (λ bytes. bytes ≡ hello (offers_of self.now)) }
    {
        self.offered.hello(self.alloc)
    }

    /// Begins with bitmaps that were kept from an earlier session, before anything is taken ([MS-RDPEGFX]
    /// 3.2.5.13): copies of the first entries of `kept` are stored at the slots of the server's reply, in its
    /// order, and `small` says whether the small limits bind the stores from then on.
    ///
    /// Refusals are PduTruncated, PduLength, PduUnknown and CountMismatch of the reply; then ImportCount,
    /// exactly where it has more slots than there are entries; then SlotRange and CacheBudget of the stores.
    /// Any fault leaves the client as it was.
    pub fn import(&mut self, kept: &Kept, reply: &[u8], small: bool) -> Result<(), Fault>
        requires { IsUntouched self.old }
        ensures imports { Imports result self.old self.new (cache_by kept.now reply.now small) }
        ensures small { OnOk result ((cursor_of self.new).state.cache.small ≡ small) }
        ensures offers { offers_of self.new ≡ offers_of self.old }
        ensures damage { damage_of self.new ≡ damage_of self.old }
        ensures living { is_living self.new ≡ is_living self.old }
    {
        let cache = import_cache(self.alloc, kept, reply, small)?;
        self.state.put_cache(cache);
        Ok(())
    }

    /// Takes the next bytes of the stream, cut anywhere. It never refuses them.
    pub fn take(&mut self, piece: &[u8]) -> Result<(), ClientFault>
        ensures takes { Takes (closed_by self.old) result self.old self.new piece.now }

        // What it stood for, it stands for with the piece behind it.
        ensures stands { OnOk result ((start : State) (bytes : List ℕ) → StandsFrom start self.old bytes → StandsFrom start self.new (bytes ++ piece.now)) }
        ensures brought { OnOk result ((start : State) (bytes : List ℕ) (all : List Effect) → StandsFrom start self.old bytes → HasBroughtFrom start self.old bytes all
            → HasBroughtFrom start self.new (bytes ++ piece.now) all) }
        ensures kept { OnErr result ((start : State) (bytes : List ℕ) → StandsFrom start self.old bytes → StandsFrom start self.new bytes) }
        ensures offers { offers_of self.new ≡ offers_of self.old }
        ensures damage { damage_of self.new ≡ damage_of self.old }
        ensures living { is_living self.new ≡ is_living self.old }
    {
        if let Some(fault) = self.closed {
            return Err(fault);
        }
        if self.payloads.feed(piece).is_err() {
            self.closed = Some(ClientFault::ClosedMemory);
            return Err(ClientFault::Memory);
        }
        Ok(())
    }

    /// Takes a whole channel message, without a length before it, from a transport that keeps messages apart. It never
    /// refuses it: one that is longer than any may be, or has no bytes, is refused by the step that comes to it, with
    /// ChannelLength. A living client passes over a reply of no slot.
    pub fn take_whole(&mut self, message: &[u8]) -> Result<(), ClientFault>
        ensures takes { Takes (closed_by self.old) result self.old self.new (stream_of (is_living self.old) message.now) }

        // What it stood for, it stands for with the message behind it.
        ensures stands { OnOk result ((start : State) (bytes : List ℕ) → StandsFrom start self.old bytes
            → StandsFrom start self.new (bytes ++ stream_of (is_living self.old) message.now)) }
        ensures brought { OnOk result ((start : State) (bytes : List ℕ) (all : List Effect) → StandsFrom start self.old bytes → HasBroughtFrom start self.old bytes all
            → HasBroughtFrom start self.new (bytes ++ stream_of (is_living self.old) message.now) all) }
        ensures kept { OnErr result ((start : State) (bytes : List ℕ) → StandsFrom start self.old bytes → StandsFrom start self.new bytes) }
        ensures offers { offers_of self.new ≡ offers_of self.old }
        ensures damage { damage_of self.new ≡ damage_of self.old }
        ensures living { is_living self.new ≡ is_living self.old }
    {
        if let Some(fault) = self.closed {
            return Err(fault);
        }
        if self.passes_over(message) {
            return Ok(());
        }
        if self.payloads.feed_whole(message).is_err() {
            self.closed = Some(ClientFault::ClosedMemory);
            return Err(ClientFault::Memory);
        }
        Ok(())
    }

    /// Whether a channel message is as if it hadn't come.
    fn passes_over(&self, message: &[u8]) -> bool
        ensures { result ≡ (is_living self.now && is_empty_reply message.now) }
    {
        self.living && is_empty_reply(message)
    }

    /// Applies the next message, and says which it is and what the server is to be told of it. `Need`
    /// says that the bytes taken hold no further whole message and no refusal. The first fault closes the
    /// client; a message for which memory ran out has changed nothing. It runs out only behind a message's header that is
    /// accepted, or behind the known descriptor of a whole channel message.
    pub fn step(&mut self) -> Result<Stepped, ClientFault>
        ensures steps { Steps (closed_by self.old) result self.old self.new }
        ensures memory { closed_by self.old ≡ None → LacksOnlyIf result (may_want (cursor_of self.new)) }

        // Whatever it answers, it stands for the same bytes.
        ensures stands { (start : State) (bytes : List ℕ) → StandsFrom start self.old bytes → StandsFrom start self.new bytes }
        ensures brings { (start : State) (bytes : List ℕ) (all : List Effect) → HasBroughtFrom start self.old bytes all
            → Brings start (closed_by self.old) result self.new bytes all }
        ensures offers { offers_of self.new ≡ offers_of self.old }
        ensures living { is_living self.new ≡ is_living self.old }
    {
        if let Some(fault) = self.closed {
            return Err(fault);
        }
        match self.advance() {
            Ok(stepped) => Ok(stepped),
            Err(Fault::Refused(refusal)) => {
                let number = self.applied.saturating_add(1);
                self.closed = Some(ClientFault::ClosedRefused { number, refusal });
                Err(ClientFault::Refused { number, refusal })
            }
            Err(Fault::Memory) => {
                self.closed = Some(ClientFault::ClosedMemory);
                Err(ClientFault::Memory)
            }
        }
    }

    /// Takes these bytes, and applies all messages that are whole then. What the server is to be told of
    /// them is let go.
    pub fn play(&mut self, piece: &[u8]) -> Result<(), ClientFault>
        ensures plays { Plays (closed_by self.old) result self.old self.new piece.now }
        ensures offers { offers_of self.new ≡ offers_of self.old }
        ensures damage { OnOk result (damage_of self.new ≡ damaged (damage_of self.old) (cursor_of self.old).state (coming (given (cursor_of self.old) piece.now))) }
        ensures living { is_living self.new ≡ is_living self.old }
    {
        self.take(piece)?;
        self.play_all()
    }

    /// The end of the stream: refused where a channel message isn't whole. It takes no memory.
    pub fn finish(&self) -> Result<(), ClientFault>
        requires { IsAtEnd self.now }
        ensures exact { result ≡ end_of (closed_by self.now) (cursor_of self.now) }

        // The answer is the end of the run of its bytes.
        ensures ends { (start : State) (bytes : List ℕ) → StandsFrom start self.now bytes → result ≡ ends_from start (closed_by self.now) bytes }
    {
        if let Some(fault) = self.closed {
            return Err(fault);
        }
        match self.payloads.finish() {
            Ok(()) => Ok(()),
            Err(refusal) => Err(ClientFault::Refused {
                number: self.applied.saturating_add(1),
                refusal,
            }),
        }
    }

    /// The surfaces as the messages so far have drawn them.
    pub fn surfaces(&self) -> &SurfaceMap
        ensures { result.now.shown ≡ (cursor_of self.now).state.shown }
    {
        self.state.surfaces()
    }

    /// The bitmaps as the messages so far have stored them.
    pub fn cache(&self) -> &Cache
        ensures { result.now ≡ (cursor_of self.now).state.cache }
    {
        self.state.cache()
    }

    /// What the ClearCodec streams so far have left for later ones.
    pub fn clear(&self) -> &ClearState
        ensures { result.now ≡ (cursor_of self.now).state.clear }
    {
        self.state.clear()
    }

    /// The records of tiles that the messages so far have left.
    pub fn records(&self) -> &Records
        ensures { result.now ≡ (cursor_of self.now).state.records }
    {
        self.state.records()
    }

    /// Which part of the screen the messages since the end of a frame have written. It is that of the frame that `step`
    /// says has ended, until the next message is applied.
    pub fn damage(&self) -> &Damage
        ensures { result.now ≡ damage_of self.now }
    {
        &self.damage
    }

    /// How many messages were applied, up to the last value of a count.
    pub fn applied(&self) -> u64
        ensures { result ≡ (cursor_of self.now).applied }
    {
        self.applied
    }

    /// Applies all messages that the bytes taken hold whole.
    fn play_all(&mut self) -> Result<(), ClientFault>
        requires { closed_by self.old ≡ None }
        ensures plays { (start : State) (bytes : List ℕ) → StandsFrom start self.old bytes → PlaysFrom start result self.new bytes bytes }
        ensures offers { offers_of self.new ≡ offers_of self.old }
        ensures damage { OnOk result (damage_of self.new ≡ damaged (damage_of self.old) (cursor_of self.old).state (coming (cursor_of self.old))) }
        ensures living { is_living self.new ≡ is_living self.old }
    {
        'steps: loop {
            if needs_more(self.step()?) {
                return Ok(());
            }
        }
    }

    /// Applies the next message, and opens channel messages until there is one.
    fn advance(&mut self) -> Result<Stepped, Fault>
        ensures advances { Advances result self.old self.new }
        ensures memory { WantsOnlyIf result (may_want (cursor_of self.new)) }
        ensures offers { offers_of self.new ≡ offers_of self.old }
        ensures living { is_living self.new ≡ is_living self.old }
    {
        'messages: loop {
            if let Some(stepped) = self.take_message()? {
                return Ok(stepped);
            }
            if !self.open_message()? {
                return Ok(Stepped::Need);
            }
        }
    }

    /// Applies the next message of the payload, if there is one. Its data are lent by the payload.
    fn take_message(&mut self) -> Result<Option<Stepped>, Fault>
        ensures takes { TakesMessage result self.old self.new }
        ensures memory { WantsOnlyIf result (is_headed id_of_number (cursor_of self.old).left) }
        ensures offers { offers_of self.new ≡ offers_of self.old }
        ensures living { is_living self.new ≡ is_living self.old }
    {
        let Some((pdu, size)) = read_pdu_ref(self.alloc, self.payloads.left(), 0)? else {
            return Ok(None);
        };
        // Before it is applied, so that want of memory leaves all as it was.
        let reply = reply_to(self.alloc, &pdu, self.state.decoded().wrapping_add(1))?;
        self.damage.apply(self.alloc, &mut self.state, &pdu)?;
        let stepped = stepped_of(pdu.id(), size, reply);
        drop(pdu);
        self.payloads.pass(size);
        self.applied = self.applied.saturating_add(1);
        Ok(Some(stepped))
    }

    /// Goes on to the next channel message, if a whole one is there.
    fn open_message(&mut self) -> Result<bool, Fault>
        requires { IsAtPayloadEnd self.old }
        ensures opens { OpensMessage result self.old self.new }
        ensures memory { WantsOnlyIf result (may_give (cursor_of self.old).splitter) }
        ensures offers { offers_of self.new ≡ offers_of self.old }
        ensures living { is_living self.new ≡ is_living self.old }
    {
        self.payloads.open_next()
    }
}

/// Whether a step found no whole message. What it says is let go here, once for all messages.
fn needs_more(stepped: Stepped) -> bool
    ensures { IsTrue result ↔ stepped ≡ Stepped.Need }
{
    match stepped {
        Stepped::Need => true,
        Stepped::Applied { .. } | Stepped::Ended { .. } => false,
    }
}

/// What a step says of the message of this id and size that it applied, with the reply to it.
fn stepped_of(id: Id, size: usize, reply: Option<Reply>) -> Stepped
    ensures { (pdu : Pdu) (decoded : ℕ) → id ≡ id_of pdu → reply ≡ reply_to pdu decoded → result ≡ stepped_of pdu size decoded }
{
    match reply {
        Some(Reply { frame, bytes }) => Stepped::Ended {
            frame,
            size,
            reply: bytes,
        },
        None => Stepped::Applied { id, size },
    }
}
