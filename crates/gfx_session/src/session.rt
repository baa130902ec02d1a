//! Both ends of a session.

ghost use Rattle.std.specs.Prelude.{◌≡◌, ℕ, List, [], ◌++◌, ◌≤◌, length, IfOk, OnOk, false, if◌then◌else◌};
ghost use Rattle.gfx_caps.specs.declared.offer.TheConstants.{MOST_OFFERS};
ghost use Rattle.gfx_chooser.specs.Seen.{seen};
ghost use Rattle.gfx_client.specs.Client.{offers_of, IsUntouched};
ghost use Rattle.gfx_client.specs.Replies.{hello};
ghost use Rattle.gfx_client.specs.Standing.{StandsFor, StandsFrom, IsDrained};
ghost use Rattle.gfx_import.specs.Started.{in_slots, own};
ghost use Rattle.gfx_schedule.specs.Starts.{MayImport, from_kept};
ghost use Rattle.gfx_schedule.specs.World.{World, begin, begin_from, is_ended};
ghost use Rattle.gfx_schedule.specs.Schedule.{rounds_for};
ghost use Rattle.gfx_schedule.specs.declared.turned.Turned.TheVariants.{Moved, Waiting, Ended};
ghost use Rattle.gfx_script.specs.Kinds.{Fits, KindedStep};
ghost use Rattle.gfx_script.specs.Script.{IsAccepted};
ghost use Rattle.gfx_script.specs.declared.TheConstants.{MOST_STEPS};
ghost use Rattle.gfx_script.specs.declared.turn.Turn.TheVariants.{Server, Client as ToClient, Answer};
ghost use Rattle.gfx_session.specs.Beginning.{IsBegun};
ghost use Rattle.gfx_session.specs.Session.{Stands, IsSession, Turns, Drains, script_of};
ghost use Rattle.gfx_session.specs.Turning.{Does, DoesBy, GoesRound, has_moved};
ghost use Rattle.gfx_state.specs.State.{started_with};

use crate::acked::Acks;
use crate::digests::Digests;
use crate::drawing::{draw_all, take_bytes};
use crate::importing::import_kept;
use crate::noting::{hear_bytes, note_all};
use crate::queue::Queue;
use crate::server_end::ServerEnd;
use gfx_base::{Bytes, NoMemory};
use gfx_chooser::Chooser;
use gfx_client::{Client, Offers};
use gfx_import::Kept;
use gfx_schedule::{Turned, rounds_end};
use gfx_script::{Script, Turn};
use std::alloc::Global;
use std::collections::VecDeque;

/// A session: the server's end of a script, a client that offers what the script says, and the bytes in
/// flight between the two.
#[derive(Drop)]
pub struct Session {
    alloc: Global,
    server: ServerEnd,
    client: Client,
    down: Queue,
    up: Queue,
    drawn: VecDeque<Option<[u8; 32]>>,
    acks: Acks,
    spent: bool,
}

impl Session {
    /// The session of a script, whose steps will go as the kinds that they name, or that choosers choose: the
    /// client has said which versions it offers.
    pub fn new(alloc: Global, script: Script, digests: Digests) -> Result<Session, NoMemory>
        requires { IsAccepted script }
        ensures stands { IfOk result (λ session. (kinded : List KindedStep) → Fits kinded script.steps → Stands session (begin script kinded)) }
        ensures last { IfOk result (λ session. session.server.last ≡ 0) }
        ensures is { IfOk result (λ session. IsSession session × (script_of session ≡ script) × (session.server.digests ≡ digests)) }
    {
        let said = greeting_client(alloc, &script)?;
        match ServerEnd::new(alloc, script, digests) {
            Ok(end) => Ok(begun(alloc, end, said.0, said.1)),
            Err(lack) => {
                said.0.let_go();
                Err(lack)
            }
        }
    }

    /// The session of a script that was read with these two files of kept bitmaps, right after its ends have agreed on
    /// them: what is imported of the files is in slots 1, 2 and so on, at each end its own bitmaps, and the version is
    /// confirmed ([MS-RDPEGFX] 3.2.5.13). Each of these bitmaps has the same sides at both ends.
    pub fn with_kept(
        alloc: Global,
        script: Script,
        server: &Kept,
        client: &Kept,
        digests: Digests,
    ) -> Result<Session, NoMemory>
        requires { MayImport script server.now client.now }
        ensures stands { IfOk result (λ session. (kinded : List KindedStep) → Fits kinded script.steps
            → Stands session (begin_from (from_kept script server.now client.now) script kinded)) }
        ensures last { IfOk result (λ session. session.server.last ≡ 0) }
        ensures is { IfOk result (λ session. IsSession session × (script_of session ≡ script) × (session.server.digests ≡ digests)) }
    {
        let other = client_with(alloc, &script, server, client)?;
        match ServerEnd::with_kept(alloc, script, server, client, digests) {
            Ok(end) => Ok(begun(alloc, end, other, Queue::new(alloc))),
            Err(lack) => {
                other.let_go();
                Err(lack)
            }
        }
    }

    /// One turn. Where steps are queued in it, these choosers are asked for the kinds that they don't name, and
    /// those that are spent are dropped. Ended is told where nothing was left to do before it. Without memory the session is
    /// spent, and answers that from then on.
    pub fn turn<C: Chooser>(
        &mut self,
        turn: Turn,
        choosers: &mut Vec<C>,
    ) -> Result<Turned, NoMemory>
        requires { IsSession self.old }
        ensures turns { Turns result self.old self.new (seen C.reply C.is_spent choosers.old.items) (seen C.reply C.is_spent choosers.new.items) turn }
        ensures is { IsSession self.new }
    {
        if self.spent {
            return Err(NoMemory);
        }
        let ended = self.has_ended();
        let moved = self.take_turn(turn, choosers)?;
        Ok(told(ended, moved))
    }

    /// Rounds until the session is ended: the server's end has a turn, for which these choosers are asked, and then
    /// all bytes are taken both ways.
    pub fn drain<C: Chooser>(&mut self, choosers: &mut Vec<C>) -> Result<(), NoMemory>
        requires { IsSession self.old }
        ensures drains { Drains result self.old self.new (seen C.reply C.is_spent choosers.old.items) (seen C.reply C.is_spent choosers.new.items) }
        ensures is { IsSession self.new }
    {
        if self.spent {
            return Err(NoMemory);
        }
        rounds_end();
        let most = most_rounds(self.script());
        'rounds: for _ in 0..most {
            if self.has_ended() {
                return Ok(());
            }
            self.round(choosers)?;
        }
        Ok(())
    }

    /// The frames that were acknowledged, in order, with the digests of both ends where digests are on.
    pub fn acks(&self) -> &Acks
        ensures { result.now ≡ self.now.acks }
    {
        &self.acks
    }

    pub fn script(&self) -> &Script
        ensures { result.now ≡ script_of self.now }
    {
        self.server.script()
    }

    pub fn client(&self) -> &Client
        ensures { result.now ≡ self.now.client }
    {
        &self.client
    }

    /// Lets the session go. What this costs to prove is paid here once, and not at each of a caller's exits.
    pub fn let_go(self) {}

    /// Whether all was queued, sent and acknowledged, and no byte is in flight.
    fn has_ended(&self) -> bool
        requires is { IsSession self.now }
        requires fresh { self.now.spent ≡ false }
        ensures { (w : World) → Stands self.now w → result ≡ is_ended w }
    {
        self.server.has_served() && (self.down.is_empty() && self.up.is_empty())
    }

    fn round<C: Chooser>(&mut self, choosers: &mut Vec<C>) -> Result<(), NoMemory>
        requires is { IsSession self.old }
        requires fresh { self.old.spent ≡ false }
        ensures goes { GoesRound result self.old self.new (seen C.reply C.is_spent choosers.old.items) (seen C.reply C.is_spent choosers.new.items) }
        ensures is { IsSession self.new }
    {
        self.serve(choosers)?;
        let coming = self.down.len();
        self.draw(coming)?;
        let coming = self.up.len();
        self.hear(coming)?;
        Ok(())
    }

    fn take_turn<C: Chooser>(&mut self, turn: Turn, choosers: &mut Vec<C>) -> Result<bool, NoMemory>
        requires is { IsSession self.old }
        requires fresh { self.old.spent ≡ false }
        ensures does { DoesBy result self.old self.new (seen C.reply C.is_spent choosers.old.items) (seen C.reply C.is_spent choosers.new.items) turn }
        ensures is { IsSession self.new }
    {
        match turn {
            Turn::Server => self.serve(choosers),
            Turn::Client(most) => self.draw(most as usize),
            Turn::Answer(most) => self.hear(most as usize),
        }
    }

    /// The server's end queues and sends.
    fn serve<C: Chooser>(&mut self, choosers: &mut Vec<C>) -> Result<bool, NoMemory>
        requires is { IsSession self.old }
        requires fresh { self.old.spent ≡ false }
        ensures does { DoesBy result self.old self.new (seen C.reply C.is_spent choosers.old.items) (seen C.reply C.is_spent choosers.new.items) Server }
        ensures is { IsSession self.new }
    {
        self.spent = true;
        let mut out = Bytes::new(self.alloc);
        let served = self.server.serve(choosers, &mut out)?;
        self.down.put(out)?;
        self.spent = false;
        Ok(has_moved(served))
    }

    /// The client takes at most so many bytes, and draws and acknowledges what is whole then.
    fn draw(&mut self, most: usize) -> Result<bool, NoMemory>
        requires is { IsSession self.old }
        requires fresh { self.old.spent ≡ false }
        ensures does { Does result self.old self.new (ToClient most) }
        ensures is { IsSession self.new }
    {
        self.spent = true;
        let moved = !self.down.is_empty();
        let piece = self.down.front(most);
        let count = piece.len();
        take_bytes(&mut self.client, piece)?;
        let digests = self.server.digests();
        draw_all(&mut self.client, &mut self.up, &mut self.drawn, digests)?;
        self.down.pass(count)?;
        self.spent = false;
        Ok(moved)
    }

    /// The server's end takes at most so many bytes of the client.
    fn hear(&mut self, most: usize) -> Result<bool, NoMemory>
        requires is { IsSession self.old }
        requires fresh { self.old.spent ≡ false }
        ensures does { Does result self.old self.new (Answer most) }
        ensures is { IsSession self.new }
    {
        self.spent = true;
        let moved = !self.up.is_empty();
        let piece = self.up.front(most);
        let count = piece.len();
        let mut out = Bytes::new(self.alloc);
        let mut taken = Vec::new(self.alloc);
        hear_bytes(&mut self.server, piece, &mut out, &mut taken)?;
        self.up.pass(count)?;
        self.down.put(out)?;
        note_all(taken.as_slice(), &mut self.drawn, &mut self.acks)?;
        self.spent = false;
        Ok(moved)
    }
}

/// A client that offers what a script says.
fn client_of(alloc: Global, script: &Script) -> Result<Client, NoMemory>
    requires { length script.now.offers ≤ MOST_OFFERS }
    ensures untouched { IfOk result IsUntouched }
    ensures stands { IfOk result (λ client. StandsFor client []) }
    ensures drained { IfOk result IsDrained }
    ensures offers { IfOk result (λ client. offers_of client ≡ script.now.offers) }
{
    let mut offers = Offers::new(alloc);
    offers.append(script.offers().as_slice())?;
    Client::new(alloc, offers)
}

/// The same, and what it says first, on its way.
fn greeting_client(alloc: Global, script: &Script) -> Result<(Client, Queue), NoMemory>
    requires { length script.now.offers ≤ MOST_OFFERS }
    ensures stands { IfOk result (λ said. StandsFor said.0 []) }
    ensures drained { IfOk result (λ said. IsDrained said.0) }
    ensures offers { IfOk result (λ said. offers_of said.0 ≡ script.now.offers) }
    ensures up { IfOk result (λ said. said.1 ≡ hello script.now.offers) }
{
    let client = client_of(alloc, script)?;
    match greeting(alloc, &client) {
        Ok(up) => Ok((client, up)),
        Err(lack) => {
            client.let_go();
            Err(lack)
        }
    }
}

/// What a client says first, on its way.
fn greeting(alloc: Global, client: &Client) -> Result<Queue, NoMemory>
    ensures { IfOk result (λ up. up ≡ hello (offers_of client.now)) }
{
    let mut up = Queue::new(alloc);
    up.put(client.hello()?)?;
    Ok(up)
}

/// A client that begins with its own bitmaps of what is imported of these two files.
fn client_with(
    alloc: Global,
    script: &Script,
    server: &Kept,
    client: &Kept,
) -> Result<Client, NoMemory>
    requires { length script.now.offers ≤ MOST_OFFERS }
    ensures stands { IfOk result (λ other. StandsFrom (started_with (in_slots (own server.now client.now script.now.small)) script.now.small) other []) }
    ensures drained { IfOk result IsDrained }
    ensures offers { IfOk result (λ other. offers_of other ≡ script.now.offers) }
{
    let mut other = client_of(alloc, script)?;
    match import_kept(alloc, &mut other, server, client, script.small()) {
        Ok(()) => Ok(other),
        Err(lack) => {
            other.let_go();
            Err(lack)
        }
    }
}

/// A session in which nothing has happened.
fn begun(alloc: Global, server: ServerEnd, client: Client, up: Queue) -> Session
    ensures { IsBegun result server client up }
{
    Session {
        alloc,
        server,
        client,
        down: Queue::new(alloc),
        up,
        drawn: VecDeque::new(alloc),
        acks: Acks::new(alloc),
        spent: false,
    }
}

/// What is told of a turn.
fn told(ended: bool, moved: bool) -> Turned
    ensures { result ≡ (if ended then Ended else (if moved then Moved else Waiting)) }
{
    if ended {
        Turned::Ended
    } else if moved {
        Turned::Moved
    } else {
        Turned::Waiting
    }
}

/// Whether the server's end did something in its turn.
fn has_moved(turned: Turned) -> bool
    ensures { result ≡ has_moved turned }
{
    match turned {
        Turned::Moved => true,
        _ => false,
    }
}

/// How many rounds end the session of a script.
fn most_rounds(script: &Script) -> u32
    requires { length script.now.steps ≤ MOST_STEPS }
    ensures { result ≡ rounds_for script.now }
{
    let mut count = 0;
    'steps: while script.step(count + 1).is_some() {
        count += 1;
    }
    count + 4
}
