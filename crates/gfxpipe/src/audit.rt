//! The command `audit`: a recording is played, a line is written for each message once it is applied, and at the
//! end what the client then holds is told.
ghost use Rattle.std.specs.Prelude.{◌≡◌, ◌<◌, ◌^◌, [], None};
ghost use Rattle.gfx_base.specs.Stream.{change};
ghost use Rattle.gfx_client.specs.Client.{closed_by};
ghost use Rattle.gfxpipe.specs.Auditing.{GoesOnByAll, TellsHeld};
ghost use Rattle.gfxpipe.specs.AuditSteps.{GoesOnByOne, TellsMessage, message_in};
ghost use Rattle.gfxpipe.specs.Recording.{HasPlayed};
ghost use Rattle.gfxpipe.specs.Rules.{Audits};

use crate::ending::Ending;
use crate::recording::ending_of;
use crate::trouble::Trouble;
use gfx_base::{Sink, Source};
use gfx_client::{Client, ClientFault, Offers, Stepped};
use gfx_input::{TakeFault, Taken, Taker, read_input};
use gfx_pdu::Id;
use gfx_report::{audit_end, audit_line};
use std::alloc::Global;

/// A client, and the number of the last message that it has applied. It takes bytes until a message is refused,
/// and writes a line for each message once it is applied.
#[derive(Drop)]
struct Auditor {
    client: Client,
    number: u64,
}

impl Taker for Auditor {
    ghost use Rattle.gfx_state.specs.Run.{run_of};
    ghost use Rattle.gfxpipe.specs.Audit.{told};
    ghost use Rattle.gfxpipe.specs.Auditing.{HasHeard};
    ghost use Rattle.gfxpipe.specs.Recording.{HasRefused};
    ghost use Rattle.gfxpipe.specs.Fronts.{fronts_not_refused};
    ghost use Rattle.gfx_input.specs.Taking.{fixed, stays, settled};

    ghost stands = { λ auditor bytes. HasHeard auditor.client auditor.number bytes };

    ghost stops = { λ auditor bytes. HasRefused auditor.client bytes };

    ghost is_fine = { λ bytes. (run_of bytes).refusal ≡ None };

    ghost written = { told };

    ghost allowed = { fixed };

    fn allowed(&self, limit: usize) -> usize {
        limit
    }

    fn give<O: Sink>(&mut self, piece: &[u8], out: &mut O) -> Result<Taken, TakeFault> {
        let Ok(()) = self.client.take(piece) else {
            return Err(TakeFault::Memory);
        };
        tell_all(self, out)
    }

    ghost fronts = { λ auditor bytes n heard. fronts_not_refused auditor.client bytes n heard.0 };

    ghost grows = { λ limit _ _. stays limit };

    ghost settles = { λ limit bytes _ all. settled limit bytes all };
}

/// Plays a recording within the limit, and writes a line for each message once it is applied, and at the end what
/// the client then holds. Nothing is kept of what was applied.
pub(crate) fn audit<I: Source, O: Sink>(
    alloc: Global,
    limit: usize,
    input: &mut I,
    out: &mut O,
) -> Result<Ending, Trouble>
    requires { limit < 2 ^ 63 }
    ensures { Audits result limit
        (change (I.faults input.old) (I.faults input.new) (I.left input.old) (I.left input.new))
        (change (O.faults out.old) (O.faults out.new) (O.held out.old) (O.held out.new)) }
{
    let client = Client::new(alloc, Offers::new(alloc))?;
    let mut auditor = Auditor { client, number: 0 };
    let ending = play(limit, input, &mut auditor, out);
    auditor.client.let_go();
    ending
}

/// The same by an auditor that has played nothing.
fn play<I: Source, O: Sink>(
    limit: usize,
    input: &mut I,
    auditor: &mut Auditor,
    out: &mut O,
) -> Result<Ending, Trouble>
    requires short { limit < 2 ^ 63 }
    requires start { HasPlayed auditor.old.client [] }
    requires first { auditor.old.number ≡ 0 }
    ensures { Audits result limit
        (change (I.faults input.old) (I.faults input.new) (I.left input.old) (I.left input.new))
        (change (O.faults out.old) (O.faults out.new) (O.held out.old) (O.held out.new)) }
{
    let read = read_input(input, limit, auditor, out)?;
    let ending = ending_of(read, &auditor.client);
    tell_held(&auditor.client, out)?;
    Ok(ending)
}

/// Applies all messages that are whole, and tells of each.
fn tell_all<O: Sink>(auditor: &mut Auditor, out: &mut O) -> Result<Taken, TakeFault>
    requires { closed_by auditor.old.client ≡ None }
    ensures { GoesOnByAll result auditor.old auditor.new
        (change (O.faults out.old) (O.faults out.new) (O.held out.old) (O.held out.new)) }
{
    'messages: loop {
        if let Some(taken) = tell_next(auditor, out)? {
            return Ok(taken);
        }
    }
}

/// Applies the next message, and tells of it. `None` says that there may be more.
fn tell_next<O: Sink>(auditor: &mut Auditor, out: &mut O) -> Result<Option<Taken>, TakeFault>
    requires { closed_by auditor.old.client ≡ None }
    ensures { GoesOnByOne result auditor.old auditor.new
        (change (O.faults out.old) (O.faults out.new) (O.held out.old) (O.held out.new)) }
{
    match auditor.client.step() {
        Ok(stepped) => tell(message_in(stepped), auditor, out),
        Err(ClientFault::Refused { .. }) => Ok(Some(Taken::Stopped)),
        Err(_) => Err(TakeFault::Memory),
    }
}

/// The message that a step applied, and its length on the wire. The reply to it is let go.
fn message_in(stepped: Stepped) -> Option<(Id, usize)>
    ensures { result ≡ message_in stepped }
{
    match stepped {
        Stepped::Applied { id, size } => Some((id, size)),
        Stepped::Ended { size, .. } => Some((Id::EndFrame, size)),
        Stepped::Need => None,
    }
}

/// Counts a message and writes its line.
fn tell<O: Sink>(
    message: Option<(Id, usize)>,
    auditor: &mut Auditor,
    out: &mut O,
) -> Result<Option<Taken>, TakeFault>
    ensures client { auditor.new.client ≡ auditor.old.client }
    ensures tells { TellsMessage message result auditor.old auditor.new
        (change (O.faults out.old) (O.faults out.new) (O.held out.old) (O.held out.new)) }
{
    let Some((id, size)) = message else {
        return Ok(Some(Taken::More));
    };
    auditor.number = auditor.number.saturating_add(1);
    match audit_line(auditor.number, id, size, out) {
        Ok(()) => Ok(None),
        Err(_) => Err(TakeFault::Write),
    }
}

/// Tells what a client holds.
fn tell_held<O: Sink>(client: &Client, out: &mut O) -> Result<(), Trouble>
    ensures { TellsHeld result client.now
        (change (O.faults out.old) (O.faults out.new) (O.held out.old) (O.held out.new)) }
{
    match audit_end(
        client.cache(),
        client.clear(),
        client.records().count(),
        out,
    ) {
        Ok(()) => Ok(()),
        Err(_) => Err(Trouble::Write),
    }
}
