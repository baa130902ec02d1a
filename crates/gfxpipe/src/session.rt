//! The command `session`: a script is read whole, both ends of its session are played to its end, and a
//! line is written for each frame that was acknowledged.
ghost use Rattle.std.specs.Prelude.{◌≡◌, ◌<◌, ◌^◌, OnOk, Some};
ghost use Rattle.gfx_chooser.specs.Seen.{seen};
ghost use Rattle.std.specs.List.{AllByRecursion, flat_map};
ghost use Rattle.gfx_base.specs.Stream.{Writes, change};
ghost use Rattle.gfx_session.specs.Session.{IsSession, digests_of};
ghost use Rattle.gfx_session.specs.declared.digests.Digests.TheVariants.{On};
ghost use Rattle.gfxpipe.specs.Outcome.{ended_of, session_of};
ghost use Rattle.gfxpipe.specs.Rule.{DidAll};
ghost use Rattle.gfxpipe.specs.Rules.{playing, script_input};
ghost use Rattle.gfxpipe.specs.Sessions.{HasDigests, HasPlayed, Plays, PlaysOut, acked_line};

use crate::ending::Ending;
use crate::outcome::Outcome;
use crate::script::read_whole;
use crate::trouble::Trouble;
use gfx_base::{Failed, NoMemory, Sink, Source};
use gfx_chooser::Chooser;
use gfx_report::write_ack;
use gfx_session::{Acked, Digests, Session};
use std::alloc::Global;

/// Reads a script within the limit, plays its session, and writes a line for each acknowledged frame.
pub(crate) fn session<C: Chooser, I: Source, O: Sink>(
    alloc: Global,
    limit: usize,
    choosers: &mut Vec<C>,
    input: &mut I,
    out: &mut O,
) -> Result<Outcome, Trouble>
    requires { limit < 2 ^ 63 }
    ensures { DidAll (ended_of result) (session_of result) playing script_input (seen C.reply C.is_spent choosers.old.items) (seen C.reply C.is_spent choosers.new.items) limit
        (change (I.faults input.old) (I.faults input.new) (I.left input.old) (I.left input.new))
        (change (O.faults out.old) (O.faults out.new) (O.held out.old) (O.held out.new)) }
{
    match read_whole(alloc, limit, input)? {
        Ok(script) => {
            let begun = Session::new(alloc, script, Digests::On)?;
            let session = play_out(begun, choosers, out)?;
            Ok(Outcome {
                ending: Ending::Done,
                session: Some(session),
            })
        }
        Err(ending) => Ok(Outcome {
            ending,
            session: None,
        }),
    }
}

/// Plays a session to its end, and writes a line for each acknowledged frame.
pub(crate) fn play_out<C: Chooser, O: Sink>(
    begun: Session,
    choosers: &mut Vec<C>,
    out: &mut O,
) -> Result<Session, Trouble>
    requires is { IsSession begun }
    requires unqueued { begun.server.last ≡ 0 }
    requires digests { digests_of begun ≡ On }
    ensures { PlaysOut result begun (seen C.reply C.is_spent choosers.old.items) (seen C.reply C.is_spent choosers.new.items)
        (change (O.faults out.old) (O.faults out.new) (O.held out.old) (O.held out.new)) }
{
    let session = play(begun, choosers)?;
    match write_acks(session.acks().as_slice(), out) {
        Ok(()) => Ok(session),
        Err(_) => {
            session.let_go();
            Err(Trouble::Write)
        }
    }
}

/// Plays a session in which nothing is queued: each turn of its script, then rounds until it is ended. These choosers
/// are asked when a paint is queued that names no kind.
pub(crate) fn play<C: Chooser>(begun: Session, choosers: &mut Vec<C>) -> Result<Session, NoMemory>
    requires is { IsSession begun }
    requires unqueued { begun.server.last ≡ 0 }
    ensures { Plays result begun (seen C.reply C.is_spent choosers.old.items) (seen C.reply C.is_spent choosers.new.items) }
{
    let mut session = begun;
    match take_turns(&mut session, choosers) {
        Ok(()) => Ok(session),
        Err(error) => {
            session.let_go();
            Err(error)
        }
    }
}

/// Takes the turns of a session's script, and then rounds until it is ended.
fn take_turns<C: Chooser>(session: &mut Session, choosers: &mut Vec<C>) -> Result<(), NoMemory>
    requires is { IsSession session.old }
    requires unqueued { session.old.server.last ≡ 0 }
    ensures { OnOk result (HasPlayed session.old session.new (seen C.reply C.is_spent choosers.old.items) (seen C.reply C.is_spent choosers.new.items)) }
{
    let mut at = 0;
    'turns: while let Some(turn) = session.script().turn(at) {
        session.turn(turn, choosers)?;
        at += 1;
    }
    session.drain(choosers)
}

/// Writes a line for each of these acknowledged frames.
fn write_acks<O: Sink>(acks: &[Acked], out: &mut O) -> Result<(), Failed>
    requires { AllByRecursion HasDigests acks.now }
    ensures { Writes result (change (O.faults out.old) (O.faults out.new) (O.held out.old) (O.held out.new))
        (flat_map acked_line acks.now) }
{
    'acks: for ack in acks {
        write_line(ack, out)?;
    }
    Ok(())
}

/// Writes the line of an acknowledged frame.
fn write_line<O: Sink>(ack: &Acked, out: &mut O) -> Result<(), Failed>
    requires { HasDigests ack.now }
    ensures { Writes result (change (O.faults out.old) (O.faults out.new) (O.held out.old) (O.held out.new))
        (acked_line ack.now) }
{
    let (client, server) = digests(ack);
    write_ack(ack.frame, ack.step, client, server, out)
}

/// The digests of an acknowledged frame that has them, of the client's state and of the server's.
pub(crate) fn digests(ack: &Acked) -> (&[u8; 32], &[u8; 32])
    requires { HasDigests ack.now }
    ensures client { ack.now.client ≡ Some result.0.now }
    ensures server { ack.now.server ≡ Some result.1.now }
{
    match (&ack.client, &ack.server) {
        (Some(client), Some(server)) => (client, server),
        _ => unreachable!(),
    }
}
