//! The command `trial`: the session of the script that a number stands for is played, and a line is written of its
//! last acknowledgement.
ghost use Rattle.std.specs.List.{AllByRecursion};
ghost use Rattle.gfx_base.specs.Stream.{Writes, change};
ghost use Rattle.gfx_chooser.specs.Seen.{seen};
ghost use Rattle.gfxpipe.specs.Outcome.{ended_of, session_of};
ghost use Rattle.gfxpipe.specs.Sessions.{HasDigests};
ghost use Rattle.gfxpipe.specs.Trials.{Tries, acks_trial};

use crate::ending::Ending;
use crate::outcome::Outcome;
use crate::script::read_text;
use crate::session::{digests, play};
use crate::trouble::Trouble;
use gfx_base::{Failed, Sink};
use gfx_chooser::Chooser;
use gfx_generator::make_script;
use gfx_report::write_trial;
use gfx_session::{Digests, Session};
use std::alloc::Global;

/// Plays the session of the script of a number, and writes how many frames were acknowledged, and the last of them.
pub(crate) fn trial<C: Chooser, O: Sink>(
    alloc: Global,
    number: u32,
    choosers: &mut Vec<C>,
    out: &mut O,
) -> Result<Outcome, Trouble>
    ensures { Tries (ended_of result) (session_of result) number (seen C.reply C.is_spent choosers.old.items) (seen C.reply C.is_spent choosers.new.items)
        (change (O.faults out.old) (O.faults out.new) (O.held out.old) (O.held out.new)) }
{
    let text = make_script(alloc, number)?;
    match read_text(alloc, text.as_slice())? {
        Ok(script) => {
            let begun = Session::new(alloc, script, Digests::On)?;
            let session = play(begun, choosers)?;
            match write_last(number, &session, out) {
                Ok(()) => Ok(Outcome {
                    ending: Ending::Done,
                    session: Some(session),
                }),
                Err(_) => {
                    session.let_go();
                    Err(Trouble::Write)
                }
            }
        }
        Err(ending) => Ok(Outcome {
            ending,
            session: None,
        }),
    }
}

/// Writes the line of the last acknowledged frame, if there is one.
fn write_last<O: Sink>(number: u32, session: &Session, out: &mut O) -> Result<(), Failed>
    requires { AllByRecursion HasDigests session.now.acks }
    ensures { Writes result (change (O.faults out.old) (O.faults out.new) (O.held out.old) (O.held out.new))
        (acks_trial number session.now.acks) }
{
    let acks = session.acks();
    match acks.as_slice().last() {
        None => Ok(()),
        Some(ack) => {
            let (client, server) = digests(ack);
            write_trial(number, acks.len(), ack.step, client, server, out)
        }
    }
}
