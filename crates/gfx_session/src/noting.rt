//! The acknowledgements that a session notes.
ghost use Rattle.std.specs.Prelude.{◌≡◌, ◌++◌, ◌∷◌, [], false, None, length, drop, Ok, OnOk};
ghost use Rattle.gfx_script.specs.Checks.{Held};
ghost use Rattle.gfx_session.specs.Kept.{IsServerEndFrom, PlansAsBefore};
ghost use Rattle.gfx_session.specs.declared.server_end.ServerFault.TheVariants.{Memory};
ghost use Rattle.gfx_session.specs.Noting.{ListensOpen, WillHear, paired};

use crate::acked::{Acked, Acks};
use crate::server_end::{ServerEnd, ServerFault, ShownFrame};
use gfx_base::{Bytes, NoMemory};
use std::collections::VecDeque;

/// The server's end takes bytes that it will not refuse.
pub(crate) fn hear_bytes(
    server: &mut ServerEnd,
    piece: &[u8],
    out: &mut Bytes,
    taken: &mut Vec<ShownFrame>,
) -> Result<(), NoMemory>
    requires { WillHear server.old piece.now }
    ensures plans { OnOk result (PlansAsBefore server.old server.new) }
    ensures script { server.new.script ≡ server.old.script }
    ensures hears { OnOk result (ListensOpen (Ok tt) server.old server.new out.old out.new taken.old.items taken.new.items piece.now) }
    ensures is { (held : Held) → IsServerEndFrom held server.old → IsServerEndFrom held server.new }
{
    match server.listen(piece, out, taken) {
        Ok(()) => Ok(()),
        Err(fault) => Err(only_memory(fault)),
    }
}

fn only_memory(fault: ServerFault) -> NoMemory
    requires { fault ≡ Memory }
{
    match fault {
        ServerFault::Memory => NoMemory,
        _ => unreachable!(),
    }
}

/// Notes the frames that were acknowledged, each with the oldest of what was noted of the client.
pub(crate) fn note_all(
    taken: &[ShownFrame],
    drawn: &mut VecDeque<Option<[u8; 32]>>,
    acks: &mut Acks,
) -> Result<(), NoMemory>
    ensures acks { OnOk result (acks.new ≡ acks.old ++ paired taken.now drawn.old.items) }
    ensures drawn { OnOk result (drawn.new.items ≡ drop (length taken.now) drawn.old.items) }
{
    'frames: for one in taken {
        note_one(one, drawn, acks)?;
    }
    Ok(())
}

/// Notes a frame that was acknowledged, if one was drawn.
fn note_one(
    one: &ShownFrame,
    drawn: &mut VecDeque<Option<[u8; 32]>>,
    acks: &mut Acks,
) -> Result<(), NoMemory>
    ensures acks { OnOk result (acks.new ≡ acks.old ++ paired (one.now ∷ []) drawn.old.items) }
    ensures drawn { OnOk result (drawn.new.items ≡ drop 1 drawn.old.items) }
{
    let Some(client) = drawn.pop_front() else {
        return Ok(());
    };
    acks.push(Acked {
        frame: one.frame,
        step: one.step,
        client,
        server: one.digest,
    })
}
