//! What the client of a session makes of its bytes.
ghost use Rattle.std.specs.Prelude.{◌≡◌, ℕ, List, None, Ok, OnOk, IfOk};
ghost use Rattle.gfx_client.specs.Client.{cursor_of, closed_by, offers_of, StepsOpen};
ghost use Rattle.gfx_client.specs.declared.fault.ClientFault.TheVariants.{Memory};
ghost use Rattle.gfx_client.specs.Standing.{HasBroughtFrom, BringsOpen, IsDrained};
ghost use Rattle.gfx_state.specs.Cursor.{settled};
ghost use Rattle.gfx_state.specs.History.{Effect};
ghost use Rattle.gfx_state.specs.State.{State};
ghost use Rattle.gfx_session.specs.Drawing.{drawn_by, TakesBytes, Draws};
ghost use Rattle.gfx_session.specs.Kept.{digest_in, noted};

use crate::digests::Digests;
use crate::queue::Queue;
use gfx_base::{Bytes, NoMemory};
use gfx_client::{Client, ClientFault, Stepped};
use gfx_report::digest;
use std::collections::VecDeque;

/// What a step of a client is to its session.
#[derive(Drop)]
pub(crate) enum Drawn {
    /// No whole message is there.
    Nothing,
    /// A message that ends no frame.
    Message,
    /// The end of a frame, and what the client says of it.
    Frame(Bytes),
}

/// The client takes bytes.
pub(crate) fn take_bytes(client: &mut Client, piece: &[u8]) -> Result<(), NoMemory>
    requires { closed_by client.old ≡ None }
    ensures { OnOk result (TakesBytes client.old client.new piece.now) }
{
    match client.take(piece) {
        Ok(()) => Ok(()),
        Err(ClientFault::Memory) => Err(NoMemory),
        Err(_) => unreachable!(),
    }
}

/// The client draws all messages that are whole. What it says of each frame is put up, and what is kept of
/// its state right after the frame is noted.
pub(crate) fn draw_all(
    client: &mut Client,
    up: &mut Queue,
    drawn: &mut VecDeque<Option<[u8; 32]>>,
    digests: Digests,
) -> Result<(), NoMemory>
    requires open { closed_by client.old ≡ None }
    requires good { (settled (cursor_of client.old)).refusal ≡ None }
    ensures run { OnOk result (settled (cursor_of client.new) ≡ settled (cursor_of client.old)) }
    ensures drained { OnOk result (IsDrained client.new) }
    ensures draws { OnOk result (Draws digests client.old client.new up.old up.new drawn.old.items drawn.new.items) }
    ensures offers { offers_of client.new ≡ offers_of client.old }
{
    'steps: loop {
        let stepped = next_step(client)?;
        match drawn_by(stepped) {
            Drawn::Nothing => return Ok(()),
            Drawn::Message => {}
            Drawn::Frame(reply) => {
                up.put(reply)?;
                let state = noted_of(client, digests);
                drawn.push_back(state)?;
            }
        }
    }
}

/// What a step is to a session. Its message is let go.
fn drawn_by(stepped: Stepped) -> Drawn
    ensures { result ≡ drawn_by stepped }
{
    match stepped {
        Stepped::Need => Drawn::Nothing,
        Stepped::Applied { .. } => Drawn::Message,
        Stepped::Ended { reply, .. } => Drawn::Frame(reply),
    }
}

/// The next step of a client that will not refuse.
fn next_step(client: &mut Client) -> Result<Stepped, NoMemory>
    requires open { closed_by client.old ≡ None }
    requires good { (settled (cursor_of client.old)).refusal ≡ None }
    ensures steps { IfOk result (λ stepped. StepsOpen (Ok stepped) client.old client.new) }
    ensures brings { IfOk result (λ stepped. (start : State) (bytes : List ℕ) (all : List Effect) → HasBroughtFrom start client.old bytes all → BringsOpen start (Ok stepped) client.new bytes all) }
    ensures offers { offers_of client.new ≡ offers_of client.old }
{
    match client.step() {
        Ok(stepped) => Ok(stepped),
        Err(fault) => Err(only_memory(fault)),
    }
}

fn only_memory(fault: ClientFault) -> NoMemory
    requires { fault ≡ Memory }
{
    match fault {
        ClientFault::Memory => NoMemory,
        _ => unreachable!(),
    }
}

/// What is kept of what a client has drawn: its digest, where digests are on.
fn noted_of(client: &Client, digests: Digests) -> Option<[u8; 32]>
    ensures { result ≡ noted digests (cursor_of client.now).state }
{
    match digests {
        Digests::Off => None,
        Digests::On => Some(digest_of(client)),
    }
}

/// The digest of what a client has drawn.
#[tactic(auto, unfolding(gfx_report::specs::StateBytes::digest_of))]
fn digest_of(client: &Client) -> [u8; 32]
    ensures { result ≡ digest_in (cursor_of client.now).state }
{
    digest(client.surfaces(), client.cache(), client.clear())
}
