//! What the server's end makes of its client's messages.

ghost use Rattle.std.specs.Prelude.{◌≡◌, ℕ, ◌++◌, ◌∷◌, [], ◌+◌, ◌≤◌, List, drop, length, false, not, ◌&&◌, OnOk, OnErr};
ghost use Rattle.gfx_caps.specs.Choice.{binds_small, choice};
ghost use Rattle.gfx_caps.specs.Reading.{client_of};
ghost use Rattle.gfx_import.specs.Messages.{reply_text};
ghost use Rattle.gfx_schedule.specs.Hearing.{confirm, confirms, acknowledges, declines, told};
ghost use Rattle.gfx_segment.specs.Framing.{wrapped};
ghost use Rattle.gfx_state.specs.Sending.{sent};
ghost use Rattle.gfx_window.specs.Window.{acknowledged, watched};
ghost use Rattle.gfx_session.specs.declared.server_end.listening.ShownFrame.{ShownFrame};
ghost use Rattle.gfx_script.specs.Checks.{Held};
ghost use Rattle.gfx_session.specs.Kept.{IsServerEndFrom};
ghost use Rattle.gfx_session.specs.Listening.{LeavesPlan, Obeys, Hears, told_of};
ghost use Rattle.gfx_session.specs.Noting.{Listens, taken_of};
ghost use Rattle.gfx_session.specs.Taking.{Takes, is_want_of_memory};

use super::{ServerEnd, ServerFault};
use gfx_base::{Bytes, Fault, NoMemory, Refusal};
use gfx_caps::{CapsSets, Chosen, ClientPdu, choose_version, read_client, small_cache};
use gfx_import::write_reply;
use gfx_pdu::{Pdu, write_pdu};
use gfx_segment::wrap;
use gfx_window::AckUnknown;
use std::alloc::{AllocFailed, Global};

/// A frame that the client has shown: its acknowledgement was taken.
#[derive(Clone, Copy, Debug, PartialEq, Eq)]
pub struct ShownFrame {
    pub frame: u32,
    /// The number of the last step that was queued when it was sent, counted from 1.
    pub step: u32,
    /// The digest of the server's state right after it, where digests are made.
    pub digest: Option<[u8; 32]>,
}

impl From<NoMemory> for ServerFault {
    ghost use Rattle.gfx_session.specs.declared.server_end.ServerFault.TheVariants.{Memory};

    ghost from_gives = { λ _ e. e ≡ Memory };

    fn from(_e: NoMemory) -> ServerFault {
        ServerFault::Memory
    }
}

impl<T: Drop> From<AllocFailed<T>> for ServerFault {
    ghost use Rattle.gfx_session.specs.declared.server_end.ServerFault.TheVariants.{Memory};

    ghost from_gives = { λ _ e. e ≡ Memory };

    fn from(_e: AllocFailed<T>) -> ServerFault {
        ServerFault::Memory
    }
}

impl From<Refusal> for ServerFault {
    ghost use Rattle.gfx_session.specs.declared.server_end.ServerFault.TheVariants.{Refused};

    ghost from_gives = { λ r e. e ≡ Refused r };

    fn from(refusal: Refusal) -> ServerFault {
        ServerFault::Refused(refusal)
    }
}

impl From<Fault> for ServerFault {
    ghost use Rattle.gfx_session.specs.Taking.{fault_of};

    ghost from_gives = { λ f e. e ≡ fault_of f };

    fn from(fault: Fault) -> ServerFault {
        match fault {
            Fault::Refused(refusal) => ServerFault::Refused(refusal),
            Fault::Memory => ServerFault::Memory,
        }
    }
}

impl From<AckUnknown> for ServerFault {
    ghost use Rattle.gfx_session.specs.declared.server_end.ServerFault.TheVariants.{Ack};

    ghost from_gives = { λ u e. e ≡ Ack u };

    fn from(unknown: AckUnknown) -> ServerFault {
        ServerFault::Ack(unknown)
    }
}

impl ServerEnd {
    /// Takes the next bytes of the client, cut anywhere, and puts out what is answered to them; tells how
    /// many frames in flight were acknowledged. The first fault closes the server's end, which then takes
    /// nothing; where memory ran out, what is answered to a whole number of messages was put out, and the server's end is
    /// spent besides: `serve` sends nothing more.
    pub fn take(&mut self, piece: &[u8], out: &mut Bytes) -> Result<u32, ServerFault>
        ensures takes { Takes self.old.closed result self.old self.new out.old out.new piece.now }
        ensures is { (held : Held) → IsServerEndFrom held self.old → IsServerEndFrom held self.new }
    {
        // At most 255, so that the count fits.
        let most = self.window.in_flight();
        let mut taken = Vec::new(self.alloc);
        self.listen(piece, out, &mut taken)?;
        Ok(taken.len().min(most) as u32)
    }

    /// The same, and notes those frames.
    pub(crate) fn listen(
        &mut self,
        piece: &[u8],
        out: &mut Bytes,
        taken: &mut Vec<ShownFrame>,
    ) -> Result<(), ServerFault>
        ensures listens { Listens self.old.closed result self.old self.new out.old out.new taken.old.items taken.new.items piece.now }
        ensures is { (held : Held) → IsServerEndFrom held self.old → IsServerEndFrom held self.new }
        ensures few { length taken.new.items + length self.new.window.flying ≤ length taken.old.items + length self.old.window.flying }
    {
        if self.closed {
            return Err(ServerFault::Closed);
        }
        match self.hear(piece, out, taken) {
            Ok(()) => Ok(()),
            Err(fault) => {
                self.closed = true;
                self.spent = is_want_of_memory(fault) | self.spent;
                Err(fault)
            }
        }
    }

    /// The same of one that isn't closed, and which isn't closed by it.
    fn hear(
        &mut self,
        piece: &[u8],
        out: &mut Bytes,
        taken: &mut Vec<ShownFrame>,
    ) -> Result<(), ServerFault>
        requires { self.old.closed ≡ false }
        ensures hears { Hears result self.old self.new out.old out.new taken.old.items taken.new.items piece.now }
        ensures plan { LeavesPlan self.old self.new taken.old.items taken.new.items }
        ensures open { self.new.closed ≡ self.old.closed }
    {
        self.splitter.feed(piece)?;
        'messages: loop {
            let Some(message) = self.splitter.next_raw()? else {
                return Ok(());
            };
            self.obey(message.as_slice(), out, taken)?;
        }
    }

    /// Does what a message says.
    fn obey(
        &mut self,
        message: &[u8],
        out: &mut Bytes,
        taken: &mut Vec<ShownFrame>,
    ) -> Result<(), ServerFault>
        ensures obeys { Obeys result self.old self.new out.old out.new taken.old.items taken.new.items (λ heard. told self.old.script heard (client_of message.now)) }
        ensures plan { LeavesPlan self.old self.new taken.old.items taken.new.items }
        ensures open { self.new.closed ≡ self.old.closed }
        ensures held { self.new.splitter ≡ self.old.splitter }
    {
        match read_client(self.alloc, message)? {
            ClientPdu::Advertise { sets } => self.confirm(&sets, out),
            ClientPdu::Ack { depth, frame, .. } => self.acknowledge(depth, frame, taken),
            ClientPdu::ImportOffer { .. } => self.decline(out),
            ClientPdu::QoeAck { .. } => Ok(()),
        }
    }

    /// Chooses a version of these sets, and confirms it.
    fn confirm(&mut self, sets: &CapsSets, out: &mut Bytes) -> Result<(), ServerFault>
        ensures obeys { (has : List ShownFrame) → Obeys result self.old self.new out.old out.new has has (λ heard. confirms self.old.script heard (choice sets.now)) }
        ensures plan { (has : List ShownFrame) → LeavesPlan self.old self.new has has }
        ensures open { self.new.closed ≡ self.old.closed }
        ensures held { self.new.splitter ≡ self.old.splitter }
    {
        let chosen = choose_version(sets)?;
        if self.is_too_small(chosen) {
            return Err(ServerFault::Refused(Refusal::CapsVersion));
        }
        put_confirmation(self.alloc, chosen, out)?;
        self.confirmed = true;
        Ok(())
    }

    /// Whether a version binds its client to the small limits on bitmaps, which don't bind the script's own client.
    fn is_too_small(&self, chosen: Chosen) -> bool
        ensures { result ≡ (binds_small chosen.flags && not self.now.script.small) }
    {
        small_cache(chosen) && !self.script.small()
    }

    /// Answers an offer of kept bitmaps by a reply that takes none of them. PduUnknown where no version is confirmed.
    fn decline(&self, out: &mut Bytes) -> Result<(), ServerFault>
        ensures { (has : List ShownFrame) → Obeys result self.now self.now out.old out.new has has (λ heard. declines heard heard.end.confirmed) }
    {
        if !self.confirmed {
            return Err(ServerFault::Refused(Refusal::PduUnknown));
        }
        put_empty_reply(self.alloc, out)?;
        Ok(())
    }

    /// Takes the acknowledgement of a frame at this depth.
    fn acknowledge(
        &mut self,
        depth: u32,
        frame: u32,
        taken: &mut Vec<ShownFrame>,
    ) -> Result<(), ServerFault>
        ensures obeys { (now : List ℕ) → Obeys result self.old self.new now now taken.old.items taken.new.items
            (λ heard. acknowledges heard frame (acknowledged heard.end.window heard.end.window.flying depth frame)) }
        ensures plan { LeavesPlan self.old self.new taken.old.items taken.new.items }
        ensures open { self.new.closed ≡ self.old.closed }
        ensures held { self.new.splitter ≡ self.old.splitter }
    {
        let step = self.window.acknowledge(depth, frame)?;
        self.note_shown(frame, step, taken)?;
        self.keep_watched();
        Ok(())
    }

    /// Notes a frame that was in flight, with its recorded step, and keeps nothing more for it. One that went
    /// unwatched has no step, and isn't noted.
    fn note_shown(
        &mut self,
        frame: u32,
        step: Option<u32>,
        taken: &mut Vec<ShownFrame>,
    ) -> Result<(), NoMemory>
        ensures noted { OnOk result (taken.new.items ≡ taken.old.items ++ taken_of (told_of frame step) self.old.ends.items) }
        ensures left { OnOk result (self.new.ends.items ≡ drop (length (told_of frame step)) self.old.ends.items) }
        ensures err { OnErr result (taken.new.items ≡ taken.old.items) }
        ensures alone { self.new ≡ record self.old { ends = self.new.ends } }
    {
        let Some(step) = step else {
            return Ok(());
        };
        if let Some(digest) = self.ends.pop_front() {
            taken.push(ShownFrame {
                frame,
                step,
                digest,
            })?;
        }
        Ok(())
    }

    /// Keeps nothing for frames while acknowledgements are suspended.
    fn keep_watched(&mut self)
        ensures ends { self.new.ends.items ≡ watched self.old.window.suspended self.old.ends.items }
        ensures alone { self.new ≡ record self.old { ends = self.new.ends } }
    {
        if self.window.is_suspended() {
            self.ends.clear();
        }
    }
}

/// Whether a fault is want of memory.
fn is_want_of_memory(fault: ServerFault) -> bool
    ensures { result ≡ is_want_of_memory fault }
{
    match fault {
        ServerFault::Memory => true,
        _ => false,
    }
}

/// Puts out the confirmation of a version, in a channel message of its own. Without memory nothing is put
/// out.
fn put_confirmation(alloc: Global, chosen: Chosen, out: &mut Bytes) -> Result<(), NoMemory>
    ensures ok { OnOk result (out.new ≡ out.old ++ sent (confirm chosen ∷ [])) }
    ensures err { OnErr result (out.new ≡ out.old) }
{
    let mut payload = Bytes::new(alloc);
    payload.append(&chosen.flags.to_le_bytes())?;
    let version = chosen.version;
    let mut message = Bytes::new(alloc);
    write_pdu(&Pdu::CapsConfirm { version, payload }, &mut message)?;
    wrap(message.as_slice(), out)
}

/// Puts out the reply that takes nothing of an offer, in a channel message of its own. Without memory nothing is put
/// out.
fn put_empty_reply(alloc: Global, out: &mut Bytes) -> Result<(), NoMemory>
    ensures ok { OnOk result (out.new ≡ out.old ++ wrapped (reply_text 0)) }
    ensures err { OnErr result (out.new ≡ out.old) }
{
    let mut message = Bytes::new(alloc);
    write_reply(0, &mut message)?;
    wrap(message.as_slice(), out)
}
