//! What comes before the server's end is there: its settings, and the first message of the client, by which it is
//! made.

ghost use Rattle.gfx_caps.specs.Offers.{IsOffer};
ghost use Rattle.gfx_script.specs.Heads.{offer_chosen};

use crate::answers::{Answer, Denial};
use crate::commands::{Command, MOST_BODY, command_of};
use crate::settings::Settings;
use gfx_base::{Bytes, Refusal};
use gfx_caps::{CapsSets, Chosen, ClientPdu, choose_version, read_client};
use gfx_script::{Flaw, Head, chosen_versions_are_offers};
use gfx_segment::Splitter;
use gfx_session::{Digests, ServerFault};
use gfx_window::AckUnknown;
use live_records::Record;
use std::alloc::Global;

/// The most bytes of a client that are held before its first message is whole.
const MOST_HELD: usize = MOST_BODY as usize;

/// What a record comes to before there is a server's end.
#[derive(Drop)]
pub enum Early {
    /// This is answered, and there is none yet.
    Answered(Answer),
    /// The client has said what it offers, and this is the head for it.
    Chose(Head),
}

/// What was said before there is a server's end.
#[derive(Drop)]
pub struct Opening {
    alloc: Global,
    settings: Settings,
    splitter: Splitter,
    held: Bytes,
    closed: bool,
}

impl Opening {
    /// Nothing was said yet.
    pub fn new(alloc: Global) -> Opening {
        Opening {
            alloc,
            settings: Settings::usual(),
            splitter: Splitter::new(alloc),
            held: Bytes::new(alloc),
            closed: false,
        }
    }

    /// All bytes of the client that came.
    pub fn held(&self) -> &[u8] {
        self.held.as_slice()
    }

    /// Whether acknowledged frames are told with their digests.
    pub fn digests(&self) -> Digests {
        self.settings.digests()
    }

    /// Does what a record says.
    pub fn obey(&mut self, record: Record<'_>) -> Early {
        match command_of(record) {
            Err(answer) => Early::Answered(answer),
            Ok(Command::Take) => self.take(record.body),
            Ok(Command::Settle) => Early::Answered(self.settle(record.body)),
            Ok(Command::WantsFrame | Command::ImproveIdle) => Early::Answered(Answer::Says(false)),
            Ok(Command::StepsBehind) => Early::Answered(Answer::Behind(0)),
            Ok(Command::Push(_) | Command::Paint | Command::Serve) => {
                Early::Answered(Answer::Untimely)
            }
        }
    }

    /// Takes nothing of the client any more.
    pub fn close(&mut self, denial: Denial) -> Answer {
        self.closed = true;
        Answer::Denied(denial)
    }

    /// Takes other settings, as long as no byte of the client came.
    fn settle(&mut self, body: &[u8]) -> Answer {
        if self.closed || !self.held.is_empty() {
            return Answer::Untimely;
        }
        match Settings::read(self.alloc, body) {
            Ok(settings) => {
                self.settings = settings;
                Answer::Done
            }
            Err(fault) => fault.into(),
        }
    }

    /// Takes the next bytes of the client.
    fn take(&mut self, piece: &[u8]) -> Early {
        match self.hear(piece) {
            Ok(None) => Early::Answered(Answer::Taken),
            Ok(Some(head)) => Early::Chose(head),
            Err(denial) => Early::Answered(self.close(denial)),
        }
    }

    /// Holds the next bytes of the client, and makes a head once its first message is whole.
    fn hear(&mut self, piece: &[u8]) -> Result<Option<Head>, Denial> {
        if self.closed {
            return Err(Denial::Fault(ServerFault::Closed));
        }
        if piece.len() > MOST_HELD - self.held.len().min(MOST_HELD) {
            return Err(Denial::TooLong);
        }
        match self.first_offers(piece) {
            Ok(None) => Ok(None),
            Ok(Some(sets)) => Ok(Some(self.head_for(&sets)?)),
            Err(fault) => Err(Denial::Fault(fault)),
        }
    }

    /// What the client offers first, once that message is whole. How long frames took it is passed over.
    fn first_offers(&mut self, piece: &[u8]) -> Result<Option<CapsSets>, ServerFault> {
        self.held.append(piece)?;
        self.splitter.feed(piece)?;
        'messages: loop {
            let Some(message) = self.splitter.next_raw()? else {
                return Ok(None);
            };
            match read_client(self.alloc, message.as_slice())? {
                ClientPdu::Advertise { sets } => return Ok(Some(sets)),
                ClientPdu::Ack { frame, .. } => {
                    return Err(ServerFault::Ack(AckUnknown {
                        id: frame,
                        oldest: None,
                    }));
                }
                ClientPdu::ImportOffer { .. } => {
                    return Err(ServerFault::Refused(Refusal::PduUnknown));
                }
                ClientPdu::QoeAck { .. } => {}
            }
        }
    }

    /// The head for a client that offers these versions.
    fn head_for(&self, sets: &CapsSets) -> Result<Head, Denial> {
        chosen_versions_are_offers();
        match choose_version(sets) {
            Ok(chosen) => self.head_chosen(chosen),
            Err(refusal) => Err(Denial::Fault(ServerFault::Refused(refusal))),
        }
    }

    /// The head for a client to which a version was confirmed.
    fn head_chosen(&self, chosen: Chosen) -> Result<Head, Denial>
        requires { IsOffer (offer_chosen chosen) }
    {
        match self.settings.head(self.alloc, chosen) {
            Ok(head) => Ok(head),
            Err(Flaw::Refused(kind)) => Err(Denial::Head(kind)),
            Err(Flaw::Memory) => Err(Denial::Fault(ServerFault::Memory)),
        }
    }
}
