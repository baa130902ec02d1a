//! The client, and what each command has it do.

use crate::answers::{Answer, Said, Wrong};
use crate::offers::{read_offers, usual_offers};
use crate::written::Written;
use gfx_base::{Cause, NoMemory, Rect};
use gfx_client::{Client, ClientFault, Stepped};
use gfx_layout::{Fields, Stop};
use std::alloc::Global;

/// A client in a living session, and what its frames have written since that was asked for.
#[derive(Drop)]
pub struct Viewer {
    alloc: Global,
    client: Client,
    written: Written,
    begun: bool,
    /// Why no message is taken any more.
    closed: Option<ClientFault>,
}

impl Viewer {
    /// A client that offers the usual versions.
    pub fn new(alloc: Global) -> Result<Viewer, NoMemory> {
        let offers = usual_offers(alloc)?;
        let client = Client::living(alloc, offers)?;
        Ok(Viewer {
            alloc,
            client,
            written: Written::new(alloc),
            begun: false,
            closed: None,
        })
    }

    /// Offers these versions in place of the usual ones, as long as nothing was said or taken.
    pub fn offer(&mut self, body: &[u8]) -> Answer {
        if self.begun {
            return Answer::Untimely;
        }
        match read_offers(self.alloc, body) {
            Ok(offers) => match Client::living(self.alloc, offers) {
                Ok(client) => {
                    self.client = client;
                    Answer::Done
                }
                Err(_) => Answer::NoMemory,
            },
            Err(fault) => fault.into(),
        }
    }

    /// Says what a client says first.
    pub fn hello(&mut self, said: &mut Said) -> Answer {
        self.begun = true;
        match self.put_hello(said) {
            Ok(()) => Answer::Taken,
            Err(_) => Answer::NoMemory,
        }
    }

    fn put_hello(&self, said: &mut Said) -> Result<(), NoMemory> {
        let hello = self.client.hello()?;
        said.out.append(hello.as_slice())
    }

    /// Takes a channel message, and draws all that is whole. Behind a fault none is taken: also where the client itself
    /// has none, since then a frame has ended that isn't told.
    pub fn take(&mut self, message: &[u8], said: &mut Said) -> Answer {
        self.begun = true;
        if let Some(fault) = self.closed {
            return Answer::Refused(fault);
        }
        match self.draw(message, said) {
            Ok(()) => Answer::Taken,
            Err(fault) => {
                said.clear();
                self.closed = Some(fault);
                Answer::Refused(fault)
            }
        }
    }

    fn draw(&mut self, message: &[u8], said: &mut Said) -> Result<(), ClientFault> {
        self.client.take_whole(message)?;
        'messages: for _ in 0..u64::MAX {
            match self.client.step()? {
                Stepped::Applied { .. } => {}
                Stepped::Ended { frame, reply, .. } => {
                    if self.end_frame(frame, reply.as_slice(), said).is_err() {
                        return Err(ClientFault::Memory);
                    }
                }
                Stepped::Need => break,
            }
        }
        Ok(())
    }

    /// Says that a frame has ended, and notes what it has written.
    fn end_frame(&mut self, frame: u32, reply: &[u8], said: &mut Said) -> Result<(), NoMemory> {
        self.written.note(&self.client)?;
        said.out.append(reply)?;
        if said.frames.push(frame).is_err() {
            return Err(NoMemory);
        }
        Ok(())
    }

    /// Says what was written since this was asked for.
    pub fn written(&mut self, said: &mut Said) -> Answer {
        let output = self.client.surfaces().output_size();
        if self.written.put(output, &mut said.inner).is_err() {
            said.clear();
            return Answer::NoMemory;
        }
        self.written.clear();
        Answer::Written
    }

    /// Says how a rectangle of the output looks.
    pub fn picture(&self, body: &[u8], said: &mut Said) -> Answer {
        let Ok(rect) = read_rect(body) else {
            return Answer::Wrong(Wrong::Key);
        };
        let surfaces = self.client.surfaces();
        match surfaces.compose_rect(self.alloc, rect, &mut said.out) {
            Ok(()) => Answer::Picture,
            Err(Cause::Refused(_)) => Answer::Wrong(Wrong::RectOutside),
            Err(Cause::Memory) => Answer::NoMemory,
        }
    }
}

/// Reads a rectangle that is all of a body.
fn read_rect(body: &[u8]) -> Result<Rect, Stop> {
    let mut fields = Fields::new(body);
    let rect = fields.one()?;
    fields.end()?;
    Ok(rect)
}
