//! Sending messages: the one place that knows their bytes and what they do to the state.
ghost use Rattle.std.specs.Prelude.{◌≡◌, [], ◌∷◌, ◌++◌, IsOk, IsTrue, IfOk, IfSome, IsSomeAnd, OnOk, OnErr};
ghost use Rattle.std.specs.FinMap.{get};
ghost use Rattle.gfx_base.specs.Geometry.{width_of, height_of, lies_in};
ghost use Rattle.gfx_clear.specs.Sending.{MaySend as MaySendStream};
ghost use Rattle.gfx_pdu.specs.Spelling.{spelling};
ghost use Rattle.gfx_segment.specs.Framing.{wrapped};
ghost use Rattle.gfx_state.specs.Sending.{IsCarried};
ghost use Rattle.gfx_state.specs.State.{started};
ghost use Rattle.gfx_state.specs.Step.{step};
ghost use Rattle.gfx_planner.specs.Planned.{MaySend, SendsMessages};
ghost use Rattle.gfx_planner.specs.ClearPaints.{clear_message};

use gfx_base::{Bytes, Fault, NoMemory, Rect, Rgb};
use gfx_bitmap_cache::Cache;
use gfx_clear::Layer;
use gfx_pdu::{Codec, Pdu, write_front};
use gfx_segment::wrap_joined;
use gfx_state::State;
use std::alloc::Global;
use std::marker::Model;

/// The server's own state, to which each message is applied that is sent. Contracts see the state.
#[derive(Drop)]
pub struct Sender {
    alloc: Global,
    state: State,
    /// The message that is put out, all but its data.
    front: Bytes,
}

impl Model for Sender {
    ghost use Rattle.gfx_state.specs.Codes.{state_code};
    ghost use Rattle.gfx_state.specs.State.{State};

    ghost Value = { State };

    ghost coded = { state_code };

    ghost view = { λ s. s.state };
}

impl Sender {
    /// A sender that has sent nothing. The small limits on bitmaps bind it, or the large ones.
    pub fn new(alloc: Global, small: bool) -> Result<Sender, NoMemory>
        ensures { IfOk result (λ sender. sender ≡ started small) }
    {
        let state = State::new(alloc, small)?;
        Ok(Sender {
            alloc,
            state,
            front: Bytes::new(alloc),
        })
    }

    /// The state that the messages so far give.
    pub fn state(&self) -> &State
        ensures { result.now ≡ self.now }
    {
        &self.state
    }

    /// The bitmaps that a session begins with take the place of those that were held.
    pub fn put_cache(&mut self, cache: Cache)
        ensures { self.new ≡ record self.old { cache = cache } }
    {
        self.state.put_cache(cache);
    }

    /// Puts out messages, one after another, each in a channel message of its own, and applies them.
    pub fn send(&mut self, pdus: &[Pdu], out: &mut Bytes) -> Result<(), NoMemory>
        requires { MaySend self.old pdus.now }
        ensures { SendsMessages result self.old self.new out.old out.new pdus.now }
    {
        'pdus: for pdu in pdus {
            self.send_one(pdu, out)?;
        }
        Ok(())
    }

    /// The same of one message.
    pub fn send_one(&mut self, pdu: &Pdu, out: &mut Bytes) -> Result<(), NoMemory>
        requires carried { IsCarried pdu.now }
        requires accepted { IsOk (step self.old pdu.now) }
        ensures { SendsMessages result self.old self.new out.old out.new (pdu.now ∷ []) }
    {
        self.put_out(pdu, out)?;
        match self.state.apply(self.alloc, pdu) {
            Ok(()) => Ok(()),
            Err(Fault::Memory) => Err(NoMemory),
            Err(Fault::Refused(_)) => unreachable!(),
        }
    }

    /// Paints a picture in a rectangle of a surface by a layer of ClearCodec, and puts out the message that has
    /// the state of a client do so.
    pub fn paint_clear(
        &mut self,
        id: u16,
        rect: Rect,
        pixels: &[Rgb],
        layer: Layer,
        glyph: Option<u16>,
        out: &mut Bytes,
    ) -> Result<(), NoMemory>
        requires there { IsSomeAnd (get self.old.shown.surfaces id) (λ surface. IsTrue (lies_in surface.width surface.height rect)) }
        requires picture { MaySendStream (width_of rect) (height_of rect) pixels.now glyph }
        requires carried { IfSome (get self.old.shown.surfaces id) (λ surface. IsCarried (clear_message self.old id surface.format rect pixels.now layer glyph)) }
        ensures { IfSome (get self.old.shown.surfaces id) (λ surface. SendsMessages result self.old self.new out.old out.new
            (clear_message self.old id surface.format rect pixels.now layer glyph ∷ [])) }
    {
        let Some(surface) = self.state.surfaces().get(id) else {
            unreachable!()
        };
        let format = surface.format().byte();
        let payload = self.state.paint_clear(id, rect, pixels, layer, glyph)?;
        let pdu = Pdu::WireToSurface1 {
            surface: id,
            codec: Codec::ClearCodec.id(),
            format,
            rect,
            payload,
        };
        self.put_out(&pdu, out)
    }

    /// Puts out a message in a channel message of its own; its data are copied once, from where they lie. The
    /// state stays as it is.
    fn put_out(&mut self, pdu: &Pdu, out: &mut Bytes) -> Result<(), NoMemory>
        requires { IsCarried pdu.now }
        ensures state { self.new ≡ self.old }
        ensures ok { OnOk result (out.new ≡ out.old ++ wrapped (spelling pdu.now)) }
        ensures err { OnErr result (out.new ≡ out.old) }
    {
        self.front.truncate(0);
        let lent = write_front(pdu, &mut self.front)?;
        wrap_joined(self.front.as_slice(), lent, out)
    }
}
