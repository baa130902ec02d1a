//! What either end keeps from stream to stream.
ghost use Rattle.std.specs.Prelude.{◌≡◌, Ok, ◌≤◌, ◌+◌, ◌*◌, length, IfOk, OnErr, IsTrue};
ghost use Rattle.gfx_base.specs.Geometry.{lies_in, width_of, height_of};
ghost use Rattle.gfx_base.specs.Outcome.{Applies, WantsOnlyIf};
ghost use Rattle.gfx_clear_store.specs.Rings.{AreRings, with_mark};
ghost use Rattle.gfx_clear.specs.Begun.{is_begun};
ghost use Rattle.gfx_clear.specs.Clear.{rings_before};
ghost use Rattle.gfx_clear.specs.State.{fresh, without_sequence};
ghost use Rattle.gfx_clear.specs.Painting.{scene, decoded};
ghost use Rattle.gfx_clear.specs.Sending.{MaySend, sent};
ghost use Rattle.gfx_clear.specs.Sending.{sends};

use crate::canvas::Canvas;
use crate::drawing::draw;
use crate::encoding::{encode_as, use_of};
use crate::head::read_head;
use crate::layer::Layer;
use crate::pixels::pixels_of;
use gfx_base::{Bytes, Fault, NoMemory, Rect, Rgb};
use gfx_clear_store::Store;
use gfx_glyph::Glyphs;
use gfx_surface::Surface;
use std::alloc::Global;
use std::marker::Model;

/// What a ClearCodec decoder keeps from stream to stream, and a server to send what that decodes. Contracts
/// see the rings, the glyphs and the sequence number that is expected.
#[derive(Drop)]
pub struct ClearState {
    alloc: Global,
    store: Store,
    glyphs: Glyphs,
    /// None where any sequence number may come.
    expected: Option<u8>,
    /// Contracts don't see it.
    canvas: Canvas,
}

impl Model for ClearState {
    ghost use Rattle.gfx_clear_store.specs.Rings.{AreRings, with_mark};
    ghost use Rattle.gfx_clear.specs.Clear.{rings_before};
    ghost use Rattle.gfx_clear.specs.State.{ClearState};

    ghost Value = { ClearState };

    ghost use Rattle.gfx_clear.specs.Inside.{state_of};

    ghost view = { state_of };
}

impl ClearState {
    /// The state before the first stream. It takes all the room of the rings.
    pub fn new(alloc: Global) -> Result<ClearState, NoMemory>
        ensures { IfOk result (λ state. state ≡ fresh) }
    {
        let store = Store::new(alloc)?;
        let glyphs = Glyphs::new(alloc)?;
        Ok(ClearState {
            alloc,
            store,
            glyphs,
            expected: None,
            canvas: Canvas::new(alloc),
        })
    }

    /// The rings.
    pub fn store(&self) -> &Store
        ensures { result.now.held ≡ self.now.rings }
    {
        &self.store
    }

    /// The glyphs.
    pub fn glyphs(&self) -> &Glyphs
        ensures { result.now ≡ self.now.glyphs }
    {
        &self.glyphs
    }

    /// The places of the bars and of the shorts that are written next.
    pub fn cursors(&self) -> (u16, u16)
        ensures bars { result.0 ≡ self.now.rings.bars.cursor }
        ensures shorts { result.1 ≡ self.now.rings.shorts.cursor }
        ensures held { AreRings self.now.rings }
    {
        self.store.cursors()
    }

    /// Any sequence number may come next.
    pub fn forget_sequence(&mut self)
        ensures { self.new ≡ without_sequence self.old }
    {
        self.expected = None;
    }

    /// Decodes a stream into a rectangle of a surface. Any fault leaves state and surface as they were. Memory is
    /// wanting only where the head is accepted, and right behind it the sizes of the three parts, or the glyph that
    /// is shown: until then none is taken.
    pub fn decode(&mut self, surface: &mut Surface, rect: Rect, stream: &[u8]) -> Result<(), Fault>
        requires { IsTrue (lies_in surface.old.width surface.old.height rect) }
        ensures decoded { Applies result (scene self.old surface.old) (scene self.new surface.new) (decoded (scene self.old surface.old) rect stream.now) }
        ensures memory { WantsOnlyIf result (is_begun self.old (width_of rect) (height_of rect) stream.now) }
    {
        let area = u32::from(rect.width()) * u32::from(rect.height());
        let (head, rest) = match read_head(self.expected, area, stream) {
            Ok(read) => read,
            Err(refusal) => return Err(Fault::Refused(refusal)),
        };
        begin(&mut self.store, head.reset);
        let (store, glyphs) = (&mut self.store, &mut self.glyphs);
        let canvas = &mut self.canvas;
        match draw(
            self.alloc, canvas, store, glyphs, surface, rect, head.glyph, rest,
        ) {
            Ok(()) => {
                self.expected = Some(head.sequence.wrapping_add(1));
                Ok(())
            }
            Err(fault) => {
                self.store.roll_back();
                Err(fault)
            }
        }
    }

    /// The stream of a picture, by a layer, and by an index where there is one. The state goes on as it does
    /// where that is decoded; without memory it stays as it was.
    pub fn encode(
        &mut self,
        pixels: &[Rgb],
        width: u16,
        height: u16,
        layer: Layer,
        glyph: Option<u16>,
    ) -> Result<Bytes, NoMemory>
        requires { MaySend width height pixels.now glyph }
        ensures ok { IfOk result (λ bytes. sends bytes self.new ≡ sent self.old layer glyph width height pixels.now) }
        ensures err { OnErr result (self.new ≡ self.old) }
        ensures small { IfOk result (λ bytes. length bytes ≤ 5 * length pixels.now + 20000) }
    {
        let sequence = self.expected.unwrap_or(0);
        let form = use_of(&self.glyphs, glyph, width, height, pixels);
        self.store.mark();
        let (store, glyphs) = (&mut self.store, &mut self.glyphs);
        match encode_as(
            self.alloc, store, glyphs, sequence, form, layer, pixels, width, height,
        ) {
            Ok(bytes) => {
                self.expected = Some(sequence.wrapping_add(1));
                Ok(bytes)
            }
            Err(fault) => {
                self.store.roll_back();
                Err(fault)
            }
        }
    }

    /// The same, and the picture is painted in a rectangle of the sender's own surface: state and surface are
    /// then what decoding the stream there makes of them. Without memory both stay as they were.
    pub fn send(
        &mut self,
        surface: &mut Surface,
        rect: Rect,
        pixels: &[Rgb],
        layer: Layer,
        glyph: Option<u16>,
    ) -> Result<Bytes, NoMemory>
        requires inside { IsTrue (lies_in surface.old.width surface.old.height rect) }
        requires picture { MaySend (width_of rect) (height_of rect) pixels.now glyph }
        ensures sent { IfOk result (λ bytes. sends bytes self.new ≡ sent self.old layer glyph (width_of rect) (height_of rect) pixels.now) }
        ensures step { IfOk result (λ bytes. decoded (scene self.old surface.old) rect bytes ≡ Ok (scene self.new surface.new)) }
        ensures state { OnErr result (self.new ≡ self.old) }
        ensures surface { OnErr result (surface.new ≡ surface.old) }
        ensures small { IfOk result (λ bytes. length bytes ≤ 5 * length pixels.now + 20000) }
    {
        // What they promise of the state is what makes the stream be decoded to this state and this picture.
        let _ = self.cursors();
        let shown = pixels_of(self.alloc, pixels)?;
        let bytes = self.encode(pixels, rect.width(), rect.height(), layer, glyph)?;
        surface.put(rect, &shown);
        Ok(bytes)
    }
}

/// Marks the rings, and sees to it that they are written from their start on where that is asked for.
fn begin(store: &mut Store, reset: bool)
    ensures { store.new ≡ with_mark (rings_before reset store.old.held) store.old.held }
{
    store.mark();
    if reset {
        store.reset_cursors();
    }
}
