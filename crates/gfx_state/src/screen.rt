ghost use Rattle.std.specs.Prelude.{◌≡◌, ℕ, ◌≤◌, ◌+◌, ◌*◌, ◌==◌, ◌||◌, false, None, Ok, Err, IfSome, IsSome, IsSomeAnd, IsTrue, IfOk, OnErr, is_ok, length};
ghost use Rattle.std.specs.FinMap as map;
ghost use Rattle.std.specs.List.{list_all};
ghost use Rattle.gfx_base.specs.Geometry.{lies_in, width_of, height_of};
ghost use Rattle.gfx_base.specs.Format.{format_of};
ghost use Rattle.gfx_base.specs.Outcome.{Applies, Performs, WantsOnlyIf};
ghost use Rattle.gfx_surface_map.specs.Shown.{surface_copied, output_mapped};
ghost use Rattle.gfx_bitmap_cache.specs.Slots.{evicted};
ghost use Rattle.gfx_clear.specs.Sending.{MaySend, sent};
ghost use Rattle.gfx_pdu.specs.declared.pdu.Pdu.TheVariants.{WireToSurface1};
ghost use Rattle.gfx_pdu.specs.declared.codec.Codec.{Codec as AnyCodec};
ghost use Rattle.gfx_pdu.specs.Borrowed.{pdu_of};
ghost use Rattle.gfx_pdu.specs.Codecs.{CLEAR_CODEC, PROGRESSIVE, VIDEO};
ghost use Rattle.gfx_state.specs.State.{started};
ghost use Rattle.gfx_state.specs.Memory.{takes_memory, may_take_memory};
ghost use Rattle.gfx_state.specs.Step.{step, showing, caching, frame_started, frame_ended, surface_created, rects_filled, bytes_painted, video_painted, stream_painted, data_painted, tiles_drawn, tiles_painted, context_deleted, surface_ended, rect_stored, slot_put, graphics_reset, caps_confirmed};

use crate::bitmaps::{bitmap_of, lies_on};
use crate::flags::{has_small_cache, is_confirmed};
use gfx_base::{
    BYTES_PER_PIXEL, Bytes, Fault, Format, NoMemory, Pixel, Point, Rect, Refusal, Rgb, all_lie_in,
};
use gfx_bitmap_cache::Cache;
use gfx_clear::{ClearState, Layer};
use gfx_pdu::{Codec, PROGRESSIVE, Pdu, PduRef};
use gfx_prog_decode::Records;
use gfx_rfx_video::VideoDecoder;
use gfx_surface_map::{SurfaceMap, fits_size};
use std::alloc::Global;
use std::marker::Model;

/// What the messages change: what is shown, the cache, what ClearCodec streams and progressive messages
/// left for later ones, the open frame and the count of frames. Contracts see the state. No surface has more pixels than there is
/// room to copy. The decoder of RemoteFX video, of which they see nothing, keeps memory for the next message.
#[derive(Drop)]
pub struct State {
    surfaces: SurfaceMap,
    cache: Cache,
    clear: ClearState,
    records: Records,
    video: VideoDecoder,
    frame: Option<u32>,
    decoded: u32,
}

impl Model for State {
    ghost use Rattle.gfx_state.specs.State.{State};
    ghost use Rattle.gfx_state.specs.Codes.{state_code};

    ghost Value = { State };

    ghost coded = { state_code };

    ghost view = { λ s. record { shown = s.surfaces.shown; cache = s.cache; clear = s.clear; records = s.records; frame = s.frame; decoded = s.decoded } };

    ghost use Rattle.gfx_surface_map.specs.Shown.{AllHaveRoom};

    ghost invariant = { λ s. AllHaveRoom s.surfaces };
}

impl State {
    /// The state at a start, where `small` says whether the small limits bind the stores: at the start
    /// of a stream they don't. It takes the room of the ClearCodec stores.
    pub fn new(alloc: Global, small: bool) -> Result<State, NoMemory>
        ensures { IfOk result (λ state. state ≡ started small) }
    {
        let clear = ClearState::new(alloc)?;
        let mut cache = Cache::new(alloc);
        cache.set_small(small);
        Ok(State {
            surfaces: SurfaceMap::new(alloc),
            cache,
            clear,
            records: Records::new(alloc),
            video: VideoDecoder::new(alloc),
            frame: None,
            decoded: 0,
        })
    }

    /// The surfaces as the messages so far have drawn them.
    pub fn surfaces(&self) -> &SurfaceMap
        ensures { result.now.shown ≡ self.now.shown }
    {
        &self.surfaces
    }

    /// The bitmaps as the messages so far have stored them.
    pub fn cache(&self) -> &Cache
        ensures { result.now ≡ self.now.cache }
    {
        &self.cache
    }

    /// What the ClearCodec streams so far have left for later ones.
    pub fn clear(&self) -> &ClearState
        ensures { result.now ≡ self.now.clear }
    {
        &self.clear
    }

    /// The records of tiles that the progressive messages so far have left for later ones.
    pub fn records(&self) -> &Records
        ensures { result.now ≡ self.now.records }
    {
        &self.records
    }

    /// The frame that has started and not ended.
    pub fn frame(&self) -> Option<u32>
        ensures { result ≡ self.now.frame }
    {
        self.frame
    }

    /// How many frames have ended, modulo 2^32.
    pub fn decoded(&self) -> u32
        ensures { result ≡ self.now.decoded }
    {
        self.decoded
    }

    /// The bitmaps that a session begins with take the place of those that were held ([MS-RDPEGFX] 3.2.5.13).
    pub fn put_cache(&mut self, cache: Cache)
        ensures { self.new ≡ record self.old { cache = cache } }
    {
        self.cache = cache;
    }

    /// Applies a message, or refuses it and changes nothing.
    #[tactic(auto, unfolding(crate::specs::Step::step))]
    pub fn apply(&mut self, alloc: Global, pdu: &Pdu) -> Result<(), Fault>
        ensures applies { Applies result self.old self.new (step self.old pdu.now) }
        ensures memory { WantsOnlyIf result (takes_memory self.old pdu.now) }
    {
        match pdu {
            Pdu::WireToSurface1 {
                surface,
                codec,
                format,
                rect,
                payload,
            } => self.paint_data(alloc, *surface, *codec, *format, *rect, payload.as_slice()),
            Pdu::WireToSurface2 {
                surface,
                codec,
                context,
                format,
                payload,
            } => self.paint_tiles(
                alloc,
                *surface,
                *codec,
                *context,
                *format,
                payload.as_slice(),
            ),
            Pdu::SurfaceToCache {
                surface,
                key,
                slot,
                rect,
            } => self.store_rect(alloc, *surface, *key, *slot, *rect),
            Pdu::CreateSurface {
                id,
                width,
                height,
                format,
            } => self.create_surface(alloc, *id, *width, *height, *format),
            Pdu::MapSurfaceToOutput { id, x, y, .. } => self.map_output(*id, *x, *y),
            _ => match self.perform(pdu) {
                Ok(()) => Ok(()),
                Err(refusal) => Err(Fault::Refused(refusal)),
            },
        }
    }

    /// The same of a message with borrowed data.
    #[tactic(auto, unfolding(crate::specs::Step::step))]
    pub fn apply_ref(&mut self, alloc: Global, pdu: &PduRef<'_>) -> Result<(), Fault>
        ensures applies { Applies result self.old self.new (step self.old (pdu_of pdu.now)) }
        ensures memory { WantsOnlyIf result (takes_memory self.old (pdu_of pdu.now)) }
    {
        match pdu {
            PduRef::WireToSurface1 {
                surface,
                codec,
                format,
                rect,
                payload,
            } => self.paint_data(alloc, *surface, *codec, *format, *rect, payload),
            PduRef::WireToSurface2 {
                surface,
                codec,
                context,
                format,
                payload,
            } => self.paint_tiles(alloc, *surface, *codec, *context, *format, payload),
            PduRef::CapsConfirm { version, payload } => match self.confirm_caps(*version, payload) {
                Ok(()) => Ok(()),
                Err(refusal) => Err(Fault::Refused(refusal)),
            },
            PduRef::Other(pdu) => self.apply(alloc, pdu),
        }
    }

    /// Applies a message that never takes memory, or refuses it and changes nothing.
    #[tactic(auto, unfolding(crate::specs::Step::step))]
    fn perform(&mut self, pdu: &Pdu) -> Result<(), Refusal>
        requires { may_take_memory pdu.now ≡ false }
        ensures { Performs result self.old self.new (step self.old pdu.now) }
    {
        match pdu {
            Pdu::DeleteEncodingContext { surface, context } => {
                self.delete_context(*surface, *context)
            }
            Pdu::SolidFill {
                surface,
                colour,
                rects,
            } => self.fill_rects(*surface, *colour, rects.as_slice()),
            Pdu::SurfaceToSurface {
                source,
                destination,
                rect,
                points,
            } => self.copy_rect(*source, *destination, *rect, points.as_slice()),
            Pdu::CacheToSurface {
                slot,
                surface,
                points,
            } => self.put_slot(*slot, *surface, points.as_slice()),
            Pdu::EvictCacheEntry { slot } => self.evict_slot(*slot),
            Pdu::DeleteSurface { id } => self.delete_surface(*id),
            Pdu::StartFrame { frame, .. } => self.start_frame(*frame),
            Pdu::EndFrame { frame } => self.end_frame(*frame),
            Pdu::ResetGraphics { width, height, .. } => self.reset_graphics(*width, *height),
            Pdu::CapsConfirm { version, payload } => {
                self.confirm_caps(*version, payload.as_slice())
            }
            Pdu::WireToSurface1 { .. }
            | Pdu::WireToSurface2 { .. }
            | Pdu::SurfaceToCache { .. }
            | Pdu::CreateSurface { .. }
            | Pdu::MapSurfaceToOutput { .. } => unreachable!(),
        }
    }

    #[tactic(auto, unfolding(crate::specs::Step::frame_started, gfx_base::specs::Results::and_then))]
    fn start_frame(&mut self, frame: u32) -> Result<(), Refusal>
        ensures { Performs result self.old self.new (frame_started self.old frame) }
    {
        if self.frame.is_some() {
            return Err(Refusal::FrameOpen);
        }
        self.frame = Some(frame);
        Ok(())
    }

    #[tactic(auto, unfolding(crate::specs::Step::frame_ended, gfx_base::specs::Results::and_then))]
    fn end_frame(&mut self, frame: u32) -> Result<(), Refusal>
        ensures { Performs result self.old self.new (frame_ended self.old frame) }
    {
        if self.frame != Some(frame) {
            return Err(Refusal::FrameMismatch);
        }
        self.frame = None;
        self.decoded = self.decoded.wrapping_add(1);
        Ok(())
    }

    fn create_surface(
        &mut self,
        alloc: Global,
        id: u16,
        width: u16,
        height: u16,
        format: u8,
    ) -> Result<(), Fault>
        ensures applies { Applies result self.old self.new (surface_created self.old id width height format) }
        ensures memory { WantsOnlyIf result (is_ok (surface_created self.old id width height format)) }
    {
        match Format::from_byte(format) {
            Some(format) => self.surfaces.create(alloc, id, width, height, format),
            None => Err(Fault::Refused(self.refuse_format(id, width, height, format))),
        }
    }

    /// Why a surface of no format is refused: the id and the sides come first.
    #[tactic(auto, unfolding(crate::specs::Step::surface_created, gfx_base::specs::Results::and_then))]
    fn refuse_format(&self, id: u16, width: u16, height: u16, format: u8) -> Refusal
        requires { format_of format ≡ None }
        ensures { surface_created self.now id width height format ≡ Err result }
    {
        if self.surfaces.contains(id) {
            return Refusal::SurfaceExists;
        }
        if !fits_size(width, height) {
            return Refusal::SurfaceSize;
        }
        Refusal::PixelFormat
    }

    #[tactic(auto, unfolding(crate::specs::Step::rects_filled, gfx_base::specs::Results::and_then))]
    fn fill_rects(&mut self, id: u16, colour: Pixel, rects: &[Rect]) -> Result<(), Refusal>
        ensures { Performs result self.old self.new (rects_filled self.old id colour rects.now) }
    {
        let Some(surface) = self.surfaces.get(id) else {
            return Err(Refusal::NoSurface);
        };
        let (width, height) = surface.size();
        if !all_lie_in(rects, width, height) {
            return Err(Refusal::RectOutside);
        }
        self.surfaces.fill(id, rects, colour);
        Ok(())
    }

    /// Paints data in a rectangle of a surface, by their codec. Only ClearCodec and RemoteFX video take memory.
    #[tactic(auto, unfolding(crate::specs::Step::data_painted, gfx_base::specs::Results::and_then))]
    fn paint_data(
        &mut self,
        alloc: Global,
        id: u16,
        codec: u16,
        format: u8,
        rect: Rect,
        payload: &[u8],
    ) -> Result<(), Fault>
        ensures applies { Applies result self.old self.new (data_painted self.old id codec format rect payload.now) }
        ensures memory { WantsOnlyIf result (codec == CLEAR_CODEC || codec == VIDEO) }
    {
        let Some(surface) = self.surfaces.get(id) else {
            return Err(Fault::Refused(Refusal::NoSurface));
        };
        let Some(codec) = Codec::from_id(codec) else {
            return Err(Fault::Refused(Refusal::CodecRefused));
        };
        let Some(format) = Format::from_byte(format) else {
            return Err(Fault::Refused(Refusal::PixelFormat));
        };
        if !lies_on(rect, surface) {
            return Err(Fault::Refused(Refusal::RectOutside));
        }
        match codec {
            Codec::Uncompressed => match self.paint_bytes(id, format, rect, payload) {
                Ok(()) => Ok(()),
                Err(refusal) => Err(Fault::Refused(refusal)),
            },
            Codec::Video => self.paint_video(id, rect, payload),
            Codec::ClearCodec => self.paint_stream(id, rect, payload),
        }
    }

    /// Puts the pixels of uncompressed data into a rectangle that lies on a surface.
    #[tactic(auto, unfolding(crate::specs::Step::bytes_painted, gfx_base::specs::Results::and_then))]
    fn paint_bytes(
        &mut self,
        id: u16,
        format: Format,
        rect: Rect,
        payload: &[u8],
    ) -> Result<(), Refusal>
        requires { IsSomeAnd (map.get self.old.shown.surfaces id) (λ picture. IsTrue (lies_in picture.width picture.height rect)) }
        ensures { IfSome (map.get self.old.shown.surfaces id)
            (λ picture. Performs result self.old self.new (bytes_painted self.old id picture format rect payload.now)) }
    {
        if !has_length(payload, rect) {
            return Err(Refusal::PayloadLength);
        }
        self.surfaces.put_bytes(id, rect, format, payload);
        Ok(())
    }

    /// Applies a message of RemoteFX video to a rectangle that lies on a surface. Any fault leaves all as it was.
    #[tactic(auto, unfolding(crate::specs::Step::video_painted, gfx_base::specs::Results::and_then))]
    fn paint_video(&mut self, id: u16, rect: Rect, bytes: &[u8]) -> Result<(), Fault>
        requires { IsSomeAnd (map.get self.old.shown.surfaces id) (λ picture. IsTrue (lies_in picture.width picture.height rect)) }
        ensures { IfSome (map.get self.old.shown.surfaces id)
            (λ picture. Applies result self.old self.new (video_painted self.old id picture rect bytes.now)) }
    {
        match self.surfaces.get_mut(id) {
            Some(surface) => self.video.decode(surface, rect, bytes),
            None => unreachable!(),
        }
    }

    /// Decodes a ClearCodec stream into a rectangle that lies on a surface. Any fault leaves all as it was.
    #[tactic(auto, unfolding(crate::specs::Step::stream_painted, gfx_base::specs::Results::and_then))]
    fn paint_stream(&mut self, id: u16, rect: Rect, stream: &[u8]) -> Result<(), Fault>
        requires { IsSomeAnd (map.get self.old.shown.surfaces id) (λ picture. IsTrue (lies_in picture.width picture.height rect)) }
        ensures { IfSome (map.get self.old.shown.surfaces id)
            (λ picture. Applies result self.old self.new (stream_painted self.old id picture rect stream.now)) }
    {
        match self.surfaces.get_mut(id) {
            Some(surface) => self.clear.decode(surface, rect, stream),
            None => unreachable!(),
        }
    }

    /// Paints a picture in a rectangle of a surface by ClearCodec, as a server does, and answers the data of
    /// the message that says so. The state is then what that message makes of it, though nothing is decoded;
    /// without memory it is as it was.
    pub fn paint_clear(
        &mut self,
        id: u16,
        rect: Rect,
        pixels: &[Rgb],
        layer: Layer,
        glyph: Option<u16>,
    ) -> Result<Bytes, NoMemory>
        requires inside { IsSomeAnd (map.get self.old.shown.surfaces id) (λ picture. IsTrue (lies_in picture.width picture.height rect)) }
        requires picture { MaySend (width_of rect) (height_of rect) pixels.now glyph }
        ensures sent { IfOk result (λ bytes. bytes ≡ (sent self.old.clear layer glyph (width_of rect) (height_of rect) pixels.now).bytes) }
        ensures step { IfOk result (λ bytes. (byte : ℕ) → IsSome (format_of byte)
            → step self.old (WireToSurface1 id CLEAR_CODEC byte rect bytes) ≡ Ok self.new) }
        ensures small { IfOk result (λ bytes. length bytes ≤ 5 * length pixels.now + 20000) }
        ensures err { OnErr result (self.new ≡ self.old) }
    {
        match self.surfaces.get_mut(id) {
            Some(surface) => self.clear.send(surface, rect, pixels, layer, glyph),
            None => unreachable!(),
        }
    }

    /// Applies data to a surface by the codec of tiles. Any fault leaves all as it was.
    #[tactic(auto, unfolding(crate::specs::Step::tiles_painted, gfx_base::specs::Results::and_then))]
    fn paint_tiles(
        &mut self,
        alloc: Global,
        id: u16,
        codec: u16,
        context: u32,
        format: u8,
        payload: &[u8],
    ) -> Result<(), Fault>
        ensures applies { Applies result self.old self.new (tiles_painted self.old id codec context format payload.now) }
        ensures memory { WantsOnlyIf result (codec == PROGRESSIVE) }
    {
        if !self.surfaces.contains(id) {
            return Err(Fault::Refused(Refusal::NoSurface));
        }
        if codec != PROGRESSIVE {
            return Err(Fault::Refused(Refusal::CodecRefused));
        }
        if Format::from_byte(format).is_none() {
            return Err(Fault::Refused(Refusal::PixelFormat));
        }
        self.draw_tiles(alloc, id, context, payload)
    }

    /// Applies progressive data to a surface that there is.
    fn draw_tiles(
        &mut self,
        alloc: Global,
        id: u16,
        context: u32,
        payload: &[u8],
    ) -> Result<(), Fault>
        requires { IsSome (map.get self.old.shown.surfaces id) }
        ensures { IfSome (map.get self.old.shown.surfaces id)
            (λ picture. Applies result self.old self.new (tiles_drawn self.old id picture context payload.now)) }
    {
        match self.surfaces.get_mut(id) {
            Some(surface) => self.records.apply(alloc, surface, id, context, payload),
            None => unreachable!(),
        }
    }

    /// Lets go of the records of a surface's context.
    #[tactic(auto, unfolding(crate::specs::Step::context_deleted, gfx_base::specs::Results::and_then))]
    fn delete_context(&mut self, id: u16, context: u32) -> Result<(), Refusal>
        ensures { Performs result self.old self.new (context_deleted self.old id context) }
    {
        if !self.surfaces.contains(id) {
            return Err(Refusal::NoSurface);
        }
        self.records.drop_context(id, context);
        Ok(())
    }

    #[tactic(auto, unfolding(crate::specs::Step::showing, gfx_base::specs::Results::and_then))]
    fn copy_rect(&mut self, from: u16, to: u16, rect: Rect, points: &[Point]) -> Result<(), Refusal>
        ensures { Performs result self.old self.new (showing self.old (surface_copied self.old.shown from to rect points.now)) }
    {
        self.surfaces.copy(from, to, rect, points)
    }

    #[tactic(auto, unfolding(crate::specs::Step::rect_stored, crate::specs::Step::caching, gfx_base::specs::Results::and_then))]
    fn store_rect(
        &mut self,
        alloc: Global,
        id: u16,
        key: u64,
        slot: u16,
        rect: Rect,
    ) -> Result<(), Fault>
        ensures applies { Applies result self.old self.new (rect_stored self.old id key slot rect) }
        ensures memory { WantsOnlyIf result (is_ok (rect_stored self.old id key slot rect)) }
    {
        let Some(surface) = self.surfaces.get(id) else {
            return Err(Fault::Refused(Refusal::NoSurface));
        };
        if !self.cache.takes_slot(slot) {
            return Err(Fault::Refused(Refusal::SlotRange));
        }
        if !lies_on(rect, surface) {
            return Err(Fault::Refused(Refusal::RectOutside));
        }
        // Before the bitmap is built, as it may be larger than the whole budget.
        if !self.cache.has_room(slot, rect.width(), rect.height()) {
            return Err(Fault::Refused(Refusal::CacheBudget));
        }
        let bitmap = bitmap_of(alloc, surface, rect)?;
        self.cache.store(slot, key, bitmap)
    }

    #[tactic(auto, unfolding(crate::specs::Step::slot_put, crate::specs::Step::showing, gfx_base::specs::Results::and_then))]
    fn put_slot(&mut self, slot: u16, id: u16, points: &[Point]) -> Result<(), Refusal>
        ensures { Performs result self.old self.new (slot_put self.old slot id points.now) }
    {
        let bitmap = self.cache.show(slot)?;
        self.surfaces.put(id, bitmap, points)
    }

    #[tactic(auto, unfolding(crate::specs::Step::caching, gfx_base::specs::Results::and_then))]
    fn evict_slot(&mut self, slot: u16) -> Result<(), Refusal>
        ensures { Performs result self.old self.new (caching self.old (evicted self.old.cache slot)) }
    {
        self.cache.evict(slot)
    }

    #[tactic(auto, unfolding(crate::specs::Step::caps_confirmed, gfx_base::specs::Results::and_then))]
    fn confirm_caps(&mut self, version: u32, flags: &[u8]) -> Result<(), Refusal>
        ensures { Performs result self.old self.new (caps_confirmed self.old version flags.now) }
    {
        if !is_confirmed(version, flags) {
            return Err(Refusal::CapsVersion);
        }
        self.cache.set_small(has_small_cache(flags));
        Ok(())
    }

    /// Deletes a surface, and its records with it.
    #[tactic(auto, unfolding(crate::specs::Step::surface_ended, gfx_base::specs::Results::and_then))]
    fn delete_surface(&mut self, id: u16) -> Result<(), Refusal>
        ensures { Performs result self.old self.new (surface_ended self.old id) }
    {
        self.surfaces.delete(id)?;
        self.records.drop_surface(id);
        Ok(())
    }

    #[tactic(auto, unfolding(crate::specs::Step::graphics_reset, gfx_base::specs::Results::and_then))]
    fn reset_graphics(&mut self, width: u32, height: u32) -> Result<(), Refusal>
        ensures { Performs result self.old self.new (graphics_reset self.old width height) }
    {
        self.surfaces.reset(width, height)?;
        self.clear.forget_sequence();
        Ok(())
    }

    #[tactic(auto, unfolding(crate::specs::Step::showing, gfx_base::specs::Results::and_then))]
    fn map_output(&mut self, id: u16, x: u32, y: u32) -> Result<(), Fault>
        ensures applies { Applies result self.old self.new
            (showing self.old (output_mapped self.old.shown id (record { x = x; y = y }))) }
        ensures memory { WantsOnlyIf result
            (is_ok (showing self.old (output_mapped self.old.shown id (record { x = x; y = y })))) }
    {
        self.surfaces.map_output(id, x, y)
    }
}

/// Whether there are four bytes for each pixel of a rectangle.
fn has_length(payload: &[u8], rect: Rect) -> bool
    ensures { result ≡ (length payload.now == 4 * (width_of rect * height_of rect)) }
{
    payload.len() == BYTES_PER_PIXEL * (usize::from(rect.width()) * usize::from(rect.height()))
}
