ghost use Rattle.std.specs.Prelude.{◌≡◌, ℕ, ◌+◌, ◌≤◌, ◌<◌, ◌*◌, ◌^◌, [], slice_index_or, IfSome, IsSomeAnd, IsTrue, OnOk, is_ok, false, length, nat_eq};
ghost use Rattle.std.specs.Option.{option_copied, option_copied_mut};
ghost use Rattle.std.specs.Borrow.{sem};
ghost use Rattle.std.specs.Map.{lookup};
ghost use Rattle.std.specs.FinMap as map;
ghost use Rattle.gfx_base.specs.Geometry.{lies_in, width_of, height_of, fit_all};
ghost use Rattle.gfx_base.specs.Outcome.{Applies, Performs, WantsOnlyIf};
ghost use Rattle.gfx_surface_map.specs.Shown.{nothing_shown, with_picture, surface_made, surface_deleted, copied_to, output_reset, output_mapped};
ghost use Rattle.gfx_surface_map.specs.Composed.{output_part, output_row, PaintsMap};
ghost use Rattle.gfx_surface_map.specs.declared.place.Place.{Place as AnyPlace};
ghost use Rattle.gfx_surface_map.specs.Order.{from_id, first_id};
ghost use Rattle.gfx_surface_map.specs.Lending.{LendsSurface};

use crate::composing::{clear_part, paint_part};
use crate::copying::copy_by_scratch;
use crate::output::fits_output;
use crate::place::{Output, Place};
use crate::table::Table;
use gfx_base::{Fault, Format, NoMemory, Pixel, Point, Rect, Refusal};
use gfx_surface::Surface;
use indexmap::IndexMap;
use std::alloc::Global;
use std::marker::Model;

/// Surfaces by their ids, and the output that they are mapped to. Contracts see what is shown, and for
/// how many pixels there is room to copy them.
#[derive(Drop)]
pub struct SurfaceMap {
    table: Table,
    output: Output,
    maps: IndexMap<u16, Place>,
    scratch: Vec<Pixel>,
}

impl Model for SurfaceMap {
    ghost use Rattle.std.specs.Prelude.{length};
    ghost use Rattle.gfx_surface_map.specs.Shown.{SurfaceMap, kept_code};

    ghost Value = { SurfaceMap };

    ghost coded = { kept_code };

    ghost view = { λ a. record {
      shown = record { surfaces = a.table; output = a.output; maps = a.maps.entries };
      room = length a.scratch.items;
    } };
}

impl SurfaceMap {
    /// No surfaces, no output and no room. It takes no memory.
    pub fn new(alloc: Global) -> SurfaceMap
        ensures { result ≡ record { shown = nothing_shown; room = 0 } }
    {
        SurfaceMap {
            table: Table::new(alloc),
            output: Output {
                width: 0,
                height: 0,
            },
            maps: IndexMap::new(alloc),
            scratch: Vec::new(alloc),
        }
    }

    /// Whether a surface has this id.
    pub fn contains(&self, id: u16) -> bool
        ensures { result ≡ map.contains_key self.now.shown.surfaces id }
    {
        self.table.contains(id)
    }

    /// The surface of this id, if there is one.
    pub fn get(&self, id: u16) -> Option<&Surface>
        ensures { option_copied result ≡ map.get self.now.shown.surfaces id }
    {
        self.table.get(id)
    }

    /// The surface of this id, if there is one, to draw on. Afterwards it is what its user leaves,
    /// and all else is as before.
    pub fn get_mut(&mut self, id: u16) -> Option<&mut Surface>
        ensures* writes_back { sem 𝓛 (LendsSurface self.entry id result) }
        ensures value { option_copied_mut result ≡ map.get self.old.shown.surfaces id }
    {
        self.table.get_mut(id)
    }

    /// The least id not below this one that a surface has. It looks at each id once.
    pub fn next_id(&self, from: u16) -> Option<u16>
        ensures next { result ≡ first_id (from_id from (map.entries self.now.shown.surfaces)) }

        // A loop may end at the last id that fits.
        ensures past { from_id (2 ^ 16) (map.entries self.now.shown.surfaces) ≡ [] }
    {
        self.table.next_id(from)
    }

    /// Where on the output the surface of this id is shown, if it is mapped.
    pub fn place(&self, id: u16) -> Option<Place>
        ensures { result ≡ lookup (nat_eq id) self.now.shown.maps }
    {
        self.maps.get(&id).copied()
    }

    /// For how many pixels there is room to copy them.
    pub fn room(&self) -> usize
        ensures { result ≡ self.now.room }
    {
        self.scratch.len()
    }

    /// Makes a surface of zero colour ([MS-RDPEGFX] RDPGFX_CREATE_SURFACE_PDU). An id that is taken,
    /// sides out of range and the limits on all surfaces are refused in this order, and any fault
    /// leaves all as it was but for the room, which never shrinks; one that is refused leaves the room, too, and
    /// takes no memory.
    #[tactic(auto, unfolding(crate::specs::Shown::surface_made, crate::specs::Surfaces::created, gfx_base::specs::Results::and_then))]
    pub fn create(
        &mut self,
        alloc: Global,
        id: u16,
        width: u16,
        height: u16,
        format: Format,
    ) -> Result<(), Fault>
        ensures made { Applies result self.old.shown self.new.shown (surface_made self.old.shown id width height format) }
        ensures room { self.old.room ≤ self.new.room }
        ensures enough { OnOk result (width * height ≤ self.new.room) }
        ensures memory { WantsOnlyIf result (is_ok (surface_made self.old.shown id width height format)) }
        ensures refused { is_ok (surface_made self.old.shown id width height format) ≡ false → self.new.room ≡ self.old.room }
    {
        self.table.may_create(id, width, height)?;
        self.make_room(usize::from(width) * usize::from(height))?;
        self.table.create(alloc, id, width, height, format)?;
        Ok(())
    }

    /// Makes room for as many pixels.
    fn make_room(&mut self, count: usize) -> Result<(), NoMemory>
        ensures shown { self.new.shown ≡ self.old.shown }
        ensures room { self.old.room ≤ self.new.room }
        ensures enough { OnOk result (count ≤ self.new.room) }
    {
        if self.scratch.len() < count {
            self.scratch.resize(count, Pixel::default())?;
        }
        Ok(())
    }

    /// Deletes a surface, and its map with it ([MS-RDPEGFX] RDPGFX_DELETE_SURFACE_PDU). It takes no
    /// memory.
    #[tactic(auto, unfolding(crate::specs::Shown::surface_deleted, gfx_base::specs::Results::and_then))]
    pub fn delete(&mut self, id: u16) -> Result<(), Refusal>
        ensures deleted { Performs result self.old.shown self.new.shown (surface_deleted self.old.shown id) }
        ensures room { self.new.room ≡ self.old.room }
    {
        if !self.table.contains(id) {
            return Err(Refusal::NoSurface);
        }
        self.table.remove(id);
        self.maps.shift_remove(&id);
        Ok(())
    }

    /// Copies a rectangle to points that it fits at. It takes no memory.
    pub(crate) fn copy_all(&mut self, from: u16, to: u16, rect: Rect, points: &[Point])
        requires source { IsSomeAnd (map.get self.old.shown.surfaces from) (λ source. IsTrue (lies_in source.width source.height rect)) }
        requires target { IsSomeAnd (map.get self.old.shown.surfaces to) (λ target. IsTrue (fit_all target.width target.height rect points.now)) }
        requires room { width_of rect * height_of rect ≤ self.old.room }
        ensures { IfSome (map.get self.old.shown.surfaces from) (λ source. IfSome (map.get self.old.shown.surfaces to)
            (λ target. self.new ≡ record self.old { shown = with_picture self.old.shown to (copied_to source rect points.now target) })) }
    {
        copy_by_scratch(&mut self.table, &mut self.scratch, from, to, rect, points);
    }

    /// Maps a surface to a place of the output ([MS-RDPEGFX] RDPGFX_MAP_SURFACE_TO_OUTPUT_PDU). One that
    /// is mapped already keeps its turn.
    #[tactic(auto, unfolding(crate::specs::Shown::output_mapped, gfx_base::specs::Results::and_then))]
    pub fn map_output(&mut self, id: u16, x: u32, y: u32) -> Result<(), Fault>
        ensures mapped { Applies result self.old.shown self.new.shown (output_mapped self.old.shown id (record { x = x; y = y })) }
        ensures memory { WantsOnlyIf result (is_ok (output_mapped self.old.shown id (record { x = x; y = y }))) }
        ensures room { self.new.room ≡ self.old.room }
    {
        if !self.table.contains(id) {
            return Err(Fault::Refused(Refusal::NoSurface));
        }
        self.maps.insert(id, Place { x, y })?;
        Ok(())
    }

    /// Gives the output other sides ([MS-RDPEGFX] RDPGFX_RESET_GRAPHICS_PDU). Surfaces and maps stay. It
    /// takes no memory.
    #[tactic(auto, unfolding(crate::specs::Shown::output_reset, gfx_base::specs::Results::and_then))]
    pub fn reset(&mut self, width: u32, height: u32) -> Result<(), Refusal>
        ensures reset { Performs result self.old.shown self.new.shown (output_reset self.old.shown width height) }
        ensures room { self.new.room ≡ self.old.room }
    {
        if !fits_output(width, height) {
            return Err(Refusal::OutputSize);
        }
        self.output = Output { width, height };
        Ok(())
    }

    /// How many columns and how many rows the output has: none before the first reset.
    pub fn output_size(&self) -> (u32, u32)
        ensures { result ≡ (self.now.shown.output.width, self.now.shown.output.height) }
    {
        (self.output.width, self.output.height)
    }

    /// Puts a row of the output together, counted from 0. It takes no memory.
    pub fn compose_row(&self, y: u32, out: &mut [Pixel])
        requires row { y < self.now.shown.output.height }
        requires whole { length out.old ≡ self.now.shown.output.width }
        ensures { out.new ≡ output_row self.now.shown y }
    {
        self.compose_part(0, y, out);
    }

    /// Puts a part of a row of the output together, as long as the slice, from a column on; both are counted from
    /// 0. It takes no memory.
    pub fn compose_part(&self, left: u32, y: u32, out: &mut [Pixel])
        requires row { y < self.now.shown.output.height }
        requires columns { left + length out.old ≤ self.now.shown.output.width }
        ensures { out.new ≡ output_part self.now.shown left y (length out.old) }
    {
        clear_part(out);
        'maps: for i in 0..self.maps.len() {
            self.paint_map(i, left, y, out);
        }
    }

    /// Paints a mapped surface, counted from 0 in order of mapping, over a part of a row of the output.
    fn paint_map(&self, i: usize, left: u32, y: u32, out: &mut [Pixel])
        requires { i < length self.now.shown.maps }
        ensures { (e : ℕ × AnyPlace) → PaintsMap self.now.shown.surfaces (slice_index_or self.now.shown.maps i e) left y out.old out.new }
    {
        let (id, place) = self.maps.get_index(i).unwrap();
        paint_part(self.table.get(*id), *place, left, y, out);
    }
}
