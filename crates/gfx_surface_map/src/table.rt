ghost use Rattle.std.specs.Prelude.{◌≡◌, ◌^◌, [], Ok, Err, OnOk, OnErr, IfErr};
ghost use Rattle.gfx_base.specs.declared.format.Format.{Format as AnyFormat};
ghost use Rattle.std.specs.Option.{option_copied, option_copied_mut};
ghost use Rattle.std.specs.Borrow.{sem};
ghost use Rattle.std.specs.FinMap as map;
ghost use Rattle.gfx_surface_map.specs.Surfaces.{created, fits_beside, MayMake};
ghost use Rattle.gfx_surface_map.specs.Order.{from_id, first_id};
ghost use Rattle.gfx_surface_map.specs.Lending.{LendsFrom};

use crate::scan::{least_from, total_cells};
use crate::size::{count_cells, fits_size};
use crate::{MOST_CELLS, MOST_SURFACES};
use gfx_base::{Format, NoMemory, Refusal};
use gfx_surface::Surface;
use indexmap::IndexMap;
use std::alloc::Global;
use std::marker::Model;

/// Surfaces by their ids. Contracts see the map from each id to its picture.
#[derive(Drop)]
pub struct Table {
    surfaces: IndexMap<u16, Surface>,
}

impl Model for Table {
    ghost use Rattle.gfx_surface_map.specs.Surfaces.{Surfaces, surfaces_code};

    ghost Value = { Surfaces };

    ghost coded = { surfaces_code };

    ghost use Rattle.gfx_surface_map.specs.Inside.{surfaces_of, HasIds};

    ghost view = { surfaces_of };

    ghost invariant = { HasIds };
}

impl Table {
    /// No surfaces. It takes no memory.
    pub fn new(alloc: Global) -> Table
        ensures { result ≡ map.empty }
    {
        Table {
            surfaces: IndexMap::new(alloc),
        }
    }

    /// Whether a surface has this id.
    pub fn contains(&self, id: u16) -> bool
        ensures { result ≡ map.contains_key self.now id }
    {
        self.surfaces.contains_key(&id)
    }

    /// The surface of this id, if there is one.
    pub fn get(&self, id: u16) -> Option<&Surface>
        ensures { option_copied result ≡ map.get self.now id }
    {
        self.surfaces.get(&id)
    }

    /// The surface of this id, if there is one, to draw on. Afterwards it is what its user leaves,
    /// and all else is as before.
    pub fn get_mut(&mut self, id: u16) -> Option<&mut Surface>
        ensures* writes_back { sem 𝓛 (LendsFrom self.entry id result) }
        ensures value { option_copied_mut result ≡ map.get self.old id }
    {
        self.surfaces.get_mut(&id)
    }

    /// The first reason against one more surface, if there is one.
    #[tactic(auto, unfolding(crate::specs::Surfaces::created, gfx_base::specs::Results::and_then))]
    pub fn may_create(&self, id: u16, width: u16, height: u16) -> Result<(), Refusal>
        ensures ok { OnOk result (MayMake self.now id width height) }
        ensures err { IfErr result (λ r. (format : AnyFormat) → created self.now id width height format ≡ Err r) }
    {
        if self.contains(id) {
            return Err(Refusal::SurfaceExists);
        }
        if !fits_size(width, height) {
            return Err(Refusal::SurfaceSize);
        }
        if !self.fits_beside(width, height) {
            return Err(Refusal::SurfaceBudget);
        }
        Ok(())
    }

    /// Makes a surface of zero colour ([MS-RDPEGFX] RDPGFX_CREATE_SURFACE_PDU), where nothing speaks
    /// against it. Want of memory leaves all as it was.
    #[tactic(auto, unfolding(crate::specs::Surfaces::created, gfx_base::specs::Results::and_then))]
    pub fn create(
        &mut self,
        alloc: Global,
        id: u16,
        width: u16,
        height: u16,
        format: Format,
    ) -> Result<(), NoMemory>
        requires { MayMake self.old id width height }
        ensures ok { OnOk result (created self.old id width height format ≡ Ok self.new) }
        ensures err { OnErr result (self.new ≡ self.old) }
    {
        let surface = Surface::new(alloc, width, height, format)?;
        self.surfaces.insert(id, surface)?;
        Ok(())
    }

    /// Takes a surface out, where the id has one. It takes no memory.
    pub fn remove(&mut self, id: u16)
        ensures { self.new ≡ map.remove self.old id }
    {
        self.surfaces.shift_remove(&id);
    }

    /// Whether one more surface of these sides is within the limits.
    fn fits_beside(&self, width: u16, height: u16) -> bool
        ensures { result ≡ fits_beside self.now width height }
    {
        self.surfaces.len() < MOST_SURFACES
            && total_cells(&self.surfaces) + count_cells(width, height) <= MOST_CELLS
    }

    /// The least id not below this one that a surface has. It looks at each id once.
    pub fn next_id(&self, from: u16) -> Option<u16>
        ensures next { result ≡ first_id (from_id from (map.entries self.now)) }

        // A loop may end at the last id that fits.
        ensures past { from_id (2 ^ 16) (map.entries self.now) ≡ [] }
    {
        least_from(&self.surfaces, from)
    }
}
