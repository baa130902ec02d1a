//! The live tiles of a server's surfaces.
ghost use Rattle.std.specs.Prelude.{◌≡◌, ◌≤◌, ◌==◌, IfOk, IfSome, OnOk, [], ◌∷◌, not};
ghost use Rattle.std.specs.FinMap as finmap;
ghost use Rattle.std.specs.Option.{is_some, option_and_then, option_copied};
ghost use Rattle.gfx_base.specs.Cells.{cells_met};
ghost use Rattle.gfx_base.specs.Geometry.{sized};
ghost use Rattle.gfx_script.specs.Writes.{area};
ghost use Rattle.gfx_prog_encode.specs.Inside.{AreRaised};
ghost use Rattle.gfx_prog_live.specs.Cells.{cell_key};
ghost use Rattle.gfx_prog_live.specs.Inside.{AreBy, AreInPlace, AreListed, Lists, without_taken};
ghost use Rattle.gfx_prog_live.specs.Live.{after_sends, ended_in, improved_sends, raised, with_live, without_surface};
ghost use Rattle.gfx_prog_live.specs.Places.{ArePlaces};
ghost use Rattle.gfx_prog_live.specs.Raising.{AreRaisable};

use crate::keys::cell_key;
use crate::places::{is_new, place_to_raise};
use gfx_base::{Cell, Cells, NoMemory, Rect, cells_along};
use gfx_prog_decode::Key;
use gfx_prog_encode::TileSend;
use gfx_quant::Setting;
use indexmap::IndexMap;
use std::alloc::Global;
use std::marker::Model;

/// The live tiles, each by its cell, as it was sent last. Contracts see the map.
#[derive(Drop)]
pub(crate) struct LiveTiles {
    tiles: IndexMap<Key, TileSend>,
}

impl Model for LiveTiles {
    ghost use Rattle.gfx_prog_live.specs.Live.{Live};
    ghost use Rattle.gfx_prog_live.specs.Codes.{live_code};

    ghost Value = { Live };

    ghost coded = { live_code };

    ghost use Rattle.gfx_prog_live.specs.Inside.{AreInPlace, live_of};

    ghost view = { live_of };

    ghost invariant = { λ a. AreInPlace (live_of a) };
}

impl LiveTiles {
    /// No tiles. It takes no memory.
    pub(crate) fn new(alloc: Global) -> LiveTiles
        ensures { result ≡ finmap.empty }
    {
        LiveTiles {
            tiles: IndexMap::new(alloc),
        }
    }

    /// Each tile stands at the key of its cell.
    fn are_in_place(&self)
        ensures { AreInPlace self.now }
    {
        let _ = &self.tiles;
    }

    /// Whether there are none.
    pub(crate) fn is_empty(&self) -> bool
        ensures { result ≡ (finmap.len self.now == 0) }
    {
        self.tiles.len() == 0
    }

    /// The tile of a cell, if it is live.
    pub(crate) fn get(&self, id: u16, cell: Cell) -> Option<&TileSend>
        ensures { option_copied result ≡ finmap.get self.now (cell_key id cell) }
    {
        self.tiles.get(&cell_key(id, cell))
    }

    /// Tiles that were sent are live from then on.
    pub(crate) fn keep_all(&mut self, id: u16, sends: Vec<TileSend>) -> Result<(), NoMemory>
        ensures { OnOk result (self.new ≡ after_sends id sends.items self.old) }
    {
        'sends: for send in sends {
            self.keep(id, send)?;
        }
        Ok(())
    }

    fn keep(&mut self, id: u16, send: TileSend) -> Result<(), NoMemory>
        ensures { OnOk result (self.new ≡ with_live id self.old send) }
    {
        self.tiles.insert(cell_key(id, send.cell), send)?;
        Ok(())
    }

    /// The surfaces that have live tiles which aren't at the last level, each once, in any order. An error says that memory
    /// ran out.
    pub(crate) fn raisable(&self, alloc: Global, setting: &Setting) -> Result<Vec<u16>, NoMemory>
        requires one_setting { AreBy setting.now self.now }
        ensures { IfOk result (λ ids. AreRaisable self.now ids.items) }
    {
        self.are_in_place();
        let listed = setting.levels.len();
        let mut ids = Vec::new(alloc);
        'tiles: for (key, send) in self.tiles.iter() {
            if is_new(listed, key.surface, send.level, ids.as_slice()) {
                ids.push(key.surface)?;
            }
        }
        Ok(ids)
    }

    /// Takes out the tiles that an improvement of a surface of these sides, in pixels, sends, each raised by one level.
    /// It looks at the live tiles alone, however large the surface is.
    pub(crate) fn take_improved(
        &mut self,
        alloc: Global,
        setting: &Setting,
        id: u16,
        width: u16,
        height: u16,
    ) -> Result<Vec<TileSend>, NoMemory>
        requires one_setting { AreBy setting.now self.old }
        ensures value { IfOk result (λ sends. sends.items ≡ improved_sends self.old id width height) }
        ensures raised { IfOk result (λ sends. AreRaised sends.items) }
        ensures left { IfOk result (λ sends. after_sends id sends.items self.new ≡ after_sends id sends.items self.old) }
    {
        self.are_in_place();
        let listed = setting.levels.len();
        let cells = Cells::met(Rect::sized(width, height));
        let places = self.places_to_raise(alloc, listed, id, width, height)?;
        let mut sends = Vec::new(alloc);
        'places: for place in places {
            if let Some(send) = self.take_raised(listed, id, cells.at(place)) {
                sends.push(send)?;
            }
        }
        Ok(sends)
    }

    /// The places of the tiles that an improvement of a surface of these sides, in pixels, raises, among the cells of the
    /// surface, in order. So many levels are listed before the last.
    fn places_to_raise(
        &self,
        alloc: Global,
        listed: usize,
        id: u16,
        width: u16,
        height: u16,
    ) -> Result<Vec<usize>, NoMemory>
        requires levels { AreListed listed self.now }
        ensures { IfOk result (λ places. ArePlaces self.now id (cells_met (sized width height)) places.items) }
    {
        let (columns, rows) = (cells_along(width), cells_along(height));
        let mut places = Vec::new(alloc);
        'tiles: for (key, send) in self.tiles.iter() {
            if let Some(place) = place_to_raise(listed, id, columns, rows, *key, send.level) {
                places.push(place)?;
            }
        }
        places.sort_unstable();
        Ok(places)
    }

    /// Takes out the tile of a cell, raised by one level, unless it is at the last, which this many are listed before.
    fn take_raised(&mut self, listed: usize, id: u16, cell: Cell) -> Option<TileSend>
        requires levels { IfSome (finmap.get self.old (cell_key id cell)) (Lists listed) }
        requires few { listed ≤ 7 }
        ensures value { result ≡ option_and_then raised (finmap.get self.old (cell_key id cell)) }
        ensures left { self.new ≡ without_taken id cell result self.old }
    {
        if !self.may_be_raised(listed, id, cell) {
            return None;
        }
        let mut send = self.remove(id, cell)?;
        send.level += 1;
        Some(send)
    }

    /// Whether a cell has a live tile that isn't at the last level.
    fn may_be_raised(&self, listed: usize, id: u16, cell: Cell) -> bool
        requires levels { IfSome (finmap.get self.now (cell_key id cell)) (Lists listed) }
        ensures { result ≡ is_some (option_and_then raised (finmap.get self.now (cell_key id cell))) }
    {
        match self.get(id, cell) {
            None => false,
            Some(send) => usize::from(send.level) < listed,
        }
    }

    /// Ends the tiles of the cells that a change in a rectangle touches.
    pub(crate) fn end_in(&mut self, id: u16, rect: Rect)
        ensures { self.new ≡ ended_in self.old (area id (rect ∷ [])) }
    {
        if self.is_empty() || !rect.has_pixels() {
            return;
        }
        self.are_in_place();
        let cells = Cells::met(rect);
        'cells: for place in 0..cells.len() {
            self.remove(id, cells.at(place));
        }
    }

    /// Ends the tile of a cell.
    fn remove(&mut self, id: u16, cell: Cell) -> Option<TileSend>
        ensures value { result ≡ finmap.get self.old (cell_key id cell) }
        ensures left { self.new ≡ finmap.remove self.old (cell_key id cell) }
    {
        self.tiles.swap_remove(&cell_key(id, cell))
    }

    /// Ends the tiles of a surface.
    pub(crate) fn drop_surface(&mut self, id: u16)
        ensures { self.new ≡ without_surface self.old id }
    {
        if self.is_empty() {
            return;
        }
        self.tiles.retain(
            |key: &Key, tile: &mut TileSend| -> bool
                ensures { (result ≡ not (key.now.surface == id)) × (tile.new ≡ tile.old) }
            { key.surface != id },
        );
    }
}
