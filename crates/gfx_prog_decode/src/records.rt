ghost use Rattle.std.specs.Prelude.{◌≡◌, [], ◌==◌, ◌&&◌, not, IfOk, IsSome, OnErr, OnOk};
ghost use Rattle.std.specs.FinMap as finmap;
ghost use Rattle.std.specs.Option.{option_copied, option_copied_mut};
ghost use Rattle.std.specs.Borrow.{sem};
ghost use Rattle.gfx_base.specs.Outcome.{Applies, WantsOnlyIf};
ghost use Rattle.gfx_prog_block.specs.Reading.{begins_block};
ghost use Rattle.gfx_prog_decode.specs.Inside.{Begins};
ghost use Rattle.gfx_prog_decode.specs.Lending.{LendsFrom};
ghost use Rattle.gfx_prog_decode.specs.Progressive.{after_message};
ghost use Rattle.gfx_prog_decode.specs.Records.{without_context, without_surface};
ghost use Rattle.gfx_prog_decode.specs.Scene.{scene};
ghost use Rattle.gfx_prog_decode.specs.Undo.{HasPlace, kept, nothing, records_back};

use crate::applying::apply_data;
use crate::bench::Bench;
use crate::key::{Key, Place};
use gfx_base::{Fault, NoMemory};
use gfx_surface::Surface;
use gfx_tile_state::TileState;
use indexmap::IndexMap;
use std::alloc::Global;
use std::marker::Model;

/// The records of tiles that progressive messages left, each by its surface, its encoding context and its cell.
/// Contracts see the map. Beside it stands memory that messages took, kept so that the next one takes none.
#[derive(Drop)]
pub struct Records {
    tiles: IndexMap<Key, TileState>,
    /// Made for the first message with blocks, and boxed, so that a message moves no more than its pointer. Its log is empty.
    bench: Option<Box<Bench>>,
}

impl Model for Records {
    ghost use Rattle.gfx_prog_decode.specs.Records.{Records, records_code};

    ghost Value = { Records };

    ghost coded = { records_code };

    ghost use Rattle.gfx_prog_decode.specs.Inside.{IsSpent, records_of};

    ghost view = { records_of };

    ghost invariant = { IsSpent };
}

impl Records {
    /// No records. It takes no memory.
    pub fn new(alloc: Global) -> Records
        ensures { result ≡ finmap.empty }
    {
        Records {
            tiles: IndexMap::new(alloc),
            bench: None,
        }
    }

    /// How many records there are.
    pub fn count(&self) -> usize
        ensures { result ≡ finmap.len self.now }
    {
        self.tiles.len()
    }

    /// Applies the data of a message for a surface, which has this id, in an encoding context ([MS-RDPEGFX]
    /// 2.2.2.2, RDPGFX_WIRE_TO_SURFACE_PDU_2 of codec 9). First all structure is checked, then regions and their
    /// tiles are applied in their order. Any fault leaves records and surface as they were. Memory is wanted only where the
    /// first block's frame and type are accepted.
    pub fn apply(
        &mut self,
        alloc: Global,
        surface: &mut Surface,
        id: u16,
        context: u32,
        bytes: &[u8],
    ) -> Result<(), Fault>
        ensures value { Applies result (scene self.old surface.old) (scene self.new surface.new)
            (after_message (record { surface = id; context = context }) bytes.now (scene self.old surface.old)) }
        ensures memory { WantsOnlyIf result (begins_block bytes.now) }
    {
        let place = Place {
            surface: id,
            context,
        };
        apply_data(alloc, self, surface, place, bytes)
    }

    /// Lets go of a surface's records.
    pub fn drop_surface(&mut self, id: u16)
        ensures { self.new ≡ without_surface self.old id }
    {
        self.tiles.retain(
            |key: &Key, tile: &mut TileState| -> bool
                ensures { (result ≡ not (key.now.surface == id)) × (tile.new ≡ tile.old) }
            { key.surface != id },
        );
    }

    /// Lets go of the records of a surface's context ([MS-RDPEGFX] 2.2.2.3, RDPGFX_DELETE_ENCODING_CONTEXT_PDU).
    pub fn drop_context(&mut self, id: u16, context: u32)
        ensures { self.new ≡ without_context self.old id context }
    {
        self.tiles.retain(
            |key: &Key, tile: &mut TileState| -> bool
                ensures { (result ≡ not (key.now.surface == id && key.now.context == context)) × (tile.new ≡ tile.old) }
            { key.surface != id || key.context != context },
        );
    }

    /// A bench whose log is empty: that of the messages before, or for the first of them another.
    pub(crate) fn take_bench(&mut self, alloc: Global) -> Result<Box<Bench>, NoMemory>
        ensures empty { IfOk result (λ bench. kept bench.value.log ≡ nothing) }
        ensures same { self.new ≡ self.old }
    {
        match self.bench.take() {
            Some(bench) => Ok(bench),
            None => Bench::new(alloc),
        }
    }

    /// Keeps a bench for the next message. What its log keeps is let go of, but for memory.
    pub(crate) fn give_back(&mut self, mut bench: Box<Bench>)
        ensures { self.new ≡ self.old }
    {
        bench.log.spend();
        self.bench = Some(bench);
    }

    /// The record of a key, if there is one.
    pub(crate) fn get(&self, key: Key) -> Option<&TileState>
        ensures { option_copied result ≡ finmap.get self.now key }
    {
        self.tiles.get(&key)
    }

    /// The record of a key, if there is one, to take a pass. All else is as before.
    pub(crate) fn get_mut(&mut self, key: Key) -> Option<&mut TileState>
        ensures* writes_back { sem 𝓛 (LendsFrom self.entry key result) }
        ensures value { option_copied_mut result ≡ finmap.get self.old key }
    {
        self.tiles.get_mut(&key)
    }

    /// Sees to it that a key has a record: where it has none, it gets one before its first pass.
    pub(crate) fn begin(&mut self, alloc: Global, key: Key) -> Result<(), NoMemory>
        ensures begun { OnOk result (Begins key self.old self.new) }
        ensures err { OnErr result (self.new ≡ self.old) }
    {
        if self.tiles.contains_key(&key) {
            return Ok(());
        }
        let tile = TileState::new(alloc)?;
        self.tiles.insert(key, tile)?;
        Ok(())
    }

    /// Puts a record in the place of a key's own, which it gives.
    pub(crate) fn exchange(
        &mut self,
        key: Key,
        tile: TileState,
    ) -> Result<Option<TileState>, NoMemory>
        ensures given { IfOk result (λ old. old ≡ finmap.get self.old key) }
        ensures exchanged { OnOk result (self.new ≡ finmap.insert self.old key tile) }
        ensures err { OnErr result (self.new ≡ self.old) }
    {
        let old = self.tiles.insert(key, tile)?;
        Ok(old)
    }

    /// Puts back what a key had.
    pub(crate) fn put_back(&mut self, key: Key, tile: Option<TileState>)
        requires { HasPlace key tile self.old }
        ensures { self.new ≡ records_back key tile self.old }
    {
        match tile {
            None => self.remove(key),
            Some(tile) => self.replace(key, tile),
        }
    }

    /// Lets go of a key's record.
    fn remove(&mut self, key: Key)
        ensures { self.new ≡ finmap.remove self.old key }
    {
        self.tiles.swap_remove(&key);
    }

    /// Puts a record where a key has one already, so that no memory is needed.
    fn replace(&mut self, key: Key, tile: TileState)
        requires { IsSome (finmap.get self.old key) }
        ensures { self.new ≡ finmap.insert self.old key tile }
    {
        self.tiles.insert(key, tile).unwrap();
    }
}
