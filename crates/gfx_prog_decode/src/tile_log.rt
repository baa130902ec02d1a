//! Records as they stood before a message, kept and put back.
ghost use Rattle.std.specs.Prelude.{◌≡◌, ◌<◌, ◌^◌, [], IfOk, IsTrue, OnErr, OnOk, true};
ghost use Rattle.std.specs.Vec.{vec_len};
ghost use Rattle.std.specs.FinMap as finmap;
ghost use Rattle.std.specs.Ordering.{eq_by_cmp};
ghost use Rattle.gfx_prog_decode.specs.Records.{key_cmp};
ghost use Rattle.gfx_prog_decode.specs.Undo.{CanBack, IsSavedOf, KeepsRecord, is_saved, records_undone};

use crate::key::Key;
use crate::records::Records;
use crate::saved::SavedTile;
use crate::spare::Spare;
use gfx_base::NoMemory;
use gfx_tile_state::TileState;
use std::alloc::Global;

/// How many cells a surface has at most. Each of them has a place of its own.
const PLACES: usize = 16_384;

/// The records that a message touched, each as it was before, and memory for more of them.
#[derive(Drop)]
pub(crate) struct TileLog {
    pub(crate) tiles: Vec<SavedTile>,
    /// Where among the records that of a cell may stand, if it is kept. Anything may stand here.
    places: Vec<usize>,
    spare: Spare,
}

impl TileLog {
    /// No records. It takes no memory.
    pub(crate) fn new(alloc: Global) -> TileLog
        ensures { result.tiles.items ≡ [] }
    {
        TileLog {
            tiles: Vec::new(alloc),
            places: Vec::new(alloc),
            spare: Spare::new(alloc),
        }
    }

    /// A record, of any state.
    pub(crate) fn tile(&mut self, alloc: Global) -> Result<TileState, NoMemory>
        ensures { self.new.tiles.items ≡ self.old.tiles.items }
    {
        self.spare.tile(alloc)
    }

    /// Keeps a key's record before its first change.
    pub(crate) fn keep(
        &mut self,
        alloc: Global,
        records: &Records,
        key: Key,
    ) -> Result<(), NoMemory>
        ensures ok { OnOk result (KeepsRecord key records.now self.old.tiles.items self.new.tiles.items) }
        ensures err { OnErr result (self.new.tiles.items ≡ self.old.tiles.items) }
    {
        let number = number_of(key);
        make_place(&mut self.places, number)?;
        if !is_kept(&self.tiles, self.places[number], key) {
            let saved = save(alloc, &mut self.spare, records, key)?;
            self.places[number] = self.tiles.len();
            self.tiles.push(saved)?;
        }
        Ok(())
    }

    /// Puts a record in the place of a key's own, which is kept before its first change.
    pub(crate) fn exchange(
        &mut self,
        records: &mut Records,
        key: Key,
        tile: TileState,
    ) -> Result<(), NoMemory>
        ensures exchanged { OnOk result (records.new ≡ finmap.insert records.old key tile) }
        ensures keeps { OnOk result (KeepsRecord key records.old self.old.tiles.items self.new.tiles.items) }
        ensures same { OnErr result (records.new ≡ records.old) }
        ensures log { OnErr result (self.new.tiles.items ≡ self.old.tiles.items) }
    {
        let number = number_of(key);
        make_place(&mut self.places, number)?;
        if is_kept(&self.tiles, self.places[number], key) {
            let old = records.exchange(key, tile)?;
            self.spare.take(old);
            return Ok(());
        }
        self.places[number] = self.tiles.len();
        self.exchange_first(records, key, tile)
    }

    /// The same where the record isn't kept yet: the one that was there is moved to the log.
    fn exchange_first(
        &mut self,
        records: &mut Records,
        key: Key,
        tile: TileState,
    ) -> Result<(), NoMemory>
        ensures exchanged { OnOk result (records.new ≡ finmap.insert records.old key tile) }
        ensures keeps { OnOk result (KeepsRecord key records.old self.old.tiles.items self.new.tiles.items) }
        ensures same { OnErr result (records.new ≡ records.old) }
        ensures log { OnErr result (self.new.tiles.items ≡ self.old.tiles.items) }
    {
        self.tiles.reserve(1)?;
        let old = records.exchange(key, tile)?;
        self.tiles.push_reserved(SavedTile { key, tile: old });
        Ok(())
    }

    /// Puts all records back, the one that was kept last first.
    pub(crate) fn put_back(&mut self, records: &mut Records)
        requires { CanBack self.old.tiles.items records.old }
        ensures { records.new ≡ records_undone self.old.tiles.items records.old }
    {
        'tiles: while let Some(saved) = self.tiles.pop() {
            records.put_back(saved.key, saved.tile);
        }
    }

    /// Lets go of all records and keeps their memory.
    pub(crate) fn spend(&mut self)
        ensures { self.new.tiles.items ≡ [] }
    {
        'tiles: while let Some(saved) = self.tiles.pop() {
            self.spare.take(saved.tile);
        }
    }
}

/// The number of a key's cell, row by row.
fn number_of(key: Key) -> usize
    ensures { result < 2 ^ 32 }
{
    (usize::from(key.y) * 128 + usize::from(key.x)) % PLACES
}

/// Makes a place for this number.
fn make_place(places: &mut Vec<usize>, number: usize) -> Result<(), NoMemory>
    requires { number < 2 ^ 32 }
    ensures { OnOk result (number < vec_len places.new) }
{
    if number >= places.len() {
        places.resize(number + 1, 0)?;
    }
    Ok(())
}

/// Whether a key's record is the one that is kept at this place.
fn is_kept(log: &[SavedTile], place: usize, key: Key) -> bool
    ensures { IsTrue result → is_saved key log.now ≡ true }
{
    place < log.len() && is_same(log[place].key, key)
}

/// Whether two keys are one.
fn is_same(first: Key, second: Key) -> bool
    ensures { result ≡ eq_by_cmp key_cmp first second }
{
    first == second
}

/// A key's record as it is.
fn save(
    alloc: Global,
    spare: &mut Spare,
    records: &Records,
    key: Key,
) -> Result<SavedTile, NoMemory>
    ensures { IfOk result (IsSavedOf key records.now) }
{
    let tile = match records.get(key) {
        Some(tile) => Some(spare.copy(alloc, tile)?),
        None => None,
    };
    Ok(SavedTile { key, tile })
}
