//! The caches that a session begins with ([MS-RDPEGFX] 3.2.5.13): copies of kept bitmaps, in their slots.

ghost use Rattle.std.specs.Prelude.{◌≡◌, Ok, IsOk, IfOk, OnOk};
ghost use Rattle.std.specs.FinMap.{empty};
ghost use Rattle.gfx_base.specs.Outcome.{Applies, Gives, WantsOnlyIf};
ghost use Rattle.gfx_bitmap_cache.specs.Slots.{cached, entry, image_of, stored};
ghost use Rattle.gfx_import.specs.Imported.{imported};
ghost use Rattle.gfx_import.specs.Messages.{is_headed};
ghost use Rattle.gfx_import.specs.Started.{cache_by, in_slots, stored_all};

use crate::answering::{Slots, read_reply};
use crate::kept::Kept;
use crate::limits::REPLY;
use crate::taking::{copy_of, imported_at, imported_count};
use gfx_base::{Bitmap, Fault, NoMemory, Refusal};
use gfx_bitmap_cache::Cache;
use std::alloc::Global;

/// No bitmaps, under the limits that `small` chooses.
fn no_bitmaps(alloc: Global, small: bool) -> Cache
    ensures { result ≡ cached empty small }
{
    let mut cache = Cache::new(alloc);
    cache.set_small(small);
    cache
}

/// Stores a copy of a bitmap in a slot. Any fault leaves the cache as it was.
fn store_copy(
    alloc: Global,
    cache: &mut Cache,
    slot: u16,
    key: u64,
    bitmap: &Bitmap,
) -> Result<(), Fault>
    ensures { Applies result cache.old cache.new (stored cache.old slot (entry key (image_of bitmap.now))) }
{
    let copy = copy_of(alloc, bitmap)?;
    cache.store(slot, key, copy)
}

/// Stores copies of the first entries at these slots, in their order. Where there are fewer entries than
/// slots, that is ImportCount.
fn store_at(alloc: Global, kept: &Kept, slots: &Slots, small: bool) -> Result<Cache, Fault>
    ensures { Gives (λ cache. cache) result (stored_all (cached empty small) slots.now kept.now) }
{
    let mut cache = no_bitmaps(alloc, small);
    let mut place = 0;
    'slots: while let Some(slot) = slots.get(place) {
        let Some((key, bitmap)) = kept.at(place) else {
            return Err(Fault::Refused(Refusal::ImportCount));
        };
        store_copy(alloc, &mut cache, slot, key, bitmap)?;
        place += 1;
    }
    Ok(cache)
}

/// The cache that a client which kept these begins a session with, where it is answered by these bytes: copies
/// of its first entries at the slots of the reply, in its order, under the limits that `small` chooses.
///
/// Refusals are those of `read_reply`; then ImportCount, exactly where the reply has more slots than there are
/// entries; then SlotRange and CacheBudget of the stores. Memory is wanted only behind a header that is
/// accepted.
#[tactic(auto, unfolding(crate::specs::Started::cache_by, gfx_base::specs::Results::and_then))]
pub fn import_cache(alloc: Global, kept: &Kept, reply: &[u8], small: bool) -> Result<Cache, Fault>
    ensures value { Gives (λ cache. cache) result (cache_by kept.now reply.now small) }
    ensures memory { WantsOnlyIf result (is_headed REPLY reply.now) }
{
    let slots = read_reply(alloc, reply)?;
    if slots.len() > kept.len() {
        return Err(Fault::Refused(Refusal::ImportCount));
    }
    store_at(alloc, kept, &slots, small)
}

/// Stores a copy of a bitmap in a slot, which the cache has room for.
fn keep_copy(
    alloc: Global,
    cache: &mut Cache,
    slot: u16,
    key: u64,
    bitmap: &Bitmap,
) -> Result<(), NoMemory>
    requires { IsOk (stored cache.old slot (entry key (image_of bitmap.now))) }
    ensures { OnOk result (stored cache.old slot (entry key (image_of bitmap.now)) ≡ Ok cache.new) }
{
    match store_copy(alloc, cache, slot, key, bitmap) {
        Ok(()) => Ok(()),
        Err(Fault::Memory) => Err(NoMemory),
        Err(Fault::Refused(_)) => unreachable!(),
    }
}

/// The cache that a server begins a session of these two files with: copies of the imported bitmaps, as
/// `imported` says, in slots 1, 2 and so on. Nothing else is copied.
pub fn fill_cache(
    alloc: Global,
    server: &Kept,
    client: &Kept,
    small: bool,
) -> Result<Cache, NoMemory>
    ensures { IfOk result (λ cache. cache ≡ cached (in_slots (imported server.now client.now small)) small) }
{
    let count = imported_count(server, client, small);
    let mut cache = no_bitmaps(alloc, small);
    'entries: for place in 0..count {
        let Some((key, bitmap)) = imported_at(server, client, place) else {
            unreachable!()
        };
        keep_copy(alloc, &mut cache, place as u16 + 1, key, bitmap)?;
    }
    Ok(cache)
}
