//! Which entries are taken of an offer, and which bitmaps a session begins with.

ghost use Rattle.std.specs.Prelude.{◌≡◌, ◌+◌, ◌≤◌, ◌<◌, ◌*◌, Bool, length, slice_get, IfOk};
ghost use Rattle.std.specs.Option.{option_map};
ghost use Rattle.gfx_bitmap_cache.specs.Slots.{entry, image_of, bytes_for};
ghost use Rattle.gfx_import.specs.Entries.{IsKept};
ghost use Rattle.gfx_import.specs.Imported.{answered, imported};

use crate::kept::Kept;
use crate::limits::MOST_PIXELS;
use crate::room::Room;
use gfx_base::{Bitmap, Items, NoMemory, Pixels};
use gfx_bitmap_cache::bytes_for;
use gfx_caps::CacheEntry;
use std::alloc::Global;

/// How many of the first entries of an offer are taken. It takes no memory.
pub(crate) fn count_taken(server: &Kept, offers: &Items<CacheEntry>, small: bool) -> u16
    ensures { result ≡ length (answered server.now offers.now small) }
{
    let mut room = Room::new(small);
    let mut count = 0;
    'offers: while let Some(one) = offers.get(usize::from(count)) {
        if room.take(server, one.key, u64::from(one.length)).is_none() {
            return count;
        }
        count += 1;
    }
    count
}

/// How many of the client's first entries are imported, as `imported` says. It takes no memory. The server's
/// bitmaps of their keys are lent by `imported_at`.
pub fn imported_count(server: &Kept, client: &Kept, small: bool) -> usize
    ensures count { result ≡ length (imported server.now client.now small) }
    ensures kept { IsKept client.now }
{
    let mut room = Room::new(small);
    let mut count = 0;
    'entries: while let Some((key, bitmap)) = client.at(count) {
        let length = bytes_for(bitmap.width, bitmap.height);
        if room.take(server, key, length).is_none() {
            return count;
        }
        count += 1;
    }
    count
}

/// The imported entry at a place below `imported_count`, counted from 0: its key, and the server's bitmap. It
/// takes no memory. At a place further on it answers anything.
pub fn imported_at<'a>(server: &'a Kept, client: &Kept, place: usize) -> Option<(u64, &'a Bitmap)>
    ensures { (small : Bool) → place < length (imported server.now client.now small) → option_map (λ held. entry held.0 (image_of held.1.now)) result ≡ slice_get (imported server.now client.now small) place }
{
    let (key, _) = client.at(place)?;
    let bitmap = server.find(key)?;
    Some((key, bitmap))
}

/// A bitmap with the same sides and pixels.
pub(crate) fn copy_of(alloc: Global, bitmap: &Bitmap) -> Result<Bitmap, NoMemory>
    ensures { IfOk result (λ copy. image_of copy ≡ image_of bitmap.now) }
{
    let mut pixels = Pixels::new(alloc);
    pixels.append(bitmap.pixels.as_slice())?;
    Ok(Bitmap {
        width: bitmap.width,
        height: bitmap.height,
        pixels,
    })
}

/// What a session of these two files begins with ([MS-RDPEGFX] 3.2.5.13): the client's first keys, each with
/// the server's bitmap. One is taken where the server has its key with as many bytes, and where it and all
/// before it have slots and are within the budget of the cache, which `small` chooses; the first that isn't
/// taken ends the list. They stand in slots 1, 2 and so on. The server's bitmaps are copied.
pub fn imported(alloc: Global, server: &Kept, client: &Kept, small: bool) -> Result<Kept, NoMemory>
    ensures { IfOk result (λ kept. kept ≡ imported server.now client.now small) }
{
    let mut room = Room::new(small);
    let mut kept = Kept::new(alloc);
    let mut place = 0;
    'entries: while let Some((key, bitmap)) = client.at(place) {
        let length = bytes_for(bitmap.width, bitmap.height);
        let Some(held) = room.take(server, key, length) else {
            return Ok(kept);
        };
        let copy = copy_of(alloc, held)?;
        kept.add(key, copy)?;
        place += 1;
    }
    Ok(kept)
}
