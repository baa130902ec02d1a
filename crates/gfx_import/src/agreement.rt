//! Whether two kept files show the same.

ghost use Rattle.std.specs.Prelude.{◌≡◌};
ghost use Rattle.std.specs.Option.{option_map};
ghost use Rattle.gfx_bitmap_cache.specs.Slots.{image_of};
ghost use Rattle.gfx_import.specs.Agreed.{agree, agrees, have_same_sides, same_image, same_sides};

use crate::kept::Kept;
use crate::taking::{imported_at, imported_count};
use gfx_base::Bitmap;
use gfx_bitmap_cache::bytes_for;

/// Whether two bitmaps have the same sides and the same pixels.
fn same_bitmap(one: &Bitmap, other: &Bitmap) -> bool
    ensures { result ≡ same_image (image_of one.now) (image_of other.now) }
{
    one.width == other.width
        && one.height == other.height
        && one.pixels.as_slice() == other.pixels.as_slice()
}

/// Whether a bitmap agrees with what the other end has under its key, if it has anything.
fn agrees(bitmap: &Bitmap, other: Option<&Bitmap>) -> bool
    ensures { result ≡ agrees (image_of bitmap.now) (option_map (λ held. image_of held.now) other.entry) }
{
    match other {
        Some(held) => {
            bytes_for(bitmap.width, bitmap.height) != bytes_for(held.width, held.height)
                || same_bitmap(bitmap, held)
        }
        None => true,
    }
}

/// Whether two kept files agree: false exactly where both hold a key with as many bytes, and with another size
/// or other pixels. It takes no memory.
pub fn agree(server: &Kept, client: &Kept) -> bool
    ensures { result ≡ agree server.now client.now }
{
    let mut place = 0;
    'entries: while let Some((key, bitmap)) = client.at(place) {
        if !agrees(bitmap, server.find(key)) {
            return false;
        }
        place += 1;
    }
    true
}

/// Whether two bitmaps have the same sides.
fn same_sides(one: &Bitmap, other: &Bitmap) -> bool
    ensures { result ≡ same_sides (image_of one.now) (image_of other.now) }
{
    one.width == other.width && one.height == other.height
}

/// Whether each bitmap that is imported of two kept files, as `imported` says, has the same sides at both ends, whatever it
/// shows. It is so wherever the files agree; else two bitmaps of one key may have as many bytes and other sides. It takes no
/// memory.
pub fn have_same_sides(server: &Kept, client: &Kept, small: bool) -> bool
    ensures { result ≡ have_same_sides server.now client.now small }
{
    let count = imported_count(server, client, small);
    'entries: for place in 0..count {
        let Some((_, bitmap)) = imported_at(server, client, place) else {
            unreachable!()
        };
        let Some((_, own)) = client.at(place) else {
            return false;
        };
        if !same_sides(bitmap, own) {
            return false;
        }
    }
    true
}
