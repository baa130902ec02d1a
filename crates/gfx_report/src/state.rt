//! The digest of a state.
ghost use Rattle.std.specs.Prelude.{◌≡◌};
ghost use Rattle.sha2.specs.Sha256.{sha256};
ghost use Rattle.gfx_report.specs.Hashing.{Took};
ghost use Rattle.gfx_report.specs.StateBytes.{state_bytes, surfaces_bytes, slots_bytes};

use crate::decoder::add_decoder;
use crate::hashing::{add_slot, add_surface};
use gfx_bitmap_cache::Cache;
use gfx_clear::ClearState;
use gfx_surface_map::SurfaceMap;
use sha2::{Digest, Sha256};

/// The SHA-256 of a state's bytes: those of all surfaces by ascending id, of all filled slots, ascending, and
/// of what the ClearCodec decoder holds: its bars, shorts and glyphs, each ascending, and its two cursors. It
/// takes no memory, and copies no picture. The bytes are this project's own rule.
pub fn digest(surfaces: &SurfaceMap, cache: &Cache, clear: &ClearState) -> [u8; 32]
    ensures { result ≡ sha256 (state_bytes surfaces.now.shown.surfaces cache.now.slots clear.now.rings clear.now.glyphs) }
{
    let mut hasher = Sha256::new();
    add_surfaces(surfaces, &mut hasher);
    add_slots(cache, &mut hasher);
    add_decoder(clear, &mut hasher);
    hasher.finalize()
}

/// Adds all surfaces by ascending id.
fn add_surfaces(surfaces: &SurfaceMap, hasher: &mut Sha256)
    ensures { Took hasher.old hasher.new (surfaces_bytes surfaces.now.shown.surfaces) }
{
    let mut from = 0;
    'surfaces: while let Some(id) = surfaces.next_id(from) {
        let surface = surfaces.get(id).unwrap();
        add_surface(id, surface, hasher);
        let Some(next) = id.checked_add(1) else {
            return;
        };
        from = next;
    }
}

/// Adds all filled slots, ascending.
fn add_slots(cache: &Cache, hasher: &mut Sha256)
    ensures { Took hasher.old hasher.new (slots_bytes cache.now.slots) }
{
    let mut from = 0;
    'slots: while let Some(slot) = cache.next_slot(from) {
        let key = cache.key(slot).unwrap();
        let bitmap = cache.show(slot).unwrap();
        add_slot(slot, key, bitmap, hasher);
        from = slot + 1;
    }
}
