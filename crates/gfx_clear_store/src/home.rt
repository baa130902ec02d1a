//! Where the index keeps the places of given pixels.
ghost use Rattle.std.specs.Prelude.{◌≡◌, ◌<◌};
ghost use Rattle.gfx_clear_store.specs.Home.{home_of};

use gfx_base::{Rgb, hash_of};

/// The home of these pixels, in a ring of so many places.
#[inline(always)]
#[tactic(auto, unfolding(crate::specs::Home::home_of))]
pub(crate) fn home_of(count: u16, pixels: &[Rgb]) -> u16
    requires { 0 < count }
    ensures home { result ≡ home_of count pixels.now }
    ensures within { result < count }
{
    let hash = hash_of(pixels);
    ((hash >> 32) % u64::from(count)) as u16
}
