//! The flags of a capability set that is confirmed.
ghost use Rattle.std.specs.Prelude.{◌≡◌, ◌==◌, ◌&&◌, length};
ghost use Rattle.gfx_state.specs.Step.{is_version, has_small_cache};

use gfx_base::field_u32;
use gfx_caps::{FLAGS_SIZE, VERSION_8, VERSION_8_1, VERSION_10, binds_small};

/// Whether the version and the size of its flags are among those that are built.
pub(crate) fn is_confirmed(version: u32, flags: &[u8]) -> bool
    ensures { result ≡ (is_version version && length flags.now == FLAGS_SIZE) }
{
    is_version(version) && flags.len() == FLAGS_SIZE
}

fn is_version(version: u32) -> bool
    ensures { result ≡ is_version version }
{
    version == VERSION_8 || version == VERSION_8_1 || version == VERSION_10
}

/// Whether the flags choose the small limits.
#[tactic(auto, unfolding(gfx_base::specs::Field::field))]
pub(crate) fn has_small_cache(flags: &[u8]) -> bool
    requires { length flags.now ≡ FLAGS_SIZE }
    ensures { result ≡ has_small_cache flags.now }
{
    match field_u32(flags, 0) {
        Some(word) => binds_small(word),
        None => false,
    }
}
