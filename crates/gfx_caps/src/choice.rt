//! The choice of a version among those that a client offers.

ghost use Rattle.std.specs.Prelude.{◌≡◌, ◌<◌, IsTrue, length};
ghost use Rattle.gfx_caps.specs.Choice.{has_flag, allows, qualifies, kept_flags, binds_small, flags_of, confirmed, first_of, choice};

use crate::sets::{CapsSet, CapsSets};
use crate::versions::{
    AVC_DISABLED, FLAGS_SIZE, SMALL_CACHE, THIN_CLIENT, VERSION_8, VERSION_8_1, VERSION_10,
};
use gfx_base::{Refusal, field_u32};

/// The version that a server confirms, with the flags that it keeps of those that were offered.
#[derive(Clone, Copy, Debug, PartialEq, Eq)]
pub struct Chosen {
    pub version: u32,
    pub flags: u32,
}

/// The first set of the highest version that qualifies: version 8, 8.1 or 10 with a word of flags, and
/// version 10 not for a thin client. CapsVersion exactly where no set does.
#[tactic(auto, unfolding(crate::specs::Choice::choice))]
pub fn choose_version(sets: &CapsSets) -> Result<Chosen, Refusal>
    ensures { result ≡ choice sets.now }
{
    let offered = sets.as_slice();
    let newest = first_of(offered, VERSION_10);
    if let Some(chosen) = newest {
        return Ok(chosen);
    }
    let middle = first_of(offered, VERSION_8_1);
    if let Some(chosen) = middle {
        return Ok(chosen);
    }
    first_of(offered, VERSION_8).ok_or(Refusal::CapsVersion)
}

/// Whether the small limits on bitmaps bind the client that offered it: it asked for the small cache, or it is
/// thin.
pub fn small_cache(chosen: Chosen) -> bool
    ensures { result ≡ binds_small chosen.flags }
{
    binds_small(chosen.flags)
}

/// Whether flags bind a client to the small limits on bitmaps ([MS-RDPEGFX] 2.2.3.1): RDPGFX_CAPS_FLAG_SMALL_CACHE
/// or RDPGFX_CAPS_FLAG_THINCLIENT is set.
pub fn binds_small(flags: u32) -> bool
    ensures { result ≡ binds_small flags }
{
    has_flag(flags, SMALL_CACHE) || has_flag(flags, THIN_CLIENT)
}

/// The first set that qualifies with this version, as it is confirmed.
fn first_of(sets: &[CapsSet], version: u32) -> Option<Chosen>
    ensures { result ≡ first_of version sets.now }
{
    let set = sets.iter().find(|set| qualifies(set, version))?;
    Some(confirmed(set, version))
}

/// What is confirmed of a set that qualifies with this version.
fn confirmed(set: &CapsSet, version: u32) -> Chosen
    requires { IsTrue (qualifies version set.now) }
    ensures { result ≡ confirmed version set.now }
{
    let flags = flags_of(set) & kept_flags(version);
    Chosen { version, flags }
}

/// Whether a set offers this version with a word of flags, and for a thin client only where the version allows
/// it.
fn qualifies(set: &CapsSet, version: u32) -> bool
    ensures { result ≡ qualifies version set.now }
{
    set.version == version
        && set.body.len() == FLAGS_SIZE
        && allows(version, has_flag(flags_of(set), THIN_CLIENT))
}

/// Whether a client that is thin, or one that isn't, may have this version: version 10 is for no thin client.
pub(crate) fn allows(version: u32, thin: bool) -> bool
    ensures { result ≡ allows version thin }
{
    !(version == VERSION_10 && thin)
}

/// The flags that are kept of a version.
fn kept_flags(version: u32) -> u32
    ensures { result ≡ kept_flags version }
{
    if version == VERSION_10 {
        SMALL_CACHE + AVC_DISABLED
    } else {
        SMALL_CACHE + THIN_CLIENT
    }
}

/// The word of flags of a set that has one.
#[tactic(auto, unfolding(gfx_base::specs::Field::field))]
fn flags_of(set: &CapsSet) -> u32
    requires { length set.now.body ≡ FLAGS_SIZE }
    ensures { result ≡ flags_of set.now }
{
    match field_u32(set.body.as_slice(), 0) {
        Some(word) => word,
        None => 0,
    }
}

/// Whether a word of flags has this flag, which is a power of two.
pub fn has_flag(flags: u32, flag: u32) -> bool
    requires { 0 < flag }
    ensures { result ≡ has_flag flags flag }
{
    flags / flag % 2 == 1
}
