ghost use Rattle.gfx_planner.specs.JoinedShown.{JoinedFramesAreShown};
ghost use Rattle.gfx_planner.specs.Shows.{ScriptsAreShown};
ghost use Rattle.gfx_planner.specs.Within.{StepsWriteWithin};
ghost use Rattle.gfx_planner.specs.Sources.{ClearPaintsShowTheirSource};
ghost use Rattle.gfx_planner.specs.TilesShown.{LiveTilesAreShown};

/// The stream of an accepted script is accepted whole, and after each of its steps, its frames among
/// them, the state is the planner's own and shows what the script wants.
pub fn streams_show_their_scripts()
    ensures { ScriptsAreShown }
{}

/// No step changes a pixel outside of where it writes.
pub fn steps_write_within()
    ensures { StepsWriteWithin }
{}

/// A frame that several steps share is accepted whole, and after it the state is the planner's own and
/// shows what the steps want.
pub fn joined_frames_are_shown()
    ensures { JoinedFramesAreShown }
{}

/// A paint by ClearCodec shows its picture, in each pixel, until a later step writes there.
pub fn clear_paints_show_their_source()
    ensures { ClearPaintsShowTheirSource }
{}

/// While a tile of a paint in passes is live, its surface shows it as it is at its level; at the last level this is
/// the direct decoding of its own values.
pub fn live_tiles_are_shown()
    ensures { LiveTilesAreShown }
{}
