//! What is seen on the surfaces of a script.
ghost use Rattle.gfx_laws.specs.PassesShown.{PaintsInPassesShowTheirSource};
ghost use Rattle.gfx_laws.specs.Raised.{ImprovementsRaiseLiveTiles};
ghost use Rattle.gfx_laws.specs.Stays.{PixelsStayUntilWritten};
ghost use Rattle.gfx_laws.specs.Thin.{ThinClientsHaveNoLiveTiles};
ghost use Rattle.gfx_laws.specs.VideoShown.{VideoPaintsShowTheirSource};

/// Right after a paint in passes each pixel of its place is its cell's tile at the first level, whose values are the
/// quantised pixels of the picture, the nearest ones outside of it; all other pixels are as they were.
pub fn paints_in_passes_show_their_source()
    ensures { PaintsInPassesShowTheirSource }
{}

/// Right after a paint that goes as video each pixel of its place is that of the tile of its square, counted from the
/// paint's corner, whose values are the quantised pixels of the picture, the nearest ones outside of it, and which goes
/// on nothing; all other pixels are as they were.
pub fn video_paints_show_their_source()
    ensures { VideoPaintsShowTheirSource }
{}

/// To a thin client nothing goes in passes: no tile is live, whatever kinds its steps go as, and an improvement sends
/// none.
pub fn thin_clients_have_no_live_tiles()
    ensures { ThinClientsHaveNoLiveTiles }
{}

/// An improvement raises each live tile of its surface that is below the last level, and no other; it changes no
/// pixel but those of the tiles that it raises.
pub fn improvements_raise_live_tiles()
    ensures { ImprovementsRaiseLiveTiles }
{}

/// A pixel of a surface that is there all along is as it was through all steps that don't write it, improvements
/// among them: what a paint by ClearCodec drew, and what a tile shows, stays until a step writes there.
pub fn pixels_stay_until_written()
    ensures { PixelsStayUntilWritten }
{}
