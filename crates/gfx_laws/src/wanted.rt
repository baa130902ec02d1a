//! What a script wants to be seen, pixel by pixel and tile by tile, from any start.
ghost use Rattle.gfx_laws.specs.Keeps.{BitmapsAreAsKept, StartingBitmapsStay};
ghost use Rattle.gfx_laws.specs.Levels.{PaintsShowTheirLevel};
ghost use Rattle.gfx_laws.specs.Lives.{LiveTilesGoOn};
ghost use Rattle.gfx_laws.specs.Premises.{MayGoFromKept, MayGoFromNothing, PaintsLieOnTheirSurface, WantedSurfacesArePictures};
ghost use Rattle.gfx_laws.specs.Seen.{WantedPixelsAreAsWritten};

/// Each pixel is as a step wrote it, until a later one writes there, ends the tile that shows it, or deletes its surface.
pub fn pixels_are_as_written()
    ensures { WantedPixelsAreAsWritten }
{}

/// What was painted in passes shows at the level that it was raised to, as long as no step writes in the pixel's cell.
pub fn paints_show_their_level()
    ensures { PaintsShowTheirLevel }
{}

/// A paint in passes leaves a live tile in each cell that it meets, an improvement raises each of its surface, and a tile
/// ends exactly with a step that writes in its cell or deletes its surface.
pub fn live_tiles_go_on()
    ensures { LiveTilesGoOn }
{}

/// The bitmap of a key is the rectangle that the key was kept of last, as that stood; where no step has kept it, it is the
/// one that the key had at the start.
pub fn bitmaps_are_as_kept()
    ensures kept { BitmapsAreAsKept }
    ensures started { StartingBitmapsStay }
{}

/// What these laws take of a script is so: it may go from nothing, and from kept bitmaps; its surfaces are pictures; and
/// what it paints lies on its surface.
pub fn premises_hold()
    ensures from_nothing { MayGoFromNothing }
    ensures from_kept { MayGoFromKept }
    ensures pictures { WantedSurfacesArePictures }
    ensures paints { PaintsLieOnTheirSurface }
{}
