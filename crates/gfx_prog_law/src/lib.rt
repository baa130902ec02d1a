//! What a server's progressive messages are to a client: they are accepted and show what was sent, and all messages of a
//! paint or of an improvement are taken, whatever was live before, so that live tiles and records agree after them.
//!
//! It holds laws alone: nothing goes in and nothing comes out. In the pipe it stands on both directions of the progressive
//! codec and on the tiles that a server has live (`gfx_prog_live`); the planner stands on it.
#![tactic(auto)]

ghost use Rattle.gfx_prog_law.specs.Accepted.{ImproveIsAccepted, PaintIsAccepted};
ghost use Rattle.gfx_prog_law.specs.Message.{ImproveIsShort, PaintIsShort};
ghost use Rattle.gfx_prog_law.specs.Taken.{ImprovementsAreTaken, PaintsAreTaken};

/// The data that paint tiles are accepted, and leave each tile's record at the first level, shown.
pub fn paint_is_accepted()
    ensures { PaintIsAccepted }
{}

/// The data that improve them are accepted, and leave each tile's record at its level, shown.
pub fn improve_is_accepted()
    ensures { ImproveIsAccepted }
{}

/// The data that paint tiles are short.
pub fn paint_is_short()
    ensures { PaintIsShort }
{}

/// The data that improve them are short.
pub fn improve_is_short()
    ensures { ImproveIsShort }
{}

/// The messages of a paint in passes are taken, whatever was live: records and live tiles agree after them.
pub fn paints_are_taken()
    ensures { PaintsAreTaken }
{}

/// So are those of an improvement.
pub fn improvements_are_taken()
    ensures { ImprovementsAreTaken }
{}
