ghost use Rattle.gfx_schedule.specs.Leaving.{LeavingIsAllowed, LeavingIsNotSeen, LeavingIsSuperseding, LeavingOnlyLeaves};

/// A frame without the pending items that are superseded leads to what is wanted after all of them,
/// whatever was wanted before it: the same pixels on each surface, the same maps, the same bitmaps, the same
/// tiles that may be raised.
pub fn leaving_is_not_seen()
    ensures { LeavingIsNotSeen }
{}

/// Where the checks of all pending steps hold, one after another, so do those of the steps that are kept.
pub fn leaving_is_allowed()
    ensures { LeavingIsAllowed }
{}

/// The items that are kept are those that a walk over the places finds that aren't superseded.
pub fn leaving_is_superseding()
    ensures { LeavingIsSuperseding }
{}

/// Nothing is kept that wasn't there.
pub fn leaving_only_leaves()
    ensures { LeavingOnlyLeaves }
{}
