//! Choosers that are changed between the turns of a session.
ghost use Rattle.gfx_laws.specs.Choosing.{AnyChoosersMayBeBrought, LaterKindsAreNotSeen};

/// How the steps go that aren't queued yet isn't seen by anything else in a session.
pub fn later_kinds_are_not_seen()
    ensures { LaterKindsAreNotSeen }
{}

/// Whatever choosers are brought to a session that isn't spent, it is one of the schedule's in which the steps that
/// aren't queued yet go as these choose: so what a turn promises holds with other choosers at each turn.
pub fn any_choosers_may_be_brought()
    ensures { AnyChoosersMayBeBrought }
{}
