ghost use Rattle.gfx_schedule.specs.Forgetting.{ForgettingIsPlanned, StaysBehind};

/// What waits stays behind the steps that are forgotten. Where nothing waits and nothing is left, a session of the script
/// that has forgotten all of them may have begun there.
pub fn forgetting_is_not_seen()
    ensures behind { StaysBehind }
    ensures planned { ForgettingIsPlanned }
{}
