ghost use Rattle.gfx_schedule.specs.Sparing.{AllIsForgotten, LeftOutStaysSo, SparedGrows, SparedServesAlike, SparedStaysSo, SparingIsPlanned, WaitingIsSpared};

/// A script that has forgotten steps that nothing waits for, and pictures that no step paints which is left or which has to
/// be sent, serves and hears as the whole one. It does so still when the session goes on, and when both grow by the same new
/// pictures and steps; a paint that is left out stays so when more is queued. Where nothing is left, it may forget pixels of
/// all pictures but of those whose paints surely have to be sent, and where nothing waits either, all of it. A server's end
/// is in step with it still.
pub fn sparing_is_not_seen()
    ensures serves_alike { SparedServesAlike }
    ensures stays { SparedStaysSo }
    ensures left_out { LeftOutStaysSo }
    ensures grows { SparedGrows }
    ensures all { AllIsForgotten }
    ensures waiting { WaitingIsSpared }
    ensures planned { SparingIsPlanned }
{}
