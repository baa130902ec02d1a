//! What a program of one's own concludes that joins the two ends.

ghost use Rattle.gfx_laws.specs.Callers.{AcceptedMayBegin, ChosenKindsFit, DrainingIsTurns, JoinedBegin, JoinedDraw, JoinedHear, JoinedServe, KeptHoldsAtStart};
ghost use Rattle.gfx_laws.specs.Refusing.{AlikeRefuseTogether, KeptLimitsAreTheSame};

/// A session of an accepted script may begin with nothing; its steps may go as choosers choose; and what a server's end
/// has that begins with kept bitmaps is in step with the script.
pub fn sessions_may_begin()
    ensures nothing { AcceptedMayBegin }
    ensures chosen { ChosenKindsFit }
    ensures kept { KeptHoldsAtStart }
{}

/// Rounds, by which a session is drained, are turns of the schedule.
pub fn draining_is_turns()
    ensures { DrainingIsTurns }
{}

/// A server's end and a client, with the bytes between them in two queues of a caller's, stand for a world of the schedule,
/// and each of their calls is one turn of it.
pub fn joined_ends_are_a_session()
    ensures begins { JoinedBegin }
    ensures serves { JoinedServe }
    ensures draws { JoinedDraw }
    ensures hears { JoinedHear }
{}

/// Of two states that are alike and bound by the same limits each accepts what the other accepts; and so are the ends of a
/// session that begins with kept bitmaps.
pub fn alike_ends_refuse_together()
    ensures refuse { AlikeRefuseTogether }
    ensures limits { KeptLimitsAreTheSame }
{}
