ghost use Rattle.gfx_schedule.specs.Suspending.{SuspendingIsTaken, ToldStaysTold, UnwatchedIsTaken};

/// A client that suspends its acknowledgements may go on with them: a server's end takes each of a frame that went
/// unwatched, at whatever depth, and refuses and tells nothing. Whatever it hears, what it told of before stays. And a
/// client that suspends its acknowledgements in the midst of a session, and acknowledges each frame in its order all the
/// same, is refused nothing.
pub fn unwatched_frames_are_taken()
    ensures taken { UnwatchedIsTaken }
    ensures told { ToldStaysTold }
    ensures session { SuspendingIsTaken }
{}
