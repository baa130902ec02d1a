ghost use Rattle.gfx_dvc.specs.Laws.{StepsJoin, OneJoining, AnyCutting, CuttingJoins};
ghost use Rattle.gfx_dvc.specs.Recording.{RecordedIsWhole, CutIsShort};

/// A law, which does nothing when it is called: whatever the fragments, taking one after another gives the messages
/// that are joined of them, and leaves the message that is open then or the first refusal; and nothing else is joined
/// of them.
pub fn taking_joins()
    ensures steps { StepsJoin }
    ensures only { OneJoining }
{}

/// A law: a message that is cut into a DATA_FIRST and DATA, or stands in a DATA alone, is given by taking these
/// fragments, whole and with the last of them, however it was cut and whatever follows.
pub fn any_cutting_gives_the_message()
    ensures given { AnyCutting }
    ensures joined { CuttingJoins }
{}

/// A law: a fragment of 1 to 1,600 bytes that stands behind its length is whole, whatever follows, and what is cut off
/// inside is none yet.
pub fn a_recorded_fragment_is_whole()
    ensures whole { RecordedIsWhole }
    ensures cut { CutIsShort }
{}
