ghost use Rattle.std.specs.Prelude.{◌≡◌, ℕ, ◌<◌, ◌≤◌, List, ◌++◌, length};
ghost use Rattle.gfx_segment.specs.Framing.{AnyCutting, Whole, Short, front, prefixed};
ghost use Rattle.gfx_segment.specs.Whole.{AreGiven, OthersAreBad};
ghost use Rattle.gfx_base.specs.declared.TheConstants.{MOST_MESSAGE};

/// A law, which does nothing when it is called: however bytes are cut into pieces, a splitter gives
/// the same messages from them, and the same refusal behind those.
pub fn any_cutting_gives_the_same()
    ensures { AnyCutting }
{}

/// A law: a message of 1 to 67,108,864 bytes that stands behind its length is whole, whatever follows,
/// and what is cut off inside is none yet.
pub fn a_prefixed_message_is_whole()
    ensures whole { (message more : List ℕ) → 0 < length message → length message ≤ MOST_MESSAGE
        → front (prefixed message ++ more) ≡ Whole message more }
    ensures short { (message start rest : List ℕ) → 0 < length message → length message ≤ MOST_MESSAGE
        → prefixed message ≡ start ++ rest → 0 < length rest → front start ≡ Short }
{}

/// A law: messages that are sent one after another are given each whole, and no others; and one that no
/// channel message can be, of no bytes or of too many, is a bad length.
pub fn whole_messages_are_given()
    ensures given { AreGiven }
    ensures others { OthersAreBad }
{}
