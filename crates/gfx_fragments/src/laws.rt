ghost use Rattle.gfx_fragments.specs.Laws.{StreamComesBack, WritesEach, WritesJoined, NamesRefused, AnyCutting};

/// A law, which does nothing when it is called: `fragment` records each message of a stream as the writer cuts it, and
/// `join` of `fragment` of a whole stream is that stream, where both the stream and its recording of fragments are
/// within the limit.
pub fn a_stream_comes_back()
    ensures each { WritesEach }
    ensures whole { StreamComesBack }
{}

/// A law: whatever the fragments of a recording, `join` writes the messages that are joined of them, and ends with the
/// refusal that a joiner keeps then and the number of the first fragment that isn't accepted, where the recording is
/// within the limit; and messages whose fragments were cut in any way are written whole.
pub fn any_cutting_is_joined()
    ensures joined { WritesJoined }
    ensures refused { NamesRefused }
    ensures cutting { AnyCutting }
{}
