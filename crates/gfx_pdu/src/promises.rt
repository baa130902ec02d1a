//! What reading and spelling have to do with each other, as contracts of calls that do nothing.

ghost use Rattle.gfx_pdu.specs.Laws.{ReadIsSpelled, SpelledIsRead, WrittenIsSpelled, CutIsTruncated};

/// What is read stands at the front of the bytes, byte for byte but for flags and padding.
pub fn what_is_read_is_spelled()
    ensures { ReadIsSpelled }
{}

/// What is spelled is read, whatever follows, and whatever its flags and its padding are.
pub fn what_is_spelled_is_read()
    ensures { SpelledIsRead }
{}

/// What `write_pdu` appends is a spelling.
pub fn what_is_written_is_spelled()
    ensures { WrittenIsSpelled }
{}

/// A beginning of a message that is neither empty nor the whole is PduTruncated.
pub fn a_cut_message_is_truncated()
    ensures { CutIsTruncated }
{}
