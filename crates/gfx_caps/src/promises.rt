//! What reading and spelling a client's messages have to do with each other, as contracts of calls that
//! do nothing.

ghost use Rattle.gfx_caps.specs.Laws.{ReadIsSpelled, SpelledIsRead, WrittenIsSpelled};

/// What is read is spelled so, byte for byte but for flags.
pub fn what_is_read_from_a_client_is_spelled()
    ensures { ReadIsSpelled }
{}

/// What is spelled is read, whatever its flags are.
pub fn what_is_spelled_for_a_client_is_read()
    ensures { SpelledIsRead }
{}

/// What `write_client` appends is a spelling.
pub fn what_is_written_for_a_client_is_spelled()
    ensures { WrittenIsSpelled }
{}
