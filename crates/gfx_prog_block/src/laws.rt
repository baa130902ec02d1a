//! What reading and spelling have to do with each other, as contracts of calls that do nothing.

ghost use Rattle.gfx_prog_block.specs.Laws.{ReadIsSpelled, SpelledIsRead, WrittenIsSpelled, OneSpelling};

/// What is read is spelled so, byte for byte but for what sync blocks hold.
pub fn what_is_read_as_blocks_is_spelled()
    ensures { ReadIsSpelled }
{}

/// What is spelled is read, whatever sync blocks hold.
pub fn what_is_spelled_as_blocks_is_read()
    ensures { SpelledIsRead }
{}

/// What `write_blocks` appends is a spelling.
pub fn what_is_written_as_blocks_is_spelled()
    ensures { WrittenIsSpelled }
{}

/// Blocks that are spelled alike are the same.
pub fn blocks_have_one_spelling()
    ensures { OneSpelling }
{}
