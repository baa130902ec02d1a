//! What a stream comes to.
ghost use Rattle.gfx_laws.specs.Delivered.{WholeMessagesAreDelivered};

/// A whole channel message of any stream applies the messages of its payload, however that is cut into blocks, or is
/// refused as its payload is; the bytes behind it come after them.
pub fn whole_messages_are_delivered()
    ensures { WholeMessagesAreDelivered }
{}
