ghost use Rattle.gfx_import.specs.Chosen.{ImportedIsChosen, AgreedIsOwn};
ghost use Rattle.gfx_import.specs.Laws.{FileIsReadBack, OfferIsAnswered, ReplyIsRead, OwnAreCached};

/// A law, which does nothing when it is called: what is written of kept entries is read as these.
pub fn a_kept_file_is_read_back()
    ensures { FileIsReadBack }
{}

/// A law: the offer of a client is answered by as many slots as bitmaps are imported of the two files, and the
/// client reads them, from 1 on, of the reply.
pub fn an_offer_is_answered_by_its_reply()
    ensures answered { OfferIsAnswered }
    ensures read { ReplyIsRead }
{}

/// A law: what is imported of two kept files are the client's first keys, each with the server's bitmap of as many
/// bytes, within the limits, and no more could be. Where the files agree, it is what the client keeps under these keys.
pub fn what_is_imported_is_chosen()
    ensures chosen { ImportedIsChosen }
    ensures agreed { AgreedIsOwn }
{}

/// A law: a client that is answered by the reply to its own offer begins with its own first bitmaps, as many as are
/// imported, in slots 1, 2 and so on; none of them is refused.
pub fn a_client_begins_with_its_own()
    ensures { OwnAreCached }
{}
