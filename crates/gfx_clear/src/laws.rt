ghost use Rattle.gfx_clear.specs.Laws.{SentIsDecoded, HeldIsShown};
ghost use Rattle.gfx_clear.specs.Shown.{ResidualShows, SubcodecShows};

/// What is sent is decoded to the picture, whole, and to the state of the sender.
pub fn sent_is_decoded()
    ensures { SentIsDecoded }
{}

/// A picture that stands at the index that it is sent with goes as a hit.
pub fn held_is_shown()
    ensures { HeldIsShown }
{}

/// A residual layer, whoever wrote it, draws its pixels row by row over the whole picture.
pub fn residual_shows()
    ensures { ResidualShows }
{}

/// A subcodec, whoever wrote it, draws its pixels row by row in its rectangle, and nothing else.
pub fn subcodec_shows()
    ensures { SubcodecShows }
{}
