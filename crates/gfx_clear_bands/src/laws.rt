ghost use Rattle.gfx_clear_bands.specs.Pixels.{BandShows};
ghost use Rattle.gfx_clear_bands.specs.ReadBack.{ReadsBack};

/// What is written is read back: it draws the picture, and leaves the rings as writing left them.
pub fn written_is_read()
    ensures { ReadsBack }
{}

/// A band, whoever wrote it, draws its columns in the rectangle that its head says, and nothing else.
pub fn band_shows()
    ensures { BandShows }
{}
