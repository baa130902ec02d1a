//! What a client shows at the frames that the server's end has seen acknowledged: the main theorem of README.
ghost use Rattle.gfx_laws.specs.Acknowledged.{
  EveryFeedFromNothingShowsItsScript,
  EveryFeedShowsItsScript,
  EveryFedImportShowsItsScript,
  EveryImportShowsItsScript,
  EverySessionShowsItsScript,
  EveryStartShowsItsScript,
};

/// For every accepted script, whatever kinds its steps go as, in whatever order the two ends move and wherever their
/// bytes are cut: neither end refuses anything; and at each frame that the server's end has seen acknowledged, the
/// client's surfaces, cache slots and ClearCodec stores right after that frame were those of the server, both ends showed
/// what the script wants, and each pixel that a step wrote, and no later one has ended, was as that step wrote it.
pub fn every_session_shows_its_script()
    ensures from_nothing { EverySessionShowsItsScript }
    ensures from_kept { EveryImportShowsItsScript }
    ensures from_a_start { EveryStartShowsItsScript }
{}

/// The same of a session that is fed, of the whole script so far.
pub fn every_feed_shows_its_script()
    ensures from_nothing { EveryFeedFromNothingShowsItsScript }
    ensures from_kept { EveryFedImportShowsItsScript }
    ensures from_a_start { EveryFeedShowsItsScript }
{}
