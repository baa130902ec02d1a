ghost use Rattle.gfx_schedule.specs.Feeding.{
  EveryFedImport,
  EveryFeed,
  EveryFeedAlike,
  EveryFeedFromNothing,
  FeedingIsScripting,
  LaterStepsAreNotSeen,
  WaitingWaitsForTheClient,
};
ghost use Rattle.gfx_schedule.specs.Growing.{ChecksMakeFeeds, GrowthIsGood, GrowthIsPlanned, GrowthStaysInStep};

/// Turns of which each of the server's end finds a whole script frame left do the same in a longer script.
pub fn later_steps_are_not_seen()
    ensures { LaterStepsAreNotSeen }
{}

/// A session whose script grows while it goes on is one of the whole script so far, after some turns.
pub fn feeding_is_scripting()
    ensures { FeedingIsScripting }
{}

/// So the promise of every schedule holds of it: neither end ever refuses anything, and at each acknowledged frame the
/// client showed what the script so far wants.
pub fn every_feed()
    ensures from_a_start { EveryFeed }
    ensures alike { EveryFeedAlike }
    ensures from_nothing { EveryFeedFromNothing }
    ensures from_kept { EveryFedImport }
{}

/// Where its server's end has nothing to do and steps wait, it waits for its client: no version is confirmed, or the window
/// is full.
pub fn waiting_waits_for_the_client()
    ensures { WaitingWaitsForTheClient }
{}

/// A script that is good stays good when it grows, by checks of what is new alone; growths that pass such checks feed a
/// session; and a server's end that is in step with a script is so with a longer one.
pub fn growth_is_good()
    ensures good { GrowthIsGood }
    ensures checked { ChecksMakeFeeds }
    ensures planned { GrowthIsPlanned }
    ensures in_step { GrowthStaysInStep }
{}
