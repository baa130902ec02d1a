ghost use Rattle.gfx_schedule.specs.Schedule.{EverySchedule, EveryScheduleAlike, EveryScheduleFrom, EveryImport, ImportMayBegin, RoundsEnd};

/// For every accepted script, whatever kinds its steps go as, every order of the turns of its two ends and
/// every cutting of their bytes: neither end refuses anything, and at each frame that the server's end has
/// seen acknowledged, the client's state right after that frame was the same as the server's and showed
/// what the script wants.
pub fn every_schedule()
    ensures { EverySchedule }
{}

/// The same from any start that a session may have: with bitmaps at both ends before the first message, and with a
/// version that is confirmed already.
pub fn every_schedule_from_a_start()
    ensures { EveryScheduleFrom }
{}

/// The same where the two ends' bitmaps may differ in their pixels, as far as it can be then: neither end refuses
/// anything, the window is kept, and at each acknowledged frame the client's state is the server's but for pixels.
pub fn every_schedule_alike()
    ensures { EveryScheduleAlike }
{}

/// Both for a session that begins with bitmaps that its ends kept from an earlier one ([MS-RDPEGFX] 3.2.5.13): it may
/// begin so whichever bitmaps they are, as long as they have the same sides at both ends; and where the two files agree,
/// the two ends are the same at each acknowledged frame and show what the script wants.
pub fn every_import()
    ensures holds { EveryImport }
    ensures begins { ImportMayBegin }
{}

/// Rounds, in which the server's end has a turn and then all bytes are taken both ways, end a session from any start,
/// whatever turns came before.
pub fn rounds_end()
    ensures { RoundsEnd }
{}
