ghost use Rattle.gfx_slot_plan.specs.History.{KeepsByUse};
ghost use Rattle.gfx_slot_plan.specs.Started.{KeepsInTurn};

/// A key that is kept makes room by use: each other key that goes was kept or shown before each key that
/// is held afterwards. Exactly those go whose slots are told, and no more than have to.
pub fn least_recently_used_go()
    ensures { KeepsByUse }
{}

/// Keys that are kept one after another in a plan with none get slots 1, 2 and so on, and none goes for them,
/// as long as there is a slot and room.
pub fn keys_are_kept_in_turn()
    ensures { KeepsInTurn }
{}
