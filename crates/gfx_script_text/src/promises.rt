//! What holds of every script, as the contract of a call that does nothing.

ghost use Rattle.gfx_script_text.specs.Laws.{AcceptedIsGood, KeptIsGood};

/// What the planner may rely on.
pub fn accepted_scripts_are_good()
    ensures { AcceptedIsGood }
{}

/// The same of scripts that start with kept bitmaps.
pub fn kept_scripts_are_good()
    ensures { KeptIsGood }
{}
