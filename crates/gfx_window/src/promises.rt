//! What the rule of superseding says, as the contract of a call that does nothing.

ghost use Rattle.gfx_window.specs.Rule.{SupersededIsTheRule};

/// An item is superseded exactly where it is a plain write, a later item covers it, and every item
/// between the two is a plain write or a frame.
pub fn superseded_is_the_rule()
    ensures { SupersededIsTheRule }
{}
