ghost use Rattle.gfx_chooser.specs.Laws.{ChosenKindsFit};

/// Whatever the choosers answer, each step of a script goes as a kind that it may go as.
pub fn chosen_kinds_fit()
    ensures { ChosenKindsFit }
{}
