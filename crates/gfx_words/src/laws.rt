//! Laws of the command line, each the contract of a function that does nothing.
ghost use Rattle.gfx_words.specs.Laws.{OnlyNamesAndNumbersAreCommands, OnlyNamesAreCommands, OnlyRenderAndFlagAreRenderOutput};

/// Of each command that a name alone makes, exactly that name is it, alone or with the mark `--`
/// before or behind it, as this project's own table has it.
pub fn only_their_names_are_commands()
    ensures { OnlyNamesAreCommands }
{}

/// `render` with the flag `--output` before or behind it, and the mark `--` at most once and
/// behind the flag, is the command `RenderOutput`, and no other words are.
pub fn only_render_and_its_flag_are_render_output()
    ensures { OnlyRenderAndFlagAreRenderOutput }
{}

/// Of `make` and `trial`, and each number, exactly these words are the command of that name and that
/// number: the name, then one to ten decimal digits that write the number, with the mark `--` at most
/// once, before both, between them or behind both. The number is below 2^32; leading zeros are taken
/// within the ten digits, and a sign isn't.
pub fn only_names_with_numbers_are_numbered_commands()
    ensures { OnlyNamesAndNumbersAreCommands }
{}
