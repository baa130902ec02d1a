//! What stands for steps and pictures that a script has forgotten.

ghost use Rattle.std.specs.Prelude.{◌≡◌, ◌++◌, replicate};
ghost use Rattle.std.specs.List.{slice_get};
ghost use Rattle.std.specs.Option.{option_copied};
ghost use Rattle.gfx_script.specs.Drafts.{sides_of};
ghost use Rattle.gfx_script.specs.Forgetting.{blank};

use crate::held::Sides;

/// The sides of a picture that is forgotten.
pub(crate) const BLANK_SIDES: Sides = Sides {
    width: 1,
    height: 1,
};

/// The item of this number, counted from 0, if there is one: so many are forgotten, for each of which one stands, and
/// these are the others.
#[inline(always)]
pub(crate) fn numbered<'a, T>(
    forgotten: u32,
    standing: &'a T,
    others: &'a [T],
    number: u32,
) -> Option<&'a T>
    ensures { option_copied result ≡ slice_get (replicate forgotten standing.now ++ others.now) number }
{
    if number < forgotten {
        return Some(standing);
    }
    others.get((number - forgotten) as usize)
}
