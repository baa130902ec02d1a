//! Asking choosers.
ghost use Rattle.std.specs.Prelude.{◌≡◌, IsSome};
ghost use Rattle.gfx_chooser.specs.Choosing.{AreAlike, chosen};
ghost use Rattle.gfx_chooser.specs.Kinded.{Goes};
ghost use Rattle.gfx_chooser.specs.Seen.{seen};
ghost use Rattle.gfx_script.specs.Script.{step_at};

use crate::chooser::Chooser;
use crate::facts::{Facts, facts_of};
use gfx_script::{Kind, Script};

/// Asks these choosers in order until one answers, and answers that kind, or `Residual` where none did. Those
/// that are spent then are dropped. It takes no memory.
pub fn choose<C: Chooser>(choosers: &mut Vec<C>, facts: &Facts<'_>) -> Kind
    ensures kind { result ≡ (chosen (seen C.reply C.is_spent choosers.old.items) facts.now).kind }
    ensures left { AreAlike (seen C.reply C.is_spent choosers.new.items) (chosen (seen C.reply C.is_spent choosers.old.items) facts.now).left }
{
    let mut at = 0;
    'choosers: while at < choosers.len() {
        let answer = choosers[at].choose(facts);
        if choosers[at].spent() {
            choosers.remove(at);
        } else {
            at += 1;
        }
        if let Some(kind) = answer {
            return kind;
        }
    }
    Kind::Residual
}

/// The kind that the step of this number, counted from 1, goes as: these choosers are asked where it is a paint
/// that names none. Steps that are no paints have none.
pub fn kind_at<C: Chooser>(script: &Script, number: u32, choosers: &mut Vec<C>) -> Option<Kind>
    requires { IsSome (step_at script.now.steps number) }
    ensures { Goes script.now number (step_at script.now.steps number) result (seen C.reply C.is_spent choosers.old.items) (seen C.reply C.is_spent choosers.new.items) }
{
    match facts_of(script, number) {
        Some(facts) => Some(choose(choosers, &facts)),
        None => script.step(number)?.kind(),
    }
}
