//! What chooses a kind.
ghost use Rattle.std.specs.Prelude.{◌≡◌, List, [], ◌∷◌};
ghost use Rattle.gfx_chooser.specs.declared.facts.Facts.{Facts as Paint};

use crate::facts::Facts;
use gfx_script::Kind;

/// What chooses the kind that a picture goes as, where its paint names none. Its answer is a function of what
/// it holds, what it was asked before, and what it is asked.
pub trait Chooser: Drop {
    ghost use Rattle.std.specs.Prelude.{Bool, List, Option};
    ghost use Rattle.gfx_script.specs.declared.step.Kind.{Kind as SentAs};

    /// What it answers to a paint, once it was asked these.
    ghost reply: { Self → List Paint → Paint → Option SentAs };

    /// It is spent once it was asked these.
    ghost is_spent: { Self → List Paint → Bool };

    /// The kind that a picture is to go as, or none where others are to be asked.
    fn choose(&mut self, facts: &Facts<'_>) -> Option<Kind>
        ensures answer { result ≡ reply self.old [] facts.now }
        ensures replies { (before : List Paint) (next : Paint) → reply self.new before next ≡ reply self.old (facts.now ∷ before) next }
        ensures spends { (before : List Paint) → is_spent self.new before ≡ is_spent self.old (facts.now ∷ before) };

    /// Whether it will be asked no more.
    fn spent(&self) -> bool
        ensures { result ≡ is_spent self.now [] };
}

impl Chooser for Box<dyn Chooser> {
    ghost reply = { λ chooser. (Chooser-box chooser).reply chooser.value };

    ghost is_spent = { λ chooser. (Chooser-box chooser).is_spent chooser.value };

    fn choose(&mut self, facts: &Facts<'_>) -> Option<Kind> {
        (**self).choose(facts)
    }

    fn spent(&self) -> bool {
        (**self).spent()
    }
}
