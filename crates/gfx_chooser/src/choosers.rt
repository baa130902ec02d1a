//! Three choosers.
ghost use Rattle.std.specs.Prelude.{◌*◌, ◌&&◌, not, false, nat_le, Some, None, length, ◌==◌, if◌then◌else◌};
ghost use Rattle.gfx_script.specs.declared.step.Kind.TheVariants.{Palette, Progressive};

use crate::chooser::Chooser;
use crate::facts::Facts;
use gfx_script::Kind;

/// Pictures of few colours go by palettes. It is never spent.
#[derive(Clone, Copy, Debug, PartialEq, Eq)]
pub struct ByColours {
    /// The most colours of such a picture. From `MOST_COLOURS` on, every picture is one.
    pub most: u16,
}

impl Chooser for ByColours {
    ghost reply = { λ chooser before facts. if nat_le facts.colours chooser.most then Some Palette else None };

    ghost is_spent = { λ chooser before. false };

    fn choose(&mut self, facts: &Facts<'_>) -> Option<Kind> {
        (facts.colours <= self.most).then_some(Kind::Palette)
    }

    fn spent(&self) -> bool {
        false
    }
}

/// Large pictures go in passes. It is never spent.
#[derive(Clone, Copy, Debug, PartialEq, Eq)]
pub struct ByArea {
    /// The least number of pixels of such a picture.
    pub least: u32,
}

impl Chooser for ByArea {
    ghost reply = { λ chooser before facts. if nat_le chooser.least (facts.width * facts.height) then Some Progressive else None };

    ghost is_spent = { λ chooser before. false };

    fn choose(&mut self, facts: &Facts<'_>) -> Option<Kind> {
        let area = u32::from(facts.width) * u32::from(facts.height);
        (self.least <= area).then_some(Kind::Progressive)
    }

    fn spent(&self) -> bool {
        false
    }
}

/// The next picture goes as one kind, and no other after it.
#[derive(Clone, Copy, Debug, PartialEq, Eq)]
pub struct Once {
    pub kind: Kind,
    /// Whether it still has its answer.
    pub left: bool,
}

impl Chooser for Once {
    ghost reply = { λ chooser before facts. if chooser.left && (length before == 0) then Some chooser.kind else None };

    ghost is_spent = { λ chooser before. not (chooser.left && (length before == 0)) };

    fn choose(&mut self, _facts: &Facts<'_>) -> Option<Kind> {
        if !self.left {
            return None;
        }
        self.left = false;
        Some(self.kind)
    }

    fn spent(&self) -> bool {
        !self.left
    }
}
