//! The rectangles that are kept of a surface.
ghost use Rattle.std.specs.Prelude.{◌≡◌, ◌<◌, [], ◌∷◌, ◌++◌, length};
ghost use Rattle.std.specs.List.{fold};
ghost use Rattle.gfx_damage.specs.Marks.{joined, with_rect};

use crate::adding::MOST_RECTS;
use gfx_base::Rect;
use std::marker::Model;

/// Rectangles, at most `MOST_RECTS` of them, which lie in the value itself: one more never takes memory. Contracts see
/// the list.
#[derive(Drop)]
pub(crate) struct FewRects {
    rects: [Rect; MOST_RECTS],
    count: usize,
}

impl Model for FewRects {
    ghost use Rattle.std.specs.Prelude.{◌≤◌, List, take};
    ghost use Rattle.gfx_base.specs.declared.geometry.Rect.{Rect};
    ghost use Rattle.gfx_damage.specs.declared.adding.TheConstants.{MOST_RECTS};

    ghost Value = { List Rect };

    ghost view = { λ few. take few.count few.rects };

    ghost invariant = { λ few. few.count ≤ MOST_RECTS };
}

impl FewRects {
    /// None yet.
    pub(crate) fn new() -> FewRects
        ensures { result ≡ [] }
    {
        FewRects {
            rects: [Rect::sized(0, 0); MOST_RECTS],
            count: 0,
        }
    }

    pub(crate) fn as_slice(&self) -> &[Rect]
        ensures { result.now ≡ self.now }
    {
        &self.rects[..self.count]
    }

    /// Puts a rectangle to them. Where there is no room for it, one takes the place of all.
    #[tactic(auto, unfolding(crate::specs::Marks::with_rect))]
    pub(crate) fn add(&mut self, rect: Rect)
        ensures { self.new ≡ with_rect self.old rect }
    {
        if self.as_slice().len() < MOST_RECTS {
            self.push(rect);
        } else {
            let hull = hull(rect, self.as_slice());
            self.clear();
            self.push(hull);
        }
    }

    fn push(&mut self, rect: Rect)
        requires { length self.old < MOST_RECTS }
        ensures { self.new ≡ self.old ++ rect ∷ [] }
    {
        self.rects[self.count] = rect;
        self.count += 1;
    }

    fn clear(&mut self)
        ensures { self.new ≡ [] }
    {
        self.count = 0;
    }
}

/// The least rectangle that has both.
fn joined(one: Rect, other: Rect) -> Rect
    ensures { result ≡ joined one other }
{
    Rect {
        left: one.left.min(other.left),
        top: one.top.min(other.top),
        right: one.right.max(other.right),
        bottom: one.bottom.max(other.bottom),
    }
}

/// The least rectangle that has this one and all of these.
fn hull(rect: Rect, rects: &[Rect]) -> Rect
    ensures { result ≡ fold joined rect rects.now }
{
    let mut hull = rect;
    'rects: for other in rects {
        hull = joined(hull, *other);
    }
    hull
}
