ghost use Rattle.gfx_fragments.specs.Edge.{IsEdge};

use gfx_base::field_u16;
use gfx_dvc::{MOST_FRAGMENT, PREFIX};

/// What the bytes of a recording of fragments begin with.
#[derive(Clone, Copy, Debug, PartialEq, Eq)]
pub(crate) enum Edge {
    /// A whole fragment of this size, behind its length.
    Whole { size: usize },
    /// Fewer bytes than that.
    Short,
    /// A length that no recorded fragment has.
    Bad,
}

/// What these bytes begin with.
#[tactic(auto, unfolding(crate::specs::Cut::next_fragment, gfx_dvc::specs::Recording::front, gfx_dvc::specs::Recording::front_of))]
pub(crate) fn edge_of(bytes: &[u8]) -> Edge
    ensures { IsEdge bytes.now result }
{
    let Some(length) = field_u16(bytes, 0) else {
        return Edge::Short;
    };
    let size = length as usize;
    if size == 0 || size > MOST_FRAGMENT {
        return Edge::Bad;
    }
    if size <= bytes.len() - PREFIX {
        Edge::Whole { size }
    } else {
        Edge::Short
    }
}
