ghost use Rattle.std.specs.Prelude.{◌≡◌, ◌+◌, ◌≤◌, ◌<◌, ℕ, List, length, take, drop};
ghost use Rattle.gfx_segment.specs.Framing.{Front, Whole, Short, Bad, front};
ghost use Rattle.gfx_segment.specs.Edge.{IsEdge};

use crate::profile::PREFIX;
use gfx_base::{MOST_MESSAGE, field_u32};

/// What bytes begin with.
#[derive(Clone, Copy, Debug, PartialEq, Eq)]
pub(crate) enum Edge {
    /// A whole channel message of this size, behind its length.
    Whole { size: usize },
    /// Fewer bytes than that.
    Short,
    /// A length that no channel message has.
    Bad,
}

/// What these bytes begin with.
#[tactic(auto, unfolding(crate::specs::Framing::front, crate::specs::Framing::front_of))]
pub(crate) fn edge_of(bytes: &[u8]) -> Edge
    ensures { IsEdge bytes.now result }
{
    let Some(length) = field_u32(bytes, 0) else {
        return Edge::Short;
    };
    if length == 0 || length > MOST_MESSAGE {
        return Edge::Bad;
    }
    let size = length as usize;
    if size <= bytes.len() - PREFIX {
        Edge::Whole { size }
    } else {
        Edge::Short
    }
}
