ghost use Rattle.std.specs.Prelude.{IsTrue};
ghost use Rattle.gfx_tile_state.specs.Shape.{are_positions};

use gfx_dwt::Transform;
use gfx_quant::Component;

/// How a pass is coded: its transform, and of each component's bands the bit position, base plus
/// progressive value, from 6 to 30 in the order of `Band`.
#[derive(Clone, Copy, Debug, PartialEq, Eq)]
pub struct PassShape {
    pub transform: Transform,
    pub y: [u8; 10],
    pub cb: [u8; 10],
    pub cr: [u8; 10],
    pub ghost y_within: { IsTrue (are_positions y) },
    pub ghost cb_within: { IsTrue (are_positions cb) },
    pub ghost cr_within: { IsTrue (are_positions cr) },
}

impl PassShape {
    ghost use Rattle.std.specs.Prelude.{◌≡◌};
    ghost use Rattle.gfx_tile_state.specs.Shape.{AreWithin};
    ghost use Rattle.gfx_tile_state.specs.Shapes.{positions_of};

    /// The bit positions of a component's bands.
    #[tactic(auto, using(crate::proofs::Positions::all_positions))]
    pub fn positions(&self, component: Component) -> [u8; 10]
        ensures value { result ≡ positions_of self.now component }
        ensures within { AreWithin 6 30 result }
    {
        match component {
            Component::Y => self.y,
            Component::Cb => self.cb,
            Component::Cr => self.cr,
        }
    }
}
