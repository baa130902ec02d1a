//! Paints that go by ClearCodec.
ghost use Rattle.std.specs.Prelude.{◌≡◌};
ghost use Rattle.gfx_planner.specs.ClearPaints.{clear_paint_of};

use gfx_base::Point;
use gfx_clear::Layer;
use gfx_script::{Kind, Step, Way};

/// The picture of this number is painted on a surface by a layer of ClearCodec, with its top left corner at a
/// place. A glyph is the index at which the client is to keep it.
#[derive(Clone, Copy, Debug, PartialEq, Eq)]
pub struct ClearPaint {
    pub id: u16,
    pub picture: u32,
    pub at: Point,
    pub layer: Layer,
    pub glyph: Option<u16>,
}

/// The paint by ClearCodec that a step is which goes as a kind, if it is one. A client may be thin.
pub(crate) fn clear_paint(step: &Step, kind: Option<Kind>, thin: bool) -> Option<ClearPaint>
    ensures { result ≡ clear_paint_of thin kind step.now }
{
    let (
        Step::Paint {
            id,
            picture,
            at,
            glyph,
            ..
        },
        Some(kind),
    ) = (step, kind)
    else {
        return None;
    };
    let Way::ByLayer(layer) = kind.way(thin) else {
        return None;
    };
    Some(ClearPaint {
        id: *id,
        picture: *picture,
        at: *at,
        layer,
        glyph: *glyph,
    })
}
