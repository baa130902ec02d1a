ghost use Rattle.gfx_estimate.specs.Laws.{SizesGoByNoState};

/// The sizes by a layer are those of the stream that is sent, whatever was sent before.
pub fn sizes_go_by_no_state()
    ensures { SizesGoByNoState }
{}
