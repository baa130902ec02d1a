ghost use Rattle.gfx_report.specs.StateBytes.{DigestsFollowStates};

/// States of the same surfaces, filled slots and ClearCodec stores have the same digest.
pub fn digests_follow_states()
    ensures { DigestsFollowStates }
{}
