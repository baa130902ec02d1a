//! What a picture costs, before it is sent and in its message.
ghost use Rattle.gfx_laws.specs.Costs.{SizesAreSent};

/// What a picture costs uncompressed, as residual, by a palette and plainly is the length of the data in its message,
/// whatever was sent before it.
pub fn sizes_are_sent()
    ensures { SizesAreSent }
{}
