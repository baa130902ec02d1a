use gfx_base::Items;

/// An acknowledged frame: its id, its recorded step, and where digests are on those of the client's state
/// right after it was drawn and of the server's right after it was planned.
#[derive(Clone, Copy, Debug, PartialEq, Eq)]
pub struct Acked {
    pub frame: u32,
    /// The number of the last step that was queued when it was sent, counted from 1.
    pub step: u32,
    pub client: Option<[u8; 32]>,
    pub server: Option<[u8; 32]>,
}

/// Acknowledged frames, in order.
pub type Acks = Items<Acked>;
