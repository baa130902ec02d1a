/// What came of a turn.
#[derive(Clone, Copy, Debug, PartialEq, Eq)]
pub enum Turned {
    /// Something was queued, sent or taken.
    Moved,
    /// There was nothing to do yet.
    Waiting,
    /// All of the script was queued, sent and acknowledged, and no byte is in flight.
    Ended,
}
