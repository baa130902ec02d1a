/// Whether digests of states are made. One is made of all that an end keeps, pixels and bitmaps, so it
/// costs time by the area of the surfaces: some 40 ms for one of 1,920 by 1,080. Off makes none: what a
/// session sends, draws and acknowledges is the same.
#[derive(Clone, Copy, Debug, PartialEq, Eq)]
pub enum Digests {
    /// No digest is made.
    Off,
    /// The server's end makes one of its state for each frame that it sends, and a session's client one of
    /// its own for each frame that it draws.
    On,
}
