/// The layer that a server sends a picture by.
#[derive(Clone, Copy, Debug, PartialEq, Eq)]
pub enum Layer {
    /// Runs of colours.
    Residual,
    /// Bands of columns, by the rings.
    Bands,
    /// A palette and runs of its colours; with more colours than a palette has it goes as Plain.
    Palette,
    /// Three bytes for each pixel.
    Plain,
}
