ghost use Rattle.std.specs.Prelude.{◌≡◌};
ghost use Rattle.gfx_script.specs.Kind.{name_of};

use gfx_base::Cause;
use thiserror::Error;

/// What is wrong with a script. A report prints the variant's name.
#[derive(Clone, Copy, Debug, PartialEq, Eq, Error)]
pub enum ScriptKind {
    /// The text is no TOML.
    #[error("the text is no TOML")]
    Toml,
    /// A key or a word is unknown, missing or of another type.
    #[error("a key or a word is unknown, missing or of another type")]
    Key,
    /// A number or a length is out of its range.
    #[error("a number or a length is out of its range")]
    Range,
    /// A picture's name is given twice, or no picture has it.
    #[error("a picture's name is given twice, or no picture has it")]
    Name,
    /// Hexadecimal text has other digits or another length.
    #[error("hexadecimal text has other digits or another length")]
    Pixels,
    /// The surface is there already.
    #[error("the surface is there already")]
    SurfacePresent,
    /// One more surface is beyond the limits on all of them.
    #[error("one more surface is beyond the limits on all of them")]
    CellBudget,
    /// No surface has this id.
    #[error("no surface has this id")]
    SurfaceAbsent,
    /// A rectangle doesn't lie on its surface.
    #[error("a rectangle does not lie on its surface")]
    Outside,
    /// No bitmap is held under this key.
    #[error("no bitmap is held under this key")]
    KeyAbsent,
    /// A bitmap alone is over the budget of all bitmaps.
    #[error("a bitmap alone is over the budget of all bitmaps")]
    BitmapSize,
    /// A paint with a glyph names no layer of ClearCodec, or its picture has too many pixels.
    #[error("a paint with a glyph names no layer of ClearCodec, or its picture has too many pixels")]
    Glyph,
    /// The last step is no frame.
    #[error("the last step is no frame")]
    Unframed,
}

impl ScriptKind {
    /// The name that reports print, as it stands in this enum.
    pub fn name(self) -> &'static str
        ensures { result.now ≡ name_of self }
    {
        match self {
            ScriptKind::Toml => "Toml",
            ScriptKind::Key => "Key",
            ScriptKind::Range => "Range",
            ScriptKind::Name => "Name",
            ScriptKind::Pixels => "Pixels",
            ScriptKind::SurfacePresent => "SurfacePresent",
            ScriptKind::CellBudget => "CellBudget",
            ScriptKind::SurfaceAbsent => "SurfaceAbsent",
            ScriptKind::Outside => "Outside",
            ScriptKind::KeyAbsent => "KeyAbsent",
            ScriptKind::BitmapSize => "BitmapSize",
            ScriptKind::Glyph => "Glyph",
            ScriptKind::Unframed => "Unframed",
        }
    }
}

/// Why a part of a script gave no answer: it is wrong, or no memory is left.
pub type Flaw = Cause<ScriptKind>;

impl From<ScriptKind> for Cause<ScriptKind> {
    ghost use Rattle.gfx_base.specs.declared.answer.Cause.TheVariants.{Refused};

    ghost from_gives = { λ kind e. e ≡ Refused kind };

    fn from(kind: ScriptKind) -> Cause<ScriptKind> {
        Cause::Refused(kind)
    }
}
