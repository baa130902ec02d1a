//! The kinds that paints are drawn as.
ghost use Rattle.std.specs.Prelude.{◌≡◌, ◌<◌};
ghost use Rattle.gfx_generator.specs.Steps.{kind_at};
ghost use Rattle.gfx_generator.specs.Texts.{kind_name};

/// How many kinds there are.
pub const KINDS: u16 = 7;

/// How a paint says that its picture goes to the client.
#[derive(Clone, Copy, Debug, PartialEq, Eq)]
pub enum Kind {
    Raw,
    Residual,
    Bands,
    Palette,
    Plain,
    Progressive,
    Auto,
}

impl Kind {
    /// The kind with a number.
    pub fn at(number: u16) -> Kind
        requires { number < KINDS }
        ensures { result ≡ kind_at number }
    {
        match number {
            0 => Kind::Raw,
            1 => Kind::Residual,
            2 => Kind::Bands,
            3 => Kind::Palette,
            4 => Kind::Plain,
            5 => Kind::Progressive,
            6 => Kind::Auto,
            _ => unreachable!(),
        }
    }

    /// Its name in a script.
    pub fn name(self) -> &'static [u8]
        ensures { result.now ≡ kind_name self }
    {
        match self {
            Kind::Raw => b"raw",
            Kind::Residual => b"residual",
            Kind::Bands => b"bands",
            Kind::Palette => b"palette",
            Kind::Plain => b"plain",
            Kind::Progressive => b"progressive",
            Kind::Auto => b"auto",
        }
    }
}
