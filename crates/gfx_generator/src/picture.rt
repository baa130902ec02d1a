//! The pictures that are painted.
ghost use Rattle.std.specs.Prelude.{◌≡◌, ◌<◌, ◌≤◌};
ghost use Rattle.gfx_generator.specs.Steps.{picture_at, width_of, height_of};
ghost use Rattle.gfx_generator.specs.Texts.{picture_name};

/// How many pictures there are.
pub const PICTURES: u16 = 3;

/// A picture of the script.
#[derive(Clone, Copy, Debug, PartialEq, Eq)]
pub enum Picture {
    Text,
    Noise,
    Ramp,
}

impl Picture {
    /// The picture with a number.
    pub fn at(number: u16) -> Picture
        requires { number < PICTURES }
        ensures { result ≡ picture_at number }
    {
        match number {
            0 => Picture::Text,
            1 => Picture::Noise,
            2 => Picture::Ramp,
            _ => unreachable!(),
        }
    }

    pub fn width(self) -> u16
        ensures value { result ≡ width_of self }
        ensures small { result ≤ 128 }
    {
        match self {
            Picture::Text => 96,
            Picture::Noise => 64,
            Picture::Ramp => 128,
        }
    }

    pub fn height(self) -> u16
        ensures value { result ≡ height_of self }
        ensures small { result ≤ 100 }
    {
        match self {
            Picture::Text => 80,
            Picture::Noise => 64,
            Picture::Ramp => 100,
        }
    }

    /// Its name in the script.
    pub fn name(self) -> &'static [u8]
        ensures { result.now ≡ picture_name self }
    {
        match self {
            Picture::Text => b"a",
            Picture::Noise => b"b",
            Picture::Ramp => b"c",
        }
    }
}
