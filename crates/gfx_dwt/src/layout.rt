ghost use Rattle.std.specs.Prelude.{◌≡◌};

/// Which of the two wavelet transforms a tile has ([MS-RDPEGFX], the region's flag for reduce-extrapolate).
#[derive(Clone, Copy, Debug, PartialEq, Eq)]
pub enum Transform {
    /// The transform of [MS-RDPRFX]: 64 is 32 and 32, 32 is 16 and 16, 16 is 8 and 8.
    Plain,
    /// Reduce-extrapolate: 64 is 33 and 31, 33 is 17 and 16, 17 is 9 and 8.
    Reduced,
}

/// A step of the decomposition; `First` is the one that gives or takes the 64 by 64 samples.
#[derive(Clone, Copy, Debug, PartialEq, Eq)]
pub enum Scale {
    First,
    Second,
    Third,
}

/// A band of a component's 4,096 places, in the order in which they stand.
/// The first letter is the half along a row, the second the half along a column.
#[derive(Clone, Copy, Debug, PartialEq, Eq)]
pub enum Band {
    Hl1,
    Lh1,
    Hh1,
    Hl2,
    Lh2,
    Hh2,
    Hl3,
    Lh3,
    Hh3,
    Ll3,
}

impl Scale {
    ghost use Rattle.gfx_dwt.specs.Place.{high_size, low_size};

    /// How many places the low half of this level's lines has.
    #[inline(always)]
    pub fn low_size(self, transform: Transform) -> usize
        ensures { result ≡ low_size transform self }
    {
        match (transform, self) {
            (Transform::Plain, Scale::First) => 32,
            (Transform::Plain, Scale::Second) => 16,
            (Transform::Plain, Scale::Third) => 8,
            (Transform::Reduced, Scale::First) => 33,
            (Transform::Reduced, Scale::Second) => 17,
            (Transform::Reduced, Scale::Third) => 9,
        }
    }

    /// How many places the high half of this level's lines has.
    #[inline(always)]
    pub fn high_size(self, transform: Transform) -> usize
        ensures { result ≡ high_size transform self }
    {
        match (transform, self) {
            (Transform::Plain, Scale::First) => 32,
            (Transform::Reduced, Scale::First) => 31,
            (_, Scale::Second) => 16,
            (_, Scale::Third) => 8,
        }
    }
}
