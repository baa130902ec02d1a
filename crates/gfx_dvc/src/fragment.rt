ghost use Rattle.std.specs.Prelude.{◌≡◌};

use crate::header::Header;
use std::marker::Model;

/// A fragment's piece of a message, where it stands. Contracts see the bytes.
#[derive(Debug, Drop)]
pub(crate) struct Piece<'a> {
    bytes: &'a [u8],
}

impl<'a> Model for Piece<'a> {
    ghost use Rattle.std.specs.Prelude.{ℕ, List};

    ghost Value = { List ℕ };

    ghost view = { λ p. p.bytes.now };
}

impl<'a> Piece<'a> {
    pub(crate) fn new(bytes: &'a [u8]) -> Piece<'a>
        ensures { result ≡ bytes.now }
    {
        Piece { bytes }
    }

    pub(crate) fn as_slice(&self) -> &'a [u8]
        ensures { result.now ≡ self.now }
    {
        self.bytes
    }
}

/// A fragment: what its header says, and its piece of a message.
#[derive(Debug, Drop)]
pub(crate) struct Fragment<'a> {
    pub header: Header,
    pub piece: Piece<'a>,
}
