ghost use Rattle.std.specs.Prelude.{◌≡◌};

use crate::edge::{Edge, edge_of};
use crate::profile::PREFIX;
use std::marker::Model;

/// The whole channel messages in bytes that an end put out, one after another, each without the length before
/// it: for a transport that keeps messages apart. Contracts see the bytes that are left.
#[derive(Debug, Drop)]
pub struct WholeMessages<'a> {
    rest: &'a [u8],
}

impl<'a> Model for WholeMessages<'a> {
    ghost use Rattle.std.specs.Prelude.{ℕ, List};

    ghost Value = { List ℕ };

    ghost view = { λ s. s.rest.now };
}

impl<'a> WholeMessages<'a> {
    /// The messages in these bytes.
    pub fn new(bytes: &'a [u8]) -> WholeMessages<'a>
        ensures { result ≡ bytes.now }
    {
        WholeMessages { rest: bytes }
    }

    /// The bytes that are left.
    pub fn rest(&self) -> &'a [u8]
        ensures { result.now ≡ self.now }
    {
        self.rest
    }
}

impl<'a> Iterator for WholeMessages<'a> {
    type Item = &'a [u8];

    ghost use Rattle.std.specs.Prelude.{length};
    ghost use Rattle.std.specs.Option.{option_map};
    ghost use Rattle.std.specs.Iterator.{at_most};
    ghost use Rattle.gfx_segment.specs.Whole.{GivesWhole};

    ghost next_gives = { λ old given new. GivesWhole old (option_map (λ m. m.now) given) new };

    ghost remaining = { λ s. at_most (length s) };

    /// The next message. None, which leaves all as it was, where the bytes left begin with no whole one.
    fn next(&mut self) -> Option<&'a [u8]> {
        match edge_of(self.rest) {
            Edge::Whole { size } => {
                let (_, behind) = self.rest.split_at(PREFIX);
                let (message, after) = behind.split_at(size);
                self.rest = after;
                Some(message)
            }
            Edge::Short | Edge::Bad => None,
        }
    }
}
