ghost use Rattle.std.specs.Prelude.{◌≡◌, ◌≤◌, ◌<◌, ◌==◌, [], ◌∷◌, ◌++◌, length, slice_get, List, take};

use crate::quant::Quant;
use crate::rounding::Rounding;
use gfx_dwt::Transform;
use std::marker::Model;

/// How many levels a setting lists at most.
pub const MOST_LEVELS: usize = 7;

/// How many bits a band gains at most from one level to the next.
pub const MOST_FALL: u8 = 6;

/// What a quality leaves out: of each component's bands that many low bits
/// ([MS-RDPEGFX] RFX_PROGRESSIVE_CODEC_QUANT).
#[derive(Clone, Copy, Debug, PartialEq, Eq)]
pub struct Level {
    pub y: Quant,
    pub cb: Quant,
    pub cr: Quant,
}

/// Up to seven levels, from the worst quality on. It takes no memory of its own. Contracts see the list.
#[derive(Debug, Drop)]
pub struct Levels {
    items: [Level; 7],
    len: usize,
}

impl Model for Levels {
    ghost use Rattle.std.specs.Prelude.{List, take, ◌≤◌};
    ghost use Rattle.gfx_quant.specs.declared.setting.Level.{Level};

    ghost Value = { List Level };

    ghost view = { λ a. take a.len a.items };

    ghost invariant = { λ a. a.len ≤ 7 };
}

impl Levels {
    /// No levels.
    pub fn new() -> Self
        ensures { result ≡ [] }
    {
        Levels {
            items: [Level::whole(); 7],
            len: 0,
        }
    }

    /// Puts a level at the end.
    pub fn push(&mut self, level: Level)
        requires { length self.old < MOST_LEVELS }
        ensures { self.new ≡ self.old ++ level ∷ [] }
    {
        self.items[self.len] = level;
        self.len += 1;
    }

    pub fn len(&self) -> usize
        ensures value { result ≡ length self.now }
        ensures few { result ≤ MOST_LEVELS }
    {
        self.as_slice().len()
    }

    pub fn is_empty(&self) -> bool
        ensures { result ≡ (length self.now == 0) }
    {
        self.as_slice().is_empty()
    }

    /// The level at a place, counted from 0, if there is one.
    pub fn get(&self, at: usize) -> Option<Level>
        ensures { result ≡ slice_get self.now at }
    {
        self.as_slice().get(at).copied()
    }

    pub fn as_slice(&self) -> &[Level]
        ensures value { result.now ≡ self.now }
        ensures few { length result.now ≤ MOST_LEVELS }
    {
        &self.items[..self.len]
    }

    /// The same levels again.
    pub fn copy(&self) -> Self
        ensures { result ≡ self.now }
    {
        Levels {
            items: self.items,
            len: self.len,
        }
    }
}

/// How a server codes its progressive tiles: the transform, how coefficients are quantised, what each
/// component's bands are quantised by, and the levels of quality before the last, which leaves nothing out.
#[derive(Debug, Drop)]
pub struct Setting {
    pub transform: Transform,
    pub rounding: Rounding,
    pub y: Quant,
    pub cb: Quant,
    pub cr: Quant,
    pub levels: Levels,
}

impl Level {
    ghost use Rattle.gfx_quant.specs.Quant.{noughts};

    /// The level that leaves nothing out.
    pub fn whole() -> Self
        ensures y { result.y.values ≡ noughts }
        ensures cb { result.cb.values ≡ noughts }
        ensures cr { result.cr.values ≡ noughts }
    {
        let nothing = Quant { values: [0; 10] };
        Level {
            y: nothing,
            cb: nothing,
            cr: nothing,
        }
    }
}
