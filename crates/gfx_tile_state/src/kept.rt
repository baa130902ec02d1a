//! The plane that earlier tiles left under a component.
ghost use Rattle.std.specs.Prelude.{◌≡◌, ◌≤◌, ◌⊎◌, length, IfOk, IsTrue, MatchBool};
ghost use Rattle.std.specs.Vec.{vec_capacity};
ghost use Rattle.gfx_dwt.specs.Ranges.{AllCoefficients};
ghost use Rattle.gfx_tile_state.specs.Passes.{FitsOnto, LeavesKept, added, blank};

use crate::planes::{add, fits_onto, load, put};
use gfx_base::NoMemory;
use std::alloc::Global;
use std::marker::Model;

/// How many numbers a plane has.
const PLACES: usize = 4096;

/// A kept plane. While it is blank, what stands in its memory means nothing; until a plane is put there, nothing is
/// written in it: so a plain tile needn't touch it.
#[derive(Drop)]
pub struct Kept {
    /// 4,096 numbers, or nothing yet and room for as many.
    plane: Vec<i16>,
    blank: bool,
}

impl Model for Kept {
    ghost use Rattle.std.specs.Prelude.{ℤ, List};
    ghost use Rattle.gfx_tile_state.specs.Passes.{kept_in};

    ghost Value = { List ℤ };

    ghost view = { λ kept. kept_in kept.blank kept.plane.items };

    ghost use Rattle.gfx_tile_state.specs.Inside.{HasRoom};

    ghost invariant = { HasRoom };
}

impl Kept {
    /// All zero.
    pub fn new(alloc: Global) -> Result<Self, NoMemory>
        ensures { IfOk result (λ kept. kept ≡ blank) }
    {
        Ok(Kept {
            plane: Vec::with_capacity(alloc, PLACES)?,
            blank: true,
        })
    }

    /// The same again.
    pub fn copy(&self) -> Result<Self, NoMemory>
        ensures { IfOk result (λ kept. kept ≡ self.now) }
    {
        let mut copy = Kept::new(*self.plane.allocator())?;
        copy.copy_from(self);
        Ok(copy)
    }

    /// What another plane is. It takes no memory.
    pub fn copy_from(&mut self, other: &Kept)
        ensures { self.new ≡ other.now }
    {
        if other.blank {
            self.blank = true;
        } else {
            make_whole(&mut self.plane);
            self.plane.copy_from_slice(&other.plane);
            self.blank = false;
        }
    }

    /// Makes all numbers zero.
    pub fn clear(&mut self)
        ensures { self.new ≡ blank }
    {
        self.blank = true;
    }

    /// Whether it is known to be all zero; one that isn't may be all zero too.
    pub fn is_blank(&self) -> bool
        ensures { IsTrue result → self.now ≡ blank }
    {
        self.blank
    }

    /// Puts a plane in its place.
    pub fn put(&mut self, plane: &[i32; 4096])
        requires { AllCoefficients plane.now }
        ensures { self.new ≡ plane.now }
    {
        make_whole(&mut self.plane);
        put(plane, &mut self.plane);
        self.blank = false;
    }

    /// Whether it stays in the range of a coefficient with another plane, place by place.
    pub fn fits_onto(&self, plane: &[i16; 4096]) -> bool
        requires { AllCoefficients plane.now }
        ensures { MatchBool result (FitsOnto self.now plane.now) (LeavesKept self.now plane.now) }
    {
        if self.blank {
            return true;
        }
        fits_onto(&self.plane, plane)
    }

    /// Its numbers with sums, place by place.
    pub fn add(&self, sums: &[i16], out: &mut [i32; 4096])
        requires { length sums.now ≡ 4096 }
        ensures { out.new ≡ added self.now sums.now }
    {
        if self.blank {
            load(sums, out);
        } else {
            add(&self.plane, sums, out);
        }
    }
}

/// Sees to it that all numbers are there. It takes no memory, since there is room for them.
fn make_whole(plane: &mut Vec<i16>)
    requires { (length plane.old.items ≡ 4096) ⊎ (4096 ≤ vec_capacity plane.old) }
    ensures { length plane.new.items ≡ 4096 }
{
    if plane.len() != PLACES {
        plane.resize(PLACES, 0).unwrap();
    }
}
