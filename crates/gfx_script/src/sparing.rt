//! Which pictures of a script keep their pixels, where those of the others are forgotten.

ghost use Rattle.std.specs.Prelude.{◌≡◌, IfOk, false, replicate};
ghost use Rattle.gfx_script.specs.Sparing.{forgotten_at, keeps, marked, spared_from};

use crate::picture::Picture;
use gfx_base::NoMemory;
use std::alloc::Global;
use std::marker::Model;

/// Which pictures of a script keep their pixels: those that are marked. Of pictures that the script has forgotten there is
/// nothing to keep, and they have no mark.
#[derive(Drop)]
pub struct Marks {
    first: u32,
    kept: Vec<bool>,
}

impl Model for Marks {
    ghost use Rattle.gfx_script.specs.Sparing.{Marks};

    ghost Value = { Marks };

    ghost view = { λ m. record { first = m.first; kept = m.kept.items } };
}

impl Marks {
    /// So many pictures from this number on, none of which is marked.
    pub(crate) fn new(alloc: Global, first: u32, count: usize) -> Result<Marks, NoMemory>
        ensures { IfOk result (λ marks. marks ≡ record { first = first; kept = replicate count false }) }
    {
        let mut kept = Vec::new(alloc);
        kept.resize(count, false)?;
        Ok(Marks { first, kept })
    }

    /// Marks the picture of this number, counted from 0: it keeps its pixels.
    pub fn mark(&mut self, number: u32)
        ensures { self.new ≡ marked self.old number }
    {
        if number < self.first {
            return;
        }
        if let Some(kept) = self.kept.get_mut((number - self.first) as usize) {
            *kept = true;
        }
    }

    /// Whether the picture of this number keeps its pixels.
    fn keeps(&self, number: usize) -> bool
        ensures { result ≡ keeps self.now number }
    {
        let first = self.first as usize;
        if number < first {
            return true;
        }
        match self.kept.get(number - first) {
            Some(kept) => *kept,
            None => true,
        }
    }
}

/// Forgets the pixels of pictures, the first of which has this number, that aren't marked.
pub(crate) fn spare(pictures: &mut Vec<Picture>, first: u32, marks: &Marks)
    ensures { pictures.new.items ≡ spared_from first marks.now pictures.old.items }
{
    'pictures: for place in 0..pictures.len() {
        if !marks.keeps(first as usize + place) {
            forget_at(pictures, place);
        }
    }
}

/// Forgets the pixels of the picture at a place, counted from 0, if there is one.
fn forget_at(pictures: &mut Vec<Picture>, place: usize)
    ensures { pictures.new.items ≡ forgotten_at pictures.old.items place }
{
    if let Some(picture) = pictures.get_mut(place) {
        picture.forget_pixels();
    }
}
