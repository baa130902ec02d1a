ghost use Rattle.std.specs.Prelude.{◌≡◌, ◌<◌, ℕ, IfOk, IsTrue, length, pos};
ghost use Rattle.gfx_dwt.specs.Ranges.{AllSamples, AllWithin};
ghost use Rattle.gfx_quant.specs.Quant.{is_base};
ghost use Rattle.gfx_tile_make.specs.Quantised.{quantised_samples};
ghost use Rattle.gfx_tile_make.specs.Source.{onto, plain, sent};

use crate::planes::{store, subtract};
use gfx_base::NoMemory;
use gfx_dwt::{Transform, forward_with};
use gfx_quant::{Quant, Rounding, cut_plane, quantise_plane};
use std::alloc::Global;
use std::marker::Model;

/// One component of a tile: its quantised values, and those that its tile goes on, which are zeros
/// where it goes on nothing.
#[derive(Drop)]
pub struct SourcePart {
    own: Vec<i16>,
    kept: Vec<i16>,
}

impl Model for SourcePart {
    ghost use Rattle.std.specs.Prelude.{◌≡◌, length};
    ghost use Rattle.gfx_tile_make.specs.Source.{Planes};

    ghost Value = { Planes };

    ghost view = { λ part. record { own = part.own.items; kept = part.kept.items } };

    ghost invariant = { λ part. (length part.own.items ≡ 4096) × (length part.kept.items ≡ 4096) };
}

impl SourcePart {
    /// The component of these samples, which become coefficients; of the workspace nothing is said
    /// afterwards.
    pub fn from_samples(
        alloc: Global,
        rounding: Rounding,
        samples: &mut [i32; 4096],
        transform: Transform,
        base: &Quant,
        tmp: &mut [i32; 4096],
    ) -> Result<Self, NoMemory>
        requires samples { AllSamples samples.old }
        requires base { IsTrue (is_base base.now.values) }
        ensures { IfOk result (λ part. part ≡ plain (quantised_samples rounding transform base.now.values samples.old)) }
    {
        forward_with(samples, transform, tmp);
        cut_plane(samples);
        quantise_plane(rounding, samples, transform, base, tmp);
        let mut own = vec![in alloc; 0i16; 4096]?;
        put(tmp, &mut own);
        Ok(SourcePart {
            own,
            kept: vec![in alloc; 0i16; 4096]?,
        })
    }

    /// What is sent of it: its own values less those that it goes on.
    pub fn values(&self, out: &mut [i32; 4096])
        ensures value { out.new ≡ sent self.now }
        ensures small { AllWithin 65535 out.new }
    {
        subtract(&self.own, &self.kept, out);
    }

    /// What it goes on.
    pub fn kept(&self) -> &[i16]
        ensures value { result.now ≡ self.now.kept }
        ensures whole { length result.now ≡ 4096 }
    {
        &self.kept
    }

    /// Its own values.
    pub fn own(&self) -> &[i16]
        ensures value { result.now ≡ self.now.own }
        ensures whole { length result.now ≡ 4096 }
    {
        &self.own
    }

    /// From now on it goes on the own values of another.
    pub fn go_on(&mut self, kept: &SourcePart)
        ensures { self.new ≡ onto self.old kept.now }
    {
        self.kept.copy_from_slice(&kept.own);
    }
}

/// Puts a plane in place of what was kept.
fn put(plane: &[i32; 4096], own: &mut Vec<i16>)
    requires small { AllWithin 1024 plane.now }
    requires room { length own.old.items ≡ 4096 }
    ensures { own.new.items ≡ plane.now }
{
    store(plane, own);
}
