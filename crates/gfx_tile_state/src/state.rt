ghost use Rattle.std.specs.Prelude.{◌≡◌, ◌<◌, ◌≤◌, ◌*◌, ◌+◌, ◌^◌, ℕ, IfOk, IsTrue, OnOk, OnErr, Some, true, slice_get};
ghost use Rattle.gfx_dwt.specs.Ranges.{AllWithin};
ghost use Rattle.gfx_dwt.specs.Samples.{cell, sample};
ghost use Rattle.gfx_tile_state.specs.Passes.{blank, coefficients};
ghost use Rattle.gfx_tile_state.specs.Record.{MayAdd, MayBeUpgraded, MayUpgrade, StartsIn, UpgradesFrom, UpgradesIn, fits_transform, fresh_tile, part_of, pixel_of, transform_of};

use crate::part::Part;
use crate::scratch::Scratch;
use crate::shape::PassShape;
use gfx_base::{NoMemory, Pixel, Refusal};
use gfx_dwt::{Transform, inverse_with};
use gfx_quant::{Component, to_colours, to_colours_narrow};
use std::alloc::Global;

/// What the passes of a tile have left: the transform of the last first pass, and three components.
/// Only `new` and `copy` take memory.
#[derive(Drop)]
pub struct TileState {
    transform: Option<Transform>,
    y: Part,
    cb: Part,
    cr: Part,
}

impl TileState {
    /// All zero.
    pub fn new(alloc: Global) -> Result<Self, NoMemory>
        ensures { IfOk result (λ tile. tile ≡ fresh_tile) }
    {
        Ok(TileState {
            transform: None,
            y: Part::new(alloc)?,
            cb: Part::new(alloc)?,
            cr: Part::new(alloc)?,
        })
    }

    /// The same state again.
    pub fn copy(&self) -> Result<Self, NoMemory>
        ensures { IfOk result (λ tile. tile ≡ self.now) }
    {
        Ok(TileState {
            transform: self.transform,
            y: self.y.copy()?,
            cb: self.cb.copy()?,
            cr: self.cr.copy()?,
        })
    }

    /// What another state is. It takes no memory.
    pub fn copy_from(&mut self, other: &TileState)
        ensures { self.new ≡ other.now }
    {
        self.transform = other.transform;
        self.y.copy_from(&other.y);
        self.cb.copy_from(&other.cb);
        self.cr.copy_from(&other.cr);
    }

    /// A plain first pass of one component; what was there of it before is gone. An `Err` changes
    /// nothing.
    pub fn first(
        &mut self,
        component: Component,
        bytes: &[u8],
        shape: &PassShape,
        scratch: &mut Scratch,
    ) -> Result<(), Refusal>
        ensures part { StartsIn result component bytes.now shape.now blank self.old self.new }
        ensures ok { OnOk result (self.new.transform ≡ Some shape.now.transform) }
        ensures err { OnErr result (self.new.transform ≡ self.old.transform) }
    {
        self.first_part(component, bytes, shape, scratch)?;
        self.transform = Some(shape.transform);
        Ok(())
    }

    fn first_part(
        &mut self,
        component: Component,
        bytes: &[u8],
        shape: &PassShape,
        scratch: &mut Scratch,
    ) -> Result<(), Refusal>
        ensures part { StartsIn result component bytes.now shape.now blank self.old self.new }
        ensures transform { self.new.transform ≡ self.old.transform }
    {
        let positions = shape.positions(component);
        let plane = &mut scratch.plane;
        match component {
            Component::Y => self.y.first(bytes, shape.transform, &positions, plane),
            Component::Cb => self.cb.first(bytes, shape.transform, &positions, plane),
            Component::Cr => self.cr.first(bytes, shape.transform, &positions, plane),
        }
    }

    /// Whether a difference first pass of this transform may follow: TransformChanged exactly where
    /// the last first pass had another.
    pub fn may_add(&self, transform: Transform) -> Result<(), Refusal>
        ensures { MayAdd result self.now transform }
    {
        if self.fits(transform) {
            Ok(())
        } else {
            Err(Refusal::TransformChanged)
        }
    }

    fn fits(&self, transform: Transform) -> bool
        ensures { result ≡ fits_transform self.now.transform transform }
    {
        match (self.transform, transform) {
            (None, _) => true,
            (Some(Transform::Plain), Transform::Plain) => true,
            (Some(Transform::Reduced), Transform::Reduced) => true,
            _ => false,
        }
    }

    /// A difference first pass of one component: its coefficients go on under the new sums. An `Err`
    /// changes nothing.
    pub fn add(
        &mut self,
        component: Component,
        bytes: &[u8],
        shape: &PassShape,
    ) -> Result<(), Refusal>
        requires { fits_transform self.old.transform shape.now.transform ≡ true }
        ensures part { StartsIn result component bytes.now shape.now (coefficients (part_of self.old component)) self.old self.new }
        ensures ok { OnOk result (self.new.transform ≡ Some shape.now.transform) }
        ensures err { OnErr result (self.new.transform ≡ self.old.transform) }
    {
        self.add_part(component, bytes, shape)?;
        self.transform = Some(shape.transform);
        Ok(())
    }

    fn add_part(
        &mut self,
        component: Component,
        bytes: &[u8],
        shape: &PassShape,
    ) -> Result<(), Refusal>
        ensures part { StartsIn result component bytes.now shape.now (coefficients (part_of self.old component)) self.old self.new }
        ensures transform { self.new.transform ≡ self.old.transform }
    {
        let positions = shape.positions(component);
        match component {
            Component::Y => self.y.add(bytes, shape.transform, &positions),
            Component::Cb => self.cb.add(bytes, shape.transform, &positions),
            Component::Cr => self.cr.add(bytes, shape.transform, &positions),
        }
    }

    /// Whether an upgrade may follow: TransformChanged exactly where the last first pass had another
    /// transform, then QualityWorse exactly where a position is above that of the state, which is 0
    /// before a first pass.
    pub fn may_upgrade(&self, shape: &PassShape) -> Result<(), Refusal>
        ensures { MayUpgrade result self.now shape.now }
    {
        if !self.fits(shape.transform) {
            return Err(Refusal::TransformChanged);
        }
        if !self.y.may_fall_to(&shape.y) {
            return Err(Refusal::QualityWorse);
        }
        if !self.cb.may_fall_to(&shape.cb) {
            return Err(Refusal::QualityWorse);
        }
        if !self.cr.may_fall_to(&shape.cr) {
            return Err(Refusal::QualityWorse);
        }
        Ok(())
    }

    /// An upgrade of one component. An `Err` changes nothing.
    pub fn upgrade(
        &mut self,
        component: Component,
        srl: &[u8],
        raw: &[u8],
        shape: &PassShape,
    ) -> Result<(), Refusal>
        requires { MayBeUpgraded self.old shape.now }
        ensures { UpgradesIn result component srl.now raw.now shape.now self.old self.new }
    {
        let positions = shape.positions(component);
        match component {
            Component::Y => self.y.upgrade(srl, raw, shape.transform, &positions),
            Component::Cb => self.cb.upgrade(srl, raw, shape.transform, &positions),
            Component::Cr => self.cr.upgrade(srl, raw, shape.transform, &positions),
        }
    }

    /// What an upgrade makes of a component of another state, in the memory of this one. After an `Err` nothing is
    /// said of what this one is.
    pub fn upgrade_from(
        &mut self,
        before: &TileState,
        component: Component,
        srl: &[u8],
        raw: &[u8],
        shape: &PassShape,
        scratch: &mut Scratch,
    ) -> Result<(), Refusal>
        requires { MayBeUpgraded before.now shape.now }
        ensures part { UpgradesFrom result component srl.now raw.now shape.now before.now self.old self.new }
        ensures ok { OnOk result (self.new.transform ≡ before.now.transform) }
    {
        let positions = shape.positions(component);
        let lists = &mut scratch.lists;
        match component {
            Component::Y => {
                self.y
                    .upgrade_from(&before.y, srl, raw, shape.transform, &positions, lists)?
            }
            Component::Cb => {
                self.cb
                    .upgrade_from(&before.cb, srl, raw, shape.transform, &positions, lists)?
            }
            Component::Cr => {
                self.cr
                    .upgrade_from(&before.cr, srl, raw, shape.transform, &positions, lists)?
            }
        }
        self.transform = before.transform;
        Ok(())
    }

    /// The tile's pixels: the colours of the samples of its coefficients.
    pub fn pixels(&self, out: &mut [Pixel; 4096], scratch: &mut Scratch)
        ensures { (y x : ℕ) → y < 64 → x < 64 → slice_get out.new (y * 64 + x) ≡ Some (pixel_of self.now y x) }
    {
        if !self.narrow_pixels(out, scratch) {
            self.wide_pixels(out);
        }
    }

    /// The tile's pixels where all samples fit 16 bits, and whether they do; if not, nothing is said of `out`.
    fn narrow_pixels(&self, out: &mut [Pixel; 4096], scratch: &mut Scratch) -> bool
        ensures { IsTrue result → (y x : ℕ) → y < 64 → x < 64 → slice_get out.new (y * 64 + x) ≡ Some (pixel_of self.now y x) }
    {
        let transform = self.transform_or_plain();
        let workspace = &mut scratch.workspace;
        if !self.y.samples(transform, &mut scratch.y, workspace) {
            return false;
        }
        if !self.cb.samples(transform, &mut scratch.cb, workspace) {
            return false;
        }
        if !self.cr.samples(transform, &mut scratch.cr, workspace) {
            return false;
        }
        to_colours_narrow(&scratch.y, &scratch.cb, &scratch.cr, out);
        true
    }

    /// The tile's pixels, whatever its coefficients.
    // Not inlined: so its planes take no stack where it isn't called.
    #[inline(never)]
    fn wide_pixels(&self, out: &mut [Pixel; 4096])
        ensures { (y x : ℕ) → y < 64 → x < 64 → slice_get out.new (y * 64 + x) ≡ Some (pixel_of self.now y x) }
    {
        let transform = self.transform_or_plain();
        let mut y = [0; 4096];
        let mut cb = [0; 4096];
        let mut cr = [0; 4096];
        let mut tmp = [0; 4096];
        samples(&self.y, transform, &mut y, &mut tmp);
        samples(&self.cb, transform, &mut cb, &mut tmp);
        samples(&self.cr, transform, &mut cr, &mut tmp);
        to_colours(&y, &cb, &cr, out);
    }

    fn transform_or_plain(&self) -> Transform
        ensures { result ≡ transform_of self.now.transform }
    {
        match self.transform {
            Some(transform) => transform,
            None => Transform::Plain,
        }
    }
}

/// A component's samples.
fn samples(part: &Part, transform: Transform, plane: &mut [i32; 4096], tmp: &mut [i32; 4096])
    ensures value { (y x : ℕ) → y < 64 → x < 64 → cell 64 plane.new y x ≡ sample transform (coefficients part.now) y x }
    ensures within { AllWithin (2 ^ 23) plane.new }
{
    part.coefficients(plane);
    inverse_with(plane, transform, tmp);
}
