ghost use Rattle.std.specs.Prelude.{◌≡◌, ◌<◌, ◌≤◌, ◌+◌, ℕ, IfOk, IsTrue, MatchBool, length, true};
ghost use Rattle.std.specs.List.{AllPass};
ghost use Rattle.gfx_dwt.specs.Ranges.{AllWithin};
ghost use Rattle.gfx_quant.specs.Setting.{is_accepted};
ghost use Rattle.gfx_rlgr.specs.Bound.{AreSmall};
ghost use Rattle.gfx_rlgr.specs.Rlgr.{in_range};
ghost use Rattle.gfx_tile_make.specs.Levels.{ComponentFits, ComponentLeaves, Fits, Leaves, MayBeSent, first_values, values_at};
ghost use Rattle.gfx_tile_make.specs.Source.{difference_of, planes_of, sent, source_of};
ghost use Rattle.gfx_tile_make.specs.Upgrade.{IsPass};

use crate::data::Pass;
use crate::fitting::levels_fit;
use crate::levels::{base_of, left_out};
use crate::part::SourcePart;
use crate::passing::write_pass;
use crate::planes::differ;
use gfx_base::{NoMemory, Pixel};
use gfx_quant::{Band, Component, Setting, band_start, from_colours, truncate_plane};
use std::alloc::Global;
use std::marker::Model;

/// A tile at its source: how it is coded, its quantised values, and those of the tile that it goes on,
/// if it goes on one. Only `from_pixels` and `pass_values` take memory.
#[derive(Drop)]
pub struct SourceTile {
    setting: Setting,
    y: SourcePart,
    cb: SourcePart,
    cr: SourcePart,
    difference: bool,
}

impl Model for SourceTile {
    ghost use Rattle.gfx_tile_make.specs.Source.{SourceTile};
    ghost use Rattle.gfx_tile_make.specs.Levels.{MayBeSent};

    ghost Value = { SourceTile };

    ghost view = { λ tile. record { setting = tile.setting; y = tile.y; cb = tile.cb; cr = tile.cr; difference = tile.difference } };

    ghost invariant = { λ tile. MayBeSent (record { setting = tile.setting; y = tile.y; cb = tile.cb; cr = tile.cr; difference = tile.difference }) };
}

impl SourceTile {
    /// The tile of these pixels, on its own.
    pub fn from_pixels(
        alloc: Global,
        pixels: &[Pixel; 4096],
        setting: &Setting,
    ) -> Result<Self, NoMemory>
        requires { is_accepted setting.now ≡ true }
        ensures { IfOk result (λ tile. tile ≡ source_of setting.now pixels.now) }
    {
        let mut y = [0; 4096];
        let mut cb = [0; 4096];
        let mut cr = [0; 4096];
        let mut tmp = [0; 4096];
        from_colours(pixels, &mut y, &mut cb, &mut cr);
        let rounding = setting.rounding;
        let transform = setting.transform;
        Ok(SourceTile {
            setting: copy_of(setting),
            y: SourcePart::from_samples(alloc, rounding, &mut y, transform, &setting.y, &mut tmp)?,
            cb: SourcePart::from_samples(
                alloc,
                rounding,
                &mut cb,
                transform,
                &setting.cb,
                &mut tmp,
            )?,
            cr: SourcePart::from_samples(
                alloc,
                rounding,
                &mut cr,
                transform,
                &setting.cr,
                &mut tmp,
            )?,
            difference: false,
        })
    }

    /// The values of a component at a level, in band order. Level 0 is the first listed one, and the
    /// number of the listed levels names the last, which leaves nothing out.
    pub fn level_values(&self, component: Component, level: u8, out: &mut [i32; 4096])
        requires { level ≤ length self.now.setting.levels }
        ensures value { out.new ≡ values_at self.now component level }
        ensures small { AllWithin 1024 out.new }
    {
        let mut values = [0; 4096];
        self.part(component).values(&mut values);
        let level = left_out(
            component,
            self.setting.levels.as_slice(),
            usize::from(level),
        );
        truncate_plane(&values, self.setting.transform, &level, out);
    }

    /// What a first tile codes of a component: its values at the first level, those of LL3 each as how
    /// far it is above the one before it.
    pub fn first_values(&self, component: Component, out: &mut [i32; 4096])
        ensures value { out.new ≡ first_values self.now.setting.transform (values_at self.now component 0) }
        // So it can be coded, and its code fits a tile's length.
        ensures in_range { AllPass in_range out.new }
        ensures small { AreSmall out.new }
    {
        self.level_values(component, 0, out);
        let (_, low) = out.split_at_mut(band_start(self.setting.transform, Band::Ll3));
        differ(low);
    }

    /// Both data that raise a component from the level before to this one.
    pub fn pass_values(
        &self,
        alloc: Global,
        component: Component,
        level: u8,
    ) -> Result<Pass, NoMemory>
        requires first { 1 ≤ level }
        requires listed { level ≤ length self.now.setting.levels }
        ensures data { IfOk result (λ pass. IsPass self.now component level pass.srl pass.raw) }
        ensures short { IfOk result (λ pass. length pass.srl + length pass.raw ≤ 65535) }
    {
        let mut values = [0; 4096];
        self.part(component).values(&mut values);
        let levels = self.setting.levels.as_slice();
        let level = usize::from(level);
        let before = left_out(component, levels, level - 1);
        let behind = left_out(component, levels, level);
        write_pass(
            alloc,
            &values,
            self.setting.transform,
            &before.values,
            &behind.values,
        )
    }

    /// Lets the tile go on another of the same setting: from now on the difference from that one's
    /// values is sent. False exactly where that would leave the 16-bit range at some level; nothing
    /// changes then.
    pub fn against(&mut self, kept: &SourceTile) -> bool
        requires { kept.now.setting ≡ self.old.setting }
        ensures { MatchBool result (Fits (difference_of self.old kept.now) × (self.new ≡ difference_of self.old kept.now)) (Leaves (difference_of self.old kept.now) × (self.new ≡ self.old)) }
    {
        let fits = self.fits_onto(kept);
        if fits {
            self.go_on(kept);
        }
        fits
    }

    /// Whether the tile goes on another.
    pub fn is_difference(&self) -> bool
        ensures { result ≡ self.now.difference }
    {
        self.difference
    }

    /// Each tile may be sent: its record is in range at each level.
    pub fn may_be_sent(&self)
        ensures { MayBeSent self.now }
    {
        let _ = &self.setting;
    }

    fn part(&self, component: Component) -> &SourcePart
        ensures { result.now ≡ planes_of self.now component }
    {
        match component {
            Component::Y => &self.y,
            Component::Cb => &self.cb,
            Component::Cr => &self.cr,
        }
    }

    fn go_on(&mut self, kept: &SourceTile)
        requires { Fits (difference_of self.old kept.now) }
        ensures { self.new ≡ difference_of self.old kept.now }
    {
        self.y.go_on(&kept.y);
        self.cb.go_on(&kept.cb);
        self.cr.go_on(&kept.cr);
        self.difference = true;
    }

    fn fits_onto(&self, kept: &SourceTile) -> bool
        ensures { MatchBool result (Fits (difference_of self.now kept.now)) (Leaves (difference_of self.now kept.now)) }
    {
        self.part_fits(kept, Component::Y)
            & self.part_fits(kept, Component::Cb)
            & self.part_fits(kept, Component::Cr)
    }

    fn part_fits(&self, kept: &SourceTile, component: Component) -> bool
        ensures { MatchBool result (ComponentFits (difference_of self.now kept.now) component) (ComponentLeaves (difference_of self.now kept.now) component) }
    {
        levels_fit(
            self.part(component).own(),
            kept.part(component).own(),
            self.setting.transform,
            &base_of(component, &self.setting).values,
            self.setting.levels.as_slice(),
            component,
        )
    }
}

/// The same setting again.
fn copy_of(setting: &Setting) -> Setting
    ensures { result ≡ setting.now }
{
    Setting {
        transform: setting.transform,
        rounding: setting.rounding,
        y: setting.y,
        cb: setting.cb,
        cr: setting.cr,
        levels: setting.levels.copy(),
    }
}
