ghost use Rattle.std.specs.Prelude.{◌≡◌, ◌<◌, ℕ, IfOk, IsTrue, MatchBool, length};
ghost use Rattle.gfx_bits.specs.Bits.{bits_of};
ghost use Rattle.gfx_dwt.specs.Ranges.{AllCoefficients};
ghost use Rattle.gfx_dwt.specs.Samples.{cell, sample};
ghost use Rattle.gfx_tile_state.specs.Entries.{pass_of};
ghost use Rattle.gfx_tile_state.specs.Passes.{TakesFirst, Upgrades, UpgradesSums, blank, coefficients, fresh, made};
ghost use Rattle.gfx_tile_state.specs.Shape.{AreAtMost, AreBelow, AreWithin, SomeAbove};

use crate::entries::Readers;
use crate::first::read_sums;
use crate::kept::Kept;
use crate::planes::{as_plane, fit_together, shorten, store};
use crate::upgrading::{Lists, upgrade_plane};
use gfx_base::{NoMemory, Refusal};
use gfx_bits::BitReader;
use gfx_dwt::{Transform, Workspace, inverse_narrow, inverse_with};
use gfx_srl::SrlReader;
use std::alloc::Global;
use std::marker::Model;

/// One component of a tile's record: the plane that earlier tiles left, the sums of this tile's
/// passes, and the bit position of each band. A known sign is the sign of its sum.
#[derive(Drop)]
pub struct Part {
    kept: Kept,
    sums: Vec<i16>,
    positions: [u8; 10],
}

impl Model for Part {
    ghost use Rattle.gfx_tile_state.specs.Passes.{Part as Component, IsSound};

    ghost Value = { Component };

    ghost view = { λ part. record { kept = part.kept; sums = part.sums.items; positions = part.positions } };

    ghost invariant = { λ part. IsSound part.kept part.sums.items part.positions };
}

impl Part {
    /// All zero.
    pub fn new(alloc: Global) -> Result<Self, NoMemory>
        ensures { IfOk result (λ part. part ≡ fresh) }
    {
        Ok(Part {
            kept: Kept::new(alloc)?,
            sums: vec![in alloc; 0i16; 4096]?,
            positions: [0; 10],
        })
    }

    /// The same again.
    pub fn copy(&self) -> Result<Self, NoMemory>
        ensures { IfOk result (λ part. part ≡ self.now) }
    {
        Ok(Part {
            kept: self.kept.copy()?,
            sums: self.sums.clone()?,
            positions: self.positions,
        })
    }

    /// What another component is. It takes no memory.
    pub fn copy_from(&mut self, other: &Part)
        ensures { self.new ≡ other.now }
    {
        self.kept.copy_from(&other.kept);
        self.sums.copy_from_slice(&other.sums);
        self.positions = other.positions;
    }

    /// The bit positions of its bands.
    pub fn positions(&self) -> [u8; 10]
        ensures { result ≡ self.now.positions }
    {
        self.positions
    }

    /// Whether no position is above those that stand.
    pub fn may_fall_to(&self, positions: &[u8; 10]) -> bool
        ensures { MatchBool result (AreBelow positions.now self.now.positions) (SomeAbove positions.now self.now.positions) }
    {
        are_below(positions, &self.positions)
    }

    /// A plain first pass, read by way of a plane.
    pub fn first(
        &mut self,
        bytes: &[u8],
        transform: Transform,
        positions: &[u8; 10],
        plane: &mut [i16; 4096],
    ) -> Result<(), Refusal>
        requires { AreWithin 6 30 positions.now }
        ensures { TakesFirst result transform positions.now bytes.now blank self.old self.new }
    {
        read_sums(bytes, transform, positions, &mut self.sums, plane)?;
        self.kept.clear();
        self.positions = *positions;
        Ok(())
    }

    /// A difference first pass: it keeps the coefficients that stand.
    pub fn add(
        &mut self,
        bytes: &[u8],
        transform: Transform,
        positions: &[u8; 10],
    ) -> Result<(), Refusal>
        requires { AreWithin 6 30 positions.now }
        ensures { TakesFirst result transform positions.now bytes.now (coefficients self.old) self.old self.new }
    {
        let mut sums = [0; 4096];
        read_sums(bytes, transform, positions, &mut sums, &mut [0; 4096])?;
        let mut kept = [0; 4096];
        self.coefficients(&mut kept);
        if !fit_together(&kept, &sums) {
            return Err(Refusal::CoefficientRange);
        }
        self.kept.put(&kept);
        self.sums.copy_from_slice(&sums);
        self.positions = *positions;
        Ok(())
    }

    /// An upgrade to positions that are not above those that stand.
    pub fn upgrade(
        &mut self,
        srl: &[u8],
        raw: &[u8],
        transform: Transform,
        positions: &[u8; 10],
    ) -> Result<(), Refusal>
        requires within { AreWithin 6 30 positions.now }
        requires below { AreBelow positions.now self.old.positions }
        ensures { Upgrades result (pass_of transform self.old.positions positions.now self.old.sums (bits_of srl.now) (bits_of raw.now)) positions.now self.old self.new }
    {
        let mut sums = *as_plane(&self.sums);
        let mut lists = Lists::new();
        upgrade_sums(
            &mut sums,
            &self.kept,
            srl,
            raw,
            transform,
            &self.positions,
            positions,
            &mut lists,
        )?;
        self.sums.copy_from_slice(&sums);
        self.positions = *positions;
        Ok(())
    }

    /// What an upgrade makes of another component, in the memory of this one. After an `Err` nothing is said of what
    /// this one is.
    pub fn upgrade_from(
        &mut self,
        before: &Part,
        srl: &[u8],
        raw: &[u8],
        transform: Transform,
        positions: &[u8; 10],
        lists: &mut Lists,
    ) -> Result<(), Refusal>
        requires within { AreWithin 6 30 positions.now }
        requires below { AreBelow positions.now before.now.positions }
        ensures { Upgrades result (pass_of transform before.now.positions positions.now before.now.sums (bits_of srl.now) (bits_of raw.now)) positions.now before.now (made result before.now self.new) }
    {
        // Over a blank plane any sums are sound: so those that a refusal leaves are.
        self.kept.clear();
        self.sums.copy_from_slice(&before.sums);
        upgrade_slice(
            &mut self.sums,
            &before.kept,
            srl,
            raw,
            transform,
            &before.positions,
            positions,
            lists,
        )?;
        self.kept.copy_from(&before.kept);
        self.positions = *positions;
        Ok(())
    }

    /// Its coefficients.
    pub fn coefficients(&self, out: &mut [i32; 4096])
        ensures value { out.new ≡ coefficients self.now }
        ensures coefficients { AllCoefficients out.new }
    {
        self.kept.add(&self.sums, out);
    }

    /// Its samples row by row, and whether each fits 16 bits; if not, nothing is said of `out`.
    pub fn samples(
        &self,
        transform: Transform,
        out: &mut [i16; 4096],
        workspace: &mut Workspace,
    ) -> bool
        ensures { IsTrue result → (y x : ℕ) → y < 64 → x < 64 → cell 64 out.new y x ≡ sample transform (coefficients self.now) y x }
    {
        if self.narrow_samples(transform, out, workspace) {
            return true;
        }
        self.wide_samples(transform, out)
    }

    /// Its samples by the transform in 16 bits, and whether that could be done exactly.
    fn narrow_samples(
        &self,
        transform: Transform,
        out: &mut [i16; 4096],
        workspace: &mut Workspace,
    ) -> bool
        ensures { IsTrue result → (y x : ℕ) → y < 64 → x < 64 → cell 64 out.new y x ≡ sample transform (coefficients self.now) y x }
    {
        if self.kept.is_blank() {
            return inverse_narrow(as_plane(&self.sums), transform, out, workspace);
        }
        self.kept_samples(transform, out, workspace)
    }

    /// The same over any kept plane.
    // Not inlined: so its planes take no stack where there is none.
    #[inline(never)]
    fn kept_samples(
        &self,
        transform: Transform,
        out: &mut [i16; 4096],
        workspace: &mut Workspace,
    ) -> bool
        ensures { IsTrue result → (y x : ℕ) → y < 64 → x < 64 → cell 64 out.new y x ≡ sample transform (coefficients self.now) y x }
    {
        let mut plane = [0; 4096];
        self.coefficients(&mut plane);
        let mut numbers = [0; 4096];
        store(&plane, &mut numbers);
        inverse_narrow(&numbers, transform, out, workspace)
    }

    /// Its samples by the transform in 32 bits, and whether each fits 16 bits.
    #[inline(never)]
    fn wide_samples(&self, transform: Transform, out: &mut [i16; 4096]) -> bool
        ensures { IsTrue result → (y x : ℕ) → y < 64 → x < 64 → cell 64 out.new y x ≡ sample transform (coefficients self.now) y x }
    {
        let mut plane = [0; 4096];
        let mut tmp = [0; 4096];
        self.coefficients(&mut plane);
        inverse_with(&mut plane, transform, &mut tmp);
        shorten(&plane, out)
    }
}

/// Upgrades sums over a kept plane from their positions to new ones. After an `Err` nothing is said of what they are.
fn upgrade_sums(
    sums: &mut [i16; 4096],
    kept: &Kept,
    srl: &[u8],
    raw: &[u8],
    transform: Transform,
    before: &[u8; 10],
    behind: &[u8; 10],
    lists: &mut Lists,
) -> Result<(), Refusal>
    requires coefficients { AllCoefficients sums.old }
    requires before { AreAtMost 30 before.now }
    requires within { AreWithin 6 30 behind.now }
    requires below { AreBelow behind.now before.now }
    ensures sums { UpgradesSums result (pass_of transform before.now behind.now sums.old (bits_of srl.now) (bits_of raw.now)) kept.now sums.new }
    ensures coefficients { AllCoefficients sums.new }
{
    let mut readers = Readers {
        srl: SrlReader::new(srl),
        bits: BitReader::new(raw),
    };
    let fits = upgrade_plane(sums, transform, before, behind, lists, &mut readers);
    if !fits {
        return Err(Refusal::CoefficientRange);
    }
    if !kept.fits_onto(sums) {
        return Err(Refusal::CoefficientRange);
    }
    Ok(())
}

/// The same of sums in a vector, 4,096 of them.
fn upgrade_slice(
    sums: &mut [i16],
    kept: &Kept,
    srl: &[u8],
    raw: &[u8],
    transform: Transform,
    before: &[u8; 10],
    behind: &[u8; 10],
    lists: &mut Lists,
) -> Result<(), Refusal>
    requires whole { length sums.old ≡ 4096 }
    requires coefficients { AllCoefficients sums.old }
    requires before { AreAtMost 30 before.now }
    requires within { AreWithin 6 30 behind.now }
    requires below { AreBelow behind.now before.now }
    ensures sums { UpgradesSums result (pass_of transform before.now behind.now sums.old (bits_of srl.now) (bits_of raw.now)) kept.now sums.new }
    ensures whole { length sums.new ≡ 4096 }
    ensures coefficients { AllCoefficients sums.new }
{
    let Some(plane) = sums.as_mut_array() else {
        unreachable!()
    };
    upgrade_sums(plane, kept, srl, raw, transform, before, behind, lists)
}

fn are_below(low: &[u8; 10], high: &[u8; 10]) -> bool
    ensures { MatchBool result (AreBelow low.now high.now) (SomeAbove low.now high.now) }
{
    let mut below = true;
    for index in 0..10 {
        below &= low[index] <= high[index];
    }
    below
}
