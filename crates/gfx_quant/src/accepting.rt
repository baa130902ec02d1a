ghost use Rattle.std.specs.Prelude.{◌≡◌, ◌<◌, ◌≤◌, ◌+◌, ◌&&◌, nat_le, nat_lt, length};
ghost use Rattle.gfx_quant.specs.Setting.{falls_well, is_accepted, is_fine, left_out, of_level, stays_within};

use crate::quant::{Component, MOST_BITS, Quant, all_at_least_base};
use crate::setting::{Level, MOST_FALL, Setting};

impl Setting {
    /// Whether a server may code its tiles so: bases of 6 to 15, base and level together at most 15,
    /// falls of 0 to 6 from each level to the next and from the last listed one to the one that
    /// leaves nothing out, and a level at all.
    pub fn is_accepted(&self) -> bool
        ensures { result ≡ is_accepted self.now }
    {
        let levels = self.levels.as_slice();
        let y = is_fine(Component::Y, &self.y, levels);
        let cb = is_fine(Component::Cb, &self.cb, levels);
        let cr = is_fine(Component::Cr, &self.cr, levels);
        has_any(levels) & (y & (cb & cr))
    }
}

fn has_any(levels: &[Level]) -> bool
    ensures { result ≡ nat_lt 0 (length levels.now) }
{
    0 < levels.len()
}

fn is_fine(component: Component, base: &Quant, levels: &[Level]) -> bool
    ensures { result ≡ is_fine component base.now.values levels.now }
{
    let mut fine = all_at_least_base(&base.values);
    for index in 0..levels.len() {
        fine &= is_level_fine(component, base, levels, index);
    }
    fine
}

fn is_level_fine(component: Component, base: &Quant, levels: &[Level], index: usize) -> bool
    requires { index < length levels.now }
    ensures { result ≡ (stays_within base.now.values (left_out component levels.now index) && falls_well (left_out component levels.now index) (left_out component levels.now (index + 1))) }
{
    let level = left_out(component, levels, index);
    let next = left_out(component, levels, index + 1);
    stays_within(&base.values, &level.values) & falls_well(&level.values, &next.values)
}

/// What is left out of a component at a level: behind the listed ones nothing is.
fn left_out(component: Component, levels: &[Level], index: usize) -> Quant
    ensures { result.values ≡ left_out component levels.now index }
{
    if index < levels.len() {
        return of_level(component, levels[index]);
    }
    Quant { values: [0; 10] }
}

fn of_level(component: Component, level: Level) -> Quant
    ensures { result.values ≡ of_level component level }
{
    match component {
        Component::Y => level.y,
        Component::Cb => level.cb,
        Component::Cr => level.cr,
    }
}

fn stays_within(base: &[u8; 10], level: &[u8; 10]) -> bool
    ensures { result ≡ stays_within base.now level.now }
{
    let mut fine = true;
    for band in 0..10 {
        fine &= is_within(base[band], level[band]);
    }
    fine
}

fn is_within(base: u8, level: u8) -> bool
    ensures { result ≡ nat_le (base + level) MOST_BITS }
{
    u16::from(base) + u16::from(level) <= u16::from(MOST_BITS)
}

fn falls_well(level: &[u8; 10], next: &[u8; 10]) -> bool
    ensures { result ≡ falls_well level.now next.now }
{
    let mut fine = true;
    for band in 0..10 {
        fine &= is_fall(level[band], next[band]);
    }
    fine
}

fn is_fall(level: u8, next: u8) -> bool
    ensures { result ≡ (nat_le next level && nat_le level (next + MOST_FALL)) }
{
    (next <= level) & (u16::from(level) <= u16::from(next) + u16::from(MOST_FALL))
}
