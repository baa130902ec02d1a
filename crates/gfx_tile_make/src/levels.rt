ghost use Rattle.std.specs.Prelude.{◌≡◌};
ghost use Rattle.gfx_quant.specs.Setting.{base_of, left_out, of_level};

use gfx_quant::{Component, Level, Quant, Setting};

/// What a component's bands are quantised by.
pub(crate) fn base_of(component: Component, setting: &Setting) -> Quant
    ensures { result.values ≡ base_of component setting.now }
{
    match component {
        Component::Y => setting.y,
        Component::Cb => setting.cb,
        Component::Cr => setting.cr,
    }
}

/// What is left out of a component at a level: behind the listed ones nothing is.
pub(crate) fn left_out(component: Component, levels: &[Level], index: usize) -> Quant
    ensures { result.values ≡ left_out component levels.now index }
{
    if index < levels.len() {
        return of_level(component, levels[index]);
    }
    Quant { values: [0; 10] }
}

fn of_level(component: Component, level: Level) -> Quant
    ensures { result.values ≡ of_level component level }
{
    match component {
        Component::Y => level.y,
        Component::Cb => level.cb,
        Component::Cr => level.cr,
    }
}
