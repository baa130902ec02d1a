//! The levels of quality of progressive paints.

ghost use Rattle.std.specs.Prelude.{◌≡◌, ◌≤◌, ◌+◌, ◌&&◌, nat_le, [], ◌∷◌, Some, None, length, map, option_map};
ghost use Rattle.toml.specs.View.{view};
ghost use Rattle.gfx_quant.specs.declared.quant.TheConstants.{MOST_BITS};
ghost use Rattle.gfx_quant.specs.declared.setting.TheConstants.{MOST_FALL, MOST_LEVELS};
ghost use Rattle.gfx_quant.specs.Setting.{falls_well, stays_within};
ghost use Rattle.gfx_script_text.specs.Progressive.{usual_left_out, usual_level, level_with, level_in, is_within, follows, next_level, levels_behind, levels_of};

use crate::MOST_LEFT_OUT;
use crate::bands::quant_of;
use crate::members::check_keys;
use crate::places::numbers_at;
use gfx_quant::{Level, Levels, MOST_BITS, MOST_FALL, MOST_LEVELS, Quant};
use gfx_script::ScriptKind;
use toml::Value;

/// What each component's bands are quantised by.
#[derive(Clone, Copy)]
pub struct Bases {
    pub y: Quant,
    pub cb: Quant,
    pub cr: Quant,
}

/// Reads what stands under `level`, if anything does.
#[tactic(auto, unfolding(crate::specs::Progressive::levels_of, gfx_base::specs::Results::and_then))]
pub(crate) fn levels_of(bases: Bases, values: Option<&[Value]>) -> Result<Levels, ScriptKind>
    ensures { result ≡ levels_of bases (option_map (λ x. map view x.now) values.entry) }
{
    let Some(values) = values else {
        return Ok(usual_levels());
    };
    if !(1..=MOST_LEVELS).contains(&values.len()) {
        return Err(ScriptKind::Range);
    }
    read_levels(bases, values)
}

/// The one level where the script doesn't list any.
pub(crate) fn usual_levels() -> Levels
    ensures { result ≡ usual_level ∷ [] }
{
    let mut levels = Levels::new();
    let left_out = usual_left_out();
    levels.push(Level {
        y: left_out,
        cb: left_out,
        cr: left_out,
    });
    levels
}

/// What that level leaves out of each component.
fn usual_left_out() -> Quant
    ensures { result ≡ usual_left_out }
{
    Quant { values: [4; 10] }
}

/// Reads levels, one after another.
fn read_levels(bases: Bases, values: &[Value]) -> Result<Levels, ScriptKind>
    requires { length values.now ≤ MOST_LEVELS }
    ensures { result ≡ levels_behind bases None (map view values.now) }
{
    let mut levels = Levels::new();
    let mut before = None;
    'values: for value in values {
        let level = next_level(bases, before, value)?;
        levels.push(level);
        before = Some(level);
    }
    Ok(levels)
}

/// Reads a level and checks it against the one before it, if there is one.
#[tactic(auto, unfolding(crate::specs::Progressive::next_level, gfx_base::specs::Results::and_then))]
fn next_level(bases: Bases, before: Option<Level>, value: &Value) -> Result<Level, ScriptKind>
    ensures { result ≡ next_level bases before (view value.now) }
{
    let level = read_level(value)?;
    if !may_be_next(bases, before, level) {
        return Err(ScriptKind::Range);
    }
    Ok(level)
}

/// Reads a level.
#[tactic(auto, unfolding(crate::specs::Progressive::level_in, gfx_base::specs::Results::and_then))]
fn read_level(value: &Value) -> Result<Level, ScriptKind>
    ensures { result ≡ level_in (view value.now) }
{
    let Value::Table(table) = value else {
        return Err(ScriptKind::Key);
    };
    check_keys(table, &["y", "cb", "cr"])?;
    let y = numbers_at(table, "y")?;
    let cb = numbers_at(table, "cb")?;
    let cr = numbers_at(table, "cr")?;
    level_with(y, cb, cr)
}

/// The level of these numbers, whose types are right.
#[tactic(auto, unfolding(crate::specs::Progressive::level_with, gfx_base::specs::Results::and_then))]
fn level_with(y: &[Value], cb: &[Value], cr: &[Value]) -> Result<Level, ScriptKind>
    ensures { result ≡ level_with (map view y.now) (map view cb.now) (map view cr.now) }
{
    let y = quant_of(y, 0, MOST_LEFT_OUT)?;
    let cb = quant_of(cb, 0, MOST_LEFT_OUT)?;
    let cr = quant_of(cr, 0, MOST_LEFT_OUT)?;
    Ok(Level { y, cb, cr })
}

/// Whether a level may stand behind another, if there is one.
fn may_be_next(bases: Bases, before: Option<Level>, level: Level) -> bool
    ensures { result ≡ (is_within bases level && follows before level) }
{
    is_within(bases, level) & follows(before, level)
}

/// Whether a level leaves out no more of any component than its bases allow.
fn is_within(bases: Bases, level: Level) -> bool
    ensures { result ≡ is_within bases level }
{
    let y = stays_within(&bases.y.values, &level.y.values);
    let cb = stays_within(&bases.cb.values, &level.cb.values);
    let cr = stays_within(&bases.cr.values, &level.cr.values);
    y & (cb & cr)
}

/// Whether a level leaves out as much as the one before it, or less by up to 6.
fn follows(before: Option<Level>, level: Level) -> bool
    ensures { result ≡ follows before level }
{
    match before {
        None => true,
        Some(before) => falls_to(before, level),
    }
}

/// The same of two levels.
fn falls_to(before: Level, level: Level) -> bool
    ensures { result ≡ follows (Some before) level }
{
    let y = falls_well(&before.y.values, &level.y.values);
    let cb = falls_well(&before.cb.values, &level.cb.values);
    let cr = falls_well(&before.cr.values, &level.cr.values);
    y & (cb & cr)
}

/// Whether base and level are at most 15 together in each band.
fn stays_within(base: &[u8; 10], level: &[u8; 10]) -> bool
    ensures { result ≡ stays_within base.now level.now }
{
    let mut fine = true;
    'bands: for band in 0..10 {
        fine &= is_sum(base[band], level[band]);
    }
    fine
}

fn is_sum(base: u8, level: u8) -> bool
    ensures { result ≡ nat_le (base + level) MOST_BITS }
{
    u16::from(base) + u16::from(level) <= u16::from(MOST_BITS)
}

/// Whether no band rises, and none falls by more than 6.
fn falls_well(level: &[u8; 10], next: &[u8; 10]) -> bool
    ensures { result ≡ falls_well level.now next.now }
{
    let mut fine = true;
    'bands: for band in 0..10 {
        fine &= is_fall(level[band], next[band]);
    }
    fine
}

fn is_fall(level: u8, next: u8) -> bool
    ensures { result ≡ (nat_le next level && nat_le level (next + MOST_FALL)) }
{
    (next <= level) & (u16::from(level) <= u16::from(next) + u16::from(MOST_FALL))
}
