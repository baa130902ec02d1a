//! How the progressive paints of a script are coded.

ghost use Rattle.std.specs.Prelude.{◌≡◌, map, option_map, codes};
ghost use Rattle.gfx_base.specs.Outcome.{Says};
ghost use Rattle.toml.specs.Data.{get_member};
ghost use Rattle.toml.specs.View.{table_view, view};
ghost use Rattle.gfx_script_text.specs.Progressive.{usual_base, usual_progressive, transform_named, transform_or_usual, rounding_named, rounding_or_usual, numbers_if_any, base_of, bases_of, accepted, setting_with, progressive_in, progressive_of};

use crate::bands::quant_of;
use crate::levels::{Bases, levels_of, usual_levels};
use crate::members::{check_keys, flag_or_false, items_if_any, items_in, member};
use crate::places::all_whole;
use gfx_dwt::Transform;
use gfx_quant::{LEAST_BASE, MOST_BITS, Quant, Rounding, Setting};
use gfx_script::ScriptKind;
use toml::{Table, Value};

/// What a script says of its progressive paints: how they are coded, and whether their tiles may go as
/// differences from those before.
#[derive(Drop)]
pub struct Progressive {
    pub setting: Setting,
    pub differences: bool,
}

/// Reads what stands under `progressive`, if anything does.
#[tactic(auto, unfolding(crate::specs::Progressive::progressive_of))]
pub(crate) fn read_progressive(table: Option<&Table>) -> Result<Progressive, ScriptKind>
    ensures { result ≡ progressive_of (option_map (λ t. table_view t.now) table.entry) }
{
    match table {
        None => Ok(usual_progressive()),
        Some(table) => progressive_in(table),
    }
}

/// How paints are coded where the script says nothing.
fn usual_progressive() -> Progressive
    ensures { result ≡ usual_progressive }
{
    Progressive {
        setting: Setting {
            transform: Transform::Reduced,
            rounding: Rounding::Zero,
            y: usual_base(),
            cb: usual_base(),
            cr: usual_base(),
            levels: usual_levels(),
        },
        differences: false,
    }
}

/// Reads a table.
#[tactic(auto, unfolding(crate::specs::Progressive::progressive_in, gfx_base::specs::Results::and_then))]
fn progressive_in(table: &Table) -> Result<Progressive, ScriptKind>
    ensures { result ≡ progressive_in (table_view table.now) }
{
    check_keys(
        table,
        &[
            "transform",
            "rounding",
            "y",
            "cb",
            "cr",
            "level",
            "difference",
        ],
    )?;
    let transform = read_transform(table)?;
    let rounding = read_rounding(table)?;
    let y = numbers_if_any(table, "y")?;
    let cb = numbers_if_any(table, "cb")?;
    let cr = numbers_if_any(table, "cr")?;
    let levels = items_if_any(table, "level")?;
    let differences = flag_or_false(table, "difference")?;
    let setting = setting_with(transform, rounding, y, cb, cr, levels)?;
    Ok(Progressive {
        setting,
        differences,
    })
}

/// The setting of these parts, whose types are right.
#[tactic(auto, unfolding(crate::specs::Progressive::setting_with, gfx_base::specs::Results::and_then))]
fn setting_with(
    transform: Transform,
    rounding: Rounding,
    y: Option<&[Value]>,
    cb: Option<&[Value]>,
    cr: Option<&[Value]>,
    levels: Option<&[Value]>,
) -> Result<Setting, ScriptKind>
    ensures { result ≡ setting_with transform rounding (option_map (λ x. map view x.now) y.entry) (option_map (λ x. map view x.now) cb.entry) (option_map (λ x. map view x.now) cr.entry) (option_map (λ x. map view x.now) levels.entry) }
{
    let bases = bases_of(y, cb, cr)?;
    let levels = levels_of(bases, levels)?;
    accepted(Setting {
        transform,
        rounding,
        y: bases.y,
        cb: bases.cb,
        cr: bases.cr,
        levels,
    })
}

/// A setting, if a server may code its paints so.
#[tactic(auto, unfolding(crate::specs::Progressive::accepted, gfx_base::specs::Results::and_then))]
fn accepted(setting: Setting) -> Result<Setting, ScriptKind>
    ensures { result ≡ accepted setting }
{
    if setting.is_accepted() {
        Ok(setting)
    } else {
        Err(ScriptKind::Range)
    }
}

/// The transform, which may be missing.
#[tactic(auto, unfolding(gfx_base::specs::Results::and_then))]
fn read_transform(table: &Table) -> Result<Transform, ScriptKind>
    ensures { result ≡ transform_or_usual (get_member (codes "transform") (table_view table.now)) }
{
    match member(table, "transform") {
        None => Ok(Transform::Reduced),
        Some(Value::String(word)) => transform_named(word.as_str()),
        Some(_) => Err(ScriptKind::Key),
    }
}

/// The transform that a word names.
fn transform_named(word: &str) -> Result<Transform, ScriptKind>
    ensures { result ≡ transform_named word.now }
{
    match word {
        "plain" => Ok(Transform::Plain),
        "reduced" => Ok(Transform::Reduced),
        _ => Err(ScriptKind::Key),
    }
}

/// The rounding, which may be missing.
#[tactic(auto, unfolding(gfx_base::specs::Results::and_then))]
fn read_rounding(table: &Table) -> Result<Rounding, ScriptKind>
    ensures { result ≡ rounding_or_usual (get_member (codes "rounding") (table_view table.now)) }
{
    match member(table, "rounding") {
        None => Ok(Rounding::Zero),
        Some(Value::String(word)) => rounding_named(word.as_str()),
        Some(_) => Err(ScriptKind::Key),
    }
}

/// The rounding that a word names.
fn rounding_named(word: &str) -> Result<Rounding, ScriptKind>
    ensures { result ≡ rounding_named word.now }
{
    match word {
        "zero" => Ok(Rounding::Zero),
        "nearest" => Ok(Rounding::Nearest),
        _ => Err(ScriptKind::Key),
    }
}

/// The array of whole numbers under a key, which may be missing.
#[tactic(auto, unfolding(gfx_base::specs::Results::and_then))]
fn numbers_if_any<'a>(table: &'a Table, key: &str) -> Result<Option<&'a [Value]>, ScriptKind>
    ensures { Says (option_map (λ x. map view x.now)) result (numbers_if_any (get_member key.now (table_view table.now))) }
{
    let Some(value) = member(table, key) else {
        return Ok(None);
    };
    let Some(items) = items_in(value) else {
        return Err(ScriptKind::Key);
    };
    if !all_whole(items) {
        return Err(ScriptKind::Key);
    }
    Ok(Some(items))
}

/// The bases of all components.
#[tactic(auto, unfolding(crate::specs::Progressive::bases_of, gfx_base::specs::Results::and_then))]
fn bases_of(
    y: Option<&[Value]>,
    cb: Option<&[Value]>,
    cr: Option<&[Value]>,
) -> Result<Bases, ScriptKind>
    ensures { result ≡ bases_of (option_map (λ x. map view x.now) y.entry) (option_map (λ x. map view x.now) cb.entry) (option_map (λ x. map view x.now) cr.entry) }
{
    let y = base_of(y)?;
    let cb = base_of(cb)?;
    let cr = base_of(cr)?;
    Ok(Bases { y, cb, cr })
}

/// The base of each band of a component, where it is given.
#[tactic(auto, unfolding(crate::specs::Progressive::base_of))]
fn base_of(items: Option<&[Value]>) -> Result<Quant, ScriptKind>
    ensures { result ≡ base_of (option_map (λ x. map view x.now) items.entry) }
{
    match items {
        None => Ok(usual_base()),
        Some(items) => quant_of(items, LEAST_BASE, MOST_BITS),
    }
}

/// The base of each band where the script doesn't give it.
fn usual_base() -> Quant
    ensures { result ≡ usual_base }
{
    Quant { values: [6; 10] }
}
