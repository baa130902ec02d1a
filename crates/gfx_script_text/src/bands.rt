//! Ten numbers for the bands of a component.

ghost use Rattle.std.specs.Prelude.{◌≡◌, ◌<◌, length, map};
ghost use Rattle.gfx_base.specs.Results.{each};
ghost use Rattle.toml.specs.View.{view};
ghost use Rattle.gfx_script_text.specs.Progressive.{number_in, quant_of};

use crate::members::small_within;
use gfx_quant::Quant;
use gfx_script::ScriptKind;
use toml::Value;

/// Ten numbers for the bands in their order, each from the least to the most.
#[tactic(auto, unfolding(crate::specs::Progressive::quant_of, gfx_base::specs::Results::and_then))]
pub(crate) fn quant_of(items: &[Value], least: u8, most: u8) -> Result<Quant, ScriptKind>
    requires { most < 16 }
    ensures { result ≡ quant_of least most (map view items.now) }
{
    if items.len() != 10 {
        return Err(ScriptKind::Range);
    }
    let values = read_ten(items, least, most)?;
    Ok(Quant { values })
}

/// Reads ten numbers, each from the least to the most.
fn read_ten(items: &[Value], least: u8, most: u8) -> Result<[u8; 10], ScriptKind>
    requires { length items.now ≡ 10 }
    ensures { result ≡ each (number_in least most) (map view items.now) }
{
    let mut values = [0; 10];
    'values: for index in 0..10 {
        values[index] = number_in(&items[index], least, most)?;
    }
    Ok(values)
}

/// The number that a value is, from the least to the most.
#[tactic(auto, unfolding(crate::specs::Progressive::number_in, gfx_base::specs::Results::and_then))]
fn number_in(value: &Value, least: u8, most: u8) -> Result<u8, ScriptKind>
    ensures { result ≡ number_in least most (view value.now) }
{
    match value.as_integer() {
        Some(number) => small_within(number, least, most),
        None => Err(ScriptKind::Key),
    }
}
