//! The steps that change the output.

ghost use Rattle.std.specs.Prelude.{◌≡◌};
ghost use Rattle.toml.specs.View.{table_view};
ghost use Rattle.gfx_surface_map.specs.declared.place.TheConstants.{MOST_OUTPUT_SIDE};
ghost use Rattle.gfx_script_text.specs.Members as members;
ghost use Rattle.gfx_script_text.specs.Words.{reset_of, map_of};

use crate::MOST_NUMBER;
use crate::members::{check_keys, whole, within};
use gfx_script::{ScriptKind, Step};
use gfx_surface_map::MOST_OUTPUT_SIDE;
use toml::Table;

/// Reads `reset`.
#[tactic(auto, unfolding(crate::specs::Words::reset_of, gfx_base::specs::Results::and_then))]
pub(crate) fn read_reset(table: &Table) -> Result<Step, ScriptKind>
    ensures { result ≡ reset_of (table_view table.now) }
{
    check_keys(table, &["do", "width", "height"])?;
    let width = whole(table, "width")?;
    let height = whole(table, "height")?;
    let width = along_output(width, 1)?;
    let height = along_output(height, 1)?;
    Ok(Step::Reset { width, height })
}

/// Reads `map`.
#[tactic(auto, unfolding(crate::specs::Words::map_of, gfx_base::specs::Results::and_then))]
pub(crate) fn read_map(table: &Table) -> Result<Step, ScriptKind>
    ensures { result ≡ map_of (table_view table.now) }
{
    check_keys(table, &["do", "id", "x", "y"])?;
    let id = whole(table, "id")?;
    let x = whole(table, "x")?;
    let y = whole(table, "y")?;
    let id = within(id, 0, MOST_NUMBER)?;
    let x = along_output(x, 0)?;
    let y = along_output(y, 0)?;
    Ok(Step::Map { id, x, y })
}

/// A number from the least to the longest side of the output.
fn along_output(number: i64, least: u16) -> Result<u32, ScriptKind>
    ensures { result ≡ members.within least MOST_OUTPUT_SIDE number }
{
    match within(number, least, MOST_OUTPUT_SIDE as u16) {
        Ok(number) => Ok(u32::from(number)),
        Err(kind) => Err(kind),
    }
}
