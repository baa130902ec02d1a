//! The steps that make, delete and improve surfaces.

ghost use Rattle.std.specs.Prelude.{◌≡◌};
ghost use Rattle.toml.specs.View.{table_view};
ghost use Rattle.gfx_script_text.specs.Words.{surface_of, format_or_default, format_named, delete_of, improve_of};
ghost use Rattle.std.specs.Prelude.{codes};
ghost use Rattle.toml.specs.Data.{get_member};

use crate::MOST_NUMBER;
use crate::members::{check_keys, member, whole, within};
use gfx_base::Format;
use gfx_script::{ScriptKind, Step};
use gfx_surface::MOST_SIDE;
use toml::{Table, Value};

/// Reads `surface`.
#[tactic(auto, unfolding(crate::specs::Words::surface_of, gfx_base::specs::Results::and_then))]
pub(crate) fn read_surface(table: &Table) -> Result<Step, ScriptKind>
    ensures { result ≡ surface_of (table_view table.now) }
{
    check_keys(table, &["do", "id", "width", "height", "format"])?;
    let id = whole(table, "id")?;
    let width = whole(table, "width")?;
    let height = whole(table, "height")?;
    let format = read_format(table)?;
    let id = within(id, 0, MOST_NUMBER)?;
    let width = within(width, 1, MOST_SIDE)?;
    let height = within(height, 1, MOST_SIDE)?;
    Ok(Step::Surface {
        id,
        width,
        height,
        format,
    })
}

/// Reads `delete`.
#[tactic(auto, unfolding(crate::specs::Words::delete_of, gfx_base::specs::Results::and_then))]
pub(crate) fn read_delete(table: &Table) -> Result<Step, ScriptKind>
    ensures { result ≡ delete_of (table_view table.now) }
{
    check_keys(table, &["do", "id"])?;
    let id = whole(table, "id")?;
    let id = within(id, 0, MOST_NUMBER)?;
    Ok(Step::Delete { id })
}

/// Reads `improve`.
#[tactic(auto, unfolding(crate::specs::Words::improve_of, gfx_base::specs::Results::and_then))]
pub(crate) fn read_improve(table: &Table) -> Result<Step, ScriptKind>
    ensures { result ≡ improve_of (table_view table.now) }
{
    check_keys(table, &["do", "id"])?;
    let id = whole(table, "id")?;
    let id = within(id, 0, MOST_NUMBER)?;
    Ok(Step::Improve { id })
}

/// The format, which may be missing.
#[tactic(auto, unfolding(gfx_base::specs::Results::and_then))]
fn read_format(table: &Table) -> Result<Format, ScriptKind>
    ensures { result ≡ format_or_default (get_member (codes "format") (table_view table.now)) }
{
    match member(table, "format") {
        None => Ok(Format::Xrgb),
        Some(Value::String(word)) => format_named(word.as_str()),
        Some(_) => Err(ScriptKind::Key),
    }
}

/// The format that a word names.
fn format_named(word: &str) -> Result<Format, ScriptKind>
    ensures { result ≡ format_named word.now }
{
    match word {
        "xrgb" => Ok(Format::Xrgb),
        "argb" => Ok(Format::Argb),
        _ => Err(ScriptKind::Key),
    }
}
