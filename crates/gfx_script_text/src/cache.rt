//! The steps that keep, show and forget bitmaps.

ghost use Rattle.std.specs.Prelude.{◌≡◌};
ghost use Rattle.toml.specs.View.{table_view};
ghost use Rattle.gfx_base.specs.Outcome.{Gives};
ghost use Rattle.gfx_script_text.specs.Words.{keep_of, show_of, forget_of};

use crate::MOST_NUMBER;
use crate::members::{check_keys, key_number, whole, within};
use crate::places::{arrays_at, numbers_at, read_points, rect_of};
use gfx_script::{Flaw, ScriptKind, Step};
use std::alloc::Global;
use toml::Table;

/// Reads `keep`.
#[tactic(auto, unfolding(crate::specs::Words::keep_of, gfx_base::specs::Results::and_then))]
pub(crate) fn read_keep(table: &Table) -> Result<Step, ScriptKind>
    ensures { result ≡ keep_of (table_view table.now) }
{
    check_keys(table, &["do", "id", "key", "rect"])?;
    let id = whole(table, "id")?;
    let key = whole(table, "key")?;
    let corners = numbers_at(table, "rect")?;
    let id = within(id, 0, MOST_NUMBER)?;
    let key = key_number(key)?;
    let rect = rect_of(corners)?;
    Ok(Step::Keep { id, key, rect })
}

/// Reads `show`.
#[tactic(auto, unfolding(crate::specs::Words::show_of, gfx_base::specs::Results::and_then))]
pub(crate) fn read_show(alloc: Global, table: &Table) -> Result<Step, Flaw>
    ensures { Gives (λ x. x) result (show_of (table_view table.now)) }
{
    check_keys(table, &["do", "key", "to", "points"])?;
    let key = whole(table, "key")?;
    let to = whole(table, "to")?;
    let points = arrays_at(table, "points")?;
    let key = key_number(key)?;
    let to = within(to, 0, MOST_NUMBER)?;
    let points = read_points(alloc, points)?;
    Ok(Step::Show { key, to, points })
}

/// Reads `forget`.
#[tactic(auto, unfolding(crate::specs::Words::forget_of, gfx_base::specs::Results::and_then))]
pub(crate) fn read_forget(table: &Table) -> Result<Step, ScriptKind>
    ensures { result ≡ forget_of (table_view table.now) }
{
    check_keys(table, &["do", "key"])?;
    let key = whole(table, "key")?;
    let key = key_number(key)?;
    Ok(Step::Forget { key })
}
