//! The words of steps.

ghost use Rattle.std.specs.Prelude.{◌≡◌};
ghost use Rattle.toml.specs.View.{table_view, view};
ghost use Rattle.gfx_base.specs.Outcome.{Gives};
ghost use Rattle.gfx_script_text.specs.Words.{frame_of, worded, step_of};

use crate::cache::{read_forget, read_keep, read_show};
use crate::copy::read_copy;
use crate::fill::read_fill;
use crate::members::{check_keys, text};
use crate::names::Names;
use crate::output::{read_map, read_reset};
use crate::paint::read_paint;
use crate::surface::{read_delete, read_improve, read_surface};
use gfx_script::{Flaw, ScriptKind, Step};
use std::alloc::Global;
use toml::{Table, Value};

/// Reads a step.
#[tactic(auto, unfolding(crate::specs::Words::step_of, gfx_base::specs::Results::and_then))]
pub(crate) fn read_step(alloc: Global, names: &Names<'_>, value: &Value) -> Result<Step, Flaw>
    ensures { Gives (λ x. x) result (step_of names.now (view value.now)) }
{
    let Value::Table(table) = value else {
        return Err(Flaw::Refused(ScriptKind::Key));
    };
    let word = text(table, "do")?;
    read_worded(alloc, names, word, table)
}

/// Reads the step of a table with this word.
#[tactic(auto, unfolding(crate::specs::Words::worded))]
fn read_worded(alloc: Global, names: &Names<'_>, word: &str, table: &Table) -> Result<Step, Flaw>
    ensures { Gives (λ x. x) result (worded names.now word.now (table_view table.now)) }
{
    match word {
        "surface" => Ok(read_surface(table)?),
        "delete" => Ok(read_delete(table)?),
        "reset" => Ok(read_reset(table)?),
        "map" => Ok(read_map(table)?),
        "fill" => read_fill(alloc, table),
        "copy" => read_copy(alloc, table),
        "keep" => Ok(read_keep(table)?),
        "show" => read_show(alloc, table),
        "forget" => Ok(read_forget(table)?),
        "paint" => Ok(read_paint(names, table)?),
        "improve" => Ok(read_improve(table)?),
        "frame" => Ok(read_frame(table)?),
        _ => Err(Flaw::Refused(ScriptKind::Key)),
    }
}

/// Reads `frame`.
#[tactic(auto, unfolding(crate::specs::Words::frame_of, gfx_base::specs::Results::and_then))]
fn read_frame(table: &Table) -> Result<Step, ScriptKind>
    ensures { result ≡ frame_of (table_view table.now) }
{
    check_keys(table, &["do"])?;
    Ok(Step::Frame)
}
