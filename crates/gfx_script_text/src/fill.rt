//! The steps that fill rectangles.

ghost use Rattle.toml.specs.View.{table_view};
ghost use Rattle.gfx_base.specs.Outcome.{Gives};
ghost use Rattle.gfx_script_text.specs.Words.{fill_of};

use crate::MOST_NUMBER;
use crate::colour::read_colour;
use crate::members::{check_keys, list, text, whole, within};
use crate::places::{all_are_whole, read_rects};
use gfx_script::{Flaw, MOST_RECTS, ScriptKind, Step};
use std::alloc::Global;
use toml::Table;

/// Reads `fill`.
#[tactic(auto, unfolding(crate::specs::Words::fill_of, gfx_base::specs::Results::and_then))]
pub(crate) fn read_fill(alloc: Global, table: &Table) -> Result<Step, Flaw>
    ensures { Gives (λ x. x) result (fill_of (table_view table.now)) }
{
    check_keys(table, &["do", "id", "colour", "rects"])?;
    let id = whole(table, "id")?;
    let digits = text(table, "colour")?;
    let rects = list(table, "rects")?;
    if !all_are_whole(rects) {
        return Err(Flaw::Refused(ScriptKind::Key));
    }
    let id = within(id, 0, MOST_NUMBER)?;
    if !(1..=MOST_RECTS).contains(&rects.len()) {
        return Err(Flaw::Refused(ScriptKind::Range));
    }
    let rects = read_rects(alloc, rects)?;
    let colour = read_colour(digits)?;
    Ok(Step::Fill { id, colour, rects })
}
