//! The steps that copy rectangles.

ghost use Rattle.std.specs.Prelude.{map};
ghost use Rattle.toml.specs.View.{table_view, view};
ghost use Rattle.gfx_base.specs.Outcome.{Gives};
ghost use Rattle.gfx_script_text.specs.Words.{copy_between, copy_of};

use crate::MOST_NUMBER;
use crate::members::{check_keys, whole, within};
use crate::places::{arrays_at, numbers_at, read_points, rect_of};
use gfx_script::{Flaw, Step};
use std::alloc::Global;
use toml::{Table, Value};

/// Reads `copy`.
#[tactic(auto, unfolding(crate::specs::Words::copy_of, gfx_base::specs::Results::and_then))]
pub(crate) fn read_copy(alloc: Global, table: &Table) -> Result<Step, Flaw>
    ensures { Gives (λ x. x) result (copy_of (table_view table.now)) }
{
    check_keys(table, &["do", "from", "to", "rect", "points"])?;
    let from = whole(table, "from")?;
    let to = whole(table, "to")?;
    let corners = numbers_at(table, "rect")?;
    let points = arrays_at(table, "points")?;
    copy_between(alloc, from, to, corners, points)
}

/// Reads the copy of these ids, this rectangle and these points, whose types are right.
#[tactic(auto, unfolding(crate::specs::Words::copy_between, gfx_base::specs::Results::and_then))]
fn copy_between(
    alloc: Global,
    from: i64,
    to: i64,
    corners: &[Value],
    points: &[Value],
) -> Result<Step, Flaw>
    ensures { Gives (λ x. x) result (copy_between from to (map view corners.now) (map view points.now)) }
{
    let from = within(from, 0, MOST_NUMBER)?;
    let to = within(to, 0, MOST_NUMBER)?;
    let rect = rect_of(corners)?;
    let points = read_points(alloc, points)?;
    Ok(Step::Copy {
        from,
        to,
        rect,
        points,
    })
}
