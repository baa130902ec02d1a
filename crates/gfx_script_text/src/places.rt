//! Rectangles, points and coordinates as scripts write them.

ghost use Rattle.std.specs.Prelude.{◌≡◌, map};
ghost use Rattle.std.specs.List.{list_all};
ghost use Rattle.std.specs.Option.{ok_or};
ghost use Rattle.gfx_base.specs.Results.{and_then, each};
ghost use Rattle.toml.specs.Data.{as_integer};
ghost use Rattle.toml.specs.View.{table_view, view};
ghost use Rattle.gfx_script_text.specs.declared.TheConstants.{MOST_NUMBER};
ghost use Rattle.gfx_script.specs.declared.error.ScriptKind.TheVariants.{Key};
ghost use Rattle.gfx_base.specs.Outcome.{Gives, Says};
ghost use Rattle.gfx_script_text.specs.Members.{within};
ghost use Rattle.gfx_script_text.specs.Places.{is_whole, are_whole, coordinate_at, rect_of, rect_in, point_of, point_in, points_of, numbers_at, arrays_at};

use crate::MOST_NUMBER;
use crate::members::{items_in, list, within};
use gfx_base::{Point, Points, Rect, Rects};
use gfx_script::{Flaw, MOST_RECTS, ScriptKind};
use std::alloc::Global;
use toml::{Table, Value};

/// Whether all of these values are arrays of whole numbers.
pub(crate) fn all_are_whole(values: &[Value]) -> bool
    ensures { result ≡ list_all are_whole (map view values.now) }
{
    'values: for value in values {
        if !are_whole(value) {
            return false;
        }
    }
    true
}

/// Whether the value is an array of whole numbers.
fn are_whole(value: &Value) -> bool
    ensures { result ≡ are_whole (view value.now) }
{
    match items_in(value) {
        Some(items) => all_whole(items),
        None => false,
    }
}

/// Whether all of these values are whole numbers.
pub(crate) fn all_whole(values: &[Value]) -> bool
    ensures { result ≡ list_all is_whole (map view values.now) }
{
    'values: for value in values {
        if !value.is_integer() {
            return false;
        }
    }
    true
}

/// The array of whole numbers under a key.
#[tactic(auto, unfolding(crate::specs::Places::numbers_at, gfx_base::specs::Results::and_then))]
pub(crate) fn numbers_at<'a>(table: &'a Table, key: &str) -> Result<&'a [Value], ScriptKind>
    ensures { Says (λ x. map view x.now) result (numbers_at key.now (table_view table.now)) }
{
    let values = list(table, key)?;
    if !all_whole(values) {
        return Err(ScriptKind::Key);
    }
    Ok(values)
}

/// The array of arrays of whole numbers under a key.
#[tactic(auto, unfolding(crate::specs::Places::arrays_at, gfx_base::specs::Results::and_then))]
pub(crate) fn arrays_at<'a>(table: &'a Table, key: &str) -> Result<&'a [Value], ScriptKind>
    ensures { Says (λ x. map view x.now) result (arrays_at key.now (table_view table.now)) }
{
    let values = list(table, key)?;
    if !all_are_whole(values) {
        return Err(ScriptKind::Key);
    }
    Ok(values)
}

/// Reads rectangles, one after another.
pub(crate) fn read_rects(alloc: Global, values: &[Value]) -> Result<Rects, Flaw>
    ensures { Gives (λ x. x) result (each rect_in (map view values.now)) }
{
    let mut rects = Rects::new(alloc);
    'values: for value in values {
        let rect = read_rect(value)?;
        rects.push(rect)?;
    }
    Ok(rects)
}

/// Reads a rectangle.
#[tactic(auto, unfolding(crate::specs::Places::rect_in, gfx_base::specs::Results::and_then))]
fn read_rect(value: &Value) -> Result<Rect, ScriptKind>
    ensures { result ≡ rect_in (view value.now) }
{
    match items_in(value) {
        Some(items) => rect_of(items),
        None => Err(ScriptKind::Key),
    }
}

/// The rectangle [left, top, right, bottom].
#[tactic(auto, unfolding(crate::specs::Places::rect_of, gfx_base::specs::Results::and_then))]
pub(crate) fn rect_of(items: &[Value]) -> Result<Rect, ScriptKind>
    ensures { result ≡ rect_of (map view items.now) }
{
    if items.len() != 4 {
        return Err(ScriptKind::Range);
    }
    let left = coordinate_at(0, items)?;
    let top = coordinate_at(1, items)?;
    let right = coordinate_at(2, items)?;
    let bottom = coordinate_at(3, items)?;
    Ok(Rect {
        left,
        top,
        right,
        bottom,
    })
}

/// Reads some points, one after another.
#[tactic(auto, unfolding(crate::specs::Places::points_of, gfx_base::specs::Results::and_then))]
pub(crate) fn read_points(alloc: Global, values: &[Value]) -> Result<Points, Flaw>
    ensures { Gives (λ x. x) result (points_of (map view values.now)) }
{
    if !(1..=MOST_RECTS).contains(&values.len()) {
        return Err(Flaw::Refused(ScriptKind::Range));
    }
    read_each_point(alloc, values)
}

/// Reads points, one after another.
fn read_each_point(alloc: Global, values: &[Value]) -> Result<Points, Flaw>
    ensures { Gives (λ x. x) result (each point_in (map view values.now)) }
{
    let mut points = Points::new(alloc);
    'values: for value in values {
        let point = read_point(value)?;
        points.push(point)?;
    }
    Ok(points)
}

/// Reads a point.
#[tactic(auto, unfolding(crate::specs::Places::point_in, gfx_base::specs::Results::and_then))]
fn read_point(value: &Value) -> Result<Point, ScriptKind>
    ensures { result ≡ point_in (view value.now) }
{
    match items_in(value) {
        Some(items) => point_of(items),
        None => Err(ScriptKind::Key),
    }
}

/// The point [x, y].
#[tactic(auto, unfolding(crate::specs::Places::point_of, gfx_base::specs::Results::and_then))]
pub(crate) fn point_of(items: &[Value]) -> Result<Point, ScriptKind>
    ensures { result ≡ point_of (map view items.now) }
{
    if items.len() != 2 {
        return Err(ScriptKind::Range);
    }
    let x = coordinate_at(0, items)?;
    let y = coordinate_at(1, items)?;
    Ok(Point { x, y })
}

/// The coordinate at a place of an array.
#[tactic(auto, unfolding(crate::specs::Places::coordinate_at, gfx_base::specs::Results::and_then))]
fn coordinate_at(at: usize, items: &[Value]) -> Result<u16, ScriptKind>
    ensures { result ≡ coordinate_at at (map view items.now) }
{
    match items.get(at) {
        Some(value) => coordinate(value),
        None => Err(ScriptKind::Key),
    }
}

/// The coordinate that a value is.
#[tactic(auto, unfolding(gfx_base::specs::Results::and_then))]
fn coordinate(value: &Value) -> Result<u16, ScriptKind>
    ensures { result ≡ and_then (ok_or (as_integer (view value.now)) Key) (within 0 MOST_NUMBER) }
{
    match value.as_integer() {
        Some(number) => within(number, 0, MOST_NUMBER),
        None => Err(ScriptKind::Key),
    }
}
