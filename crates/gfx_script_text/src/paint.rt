//! The steps that paint pictures.

ghost use Rattle.std.specs.Prelude.{◌≡◌, codes};
ghost use Rattle.toml.specs.Data.{get_member};
ghost use Rattle.toml.specs.View.{table_view, view};
ghost use Rattle.std.specs.Prelude.{map};
ghost use Rattle.gfx_script_text.specs.Words.{kind_named, kind_or_auto, glyph_of, paint_with, paint_of};

use crate::MOST_NUMBER;
use crate::members::{check_keys, member, text, whole, whole_if_any, within};
use crate::names::Names;
use crate::places::{numbers_at, point_of};
use gfx_script::{Kind, MOST_GLYPH, ScriptKind, Step};
use toml::{Table, Value};

/// Reads `paint`, where the pictures have these names.
#[tactic(auto, unfolding(crate::specs::Words::paint_of, gfx_base::specs::Results::and_then))]
pub(crate) fn read_paint(names: &Names<'_>, table: &Table) -> Result<Step, ScriptKind>
    ensures { result ≡ paint_of names.now (table_view table.now) }
{
    check_keys(table, &["do", "id", "picture", "at", "kind", "glyph"])?;
    let id = whole(table, "id")?;
    let name = text(table, "picture")?;
    let place = numbers_at(table, "at")?;
    let kind = read_kind(table)?;
    let glyph = whole_if_any(table, "glyph")?;
    paint_with(id, names.number_of(name), place, kind, glyph)
}

/// The paint of a picture of this number, whose types are right.
#[tactic(auto, unfolding(crate::specs::Words::paint_with, gfx_base::specs::Results::and_then))]
fn paint_with(
    id: i64,
    picture: u32,
    place: &[Value],
    kind: Option<Kind>,
    glyph: Option<i64>,
) -> Result<Step, ScriptKind>
    ensures { result ≡ paint_with id picture (map view place.now) kind glyph }
{
    let id = within(id, 0, MOST_NUMBER)?;
    let at = point_of(place)?;
    let glyph = glyph_of(glyph)?;
    Ok(Step::Paint {
        id,
        picture,
        at,
        kind,
        glyph,
    })
}

/// The kind, which may be missing.
#[tactic(auto, unfolding(gfx_base::specs::Results::and_then))]
fn read_kind(table: &Table) -> Result<Option<Kind>, ScriptKind>
    ensures { result ≡ kind_or_auto (get_member (codes "kind") (table_view table.now)) }
{
    match member(table, "kind") {
        None => Ok(None),
        Some(Value::String(word)) => kind_named(word.as_str()),
        Some(_) => Err(ScriptKind::Key),
    }
}

/// The kind that a word names: with `auto` the server's end chooses one.
fn kind_named(word: &str) -> Result<Option<Kind>, ScriptKind>
    ensures { result ≡ kind_named word.now }
{
    match word {
        "raw" => Ok(Some(Kind::Raw)),
        "residual" => Ok(Some(Kind::Residual)),
        "bands" => Ok(Some(Kind::Bands)),
        "palette" => Ok(Some(Kind::Palette)),
        "plain" => Ok(Some(Kind::Plain)),
        "progressive" => Ok(Some(Kind::Progressive)),
        "auto" => Ok(None),
        "video" => Ok(Some(Kind::Video)),
        _ => Err(ScriptKind::Key),
    }
}

/// The index of a glyph, which may be missing.
#[tactic(auto, unfolding(crate::specs::Words::glyph_of, gfx_base::specs::Results::and_then))]
fn glyph_of(number: Option<i64>) -> Result<Option<u16>, ScriptKind>
    ensures { result ≡ glyph_of number }
{
    match number {
        None => Ok(None),
        Some(number) => Ok(Some(within(number, 0, MOST_GLYPH)?)),
    }
}
