//! What stands under the keys of a table. Nothing is copied.

ghost use Rattle.std.specs.Prelude.{◌≡◌, Result, map, option_map};
ghost use Rattle.std.specs.List.{list_any};
ghost use Rattle.std.specs.Str.{bytes_eq};
ghost use Rattle.gfx_base.specs.Results.{check};
ghost use Rattle.toml.specs.Data.{get_member};
ghost use Rattle.toml.specs.View.{table_view, view};
ghost use Rattle.gfx_script.specs.declared.TheConstants.{MOST_KEY};
ghost use Rattle.gfx_script.specs.declared.error.ScriptKind.TheVariants.{Key};
ghost use Rattle.gfx_script_text.specs.Members as members;
ghost use Rattle.gfx_base.specs.Outcome.{Says};

use gfx_script::{MOST_KEY, ScriptKind};
use toml::{Table, Value};

/// What stands under a key, if anything does.
pub(crate) fn member<'a>(table: &'a Table, key: &str) -> Option<&'a Value>
    ensures { option_map (λ v. view v.now) result ≡ get_member key.now (table_view table.now) }
{
    table.get(key)
}

/// Refuses a table that has another key than these.
pub(crate) fn check_keys(table: &Table, keys: &[&str]) -> Result<(), ScriptKind>
    ensures { result ≡ check Key (members.has_only (map (λ k. k.now) keys.now) (table_view table.now)) }
{
    if has_only(table, keys) {
        Ok(())
    } else {
        Err(ScriptKind::Key)
    }
}

/// Whether each key of the table is one of these.
fn has_only(table: &Table, keys: &[&str]) -> bool
    ensures { result ≡ members.has_only (map (λ k. k.now) keys.now) (table_view table.now) }
{
    'members: for key in table.keys() {
        if !is_among(key.as_str(), keys) {
            return false;
        }
    }
    true
}

/// Whether a key is one of these.
fn is_among(key: &str, keys: &[&str]) -> bool
    ensures { result ≡ list_any (λ one. bytes_eq one key.now) (map (λ k. k.now) keys.now) }
{
    (&*keys).contains(&key)
}

/// The items of a value that is an array.
pub(crate) fn items_in(value: &Value) -> Option<&[Value]>
    ensures { option_map (λ x. map view x.now) result ≡ members.items_in (view value.now) }
{
    match value.as_array() {
        Some(items) => Some(items.as_slice()),
        None => None,
    }
}

/// The whole number under a key.
#[tactic(auto, unfolding(crate::specs::Members::whole))]
pub(crate) fn whole(table: &Table, key: &str) -> Result<i64, ScriptKind>
    ensures { result ≡ members.whole key.now (table_view table.now) }
{
    match member(table, key) {
        Some(value) => value.as_integer().ok_or(ScriptKind::Key),
        None => Err(ScriptKind::Key),
    }
}

/// The whole number under a key, which may be missing.
#[tactic(auto, unfolding(gfx_base::specs::Results::and_then))]
pub(crate) fn whole_if_any(table: &Table, key: &str) -> Result<Option<i64>, ScriptKind>
    ensures { result ≡ members.whole_if_any (get_member key.now (table_view table.now)) }
{
    match member(table, key) {
        None => Ok(None),
        Some(value) => match value.as_integer() {
            Some(number) => Ok(Some(number)),
            None => Err(ScriptKind::Key),
        },
    }
}

/// The truth value under a key, which may be missing and is then false.
pub(crate) fn flag_or_false(table: &Table, key: &str) -> Result<bool, ScriptKind>
    ensures { result ≡ members.flag_or_false (get_member key.now (table_view table.now)) }
{
    match member(table, key) {
        None => Ok(false),
        Some(Value::Boolean(flag)) => Ok(*flag),
        Some(_) => Err(ScriptKind::Key),
    }
}

/// The table under a key, which may be missing.
#[tactic(auto, unfolding(gfx_base::specs::Results::and_then))]
pub(crate) fn table_if_any<'a>(table: &'a Table, key: &str) -> Result<Option<&'a Table>, ScriptKind>
    ensures { Says (option_map (λ t. table_view t.now)) result (members.table_if_any (get_member key.now (table_view table.now))) }
{
    match member(table, key) {
        None => Ok(None),
        Some(value) => match value.as_table() {
            Some(table) => Ok(Some(table)),
            None => Err(ScriptKind::Key),
        },
    }
}

/// The text under a key.
#[tactic(auto, unfolding(crate::specs::Members::text))]
pub(crate) fn text<'a>(table: &'a Table, key: &str) -> Result<&'a str, ScriptKind>
    ensures { Says (λ x. x.now) result (members.text key.now (table_view table.now)) }
{
    match member(table, key) {
        Some(value) => value.as_str().ok_or(ScriptKind::Key),
        None => Err(ScriptKind::Key),
    }
}

/// The items of the array under a key.
#[tactic(auto, unfolding(crate::specs::Members::list))]
pub(crate) fn list<'a>(table: &'a Table, key: &str) -> Result<&'a [Value], ScriptKind>
    ensures { Says (λ x. map view x.now) result (members.list key.now (table_view table.now)) }
{
    match member(table, key) {
        Some(value) => items_in(value).ok_or(ScriptKind::Key),
        None => Err(ScriptKind::Key),
    }
}

/// The items of the array under a key, which may be missing.
#[tactic(auto, unfolding(crate::specs::Members::items_in, gfx_base::specs::Results::and_then))]
pub(crate) fn items_if_any<'a>(
    table: &'a Table,
    key: &str,
) -> Result<Option<&'a [Value]>, ScriptKind>
    ensures { Says (option_map (λ x. map view x.now)) result (members.items_if_any (get_member key.now (table_view table.now))) }
{
    match member(table, key) {
        None => Ok(None),
        Some(value) => match items_in(value) {
            Some(items) => Ok(Some(items)),
            None => Err(ScriptKind::Key),
        },
    }
}

/// A whole number from the least to the most.
#[tactic(auto, unfolding(crate::specs::Members::within))]
pub(crate) fn within(number: i64, least: u16, most: u16) -> Result<u16, ScriptKind>
    ensures { result ≡ members.within least most number }
{
    match u16::try_from(number) {
        Ok(number) if least <= number && number <= most => Ok(number),
        _ => Err(ScriptKind::Range),
    }
}

/// The same of a number that fits eight bits.
#[tactic(auto, unfolding(crate::specs::Members::within))]
pub(crate) fn small_within(number: i64, least: u8, most: u8) -> Result<u8, ScriptKind>
    ensures { result ≡ members.within least most number }
{
    match u8::try_from(number) {
        Ok(number) if least <= number && number <= most => Ok(number),
        _ => Err(ScriptKind::Range),
    }
}

/// The key of a bitmap.
#[tactic(auto, unfolding(crate::specs::Members::within))]
pub(crate) fn key_number(number: i64) -> Result<u64, ScriptKind>
    ensures { result ≡ members.within 0 MOST_KEY number }
{
    match u64::try_from(number) {
        Ok(number) if number <= MOST_KEY => Ok(number),
        _ => Err(ScriptKind::Range),
    }
}
