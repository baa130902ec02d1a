//! The window and the turns of a script's session.

ghost use Rattle.std.specs.Prelude.{◌≡◌, map};
ghost use Rattle.gfx_base.specs.Outcome.{Gives};
ghost use Rattle.gfx_base.specs.Results.{each};
ghost use Rattle.toml.specs.View.{table_view, view};
ghost use Rattle.gfx_script_text.specs.declared.TheConstants.{MOST_TAKE};
ghost use Rattle.gfx_script_text.specs.Members.{within};
ghost use Rattle.gfx_script_text.specs.Sessions.{window_of, taken_of, server_of, client_of, answer_of, ended, turn_of, turns_of};

use crate::MOST_TAKE;
use crate::members::{check_keys, small_within, text, whole};
use gfx_script::{Flaw, MOST_TURNS, MOST_WINDOW, ScriptKind, Turn, USUAL_WINDOW};
use std::alloc::Global;
use toml::{Table, Value};

/// The window of the number under `window`, which may be missing.
#[tactic(auto, unfolding(crate::specs::Sessions::window_of))]
pub(crate) fn read_window(number: Option<i64>) -> Result<u8, ScriptKind>
    ensures { result ≡ window_of number }
{
    match number {
        None => Ok(USUAL_WINDOW),
        Some(number) => small_within(number, 1, MOST_WINDOW),
    }
}

/// Reads the turns, or says that they are too many.
#[tactic(auto, unfolding(crate::specs::Sessions::turns_of, gfx_base::specs::Results::and_then))]
pub(crate) fn read_turns(alloc: Global, values: &[Value]) -> Result<Vec<Turn>, Flaw>
    ensures { Gives (λ turns. turns.items) result (turns_of (map view values.now)) }
{
    if values.len() > MOST_TURNS as usize {
        return Err(Flaw::Refused(ScriptKind::Range));
    }
    read_each_turn(alloc, values)
}

/// Reads turns, one after another.
fn read_each_turn(alloc: Global, values: &[Value]) -> Result<Vec<Turn>, Flaw>
    ensures { Gives (λ turns. turns.items) result (each turn_of (map view values.now)) }
{
    let mut turns = Vec::new(alloc);
    'values: for value in values {
        let turn = read_turn(value)?;
        turns.push(turn)?;
    }
    Ok(turns)
}

/// Reads a turn.
#[tactic(auto, unfolding(crate::specs::Sessions::turn_of, gfx_base::specs::Results::and_then))]
fn read_turn(value: &Value) -> Result<Turn, ScriptKind>
    ensures { result ≡ turn_of (view value.now) }
{
    let Value::Table(table) = value else {
        return Err(ScriptKind::Key);
    };
    let word = text(table, "end")?;
    read_ended(word, table)
}

/// Reads the turn of a table with this word.
#[tactic(auto, unfolding(crate::specs::Sessions::ended))]
fn read_ended(word: &str, table: &Table) -> Result<Turn, ScriptKind>
    ensures { result ≡ ended word.now (table_view table.now) }
{
    match word {
        "server" => read_server(table),
        "client" => read_client(table),
        "answer" => read_answer(table),
        _ => Err(ScriptKind::Key),
    }
}

/// Reads `server`.
#[tactic(auto, unfolding(crate::specs::Sessions::server_of, gfx_base::specs::Results::and_then))]
fn read_server(table: &Table) -> Result<Turn, ScriptKind>
    ensures { result ≡ server_of (table_view table.now) }
{
    check_keys(table, &["end"])?;
    Ok(Turn::Server)
}

/// Reads `client`.
#[tactic(auto, unfolding(crate::specs::Sessions::client_of, gfx_base::specs::Results::and_then))]
fn read_client(table: &Table) -> Result<Turn, ScriptKind>
    ensures { result ≡ client_of (table_view table.now) }
{
    let number = read_taken(table)?;
    Ok(Turn::Client(number))
}

/// Reads `answer`.
#[tactic(auto, unfolding(crate::specs::Sessions::answer_of, gfx_base::specs::Results::and_then))]
fn read_answer(table: &Table) -> Result<Turn, ScriptKind>
    ensures { result ≡ answer_of (table_view table.now) }
{
    let number = read_taken(table)?;
    Ok(Turn::Answer(number))
}

/// How many bytes a turn takes.
#[tactic(auto, unfolding(crate::specs::Sessions::taken_of, gfx_base::specs::Results::and_then))]
fn read_taken(table: &Table) -> Result<u32, ScriptKind>
    ensures { result ≡ taken_of (table_view table.now) }
{
    check_keys(table, &["end", "take"])?;
    let number = whole(table, "take")?;
    taken_number(number)
}

/// A number of bytes.
#[tactic(auto, unfolding(crate::specs::Members::within))]
fn taken_number(number: i64) -> Result<u32, ScriptKind>
    ensures { result ≡ within 1 MOST_TAKE number }
{
    match u32::try_from(number) {
        Ok(number) if 1 <= number && number <= MOST_TAKE => Ok(number),
        _ => Err(ScriptKind::Range),
    }
}
