//! The whole of a script's text, and the order of checks.

ghost use Rattle.std.specs.Prelude.{◌≡◌, ◌≤◌, true, length, map, [], IfErr, IfOk};
ghost use Rattle.std.specs.Str.{is_utf8};
ghost use Rattle.toml.specs.Data.{get_member};
ghost use Rattle.toml.specs.View.{table_view, view};
ghost use Rattle.gfx_base.specs.Outcome.{Gives, Says};
ghost use Rattle.gfx_import.specs.Imported.{imported};
ghost use Rattle.gfx_script.specs.declared.TheConstants.{MOST_PICTURES, MOST_STEPS_READ};
ghost use Rattle.gfx_script.specs.Parts.{parts_seen};
ghost use Rattle.gfx_script.specs.Script.{IsAccepted, IsAcceptedAtStart};
ghost use Rattle.gfx_script.specs.Starting.{IsStart, starts_of};
ghost use Rattle.gfx_script_text.specs.Text.{script_of, script_kept, script_in, document_of, items_or_none, top_of, head_of, next_step, steps_of};
ghost use Rattle.gfx_script_text.specs.declared.error.ScriptError.TheVariants.{Memory};
ghost use Rattle.gfx_script_text.specs.Told.{Reads, top_seen, head_seen};

use crate::client::read_client;
use crate::error::ScriptError;
use crate::members::{check_keys, items_if_any, items_in, member, table_if_any, whole_if_any};
use crate::names::Names;
use crate::pictures::{Gallery, read_pictures};
use crate::progressive::{Progressive, read_progressive};
use crate::session::{read_turns, read_window};
use crate::video::read_video;
use crate::words::read_step;
use gfx_caps::{Offers, offers_small, offers_thin};
use gfx_import::Kept;
use gfx_script::{
    Entropy, Flaw, Held, MOST_STEPS_READ, Script, ScriptKind, ScriptParts, Step, imported_start,
    is_framed,
};
use std::alloc::Global;
use toml::{Table, Value};

/// What stands under the keys at the top.
#[derive(Clone, Copy)]
struct Top<'a> {
    window: Option<i64>,
    client: Option<&'a [Value]>,
    progressive: Option<&'a Table>,
    video: Option<&'a Table>,
    picture: &'a [Value],
    step: &'a [Value],
    turn: &'a [Value],
}

/// What stands before the steps.
#[derive(Drop)]
struct Head<'a> {
    window: u8,
    offers: Offers,
    progressive: Progressive,
    entropy: Entropy,
    gallery: Gallery<'a>,
}

/// Reads a script, or says what is wrong first.
pub fn read_script(alloc: Global, text: &[u8]) -> Result<Script, ScriptError>
    ensures exact { Reads (λ script. script) result (script_of text.now) }
    ensures accepted { IfOk result IsAccepted }
    ensures pictures { IfOk result (λ script. length script.pictures ≤ MOST_PICTURES) }
    ensures steps { IfOk result (λ script. length script.steps ≤ MOST_STEPS_READ) }
    ensures starts { IfOk result (λ script. script.start ≡ []) }
    // Bytes that are no text take no memory.
    ensures memory { IfErr result (λ error. error ≡ Memory → is_utf8 text.now ≡ true) }
{
    let nothing = Kept::new(alloc);
    read_script_kept(alloc, text, &nothing, &nothing)
}

/// The same of a script whose session starts with what is imported of two kept files, the server's and the
/// client's: before the first step these bitmaps are kept, in slots 1, 2 and so on. Of files with nothing it is
/// what `read_script` reads.
pub fn read_script_kept(
    alloc: Global,
    text: &[u8],
    server: &Kept,
    client: &Kept,
) -> Result<Script, ScriptError>
    ensures exact { Reads (λ script. script) result (script_kept server.now client.now text.now) }
    ensures accepted { IfOk result IsAcceptedAtStart }
    ensures pictures { IfOk result (λ script. length script.pictures ≤ MOST_PICTURES) }
    ensures steps { IfOk result (λ script. length script.steps ≤ MOST_STEPS_READ) }
    ensures start { IfOk result (λ script. script.start ≡ starts_of (imported server.now client.now script.small)) }
    // Bytes that are no text take no memory.
    ensures memory { IfErr result (λ error. error ≡ Memory → is_utf8 text.now ≡ true) }
{
    let Ok(text) = std::str::from_utf8(text) else {
        return Err(ScriptError::Fault {
            step: 0,
            kind: ScriptKind::Toml,
        });
    };
    let parts = read_parts(alloc, text, server, client)?;
    Ok(Script::new(parts))
}

/// Reads the parts of a script that starts with what is imported.
#[tactic(auto, unfolding(crate::specs::Text::script_in, gfx_base::specs::Results::and_then))]
fn read_parts(
    alloc: Global,
    text: &str,
    server: &Kept,
    client: &Kept,
) -> Result<ScriptParts, ScriptError>
    ensures exact { Reads parts_seen result (script_in (λ small. starts_of (imported server.now client.now small)) text.now) }
    ensures start { IfOk result (λ parts. IsStart parts.start.items parts.small) }
{
    let table = match read_document(alloc, text) {
        Ok(table) => table,
        Err(flaw) => return Err(ScriptError::at(0, flaw)),
    };
    let top = match read_top(&table) {
        Ok(top) => top,
        Err(kind) => return Err(ScriptError::Fault { step: 0, kind }),
    };
    let Head {
        window,
        offers,
        progressive,
        entropy,
        gallery,
    } = match read_head(alloc, top) {
        Ok(head) => head,
        Err(flaw) => return Err(ScriptError::at(0, flaw)),
    };
    let Progressive {
        setting,
        differences,
    } = progressive;
    let Gallery { names, pictures } = gallery;
    let small = offers_small(offers.as_slice());
    let thin = offers_thin(offers.as_slice());
    let Ok(start) = imported_start(alloc, server, client, small) else {
        return Err(ScriptError::Memory);
    };
    let Ok(held) = Held::with_bitmaps(alloc, &pictures, small, &start) else {
        return Err(ScriptError::Memory);
    };
    let steps = read_steps(alloc, &names, held, top.step)?;
    if !is_framed(&steps) {
        return Err(ScriptError::Fault {
            step: 0,
            kind: ScriptKind::Unframed,
        });
    }
    let turns = match read_turns(alloc, top.turn) {
        Ok(turns) => turns,
        Err(flaw) => return Err(ScriptError::at(0, flaw)),
    };
    Ok(ScriptParts {
        window,
        offers,
        setting,
        differences,
        pictures,
        small,
        thin,
        entropy,
        start,
        steps,
        turns,
    })
}

/// Reads the table of a text.
#[tactic(auto, unfolding(crate::specs::Text::document_of))]
fn read_document(alloc: Global, text: &str) -> Result<Table, Flaw>
    ensures { Gives table_view result (document_of text.now) }
{
    match toml::table_from_str(alloc, text) {
        Ok(top) => Ok(top),
        Err(error) if error.is_memory() => Err(Flaw::Memory),
        Err(_) => Err(Flaw::Refused(ScriptKind::Toml)),
    }
}

/// What stands under the keys at the top, after the checks of the top table.
#[tactic(auto, unfolding(crate::specs::Text::top_of, gfx_base::specs::Results::and_then))]
fn read_top(table: &Table) -> Result<Top<'_>, ScriptKind>
    ensures { Says top_seen result (top_of (table_view table.now)) }
{
    check_keys(
        table,
        &[
            "window",
            "client",
            "progressive",
            "video",
            "picture",
            "step",
            "turn",
        ],
    )?;
    let window = whole_if_any(table, "window")?;
    let client = items_if_any(table, "client")?;
    let progressive = table_if_any(table, "progressive")?;
    let video = table_if_any(table, "video")?;
    let picture = items_or_none(table, "picture")?;
    let step = items_or_none(table, "step")?;
    let turn = items_or_none(table, "turn")?;
    Ok(Top {
        window,
        client,
        progressive,
        video,
        picture,
        step,
        turn,
    })
}

/// The items of the array under a key, which may be missing.
#[tactic(auto, unfolding(crate::specs::Members::items_in))]
fn items_or_none<'a>(table: &'a Table, key: &str) -> Result<&'a [Value], ScriptKind>
    ensures { Says (λ x. map view x.now) result (items_or_none (get_member key.now (table_view table.now))) }
{
    match member(table, key) {
        None => Ok(&[]),
        Some(value) => items_in(value).ok_or(ScriptKind::Key),
    }
}

/// Reads what stands before the steps, and says whether the steps are too many.
#[tactic(auto, unfolding(crate::specs::Text::head_of, gfx_base::specs::Results::and_then))]
fn read_head(alloc: Global, top: Top<'_>) -> Result<Head<'_>, Flaw>
    ensures exact { Gives head_seen result (head_of (top_seen top.entry)) }
    ensures few { IfOk result (λ _. length top.entry.step.now ≤ MOST_STEPS_READ) }
{
    let window = read_window(top.window)?;
    let offers = read_client(alloc, top.client)?;
    let progressive = read_progressive(top.progressive)?;
    let entropy = read_video(top.video)?;
    let gallery = read_pictures(alloc, top.picture)?;
    if top.step.len() > MOST_STEPS_READ as usize {
        return Err(Flaw::Refused(ScriptKind::Range));
    }
    Ok(Head {
        window,
        offers,
        progressive,
        entropy,
        gallery,
    })
}

/// Reads the steps, one after another, where the pictures have these names and this is held before.
fn read_steps(
    alloc: Global,
    names: &Names<'_>,
    held: Held,
    values: &[Value],
) -> Result<Vec<Step>, ScriptError>
    requires { length values.now ≤ MOST_STEPS_READ }
    ensures { Reads (λ steps. steps.items) result (steps_of names.now 1 held (map view values.now)) }
{
    let mut steps = Vec::new(alloc);
    let mut held = held;
    let mut number: u32 = 1;
    'values: for value in values {
        match next_step(alloc, names, &mut held, value) {
            Ok(step) => steps.push(step)?,
            Err(flaw) => return Err(ScriptError::at(number, flaw)),
        }
        number += 1;
    }
    Ok(steps)
}

/// Reads a step and checks it against what is held.
#[tactic(auto, unfolding(crate::specs::Text::next_step, gfx_base::specs::Results::and_then))]
fn next_step(alloc: Global, names: &Names<'_>, held: &mut Held, value: &Value) -> Result<Step, Flaw>
    ensures { Gives (λ step. (step, held.new)) result (next_step names.now held.old (view value.now)) }
{
    let step = read_step(alloc, names, value)?;
    held.take(alloc, &step)?;
    Ok(step)
}
