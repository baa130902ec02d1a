//! How the video paints of a script are coded.

ghost use Rattle.std.specs.Prelude.{◌≡◌, option_map, codes};
ghost use Rattle.toml.specs.Data.{get_member};
ghost use Rattle.toml.specs.View.{table_view};
ghost use Rattle.gfx_script_text.specs.Video.{entropy_named, entropy_or_usual, video_in, video_of};

use crate::members::{check_keys, member};
use gfx_script::{Entropy, ScriptKind};
use toml::{Table, Value};

/// Reads what stands under `video`, if anything does.
#[tactic(auto, unfolding(crate::specs::Video::video_of))]
pub(crate) fn read_video(table: Option<&Table>) -> Result<Entropy, ScriptKind>
    ensures { result ≡ video_of (option_map (λ t. table_view t.now) table.entry) }
{
    match table {
        None => Ok(Entropy::One),
        Some(table) => video_in(table),
    }
}

/// Reads a table.
#[tactic(auto, unfolding(crate::specs::Video::video_in, gfx_base::specs::Results::and_then))]
fn video_in(table: &Table) -> Result<Entropy, ScriptKind>
    ensures { result ≡ video_in (table_view table.now) }
{
    check_keys(table, &["entropy"])?;
    read_entropy(table)
}

/// The code, which may be missing.
#[tactic(auto, unfolding(gfx_base::specs::Results::and_then))]
fn read_entropy(table: &Table) -> Result<Entropy, ScriptKind>
    ensures { result ≡ entropy_or_usual (get_member (codes "entropy") (table_view table.now)) }
{
    match member(table, "entropy") {
        None => Ok(Entropy::One),
        Some(Value::String(word)) => entropy_named(word.as_str()),
        Some(_) => Err(ScriptKind::Key),
    }
}

/// The code that a word names ([MS-RDPRFX] 3.1.8.1.7).
fn entropy_named(word: &str) -> Result<Entropy, ScriptKind>
    ensures { result ≡ entropy_named word.now }
{
    match word {
        "rlgr1" => Ok(Entropy::One),
        "rlgr3" => Ok(Entropy::Three),
        _ => Err(ScriptKind::Key),
    }
}
