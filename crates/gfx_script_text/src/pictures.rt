//! The tables of pictures.

ghost use Rattle.std.specs.Prelude.{◌≡◌, ◌≤◌, length, map, IfOk};
ghost use Rattle.gfx_base.specs.Results.{check};
ghost use Rattle.gfx_base.specs.declared.format.Format.TheVariants.{Argb};
ghost use Rattle.gfx_surface.specs.Picture.{raw_pixels};
ghost use Rattle.toml.specs.View.{table_view, view};
ghost use Rattle.gfx_script.specs.declared.TheConstants.{MOST_PICTURES};
ghost use Rattle.gfx_script.specs.declared.error.ScriptKind.TheVariants.{Key};
ghost use Rattle.gfx_base.specs.Outcome.{Gives, Says};
ghost use Rattle.gfx_script_text.specs.Members.{has_only};
ghost use Rattle.gfx_script_text.specs.Pictures.{pattern_named, keys_of, seed_in, digits_in, pixels_of, pattern_of, picture_sized, picture_of, no_pictures, more_pictures, pictures_of};
ghost use Rattle.gfx_script_text.specs.Told.{gallery_seen};

use crate::MOST_NUMBER;
use crate::colour::read_colour;
use crate::members::{check_keys, text, whole, within};
use crate::names::Names;
use gfx_base::{NoMemory, Pixel, Pixels};
use gfx_script::{Flaw, MOST_AREA, MOST_PICTURES, Pattern, Picture, ScriptKind};
use std::alloc::Global;
use toml::{Table, Value};

/// The patterns, as a script names them.
#[derive(Clone, Copy, Debug, PartialEq, Eq)]
pub enum PatternWord {
    Solid,
    Ramp,
    Noise,
    Text,
    Desktop,
    Hex,
}

/// The pictures of a script and, in the same order, their names.
#[derive(Drop)]
pub struct Gallery<'a> {
    pub names: Names<'a>,
    pub pictures: Vec<Picture>,
}

/// Reads the pictures of a script.
#[tactic(auto, unfolding(crate::specs::Pictures::pictures_of, gfx_base::specs::Results::and_then))]
pub(crate) fn read_pictures(alloc: Global, values: &[Value]) -> Result<Gallery<'_>, Flaw>
    ensures { Gives gallery_seen result (pictures_of (map view values.now)) }
{
    if values.len() > MOST_PICTURES {
        return Err(Flaw::Refused(ScriptKind::Range));
    }
    read_each(alloc, values)
}

/// Reads pictures, one after another.
fn read_each(alloc: Global, values: &[Value]) -> Result<Gallery<'_>, Flaw>
    requires { length values.now ≤ MOST_PICTURES }
    ensures { Gives gallery_seen result (more_pictures no_pictures (map view values.now)) }
{
    let mut names = Names::new(alloc);
    let mut pictures = Vec::new(alloc);
    'values: for value in values {
        let (name, picture) = read_picture(alloc, &names, value)?;
        names.add(name)?;
        pictures.push(picture)?;
    }
    Ok(Gallery { names, pictures })
}

/// Reads a picture and its name, where the pictures of these names stand before it.
#[tactic(auto, unfolding(crate::specs::Pictures::picture_of, gfx_base::specs::Results::and_then))]
fn read_picture<'a>(
    alloc: Global,
    names: &Names<'_>,
    value: &'a Value,
) -> Result<(&'a str, Picture), Flaw>
    ensures { Gives (λ x. record { name = x.0.now; picture = x.1 }) result (picture_of names.now (view value.now)) }
{
    let Value::Table(table) = value else {
        return Err(Flaw::Refused(ScriptKind::Key));
    };
    let pattern = text(table, "pattern")?;
    let word = pattern_named(pattern)?;
    check_keys_of(word, table)?;
    let name = text(table, "name")?;
    let width = whole(table, "width")?;
    let height = whole(table, "height")?;
    let seed = seed_in(word, table)?;
    let digits = digits_in(word, table)?;
    let picture = read_sized(alloc, names, name, word, width, height, seed, digits)?;
    Ok((name, picture))
}

/// Reads the picture of these sides, whose types are right.
#[tactic(auto, unfolding(crate::specs::Pictures::picture_sized, gfx_base::specs::Results::and_then))]
fn read_sized(
    alloc: Global,
    names: &Names<'_>,
    name: &str,
    word: PatternWord,
    width: i64,
    height: i64,
    seed: i64,
    digits: &str,
) -> Result<Picture, Flaw>
    ensures { Gives (λ x. record { name = name.now; picture = x }) result (picture_sized names.now name.now word width height seed digits.now) }
{
    let width = within(width, 1, MOST_NUMBER)?;
    let height = within(height, 1, MOST_NUMBER)?;
    let area = u32::from(width) * u32::from(height);
    if area > MOST_AREA {
        return Err(Flaw::Refused(ScriptKind::Range));
    }
    let seed = within(seed, 0, MOST_NUMBER)?;
    if names.contains(name) {
        return Err(Flaw::Refused(ScriptKind::Name));
    }
    let pattern = read_pattern(alloc, word, area, seed, digits)?;
    Ok(Picture {
        width,
        height,
        pattern,
    })
}

/// The pattern that a word names.
fn pattern_named(name: &str) -> Result<PatternWord, ScriptKind>
    ensures { result ≡ pattern_named name.now }
{
    match name {
        "solid" => Ok(PatternWord::Solid),
        "ramp" => Ok(PatternWord::Ramp),
        "noise" => Ok(PatternWord::Noise),
        "text" => Ok(PatternWord::Text),
        "desktop" => Ok(PatternWord::Desktop),
        "hex" => Ok(PatternWord::Hex),
        _ => Err(ScriptKind::Key),
    }
}

/// Refuses a table that has another key than pictures of this pattern.
#[tactic(auto, unfolding(crate::specs::Pictures::keys_of))]
fn check_keys_of(word: PatternWord, table: &Table) -> Result<(), ScriptKind>
    ensures { result ≡ check Key (has_only (keys_of word) (table_view table.now)) }
{
    match word {
        PatternWord::Solid => check_keys(table, &["colour", "name", "width", "height", "pattern"]),
        PatternWord::Noise => check_keys(table, &["seed", "name", "width", "height", "pattern"]),
        PatternWord::Hex => check_keys(table, &["pixels", "name", "width", "height", "pattern"]),
        PatternWord::Ramp | PatternWord::Text | PatternWord::Desktop => {
            check_keys(table, &["name", "width", "height", "pattern"])
        }
    }
}

/// The seed, where the pattern has one.
#[tactic(auto, unfolding(crate::specs::Pictures::seed_in))]
fn seed_in(word: PatternWord, table: &Table) -> Result<i64, ScriptKind>
    ensures { result ≡ seed_in word (table_view table.now) }
{
    match word {
        PatternWord::Noise => whole(table, "seed"),
        _ => Ok(0),
    }
}

/// The hexadecimal text, where the pattern has one.
#[tactic(auto, unfolding(crate::specs::Pictures::digits_in))]
fn digits_in(word: PatternWord, table: &Table) -> Result<&str, ScriptKind>
    ensures { Says (λ x. x.now) result (digits_in word (table_view table.now)) }
{
    match word {
        PatternWord::Solid => text(table, "colour"),
        PatternWord::Hex => text(table, "pixels"),
        _ => Ok(""),
    }
}

/// Reads the pattern of a word, so many pixels, a seed and a text.
#[tactic(auto, unfolding(crate::specs::Pictures::pattern_of, gfx_base::specs::Results::and_then))]
fn read_pattern(
    alloc: Global,
    word: PatternWord,
    area: u32,
    seed: u16,
    digits: &str,
) -> Result<Pattern, Flaw>
    ensures { Gives (λ x. x) result (pattern_of word area seed digits.now) }
{
    match word {
        PatternWord::Solid => {
            let colour = read_colour(digits)?;
            Ok(Pattern::Solid { colour })
        }
        PatternWord::Ramp => Ok(Pattern::Ramp),
        PatternWord::Noise => Ok(Pattern::Noise { seed }),
        PatternWord::Text => Ok(Pattern::Text),
        PatternWord::Desktop => Ok(Pattern::Desktop),
        PatternWord::Hex => {
            let pixels = read_pixels(alloc, area, digits)?;
            Ok(Pattern::Hex { pixels })
        }
    }
}

/// Reads so many pixels as hexadecimal text B, G, R, A.
#[tactic(auto, unfolding(crate::specs::Pictures::pixels_of, gfx_base::specs::Results::and_then))]
fn read_pixels(alloc: Global, area: u32, digits: &str) -> Result<Pixels, Flaw>
    ensures { Gives (λ x. x) result (pixels_of area digits.now) }
{
    let mut bytes = vec![in alloc; 0u8; 4 * area as usize]?;
    match hex::decode_to_slice(digits, bytes.as_mut_slice()) {
        Ok(()) => Ok(pixels_in(alloc, bytes.as_slice())?),
        Err(_) => Err(Flaw::Refused(ScriptKind::Pixels)),
    }
}

/// The pixels of these bytes: blue, green, red and alpha each.
fn pixels_in(alloc: Global, bytes: &[u8]) -> Result<Pixels, NoMemory>
    ensures { IfOk result (λ pixels. pixels ≡ raw_pixels Argb bytes.now) }
{
    let count = bytes.len() / 4;
    let mut pixels = Vec::with_capacity(alloc, count)?;
    'pixels: for i in 0..count {
        let at = 4 * i;
        pixels.push(Pixel {
            b: bytes[at],
            g: bytes[at + 1],
            r: bytes[at + 2],
            a: bytes[at + 3],
        })?;
    }
    Ok(Pixels::from_vec(pixels))
}
