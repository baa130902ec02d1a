//! The versions that the client of a script offers.

ghost use Rattle.std.specs.Prelude.{◌≡◌, [], ◌∷◌, map, option_map, IfOk, codes};
ghost use Rattle.gfx_base.specs.Outcome.{Gives};
ghost use Rattle.gfx_base.specs.Results.{each};
ghost use Rattle.toml.specs.Data.{get_member};
ghost use Rattle.toml.specs.View.{table_view, view};
ghost use Rattle.gfx_script_text.specs.Clients.{offer_in, version_named, thin_with, usual_offer, offers_of};

use crate::members::{check_keys, flag_or_false, member, text};
use gfx_base::NoMemory;
use gfx_caps::{Offer, Offers, VERSION_8, VERSION_8_1, VERSION_10};
use gfx_script::{Flaw, MOST_VERSIONS, ScriptKind};
use std::alloc::Global;
use toml::{Table, Value};

/// Reads what stands under `client`, if anything does.
#[tactic(auto, unfolding(crate::specs::Clients::offers_of, gfx_base::specs::Results::and_then))]
pub(crate) fn read_client(alloc: Global, client: Option<&[Value]>) -> Result<Offers, Flaw>
    ensures { Gives (λ x. x) result (offers_of (option_map (λ x. map view x.now) client.entry)) }
{
    let Some(values) = client else {
        return Ok(usual_offers(alloc)?);
    };
    if !(1..=MOST_VERSIONS).contains(&values.len()) {
        return Err(Flaw::Refused(ScriptKind::Range));
    }
    read_offers(alloc, values)
}

/// What is offered where the script says nothing.
fn usual_offers(alloc: Global) -> Result<Offers, NoMemory>
    ensures { IfOk result (λ offers. offers ≡ usual_offer ∷ []) }
{
    let mut offers = Offers::new(alloc);
    offers.push(Offer {
        version: VERSION_10,
        small: false,
        thin: false,
    })?;
    Ok(offers)
}

/// Reads offers, one after another.
fn read_offers(alloc: Global, values: &[Value]) -> Result<Offers, Flaw>
    ensures { Gives (λ x. x) result (each offer_in (map view values.now)) }
{
    let mut offers = Offers::new(alloc);
    'values: for value in values {
        let offer = read_offer(value)?;
        offers.push(offer)?;
    }
    Ok(offers)
}

/// Reads an offer.
#[tactic(auto, unfolding(crate::specs::Clients::offer_in, gfx_base::specs::Results::and_then))]
fn read_offer(value: &Value) -> Result<Offer, ScriptKind>
    ensures { result ≡ offer_in (view value.now) }
{
    let Value::Table(table) = value else {
        return Err(ScriptKind::Key);
    };
    check_keys(table, &["version", "small", "thin"])?;
    let word = text(table, "version")?;
    let version = version_named(word)?;
    let small = flag_or_false(table, "small")?;
    let thin = read_thin(table, version)?;
    Ok(Offer {
        version,
        small,
        thin,
    })
}

/// Whether the client is thin with a version. A table of version 10 has no such key.
fn read_thin(table: &Table, version: u32) -> Result<bool, ScriptKind>
    ensures { result ≡ thin_with version (get_member (codes "thin") (table_view table.now)) }
{
    match member(table, "thin") {
        None => Ok(false),
        Some(_) if version == VERSION_10 => Err(ScriptKind::Key),
        Some(Value::Boolean(flag)) => Ok(*flag),
        Some(_) => Err(ScriptKind::Key),
    }
}

/// The version that a word names.
fn version_named(word: &str) -> Result<u32, ScriptKind>
    ensures { result ≡ version_named word.now }
{
    match word {
        "8" => Ok(VERSION_8),
        "8.1" => Ok(VERSION_8_1),
        "10" => Ok(VERSION_10),
        _ => Err(ScriptKind::Key),
    }
}
