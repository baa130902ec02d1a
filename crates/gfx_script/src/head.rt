//! What a script says before its pictures and steps.

ghost use Rattle.std.specs.Prelude.{◌≡◌, ◌&&◌, [], ◌∷◌, IfOk, length, nat_le};
ghost use Rattle.std.specs.List.{list_all};
ghost use Rattle.gfx_base.specs.Outcome.{Says};
ghost use Rattle.gfx_caps.specs.Offers.{IsOffer, is_offer, small_of, thin_of};
ghost use Rattle.gfx_quant.specs.declared.setting.TheConstants.{MOST_LEVELS};
ghost use Rattle.gfx_script.specs.declared.TheConstants.{MOST_VERSIONS, MOST_WINDOW};
ghost use Rattle.gfx_script.specs.Heads.{head_for, head_of, is_level, is_setting, is_ten, offer_chosen, script_from, usual_base, usual_left_out, usual_level, usual_setting};
ghost use Rattle.gfx_script.specs.Script.{IsAccepted, IsAcceptedAtStart, is_from_one};
ghost use Rattle.gfx_script.specs.Starting.{IsStart};

use crate::error::ScriptKind;
use crate::script::{Script, ScriptParts};
use crate::start::StartBitmap;
use crate::step::Entropy;
use crate::{MOST_VERSIONS, MOST_WINDOW, USUAL_WINDOW};
use gfx_base::NoMemory;
use gfx_caps::{
    Chosen, Offer, Offers, SMALL_CACHE, THIN_CLIENT, VERSION_8, VERSION_8_1, VERSION_10, has_flag,
    offers_small, offers_thin,
};
use gfx_dwt::Transform;
use gfx_quant::{Level, Levels, MOST_LEVELS, Quant, Rounding, Setting};
use std::alloc::Global;
use std::marker::Model;

/// What a head is made of.
#[derive(Debug, Drop)]
pub struct HeadParts {
    /// How many frames may be in flight: 1 to `MOST_WINDOW`.
    pub window: u8,
    /// What the client offers: 1 to `MOST_VERSIONS` versions of the profile.
    pub offers: Offers,
    /// How progressive paints are coded.
    pub setting: Setting,
    /// Whether the tiles of progressive paints may go as differences from those before.
    pub differences: bool,
    /// How the coefficients of video paints are coded.
    pub entropy: Entropy,
}

/// What a script says before its pictures and steps, each part within its range.
#[derive(Debug, Drop)]
pub struct Head {
    parts: HeadParts,
}

impl Model for Head {
    ghost use Rattle.gfx_script.specs.declared.head.HeadParts.{HeadParts};

    ghost Value = { HeadParts };

    ghost view = { λ a. a.parts };

    ghost use Rattle.gfx_script.specs.Heads.{IsHead};

    ghost invariant = { λ a. IsHead a.parts };
}

impl Head {
    /// The head of these parts. Range where one of them is out of its range: the window, how many versions are
    /// offered, one that is none of the profile, a setting that no server may code by.
    #[tactic(auto, unfolding(crate::specs::Heads::head_of, gfx_base::specs::Results::and_then))]
    pub fn new(parts: HeadParts) -> Result<Head, ScriptKind>
        ensures { Says (λ head. head) result (head_of parts) }
    {
        if !is_window(parts.window) {
            return Err(ScriptKind::Range);
        }
        if !is_offer_count(parts.offers.len()) {
            return Err(ScriptKind::Range);
        }
        if !are_offers(parts.offers.as_slice()) {
            return Err(ScriptKind::Range);
        }
        if !is_setting(&parts.setting) {
            return Err(ScriptKind::Range);
        }
        Ok(Head { parts })
    }

    /// The head for a client to which this version was confirmed: two frames in flight, the usual setting, no
    /// differences, RLGR1. Scripts in text that say nothing have the same, but coefficients rounded toward zero.
    pub fn for_client(alloc: Global, chosen: Chosen) -> Result<Head, NoMemory>
        requires { IsOffer (offer_chosen chosen) }
        ensures { IfOk result (λ head. head ≡ head_for chosen) }
    {
        let mut offers = Offers::new(alloc);
        offers.push(offer_chosen(chosen))?;
        Ok(Head {
            parts: HeadParts {
                window: USUAL_WINDOW,
                offers,
                setting: usual_setting(),
                differences: false,
                entropy: Entropy::One,
            },
        })
    }

    /// The same with another window. Range where it is out of its range.
    pub fn with_window(self, window: u8) -> Result<Head, ScriptKind>
        ensures { Says (λ head. head) result (head_of (record self { window = window })) }
    {
        let mut parts = self.parts;
        parts.window = window;
        Head::new(parts)
    }

    /// The same with another setting of progressive paints. Range where no server may code by it.
    pub fn with_setting(self, setting: Setting) -> Result<Head, ScriptKind>
        ensures { Says (λ head. head) result (head_of (record self { setting = setting })) }
    {
        let mut parts = self.parts;
        parts.setting = setting;
        Head::new(parts)
    }

    /// The same where the tiles of progressive paints may go as differences, or may not.
    pub fn with_differences(self, differences: bool) -> Head
        ensures { result ≡ record self { differences = differences } }
    {
        let mut parts = self.parts;
        parts.differences = differences;
        Head { parts }
    }

    /// The same with another coding of video paints.
    pub fn with_entropy(self, entropy: Entropy) -> Head
        ensures { result ≡ record self { entropy = entropy } }
    {
        let mut parts = self.parts;
        parts.entropy = entropy;
        Head { parts }
    }

    /// How many frames may be in flight.
    pub fn window(&self) -> u8
        ensures { result ≡ self.now.window }
    {
        self.parts.window
    }

    /// What the client offers.
    pub fn offers(&self) -> &Offers
        ensures { result.now ≡ self.now.offers }
    {
        &self.parts.offers
    }

    /// How progressive paints are coded.
    pub fn setting(&self) -> &Setting
        ensures { result.now ≡ self.now.setting }
    {
        &self.parts.setting
    }

    /// Whether the tiles of progressive paints may go as differences from those before.
    pub fn differences(&self) -> bool
        ensures { result ≡ self.now.differences }
    {
        self.parts.differences
    }

    /// How the coefficients of video paints are coded.
    pub fn entropy(&self) -> Entropy
        ensures { result ≡ self.now.entropy }
    {
        self.parts.entropy
    }

    /// Whether the small limits on bitmaps bind the client.
    pub fn small(&self) -> bool
        ensures { result ≡ small_of self.now.offers }
    {
        offers_small(self.parts.offers.as_slice())
    }

    /// Whether the client is thin.
    pub fn thin(&self) -> bool
        ensures { result ≡ thin_of self.now.offers }
    {
        offers_thin(self.parts.offers.as_slice())
    }

    /// The script of this head that shows nothing yet and starts with nothing. It takes no memory.
    pub fn script(self, alloc: Global) -> Script
        ensures script { result ≡ script_from self [] }
        ensures accepted { IsAccepted result }
    {
        self.script_with(alloc, Vec::new(alloc))
    }

    /// The script of this head that shows nothing yet and starts with these bitmaps. It takes no memory.
    pub fn script_with(self, alloc: Global, start: Vec<StartBitmap>) -> Script
        requires { IsStart start.items (small_of self.offers) }
        ensures script { result ≡ script_from self start.items }
        ensures accepted { IsAcceptedAtStart result }
    {
        let small = self.small();
        let thin = self.thin();
        let HeadParts {
            window,
            offers,
            setting,
            differences,
            entropy,
        } = self.parts;
        Script::new(ScriptParts {
            window,
            offers,
            setting,
            differences,
            pictures: Vec::new(alloc),
            small,
            thin,
            entropy,
            start,
            steps: Vec::new(alloc),
            turns: Vec::new(alloc),
        })
    }

    /// Its parts.
    pub(crate) fn into_parts(self) -> HeadParts
        ensures { result ≡ self }
    {
        self.parts
    }
}

/// Whether so many frames may be in flight.
fn is_window(window: u8) -> bool
    ensures { result ≡ is_from_one MOST_WINDOW window }
{
    1 <= window && window <= MOST_WINDOW
}

/// Whether a client may offer so many versions.
fn is_offer_count(count: usize) -> bool
    ensures { result ≡ is_from_one MOST_VERSIONS count }
{
    1 <= count && count <= MOST_VERSIONS
}

/// Whether each offer is of a version of the profile, and for a thin client only where the version allows it.
fn are_offers(offers: &[Offer]) -> bool
    ensures { result ≡ list_all is_offer offers.now }
{
    offers.iter().all(|offer| is_offer(*offer))
}

/// Whether an offer is of a version of the profile, and for a thin client only where the version allows it.
fn is_offer(offer: Offer) -> bool
    ensures { result ≡ is_offer offer }
{
    let ten = offer.version == VERSION_10 && !offer.thin;
    ten || (offer.version == VERSION_8_1 || offer.version == VERSION_8)
}

/// The version that was chosen, as the client offered it.
fn offer_chosen(chosen: Chosen) -> Offer
    ensures { result ≡ offer_chosen chosen }
{
    Offer {
        version: chosen.version,
        small: has_flag(chosen.flags, SMALL_CACHE),
        thin: has_flag(chosen.flags, THIN_CLIENT),
    }
}

/// Whether a server may code its tiles by a setting.
fn is_setting(setting: &Setting) -> bool
    ensures { result ≡ is_setting setting.now }
{
    setting.is_accepted() && (has_bases(setting) && has_levels(&setting.levels))
}

/// Whether a setting has a number for each band, as one of this type has.
fn has_bases(setting: &Setting) -> bool
    ensures { result ≡ (is_ten setting.now.y && (is_ten setting.now.cb && is_ten setting.now.cr)) }
{
    is_ten(setting.y) && (is_ten(setting.cb) && is_ten(setting.cr))
}

/// Whether levels are not too many and have a number for each band, as those of this type do.
fn has_levels(levels: &Levels) -> bool
    ensures { result ≡ (list_all is_level levels.now && nat_le (length levels.now) MOST_LEVELS) }
{
    are_levels(levels.as_slice()) && levels.len() <= MOST_LEVELS
}

fn are_levels(levels: &[Level]) -> bool
    ensures { result ≡ list_all is_level levels.now }
{
    levels.iter().all(|level| is_level(*level))
}

fn is_level(level: Level) -> bool
    ensures { result ≡ is_level level }
{
    is_ten(level.y) && (is_ten(level.cb) && is_ten(level.cr))
}

fn is_ten(quant: Quant) -> bool
    ensures { result ≡ is_ten quant }
{
    quant.values.len() == 10
}

/// How paints are coded where nothing is said.
fn usual_setting() -> Setting
    ensures { result ≡ usual_setting }
{
    let base = usual_base();
    Setting {
        transform: Transform::Reduced,
        rounding: Rounding::Nearest,
        y: base,
        cb: base,
        cr: base,
        levels: usual_levels(),
    }
}

/// The one level of that setting.
fn usual_levels() -> Levels
    ensures { result ≡ usual_level ∷ [] }
{
    let mut levels = Levels::new();
    let left_out = usual_left_out();
    levels.push(Level {
        y: left_out,
        cb: left_out,
        cr: left_out,
    });
    levels
}

/// The base of each band in it.
fn usual_base() -> Quant
    ensures { result ≡ usual_base }
{
    Quant { values: [6; 10] }
}

/// What its level leaves out of each component.
fn usual_left_out() -> Quant
    ensures { result ≡ usual_left_out }
{
    Quant { values: [4; 10] }
}
