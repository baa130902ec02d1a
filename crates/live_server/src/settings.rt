//! What a server's end may be other than the usual one.

ghost use Rattle.gfx_caps.specs.Offers.{IsOffer};
ghost use Rattle.gfx_script.specs.Heads.{offer_chosen};

use crate::bodies::BodyFault;
use gfx_caps::{Chosen, VERSION_10};
use gfx_dwt::Transform;
use gfx_layout::{Fields, Stop};
use gfx_quant::{Level, Levels, MOST_LEVELS, Quant, Rounding, Setting, quant_from};
use gfx_script::{Entropy, Flaw, Head, ScriptKind, USUAL_WINDOW};
use gfx_session::Digests;
use std::alloc::Global;

/// What a server's end may be other than the usual one.
#[derive(Drop)]
pub struct Settings {
    /// How many frames may be in flight.
    window: u8,
    /// How the coefficients of video paints are coded.
    entropy: Entropy,
    /// Whether the tiles of progressive paints may go as differences.
    differences: bool,
    /// How progressive paints are coded, where it isn't the usual way.
    setting: Option<Setting>,
    /// Whether an acknowledged frame is told with its digest.
    digests: Digests,
}

/// A client to which version 10 was confirmed, by which settings are judged before theirs is there.
const SOME_CLIENT: Chosen = Chosen {
    version: VERSION_10,
    flags: 0,
};

impl Settings {
    /// Those where nothing is said.
    pub fn usual() -> Settings {
        Settings {
            window: USUAL_WINDOW,
            entropy: Entropy::One,
            differences: false,
            setting: None,
            digests: Digests::Off,
        }
    }

    /// Reads settings, and judges them.
    pub fn read(alloc: Global, body: &[u8]) -> Result<Settings, BodyFault> {
        let settings = read_settings(body)?;
        settings.head(alloc, SOME_CLIENT)?;
        Ok(settings)
    }

    /// The head for a client to which a version was confirmed. Range where the window is out of its range, or where no
    /// server may code by the setting.
    pub fn head(&self, alloc: Global, chosen: Chosen) -> Result<Head, Flaw>
        requires { IsOffer (offer_chosen chosen) }
    {
        let head = Head::for_client(alloc, chosen)?
            .with_differences(self.differences)
            .with_entropy(self.entropy)
            .with_window(self.window)?;
        match &self.setting {
            None => Ok(head),
            Some(setting) => Ok(head.with_setting(copy_of(setting))?),
        }
    }

    /// Whether an acknowledged frame is told with its digest.
    pub fn digests(&self) -> Digests {
        self.digests
    }
}

/// The same setting again.
fn copy_of(setting: &Setting) -> Setting {
    Setting {
        transform: setting.transform,
        rounding: setting.rounding,
        y: setting.y,
        cb: setting.cb,
        cr: setting.cr,
        levels: setting.levels.copy(),
    }
}

/// Reads settings, which may be out of their range.
fn read_settings(body: &[u8]) -> Result<Settings, BodyFault> {
    let mut fields = Fields::new(body);
    let window = fields.u8()?;
    let entropy = entropy_of(fields.u8()?)?;
    let differences = flag_of(fields.u8()?)?;
    let digests = digests_of(fields.u8()?)?;
    let setting = if fields.is_empty() {
        None
    } else {
        Some(read_setting(&mut fields)?)
    };
    Ok(Settings {
        window,
        entropy,
        differences,
        setting,
        digests,
    })
}

/// Reads how progressive paints are coded, to the end.
fn read_setting(fields: &mut Fields<'_>) -> Result<Setting, BodyFault> {
    let transform = transform_of(fields.u8()?)?;
    let rounding = rounding_of(fields.u8()?)?;
    let y = read_quant(fields)?;
    let cb = read_quant(fields)?;
    let cr = read_quant(fields)?;
    let levels = read_levels(fields)?;
    Ok(Setting {
        transform,
        rounding,
        y,
        cb,
        cr,
        levels,
    })
}

/// Reads levels to the end. Range where there are too many.
fn read_levels(fields: &mut Fields<'_>) -> Result<Levels, BodyFault> {
    let mut levels = Levels::new();
    'levels: for _ in 0..=MOST_LEVELS {
        if fields.is_empty() {
            return Ok(levels);
        }
        if levels.len() == MOST_LEVELS {
            break;
        }
        levels.push(read_level(fields)?);
    }
    Err(BodyFault::Wrong(ScriptKind::Range))
}

fn read_level(fields: &mut Fields<'_>) -> Result<Level, Stop> {
    let y = read_quant(fields)?;
    let cb = read_quant(fields)?;
    let cr = read_quant(fields)?;
    Ok(Level { y, cb, cr })
}

/// Reads a number of four bits for each band, two to a byte ([MS-RDPEGFX] RFX_COMPONENT_CODEC_QUANT).
fn read_quant(fields: &mut Fields<'_>) -> Result<Quant, Stop> {
    let first = fields.u8()?;
    let second = fields.u8()?;
    let third = fields.u8()?;
    let fourth = fields.u8()?;
    let fifth = fields.u8()?;
    Ok(quant_from(&[first, second, third, fourth, fifth]))
}

fn entropy_of(number: u8) -> Result<Entropy, ScriptKind> {
    match number {
        1 => Ok(Entropy::One),
        3 => Ok(Entropy::Three),
        _ => Err(ScriptKind::Range),
    }
}

fn transform_of(number: u8) -> Result<Transform, ScriptKind> {
    match number {
        0 => Ok(Transform::Plain),
        1 => Ok(Transform::Reduced),
        _ => Err(ScriptKind::Range),
    }
}

fn rounding_of(number: u8) -> Result<Rounding, ScriptKind> {
    match number {
        0 => Ok(Rounding::Zero),
        1 => Ok(Rounding::Nearest),
        _ => Err(ScriptKind::Range),
    }
}

fn digests_of(number: u8) -> Result<Digests, ScriptKind> {
    match number {
        0 => Ok(Digests::Off),
        1 => Ok(Digests::On),
        _ => Err(ScriptKind::Range),
    }
}

fn flag_of(number: u8) -> Result<bool, ScriptKind> {
    match number {
        0 => Ok(false),
        1 => Ok(true),
        _ => Err(ScriptKind::Range),
    }
}
