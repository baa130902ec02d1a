//! What a chooser is told.
ghost use Rattle.std.specs.Prelude.{◌≡◌};
ghost use Rattle.gfx_chooser.specs.Facts.{facts_of};

use crate::colours::count_colours;
use gfx_script::{Picture, Script, Step};
use std::marker::Model;

/// No more colours are counted in a picture.
pub const MOST_COLOURS: u16 = 128;

/// What a chooser is told of a paint that names no kind.
#[derive(Debug, Drop)]
pub struct Facts<'a> {
    /// The number of its step, counted from 1.
    pub step: u32,
    /// The id of its surface.
    pub surface: u16,
    /// The sides of its picture in pixels.
    pub width: u16,
    pub height: u16,
    /// How many colours its picture has, alpha not counted; `MOST_COLOURS` where it has more.
    pub colours: u16,
    /// The picture itself. Nothing is looked up in it before a chooser does.
    pub picture: PictureRef<'a>,
}

/// A picture where the script has it. Contracts see the picture.
#[derive(Debug, Drop)]
pub struct PictureRef<'a> {
    picture: &'a Picture,
}

impl<'a> Model for PictureRef<'a> {
    ghost use Rattle.gfx_script.specs.declared.picture.Picture.{Picture};

    ghost Value = { Picture };

    ghost view = { λ p. p.picture.now };
}

impl<'a> PictureRef<'a> {
    #[inline(always)]
    pub fn new(picture: &'a Picture) -> PictureRef<'a>
        ensures { result ≡ picture.now }
    {
        PictureRef { picture }
    }

    #[inline(always)]
    pub fn get(&self) -> &'a Picture
        ensures { result.now ≡ self.now }
    {
        self.picture
    }
}

/// The facts of the step of this number, counted from 1: there are some exactly where it is a paint that names
/// no kind, of a picture that the script has. It takes no memory, and looks at no pixel once it has found
/// `MOST_COLOURS` colours.
#[tactic(auto, unfolding(crate::specs::Facts::facts_in))]
pub fn facts_of(script: &Script, number: u32) -> Option<Facts<'_>>
    ensures { result ≡ facts_of script.now number }
{
    match script.step(number)? {
        Step::Paint {
            id,
            picture,
            kind: None,
            ..
        } => {
            let picture = script.picture(*picture)?;
            Some(Facts {
                step: number,
                surface: *id,
                width: picture.width,
                height: picture.height,
                colours: count_colours(picture),
                picture: PictureRef::new(picture),
            })
        }
        _ => None,
    }
}
