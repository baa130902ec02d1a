//! A script: pictures and steps, and what a session of them is like.

ghost use Rattle.std.specs.Prelude.{◌≡◌, ◌≤◌, ◌==◌, IfOk, IsSome, OnErr, OnOk, Some, drop, length, replicate, take};
ghost use Rattle.std.specs.List.{slice_get};
ghost use Rattle.std.specs.Option.{option_copied, option_map};
ghost use Rattle.gfx_script.specs.Patterns.{pixel_of};
ghost use Rattle.gfx_base.specs.Outcome.{Gives};
ghost use Rattle.gfx_script.specs.Drafts.{frame_ended, grown_by, moved_out};
ghost use Rattle.gfx_script.specs.Forgetting.{forgotten};
ghost use Rattle.gfx_script.specs.Sparing.{IsUnmarked, spared};
ghost use Rattle.gfx_script.specs.Parts.{parts_seen};
ghost use Rattle.gfx_script.specs.declared.TheConstants.{MOST_STEPS};
ghost use Rattle.gfx_script.specs.Script.{IsAcceptedAtStart, frames_in, step_at, is_framed};
ghost use Rattle.gfx_script.specs.declared.step.Step.TheVariants.{Frame};

use crate::draft::Draft;
use crate::error::Flaw;
use crate::forgetting::numbered;
use crate::picture::{BLANK, Picture};
use crate::sparing::{Marks, spare};
use crate::start::StartBitmap;
use crate::step::{Entropy, Step};
use crate::turn::Turn;
use gfx_base::{NoMemory, Pixel};
use gfx_caps::Offers;
use gfx_quant::Setting;
use std::alloc::Global;
use std::marker::Model;

/// A script as it was read or built, or as it grows. It may have forgotten steps and pictures that were sent; contracts
/// see a frame for each of those steps and a blank picture for each of those pictures.
#[derive(Debug, Drop)]
pub struct Script {
    window: u8,
    offers: Offers,
    setting: Setting,
    differences: bool,
    pictures: Vec<Picture>,
    small: bool,
    thin: bool,
    entropy: Entropy,
    start: Vec<StartBitmap>,
    steps: Vec<Step>,
    turns: Vec<Turn>,
    forgotten_steps: u32,
    forgotten_pictures: u32,
    /// What stands for a step that is forgotten, and for a picture.
    standing_step: Step,
    standing_picture: Picture,
}

/// What a script is made of.
#[derive(Debug, Drop)]
pub struct ScriptParts {
    pub window: u8,
    pub offers: Offers,
    pub setting: Setting,
    pub differences: bool,
    pub pictures: Vec<Picture>,
    pub small: bool,
    pub thin: bool,
    pub entropy: Entropy,
    pub start: Vec<StartBitmap>,
    pub steps: Vec<Step>,
    pub turns: Vec<Turn>,
}

impl Model for Script {
    ghost use Rattle.std.specs.Prelude.{◌≡◌, ◌++◌, replicate};
    ghost use Rattle.gfx_script.specs.Forgetting.{blank};
    ghost use Rattle.gfx_script.specs.Scripted.{Script};
    ghost use Rattle.gfx_script.specs.declared.step.Step.TheVariants.{Frame};

    ghost Value = { Script };

    ghost view = { λ s. record { window = s.window; offers = s.offers; setting = s.setting; differences = s.differences; pictures = replicate s.forgotten_pictures blank ++ s.pictures.items; small = s.small; thin = s.thin; entropy = s.entropy; start = s.start.items; steps = replicate s.forgotten_steps Frame ++ s.steps.items; turns = s.turns.items } };

    ghost invariant = { λ s. (s.standing_step ≡ Frame) × (s.standing_picture ≡ blank) };
}

impl Script {
    /// The script of these parts, of which all that holds of accepted scripts is to hold.
    pub fn new(parts: ScriptParts) -> Script
        requires { IsAcceptedAtStart (parts_seen parts) }
        ensures { result ≡ parts_seen parts }
    {
        let ScriptParts {
            window,
            offers,
            setting,
            differences,
            pictures,
            small,
            thin,
            entropy,
            start,
            steps,
            turns,
        } = parts;
        Script {
            window,
            offers,
            setting,
            differences,
            pictures,
            small,
            thin,
            entropy,
            start,
            steps,
            turns,
            forgotten_steps: 0,
            forgotten_pictures: 0,
            standing_step: Step::Frame,
            standing_picture: BLANK,
        }
    }

    /// How many frames may be in flight.
    pub fn window(&self) -> u8
        ensures { result ≡ self.now.window }
    {
        self.window
    }

    /// Takes the pictures and the steps of a draft to its end: all of them, or, without memory, none.
    pub fn grow(&mut self, draft: &mut Draft) -> Result<(), NoMemory>
        ensures grown { OnOk result (self.new ≡ grown_by self.old draft.old) }
        ensures moved { OnOk result (draft.new ≡ moved_out draft.old) }
        ensures unchanged { OnErr result (self.new ≡ self.old) }
        ensures draft_unchanged { OnErr result (draft.new ≡ draft.old) }
    {
        draft.move_behind(&mut self.pictures, &mut self.steps)
    }

    /// Ends a script frame: takes the pictures and the steps of a draft, and `Frame` behind them, to its end. An error
    /// leaves both as they were.
    #[tactic(auto, unfolding(crate::specs::Drafts::frame_ended, gfx_base::specs::Results::and_then))]
    pub fn end_frame(&mut self, draft: &mut Draft) -> Result<(), Flaw>
        ensures exact { Gives (λ _. (self.new, draft.new)) result (frame_ended self.old draft.old) }
        ensures unchanged { OnErr result (self.new ≡ self.old) }
        ensures draft_unchanged { OnErr result (draft.new ≡ draft.old) }
    {
        draft.push(Step::Frame)?;
        match self.grow(draft) {
            Ok(()) => Ok(()),
            Err(lack) => {
                draft.take_frame_back();
                Err(lack.into())
            }
        }
    }

    /// Forgets all of its steps and pictures, and gives back what they took: a frame stands for each step from then on,
    /// and a blank picture for each picture.
    pub fn forget(&mut self)
        requires few { length self.old.steps ≤ MOST_STEPS }
        requires few_pictures { length self.old.pictures ≤ MOST_STEPS }
        ensures { self.new ≡ forgotten self.old }
    {
        self.forgotten_steps += self.steps.len() as u32;
        self.steps.clear();
        self.forgotten_pictures += self.pictures.len() as u32;
        self.pictures.clear();
    }

    /// How many of its first steps it has forgotten: a frame stands for each.
    pub fn steps_forgotten(&self) -> u32
        ensures few { result ≤ length self.now.steps }
        ensures frames { take result self.now.steps ≡ replicate result Frame }
    {
        self.forgotten_steps
    }

    /// Marks for its pictures, none of which is marked yet.
    pub fn unmarked(&self, alloc: Global) -> Result<Marks, NoMemory>
        ensures { IfOk result (IsUnmarked self.now) }
    {
        Marks::new(alloc, self.forgotten_pictures, self.pictures.len())
    }

    /// Forgets the pixels of the pictures that aren't marked, and gives back what they took. Their sides stay.
    pub fn spare(&mut self, marks: &Marks)
        ensures { self.new ≡ spared marks.now self.old }
    {
        spare(&mut self.pictures, self.forgotten_pictures, marks);
    }

    /// What the client offers.
    pub fn offers(&self) -> &Offers
        ensures { result.now ≡ self.now.offers }
    {
        &self.offers
    }

    /// The offer at this place, counted from 0, if there is one: its version's number, whether it asks for the small
    /// cache, and whether the client is thin with it.
    pub fn offer(&self, at: u32) -> Option<(u32, bool, bool)>
        ensures { result ≡ option_map (λ one. (one.version, one.small, one.thin)) (slice_get self.now.offers at) }
    {
        match self.offers.get(at as usize) {
            Some(offer) => Some((offer.version, offer.small, offer.thin)),
            None => None,
        }
    }

    /// How progressive paints are coded.
    pub fn setting(&self) -> &Setting
        ensures { result.now ≡ self.now.setting }
    {
        &self.setting
    }

    /// Whether the tiles of progressive paints may go as differences from those before.
    pub fn differences(&self) -> bool
        ensures { result ≡ self.now.differences }
    {
        self.differences
    }

    /// How many steps it has.
    pub fn step_count(&self) -> usize
        ensures { result ≡ length self.now.steps }
    {
        self.forgotten_steps as usize + self.steps.len()
    }

    /// How many pictures it has.
    pub fn picture_count(&self) -> usize
        ensures { result ≡ length self.now.pictures }
    {
        self.forgotten_pictures as usize + self.pictures.len()
    }

    /// How many frames stand behind the step of this number, counted from 1.
    pub fn frames_behind(&self, number: u32) -> usize
        ensures { result ≡ frames_in (drop number self.now.steps) }
    {
        if number as usize >= self.step_count() {
            return 0;
        }
        let forgotten = self.forgotten_steps.saturating_sub(number) as usize;
        let passed = number.saturating_sub(self.forgotten_steps) as usize;
        let (_, behind) = self.steps.as_slice().split_at(passed);
        forgotten + frames_in(behind)
    }

    /// The step of this number, counted from 1, if there is one.
    pub fn step(&self, number: u32) -> Option<&Step>
        ensures { option_copied result ≡ step_at self.now.steps number }
    {
        if number == 0 {
            return None;
        }
        numbered(
            self.forgotten_steps,
            &self.standing_step,
            self.steps.as_slice(),
            number - 1,
        )
    }

    /// Width and height of the picture of this number, counted from 0, if there is one.
    pub fn picture_size(&self, picture: u32) -> Option<(u16, u16)>
        ensures { result ≡ option_map (λ one. (one.width, one.height)) (slice_get self.now.pictures picture) }
    {
        match self.picture(picture) {
            Some(picture) => Some((picture.width, picture.height)),
            None => None,
        }
    }

    /// The picture of this number, counted from 0, if there is one.
    pub fn picture(&self, picture: u32) -> Option<&Picture>
        ensures { option_copied result ≡ slice_get self.now.pictures picture }
    {
        numbered(
            self.forgotten_pictures,
            &self.standing_picture,
            self.pictures.as_slice(),
            picture,
        )
    }

    /// The pixel at column x of row y of the picture of this number.
    pub fn picture_pixel(&self, picture: u32, x: u16, y: u16) -> Pixel
        requires { IsSome (slice_get self.now.pictures picture) }
        ensures { option_map (λ one. pixel_of one x y) (slice_get self.now.pictures picture) ≡ Some result }
    {
        let Some(picture) = self.picture(picture) else {
            unreachable!()
        };
        picture.pixel(x, y)
    }

    /// Whether the small limits on bitmaps bind the client: of the version that is chosen of what it offers, it asks
    /// for the small cache, or it is thin.
    pub fn small(&self) -> bool
        ensures { result ≡ self.now.small }
    {
        self.small
    }

    /// Whether the version that is chosen of what the client offers is that of a thin client, to which progressive
    /// paints go as video paints.
    pub fn thin(&self) -> bool
        ensures { result ≡ self.now.thin }
    {
        self.thin
    }

    /// How the coefficients of video paints are coded.
    pub fn entropy(&self) -> Entropy
        ensures { result ≡ self.now.entropy }
    {
        self.entropy
    }

    /// The bitmaps that both ends have before the first step, in slots 1, 2 and so on; the last is the most recently
    /// used.
    pub fn start(&self) -> &[StartBitmap]
        ensures { result.now ≡ self.now.start }
    {
        self.start.as_slice()
    }

    /// Whether there is no such bitmap.
    pub fn starts_empty(&self) -> bool
        ensures { result ≡ (length self.now.start == 0) }
    {
        self.start.is_empty()
    }

    /// The turn at this place, counted from 0, if there is one.
    pub fn turn(&self, at: u32) -> Option<Turn>
        ensures { result ≡ slice_get self.now.turns at }
    {
        self.turns.get(at as usize).copied()
    }
}

/// How many of these steps are frames.
fn frames_in(steps: &[Step]) -> usize
    ensures { result ≡ frames_in steps.now }
{
    steps.iter().filter(|step| step.is_frame()).count()
}

/// Whether the last step, where there is one, is a frame.
pub fn is_framed(steps: &[Step]) -> bool
    ensures { result ≡ is_framed steps.now }
{
    match steps.last() {
        None => true,
        Some(step) => step.is_frame(),
    }
}
