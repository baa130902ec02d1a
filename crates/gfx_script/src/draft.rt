//! Pictures and steps that are pushed one after another, before they stand in a script.

ghost use Rattle.std.specs.Prelude.{◌≡◌, ◌≤◌, ◌++◌, ◌==◌, [], IfOk, IsTrue, OnErr, OnOk, length, map};
ghost use Rattle.gfx_base.specs.Outcome.{Gives};
ghost use Rattle.gfx_script.specs.declared.TheConstants.{MOST_STEPS};
ghost use Rattle.gfx_script.specs.Drafts.{behind_picture, has_room_for_picture, moved_out, nothing_drafted, painted, pushed, steps_so_far, with_picture, without_picture, without_step, without_steps};
ghost use Rattle.gfx_script.specs.Building.{each_in_turn};
ghost use Rattle.gfx_script.specs.declared.step.Step.TheVariants.{Improve};
ghost use Rattle.gfx_script.specs.Forgetting.{draft_forgotten};
ghost use Rattle.gfx_script.specs.Starting.{IsStart, stock_with};

use crate::MOST_STEPS;
use crate::error::{Flaw, ScriptKind};
use crate::held::{Held, Sides};
use crate::picture::Picture;
use crate::start::StartBitmap;
use crate::step::{Kind, Step};
use gfx_base::{NoMemory, Point};
use std::alloc::Global;
use std::marker::Model;

/// Pictures and steps that were pushed, each after it passed the checks of scripts, and that stand in no script yet.
/// `Script::grow` takes them. Contracts see what is held behind them too, and how many steps are before them.
#[derive(Drop)]
pub struct Draft {
    alloc: Global,
    held: Held,
    pictures: Vec<Picture>,
    steps: Vec<Step>,
    before: u32,
}

impl Model for Draft {
    ghost use Rattle.gfx_script.specs.Drafts.{Draft};
    ghost use Rattle.gfx_script.specs.PartCodes.{draft_code};

    ghost Value = { Draft };

    ghost coded = { draft_code };

    ghost view = { λ d. record { held = d.held; pictures = d.pictures.items; steps = d.steps.items; before = d.before } };

    ghost use Rattle.std.specs.Prelude.{◌+◌, ◌≤◌, length};
    ghost use Rattle.gfx_script.specs.declared.TheConstants.{MOST_STEPS};

    ghost invariant = { λ d. (d.before + length d.steps.items ≤ MOST_STEPS) × (length d.held.pictures ≤ MOST_STEPS) };
}

impl Draft {
    /// Nothing yet, before the first step of a script that starts with these bitmaps, in slots 1, 2 and so on, under
    /// the small limits on bitmaps or the large ones.
    pub fn new(alloc: Global, small: bool, start: &[StartBitmap]) -> Result<Draft, NoMemory>
        requires { IsStart start.now small }
        ensures { IfOk result (λ draft. draft ≡ nothing_drafted (stock_with start.now small)) }
    {
        let held = Held::with_bitmaps(alloc, &[], small, start)?;
        Ok(Draft {
            alloc,
            held,
            pictures: Vec::new(alloc),
            steps: Vec::new(alloc),
            before: 0,
        })
    }

    /// Adds a picture, and says its number, by which paints name it. Range where its sides are out of their range or
    /// its pixels too many, or where there are `MOST_STEPS` pictures already. An error leaves all as it was.
    #[tactic(auto, unfolding(crate::specs::Drafts::with_picture, gfx_base::specs::Results::and_then))]
    pub fn picture(&mut self, picture: Picture) -> Result<u32, Flaw>
        ensures exact { Gives (λ number. (number, self.new)) result (with_picture self.old picture) }
        ensures unchanged { OnErr result (self.new ≡ self.old) }
    {
        if !self.has_room_for_picture() {
            return Err(Flaw::Refused(ScriptKind::Range));
        }
        if !picture.is_in_range() {
            return Err(Flaw::Refused(ScriptKind::Range));
        }
        let number = self.next_picture();
        self.add_picture(picture)?;
        Ok(number)
    }

    /// Pushes a step. Range where a number of it is out of its range, or where there are `MOST_STEPS` steps already;
    /// else what is wrong with it behind the steps before it. An error leaves all as it was.
    #[tactic(auto, unfolding(crate::specs::Drafts::pushed, gfx_base::specs::Results::and_then))]
    pub fn push(&mut self, step: Step) -> Result<(), Flaw>
        ensures exact { Gives (λ _. self.new) result (pushed self.old step) }
        ensures unchanged { OnErr result (self.new ≡ self.old) }
    {
        if self.steps_so_far() >= MOST_STEPS {
            return Err(Flaw::Refused(ScriptKind::Range));
        }
        if !step.is_in_range() {
            return Err(Flaw::Refused(ScriptKind::Range));
        }
        self.steps.reserve(1)?;
        self.held.take(self.alloc, &step)?;
        let Ok(()) = self.steps.push(step) else {
            unreachable!()
        };
        Ok(())
    }

    /// Pushes an improvement of each of these surfaces where no step is there yet: all of them or, after any error, none.
    pub fn improve_all(&mut self, ids: &[u16]) -> Result<(), Flaw>
        requires { self.old.steps ≡ [] }
        ensures exact { Gives (λ _. self.new) result (each_in_turn pushed self.old (map Improve ids.now)) }
        ensures unchanged { OnErr result (self.new ≡ self.old) }
    {
        'ids: for id in ids {
            if let Err(flaw) = self.push(Step::Improve { id: *id }) {
                self.take_steps_back();
                return Err(flaw);
            }
        }
        Ok(())
    }

    /// Takes all steps back, which left what was held as it was.
    pub fn take_steps_back(&mut self)
        ensures { self.new ≡ without_steps self.old }
    {
        self.steps.clear();
    }

    /// Adds a picture and pushes its paint: either both or, after any error, nothing.
    #[tactic(auto, unfolding(crate::specs::Drafts::painted, gfx_base::specs::Results::and_then))]
    pub fn paint(
        &mut self,
        picture: Picture,
        id: u16,
        at: Point,
        kind: Option<Kind>,
        glyph: Option<u16>,
    ) -> Result<(), Flaw>
        ensures exact { Gives (λ _. self.new) result (painted self.old picture id at kind glyph) }
        ensures unchanged { OnErr result (self.new ≡ self.old) }
    {
        let number = self.picture(picture)?;
        let step = Step::Paint {
            id,
            picture: number,
            at,
            kind,
            glyph,
        };
        match self.push(step) {
            Ok(()) => Ok(()),
            Err(flaw) => {
                self.take_picture_back();
                Err(flaw)
            }
        }
    }

    /// The pictures that were added since the script last took some.
    pub fn pictures(&self) -> &[Picture]
        ensures { result.now ≡ self.now.pictures }
    {
        self.pictures.as_slice()
    }

    /// The steps that were pushed since the script last took some.
    pub fn steps(&self) -> &[Step]
        ensures { result.now ≡ self.now.steps }
    {
        self.steps.as_slice()
    }

    /// How many steps those are.
    pub fn len(&self) -> usize
        ensures { result ≡ length self.now.steps }
    {
        self.steps.len()
    }

    /// Whether there are none.
    pub fn is_empty(&self) -> bool
        ensures { result ≡ (length self.now.steps == 0) }
    {
        self.steps.is_empty()
    }

    /// How many steps the script has with these.
    pub fn steps_so_far(&self) -> u32
        ensures count { result ≡ steps_so_far self.now }
        ensures few { result ≤ MOST_STEPS }
    {
        self.before + self.steps.len() as u32
    }

    /// The number that the next picture gets: how many there are so far.
    pub fn next_picture(&self) -> u32
        ensures number { result ≡ length self.now.held.pictures }
        ensures few { result ≤ MOST_STEPS }
    {
        self.held.picture_count() as u32
    }

    /// Whether one more picture may come.
    fn has_room_for_picture(&self) -> bool
        ensures { result ≡ has_room_for_picture self.now }
    {
        self.next_picture() < MOST_STEPS
    }

    /// One more picture, which there is room for.
    fn add_picture(&mut self, picture: Picture) -> Result<(), NoMemory>
        requires { IsTrue (has_room_for_picture self.old) }
        ensures ok { OnOk result (self.new ≡ behind_picture self.old picture) }
        ensures err { OnErr result (self.new ≡ self.old) }
    {
        self.pictures.reserve(1)?;
        self.held.add_picture(Sides {
            width: picture.width,
            height: picture.height,
        })?;
        let Ok(()) = self.pictures.push(picture) else {
            unreachable!()
        };
        Ok(())
    }

    /// Takes the last picture back, if there is one.
    fn take_picture_back(&mut self)
        ensures { self.new ≡ without_picture self.old }
    {
        self.held.take_picture_back();
        self.pictures.pop();
    }

    /// Takes back the last step, a frame, which left all else as it was.
    pub(crate) fn take_frame_back(&mut self)
        ensures { self.new ≡ without_step self.old }
    {
        self.steps.pop();
    }

    /// Forgets the sides of so many of the first pictures, all of which a script has taken: blank ones stand for them, and
    /// the others have the numbers that they had.
    pub fn forget_pictures(&mut self, count: u32)
        requires { count ≤ length self.old.held.pictures }
        ensures { self.new ≡ draft_forgotten count self.old }
    {
        self.held.forget_pictures(count);
    }

    /// Moves pictures and steps behind others: all of them, or none without memory.
    pub(crate) fn move_behind(
        &mut self,
        pictures: &mut Vec<Picture>,
        steps: &mut Vec<Step>,
    ) -> Result<(), NoMemory>
        ensures moved { OnOk result (self.new ≡ moved_out self.old) }
        ensures pictures { OnOk result (pictures.new.items ≡ pictures.old.items ++ self.old.pictures) }
        ensures steps { OnOk result (steps.new.items ≡ steps.old.items ++ self.old.steps) }
        ensures unchanged { OnErr result (self.new ≡ self.old) }
        ensures pictures_unchanged { OnErr result (pictures.new.items ≡ pictures.old.items) }
        ensures steps_unchanged { OnErr result (steps.new.items ≡ steps.old.items) }
    {
        let before = self.steps_so_far();
        pictures.reserve(self.pictures.len())?;
        steps.append(&mut self.steps)?;
        let Ok(()) = pictures.append(&mut self.pictures) else {
            unreachable!()
        };
        self.before = before;
        Ok(())
    }

    /// The pictures and the steps.
    pub(crate) fn into_parts(self) -> (Vec<Picture>, Vec<Step>)
        ensures pictures { result.0.items ≡ self.pictures }
        ensures steps { result.1.items ≡ self.steps }
    {
        let Draft {
            alloc: _,
            held: _,
            pictures,
            steps,
            before: _,
        } = self;
        (pictures, steps)
    }
}
