//! A whole script by calls.

ghost use Rattle.std.specs.Prelude.{◌≡◌, true, IfOk, OnErr};
ghost use Rattle.gfx_base.specs.Outcome.{Gives, Says};
ghost use Rattle.gfx_script.specs.Building.{built, nothing_built, paint_built, picture_built, script_so_far, step_built, turn_built};
ghost use Rattle.gfx_script.specs.Script.{IsAccepted, is_framed};

use crate::MOST_TURNS;
use crate::draft::Draft;
use crate::error::{Flaw, ScriptKind};
use crate::head::{Head, HeadParts};
use crate::picture::Picture;
use crate::script::{Script, ScriptParts, is_framed};
use crate::step::{Kind, Step};
use crate::turn::Turn;
use gfx_base::{NoMemory, Point};
use std::alloc::Global;
use std::marker::Model;

/// A script under way. Each call is checked as the reader of scripts checks the same picture, step or turn, and one
/// that gives an error leaves all as it was.
#[derive(Drop)]
pub struct ScriptBuilder {
    alloc: Global,
    head: Head,
    draft: Draft,
    turns: Vec<Turn>,
}

impl Model for ScriptBuilder {
    ghost use Rattle.gfx_script.specs.Building.{Building};
    ghost use Rattle.gfx_script.specs.PartCodes.{building_code};

    ghost Value = { Building };

    ghost coded = { building_code };

    ghost view = { λ b. record { head = b.head; draft = b.draft; turns = b.turns.items } };

    ghost use Rattle.gfx_script.specs.Building.{IsUnderWay};

    ghost invariant = { λ b. IsUnderWay record { head = b.head; draft = b.draft; turns = b.turns.items } };
}

impl ScriptBuilder {
    /// The script of this head that shows nothing yet.
    pub fn new(alloc: Global, head: Head) -> Result<ScriptBuilder, NoMemory>
        ensures { IfOk result (λ builder. builder ≡ nothing_built head) }
    {
        let draft = Draft::new(alloc, head.small(), &[])?;
        Ok(ScriptBuilder {
            alloc,
            head,
            draft,
            turns: Vec::new(alloc),
        })
    }

    /// Adds a picture, and says its number, by which paints name it. Range where its sides are out of their range or
    /// its pixels too many, or where there are `MOST_STEPS` pictures already.
    #[tactic(auto, unfolding(crate::specs::Building::picture_built, gfx_base::specs::Results::and_then))]
    pub fn picture(&mut self, picture: Picture) -> Result<u32, Flaw>
        ensures exact { Gives (λ number. (number, self.new)) result (picture_built self.old picture) }
        ensures unchanged { OnErr result (self.new ≡ self.old) }
    {
        self.draft.picture(picture)
    }

    /// Pushes a step. Range where a number of it is out of its range, or where there are `MOST_STEPS` steps already;
    /// else what is wrong with it behind the steps before it.
    #[tactic(auto, unfolding(crate::specs::Building::step_built, gfx_base::specs::Results::and_then))]
    pub fn push(&mut self, step: Step) -> Result<(), Flaw>
        ensures exact { Gives (λ _. self.new) result (step_built self.old step) }
        ensures unchanged { OnErr result (self.new ≡ self.old) }
    {
        self.draft.push(step)
    }

    /// Adds a picture and pushes its paint: both or nothing.
    #[tactic(auto, unfolding(crate::specs::Building::paint_built, gfx_base::specs::Results::and_then))]
    pub fn paint(
        &mut self,
        picture: Picture,
        id: u16,
        at: Point,
        kind: Option<Kind>,
        glyph: Option<u16>,
    ) -> Result<(), Flaw>
        ensures exact { Gives (λ _. self.new) result (paint_built self.old picture id at kind glyph) }
        ensures unchanged { OnErr result (self.new ≡ self.old) }
    {
        self.draft.paint(picture, id, at, kind, glyph)
    }

    /// Pushes a turn. Range where its number is 0, or where there are `MOST_TURNS` turns already.
    #[tactic(auto, unfolding(crate::specs::Building::turn_built, gfx_base::specs::Results::and_then))]
    pub fn turn(&mut self, turn: Turn) -> Result<(), Flaw>
        ensures exact { Gives (λ _. self.new) result (turn_built self.old turn) }
        ensures unchanged { OnErr result (self.new ≡ self.old) }
    {
        if self.turns.len() >= MOST_TURNS as usize {
            return Err(Flaw::Refused(ScriptKind::Range));
        }
        if !turn.is_in_range() {
            return Err(Flaw::Refused(ScriptKind::Range));
        }
        self.turns.push(turn)?;
        Ok(())
    }

    /// The script of all that was pushed. Unframed where its last step is no frame. It takes no memory.
    #[tactic(auto, unfolding(crate::specs::Building::built, gfx_base::specs::Results::and_then))]
    pub fn finish(self) -> Result<Script, ScriptKind>
        ensures exact { Says (λ script. script) result (built self) }
        ensures accepted { IfOk result IsAccepted }
    {
        if !is_framed(self.draft.steps()) {
            return Err(ScriptKind::Unframed);
        }
        Ok(self.into_script())
    }

    /// The script of all that was pushed, which ends with a frame.
    fn into_script(self) -> Script
        requires { is_framed self.draft.steps ≡ true }
        ensures script { result ≡ script_so_far self }
        ensures accepted { IsAccepted result }
    {
        let small = self.head.small();
        let thin = self.head.thin();
        let HeadParts {
            window,
            offers,
            setting,
            differences,
            entropy,
        } = self.head.into_parts();
        let (pictures, steps) = self.draft.into_parts();
        Script::new(ScriptParts {
            window,
            offers,
            setting,
            differences,
            pictures,
            small,
            thin,
            entropy,
            start: Vec::new(self.alloc),
            steps,
            turns: self.turns,
        })
    }
}
