//! What the steps so far have left, as far as later ones are checked against it.

ghost use Rattle.std.specs.Prelude.{◌≡◌, ◌≤◌, IsTrue, IfOk, OnErr, OnOk, length, slice_get};
ghost use Rattle.std.specs.FinMap as map;
ghost use Rattle.gfx_base.specs.Geometry.{sized};
ghost use Rattle.gfx_script.specs.Checks.{held_first, held_from, sides_of_all, may_add, with_surface, without_surface, surface_made, surface_deleted, surface_mapped, rects_filled, rect_copied, rect_kept, key_shown, key_forgotten, is_glyph, takes_glyph, picture_painted, held_after};
ghost use Rattle.gfx_script.specs.Drafts.{with_sides, without_last_sides};
ghost use Rattle.gfx_script.specs.Forgetting.{sides_forgotten};
ghost use Rattle.gfx_script.specs.Starting.{IsStart, stock_with};
ghost use Rattle.gfx_base.specs.Outcome.{Gives, Says};

use crate::MOST_GLYPH_AREA;
use crate::error::{Flaw, ScriptKind};
use crate::forgetting::{BLANK_SIDES, numbered};
use crate::picture::Picture;
use crate::start::StartBitmap;
use crate::step::{Kind, Step};
use crate::stock::Stock;
use gfx_base::{NoMemory, Point, Rect, all_lie_in, fits_at, fits_at_all};
use gfx_surface_map::{MOST_CELLS, MOST_SURFACES, count_cells};
use indexmap::IndexMap;
use std::alloc::Global;
use std::marker::Model;

/// The sides of a surface, a picture or a bitmap.
#[derive(Clone, Copy, Debug, PartialEq, Eq)]
pub struct Sides {
    pub width: u16,
    pub height: u16,
}

/// The sides of the pictures, of which so many of the first are forgotten, those of the surfaces by their ids, how many
/// cells these have together, and the bitmaps.
#[derive(Drop)]
pub struct Held {
    forgotten: u32,
    pictures: Vec<Sides>,
    sides: IndexMap<u16, Sides>,
    cells: u32,
    stock: Stock,
}

impl Model for Held {
    ghost use Rattle.gfx_script.specs.Checks.{Held};
    ghost use Rattle.gfx_script.specs.Codes.{held_code};

    ghost Value = { Held };

    ghost coded = { held_code };

    ghost use Rattle.gfx_script.specs.Inside.{held_of, IsWithinLimit};

    ghost view = { held_of };

    ghost invariant = { IsWithinLimit };
}

impl Held {
    /// What is held before the first step, with these pictures and no bitmap.
    pub fn new(alloc: Global, pictures: &[Picture], small: bool) -> Result<Held, NoMemory>
        ensures { IfOk result (λ held. held ≡ held_first (sides_of_all pictures.now) small) }
    {
        Held::with_bitmaps(alloc, pictures, small, &[])
    }

    /// What is held before the first step, with these pictures, and with these bitmaps in slots 1, 2 and so on.
    pub fn with_bitmaps(
        alloc: Global,
        pictures: &[Picture],
        small: bool,
        start: &[StartBitmap],
    ) -> Result<Held, NoMemory>
        requires { IsStart start.now small }
        ensures { IfOk result (λ held. held ≡ held_from (sides_of_all pictures.now) (stock_with start.now small)) }
    {
        let pictures = sides_of_all(alloc, pictures)?;
        let stock = Stock::with_bitmaps(alloc, small, start)?;
        Ok(Held {
            forgotten: 0,
            pictures,
            sides: IndexMap::new(alloc),
            cells: 0,
            stock,
        })
    }

    /// Goes on to what is held after a step. An error leaves all as it was.
    #[tactic(auto, unfolding(crate::specs::Checks::held_after))]
    pub fn take(&mut self, alloc: Global, step: &Step) -> Result<(), Flaw>
        ensures exact { Gives (λ _. self.new) result (held_after self.old step.now) }
        ensures unchanged { OnErr result (self.new ≡ self.old) }
    {
        match step {
            Step::Surface {
                id,
                width,
                height,
                ..
            } => self.make_surface(*id, *width, *height),
            Step::Delete { id } => Ok(self.delete_surface(*id)?),
            Step::Reset { .. } => Ok(()),
            Step::Map { id, .. } | Step::Improve { id } => Ok(self.check_surface(*id)?),
            Step::Fill { id, rects, .. } => Ok(self.check_rects(*id, rects.as_slice())?),
            Step::Copy {
                from,
                to,
                rect,
                points,
            } => Ok(self.check_copy(*from, *to, *rect, points.as_slice())?),
            Step::Keep { id, key, rect } => self.keep_rect(alloc, *id, *key, *rect),
            Step::Show { key, to, points } => Ok(self.show_key(*key, *to, points.as_slice())?),
            Step::Forget { key } => Ok(self.forget_key(*key)?),
            Step::Paint {
                id,
                picture,
                at,
                kind,
                glyph,
            } => Ok(self.check_paint(*id, *picture, *at, *kind, *glyph)?),
            Step::Frame => Ok(()),
        }
    }

    #[tactic(auto, unfolding(crate::specs::Checks::surface_made, gfx_base::specs::Results::and_then))]
    fn make_surface(&mut self, id: u16, width: u16, height: u16) -> Result<(), Flaw>
        ensures exact { Gives (λ _. self.new) result (surface_made self.old id width height) }
        ensures unchanged { OnErr result (self.new ≡ self.old) }
    {
        if self.contains(id) {
            return Err(Flaw::Refused(ScriptKind::SurfacePresent));
        }
        if !self.may_add(width, height) {
            return Err(Flaw::Refused(ScriptKind::CellBudget));
        }
        self.add(id, width, height)?;
        Ok(())
    }

    #[tactic(auto, unfolding(crate::specs::Checks::surface_deleted, gfx_base::specs::Results::and_then))]
    fn delete_surface(&mut self, id: u16) -> Result<(), ScriptKind>
        ensures exact { Says (λ _. self.new) result (surface_deleted self.old id) }
        ensures unchanged { OnErr result (self.new ≡ self.old) }
    {
        let Some(sides) = self.sides_of(id) else {
            return Err(ScriptKind::SurfaceAbsent);
        };
        self.remove(id, sides);
        Ok(())
    }

    /// Refuses an id that no surface has.
    #[tactic(auto, unfolding(crate::specs::Checks::surface_mapped, gfx_base::specs::Results::and_then))]
    fn check_surface(&self, id: u16) -> Result<(), ScriptKind>
        ensures { Says (λ _. self.now) result (surface_mapped self.now id) }
    {
        if !self.contains(id) {
            return Err(ScriptKind::SurfaceAbsent);
        }
        Ok(())
    }

    /// Refuses rectangles of which one doesn't lie on the surface of this id.
    #[tactic(auto, unfolding(crate::specs::Checks::rects_filled, gfx_base::specs::Results::and_then))]
    fn check_rects(&self, id: u16, rects: &[Rect]) -> Result<(), ScriptKind>
        ensures { Says (λ _. self.now) result (rects_filled self.now id rects.now) }
    {
        let Some(sides) = self.sides_of(id) else {
            return Err(ScriptKind::SurfaceAbsent);
        };
        if !all_lie_in(rects, sides.width, sides.height) {
            return Err(ScriptKind::Outside);
        }
        Ok(())
    }

    /// Refuses a copy of a rectangle that doesn't lie on its surface, or at a point on the other.
    #[tactic(auto, unfolding(crate::specs::Checks::rect_copied, gfx_base::specs::Results::and_then))]
    fn check_copy(&self, from: u16, to: u16, rect: Rect, points: &[Point]) -> Result<(), ScriptKind>
        ensures { Says (λ _. self.now) result (rect_copied self.now from to rect points.now) }
    {
        let Some(source) = self.sides_of(from) else {
            return Err(ScriptKind::SurfaceAbsent);
        };
        let Some(target) = self.sides_of(to) else {
            return Err(ScriptKind::SurfaceAbsent);
        };
        if !rect.lies_in(source.width, source.height) {
            return Err(ScriptKind::Outside);
        }
        if !fits_at_all(rect, points, target.width, target.height) {
            return Err(ScriptKind::Outside);
        }
        Ok(())
    }

    /// Keeps a rectangle that lies on its surface as the bitmap of a key.
    #[tactic(auto, unfolding(crate::specs::Checks::rect_kept, gfx_base::specs::Results::and_then))]
    fn keep_rect(&mut self, alloc: Global, id: u16, key: u64, rect: Rect) -> Result<(), Flaw>
        ensures exact { Gives (λ _. self.new) result (rect_kept self.old id key rect) }
        ensures unchanged { OnErr result (self.new ≡ self.old) }
    {
        let Some(sides) = self.sides_of(id) else {
            return Err(Flaw::Refused(ScriptKind::SurfaceAbsent));
        };
        if !rect.lies_in(sides.width, sides.height) {
            return Err(Flaw::Refused(ScriptKind::Outside));
        }
        self.stock.keep(alloc, key, rect.width(), rect.height())
    }

    /// Says the bitmap of a key at points that it fits at.
    #[tactic(auto, unfolding(crate::specs::Checks::key_shown, gfx_base::specs::Results::and_then))]
    fn show_key(&mut self, key: u64, to: u16, points: &[Point]) -> Result<(), ScriptKind>
        ensures exact { Says (λ _. self.new) result (key_shown self.old key to points.now) }
        ensures unchanged { OnErr result (self.new ≡ self.old) }
    {
        let bitmap = self.stock.sides_of(key)?;
        let Some(target) = self.sides_of(to) else {
            return Err(ScriptKind::SurfaceAbsent);
        };
        if !fits_at_all(whole_of(bitmap), points, target.width, target.height) {
            return Err(ScriptKind::Outside);
        }
        self.stock.show(key);
        Ok(())
    }

    /// Lets a key go.
    #[tactic(auto, unfolding(crate::specs::Checks::key_forgotten, gfx_base::specs::Results::and_then))]
    fn forget_key(&mut self, key: u64) -> Result<(), ScriptKind>
        ensures exact { Says (λ _. self.new) result (key_forgotten self.old key) }
        ensures unchanged { OnErr result (self.new ≡ self.old) }
    {
        self.stock.forget(key)
    }

    /// Refuses a picture that doesn't lie on the surface of this id, and a glyph of another kind or of more
    /// pixels.
    #[tactic(auto, unfolding(crate::specs::Checks::picture_painted, gfx_base::specs::Results::and_then))]
    fn check_paint(
        &self,
        id: u16,
        picture: u32,
        at: Point,
        kind: Option<Kind>,
        glyph: Option<u16>,
    ) -> Result<(), ScriptKind>
        ensures { Says (λ _. self.now) result (picture_painted self.now id picture at kind glyph) }
    {
        let Some(sides) = self.sides_of(id) else {
            return Err(ScriptKind::SurfaceAbsent);
        };
        let Some(drawn) = self.picture_sides(picture) else {
            return Err(ScriptKind::Name);
        };
        if !fits_at(whole_of(drawn), at, sides.width, sides.height) {
            return Err(ScriptKind::Outside);
        }
        if !is_glyph(kind, drawn, glyph) {
            return Err(ScriptKind::Glyph);
        }
        Ok(())
    }

    /// How many pictures there are so far.
    pub(crate) fn picture_count(&self) -> usize
        ensures { result ≡ length self.now.pictures }
    {
        self.forgotten as usize + self.pictures.len()
    }

    /// The sides of one more picture.
    pub fn add_picture(&mut self, sides: Sides) -> Result<(), NoMemory>
        ensures ok { OnOk result (self.new ≡ with_sides self.old sides) }
        ensures err { OnErr result (self.new ≡ self.old) }
    {
        self.pictures.push(sides)?;
        Ok(())
    }

    /// Takes the sides of the last picture back, if there is one.
    pub fn take_picture_back(&mut self)
        ensures { self.new ≡ without_last_sides self.old }
    {
        if self.pictures.pop().is_none() {
            self.forgotten = self.forgotten.saturating_sub(1);
        }
    }

    /// Forgets the sides of so many of the first pictures.
    pub(crate) fn forget_pictures(&mut self, count: u32)
        requires { count ≤ length self.old.pictures }
        ensures { self.new ≡ sides_forgotten count self.old }
    {
        if count <= self.forgotten {
            return;
        }
        let more = (count - self.forgotten) as usize;
        self.pictures.drain(..more);
        self.forgotten = count;
    }

    /// The sides of the picture of this number, if there is one.
    fn picture_sides(&self, picture: u32) -> Option<Sides>
        ensures { result ≡ slice_get self.now.pictures picture }
    {
        numbered(
            self.forgotten,
            &BLANK_SIDES,
            self.pictures.as_slice(),
            picture,
        )
        .copied()
    }

    /// Whether a surface has this id.
    fn contains(&self, id: u16) -> bool
        ensures { result ≡ map.contains_key self.now.sides id }
    {
        self.sides.contains_key(&id)
    }

    /// The sides of the surface of this id, if there is one.
    fn sides_of(&self, id: u16) -> Option<Sides>
        ensures { result ≡ map.get self.now.sides id }
    {
        self.sides.get(&id).copied()
    }

    /// Whether one more surface of these sides is within the limits.
    fn may_add(&self, width: u16, height: u16) -> bool
        ensures { result ≡ may_add self.now width height }
    {
        self.sides.len() < MOST_SURFACES && self.cells + count_cells(width, height) <= MOST_CELLS
    }

    /// One more surface.
    fn add(&mut self, id: u16, width: u16, height: u16) -> Result<(), NoMemory>
        requires { IsTrue (may_add self.old width height) }
        ensures ok { OnOk result (self.new ≡ with_surface self.old id width height) }
        ensures err { OnErr result (self.new ≡ self.old) }
    {
        self.sides.insert(id, Sides { width, height })?;
        self.cells += count_cells(width, height);
        Ok(())
    }

    /// One surface less, with these sides.
    fn remove(&mut self, id: u16, sides: Sides)
        ensures { self.new ≡ without_surface self.old id sides }
    {
        self.sides.shift_remove(&id);
        self.cells = self
            .cells
            .saturating_sub(count_cells(sides.width, sides.height));
    }
}

/// The rectangle of these sides that begins at the top left.
fn whole_of(sides: Sides) -> Rect
    ensures { result ≡ sized sides.width sides.height }
{
    Rect::sized(sides.width, sides.height)
}

/// Whether a picture of these sides may go as a kind with a glyph, if it has one.
fn is_glyph(kind: Option<Kind>, drawn: Sides, glyph: Option<u16>) -> bool
    ensures { result ≡ is_glyph kind drawn glyph }
{
    glyph.is_none() || takes_glyph(kind, drawn)
}

/// Whether a picture of these sides that is to go as a kind may be kept as a glyph.
fn takes_glyph(kind: Option<Kind>, drawn: Sides) -> bool
    ensures { result ≡ takes_glyph kind drawn }
{
    match kind {
        Some(kind) => {
            kind.way(false).is_stream()
                && u32::from(drawn.width) * u32::from(drawn.height) <= MOST_GLYPH_AREA
        }
        None => false,
    }
}

/// The sides of pictures.
fn sides_of_all(alloc: Global, pictures: &[Picture]) -> Result<Vec<Sides>, NoMemory>
    ensures { IfOk result (λ sides. sides.items ≡ sides_of_all pictures.now) }
{
    let mut sides = Vec::new(alloc);
    'pictures: for picture in pictures {
        sides.push(Sides {
            width: picture.width,
            height: picture.height,
        })?;
    }
    Ok(sides)
}
