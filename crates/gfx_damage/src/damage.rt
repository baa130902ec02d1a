ghost use Rattle.std.specs.Prelude.{◌≡◌, ◌<◌, if◌then◌else◌, is_some, true, Some, OnOk, OnErr};
ghost use Rattle.std.specs.FinMap.{empty, from_entries};
ghost use Rattle.std.specs.Ordering.{nat_cmp};
ghost use Rattle.indexmap.specs.IndexMap.{spare};
ghost use Rattle.gfx_base.specs.Outcome.{Applies, WantsOnlyIf};
ghost use Rattle.gfx_pdu.specs.Borrowed.{pdu_of};
ghost use Rattle.gfx_state.specs.Step.{step};
ghost use Rattle.gfx_damage.specs.Damage.{marked, noted, rects_on, undamaged};
ghost use Rattle.gfx_damage.specs.Drawing.{drawing_in, drawn_by};
ghost use Rattle.gfx_damage.specs.Memory.{may_want};

use crate::drawing::{Drawing, add_drawing, drawing_of};
use crate::few_rects::FewRects;
use crate::kinds::{changes_all, ends_frame};
use gfx_base::{Fault, NoMemory, Rect};
use gfx_pdu::PduRef;
use gfx_state::State;
use indexmap::IndexMap;
use std::alloc::Global;
use std::marker::Model;

/// Which part of the screen was written since a frame ended. Behind its end it stays until the next message is
/// applied, which begins anew.
#[derive(Drop)]
pub struct Damage {
    ended: bool,
    whole: bool,
    marks: IndexMap<u16, FewRects>,
}

impl Model for Damage {
    ghost use Rattle.gfx_damage.specs.Damage.{Damage};
    ghost use Rattle.gfx_damage.specs.Codes.{damage_code};

    ghost Value = { Damage };

    ghost coded = { damage_code };

    ghost use Rattle.gfx_damage.specs.Inside.{damage_of};

    ghost view = { damage_of };
}

impl Damage {
    /// Nothing was written. It takes no memory.
    pub fn new(alloc: Global) -> Damage
        ensures { result ≡ undamaged }
    {
        Damage {
            ended: false,
            whole: false,
            marks: IndexMap::new(alloc),
        }
    }

    /// Whether anything may show: a surface was made, deleted or mapped, or the output got other sides.
    pub fn is_whole(&self) -> bool
        ensures { result ≡ self.now.whole }
    {
        self.whole
    }

    /// The rectangles of the surface of this id that were written, at most `MOST_RECTS` of them. Each lay on the surface that
    /// had this id when it was written, and may be empty; one that was deleted since may have been larger.
    pub fn rects(&self, surface: u16) -> &[Rect]
        ensures { result.now ≡ rects_on self.now.marks surface }
    {
        match self.marks.get(&surface) {
            Some(rects) => rects.as_slice(),
            None => &[],
        }
    }

    /// Applies a message to a state, as the state does itself, and notes what it wrote. A fault leaves both as they were.
    /// Memory is wanted only by a message whose effect takes some, or that writes on a surface which is there.
    pub fn apply(&mut self, alloc: Global, state: &mut State, pdu: &PduRef<'_>) -> Result<(), Fault>
        ensures applies { Applies result state.old state.new (step state.old (pdu_of pdu.now)) }
        ensures memory { WantsOnlyIf result (may_want state.old (pdu_of pdu.now)) }
        ensures notes { OnOk result (self.new ≡ noted self.old state.old (pdu_of pdu.now)) }
        ensures kept { OnErr result (self.new ≡ self.old) }
    {
        let drawing = drawing_of(alloc, state, pdu)?;
        // Before it is applied, so that want of memory leaves all as it was.
        make_room(&mut self.marks, &drawing)?;
        state.apply_ref(alloc, pdu)?;
        let id = pdu.id();
        begin(&mut self.marks, self.ended);
        note(&mut self.marks, &drawing);
        self.whole = (self.whole & !self.ended) | changes_all(id);
        self.ended = ends_frame(id);
        Ok(())
    }
}

/// Sees to it that there is room for the surface of a drawing.
fn make_room(
    marks: &mut IndexMap<u16, FewRects>,
    drawing: &Option<Drawing<'_>>,
) -> Result<(), NoMemory>
    ensures entries { marks.new.entries ≡ marks.old.entries }
    ensures room { OnOk result (is_some drawing.now ≡ true → 0 < spare marks.new) }
    ensures memory { OnErr result (is_some drawing.now ≡ true) }
{
    if drawing.is_some() {
        marks.reserve(1)?;
    }
    Ok(())
}

/// Lets go of all rectangles where a frame has ended. The room for others stays.
fn begin(marks: &mut IndexMap<u16, FewRects>, ended: bool)
    ensures marks { from_entries {R = nat_cmp} marks.new.entries ≡ (if ended then empty else from_entries marks.old.entries) }
    ensures room { 0 < spare marks.old → 0 < spare marks.new }
{
    if ended {
        marks.clear();
    }
}

/// Puts what is drawn to the rectangles of its surface.
fn note(marks: &mut IndexMap<u16, FewRects>, drawing: &Option<Drawing<'_>>)
    requires { is_some drawing.now ≡ true → 0 < spare marks.old }
    ensures { from_entries marks.new.entries ≡ marked (from_entries marks.old.entries) (drawing_in drawing.now) }
{
    if let Some(drawing) = drawing {
        note_one(marks, drawing);
    }
}

/// The same of a drawing that there is.
fn note_one(marks: &mut IndexMap<u16, FewRects>, drawing: &Drawing<'_>)
    requires { 0 < spare marks.old }
    ensures { from_entries marks.new.entries ≡ marked (from_entries marks.old.entries) (Some (drawn_by drawing.now)) }
{
    if let Some(held) = marks.get_mut(&drawing.surface) {
        add_drawing(held, drawing);
        return;
    }
    let mut rects = FewRects::new();
    add_drawing(&mut rects, drawing);
    // There is room for one more.
    let _ = marks.insert(drawing.surface, rects);
}
