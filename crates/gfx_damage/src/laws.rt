ghost use Rattle.std.specs.Prelude.{List};
ghost use Rattle.gfx_base.specs.declared.geometry.Rect.{Rect};
ghost use Rattle.gfx_pdu.specs.declared.pdu.Pdu.{Pdu};
ghost use Rattle.gfx_state.specs.State.{State};
ghost use Rattle.gfx_damage.specs.Damage.{Damage, Notes};
ghost use Rattle.gfx_damage.specs.Marks.{Keeps};

/// A law: what a message writes is put to the rectangles of its surface alone; these are exactly those that were written
/// as long as they are no more than are kept, and else no pixel of them is left out.
pub fn damage_covers_what_is_written()
    ensures notes { (before : Damage) (state : State) (pdu : Pdu) → Notes before state pdu }
    ensures keeps { (rects more : List Rect) → Keeps rects more }
{}
