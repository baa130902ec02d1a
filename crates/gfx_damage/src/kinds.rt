//! What the id of a message says of it.
ghost use Rattle.std.specs.Prelude.{◌≡◌};
ghost use Rattle.gfx_pdu.specs.declared.pdu.Pdu.{Pdu};
ghost use Rattle.gfx_pdu.specs.Spelling.{id_of};
ghost use Rattle.gfx_state.specs.Written.{changes_all};
ghost use Rattle.gfx_damage.specs.Damage.{ends_frame};

use gfx_pdu::Id;

/// Whether anything may show after a message of this id.
pub(crate) fn changes_all(id: Id) -> bool
    ensures { (pdu : Pdu) → id ≡ id_of pdu → result ≡ changes_all pdu }
{
    match id {
        Id::CreateSurface | Id::DeleteSurface | Id::ResetGraphics | Id::MapSurfaceToOutput => true,
        _ => false,
    }
}

/// Whether a message of this id ends a frame.
pub(crate) fn ends_frame(id: Id) -> bool
    ensures { (pdu : Pdu) → id ≡ id_of pdu → result ≡ ends_frame pdu }
{
    match id {
        Id::EndFrame => true,
        _ => false,
    }
}
