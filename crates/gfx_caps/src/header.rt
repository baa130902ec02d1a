//! The header of a client's message.
ghost use Rattle.std.specs.Prelude.{◌≡◌, ◌+◌, ◌≤◌, ◌<◌, ◌^◌, length};
ghost use Rattle.gfx_layout.specs.Header.{header, no_flags};
ghost use Rattle.gfx_layout.specs.Writing.{Puts};
ghost use Rattle.gfx_caps.specs.ClientId.{number_of};
ghost use Rattle.gfx_caps.specs.Reading.{kind_of};

use crate::client_id::ClientId;
use gfx_base::{Bytes, NoMemory, Refusal};
use gfx_layout::read_number;

/// Which message a header announces.
#[tactic(auto, unfolding(gfx_layout::specs::Header::kind_by))]
pub(crate) fn read_kind(bytes: &[u8]) -> Result<ClientId, Refusal>
    requires { 8 ≤ length bytes.now }
    ensures { result ≡ kind_of bytes.now }
{
    ClientId::from_number(read_number(bytes)).ok_or(Refusal::PduUnknown)
}

/// Puts the header of a message at the end whose body has so many bytes.
pub(crate) fn put_header(out: &mut Bytes, id: ClientId, body: usize) -> Result<(), NoMemory>
    requires { 8 + body < 2 ^ 32 }
    ensures { Puts result out.old out.new (header (number_of id) no_flags (8 + body)) }
{
    gfx_layout::put_header(out, id.number(), body)
}
