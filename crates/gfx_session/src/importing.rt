//! How the client of a session begins with kept bitmaps.
ghost use Rattle.std.specs.Prelude.{◌≡◌, ◌++◌, ℕ, true, [], is_ok, Ok, OnOk};
ghost use Rattle.gfx_bitmap_cache.specs.Slots.{Cached};
ghost use Rattle.gfx_client.specs.Client.{offers_of, IsUntouched};
ghost use Rattle.gfx_client.specs.Standing.{StandsFrom, IsDrained};
ghost use Rattle.gfx_import.specs.Messages.{reply_text, taken_of};
ghost use Rattle.gfx_import.specs.Started.{in_slots, own, cache_by};
ghost use Rattle.gfx_state.specs.State.{started_with};

use gfx_base::{Bytes, Fault, NoMemory};
use gfx_client::Client;
use gfx_import::{Kept, reply, write_offer};
use std::alloc::Global;

/// The client offers what it kept, the server answers by what it kept, and the client begins with its own bitmaps of the
/// keys that both have ([MS-RDPEGFX] 3.2.5.13).
pub(crate) fn import_kept(
    alloc: Global,
    client: &mut Client,
    server: &Kept,
    kept: &Kept,
    small: bool,
) -> Result<(), NoMemory>
    requires { IsUntouched client.old }
    ensures stands { OnOk result (StandsFrom (started_with (in_slots (own server.now kept.now small)) small) client.new []) }
    ensures drained { OnOk result (IsDrained client.new) }
    ensures offers { offers_of client.new ≡ offers_of client.old }
{
    let mut offer = Bytes::new(alloc);
    write_offer(kept, &mut offer)?;
    let mut answer = Bytes::new(alloc);
    answer_offer(alloc, server, offer.as_slice(), small, &mut answer)?;
    take_answer(client, kept, answer.as_slice(), small)
}

/// The server's reply to an offer that it will not refuse.
fn answer_offer(
    alloc: Global,
    server: &Kept,
    offer: &[u8],
    small: bool,
    out: &mut Bytes,
) -> Result<(), NoMemory>
    requires { is_ok (taken_of server.now offer.now small) ≡ true }
    ensures { OnOk result ((count : ℕ) → taken_of server.now offer.now small ≡ Ok count → out.new ≡ out.old ++ reply_text count) }
{
    match reply(alloc, server, offer, small, out) {
        Ok(_) => Ok(()),
        Err(Fault::Memory) => Err(NoMemory),
        Err(Fault::Refused(_)) => unreachable!(),
    }
}

/// A client that has taken nothing takes a reply that it will not refuse.
fn take_answer(client: &mut Client, kept: &Kept, answer: &[u8], small: bool) -> Result<(), NoMemory>
    requires untouched { IsUntouched client.old }
    requires accepted { is_ok (cache_by kept.now answer.now small) ≡ true }
    ensures stands { OnOk result ((c : Cached) → cache_by kept.now answer.now small ≡ Ok c → StandsFrom (started_with c.slots c.small) client.new []) }
    ensures drained { OnOk result (IsDrained client.new) }
    ensures offers { offers_of client.new ≡ offers_of client.old }
{
    match client.import(kept, answer, small) {
        Ok(()) => Ok(()),
        Err(Fault::Memory) => Err(NoMemory),
        Err(Fault::Refused(_)) => unreachable!(),
    }
}
