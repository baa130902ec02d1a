//! The reply of a server ([MS-RDPEGFX] 2.2.2.17), written and read.

ghost use Rattle.std.specs.Prelude.{◌≡◌, ◌++◌, IfOk, OnOk, OnErr};
ghost use Rattle.std.specs.List.{flat_map};
ghost use Rattle.gfx_base.specs.Outcome.{Gives, WantsOnlyIf};
ghost use Rattle.gfx_layout.specs.Header.{refused};
ghost use Rattle.gfx_layout.specs.Reading.{read_whole};
ghost use Rattle.gfx_layout.specs.Shape.{text, number_alone, u16 as two_bytes};
ghost use Rattle.gfx_layout.specs.Writing.{Puts};
ghost use Rattle.gfx_import.specs.Messages.{import_reply, reply_of, reply_text, slots_of, taken_of, is_headed};

use crate::kept::Kept;
use crate::limits::{OFFER, REPLY};
use crate::offer::read_offer;
use crate::taking::count_taken;
use gfx_base::{Bytes, Cause, Fault, Items, NoMemory, Refusal};
use gfx_layout::{Fields, HEADER, Part, Stop, put_header, read_number, read_size};
use std::alloc::Global;

/// Slots, in the order of a reply.
pub type Slots = Items<u16>;

/// Puts so many slots at the end, from 1 on.
fn put_slots(out: &mut Bytes, count: u16) -> Result<(), NoMemory>
    ensures { Puts result out.old out.new (flat_map (text (number_alone two_bytes)) (slots_of count)) }
{
    'slots: for index in 0..count {
        (index + 1).put(out)?;
    }
    Ok(())
}

/// Puts the reply that announces so many entries at the end; where memory ends, a part of it may stand
/// there.
#[tactic(auto, unfolding(crate::specs::Messages::message_text))]
fn put_reply(out: &mut Bytes, count: u16) -> Result<(), NoMemory>
    ensures { Puts result out.old out.new (reply_text count) }
{
    put_header(out, REPLY, u16::SIZE + u16::SIZE * usize::from(count))?;
    count.put(out)?;
    put_slots(out, count)
}

/// Appends the reply that announces so many entries (RDPGFX_CACHE_IMPORT_REPLY_PDU), in slots from 1 on. Without
/// memory `out` stays as it was.
pub fn write_reply(count: u16, out: &mut Bytes) -> Result<(), NoMemory>
    ensures ok { OnOk result (out.new ≡ out.old ++ reply_text count) }
    ensures err { OnErr result (out.new ≡ out.old) }
{
    let start = out.len();
    if put_reply(out, count).is_err() {
        out.truncate(start);
        return Err(NoMemory);
    }
    Ok(())
}

/// Answers an offer: appends the reply (RDPGFX_CACHE_IMPORT_REPLY_PDU) with a slot for each of the first
/// entries of the offer that are taken, as `imported` says, and says how many they are.
///
/// Refusals are PduTruncated, PduLength, PduUnknown and CountMismatch, by the first of the checks of
/// `specs/Messages` that fails. With any fault `out` stays as it was. Memory is wanted only behind a header
/// that is accepted.
#[tactic(auto, unfolding(crate::specs::Messages::taken_of, gfx_base::specs::Results::and_then))]
pub fn reply(
    alloc: Global,
    server: &Kept,
    offer: &[u8],
    small: bool,
    out: &mut Bytes,
) -> Result<usize, Fault>
    ensures value { Gives (λ count. count) result (taken_of server.now offer.now small) }
    ensures ok { IfOk result (λ count. out.new ≡ out.old ++ reply_text count) }
    ensures err { OnErr result (out.new ≡ out.old) }
    ensures memory { WantsOnlyIf result (is_headed OFFER offer.now) }
{
    let offers = read_offer(alloc, offer)?;
    let count = count_taken(server, &offers, small);
    write_reply(count, out)?;
    Ok(usize::from(count))
}

/// Reads the body of a reply, as its layout says it.
#[tactic(auto, unfolding(gfx_layout::specs::Reading::read_whole, gfx_layout::specs::Reading::read, gfx_base::specs::Results::and_then))]
fn read_slots(alloc: Global, body: &[u8]) -> Result<Slots, Cause<Stop>>
    ensures { Gives (λ slots. slots) result (read_whole import_reply body.now) }
{
    let mut fields = Fields::new(body);
    let slots = fields.list(alloc)?;
    fields.end()?;
    Ok(slots)
}

/// Reads the body of a reply. One that doesn't end with its fields is CountMismatch.
fn read_body(alloc: Global, body: &[u8]) -> Result<Slots, Fault>
    ensures { Gives (λ slots. slots) result (refused (read_whole import_reply body.now)) }
{
    match read_slots(alloc, body) {
        Ok(slots) => Ok(slots),
        Err(Cause::Refused(Stop::Rule(refusal))) => Err(Fault::Refused(refusal)),
        Err(Cause::Refused(_)) => Err(Fault::Refused(Refusal::CountMismatch)),
        Err(Cause::Memory) => Err(Fault::Memory),
    }
}

/// Reads bytes that are a reply: the slots of the first entries of the offer, in its order, whatever slots
/// they are. Refusals are PduTruncated, PduLength, PduUnknown and CountMismatch, by the first of the checks of
/// `specs/Messages` that fails. Memory is wanted only behind a header that is accepted.
#[tactic(auto, unfolding(crate::specs::Messages::message_of, gfx_base::specs::Results::and_then))]
pub fn read_reply(alloc: Global, bytes: &[u8]) -> Result<Slots, Fault>
    ensures value { Gives (λ slots. slots) result (reply_of bytes.now) }
    ensures memory { WantsOnlyIf result (is_headed REPLY bytes.now) }
{
    let size = read_size(bytes)?;
    if read_number(bytes) != REPLY {
        return Err(Fault::Refused(Refusal::PduUnknown));
    }
    let (_, behind) = bytes.split_at(HEADER);
    let (body, _) = behind.split_at(size - HEADER);
    let slots = read_body(alloc, body)?;
    if size != bytes.len() {
        return Err(Fault::Refused(Refusal::CountMismatch));
    }
    Ok(slots)
}
