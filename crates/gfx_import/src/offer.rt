//! The offer of a client ([MS-RDPEGFX] 2.2.2.16), written and read.

ghost use Rattle.std.specs.Prelude.{◌≡◌, ◌++◌, ◌*◌, ◌≤◌, OnOk, OnErr};
ghost use Rattle.std.specs.List.{flat_map};
ghost use Rattle.gfx_base.specs.Outcome.{Gives, WantsOnlyIf};
ghost use Rattle.gfx_layout.specs.Reading.{read_whole};
ghost use Rattle.gfx_layout.specs.Shape.{text};
ghost use Rattle.gfx_layout.specs.Writing.{Puts};
ghost use Rattle.gfx_layout.specs.Header.{refused};
ghost use Rattle.gfx_bitmap_cache.specs.Slots.{entry, image_of};
ghost use Rattle.gfx_caps.specs.Entries.{cache_entry};
ghost use Rattle.gfx_import.specs.Entries.{IsKept};
ghost use Rattle.gfx_import.specs.Offered.{offered_of, offers_of};
ghost use Rattle.gfx_import.specs.Messages.{import_offer, offer_of, offer_text, is_headed};

use crate::kept::Kept;
use crate::limits::{MOST_PIXELS, OFFER};
use gfx_base::{Bitmap, Bytes, Cause, Fault, Items, NoMemory, Refusal};
use gfx_bitmap_cache::bytes_for;
use gfx_caps::CacheEntry;
use gfx_layout::{Fields, HEADER, Part, Stop, put_header, read_number, read_size};
use std::alloc::Global;

/// What is offered of a bitmap under a key.
pub(crate) fn offered_of(key: u64, bitmap: &Bitmap) -> CacheEntry
    requires { bitmap.now.width * bitmap.now.height ≤ MOST_PIXELS }
    ensures { result ≡ offered_of (entry key (image_of bitmap.now)) }
{
    CacheEntry {
        key,
        length: bytes_for(bitmap.width, bitmap.height) as u32,
    }
}

/// Puts what is offered at the end, one after the other.
fn put_offers(out: &mut Bytes, kept: &Kept) -> Result<(), NoMemory>
    ensures { Puts result out.old out.new (flat_map (text cache_entry) (offers_of kept.now)) }
{
    let mut place = 0;
    'entries: while let Some((key, bitmap)) = kept.at(place) {
        offered_of(key, bitmap).put(out)?;
        place += 1;
    }
    Ok(())
}

/// Puts the offer at the end; where memory ends, a part of it may stand there.
#[tactic(auto, unfolding(crate::specs::Messages::message_text))]
fn put_offer(out: &mut Bytes, kept: &Kept) -> Result<(), NoMemory>
    ensures puts { Puts result out.old out.new (offer_text (offers_of kept.now)) }
    ensures kept { IsKept kept.now }
{
    let count = kept.len();
    put_header(out, OFFER, u16::SIZE + CacheEntry::SIZE * count)?;
    (count as u16).put(out)?;
    put_offers(out, kept)
}

/// Appends the message that offers all that is kept (RDPGFX_CACHE_IMPORT_OFFER_PDU), each bitmap by its key
/// and its length in bytes. Without memory `out` stays as it was.
pub fn write_offer(kept: &Kept, out: &mut Bytes) -> Result<(), NoMemory>
    ensures ok { OnOk result (out.new ≡ out.old ++ offer_text (offers_of kept.now)) }
    ensures err { OnErr result (out.new ≡ out.old) }
    ensures kept { IsKept kept.now }
{
    let start = out.len();
    if put_offer(out, kept).is_err() {
        out.truncate(start);
        return Err(NoMemory);
    }
    Ok(())
}

/// Reads the body of an offer.
#[tactic(auto, unfolding(gfx_layout::specs::Reading::read_whole, gfx_layout::specs::Reading::read, gfx_base::specs::Results::and_then))]
fn read_offers(alloc: Global, body: &[u8]) -> Result<Items<CacheEntry>, Cause<Stop>>
    ensures { Gives (λ offers. offers) result (read_whole import_offer body.now) }
{
    let mut fields = Fields::new(body);
    let offers = fields.list(alloc)?;
    fields.end()?;
    Ok(offers)
}

/// Reads the body of an offer. One that doesn't end with its fields is CountMismatch.
fn read_body(alloc: Global, body: &[u8]) -> Result<Items<CacheEntry>, Fault>
    ensures { Gives (λ offers. offers) result (refused (read_whole import_offer body.now)) }
{
    match read_offers(alloc, body) {
        Ok(offers) => Ok(offers),
        Err(Cause::Refused(Stop::Rule(refusal))) => Err(Fault::Refused(refusal)),
        Err(Cause::Refused(_)) => Err(Fault::Refused(Refusal::CountMismatch)),
        Err(Cause::Memory) => Err(Fault::Memory),
    }
}

/// Reads bytes that are an offer. Refusals are PduTruncated, PduLength, PduUnknown and CountMismatch, by the
/// first of the checks of `specs/Messages` that fails. Memory is wanted only behind a header that is accepted.
#[tactic(auto, unfolding(crate::specs::Messages::message_of, gfx_base::specs::Results::and_then))]
pub(crate) fn read_offer(alloc: Global, bytes: &[u8]) -> Result<Items<CacheEntry>, Fault>
    ensures value { Gives (λ offers. offers) result (offer_of bytes.now) }
    ensures memory { WantsOnlyIf result (is_headed OFFER bytes.now) }
{
    let size = read_size(bytes)?;
    if read_number(bytes) != OFFER {
        return Err(Fault::Refused(Refusal::PduUnknown));
    }
    let (_, behind) = bytes.split_at(HEADER);
    let (body, _) = behind.split_at(size - HEADER);
    let offers = read_body(alloc, body)?;
    if size != bytes.len() {
        return Err(Fault::Refused(Refusal::CountMismatch));
    }
    Ok(offers)
}
