//! The client's messages, put at the end part after part.
#![tactic(auto, unfolding(crate::specs::Spelling::spelling, crate::specs::Spelling::size))]

ghost use Rattle.std.specs.Prelude.{◌≡◌, ◌<◌, ◌^◌, ◌++◌};
ghost use Rattle.std.specs.List.{flat_map, sum_by};
ghost use Rattle.gfx_layout.specs.Writing.{Puts};
ghost use Rattle.gfx_caps.specs.declared.message.ClientPdu.TheVariants as pdus;
ghost use Rattle.gfx_caps.specs.Spelling.{spelling, IsSpellable, set_text, set_size};

use crate::client_id::ClientId;
use crate::entries::{CacheEntries, CacheEntry};
use crate::header::put_header;
use crate::sets::{CapsSet, CapsSets};
use gfx_base::{Bytes, NoMemory};
use gfx_layout::{Part, put_list, put_sized};

/// Puts RDPGFX_FRAME_ACKNOWLEDGE_PDU at the end.
pub(crate) fn put_frame_acknowledge(
    out: &mut Bytes,
    depth: u32,
    frame: u32,
    total: u32,
) -> Result<(), NoMemory>
    ensures { Puts result out.old out.new (spelling (pdus.Ack depth frame total)) }
{
    put_header(out, ClientId::FrameAcknowledge, 3 * u32::SIZE)?;
    depth.put(out)?;
    frame.put(out)?;
    total.put(out)
}

/// Puts RDPGFX_CACHE_IMPORT_OFFER_PDU at the end.
pub(crate) fn put_import_offer(out: &mut Bytes, entries: &CacheEntries) -> Result<(), NoMemory>
    requires { IsSpellable (pdus.ImportOffer entries.now) }
    ensures { Puts result out.old out.new (spelling (pdus.ImportOffer entries.now)) }
{
    let offered = entries.as_slice();
    put_header(
        out,
        ClientId::CacheImportOffer,
        u16::SIZE + offered.len() * CacheEntry::SIZE,
    )?;
    put_list(out, offered)
}

/// Puts RDPGFX_QOE_FRAME_ACKNOWLEDGE_PDU at the end.
pub(crate) fn put_qoe_frame_acknowledge(
    out: &mut Bytes,
    frame: u32,
    timestamp: u32,
    decoding: u16,
    rendering: u16,
) -> Result<(), NoMemory>
    ensures { Puts result out.old out.new (spelling (pdus.QoeAck frame timestamp decoding rendering)) }
{
    put_header(
        out,
        ClientId::QoeFrameAcknowledge,
        2 * u32::SIZE + 2 * u16::SIZE,
    )?;
    frame.put(out)?;
    timestamp.put(out)?;
    decoding.put(out)?;
    rendering.put(out)
}

/// Puts RDPGFX_CAPS_ADVERTISE_PDU at the end.
pub(crate) fn put_caps_advertise(out: &mut Bytes, sets: &CapsSets) -> Result<(), NoMemory>
    requires { IsSpellable (pdus.Advertise sets.now) }
    ensures { Puts result out.old out.new (spelling (pdus.Advertise sets.now)) }
{
    let offered = sets.as_slice();
    let size = sets_size(offered);
    put_header(out, ClientId::CapsAdvertise, u16::SIZE + size)?;
    (offered.len() as u16).put(out)?;
    put_sets(out, offered)
}

/// How many bytes these sets have together.
#[tactic(auto)]
fn sets_size(sets: &[CapsSet]) -> usize
    requires { sum_by set_size sets.now < 2 ^ 32 }
    ensures { result ≡ sum_by set_size sets.now }
{
    let mut size = 0;
    'sets: for set in sets {
        size += SET_HEADER + set.body.len();
    }
    size
}

/// How many bytes of a set stand before its body: version and length.
const SET_HEADER: usize = 2 * u32::SIZE;

/// Puts capability sets at the end, one after the other.
#[tactic(auto)]
fn put_sets(out: &mut Bytes, sets: &[CapsSet]) -> Result<(), NoMemory>
    requires { sum_by set_size sets.now < 2 ^ 32 }
    ensures { Puts result out.old out.new (flat_map set_text sets.now) }
{
    'sets: for set in sets {
        put_set(out, set)?;
    }
    Ok(())
}

/// Puts a capability set ([MS-RDPEGFX] 2.2.1.6) at the end.
fn put_set(out: &mut Bytes, set: &CapsSet) -> Result<(), NoMemory>
    requires { set_size set.now < 2 ^ 32 }
    ensures { Puts result out.old out.new (set_text set.now) }
{
    set.version.put(out)?;
    put_sized(out, set.body.as_slice())
}
