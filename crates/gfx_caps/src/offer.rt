//! What a client offers: versions of the profile, each with or without the small cache, and as a thin client or
//! not.

ghost use Rattle.std.specs.Prelude.{◌≡◌, ◌==◌, IfOk};
ghost use Rattle.std.specs.List.{find};
ghost use Rattle.gfx_caps.specs.Offers.{flags_offered, set_offered, advertised, small_of, thin_of, offers_version, offer_of, best_offer};

use crate::choice::{allows, binds_small};
use crate::message::ClientPdu;
use crate::sets::{CapsSet, CapsSets};
use crate::versions::{AVC_DISABLED, SMALL_CACHE, THIN_CLIENT, VERSION_8, VERSION_8_1, VERSION_10};
use gfx_base::{Bytes, Items, NoMemory};
use gfx_layout::Part;
use std::alloc::Global;

/// No client offers more versions: their count has 16 bits ([MS-RDPEGFX] 2.2.2.18,
/// RDPGFX_CAPS_ADVERTISE_PDU).
pub const MOST_OFFERS: usize = 65_535;

/// A version that a client offers ([MS-RDPEGFX] 2.2.1.6, RDPGFX_CAPSET).
#[derive(Clone, Copy, Debug, PartialEq, Eq)]
pub struct Offer {
    /// The version's number, as on the wire.
    pub version: u32,
    /// Whether the client asks for the small cache (SMALLCACHE).
    pub small: bool,
    /// Whether the client is thin (THINCLIENT): the small limits bind it too, and no version 10 is confirmed to it.
    pub thin: bool,
}

/// Offers, in the order of the message.
pub type Offers = Items<Offer>;

/// The message that offers these versions ([MS-RDPEGFX] 2.2.2.18). At most 65,535 of them can be written.
pub fn advertise(alloc: Global, offers: &[Offer]) -> Result<ClientPdu, NoMemory>
    ensures { IfOk result (λ pdu. pdu ≡ advertised offers.now) }
{
    let mut sets = CapsSets::new(alloc);
    'offers: for offer in offers {
        let set = set_offered(alloc, *offer)?;
        sets.push(set)?;
    }
    Ok(ClientPdu::Advertise { sets })
}

/// The capability set of an offer ([MS-RDPEGFX] 2.2.1.6).
#[tactic(auto, unfolding(gfx_layout::specs::Shape::text))]
fn set_offered(alloc: Global, offer: Offer) -> Result<CapsSet, NoMemory>
    ensures { IfOk result (λ set. set ≡ set_offered offer) }
{
    let version = offer.version;
    let mut body = Bytes::new(alloc);
    flags_offered(offer).put(&mut body)?;
    Ok(CapsSet { version, body })
}

/// The flags of an offer.
fn flags_offered(offer: Offer) -> u32
    ensures { result ≡ flags_offered offer }
{
    let small = if offer.small { SMALL_CACHE } else { 0 };
    let thin = if offer.thin { THIN_CLIENT } else { 0 };
    let no_avc = if offer.version == VERSION_10 {
        AVC_DISABLED
    } else {
        0
    };
    small + thin + no_avc
}

/// Whether the version that a server chooses of these offers binds the client to the small limits on bitmaps. It
/// takes no memory.
pub fn offers_small(offers: &[Offer]) -> bool
    ensures { result ≡ small_of offers.now }
{
    match best_offer(offers) {
        Some(offer) => binds_small(flags_offered(offer)),
        None => false,
    }
}

/// Whether the version that a server chooses of these offers is that of a thin client. It takes no memory.
pub fn offers_thin(offers: &[Offer]) -> bool
    ensures { result ≡ thin_of offers.now }
{
    match best_offer(offers) {
        Some(offer) => offer.thin,
        None => false,
    }
}

/// The first offer of the highest version.
#[tactic(auto, unfolding(crate::specs::Offers::best_offer))]
fn best_offer(offers: &[Offer]) -> Option<Offer>
    ensures { result ≡ best_offer offers.now }
{
    let newest = offer_of(offers, VERSION_10);
    if newest.is_some() {
        return newest;
    }
    let middle = offer_of(offers, VERSION_8_1);
    if middle.is_some() {
        return middle;
    }
    offer_of(offers, VERSION_8)
}

/// The first offer of a version.
fn offer_of(offers: &[Offer], version: u32) -> Option<Offer>
    ensures { result ≡ offer_of version offers.now }
{
    'offers: for offer in offers {
        if offers_version(*offer, version) {
            return Some(*offer);
        }
    }
    None
}

/// Whether an offer is of this version, and for a thin client only where the version allows it.
fn offers_version(offer: Offer, version: u32) -> bool
    ensures { result ≡ offers_version version offer }
{
    offer.version == version && allows(version, offer.thin)
}
