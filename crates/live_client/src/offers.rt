//! The versions that a client offers.

ghost use Rattle.std.specs.Prelude.{◌≤◌, length, IfOk};

use crate::answers::{BodyFault, Wrong};
use gfx_base::NoMemory;
use gfx_caps::{VERSION_8, VERSION_8_1, VERSION_10};
use gfx_client::{MOST_OFFERS, Offer, Offers};
use gfx_layout::Fields;
use std::alloc::Global;

/// The most versions in a record.
const MOST_VERSIONS: usize = 16;

/// How many bytes one takes.
const VERSION_SIZE: usize = 6;

/// The usual ones: each that this client speaks, with the large cache and not as a thin client.
pub fn usual_offers(alloc: Global) -> Result<Offers, NoMemory>
    ensures { IfOk result (λ offers. length offers ≤ MOST_OFFERS) }
{
    let mut offers = Offers::new(alloc);
    'versions: for version in [VERSION_8, VERSION_8_1, VERSION_10] {
        offers.push(Offer {
            version,
            small: false,
            thin: false,
        })?;
    }
    if offers.len() > MOST_OFFERS {
        return Err(NoMemory);
    }
    Ok(offers)
}

/// Reads the versions in a body: Key where it ends within one, and Range where one is none of this client's, or where
/// there are none or more than 16.
pub fn read_offers(alloc: Global, body: &[u8]) -> Result<Offers, BodyFault>
    ensures { IfOk result (λ offers. length offers ≤ MOST_OFFERS) }
{
    let mut offers = Offers::new(alloc);
    let mut fields = Fields::new(body);
    'versions: for _ in 0..body.len() / VERSION_SIZE {
        offers.push(read_offer(&mut fields)?)?;
    }
    fields.end()?;
    if offers.is_empty() || offers.len() > MOST_VERSIONS {
        return Err(BodyFault::Wrong(Wrong::Range));
    }
    Ok(offers)
}

fn read_offer(fields: &mut Fields<'_>) -> Result<Offer, BodyFault> {
    let version = fields.u32()?;
    let small = flag_of(fields.u8()?)?;
    let thin = flag_of(fields.u8()?)?;
    if !takes(version, thin) {
        return Err(BodyFault::Wrong(Wrong::Range));
    }
    Ok(Offer {
        version,
        small,
        thin,
    })
}

/// Whether it is a version of this client; 10 knows no thin clients ([MS-RDPEGFX] 2.2.3.3).
fn takes(version: u32, thin: bool) -> bool {
    match version {
        VERSION_8 | VERSION_8_1 => true,
        VERSION_10 => !thin,
        _ => false,
    }
}

fn flag_of(byte: u8) -> Result<bool, BodyFault> {
    match byte {
        0 => Ok(false),
        1 => Ok(true),
        _ => Err(BodyFault::Wrong(Wrong::Range)),
    }
}
