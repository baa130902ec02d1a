//! The versions that a client offers, as many as one message has room for.
ghost use Rattle.std.specs.Prelude.{◌≡◌, ◌≤◌, length, IfOk};
ghost use Rattle.gfx_client.specs.Replies.{hello};

use crate::replies::sent_alone;
use gfx_base::{Bytes, NoMemory};
use gfx_caps::{MOST_OFFERS, Offers, advertise};
use std::alloc::Global;
use std::marker::Model;

/// Offers that fit in one message. Contracts see the list.
#[derive(Drop)]
pub struct Offered {
    offers: Offers,
}

impl Model for Offered {
    ghost use Rattle.std.specs.Prelude.{List, length, ◌≤◌};
    ghost use Rattle.gfx_caps.specs.declared.offer.Offer.{Offer};
    ghost use Rattle.gfx_caps.specs.declared.offer.TheConstants.{MOST_OFFERS};

    ghost Value = { List Offer };

    ghost view = { λ o. o.offers };

    ghost invariant = { λ o. length o.offers ≤ MOST_OFFERS };
}

impl Offered {
    /// These offers.
    pub fn new(offers: Offers) -> Offered
        requires { length offers ≤ MOST_OFFERS }
        ensures { result ≡ offers }
    {
        Offered { offers }
    }

    /// What a client says first, as it is sent.
    pub fn hello(&self, alloc: Global) -> Result<Bytes, NoMemory>
        ensures { IfOk result (λ bytes. bytes ≡ hello self.now) }
    {
        let message = advertise(alloc, self.offers.as_slice())?;
        sent_alone(alloc, &message)
    }
}
