//! A chooser by size.
ghost use Rattle.std.specs.Prelude.{◌≡◌, false, Some};
ghost use Rattle.gfx_estimate.specs.BySize.{kind_by, least_of, lesser, is_dear};
ghost use Rattle.gfx_estimate.specs.Sizes.{sizes_of};

use crate::sizes::{Sizes, estimate};
use gfx_chooser::{Chooser, Facts};
use gfx_script::Kind;

/// A picture goes as the kind that costs least of those that lose nothing. Where that takes more than a share of the
/// bytes of its pixels, and a first pass takes fewer, it goes in passes. It is never spent.
#[derive(Clone, Copy, Debug, PartialEq, Eq)]
pub struct BySize {
    /// In hundredths of the uncompressed pixels. From 100 on, no picture goes in passes.
    pub share: u8,
}

impl Chooser for BySize {
    ghost reply = { λ chooser before facts. Some (kind_by chooser.share (sizes_of facts.picture)) };

    ghost is_spent = { λ chooser before. false };

    fn choose(&mut self, facts: &Facts<'_>) -> Option<Kind> {
        Some(kind_by(self.share, &estimate(facts.picture.get())))
    }

    fn spent(&self) -> bool {
        false
    }
}

/// A kind, and what a picture costs by it.
#[derive(Clone, Copy)]
pub(crate) struct Offer {
    pub(crate) kind: Kind,
    pub(crate) size: u64,
}

/// The kind of least size, or passes where that is dear.
#[tactic(auto, unfolding(crate::specs::BySize::kind_by))]
fn kind_by(share: u8, sizes: &Sizes) -> Kind
    ensures { result ≡ kind_by share sizes.now }
{
    let least = least_of(sizes);
    if is_dear(share, sizes, least) {
        Kind::Progressive
    } else {
        least.kind
    }
}

/// The kind of least size of those that lose nothing.
fn least_of(sizes: &Sizes) -> Offer
    ensures { result ≡ least_of sizes.now }
{
    let residual = Offer {
        kind: Kind::Residual,
        size: sizes.residual,
    };
    let palette = Offer {
        kind: Kind::Palette,
        size: sizes.palette,
    };
    let bands = Offer {
        kind: Kind::Bands,
        size: sizes.bands,
    };
    let plain = Offer {
        kind: Kind::Plain,
        size: sizes.plain,
    };
    let raw = Offer {
        kind: Kind::Raw,
        size: sizes.raw,
    };
    lesser(lesser(lesser(lesser(residual, palette), bands), plain), raw)
}

/// Of two the one that costs less, or the first.
fn lesser(one: Offer, other: Offer) -> Offer
    ensures { result ≡ lesser one other }
{
    if other.size < one.size { other } else { one }
}

/// Whether what costs least takes more than so many hundredths of the pixels uncompressed, and more than a first pass.
fn is_dear(share: u8, sizes: &Sizes, least: Offer) -> bool
    ensures { result ≡ is_dear share sizes.now least }
{
    let most = u128::from(share) * u128::from(sizes.raw);
    most < 100 * u128::from(least.size) && sizes.passes < least.size
}
