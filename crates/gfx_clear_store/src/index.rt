//! The links by which a ring finds the places of given pixels.
ghost use Rattle.gfx_clear_store.specs.Home.{home_of};
ghost use Rattle.gfx_clear_store.specs.Index.{rank};
ghost use Rattle.std.specs.Prelude.{◌≡◌, ℕ, ◌<◌, ◌≤◌, length, replicate, slice_set, slice_index_or, IfOk, true, false};

use crate::home::home_of;
use gfx_base::{NoMemory, Rgb};
use std::alloc::Global;

/// For each home the place that was written last there, and for each place the one of its home that was
/// written before it. Links may be stale, or lead nowhere.
#[derive(Drop)]
pub(crate) struct Index {
    pub(crate) latest: Vec<u16>,
    pub(crate) earlier: Vec<u16>,
    /// Whether each place that is written is entered.
    pub(crate) ready: bool,
}

/// A link that leads nowhere.
const NOWHERE: u16 = u16::MAX;

impl Index {
    /// No links. It takes all the room that it will need.
    pub(crate) fn new(alloc: Global, count: u16) -> Result<Index, NoMemory>
        ensures latest { IfOk result (λ index. length index.latest.items ≡ count) }
        ensures earlier { IfOk result (λ index. length index.earlier.items ≡ count) }
        ensures ready { IfOk result (λ index. index.ready ≡ false) }
    {
        let latest = vec![in alloc; NOWHERE; usize::from(count)]?;
        let earlier = vec![in alloc; NOWHERE; usize::from(count)]?;
        Ok(Index {
            latest,
            earlier,
            ready: false,
        })
    }

    /// Enters a place that is written now with these pixels, where places are entered.
    #[inline(always)]
    pub(crate) fn note(&mut self, count: u16, place: u16, pixels: &[Rgb])
        requires place { place < count }
        requires latest { length self.old.latest.items ≡ count }
        requires earlier { length self.old.earlier.items ≡ count }
        ensures latest { self.old.ready ≡ true → self.new.latest.items ≡ slice_set self.old.latest.items (home_of count pixels.now) place }
        ensures earlier { self.old.ready ≡ true
            → self.new.earlier.items ≡ slice_set self.old.earlier.items place (slice_index_or self.old.latest.items (home_of count pixels.now) 0) }
        ensures homes { length self.new.latest.items ≡ count }
        ensures places { length self.new.earlier.items ≡ count }
        ensures ready { self.new.ready ≡ self.old.ready }
    {
        if self.ready {
            self.enter(home_of(count, pixels), place);
        }
    }

    /// Enters a place that is written now.
    #[inline(always)]
    pub(crate) fn enter(&mut self, home: u16, place: u16)
        requires home { home < length self.old.latest.items }
        requires place { place < length self.old.earlier.items }
        ensures latest { self.new.latest.items ≡ slice_set self.old.latest.items home place }
        ensures earlier { self.new.earlier.items ≡ slice_set self.old.earlier.items place (slice_index_or self.old.latest.items home 0) }
        ensures ready { self.new.ready ≡ self.old.ready }
    {
        self.earlier[usize::from(place)] = self.latest[usize::from(home)];
        self.latest[usize::from(home)] = place;
    }

    /// Lets go of all links.
    pub(crate) fn clear(&mut self)
        ensures latest { length self.new.latest.items ≡ length self.old.latest.items }
        ensures earlier { length self.new.earlier.items ≡ length self.old.earlier.items }
    {
        self.latest.fill(NOWHERE);
        self.ready = false;
    }

    /// The place to which a place's link leads, if that was written before it, else this number of places.
    #[inline(always)]
    pub(crate) fn before(&self, count: u16, cursor: u16, place: u16) -> u16
        requires count { count ≤ 32768 }
        requires place { place < count }
        requires earlier { length self.now.earlier.items ≡ count }
        ensures older { result < count → rank count cursor result < rank count cursor place }
        ensures link { (link : ℕ) → link ≡ slice_index_or self.now.earlier.items place 0 → link < count
            → rank count cursor link < rank count cursor place → result ≡ link }
    {
        let link = self.earlier[usize::from(place)];
        if link >= count {
            return count;
        }
        if rank(count, cursor, link) < rank(count, cursor, place) {
            link
        } else {
            count
        }
    }
}

/// The order in which a place was written, in a ring of so many that is written at the cursor next.
#[inline(always)]
fn rank(count: u16, cursor: u16, place: u16) -> u16
    requires count { count ≤ 32768 }
    requires place { place < count }
    ensures { result ≡ rank count cursor place }
{
    if place < cursor { place + count } else { place }
}
