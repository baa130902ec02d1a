//! Both rings of a ClearCodec decoder.
ghost use Rattle.std.specs.Prelude.{◌≡◌, ◌<◌, ◌≤◌, ℕ, length, None, IfOk, IfSome, IsOk};
ghost use Rattle.std.specs.Option.{option_map};
ghost use Rattle.gfx_clear_store.specs.Rings.{AreRings, no_rings, slot_at, least_place, with_bar, with_short, from_start, with_mark};

use crate::ring::Ring;
use gfx_base::{NoMemory, Rgb};
use std::alloc::Global;
use std::marker::Model;

/// The bars that are held at most.
pub const BARS: u16 = 32768;

/// The shorts that are held at most.
pub const SHORTS: u16 = 16384;

/// The most pixels of a bar.
pub const MOST_BAR: usize = 52;

/// The most pixels of a short.
pub const MOST_SHORT: usize = 63;

/// The bars and the shorts that were written last. Contracts see both rings, as they are and as they were
/// at the mark.
#[derive(Drop)]
pub struct Store {
    bars: Ring<BARS, MOST_BAR>,
    shorts: Ring<SHORTS, MOST_SHORT>,
}

impl Model for Store {
    ghost use Rattle.gfx_clear_store.specs.Rings.{Rings, Marked};

    ghost Value = { Marked Rings };

    ghost use Rattle.gfx_clear_store.specs.StoreInside.{store_of};

    ghost view = { store_of };
}

impl Store {
    /// A store to which nothing was ever written, marked. It takes all the room that it will need.
    pub fn new(alloc: Global) -> Result<Store, NoMemory>
        ensures { IfOk result (λ store. store ≡ with_mark no_rings no_rings) }
    {
        let bars = Ring::new(alloc)?;
        let shorts = Ring::new(alloc)?;
        Ok(Store { bars, shorts })
    }

    /// The bar at a place, if one was ever written there.
    pub fn bar(&self, place: u16) -> Option<&[Rgb]>
        requires { place < BARS }
        ensures { option_map (λ pixels. pixels.now) result ≡ slot_at self.now.held.bars place }
    {
        self.bars.get(place)
    }

    /// The short at a place, if one was ever written there.
    pub fn short(&self, place: u16) -> Option<&[Rgb]>
        requires { place < SHORTS }
        ensures { option_map (λ pixels. pixels.now) result ≡ slot_at self.now.held.shorts place }
    {
        self.shorts.get(place)
    }

    /// Writes a bar at the cursor of the bars, which goes on. It takes no memory, so it never fails.
    pub fn add_bar(&mut self, pixels: &[Rgb]) -> Result<(), NoMemory>
        requires { length pixels.now ≤ MOST_BAR }
        ensures store { self.new ≡ with_mark (with_bar pixels.now self.old.held) self.old.marked }
        ensures ok { IsOk result }
    {
        self.bars.add(pixels);
        Ok(())
    }

    /// Writes a short at the cursor of the shorts, which goes on. It takes no memory, so it never fails.
    pub fn add_short(&mut self, pixels: &[Rgb]) -> Result<(), NoMemory>
        requires { length pixels.now ≤ MOST_SHORT }
        ensures store { self.new ≡ with_mark (with_short pixels.now self.old.held) self.old.marked }
        ensures ok { IsOk result }
    {
        self.shorts.add(pixels);
        Ok(())
    }

    /// Sees to it that bars and shorts are found by an index, until the cursors are reset or the mark is gone
    /// back to. It takes no memory, and what was prepared already costs nothing.
    pub fn prepare(&mut self)
        ensures { self.new ≡ self.old }
    {
        self.bars.prepare();
        self.shorts.prepare();
    }

    /// The least place with this bar, if there is one.
    pub fn find_bar(&self, pixels: &[Rgb]) -> Option<u16>
        ensures least { result ≡ least_place pixels.now self.now.held.bars }
        ensures within { IfSome result (λ place. place < BARS) }
    {
        self.bars.find(pixels)
    }

    /// The least place with this short, if there is one.
    pub fn find_short(&self, pixels: &[Rgb]) -> Option<u16>
        ensures least { result ≡ least_place pixels.now self.now.held.shorts }
        ensures within { IfSome result (λ place. place < SHORTS) }
    {
        self.shorts.find(pixels)
    }

    /// Both rings are written from their first places on. What stands there stays.
    pub fn reset_cursors(&mut self)
        ensures { self.new ≡ with_mark (from_start self.old.held) self.old.marked }
    {
        self.bars.reset_cursor();
        self.shorts.reset_cursor();
    }

    /// The places of the bars and of the shorts that are written next.
    pub fn cursors(&self) -> (u16, u16)
        ensures bars { result.0 ≡ self.now.held.bars.cursor }
        ensures shorts { result.1 ≡ self.now.held.shorts.cursor }
        ensures held { AreRings self.now.held }
        ensures marked { AreRings self.now.marked }
    {
        (self.bars.cursor(), self.shorts.cursor())
    }

    /// The places of the bars and of the shorts from which on nothing was ever written.
    pub fn written(&self) -> (u16, u16)
        ensures bars { (place : ℕ) → result.0 ≤ place → slot_at self.now.held.bars place ≡ None }
        ensures shorts { (place : ℕ) → result.1 ≤ place → slot_at self.now.held.shorts place ≡ None }
        ensures bars_within { result.0 ≤ BARS }
        ensures shorts_within { result.1 ≤ SHORTS }
    {
        (self.bars.written(), self.shorts.written())
    }

    /// Notes the present state.
    pub fn mark(&mut self)
        ensures { self.new ≡ with_mark self.old.held self.old.held }
    {
        self.bars.mark();
        self.shorts.mark();
    }

    /// Goes back to the state that was noted last.
    pub fn roll_back(&mut self)
        ensures { self.new ≡ with_mark self.old.marked self.old.marked }
    {
        self.bars.roll_back();
        self.shorts.roll_back();
    }
}
