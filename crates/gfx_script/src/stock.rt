//! The bitmaps that the steps so far keep, as far as later ones are checked against them.

ghost use Rattle.std.specs.Prelude.{◌≡◌, IfOk, OnErr};
ghost use Rattle.gfx_script.specs.Stock.{no_bitmaps, bitmap_kept, bitmap_sides, bitmap_shown, bitmap_forgotten};
ghost use Rattle.gfx_script.specs.Starting.{IsStart, stock_with};
ghost use Rattle.gfx_base.specs.Outcome.{Gives, Says};

use crate::error::{Flaw, ScriptKind};
use crate::held::Sides;
use crate::start::StartBitmap;
use gfx_base::{Fault, NoMemory};
use gfx_slot_plan::SlotPlan;
use indexmap::IndexMap;
use std::alloc::Global;
use std::marker::Model;

/// Which key has which slot, and the sides of the last bitmap of each slot.
#[derive(Drop)]
pub struct Stock {
    plan: SlotPlan,
    sides: IndexMap<u16, Sides>,
}

impl Model for Stock {
    ghost use Rattle.gfx_script.specs.Stock.{Stock};
    ghost use Rattle.gfx_script.specs.Codes.{stock_code};

    ghost Value = { Stock };

    ghost coded = { stock_code };

    ghost use Rattle.gfx_script.specs.Inside.{stock_of};

    ghost view = { stock_of };
}

impl Stock {
    /// No bitmaps, under the small limits or the large ones.
    pub fn new(alloc: Global, small: bool) -> Result<Stock, NoMemory>
        ensures { IfOk result (λ stock. stock ≡ no_bitmaps small) }
    {
        let plan = SlotPlan::new(alloc, small)?;
        Ok(Stock {
            plan,
            sides: IndexMap::new(alloc),
        })
    }

    /// These bitmaps, in slots 1, 2 and so on; the last is the most recently used.
    pub fn with_bitmaps(
        alloc: Global,
        small: bool,
        start: &[StartBitmap],
    ) -> Result<Stock, NoMemory>
        requires { IsStart start.now small }
        ensures { IfOk result (λ stock. stock ≡ stock_with start.now small) }
    {
        let mut stock = Stock::new(alloc, small)?;
        'bitmaps: for one in start {
            match stock.keep(alloc, one.key, one.sides.width, one.sides.height) {
                Ok(()) => {}
                Err(Flaw::Memory) => return Err(NoMemory),
                Err(Flaw::Refused(_)) => unreachable!(),
            }
        }
        Ok(stock)
    }

    /// Keeps a bitmap of these sides under a key. An error leaves all as it was.
    #[tactic(auto, unfolding(crate::specs::Stock::bitmap_kept, gfx_base::specs::Results::and_then))]
    pub fn keep(&mut self, alloc: Global, key: u64, width: u16, height: u16) -> Result<(), Flaw>
        ensures exact { Gives (λ _. self.new) result (bitmap_kept self.old key width height) }
        ensures unchanged { OnErr result (self.new ≡ self.old) }
    {
        // Room first, so that nothing fails once the plan has changed.
        self.sides.reserve(1)?;
        match self.plan.keep(alloc, key, width, height) {
            Ok(kept) => {
                let Ok(_) = self.sides.insert(kept.slot, Sides { width, height }) else {
                    unreachable!()
                };
                Ok(())
            }
            Err(Fault::Memory) => Err(Flaw::Memory),
            Err(Fault::Refused(_)) => Err(Flaw::Refused(ScriptKind::BitmapSize)),
        }
    }

    /// The sides of a key's bitmap. The order of use stays.
    #[tactic(auto, unfolding(crate::specs::Stock::bitmap_sides, gfx_base::specs::Results::and_then))]
    pub fn sides_of(&self, key: u64) -> Result<Sides, ScriptKind>
        ensures { result ≡ bitmap_sides self.now key }
    {
        let Some(slot) = self.plan.slot(key) else {
            return Err(ScriptKind::KeyAbsent);
        };
        match self.sides.get(&slot) {
            Some(sides) => Ok(*sides),
            None => Err(ScriptKind::KeyAbsent),
        }
    }

    /// Makes the key of a bitmap that is shown the most recently used.
    pub fn show(&mut self, key: u64)
        ensures { self.new ≡ bitmap_shown self.old key }
    {
        self.plan.touch(key);
    }

    /// Lets a key go, or refuses one that isn't held.
    #[tactic(auto, unfolding(crate::specs::Stock::bitmap_forgotten, gfx_base::specs::Results::and_then))]
    pub fn forget(&mut self, key: u64) -> Result<(), ScriptKind>
        ensures exact { Says (λ _. self.new) result (bitmap_forgotten self.old key) }
        ensures unchanged { OnErr result (self.new ≡ self.old) }
    {
        if self.plan.slot(key).is_none() {
            return Err(ScriptKind::KeyAbsent);
        }
        self.plan.forget(key);
        Ok(())
    }
}
