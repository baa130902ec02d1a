ghost use Rattle.std.specs.Prelude.{◌≡◌, ◌*◌, ◌<◌, is_ok, length, slice_set, IfOk, IfSome, Some};
ghost use Rattle.std.specs.Option.{option_copied, option_map};
ghost use Rattle.gfx_base.specs.Outcome.{Applies, Says, WantsOnlyIf};
ghost use Rattle.gfx_glyph.specs.Index.{print_of};
ghost use Rattle.gfx_glyph.specs.Glyphs.{drawn, least_index, no_glyphs, shown, slot_at, stands, stored};

use crate::glyph::Glyph;
use crate::print::{HOMES, print_of};
use gfx_base::{Fault, NoMemory, Refusal, Rgb, Rgbs};
use std::alloc::Global;
use std::marker::Model;

/// How many glyphs there may be; their indices are below this.
pub const PLACES: u16 = 4000;

/// No glyph has more pixels.
pub const MOST_AREA: u32 = 1024;

/// Glyphs by index. Contracts see what stands at each of their places.
#[derive(Drop)]
pub struct Glyphs {
    alloc: Global,
    slots: Vec<Option<Glyph>>,
    /// The print of each glyph.
    prints: Vec<u32>,
    /// For each home a place before which no glyph has a print of that home.
    starts: Vec<u16>,
}

impl Model for Glyphs {
    ghost use Rattle.std.specs.Prelude.{List};
    ghost use Rattle.gfx_glyph.specs.Glyphs.{Slot};

    ghost Value = { List Slot };

    ghost use Rattle.gfx_glyph.specs.Inside.{IsSound};

    ghost view = { λ a. a.slots.items };

    ghost invariant = { IsSound };
}

impl Glyphs {
    /// No glyphs. It takes all the room of the index.
    #[tactic(auto, unfolding(crate::specs::Glyphs::no_glyphs))]
    pub fn new(alloc: Global) -> Result<Glyphs, NoMemory>
        ensures { IfOk result (λ glyphs. glyphs ≡ no_glyphs PLACES) }
    {
        let slots = no_slots(alloc)?;
        let prints = vec![in alloc; 0u32; usize::from(PLACES)]?;
        let starts = vec![in alloc; PLACES; HOMES]?;
        Ok(Glyphs {
            alloc,
            slots,
            prints,
            starts,
        })
    }

    /// Stores these pixels at an index, in the place of what stood there. Any fault leaves all as it was; memory is
    /// wanting only where index and area are accepted.
    #[tactic(auto, unfolding(crate::specs::Glyphs::stored))]
    pub fn store(
        &mut self,
        index: u16,
        width: u16,
        height: u16,
        pixels: &[Rgb],
    ) -> Result<(), Fault>
        requires { length pixels.now ≡ width * height }
        ensures stored { Applies result self.old self.new (stored index width height pixels.now self.old) }
        ensures memory { WantsOnlyIf result (is_ok (stored index width height pixels.now self.old)) }
    {
        if index >= PLACES {
            return Err(Fault::Refused(Refusal::GlyphIndex));
        }
        if u32::from(width) * u32::from(height) > MOST_AREA {
            return Err(Fault::Refused(Refusal::GlyphArea));
        }
        let mut copy = Rgbs::new(self.alloc);
        copy.append(pixels)?;
        self.enter(
            index,
            print_of(pixels),
            Glyph {
                width,
                height,
                pixels: copy,
            },
        );
        Ok(())
    }

    /// Puts a glyph into a place.
    fn enter(&mut self, place: u16, print: u32, glyph: Glyph)
        requires place { place < PLACES }
        requires print { print ≡ print_of glyph.pixels }
        requires area { length glyph.pixels ≡ glyph.width * glyph.height }
        ensures { self.new ≡ slice_set self.old place (Some glyph) }
    {
        let at = usize::from(place);
        let home = print as usize % HOMES;
        self.slots[at] = Some(glyph);
        self.prints[at] = print;
        self.starts[home] = self.starts[home].min(place);
    }

    /// The pixels at an index, which are to have this size.
    #[tactic(auto, unfolding(crate::specs::Glyphs::shown, crate::specs::Glyphs::drawn))]
    pub fn show(&self, index: u16, width: u16, height: u16) -> Result<&[Rgb], Refusal>
        ensures pixels { Says (λ pixels. pixels.now) result (shown index width height self.now) }
        ensures area { IfOk result (λ pixels. length pixels.now ≡ width * height) }
    {
        if index >= PLACES {
            return Err(Refusal::GlyphIndex);
        }
        if u32::from(width) * u32::from(height) > MOST_AREA {
            return Err(Refusal::GlyphArea);
        }
        match &self.slots[usize::from(index)] {
            None => Err(Refusal::GlyphEmpty),
            Some(glyph) if glyph.has_size(width, height) => Ok(glyph.pixels.as_slice()),
            Some(_) => Err(Refusal::GlyphSize),
        }
    }

    /// Whether these pixels stand at an index, at this size.
    pub fn holds(&self, index: u16, width: u16, height: u16, pixels: &[Rgb]) -> bool
        requires { length pixels.now ≡ width * height }
        ensures { result ≡ stands width height pixels.now (slot_at self.now index) }
    {
        match self.slots.get(usize::from(index)) {
            Some(slot) => stands(slot, width, height, pixels),
            None => false,
        }
    }

    /// The least index at which these pixels stand, at this size. It takes no memory.
    pub fn find(&self, width: u16, height: u16, pixels: &[Rgb]) -> Option<u16>
        requires { length pixels.now ≡ width * height }
        ensures least { result ≡ least_index width height pixels.now self.now }
        ensures within { IfSome result (λ place. place < PLACES) }
    {
        let print = print_of(pixels);
        let start = self.starts[print as usize % HOMES];
        'places: for place in start..PLACES {
            if self.stands_at(place, print, width, height, pixels) {
                return Some(place);
            }
        }
        None
    }

    /// Whether these pixels, which have this print, stand at a place, at this size.
    #[inline(always)]
    fn stands_at(&self, place: u16, print: u32, width: u16, height: u16, pixels: &[Rgb]) -> bool
        requires place { place < PLACES }
        requires print { print ≡ print_of pixels.now }
        ensures { result ≡ stands width height pixels.now (slot_at self.now place) }
    {
        let at = usize::from(place);
        if self.prints[at] != print {
            return false;
        }
        stands(&self.slots[at], width, height, pixels)
    }

    /// The glyph at an index, if there is one.
    pub fn get(&self, index: u16) -> Option<&Glyph>
        ensures { option_copied result ≡ slot_at self.now index }
    {
        match self.slots.get(usize::from(index)) {
            Some(Some(glyph)) => Some(glyph),
            _ => None,
        }
    }

    /// The size of the glyph at an index, if there is one.
    pub fn size(&self, index: u16) -> Option<(u16, u16)>
        ensures { result ≡ option_map (λ held. (held.width, held.height)) (slot_at self.now index) }
    {
        match self.slots.get(usize::from(index)) {
            Some(Some(glyph)) => Some((glyph.width, glyph.height)),
            _ => None,
        }
    }
}

/// Whether a slot has these pixels, at this size.
fn stands(slot: &Option<Glyph>, width: u16, height: u16, pixels: &[Rgb]) -> bool
    ensures { result ≡ stands width height pixels.now slot.now }
{
    match slot {
        Some(glyph) => {
            glyph.width == width && glyph.height == height && glyph.pixels.as_slice() == pixels
        }
        None => false,
    }
}

/// Places at which nothing was ever stored.
fn no_slots(alloc: Global) -> Result<Vec<Option<Glyph>>, NoMemory>
    ensures { IfOk result (λ slots. slots.items ≡ no_glyphs PLACES) }
{
    let mut slots = Vec::with_capacity(alloc, usize::from(PLACES))?;
    'slots: for _ in 0..PLACES {
        slots.push_reserved(None);
    }
    Ok(slots)
}
