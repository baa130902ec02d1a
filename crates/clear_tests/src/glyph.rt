//! Glyphs of ClearCodec: the worked examples, and every refusal in its order.
use crate::claiming::claim;
use gfx_base::{Fault, NoMemory, Refusal, Rgb};
use gfx_glyph::Glyphs;

const RED: Rgb = Rgb { b: 0, g: 0, r: 255 };

const BLUE: Rgb = Rgb { b: 255, g: 0, r: 0 };

// A red glyph of the largest area.
const LARGEST: [Rgb; 1024] = [RED; 1024];

// Whether it is shown so, once it is stored at the last index.
fn shows_largest(glyphs: &mut Glyphs) -> bool {
    if glyphs.store(3999, 32, 32, &LARGEST) != Ok(()) {
        return false;
    }
    match glyphs.show(3999, 32, 32) {
        Ok(shown) => shown == LARGEST.as_slice(),
        Err(_) => false,
    }
}

// Whether it is held there, at no index, and with other sides.
fn holds_largest(glyphs: &Glyphs) -> (bool, bool, bool) {
    (
        glyphs.holds(3999, 32, 32, &LARGEST),
        glyphs.holds(4000, 32, 32, &LARGEST),
        glyphs.holds(3999, 1024, 1, &LARGEST),
    )
}

// Whether the sides are those of the last index alone.
fn has_sides(glyphs: &Glyphs) -> bool {
    for (index, size) in &[(3999, Some((32, 32))), (3998, None), (4000, None)] {
        if glyphs.size(*index) != *size {
            return false;
        }
    }
    true
}

// Whether the glyph is stored, shown and held as is due.
fn is_stored(glyphs: &mut Glyphs) -> bool {
    shows_largest(glyphs) && has_sides(glyphs) && holds_largest(glyphs) == (true, false, false)
}

#[test]
fn stored_and_shown(rt: HostRuntime) -> Result<(), NoMemory> {
    let mut glyphs = Glyphs::new(rt.alloc())?;
    let right = is_stored(&mut glyphs);
    claim(&rt, right);
    Ok(())
}

// Why red of 33 by 32 isn't stored.
fn too_large(glyphs: &mut Glyphs, index: u16) -> Option<Refusal> {
    match glyphs.store(index, 33, 32, &[RED; 1056]) {
        Err(Fault::Refused(refusal)) => Some(refusal),
        _ => None,
    }
}

// Whether two pixels are stored in a row.
fn stores_row(glyphs: &mut Glyphs, index: u16) -> bool {
    glyphs.store(index, 2, 1, &[RED, BLUE]) == Ok(())
}

// Why a glyph isn't shown.
fn refusal(glyphs: &Glyphs, index: u16, width: u16, height: u16) -> Option<Refusal> {
    match glyphs.show(index, width, height) {
        Ok(_) => None,
        Err(refusal) => Some(refusal),
    }
}

// Indices and sides, and why no glyph is shown.
const REFUSALS: [(u16, u16, u16, Refusal); 5] = [
    (4000, 33, 32, Refusal::GlyphIndex),
    (6, 33, 32, Refusal::GlyphArea),
    (6, 2, 1, Refusal::GlyphEmpty),
    (7, 1, 2, Refusal::GlyphSize),
    (7, 2, 2, Refusal::GlyphSize),
];

// Whether the glyphs are refused in this order.
fn are_refused(glyphs: &mut Glyphs) -> bool {
    let large = (too_large(glyphs, 0), too_large(glyphs, 4000));
    if large != (Some(Refusal::GlyphArea), Some(Refusal::GlyphIndex)) || !stores_row(glyphs, 7) {
        return false;
    }
    for (index, width, height, due) in &REFUSALS {
        if refusal(glyphs, *index, *width, *height) != Some(*due) {
            return false;
        }
    }
    true
}

#[test]
fn refusals(rt: HostRuntime) -> Result<(), NoMemory> {
    let mut glyphs = Glyphs::new(rt.alloc())?;
    let right = are_refused(&mut glyphs);
    claim(&rt, right);
    Ok(())
}

// Stores two pixels twice in a row, and once one above the other.
fn stores_three(glyphs: &mut Glyphs) -> bool {
    stores_row(glyphs, 9) && stores_row(glyphs, 5) && glyphs.store(3, 1, 2, &[RED, BLUE]) == Ok(())
}

// The least indices of both.
fn found(glyphs: &Glyphs) -> (Option<u16>, Option<u16>) {
    (
        glyphs.find(2, 1, &[RED, BLUE]),
        glyphs.find(1, 2, &[RED, BLUE]),
    )
}

// Whether the least index is found before, between and behind the stores.
fn least_is_found(glyphs: &mut Glyphs) -> bool {
    if found(glyphs) != (None, None) || !stores_three(glyphs) {
        return false;
    }
    if found(glyphs) != (Some(5), Some(3)) {
        return false;
    }
    glyphs.store(5, 1, 1, &[RED]).is_ok() && found(glyphs) == (Some(9), Some(3))
}

// The least index is found, whatever the order of the stores, and is lost once it is overwritten.
#[test]
fn least_index(rt: HostRuntime) -> Result<(), NoMemory> {
    let mut glyphs = Glyphs::new(rt.alloc())?;
    let right = least_is_found(&mut glyphs);
    claim(&rt, right);
    Ok(())
}
