//! The columns of a picture, as bands send them.
ghost use Rattle.std.specs.Prelude.{◌≡◌, ◌<◌, ◌≤◌, ◌+◌, ◌*◌, ◌^◌, drop, length, take};
ghost use Rattle.std.specs.List.{fold};
ghost use Rattle.arrayvec.specs.ArrayVec.{array_vec_len};
ghost use Rattle.gfx_chooser.specs.Facts.{colours_in};
ghost use Rattle.gfx_clear_bands.specs.Writing.{band_elements, column, short_of, without_end, without_front};
ghost use Rattle.gfx_clear_bands.specs.Writing.Element.{Column};
ghost use Rattle.gfx_estimate.specs.Bands.{bands_size, mark_of, no_columns, place_of, with_element, with_hash};

use crate::sizes::HEAD;
use arrayvec::ArrayVec;
use gfx_base::{Rgb, hash_of};
use gfx_clear_store::MOST_BAR;
use gfx_script::Picture;

/// How many bytes the head of a band has.
const BAND: u64 = 11;

/// How many bytes the word of a column has.
pub(crate) const WORD: u64 = 2;

/// How many bytes a pixel of a column has.
pub(crate) const PIXEL: u64 = 3;

/// So many columns are told apart, as many as a client holds.
pub(crate) const PLACES: usize = 32_768;

/// What was met of the columns of a picture so far, and how many bytes these cost.
#[derive(Drop)]
pub(crate) struct Columns {
    /// At each place the mark of the last column whose hash led there.
    pub(crate) marks: [u16; PLACES],
    pub(crate) bytes: u64,
}

/// How many bytes a picture by bands costs a client that holds no column, nearly.
pub(crate) fn bands_size(picture: &Picture) -> u64
    ensures { result ≡ bands_size picture.now }
{
    let mut columns = no_columns();
    let mut top = 0;
    'bands: while top < picture.height {
        let rows = (picture.height - top).min(MOST_BAR as u16);
        columns.meet_band(picture, top, rows);
        top += rows;
    }
    HEAD + columns.bytes
}

/// Before the first column.
#[tactic(auto, unfolding(crate::specs::Bands::no_columns))]
fn no_columns() -> Columns
    ensures { result ≡ no_columns }
{
    Columns {
        marks: [0; PLACES],
        bytes: 0,
    }
}

impl Columns {
    /// Meets the columns of so many rows from this one on.
    fn meet_band(&mut self, picture: &Picture, top: u16, rows: u16)
        requires some { 1 ≤ rows }
        requires rows { rows ≤ MOST_BAR }
        requires bottom { top + rows ≤ picture.now.height }
        requires fits { top + rows < 2 ^ 16 }
        requires few { self.old.bytes < 2 ^ 48 }
        ensures band { self.new ≡ fold with_element self.old (band_elements picture.now.width (colours_in picture.now) top rows) }
        ensures within { self.new.bytes ≤ self.old.bytes + 2 ^ 24 }
    {
        self.bytes += BAND;
        'columns: for x in 0..picture.width {
            let background = picture.pixel(0, top).colour();
            let column = column_at(picture, x, top, rows);
            self.meet(background, column.as_slice());
        }
    }

    /// Meets a column on a background.
    #[tactic(auto, unfolding(crate::specs::Bands::with_element))]
    fn meet(&mut self, background: Rgb, pixels: &[Rgb])
        requires pixels { length pixels.now ≤ MOST_BAR }
        requires few { self.old.bytes < 2 ^ 49 }
        ensures column { self.new ≡ with_element self.old (Column background pixels.now) }
        ensures within { self.new.bytes ≤ self.old.bytes + 158 }
    {
        self.meet_hash(hash_of(pixels), short_length(background, pixels));
    }

    /// Meets a column of this hash, of which so many pixels aren't background.
    fn meet_hash(&mut self, hash: u64, pixels: usize)
        requires pixels { pixels ≤ MOST_BAR }
        requires few { self.old.bytes < 2 ^ 49 }
        ensures column { self.new ≡ with_hash hash pixels self.old }
        ensures within { self.new.bytes ≤ self.old.bytes + 158 }
    {
        let place = place_of(hash);
        let mark = mark_of(hash);
        if self.marks[place] == mark {
            self.bytes += WORD;
        } else {
            self.marks[place] = mark;
            self.bytes += WORD + PIXEL * pixels as u64;
        }
    }
}

/// Where the hash of a column leads.
fn place_of(hash: u64) -> usize
    ensures place { result ≡ place_of hash }
    ensures within { result < PLACES }
{
    (hash >> 49) as usize
}

/// The mark that the hash of a column leaves there.
fn mark_of(hash: u64) -> u16
    ensures { result ≡ mark_of hash }
{
    ((hash >> 33) % 65536) as u16
}

/// So many pixels of a column, from this row down.
fn column_at(picture: &Picture, x: u16, top: u16, rows: u16) -> ArrayVec<Rgb, MOST_BAR>
    requires rows { rows ≤ MOST_BAR }
    requires across { x < picture.now.width }
    requires bottom { top + rows ≤ picture.now.height }
    requires fits { top + rows < 2 ^ 16 }
    ensures column { result.items ≡ column picture.now.width (colours_in picture.now) (top * picture.now.width + x) rows }
    ensures height { array_vec_len result ≡ rows }
{
    let mut found = ArrayVec::new();
    'rows: for row in 0..rows {
        found.push(picture.pixel(x, top + row).colour());
    }
    found
}

/// How many pixels a column has from its first to its last that isn't background.
fn short_length(background: Rgb, pixels: &[Rgb]) -> usize
    ensures short { result ≡ length (short_of background pixels.now) }
    ensures within { result ≤ length pixels.now }
{
    let (_, back) = pixels.split_at(front_of(background, pixels));
    end_of(background, back)
}

/// How many pixels at the front are background.
fn front_of(background: Rgb, pixels: &[Rgb]) -> usize
    ensures front { drop result pixels.now ≡ without_front background pixels.now }
    ensures within { result ≤ length pixels.now }
{
    'front: for (row, pixel) in pixels.iter().enumerate() {
        if *pixel != background {
            return row;
        }
    }
    pixels.len()
}

/// How many pixels stand before the background at the end.
fn end_of(background: Rgb, pixels: &[Rgb]) -> usize
    ensures end { take result pixels.now ≡ without_end background pixels.now }
    ensures within { result ≤ length pixels.now }
{
    let mut end = pixels.len();
    'end: while end > 0 {
        if pixels[end - 1] != background {
            return end;
        }
        end -= 1;
    }
    end
}
