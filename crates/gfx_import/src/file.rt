//! Kept files, read and written.

ghost use Rattle.std.specs.Prelude.{◌≡◌, ◌++◌, ◌≤◌, Ok, length, IfOk, OnOk, OnErr};
ghost use Rattle.std.specs.List.{flat_map};
ghost use Rattle.gfx_base.specs.Outcome.{Gives, Says, WantsOnlyIf};
ghost use Rattle.gfx_layout.specs.Reading.{read, read_whole, take_each};
ghost use Rattle.gfx_layout.specs.Layout.{done};
ghost use Rattle.gfx_layout.specs.Writing.{Puts};
ghost use Rattle.gfx_bitmap_cache.specs.Slots.{entry, image_of};
ghost use Rattle.gfx_import.specs.Entries.{IsKept};
ghost use Rattle.gfx_import.specs.File.{kept_entry, behind_start, kept_file, is_begun, entries_of, entry_text, file_text};
ghost use Rattle.gfx_import.specs.Indexing.{Indexes};

use crate::entry::KeptEntry;
use crate::kept::Kept;
use crate::limits::{MARK, MOST_ENTRIES, MOST_PIXELS};
use gfx_base::{Bitmap, Bytes, Cause, Fault, NoMemory, Pixels, Refusal};
use gfx_layout::{Fields, Part, Stop, put_items};
use std::alloc::Global;

/// A kept file breaks a rule.
const BROKEN: Stop = Stop::Rule(Refusal::KeptShape);

/// Reads the start of a kept file, and says how many entries it has.
#[tactic(auto, unfolding(gfx_layout::specs::Reading::read, gfx_base::specs::Results::and_then))]
fn read_start(fields: &mut Fields<'_>) -> Result<u16, Stop>
    ensures { Says (λ count. (count, fields.new)) result (read (behind_start λ count. done count) fields.old) }
{
    if fields.u32()? != MARK {
        return Err(BROKEN);
    }
    let count = fields.u16()?;
    if usize::from(count) > MOST_ENTRIES {
        return Err(BROKEN);
    }
    Ok(count)
}

/// Reads one entry.
#[tactic(auto, unfolding(gfx_layout::specs::Reading::read, gfx_base::specs::Results::and_then))]
fn read_entry(alloc: Global, fields: &mut Fields<'_>) -> Result<KeptEntry, Cause<Stop>>
    ensures { Gives (λ one. (one, fields.new)) result (read kept_entry fields.old) }
{
    let key = fields.u64()?;
    let width = fields.u16()?;
    let height = fields.u16()?;
    let area = usize::from(width) * usize::from(height);
    if area > MOST_PIXELS {
        return Err(Cause::Refused(BROKEN));
    }
    let pixels: Pixels = fields.items(alloc, area)?;
    Ok(KeptEntry::new(key, width, height, pixels))
}

/// Reads so many entries.
#[tactic(auto, using(gfx_layout::proofs::EachLoops::each_loops))]
fn read_entries(
    alloc: Global,
    fields: &mut Fields<'_>,
    count: usize,
) -> Result<Vec<KeptEntry>, Cause<Stop>>
    ensures value { Gives (λ entries. (entries.items, fields.new)) result (take_each (read kept_entry) count fields.old) }
    ensures few { IfOk result (λ entries. length entries.items ≤ count) }
{
    let mut entries = Vec::new(alloc);
    'entries: for _ in 0..count {
        let one = read_entry(alloc, fields)?;
        entries.push(one)?;
    }
    Ok(entries)
}

/// Keeps these entries by their keys; a key that is there twice breaks a rule.
fn index(alloc: Global, entries: Vec<KeptEntry>) -> Result<Kept, Cause<Stop>>
    requires { length entries.items ≤ MOST_ENTRIES }
    ensures { Indexes entries.items result }
{
    let mut kept = Kept::new(alloc);
    'entries: for one in entries {
        let (key, bitmap) = one.into_parts();
        if !kept.add(key, bitmap)? {
            return Err(Cause::Refused(BROKEN));
        }
    }
    Ok(kept)
}

/// Reads a kept file, as its layout says it.
#[tactic(auto, unfolding(gfx_layout::specs::Reading::read_whole, gfx_layout::specs::Reading::read, gfx_base::specs::Results::and_then, crate::specs::File::is_begun))]
fn read_file(alloc: Global, bytes: &[u8]) -> Result<Kept, Cause<Stop>>
    ensures value { Gives (λ kept. kept) result (read_whole kept_file bytes.now) }
    ensures memory { WantsOnlyIf result (is_begun bytes.now) }
{
    let mut fields = Fields::new(bytes);
    let count = read_start(&mut fields)?;
    let entries = read_entries(alloc, &mut fields, usize::from(count))?;
    let kept = index(alloc, entries)?;
    fields.end()?;
    Ok(kept)
}

/// Reads a kept file, in this project's own format (`specs/File`). Each of its faults is KeptShape: another
/// start, more than 5,461 entries, a key twice, bytes that are missing or left over. Memory is wanted only
/// behind a start that is accepted.
#[tactic(auto, unfolding(crate::specs::File::entries_of))]
pub fn read_kept(alloc: Global, bytes: &[u8]) -> Result<Kept, Fault>
    ensures value { Gives (λ kept. kept) result (entries_of bytes.now) }
    ensures memory { WantsOnlyIf result (is_begun bytes.now) }
{
    match read_file(alloc, bytes) {
        Ok(kept) => Ok(kept),
        Err(Cause::Refused(_)) => Err(Fault::Refused(Refusal::KeptShape)),
        Err(Cause::Memory) => Err(Fault::Memory),
    }
}

/// Puts one entry at the end.
#[tactic(auto, unfolding(gfx_layout::specs::Shape::text))]
fn put_entry(out: &mut Bytes, key: u64, bitmap: &Bitmap) -> Result<(), NoMemory>
    ensures { Puts result out.old out.new (entry_text (entry key (image_of bitmap.now))) }
{
    key.put(out)?;
    bitmap.width.put(out)?;
    bitmap.height.put(out)?;
    put_items(out, bitmap.pixels.as_slice())
}

/// Puts the entries at the end, one after the other.
fn put_entries(out: &mut Bytes, kept: &Kept) -> Result<(), NoMemory>
    ensures { Puts result out.old out.new (flat_map entry_text kept.now) }
{
    let mut place = 0;
    'entries: while let Some((key, bitmap)) = kept.at(place) {
        put_entry(out, key, bitmap)?;
        place += 1;
    }
    Ok(())
}

/// Puts a kept file at the end; where memory ends, a part of it may stand there.
fn put_file(out: &mut Bytes, kept: &Kept) -> Result<(), NoMemory>
    ensures put { Puts result out.old out.new (file_text kept.now) }
    ensures kept { IsKept kept.now }
{
    let count = kept.len();
    MARK.put(out)?;
    (count as u16).put(out)?;
    put_entries(out, kept)
}

/// Appends a kept file of these bitmaps (`specs/File`). Without memory `out` stays as it was.
pub fn write_kept(kept: &Kept, out: &mut Bytes) -> Result<(), NoMemory>
    ensures ok { OnOk result (out.new ≡ out.old ++ file_text kept.now) }
    ensures err { OnErr result (out.new ≡ out.old) }
    // What is written is read as what was kept.
    ensures law { entries_of (file_text kept.now) ≡ Ok kept.now }
{
    let start = out.len();
    if put_file(out, kept).is_err() {
        out.truncate(start);
        return Err(NoMemory);
    }
    Ok(())
}
