//! Lists and bytes, put at the end.

ghost use Rattle.std.specs.Prelude.{◌≡◌, ◌++◌, ◌<◌, ◌^◌, length, replicate, IfOk, OnOk, OnErr};
ghost use Rattle.std.specs.List.{flat_map};
ghost use Rattle.gfx_layout.specs.Shape.{text, u16 as two_bytes, u32 as four_bytes};
ghost use Rattle.gfx_layout.specs.Layout.{list_text, sized_text};

use crate::part::Part;
use gfx_base::{Bytes, NoMemory};
use std::alloc::Global;

/// Puts the bytes of these parts at the end, one after the other, all or none.
pub fn put_items<T: Part>(out: &mut Bytes, parts: &[T]) -> Result<(), NoMemory>
    ensures ok { OnOk result (out.new ≡ out.old ++ flat_map (text T.shape) parts.now) }
    ensures err { OnErr result (out.new ≡ out.old) }
{
    let start = out.len();
    'parts: for part in parts {
        if part.put(out).is_err() {
            out.truncate(start);
            return Err(NoMemory);
        }
    }
    Ok(())
}

/// Puts these bytes at the end, all or none.
#[inline(always)]
pub fn put_bytes(out: &mut Bytes, bytes: &[u8]) -> Result<(), NoMemory>
    ensures ok { OnOk result (out.new ≡ out.old ++ bytes.now) }
    ensures err { OnErr result (out.new ≡ out.old) }
{
    out.append(bytes)
}

/// Puts these parts at the end behind their count of two bytes, all or nothing.
pub fn put_list<T: Part>(out: &mut Bytes, parts: &[T]) -> Result<(), NoMemory>
    requires { length parts.now < 2 ^ 16 }
    ensures ok { OnOk result (out.new ≡ out.old ++ list_text two_bytes T.shape parts.now) }
    ensures err { OnErr result (out.new ≡ out.old) }
{
    let start = out.len();
    (parts.len() as u16).put(out)?;
    if put_items(out, parts).is_err() {
        out.truncate(start);
        return Err(NoMemory);
    }
    Ok(())
}

/// Puts these bytes at the end behind their length of four bytes, all or nothing.
pub fn put_sized(out: &mut Bytes, bytes: &[u8]) -> Result<(), NoMemory>
    requires { length bytes.now < 2 ^ 32 }
    ensures ok { OnOk result (out.new ≡ out.old ++ sized_text four_bytes bytes.now) }
    ensures err { OnErr result (out.new ≡ out.old) }
{
    let start = out.len();
    (bytes.len() as u32).put(out)?;
    if put_bytes(out, bytes).is_err() {
        out.truncate(start);
        return Err(NoMemory);
    }
    Ok(())
}

/// Puts so many zeros at the end, all or none.
pub fn put_zeros(out: &mut Bytes, count: usize) -> Result<(), NoMemory>
    ensures ok { OnOk result (out.new ≡ out.old ++ replicate count 0) }
    ensures err { OnErr result (out.new ≡ out.old) }
{
    let start = out.len();
    'zeros: for _ in 0..count {
        if out.push(0).is_err() {
            out.truncate(start);
            return Err(NoMemory);
        }
    }
    Ok(())
}

/// Keeps these bytes.
pub fn kept(alloc: Global, bytes: &[u8]) -> Result<Bytes, NoMemory>
    ensures { IfOk result (λ list. list ≡ bytes.now) }
{
    let mut list = Bytes::new(alloc);
    list.append(bytes)?;
    Ok(list)
}
