//! A kept file behind its length.
ghost use Rattle.std.specs.Prelude.{◌≡◌, ◌+◌, ◌≤◌, [], length, drop, OnOk};
ghost use Rattle.gfx_base.specs.Outcome.{WantsOnlyIf};
ghost use Rattle.gfx_kept_input.specs.Front.{is_begun_in, known_size};
ghost use Rattle.gfx_kept_input.specs.Taking.{ReadsFront};

use gfx_base::{Bytes, Fault, NoMemory, Refusal, field_u32};
use gfx_import::{Kept, MOST_FILE, read_kept};
use std::alloc::Global;

/// A length has so many bytes.
pub(crate) const PREFIX: usize = 4;

/// A kept file that was read.
#[derive(Drop)]
pub(crate) struct File {
    /// What it keeps.
    pub(crate) kept: Kept,
    /// How many bytes it had, without its length.
    pub(crate) size: u32,
}

impl File {
    /// No file yet. It takes no memory.
    pub(crate) fn none(alloc: Global) -> File
        ensures kept { result.kept ≡ [] }
        ensures size { result.size ≡ 0 }
    {
        File {
            kept: Kept::new(alloc),
            size: 0,
        }
    }
}

/// The length of the file at the front, as far as it is known: 0 where its four bytes aren't all there.
pub(crate) fn known_size(bytes: &[u8]) -> u32
    ensures { result ≡ known_size bytes.now }
{
    field_u32(bytes, 0).unwrap_or(0)
}

/// Reads the file at the front, behind its length, once it is whole. `None` says that bytes are missing yet. It is
/// KeptShape where its length is above 67,108,864, or where it isn't a kept file. Memory is wanting only where the file's
/// start is accepted.
#[tactic(auto, unfolding(crate::specs::Front::front, crate::specs::Front::front_of))]
pub(crate) fn read_front(alloc: Global, bytes: &[u8]) -> Result<Option<File>, Fault>
    ensures read { ReadsFront result bytes.now }
    ensures memory { WantsOnlyIf result (is_begun_in bytes.now) }
{
    let Some(size) = field_u32(bytes, 0) else {
        return Ok(None);
    };
    if size as usize > MOST_FILE {
        return Err(Fault::Refused(Refusal::KeptShape));
    }
    let (_, behind) = bytes.split_at(PREFIX);
    if behind.len() < size as usize {
        return Ok(None);
    }
    let (file, _) = behind.split_at(size as usize);
    let kept = read_kept(alloc, file)?;
    Ok(Some(File { kept, size }))
}

/// Lets go of the bytes of a file of this length, of its length, and of their memory: what stands behind it, at most
/// the last piece that was given, is copied.
pub(crate) fn let_go(alloc: Global, bytes: &mut Bytes, size: u32) -> Result<(), NoMemory>
    requires { PREFIX + size ≤ length bytes.old }
    ensures { OnOk result (bytes.new ≡ drop (PREFIX + size) bytes.old) }
{
    let (_, behind) = bytes.as_slice().split_at(PREFIX + size as usize);
    let mut rest = Bytes::new(alloc);
    rest.append(behind)?;
    *bytes = rest;
    Ok(())
}
