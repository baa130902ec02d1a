ghost use Rattle.std.specs.Prelude.{◌≡◌, ◌+◌, ◌*◌, ◌≤◌, ◌<◌, ◌^◌, [], ◌++◌, length, max, OnOk, OnErr};
ghost use Rattle.std.specs.Vec.{vec_len, vec_capacity};

use gfx_base::{Bytes, NoMemory};
use std::alloc::Global;
use std::marker::Model;

/// The bytes of a message that have come. Contracts see the bytes.
#[derive(Debug, Drop)]
pub(crate) struct Gathered {
    items: Vec<u8>,
}

impl Model for Gathered {
    ghost use Rattle.std.specs.Prelude.{ℕ, List};

    ghost Value = { List ℕ };

    ghost view = { λ g. g.items.items };
}

impl Gathered {
    /// No bytes. It takes no memory.
    pub(crate) fn new(alloc: Global) -> Gathered
        ensures { result ≡ [] }
    {
        Gathered {
            items: Vec::new(alloc),
        }
    }

    pub(crate) fn len(&self) -> usize
        ensures exact { result ≡ length self.now }
        ensures bound { result < 2 ^ 63 }
    {
        self.items.len()
    }

    /// Puts a piece at the end, of a message that has so many bytes in the whole.
    pub(crate) fn gain(&mut self, piece: &[u8], total: usize) -> Result<(), NoMemory>
        requires { length self.old + length piece.now ≤ total }
        ensures ok { OnOk result (self.new ≡ self.old ++ piece.now) }
        ensures err { OnErr result (self.new ≡ self.old) }
    {
        make_room(&mut self.items, piece.len(), total)?;
        self.items.extend_from_slice(piece)?;
        Ok(())
    }

    /// The bytes, without a copy.
    pub(crate) fn into_bytes(self) -> Bytes
        ensures { result ≡ self }
    {
        Bytes::from_vec(self.items)
    }
}

/// A message of which bytes are still to come.
#[derive(Debug, Drop)]
pub(crate) struct Open {
    /// How many bytes it has.
    pub total: usize,
    /// Those that have come.
    pub bytes: Gathered,
}

/// Makes room for so many bytes more, of a message that has so many in the whole. Room is at least doubled where it
/// grows, yet never more than twice what has come then, nor for more bytes than the message has: what a message says of
/// its size takes no memory.
fn make_room(items: &mut Vec<u8>, count: usize, total: usize) -> Result<(), NoMemory>
    requires { vec_len items.old + count ≤ total }
    ensures same { items.new.items ≡ items.old.items }
    ensures few { vec_capacity items.new ≤ max (vec_capacity items.old) (2 * (vec_len items.old + count)) }
    ensures within { vec_capacity items.new ≤ max (vec_capacity items.old) total }
{
    let len = items.len();
    if count > items.capacity() - len {
        let more = count.max(len).min(total - len);
        items.reserve_exact(more)?;
    }
    Ok(())
}
