//! The bitmaps that a script starts with.

ghost use Rattle.std.specs.Prelude.{◌≡◌, IfOk};
ghost use Rattle.gfx_import.specs.Imported.{imported};
ghost use Rattle.gfx_script.specs.Starting.{IsStart, starts_of};

use crate::held::Sides;
use gfx_base::NoMemory;
use gfx_import::{Kept, imported_at, imported_count};
use std::alloc::Global;

/// A bitmap that both ends have before the first step: its key and its sides.
#[derive(Clone, Copy, Debug, PartialEq, Eq)]
pub struct StartBitmap {
    pub key: u64,
    pub sides: Sides,
}

/// The keys and the sides of the bitmaps that are imported of two files of kept bitmaps ([MS-RDPEGFX] 3.2.5.13).
pub fn imported_start(
    alloc: Global,
    server: &Kept,
    client: &Kept,
    small: bool,
) -> Result<Vec<StartBitmap>, NoMemory>
    ensures all { IfOk result (λ start. start.items ≡ starts_of (imported server.now client.now small)) }
    ensures start { IfOk result (λ start. IsStart start.items small) }
{
    let count = imported_count(server, client, small);
    let most = client.len();
    prove!(count <= most);
    let mut start = Vec::with_capacity(alloc, count)?;
    'places: for place in 0..count {
        let Some((key, bitmap)) = imported_at(server, client, place) else {
            unreachable!()
        };
        let sides = Sides {
            width: bitmap.width,
            height: bitmap.height,
        };
        start.push_reserved(StartBitmap { key, sides });
    }
    Ok(start)
}
