ghost use Rattle.std.specs.Prelude.{◌≡◌, ℕ, ◌+◌, ◌≤◌, ◌<◌, ◌^◌, List, [], Option, length, max};
ghost use Rattle.gfx_base.specs.Stream.{Gains, change};
ghost use Rattle.gfx_input.specs.Reading.{ReadsInput, Turns};

use crate::fault::InputFault;
use crate::taker::{Taken, Taker};
use gfx_base::{Sink, Source};

/// How many bytes are read at a time.
pub const PIECE: usize = 65_536;

/// Why an input is read no further.
#[derive(Clone, Copy, Debug, PartialEq, Eq)]
pub enum Read {
    /// It is at its end.
    Whole,
    /// It is longer than the limit.
    TooLong,
    /// What it is given to takes no more.
    Stopped,
}

/// What one turn of reading did.
#[derive(Clone, Copy, Debug, PartialEq, Eq)]
enum Turn {
    /// It read this many bytes, and they were taken.
    More(usize),
    /// The reading ends here.
    Ended(Read),
}

/// Reads an input to its end, one byte past the limit, or where `taker` takes no more, and gives it
/// what lies within the limit. What it writes while it takes goes to `out`.
pub fn read_input<I: Source, T: Taker, O: Sink>(
    input: &mut I,
    limit: usize,
    taker: &mut T,
    out: &mut O,
) -> Result<Read, InputFault>
    requires short { limit < 2 ^ 63 }
    requires start { T.stands taker.old [] }
    requires silent { T.written [] ≡ [] }
    ensures { ReadsInput T.stands T.stops T.is_fine T.written result (T.allowed limit)
        (change (I.faults input.old) (I.faults input.new) (I.left input.old) (I.left input.new))
        (change (O.faults out.old) (O.faults out.new) (O.held out.old) (O.held out.new)) taker.new }
{
    let mut buffer = [0; PIECE];
    let mut taken = 0;
    'pieces: loop {
        let room = taker.allowed(limit) - taken;
        let size = PIECE.min(room.max(1));
        match read_piece(input, &mut buffer[..size], room, taker, out)? {
            Turn::More(count) => taken += count,
            Turn::Ended(read) => return Ok(read),
        }
    }
}

/// Reads one piece, and gives it away where it lies within the limit, up to which there is so much room.
fn read_piece<I: Source, T: Taker, O: Sink>(
    input: &mut I,
    buffer: &mut [u8],
    room: usize,
    taker: &mut T,
    out: &mut O,
) -> Result<Turn, InputFault>
    requires some { 0 < length buffer.old }
    requires piece { length buffer.old ≤ PIECE }
    requires within { length buffer.old ≤ max room 1 }
    ensures turns { (bytes : List ℕ) (before : ℕ) (held : Option (List ℕ)) → T.stands taker.old bytes
        → Gains (change before (O.faults out.old) held (O.held out.old)) (T.written bytes)
        → Turns T.stands T.stops T.written result (length bytes + room)
        (change (I.faults input.old) (I.faults input.new) (I.left input.old) (I.left input.new))
        (change before (O.faults out.new) held (O.held out.new)) bytes taker.new }
    ensures size { length buffer.new ≡ length buffer.old }
{
    let Ok(count) = input.read(buffer) else {
        return Err(InputFault::Read);
    };
    if count == 0 {
        return Ok(Turn::Ended(Read::Whole));
    }
    if room == 0 {
        return Ok(Turn::Ended(Read::TooLong));
    }
    let (piece, _) = buffer.split_at(count);
    match taker.give(piece, out)? {
        Taken::More => Ok(Turn::More(count)),
        Taken::Stopped => Ok(Turn::Ended(Read::Stopped)),
    }
}
