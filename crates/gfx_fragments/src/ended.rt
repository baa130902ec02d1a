//! How a command ends.
ghost use Rattle.std.specs.Prelude.{◌≡◌};
ghost use Rattle.gfx_fragments.specs.Due.{ended_by};
ghost use Rattle.gfx_fragments.specs.Found.{left_open};

use gfx_base::Refusal;
use gfx_input::Read;

/// What a command comes to where no call failed.
#[derive(Clone, Copy, Debug, PartialEq, Eq)]
pub enum Ended {
    /// Its input was taken whole.
    Done,
    /// Its input is longer than the limit, and nothing within the limit is refused.
    TooLong,
    /// The channel message of a stream, or the fragment of a recording, of this number, counted from 1, is refused. So
    /// is the one behind the last, where the input ends inside a message or a fragment.
    Refused { number: u64, refusal: Refusal },
}

/// How a command ends whose input was read so far, of which so many items were taken, up to the last value of a
/// count, and whose next is refused so.
pub(crate) fn ended_by(read: Read, number: u64, refusal: Option<Refusal>) -> Ended
    ensures { result ≡ ended_by read number refusal }
{
    match (read, refusal) {
        (Read::TooLong, _) => Ended::TooLong,
        (_, Some(refusal)) => Ended::Refused {
            number: number.saturating_add(1),
            refusal,
        },
        (_, None) => Ended::Done,
    }
}

/// What isn't whole at the end of the input is refused.
pub(crate) fn left_open(is_open: bool) -> Option<Refusal>
    ensures { result ≡ left_open is_open }
{
    if is_open {
        Some(Refusal::ChannelTruncated)
    } else {
        None
    }
}
