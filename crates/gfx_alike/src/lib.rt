//! No check of the client's step reads a pixel. In: two states that are equal but for the pixels of surfaces, of cached
//! bitmaps and of ClearCodec glyphs, as those of two ends are that kept other bitmaps under the same keys. Out: what the
//! server's accepts, the client's accepts too, and they are equal so again.
//!
//! It holds laws alone, over the client's step (`gfx_state`) and the layers below it. The session's law on a start from
//! kept bitmaps stands on it (`gfx_schedule`).
#![tactic(auto)]

ghost use Rattle.gfx_alike.specs.Unread.{ConfirmedIsAlike, NoCheckReadsAPixel, StartsAreAlike, WiderIsAlike};

/// What a state accepts, each state that differs from it in pixels alone accepts, and so they differ after it.
pub fn no_check_reads_a_pixel()
    ensures { NoCheckReadsAPixel }
{}

/// Where a session starts: states that are equal but for the word small differ in no pixel; states that start with
/// bitmaps of the same keys and sides differ in pixels alone; and a client that takes the confirmation of its limits
/// changes no more than the word small.
pub fn starts_alike()
    ensures wider { WiderIsAlike }
    ensures kept { StartsAreAlike }
    ensures confirmed { ConfirmedIsAlike }
{}
