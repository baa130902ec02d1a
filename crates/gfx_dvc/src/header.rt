//! The header of a fragment ([MS-RDPEDYC] 2.2.3), read.

ghost use Rattle.std.specs.Prelude.{◌≡◌};
ghost use Rattle.gfx_base.specs.Outcome.{Says};
ghost use Rattle.gfx_layout.specs.Reading.{read, take_one};
ghost use Rattle.gfx_dvc.specs.Format.{is_compressed, is_known, opens, total_width, channel_width, number_of, header, read_fragment};

use crate::fragment::{Fragment, Piece};
use crate::profile::{
    DATA, DATA_COMPRESSED, DATA_FIRST, DATA_FIRST_COMPRESSED, KIND_AT, NO_WIDTH, ONE_BYTE,
    TOTAL_WIDTH_AT, TWO_BYTES, WIDTHS,
};
use gfx_base::Refusal;
use gfx_layout::{Part, Stop};

/// What a header says.
#[derive(Clone, Copy, Debug, PartialEq, Eq)]
pub(crate) struct Header {
    /// The channel's id (ChannelId).
    pub channel: u32,
    /// How many bytes the message has that it opens (Length); a DATA says none.
    pub total: Option<u32>,
}

/// A part at the front of bytes, and the bytes behind it.
#[derive(Clone, Copy)]
struct Front<'a, T> {
    part: T,
    rest: &'a [u8],
}

/// A header at the front of bytes, and the bytes behind it.
#[derive(Clone, Copy)]
struct Headed<'a> {
    header: Header,
    rest: &'a [u8],
}

/// The part at the front.
#[tactic(auto, unfolding(gfx_layout::specs::Reading::take_one))]
fn cut<T: Part>(bytes: &[u8]) -> Result<Front<'_, T>, Stop>
    ensures { Says (λ f. (f.part, f.rest.now)) result (take_one T.shape bytes.now) }
{
    if bytes.len() < T::SIZE {
        return Err(Stop::Short);
    }
    let part = T::read(bytes);
    let (_, rest) = bytes.split_at(T::SIZE);
    Ok(Front { part, rest })
}

/// The number of this width at the front.
#[tactic(auto, unfolding(gfx_layout::specs::Reading::read, gfx_base::specs::Results::and_then))]
fn cut_number(width: u8, bytes: &[u8]) -> Result<Front<'_, u32>, Stop>
    ensures { Says (λ f. (f.part, f.rest.now)) result (read (number_of width) bytes.now) }
{
    if width == ONE_BYTE {
        let front = cut::<u8>(bytes)?;
        return Ok(Front {
            part: u32::from(front.part),
            rest: front.rest,
        });
    }
    if width == TWO_BYTES {
        let front = cut::<u16>(bytes)?;
        return Ok(Front {
            part: u32::from(front.part),
            rest: front.rest,
        });
    }
    cut::<u32>(bytes)
}

/// Whether a fragment that begins with this byte is compressed.
fn is_compressed(first: u8) -> bool
    ensures { result ≡ is_compressed first }
{
    let kind = first / KIND_AT;
    kind == DATA_FIRST_COMPRESSED || kind == DATA_COMPRESSED
}

/// Whether a fragment that begins with this byte is a DATA_FIRST or a DATA, and each number in its header has a width.
fn is_known(first: u8) -> bool
    ensures { result ≡ is_known first }
{
    let has_total = opens(first) && first / TOTAL_WIDTH_AT % WIDTHS != NO_WIDTH;
    (has_total || first / KIND_AT == DATA) && first % WIDTHS != NO_WIDTH
}

/// Whether it is a DATA_FIRST.
fn opens(first: u8) -> bool
    ensures { result ≡ opens first }
{
    first / KIND_AT == DATA_FIRST
}

/// The header at the front.
#[tactic(auto, unfolding(gfx_layout::specs::Reading::read, gfx_base::specs::Results::and_then))]
fn read_header(bytes: &[u8]) -> Result<Headed<'_>, Stop>
    ensures { Says (λ h. (h.header, h.rest.now)) result (read header bytes.now) }
{
    let first = cut::<u8>(bytes)?;
    if is_compressed(first.part) {
        return Err(Stop::Rule(Refusal::BulkCompressed));
    }
    if !is_known(first.part) {
        return Err(Stop::Rule(Refusal::FragmentKind));
    }
    let channel = cut_number(first.part % WIDTHS, first.rest)?;
    if !opens(first.part) {
        return Ok(Headed {
            header: Header {
                channel: channel.part,
                total: None,
            },
            rest: channel.rest,
        });
    }
    let total = cut_number(first.part / TOTAL_WIDTH_AT % WIDTHS, channel.rest)?;
    Ok(Headed {
        header: Header {
            channel: channel.part,
            total: Some(total.part),
        },
        rest: total.rest,
    })
}

/// What a fragment says by itself. Refusals, in this order: BulkCompressed; FragmentKind for another kind than
/// DATA_FIRST and DATA, and for a number without a width; FragmentLength where the header isn't whole.
#[tactic(auto, unfolding(crate::specs::Format::read_fragment))]
pub(crate) fn read_fragment(bytes: &[u8]) -> Result<Fragment<'_>, Refusal>
    ensures { Says (λ f. f) result (read_fragment bytes.now) }
{
    match read_header(bytes) {
        Ok(headed) => Ok(Fragment {
            header: headed.header,
            piece: Piece::new(headed.rest),
        }),
        Err(Stop::Rule(refusal)) => Err(refusal),
        Err(_) => Err(Refusal::FragmentLength),
    }
}
