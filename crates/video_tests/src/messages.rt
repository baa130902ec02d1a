//! Messages on one surface: what is drawn and what is refused, by an independent program.
use gfx_base::{Fault, Format, Pixel, Rect, Refusal};
use gfx_rfx_video::{VideoDecoder, decode_video};
use gfx_surface::Surface;
use std::alloc::Global;
use std::process::Abort;
use std::test::Fail;

// A solid grey tile as a server paints it, with all headers.
pub const GREY: &[u8; 157] =
    b"\xc0\xcc\x0c\0\0\0\xca\xac\xcc\xca\0\x01\xc1\xcc\x0a\0\0\0\x01\x01\0\x01\xc2\xcc\x0c\0\0\0\
\x01\0\x40\0\x40\0\xc3\xcc\x0d\0\0\0\x01\xff\0\x40\0\x2a\x22\xc4\xcc\x0e\0\0\0\x01\0\0\0\0\0\
\x01\0\xc6\xcc\x17\0\0\0\x01\0\x01\x01\0\0\0\0\0\x40\0\x40\0\xc1\xca\x01\0\xc7\xcc\x41\0\0\0\
\x01\0\xc2\xca\0\0\x55\x44\x03\x40\x01\0\x1c\0\0\0\x66\x66\x66\x66\x66\x66\x66\x66\x66\x66\
\x66\x66\x66\x66\x66\xc3\xca\x1c\0\0\0\0\x01\x02\0\0\0\0\x03\0\x03\0\x03\0\0\0\0\0\0\0\0\0\0\
\xc5\xcc\x08\0\0\0\x01\0";

// Four tiles by RLGR1, over nine cells of the surface, in two rectangles of a region.
const FOUR: &[u8] =
    b"\xc6\xcc\x1f\0\0\0\x01\0\x01\x02\0\x05\0\x03\0\x46\0\x5a\0\x3c\0\x32\0\x28\0\x2d\0\xc1\xca\
\x01\0\xc7\xcc\x0b\x01\0\0\x01\0\xc2\xca\0\0\0\x04\x02\x40\x04\0\xeb\0\0\0\x76\x98\x67\x79\
\x8a\x66\x77\x86\x96\x7b\xc3\xca\x3b\0\0\0\0\x01\0\0\0\0\0\x13\0\x0b\0\x0a\0\0\x03\xc4\xd0\
\x87\xf5\xf4\x53\x96\x5d\xab\x1b\x98\x94\x25\x89\x57\x7d\x1f\0\0\x1c\x33\x23\x74\xb3\x0b\xf7\
\xff\xc0\0\0\x1c\x6c\x48\xf5\x35\xb3\x5f\xfe\xc3\xca\x3b\0\0\0\x01\0\x01\x01\0\0\0\x14\0\x0a\
\0\x0a\0\0\x03\xe9\xc0\xe1\x41\x21\x55\xe8\xb0\x0f\x9f\x26\xf3\x94\xe7\x6f\x12\x67\xd0\0\0\
\x1c\x5d\x25\x1d\x97\xee\x93\xa0\0\0\x1c\xcb\x23\x25\x9a\x26\x4f\xa0\xc3\xca\x3b\0\0\0\0\x01\
\0\0\0\x01\0\x14\0\x0a\0\x0a\0\0\x02\x68\xd0\xea\x50\xba\x11\x4a\x22\x52\x4d\x4f\x16\x7c\x8c\
\x6a\xa8\xec\x7a\0\0\x1c\x20\xcc\xee\x8e\x37\x97\x40\0\0\x1c\x60\xcd\x0f\x43\x6d\xa3\xf4\xc3\
\xca\x3a\0\0\0\0\x01\0\x01\0\x01\0\x13\0\x0a\0\x0a\0\0\x03\x3e\x03\x65\xe7\x9a\xa6\x4a\x95\
\xb5\x72\x1a\x8d\x25\x8e\x6a\x45\xc0\0\0\x1d\x01\x61\x39\x5a\x69\x77\xd0\0\0\x1c\x75\xb1\x72\
\xdb\x86\x23\xe0";

// A tile, and one whose Cr has no quant.
const NO_QUANT: &[u8] =
    b"\xc7\xcc\x96\0\0\0\x01\0\xc2\xca\0\0\0\x04\x02\x40\x02\0\x76\0\0\0\x76\x98\x67\x79\x8a\x66\
\x77\x86\x96\x7b\xc3\xca\x3b\0\0\0\0\x01\0\0\0\0\0\x14\0\x0a\0\x0a\0\0\x03\xe9\xc0\xe1\x41\
\x21\x55\xe8\xb0\x0f\x9f\x26\xf3\x94\xe7\x6f\x12\x67\xd0\0\0\x1c\x5d\x25\x1d\x97\xee\x93\xa0\
\0\0\x1c\xcb\x23\x25\x9a\x26\x4f\xa0\xc3\xca\x3b\0\0\0\0\0\x02\0\0\x01\0\x13\0\x0b\0\x0a\0\0\
\x03\xc4\xd0\x87\xf5\xf4\x53\x96\x5d\xab\x1b\x98\x94\x25\x89\x57\x7d\x1f\0\0\x1c\x33\x23\x74\
\xb3\x0b\xf7\xff\xc0\0\0\x1c\x6c\x48\xf5\x35\xb3\x5f\xfe";

// A tile, and a tile set of entropy bits 2 without tiles.
const NO_ENTROPY: &[u8] =
    b"\xc7\xcc\x5b\0\0\0\x01\0\xc2\xca\0\0\0\x04\x02\x40\x01\0\x3b\0\0\0\x76\x98\x67\x79\x8a\x66\
\x77\x86\x96\x7b\xc3\xca\x3b\0\0\0\0\x01\0\x01\0\x01\0\x14\0\x0a\0\x0a\0\0\x03\xe9\xc0\xe1\
\x41\x21\x55\xe8\xb0\x0f\x9f\x26\xf3\x94\xe7\x6f\x12\x67\xd0\0\0\x1c\x5d\x25\x1d\x97\xee\x93\
\xa0\0\0\x1c\xcb\x23\x25\x9a\x26\x4f\xa0\xc7\xcc\x1b\0\0\0\x01\0\xc2\xca\0\0\0\x08\x01\x40\0\
\0\0\0\0\0\x76\x98\x67\x79\x8a";

// A tile by RLGR3, in all of the rectangle: the last region before it has no rectangle.
const THREE: &[u8] =
    b"\xc6\xcc\x17\0\0\0\x01\0\x01\x01\0\x01\0\x01\0\x01\0\x01\0\xc1\xca\x01\0\xc6\xcc\x0f\0\0\0\
\x01\0\x01\0\0\xc1\xca\x01\0\xc7\xcc\x5a\0\0\0\x01\0\xc2\xca\0\0\0\x10\x02\x40\x01\0\x3a\0\0\
\0\x76\x98\x67\x79\x8a\x66\x77\x86\x96\x7b\xc3\xca\x3a\0\0\0\0\x01\0\x01\0\x01\0\x14\0\x0a\0\
\x09\0\0\x0d\x62\x03\x28\x7d\x9f\x30\xb7\x58\x97\x3b\xaa\x06\x57\x31\xf6\x84\x5e\xfa\0\0\x1c\
\x55\x91\xce\xdc\x9b\x60\xd0\0\0\x1c\x1a\xc8\x25\xd6\xc0\xfe\xc6\xcc\x17\0\0\0\x01\0\x01\x01\
\0\0\0\0\0\x01\0\x01\0\xc1\xca\x01\0";

// A quant of 5 that no tile uses.
const FIVE: &[u8] =
    b"\xc7\xcc\x20\0\0\0\x01\0\xc2\xca\0\0\0\x04\x02\x40\0\0\0\0\0\0\x76\x98\x67\x79\x8a\x66\x66\
\x65\x66\x66";

// A tile, and one far outside whose second value leaves the range.
const LARGE: &[u8] =
    b"\xc7\xcc\x7a\0\0\0\x01\0\xc2\xca\0\0\0\x04\x02\x40\x02\0\x5a\0\0\0\x76\x98\x67\x79\x8a\xff\
\xff\xff\xff\xff\xc3\xca\x3b\0\0\0\0\x01\0\0\0\0\0\x14\0\x0a\0\x0a\0\0\x02\x68\xd0\xea\x50\
\xba\x11\x4a\x22\x52\x4d\x4f\x16\x7c\x8c\x6a\xa8\xec\x7a\0\0\x1c\x20\xcc\xee\x8e\x37\x97\x40\
\0\0\x1c\x60\xcd\x0f\x43\x6d\xa3\xf4\xc3\xca\x1f\0\0\0\x01\x01\x01\x84\x03\0\0\x04\0\x04\0\
\x04\0\x87\x40\0\0\x80\0\0\0\xf8\0\0\0";

// Two tiles outside.
const OUTSIDE: &[u8] =
    b"\xc7\xcc\x95\0\0\0\x01\0\xc2\xca\0\0\0\x04\x02\x40\x02\0\x75\0\0\0\x76\x98\x67\x79\x8a\x66\
\x77\x86\x96\x7b\xc3\xca\x3b\0\0\0\0\x01\0\0\0\xff\xff\x14\0\x0a\0\x0a\0\0\x02\x68\xd0\xea\
\x50\xba\x11\x4a\x22\x52\x4d\x4f\x16\x7c\x8c\x6a\xa8\xec\x7a\0\0\x1c\x20\xcc\xee\x8e\x37\x97\
\x40\0\0\x1c\x60\xcd\x0f\x43\x6d\xa3\xf4\xc3\xca\x3a\0\0\0\0\x01\0\x02\0\0\0\x13\0\x0a\0\x0a\
\0\0\x03\x3e\x03\x65\xe7\x9a\xa6\x4a\x95\xb5\x72\x1a\x8d\x25\x8e\x6a\x45\xc0\0\0\x1d\x01\x61\
\x39\x5a\x69\x77\xd0\0\0\x1c\x75\xb1\x72\xdb\x86\x23\xe0";

// A tile set that says two tiles and has one.
const ONE_OF_TWO: &[u8] =
    b"\xc7\xcc\x56\0\0\0\x01\0\xc2\xca\0\0\0\x04\x01\x40\x02\0\x3b\0\0\0\x76\x98\x67\x79\x8a\xc3\
\xca\x3b\0\0\0\0\0\0\0\0\0\0\x13\0\x0b\0\x0a\0\0\x03\xc4\xd0\x87\xf5\xf4\x53\x96\x5d\xab\x1b\
\x98\x94\x25\x89\x57\x7d\x1f\0\0\x1c\x33\x23\x74\xb3\x0b\xf7\xff\xc0\0\0\x1c\x6c\x48\xf5\x35\
\xb3\x5f\xfe";

// A tile set that names no entropy coder, and a tile outside a tile set: structure comes first.
const LONE_TILE: &[u8] =
    b"\xc7\xcc\x1b\0\0\0\x01\0\xc2\xca\0\0\0\x08\x01\x40\0\0\0\0\0\0\xff\xff\xff\xff\xff\xc3\xca\
\x06\0\0\0";

// A tile by RLGR3, and one with a broken pair.
const BROKEN_PAIR: &[u8] =
    b"\xc7\xcc\x70\0\0\0\x01\0\xc2\xca\0\0\0\x10\x02\x40\x02\0\x50\0\0\0\x76\x98\x67\x79\x8a\x66\
\x77\x86\x96\x7b\xc3\xca\x3b\0\0\0\0\x01\0\0\0\0\0\x14\0\x0a\0\x0a\0\0\x18\x10\x02\x96\xe1\
\x16\xed\x97\xd5\x7f\xde\x25\xe4\x28\x66\x64\x57\x37\xc0\0\0\x1d\x03\x63\x96\x51\x16\x5f\x40\
\0\0\x1c\x1b\xb2\x82\xd5\x7b\x68\xe8\xc3\xca\x15\0\0\0\0\x01\0\x01\0\0\0\x02\0\0\0\0\0\x86\
\xc0";

// Where the upper byte of its tile set's properties stands.
const PROPERTIES: usize = 97;

// A message, what it is answered, and the sum of the surface after it.
struct Case {
    bytes: &'static [u8],
    due: Result<(), Fault>,
    sum: u32,
}

const CASES: [Case; 10] = [
    Case {
        bytes: FOUR,
        due: Ok(()),
        sum: 0xc2552ae2,
    },
    Case {
        bytes: NO_QUANT,
        due: Err(Fault::Refused(Refusal::QuantIndex)),
        sum: 0xc2552ae2,
    },
    Case {
        bytes: NO_ENTROPY,
        due: Err(Fault::Refused(Refusal::EntropyUnknown)),
        sum: 0xc2552ae2,
    },
    Case {
        bytes: THREE,
        due: Ok(()),
        sum: 0xc64f1dbe,
    },
    Case {
        bytes: FIVE,
        due: Err(Fault::Refused(Refusal::QuantRange)),
        sum: 0xc64f1dbe,
    },
    Case {
        bytes: LARGE,
        due: Err(Fault::Refused(Refusal::CoefficientRange)),
        sum: 0xc64f1dbe,
    },
    Case {
        bytes: OUTSIDE,
        due: Ok(()),
        sum: 0xc64f1dbe,
    },
    Case {
        bytes: ONE_OF_TWO,
        due: Err(Fault::Refused(Refusal::TileCount)),
        sum: 0xc64f1dbe,
    },
    Case {
        bytes: LONE_TILE,
        due: Err(Fault::Refused(Refusal::BlockUnknown)),
        sum: 0xc64f1dbe,
    },
    Case {
        bytes: BROKEN_PAIR,
        due: Err(Fault::Refused(Refusal::CoefficientRange)),
        sum: 0xc64f1dbe,
    },
];

// The answer to a message for a rectangle, if it lies on the surface.
fn answer(
    decoder: &mut VideoDecoder,
    surface: &mut Surface,
    rect: Rect,
    bytes: &[u8],
) -> Option<Result<(), Fault>> {
    let (width, height) = surface.size();
    if rect.lies_in(width, height) {
        Some(decoder.decode(surface, rect, bytes))
    } else {
        None
    }
}

// A sum of all pixels row by row, as B, G, R, A: each byte counts 31 times as much as the one behind it.
fn sum_of(surface: &Surface) -> u32 {
    let (width, height) = surface.size();
    let mut sum = 0u32;
    for y in 0..height {
        for x in 0..width {
            let pixel = surface.pixel(x, y);
            for byte in [pixel.b, pixel.g, pixel.r, pixel.a] {
                sum = sum.wrapping_mul(31).wrapping_add(u32::from(byte));
            }
        }
    }
    sum
}

// The answer to a message alone, by memory of its own.
fn answer_alone(
    alloc: Global,
    surface: &mut Surface,
    rect: Rect,
    bytes: &[u8],
) -> Option<Result<(), Fault>> {
    let (width, height) = surface.size();
    if rect.lies_in(width, height) {
        Some(decode_video(alloc, surface, rect, bytes))
    } else {
        None
    }
}

// Whether a message is answered and drawn so.
fn is_so(decoder: &mut VideoDecoder, surface: &mut Surface, rect: Rect, case: &Case) -> bool {
    answer(decoder, surface, rect, case.bytes) == Some(case.due) && sum_of(surface) == case.sum
}

// Tiles across cells, in regions, by both coders, and refusals behind tiles that are drawn already.
#[test]
fn messages(rt: HostRuntime) -> Result<(), Fail> {
    let mut surface = Surface::new(rt.alloc(), 150, 140, Format::Xrgb).map_err(|_| "no memory")?;
    let rect = Rect {
        left: 37,
        top: 21,
        right: 137,
        bottom: 121,
    };
    let mut decoder = VideoDecoder::new(rt.alloc());
    let mut all = true;
    for case in &CASES {
        all = is_so(&mut decoder, &mut surface, rect, case) && all;
    }
    assert!(rt; all);
    Ok(())
}

// Whether all pixels of a surface are this one.
fn is_filled(surface: &Surface, pixel: Pixel) -> bool {
    let (width, height) = surface.size();
    for y in 0..height {
        for x in 0..width {
            if surface.pixel(x, y) != pixel {
                return false;
            }
        }
    }
    true
}

// Gives a surface one colour.
fn fill(surface: &mut Surface, colour: Pixel) {
    let (width, height) = surface.size();
    surface.fill(Rect::sized(width, height), colour);
}

// Entropy bits 2 are refused and leave the surface as it was; with 1 in their place all of it is grey.
#[test]
fn entropy_unknown(rt: HostRuntime) -> Result<(), Fail> {
    let mut surface = Surface::new(rt.alloc(), 64, 64, Format::Argb).map_err(|_| "no memory")?;
    let before = Pixel {
        b: 1,
        g: 2,
        r: 3,
        a: 4,
    };
    fill(&mut surface, before);
    let rect = Rect::sized(64, 64);
    let mut decoder = VideoDecoder::new(rt.alloc());
    let mut unknown = *GREY;
    unknown[PROPERTIES] = 0x48;
    let refused = answer(&mut decoder, &mut surface, rect, &unknown);
    assert_eq!(rt; refused, Some(Err(Fault::Refused(Refusal::EntropyUnknown))));
    assert!(rt; is_filled(&surface, before));
    let drawn = answer_alone(rt.alloc(), &mut surface, rect, GREY);
    assert_eq!(rt; drawn, Some(Ok(())));
    let grey = Pixel {
        b: 0x80,
        g: 0x80,
        r: 0x80,
        a: 0xff,
    };
    assert!(rt; is_filled(&surface, grey));
    Ok(())
}
