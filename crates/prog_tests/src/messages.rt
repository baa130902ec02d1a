//! Messages on one surface and one set of records.
use gfx_base::{Fault, Format, Pixel, Rect, Refusal};
use gfx_prog_decode::Records;
use gfx_surface::Surface;
use std::alloc::Global;
use std::process::Abort;
use std::test::Fail;

// A region of one first tile of grey.
const GREY: &[u8] = b"\xc4\xcc\x59\0\0\0\x40\x01\0\x03\x01\x01\x01\0\x20\0\0\0\0\0\0\0\x40\0\x40\0\
\x66\x66\x66\x66\x66\x66\x66\x66\x66\x66\x66\x66\x66\x66\x66\
\0\x44\x44\x44\x44\x44\x44\x44\x44\x44\x44\x44\x44\x44\x44\x44\
\xc6\xcc\x20\0\0\0\0\x01\x02\0\0\0\0\0\0\x03\0\x03\0\x03\0\0\0\0\0\0\0\0\0\0\0\0";

// The same as a difference tile, and as one of the plain transform.
const DIFFERENCE: &[u8] =
    b"\xc4\xcc\x59\0\0\0\x40\x01\0\x03\x01\x01\x01\0\x20\0\0\0\0\0\0\0\x40\0\x40\0\
\x66\x66\x66\x66\x66\x66\x66\x66\x66\x66\x66\x66\x66\x66\x66\
\0\x44\x44\x44\x44\x44\x44\x44\x44\x44\x44\x44\x44\x44\x44\x44\
\xc6\xcc\x20\0\0\0\0\x01\x02\0\0\0\0\x01\0\x03\0\x03\0\x03\0\0\0\0\0\0\0\0\0\0\0\0";

const PLAIN: &[u8] = b"\xc4\xcc\x59\0\0\0\x40\x01\0\x03\x01\0\x01\0\x20\0\0\0\0\0\0\0\x40\0\x40\0\
\x66\x66\x66\x66\x66\x66\x66\x66\x66\x66\x66\x66\x66\x66\x66\
\0\x44\x44\x44\x44\x44\x44\x44\x44\x44\x44\x44\x44\x44\x44\x44\
\xc6\xcc\x20\0\0\0\0\x01\x02\0\0\0\0\x01\0\x03\0\x03\0\x03\0\0\0\0\0\0\0\0\0\0\0\0";

// A white tile as a server paints it, and the upgrade that makes it whole.
const WHITE: &[u8] =
    b"\xc0\xcc\x0c\0\0\0\xca\xac\xcc\xca\0\x01\xc3\xcc\x0a\0\0\0\x01\x40\0\0\xc1\xcc\x0c\0\0\0\0\0\0\0\x01\0\
\xc4\xcc\x5b\0\0\0\x40\x01\0\x03\x01\x01\x01\0\x22\0\0\0\0\0\0\0\x40\0\x40\0\
\x66\x66\x66\x66\x66\x66\x66\x66\x66\x66\x66\x66\x66\x66\x66\
\0\x44\x44\x44\x44\x44\x44\x44\x44\x44\x44\x44\x44\x44\x44\x44\
\xc6\xcc\x22\0\0\0\0\x01\x02\0\0\0\0\0\0\x05\0\x03\0\x03\0\0\0\0\0\x1e\xcd\xc0\0\0\0\0\0\0\xc2\xcc\x06\0\0\0";

const WHITER: &[u8] =
    b"\xc4\xcc\xd7\0\0\0\x40\x01\0\x03\x01\x01\x01\0\x9e\0\0\0\0\0\0\0\x40\0\x40\0\
\x66\x66\x66\x66\x66\x66\x66\x66\x66\x66\x66\x66\x66\x66\x66\
\0\x44\x44\x44\x44\x44\x44\x44\x44\x44\x44\x44\x44\x44\x44\x44\
\xc7\xcc\x9e\0\0\0\0\x01\x02\0\0\0\0\xff\x03\0\x29\0\x03\0\x29\0\x03\0\x29\0\0\0\0\
\xff\xff\xff\xff\xff\xff\xff\xff\xff\xff\xff\xff\xff\xff\xff\xff\xff\xff\xff\xff\
\xff\xff\xff\xff\xff\xff\xff\xff\xff\xff\xff\xff\xff\xff\xff\xff\xff\xff\xff\xff\xf0\
\0\0\0\0\0\0\0\0\0\0\0\0\0\0\0\0\0\0\0\0\0\0\0\0\0\0\0\0\0\0\0\0\0\0\0\0\0\0\0\0\0\0\0\0\
\0\0\0\0\0\0\0\0\0\0\0\0\0\0\0\0\0\0\0\0\0\0\0\0\0\0\0\0\0\0\0\0\0\0\0\0\0\0\0\0\0\0\0\0";

// A region of an upgrade to the same level: nothing falls.
const SAME: &[u8] = b"\xc4\xcc\x53\0\0\0\x40\x01\0\x03\x01\x01\x01\0\x1a\0\0\0\0\0\0\0\x40\0\x40\0\
\x66\x66\x66\x66\x66\x66\x66\x66\x66\x66\x66\x66\x66\x66\x66\
\0\x44\x44\x44\x44\x44\x44\x44\x44\x44\x44\x44\x44\x44\x44\x44\
\xc7\xcc\x1a\0\0\0\0\x01\x02\0\0\0\0\0\0\0\0\0\0\0\0\0\0\0\0\0";

// The same with data for all components: none of it is read.
const SAME_WITH_DATA: &[u8] =
    b"\xc4\xcc\x5c\0\0\0\x40\x01\0\x03\x01\x01\x01\0\x23\0\0\0\0\0\0\0\x40\0\x40\0\
\x66\x66\x66\x66\x66\x66\x66\x66\x66\x66\x66\x66\x66\x66\x66\
\0\x44\x44\x44\x44\x44\x44\x44\x44\x44\x44\x44\x44\x44\x44\x44\
\xc7\xcc\x23\0\0\0\0\x01\x02\0\0\0\0\0\x02\0\x01\0\x01\0\x02\0\x01\0\x02\0\
\xff\xff\xff\xff\xff\xff\xff\xff\xff";

// Upgrades to the same level but for one band: LL3 of Y, HH1 of Cr, and one of Cb between them.
const WORSE_FIRST: &[u8] =
    b"\xc4\xcc\x53\0\0\0\x40\x01\0\x03\x01\x01\x01\0\x1a\0\0\0\0\0\0\0\x40\0\x40\0\
\x66\x66\x66\x66\x66\x66\x66\x66\x66\x66\x66\x66\x66\x66\x66\
\0\x45\x44\x44\x44\x44\x44\x44\x44\x44\x44\x44\x44\x44\x44\x44\
\xc7\xcc\x1a\0\0\0\0\x01\x02\0\0\0\0\0\0\0\0\0\0\0\0\0\0\0\0\0";

const WORSE_LAST: &[u8] =
    b"\xc4\xcc\x53\0\0\0\x40\x01\0\x03\x01\x01\x01\0\x1a\0\0\0\0\0\0\0\x40\0\x40\0\
\x66\x66\x66\x66\x66\x66\x66\x66\x66\x66\x66\x66\x66\x66\x66\
\0\x44\x44\x44\x44\x44\x44\x44\x44\x44\x44\x44\x44\x44\x44\x54\
\xc7\xcc\x1a\0\0\0\0\x01\x02\0\0\0\0\0\0\0\0\0\0\0\0\0\0\0\0\0";

const WORSE_BETWEEN: &[u8] =
    b"\xc4\xcc\x53\0\0\0\x40\x01\0\x03\x01\x01\x01\0\x1a\0\0\0\0\0\0\0\x40\0\x40\0\
\x66\x66\x66\x66\x66\x66\x66\x66\x66\x66\x66\x66\x66\x66\x66\
\0\x44\x44\x44\x44\x44\x44\x44\x45\x44\x44\x44\x44\x44\x44\x44\
\xc7\xcc\x1a\0\0\0\0\x01\x02\0\0\0\0\0\0\0\0\0\0\0\0\0\0\0\0\0";

// A white tile of the plain transform, an upgrade of it to the same level, and a difference tile of white over it by the
// reduced transform.
const PLAIN_WHITE: &[u8] =
    b"\xc4\xcc\x5b\0\0\0\x40\x01\0\x03\x01\0\x01\0\x22\0\0\0\0\0\0\0\x40\0\x40\0\
\x66\x66\x66\x66\x66\x66\x66\x66\x66\x66\x66\x66\x66\x66\x66\
\0\x44\x44\x44\x44\x44\x44\x44\x44\x44\x44\x44\x44\x44\x44\x44\
\xc6\xcc\x22\0\0\0\0\x01\x02\0\0\0\0\0\0\x05\0\x03\0\x03\0\0\0\0\0\x1f\x11\xc0\0\0\0\0\0\0";

const PLAIN_SAME: &[u8] =
    b"\xc4\xcc\x53\0\0\0\x40\x01\0\x03\x01\0\x01\0\x1a\0\0\0\0\0\0\0\x40\0\x40\0\
\x66\x66\x66\x66\x66\x66\x66\x66\x66\x66\x66\x66\x66\x66\x66\
\0\x44\x44\x44\x44\x44\x44\x44\x44\x44\x44\x44\x44\x44\x44\x44\
\xc7\xcc\x1a\0\0\0\0\x01\x02\0\0\0\0\0\0\0\0\0\0\0\0\0\0\0\0\0";

const WHITE_DIFFERENCE: &[u8] =
    b"\xc4\xcc\x5b\0\0\0\x40\x01\0\x03\x01\x01\x01\0\x22\0\0\0\0\0\0\0\x40\0\x40\0\
\x66\x66\x66\x66\x66\x66\x66\x66\x66\x66\x66\x66\x66\x66\x66\
\0\x44\x44\x44\x44\x44\x44\x44\x44\x44\x44\x44\x44\x44\x44\x44\
\xc6\xcc\x22\0\0\0\0\x01\x02\0\0\0\0\x01\0\x05\0\x03\0\x03\0\0\0\0\0\x1e\xcd\xc0\0\0\0\0\0\0";

// A grey tile, and one in a cell outside.
const OUTSIDE: &[u8] =
    b"\xc4\xcc\x6f\0\0\0\x40\x01\0\x03\x01\x01\x02\0\x36\0\0\0\0\0\0\0\x40\0\x40\0\
\x66\x66\x66\x66\x66\x66\x66\x66\x66\x66\x66\x66\x66\x66\x66\
\0\x44\x44\x44\x44\x44\x44\x44\x44\x44\x44\x44\x44\x44\x44\x44\
\xc6\xcc\x20\0\0\0\0\x01\x02\0\0\0\0\0\0\x03\0\x03\0\x03\0\0\0\0\0\0\0\0\0\0\0\0\
\xc5\xcc\x16\0\0\0\0\x01\x02\x05\0\0\0\0\0\0\0\0\0\0\0\0";

// A grey tile, and an upgrade in the cell to its right, which has no tile.
const UPGRADE_BESIDE: &[u8] =
    b"\xc4\xcc\x73\0\0\0\x40\x01\0\x03\x01\x01\x02\0\x3a\0\0\0\0\0\0\0\x80\0\x40\0\
\x66\x66\x66\x66\x66\x66\x66\x66\x66\x66\x66\x66\x66\x66\x66\
\0\x44\x44\x44\x44\x44\x44\x44\x44\x44\x44\x44\x44\x44\x44\x44\
\xc6\xcc\x20\0\0\0\0\x01\x02\0\0\0\0\0\0\x03\0\x03\0\x03\0\0\0\0\0\0\0\0\0\0\0\0\
\xc7\xcc\x1a\0\0\0\0\x01\x02\x01\0\0\0\0\0\0\0\0\0\0\0\0\0\0\0\0";

fn grey(value: u8) -> Pixel {
    Pixel {
        b: value,
        g: value,
        r: value,
        a: 0xff,
    }
}

// Whether all of the first cell is of this grey, and all beside it black.
fn shows(surface: &Surface, shade: u8) -> bool {
    let (width, height) = surface.size();
    for y in 0..height {
        for x in 0..width {
            let due = if x < 64 { grey(shade) } else { grey(0) };
            if surface.pixel(x, y) != due {
                return false;
            }
        }
    }
    true
}

// A message, what it is answered, and the grey of the first cell after it.
struct Case {
    bytes: &'static [u8],
    due: Result<(), Fault>,
    shade: u8,
}

const CASES: [Case; 18] = [
    Case {
        bytes: SAME,
        due: Err(Fault::Refused(Refusal::NoFirstPass)),
        shade: 0,
    },
    Case {
        bytes: OUTSIDE,
        due: Err(Fault::Refused(Refusal::TileOutside)),
        shade: 0,
    },
    Case {
        bytes: DIFFERENCE,
        due: Ok(()),
        shade: 0x80,
    },
    Case {
        bytes: PLAIN,
        due: Err(Fault::Refused(Refusal::TransformChanged)),
        shade: 0x80,
    },
    Case {
        bytes: WHITE,
        due: Ok(()),
        shade: 0xf0,
    },
    Case {
        bytes: SAME,
        due: Ok(()),
        shade: 0xf0,
    },
    Case {
        bytes: SAME_WITH_DATA,
        due: Ok(()),
        shade: 0xf0,
    },
    Case {
        bytes: WORSE_FIRST,
        due: Err(Fault::Refused(Refusal::QualityWorse)),
        shade: 0xf0,
    },
    Case {
        bytes: WORSE_BETWEEN,
        due: Err(Fault::Refused(Refusal::QualityWorse)),
        shade: 0xf0,
    },
    Case {
        bytes: WORSE_LAST,
        due: Err(Fault::Refused(Refusal::QualityWorse)),
        shade: 0xf0,
    },
    Case {
        bytes: WHITER,
        due: Ok(()),
        shade: 0xff,
    },
    Case {
        bytes: SAME,
        due: Err(Fault::Refused(Refusal::QualityWorse)),
        shade: 0xff,
    },
    Case {
        bytes: OUTSIDE,
        due: Err(Fault::Refused(Refusal::TileOutside)),
        shade: 0xff,
    },
    Case {
        bytes: DIFFERENCE,
        due: Ok(()),
        shade: 0xff,
    },
    Case {
        bytes: GREY,
        due: Ok(()),
        shade: 0x80,
    },
    Case {
        bytes: PLAIN_WHITE,
        due: Ok(()),
        shade: 0xf0,
    },
    Case {
        bytes: WHITE_DIFFERENCE,
        due: Err(Fault::Refused(Refusal::TransformChanged)),
        shade: 0xf0,
    },
    Case {
        bytes: PLAIN_SAME,
        due: Ok(()),
        shade: 0xf0,
    },
];

// Whether a message is answered and drawn so.
fn is_so(alloc: Global, records: &mut Records, surface: &mut Surface, case: &Case) -> bool {
    records.apply(alloc, surface, 1, 1, case.bytes) == case.due && shows(surface, case.shade)
}

// Messages one after the other, as an independent program answers them.
#[test]
fn messages_in_turn(rt: HostRuntime) -> Result<(), Fail> {
    let mut records = Records::new(rt.alloc());
    let mut surface = Surface::new(rt.alloc(), 70, 64, Format::Xrgb).map_err(|_| "no memory")?;
    let mut all = true;
    for case in &CASES {
        all = is_so(rt.alloc(), &mut records, &mut surface, case) && all;
    }
    assert!(rt; all);
    Ok(())
}

// How many records there are after each call.
fn counts(alloc: Global) -> Option<[usize; 3]> {
    let mut records = Records::new(alloc);
    let mut surface = Surface::new(alloc, 64, 64, Format::Argb).ok()?;
    let mut all = true;
    for (id, context) in [(1, 1), (1, 2), (2, 1), (2, 1)] {
        all = records
            .apply(alloc, &mut surface, id, context, GREY)
            .is_ok()
            && all;
    }
    let first = records.count();
    records.drop_context(1, 2);
    let second = records.count();
    records.drop_surface(1);
    let third = records.count();
    if all {
        Some([first, second, third])
    } else {
        None
    }
}

// Records go with their surface and their context.
#[test]
fn records_dropped(rt: HostRuntime) -> Result<(), Fail> {
    assert_eq!(rt; counts(rt.alloc()), Some([3, 2, 1]));
    Ok(())
}

// Whether all pixels of a surface are this one.
fn is_filled(surface: &Surface, pixel: Pixel) -> bool {
    let (width, height) = surface.size();
    for y in 0..height {
        for x in 0..width {
            if surface.pixel(x, y) != pixel {
                return false;
            }
        }
    }
    true
}

// Gives a surface one colour.
fn fill(surface: &mut Surface, colour: Pixel) {
    let (width, height) = surface.size();
    surface.fill(Rect::sized(width, height), colour);
}

// A message that is refused at its second tile leaves no trace of its first.
#[test]
fn staged_tiles(rt: HostRuntime) -> Result<(), Fail> {
    let mut records = Records::new(rt.alloc());
    let mut surface = Surface::new(rt.alloc(), 128, 64, Format::Argb).map_err(|_| "no memory")?;
    let before = Pixel {
        b: 1,
        g: 2,
        r: 3,
        a: 4,
    };
    fill(&mut surface, before);
    let done = records.apply(rt.alloc(), &mut surface, 1, 1, UPGRADE_BESIDE);
    assert!(rt; done == Err(Fault::Refused(Refusal::NoFirstPass)));
    assert!(rt; is_filled(&surface, before));
    assert_eq!(rt; records.count(), 0);
    Ok(())
}
