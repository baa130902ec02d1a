//! What of the screen the messages of each kind write.
use crate::claiming::{claim, living};
use gfx_base::{Rect, Refusal};
use gfx_client::{Client, ClientFault, Damage};
use std::alloc::Global;

/// A channel message, and what is written behind it since a frame ended: whether anything may show, and which
/// rectangles of surface 1.
struct Row {
    message: &'static [u8],
    whole: bool,
    rects: &'static [Rect],
}

const FIRST: Rect = Rect {
    left: 1,
    top: 2,
    right: 3,
    bottom: 4,
};

const SECOND: Rect = Rect {
    left: 5,
    top: 5,
    right: 8,
    bottom: 6,
};

/// The first rectangle, its left top corner taken to the left top of the surface.
const NEAR: Rect = Rect {
    left: 0,
    top: 0,
    right: 2,
    bottom: 2,
};

/// The same at the right bottom.
const FAR: Rect = Rect {
    left: 6,
    top: 6,
    right: 8,
    bottom: 8,
};

/// What of a rectangle of a region lies on the surface.
const CLIPPED: Rect = Rect {
    left: 2,
    top: 2,
    right: 8,
    bottom: 5,
};

/// Two frames: what is made, and then what is drawn, a message of each kind.
const ROWS: [Row; 15] = [
    // StartFrame 1.
    Row {
        message: &[0xe0, 4, 0xb, 0, 0, 0, 0x10, 0, 0, 0, 0, 0, 0, 0, 1, 0, 0, 0],
        whole: false,
        rects: &[],
    },
    // CreateSurface 1 of 8 by 8, XRGB.
    Row {
        message: &[0xe0, 4, 9, 0, 0, 0, 0xf, 0, 0, 0, 1, 0, 8, 0, 8, 0, 0x20],
        whole: true,
        rects: &[],
    },
    // SolidFill of the first rectangle.
    Row {
        message: &[
            0xe0, 4, 4, 0, 0, 0, 0x18, 0, 0, 0, 1, 0, 0, 0, 0xff, 0, 1, 0, 1, 0, 2, 0, 3, 0, 4, 0,
        ],
        whole: true,
        rects: &[FIRST],
    },
    // EndFrame 1. What was written stays.
    Row {
        message: &[0xe0, 4, 0xc, 0, 0, 0, 0xc, 0, 0, 0, 1, 0, 0, 0],
        whole: true,
        rects: &[FIRST],
    },
    // StartFrame 2. All begins anew.
    Row {
        message: &[0xe0, 4, 0xb, 0, 0, 0, 0x10, 0, 0, 0, 0, 0, 0, 0, 2, 0, 0, 0],
        whole: false,
        rects: &[],
    },
    // SolidFill of both rectangles.
    Row {
        message: &[
            0xe0, 4, 4, 0, 0, 0, 0x20, 0, 0, 0, 1, 0, 0, 0, 0xff, 0, 2, 0, 1, 0, 2, 0, 3, 0, 4, 0,
            5, 0, 5, 0, 8, 0, 6, 0,
        ],
        whole: false,
        rects: &[FIRST, SECOND],
    },
    // SurfaceToSurface of the first rectangle to two points.
    Row {
        message: &[
            0xe0, 4, 5, 0, 0, 0, 0x1e, 0, 0, 0, 1, 0, 1, 0, 1, 0, 2, 0, 3, 0, 4, 0, 2, 0, 0, 0, 0,
            0, 6, 0, 6, 0,
        ],
        whole: false,
        rects: &[FIRST, SECOND, NEAR, FAR],
    },
    // SurfaceToCache of the first rectangle, which writes nothing.
    Row {
        message: &[
            0xe0, 4, 6, 0, 0, 0, 0x1c, 0, 0, 0, 1, 0, 9, 0, 0, 0, 0, 0, 0, 0, 1, 0, 1, 0, 2, 0, 3,
            0, 4, 0,
        ],
        whole: false,
        rects: &[FIRST, SECOND, NEAR, FAR],
    },
    // EndFrame 2.
    Row {
        message: &[0xe0, 4, 0xc, 0, 0, 0, 0xc, 0, 0, 0, 2, 0, 0, 0],
        whole: false,
        rects: &[FIRST, SECOND, NEAR, FAR],
    },
    // CacheToSurface of that slot to the same points, outside a frame.
    Row {
        message: &[
            0xe0, 4, 7, 0, 0, 0, 0x16, 0, 0, 0, 1, 0, 1, 0, 2, 0, 0, 0, 0, 0, 6, 0, 6, 0,
        ],
        whole: false,
        rects: &[NEAR, FAR],
    },
    // WireToSurface1 of the second rectangle, uncompressed.
    Row {
        message: &[
            0xe0, 4, 1, 0, 0, 0, 0x25, 0, 0, 0, 1, 0, 0, 0, 0x20, 5, 0, 5, 0, 8, 0, 6, 0, 0xc, 0,
            0, 0, 1, 2, 3, 0, 1, 2, 3, 0, 1, 2, 3, 0,
        ],
        whole: false,
        rects: &[NEAR, FAR, SECOND],
    },
    // WireToSurface2 with a region of no tile, whose rectangle reaches over the surface.
    Row {
        message: &[
            0xe0, 4, 2, 0, 0, 0, 0x2f, 0, 0, 0, 1, 0, 9, 0, 0, 0, 0, 0, 0x20, 0x1a, 0, 0, 0, 0xc4,
            0xcc, 0x1a, 0, 0, 0, 0x40, 1, 0, 0, 0, 0, 0, 0, 0, 0, 0, 0, 2, 0, 2, 0, 0x14, 0, 3, 0,
        ],
        whole: false,
        rects: &[NEAR, FAR, SECOND, CLIPPED],
    },
    // EvictCacheEntry 1, which writes nothing.
    Row {
        message: &[0xe0, 4, 8, 0, 0, 0, 0xa, 0, 0, 0, 1, 0],
        whole: false,
        rects: &[NEAR, FAR, SECOND, CLIPPED],
    },
    // MapSurfaceToOutput of surface 1.
    Row {
        message: &[
            0xe0, 4, 0xf, 0, 0, 0, 0x14, 0, 0, 0, 1, 0, 0, 0, 0, 0, 0, 0, 0, 0, 0, 0,
        ],
        whole: true,
        rects: &[NEAR, FAR, SECOND, CLIPPED],
    },
    // DeleteSurface 1.
    Row {
        message: &[0xe0, 4, 0xa, 0, 0, 0, 0xa, 0, 0, 0, 1, 0],
        whole: true,
        rects: &[NEAR, FAR, SECOND, CLIPPED],
    },
];

/// Applies the message of a row, and says whether that is written which is due.
fn writes(client: &mut Client, row: &Row) -> Result<bool, ClientFault> {
    client.take_whole(row.message)?;
    client.step()?;
    Ok(shows(client.damage(), row.whole, row.rects))
}

/// Whether that is written.
fn shows(damage: &Damage, whole: bool, rects: &[Rect]) -> bool {
    damage.is_whole() == whole && same(damage.rects(1), rects)
}

fn same(some: &[Rect], others: &[Rect]) -> bool {
    some == others
}

fn all_write(client: &mut Client) -> Result<bool, ClientFault> {
    for row in &ROWS {
        if !writes(client, row)? {
            return Ok(false);
        }
    }
    Ok(true)
}

fn all_rows(alloc: Global) -> Result<bool, ClientFault> {
    let Ok(mut client) = living(alloc) else {
        return Err(ClientFault::Memory);
    };
    let right = all_write(&mut client);
    client.let_go();
    right
}

#[test]
fn each_message_writes_its_rectangles(rt: HostRuntime) {
    claim(&rt, all_rows(rt.alloc()));
}

/// SolidFill of a surface that isn't there.
const ASTRAY: &[u8] = &[
    0xe0, 4, 4, 0, 0, 0, 0x18, 0, 0, 0, 7, 0, 0, 0, 0xff, 0, 1, 0, 0, 0, 0, 0, 1, 0, 1, 0,
];

/// Whether a refused message writes nothing, behind one that has.
fn is_left(client: &mut Client) -> Result<bool, ClientFault> {
    for row in &ROWS[..3] {
        client.take_whole(row.message)?;
        client.step()?;
    }
    client.take_whole(ASTRAY)?;
    let refused = ClientFault::Refused {
        number: 4,
        refusal: Refusal::NoSurface,
    };
    let is_refused = client.step().err() == Some(refused);
    Ok(is_refused && client.damage().rects(1) == [FIRST].as_slice())
}

fn refused(alloc: Global) -> Result<bool, ClientFault> {
    let Ok(mut client) = living(alloc) else {
        return Err(ClientFault::Memory);
    };
    let right = is_left(&mut client);
    client.let_go();
    right
}

#[test]
fn a_refused_message_writes_nothing(rt: HostRuntime) {
    claim(&rt, refused(rt.alloc()));
}
