//! Sessions whose ends begin with bitmaps of one key that differ in their pixels: nothing is refused, and each digest is of
//! its own end's state. The digests are those of an independent program.
use gfx_chooser::Once;
use gfx_import::{Kept, have_same_sides, read_kept};
use gfx_script_text::read_script_kept;
use gfx_session::{Acked, Digests, Session};
use std::alloc::Global;
use std::test::Fail;

/// A file that keeps one red pixel under key 5.
const RED: &[u8] = b"KEPT\x01\x00\x05\x00\x00\x00\x00\x00\x00\x00\x01\x00\x01\x00\x00\x00\xff\xff";

/// The same with a green one.
const GREEN: &[u8] =
    b"KEPT\x01\x00\x05\x00\x00\x00\x00\x00\x00\x00\x01\x00\x01\x00\x00\xff\x00\xff";

/// A surface of two pixels, of which the first shows what is kept under key 5.
const SCRIPT: &str =
    "step = [{ do = \"surface\", id = 1, width = 2, height = 1 }, { do = \"show\", key = 5, to = 1, points = [[0, 0]] }, { do = \"frame\" }]";

/// The digest of the state with one red pixel.
const RED_STATE: [u8; 32] = [
    0xe9, 0x28, 0x8e, 0x0c, 0xd1, 0xf4, 0xcc, 0xbb, 0x04, 0xa8, 0x17, 0x96, 0xcb, 0xee, 0xb0, 0xbe,
    0xb5, 0xa8, 0x3e, 0xa9, 0xd4, 0xd0, 0xc4, 0x0c, 0x7d, 0xf7, 0xb9, 0x28, 0x8d, 0x3a, 0xb0, 0x0d,
];

/// The same with a green one.
const GREEN_STATE: [u8; 32] = [
    0x00, 0xa9, 0xd5, 0xe1, 0xe2, 0x2f, 0xb7, 0x15, 0xc4, 0xa0, 0xcd, 0x35, 0x45, 0x1f, 0xdc, 0x19,
    0xb4, 0xfd, 0xe3, 0x93, 0x5d, 0x8a, 0xb0, 0x49, 0xa6, 0xb2, 0xaa, 0x63, 0xc9, 0x41, 0xaf, 0x21,
];

/// How many frames of the session of this script are acknowledged that begins with these bitmaps, and the first of them.
fn acknowledged(
    alloc: Global,
    server: &Kept,
    client: &Kept,
) -> Result<(usize, Option<Acked>), Fail> {
    let script = read_script_kept(alloc, SCRIPT.as_bytes(), server, client)?;
    if !have_same_sides(server, client, script.small()) {
        return Err(Fail::from("other sides"));
    }
    let mut session = Session::with_kept(alloc, script, server, client, Digests::On)?;
    let mut nobody: Vec<Once> = Vec::new(alloc);
    let drained = session.drain(&mut nobody);
    let count = session.acks().len();
    let first = session.acks().get(0);
    session.let_go();
    drained?;
    Ok((count, first))
}

#[test]
fn each_digest_is_of_its_own_end(rt: HostRuntime) -> Result<(), Fail> {
    let server = read_kept(rt.alloc(), RED)?;
    let client = read_kept(rt.alloc(), GREEN)?;
    let frame = Acked {
        frame: 1,
        step: 3,
        client: Some(GREEN_STATE),
        server: Some(RED_STATE),
    };
    assert_eq!(rt;
        acknowledged(rt.alloc(), &server, &client)?,
        (1, Some(frame))
    );
    Ok(())
}
