//! Scripts that are built by calls, and what a refused call leaves.
use gfx_base::{Format, NoMemory, Pixel, Point};
use gfx_caps::{AVC_DISABLED, Chosen, VERSION_10};
use gfx_script::{Flaw, Head, Kind, Picture, Script, ScriptBuilder, ScriptKind, Step, Turn};
use std::alloc::Global;

/// What a client of version 10 is confirmed.
const CHOSEN: Chosen = Chosen {
    version: VERSION_10,
    flags: AVC_DISABLED,
};

/// A picture of one pixel, of these bytes.
fn one_pixel(alloc: Global, bytes: [u8; 4]) -> Result<Picture, Flaw> {
    Picture::from_rows(alloc, 1, 1, &bytes)
}

/// Pushes a surface, a red pixel, a paint beside the surface, a turn and a frame: whether the one that is wrong is told so.
fn push_all(alloc: Global, builder: &mut ScriptBuilder) -> Result<bool, Flaw> {
    builder.push(Step::Surface {
        id: 1,
        width: 2,
        height: 1,
        format: Format::Xrgb,
    })?;
    let red = one_pixel(alloc, [0, 0, 255, 9])?;
    let is_red = red.pixel(0, 0)
        == Pixel {
            b: 0,
            g: 0,
            r: 255,
            a: 255,
        };
    builder.paint(red, 1, Point { x: 1, y: 0 }, Some(Kind::Raw), None)?;
    let blue = one_pixel(alloc, [255, 0, 0, 9])?;
    let beside = builder.paint(blue, 1, Point { x: 2, y: 0 }, None, None);
    builder.turn(Turn::Server)?;
    builder.push(Step::Frame)?;
    Ok(is_red && beside == Err(Flaw::Refused(ScriptKind::Outside)))
}

/// Whether a script is the surface, the red pixel and the frame, with one turn.
fn is_whole(script: &Script) -> bool {
    let pictures = (script.picture_size(0), script.picture_size(1));
    script.step_count() == 3
        && pictures == (Some((1, 1)), None)
        && script.turn(0) == Some(Turn::Server)
        && script.window() == 2
}

/// Whether the calls give that script.
fn is_built(alloc: Global) -> Result<bool, NoMemory> {
    let head = Head::for_client(alloc, CHOSEN)?;
    let mut builder = ScriptBuilder::new(alloc, head)?;
    let told = push_all(alloc, &mut builder);
    match builder.finish() {
        Ok(script) => Ok(told == Ok(true) && is_whole(&script)),
        Err(_) => Ok(false),
    }
}

#[test]
fn a_script_by_calls(rt: HostRuntime) {
    assert_eq!(rt; is_built(rt.alloc()), Ok(true));
}
