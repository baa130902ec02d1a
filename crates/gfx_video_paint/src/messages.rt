//! The messages of a paint.
ghost use Rattle.std.specs.Prelude.{◌≡◌, IfOk, IfSome, IsSome, OnOk, true};
ghost use Rattle.std.specs.List.{slice_get};
ghost use Rattle.gfx_base.specs.Cells.{has_pixels};
ghost use Rattle.gfx_base.specs.Geometry.{sized};
ghost use Rattle.gfx_quant.specs.Setting.{is_accepted};
ghost use Rattle.gfx_prog_live.specs.Inside.{OfPicture};
ghost use Rattle.gfx_video_paint.specs.Inside.{HasSides, HasSome};
ghost use Rattle.gfx_video_paint.specs.Video.{video_payloads, videos_after};

use crate::tiles::{video_setting, video_tiles};
use gfx_base::{Bytes, Cells, NoMemory, Rect};
use gfx_prog_encode::MOST_SENDS;
use gfx_rfx_video::{Entropy, video_message};
use gfx_script::Script;
use std::alloc::Global;

/// The data of the messages that paint the picture of this number, by this entropy coder and by the script's setting. Of
/// `next`, the number of the next message of a server, counted from 0 by 32 bits, it makes the one behind them.
pub fn video_messages(
    alloc: Global,
    script: &Script,
    mode: Entropy,
    picture: u32,
    next: &mut u32,
) -> Result<Vec<Bytes>, NoMemory>
    requires accepted { is_accepted script.now.setting ≡ true }
    requires drawn { IsSome (slice_get script.now.pictures picture) }
    requires some { IfSome (slice_get script.now.pictures picture) HasSome }
    ensures data { IfOk result (λ all. IfSome (slice_get script.now.pictures picture) (λ drawing. all.items ≡ video_payloads script.now.setting mode drawing next.old)) }
    ensures number { OnOk result (IfSome (slice_get script.now.pictures picture) (λ drawing. next.new ≡ videos_after drawing next.old)) }
{
    let Some((width, height)) = script.picture_size(picture) else {
        unreachable!()
    };
    sized_messages(alloc, script, mode, picture, width, height, next)
}

/// The same of a picture of these sides.
fn sized_messages(
    alloc: Global,
    script: &Script,
    mode: Entropy,
    picture: u32,
    width: u16,
    height: u16,
    next: &mut u32,
) -> Result<Vec<Bytes>, NoMemory>
    requires accepted { is_accepted script.now.setting ≡ true }
    requires drawn { IsSome (slice_get script.now.pictures picture) }
    requires sides { OfPicture script.now picture (HasSides width height) }
    requires some { has_pixels (sized width height) ≡ true }
    ensures data { IfOk result (λ all. IfSome (slice_get script.now.pictures picture) (λ drawing. all.items ≡ video_payloads script.now.setting mode drawing next.old)) }
    ensures number { OnOk result (IfSome (slice_get script.now.pictures picture) (λ drawing. next.new ≡ videos_after drawing next.old)) }
{
    let setting = video_setting(script.setting());
    let squares = Cells::met(Rect::sized(width, height));
    let mut all = Vec::new(alloc);
    let mut place = 0;
    'groups: while place < squares.len() {
        let end = place + (squares.len() - place).min(MOST_SENDS);
        let tiles = video_tiles(
            alloc, script, &setting, picture, width, height, &squares, place, end,
        )?;
        all.push(video_message(alloc, &setting, mode, width, height, &tiles, *next)?)?;
        *next = next.wrapping_add(1);
        place = end;
    }
    Ok(all)
}
