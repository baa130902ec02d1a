//! The messages of tiles that are sent.
ghost use Rattle.std.specs.Prelude.{◌≡◌, ◌≤◌, IfOk, OnOk, drop, length, take};
ghost use Rattle.gfx_prog_encode.specs.Inside.{AreRaised};
ghost use Rattle.gfx_prog_live.specs.Live.{improve_all, number_after, paint_all};

use gfx_base::{Bytes, NoMemory};
use gfx_prog_encode::{MOST_SENDS, TileSend, improve_message, paint_message};
use gfx_quant::Setting;
use std::alloc::Global;

/// The data of the messages that paint tiles.
pub(crate) fn paint_messages(
    alloc: Global,
    setting: &Setting,
    sends: &[TileSend],
    next: &mut u32,
) -> Result<Vec<Bytes>, NoMemory>
    ensures value { IfOk result (λ all. all.items ≡ paint_all setting.now sends.now next.old) }
    ensures number { OnOk result (next.new ≡ number_after sends.now next.old) }
{
    let mut all = Vec::new(alloc);
    let mut rest = sends;
    'groups: while !rest.is_empty() {
        let (group, others) = first_group(rest);
        all.push(paint_message(alloc, setting, group, *next)?)?;
        *next = next.wrapping_add(1);
        rest = others;
    }
    Ok(all)
}

/// The data of the messages that raise tiles to their levels.
pub(crate) fn improve_messages(
    alloc: Global,
    setting: &Setting,
    sends: &[TileSend],
    next: &mut u32,
) -> Result<Vec<Bytes>, NoMemory>
    requires raised { AreRaised sends.now }
    ensures value { IfOk result (λ all. all.items ≡ improve_all setting.now sends.now next.old) }
    ensures number { OnOk result (next.new ≡ number_after sends.now next.old) }
{
    let mut all = Vec::new(alloc);
    let mut rest = sends;
    'groups: while !rest.is_empty() {
        let (group, others) = first_group(rest);
        all.push(improve_message(alloc, setting, group, *next)?)?;
        *next = next.wrapping_add(1);
        rest = others;
    }
    Ok(all)
}

/// The tiles of the first message, and the rest.
fn first_group(sends: &[TileSend]) -> (&[TileSend], &[TileSend])
    ensures group { result.0.now ≡ take MOST_SENDS sends.now }
    ensures rest { result.1.now ≡ drop MOST_SENDS sends.now }
    ensures few { length result.0.now ≤ MOST_SENDS }
{
    sends.split_at(sends.len().min(MOST_SENDS))
}
