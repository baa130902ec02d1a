//! The live tiles of a server's surfaces, and the messages that paint and raise them.
ghost use Rattle.std.specs.Prelude.{◌≡◌, ◌==◌, IfOk, IfSome, IsSome, OnOk, [], ◌∷◌, true};
ghost use Rattle.std.specs.FinMap as finmap;
ghost use Rattle.std.specs.List.{slice_get};
ghost use Rattle.gfx_base.specs.Cells.{has_pixels};
ghost use Rattle.gfx_quant.specs.Setting.{is_accepted};
ghost use Rattle.gfx_script.specs.Writes.{area};
ghost use Rattle.gfx_prog_live.specs.Inside.{AreBy};
ghost use Rattle.gfx_prog_live.specs.Live.{at_start, ended_in, improve_all, improved_sends, paint_all, painted_sends, passes_after, without_surface};
ghost use Rattle.gfx_prog_live.specs.Raising.{AreRaisable};

use crate::live::LiveTiles;
use crate::messages::{improve_messages, paint_messages};
use crate::tiles::painted_sends;
use gfx_base::{Bytes, NoMemory, Rect};
use gfx_quant::Setting;
use gfx_script::Script;
use std::alloc::Global;
use std::marker::Model;

/// The live tiles, each by its cell, as it was sent last, and the numbers of the next progressive message and of the
/// next message of RemoteFX video.
#[derive(Drop)]
pub struct Passes {
    live: LiveTiles,
    next: u32,
    videos: u32,
}

impl Model for Passes {
    ghost use Rattle.gfx_prog_live.specs.Live.{Passes};
    ghost use Rattle.gfx_prog_live.specs.Codes.{passes_code};

    ghost Value = { Passes };

    ghost coded = { passes_code };

    ghost view = { λ passes. record { live = passes.live; next = passes.next; videos = passes.videos } };
}

impl Passes {
    /// Nothing was painted yet. It takes no memory.
    pub fn new(alloc: Global) -> Passes
        ensures { result ≡ at_start }
    {
        Passes {
            live: LiveTiles::new(alloc),
            next: 0,
            videos: 0,
        }
    }

    /// The data of the messages that paint the picture of this number in a rectangle of a surface, which the picture
    /// fills. Its tiles are live from then on. After an error nothing is said of what is live.
    pub fn paint(
        &mut self,
        alloc: Global,
        script: &Script,
        id: u16,
        picture: u32,
        rect: Rect,
    ) -> Result<Vec<Bytes>, NoMemory>
        requires accepted { is_accepted script.now.setting ≡ true }
        requires drawn { IsSome (slice_get script.now.pictures picture) }
        requires some { has_pixels rect ≡ true }
        requires one_setting { AreBy script.now.setting self.old.live }
        ensures data { IfOk result (λ all. IfSome (slice_get script.now.pictures picture) (λ drawing.
            all.items ≡ paint_all script.now.setting (painted_sends script.now self.old.live id drawing rect) self.old.next)) }
        ensures passes { OnOk result (IfSome (slice_get script.now.pictures picture) (λ drawing.
            self.new ≡ passes_after id (painted_sends script.now self.old.live id drawing rect) self.old)) }
    {
        let sends = painted_sends(alloc, script, &self.live, id, picture, rect)?;
        let all = paint_messages(alloc, script.setting(), sends.as_slice(), &mut self.next)?;
        self.live.keep_all(id, sends)?;
        Ok(all)
    }

    /// The data of the messages that raise each live tile of a surface of these sides that isn't at the last level.
    /// After an error nothing is said of what is live.
    pub fn improve(
        &mut self,
        alloc: Global,
        setting: &Setting,
        id: u16,
        width: u16,
        height: u16,
    ) -> Result<Vec<Bytes>, NoMemory>
        requires one_setting { AreBy setting.now self.old.live }
        ensures data { IfOk result (λ all. all.items ≡ improve_all setting.now (improved_sends self.old.live id width height) self.old.next) }
        ensures passes { OnOk result (self.new ≡ passes_after id (improved_sends self.old.live id width height) self.old) }
    {
        let sends = self.live.take_improved(alloc, setting, id, width, height)?;
        let all = improve_messages(alloc, setting, sends.as_slice(), &mut self.next)?;
        self.live.keep_all(id, sends)?;
        Ok(all)
    }

    /// The surfaces that have live tiles which aren't at the last level, so that an improvement would raise them: each once,
    /// in any order. An error says that memory ran out.
    pub fn raisable(&self, alloc: Global, setting: &Setting) -> Result<Vec<u16>, NoMemory>
        requires one_setting { AreBy setting.now self.now.live }
        ensures { IfOk result (λ ids. AreRaisable self.now.live ids.items) }
    {
        self.live.raisable(alloc, setting)
    }

    /// Ends the tiles of the cells that a change in a rectangle touches.
    pub fn end_in(&mut self, id: u16, rect: Rect)
        ensures { self.new ≡ record self.old { live = ended_in self.old.live (area id (rect ∷ [])) } }
    {
        self.live.end_in(id, rect);
    }

    /// Ends the tiles of a surface.
    pub fn drop_surface(&mut self, id: u16)
        ensures { self.new ≡ record self.old { live = without_surface self.old.live id } }
    {
        self.live.drop_surface(id);
    }

    /// The number of the next message of RemoteFX video, counted from 0 by 32 bits.
    pub fn videos(&self) -> u32
        ensures { result ≡ self.now.videos }
    {
        self.videos
    }

    /// Notes the number of the next message of RemoteFX video.
    pub fn count_videos(&mut self, next: u32)
        ensures { self.new ≡ record self.old { videos = next } }
    {
        self.videos = next;
    }

    /// Whether no tile is live.
    pub fn is_idle(&self) -> bool
        ensures { result ≡ (finmap.len self.now.live == 0) }
    {
        self.live.is_empty()
    }
}
