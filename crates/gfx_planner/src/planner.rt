ghost use Rattle.std.specs.Prelude.{◌≡◌, ◌<◌, ◌+◌, [], ◌∷◌, IfOk, OnOk, OnErr, None, true, false};
ghost use Rattle.std.specs.Option.{is_some};
ghost use Rattle.gfx_import.specs.Imported.{imported};
ghost use Rattle.gfx_prog_live.specs.Inside.{AreBy};
ghost use Rattle.gfx_prog_live.specs.Raising.{AreRaisable};
ghost use Rattle.gfx_planner.specs.Server.{at_start, server_with};
ghost use Rattle.gfx_planner.specs.Wire.{frame_start, frame_end};
ghost use Rattle.gfx_planner.specs.After.{after_open, after_close};
ghost use Rattle.gfx_planner.specs.Allowed.{IsAllowedStep, IsInFrame, kinded_at};
ghost use Rattle.gfx_planner.specs.Planned.{ready, Sends, PutsStep};

use crate::importing::keep_imported;
use crate::sender::Sender;
use crate::step_sending::send_step;
use gfx_base::{Bytes, NoMemory};
use gfx_bitmap_cache::{Cache, MOST_SLOTS};
use gfx_clear::ClearState;
use gfx_import::{Kept, fill_cache};
use gfx_pdu::Pdu;
use gfx_prog_live::Passes;
use gfx_script::{Kind, Script};
use gfx_slot_plan::SlotPlan;
use gfx_surface_map::SurfaceMap;
use std::alloc::Global;
use std::marker::Model;

/// No planner opens more frames.
pub const MOST_FRAMES: u32 = 4_000_000_000;

/// The server's end: it makes steps into messages, and keeps the state that they give. Its calls
/// append whole channel messages. Without memory it is spent, and answers that from then on.
#[derive(Drop)]
pub struct Planner {
    alloc: Global,
    sender: Sender,
    plan: SlotPlan,
    passes: Passes,
    frames: u32,
    spent: bool,
}

impl Model for Planner {
    ghost use Rattle.gfx_planner.specs.Planned.{Planned};
    ghost use Rattle.gfx_planner.specs.Codes.{planned_code};

    ghost Value = { Planned };

    ghost coded = { planned_code };

    ghost view = { λ p. record { server = record { state = p.sender; plan = p.plan; passes = p.passes; frames = p.frames }; spent = p.spent } };

    ghost use Rattle.std.specs.Prelude.{◌≤◌};
    ghost use Rattle.gfx_planner.specs.declared.planner.TheConstants.{MOST_FRAMES};

    ghost invariant = { λ p. p.frames ≤ MOST_FRAMES };
}

impl Planner {
    /// A server's end that has sent nothing. The small limits on bitmaps bind it, or the large ones.
    pub fn new(alloc: Global, small: bool) -> Result<Planner, NoMemory>
        ensures { IfOk result (λ planner. planner ≡ ready (at_start small)) }
    {
        let plan = SlotPlan::new(alloc, small)?;
        let sender = Sender::new(alloc, small)?;
        Ok(Planner {
            alloc,
            sender,
            plan,
            passes: Passes::new(alloc),
            frames: 0,
            spent: false,
        })
    }

    /// Begins with the bitmaps that are imported of two kept files, before anything is put ([MS-RDPEGFX]
    /// 3.2.5.13): the client's first keys, each with the server's bitmap, as `gfx_import::imported` says. They
    /// are in slots 1, 2 and so on, and count as used in that order. Nothing else is copied.
    pub fn import(&mut self, server: &Kept, client: &Kept) -> Result<(), NoMemory>
        requires { self.old ≡ ready (at_start self.old.server.plan.small) }
        ensures ok { OnOk result (self.new ≡ ready (server_with (imported server.now client.now self.old.server.plan.small) self.old.server.plan.small)) }
        ensures err { OnErr result (self.new.spent ≡ true) }
    {
        let small = self.has_small_cache();
        self.spent = true;
        let cache = fill_cache(self.alloc, server, client, small)?;
        self.sender.put_cache(cache);
        keep_imported(self.alloc, &mut self.plan, server, client, small)?;
        self.spent = false;
        Ok(())
    }

    /// Whether the small limits on bitmaps bind: under the large ones a store takes the last slot of all.
    fn has_small_cache(&self) -> bool
        ensures { result ≡ self.now.server.state.cache.small }
    {
        !self.cache().takes_slot(MOST_SLOTS)
    }

    /// The surfaces that the messages so far give.
    pub fn surfaces(&self) -> &SurfaceMap
        ensures { result.now.shown ≡ self.now.server.state.shown }
    {
        self.sender.state().surfaces()
    }

    /// The bitmaps that the messages so far leave in their slots.
    pub fn cache(&self) -> &Cache
        ensures { result.now ≡ self.now.server.state.cache }
    {
        self.sender.state().cache()
    }

    /// What the ClearCodec streams so far leave for later ones.
    pub fn clear(&self) -> &ClearState
        ensures { result.now ≡ self.now.server.state.clear }
    {
        self.sender.state().clear()
    }

    /// Whether a frame is open.
    pub fn is_in_frame(&self) -> bool
        ensures { result ≡ is_some self.now.server.state.frame }
    {
        self.sender.state().frame().is_some()
    }

    /// The surfaces that have live tiles which aren't at the last level, so that an improvement would raise them: each once,
    /// in any order. An error says that memory ran out, here or before; here it leaves the planner as it is.
    pub fn raisable(&self, script: &Script) -> Result<Vec<u16>, NoMemory>
        requires by { self.now.spent ≡ false → AreBy script.now.setting self.now.server.passes.live }
        ensures { IfOk result (λ ids. AreRaisable self.now.server.passes.live ids.items) }
    {
        if self.spent {
            return Err(NoMemory);
        }
        self.passes.raisable(self.alloc, script.setting())
    }

    /// Opens the next frame, and answers its id ([MS-RDPEGFX] RDPGFX_START_FRAME_PDU). Frames are
    /// counted from 1; the timestamp is 0.
    pub fn open_frame(&mut self, out: &mut Bytes) -> Result<u32, NoMemory>
        requires between { self.old.spent ≡ false → self.old.server.state.frame ≡ None }
        requires few { self.old.spent ≡ false → self.old.server.frames < MOST_FRAMES }
        ensures sends { Sends result self.old self.new out.old out.new (frame_start self.old.server ∷ []) (after_open self.old.server) }
        ensures id { IfOk result (λ id. id ≡ self.old.server.frames + 1) }
    {
        if self.spent {
            return Err(NoMemory);
        }
        self.spent = true;
        let frame = self.frames + 1;
        let start = Pdu::StartFrame {
            timestamp: 0,
            frame,
        };
        self.sender.send_one(&start, out)?;
        self.frames = frame;
        self.spent = false;
        Ok(frame)
    }

    /// Puts out the messages of a step of this number, counted from 1. A paint is sent as this kind;
    /// other steps have none.
    pub fn put(
        &mut self,
        script: &Script,
        step: u32,
        kind: Option<Kind>,
        out: &mut Bytes,
    ) -> Result<(), NoMemory>
        requires inside { self.old.spent ≡ false → IsInFrame self.old.server }
        requires allowed { self.old.spent ≡ false → IsAllowedStep script.now self.old.server (kinded_at script.now.steps step kind) }
        ensures { PutsStep script.now result self.old self.new out.old out.new (kinded_at script.now.steps step kind) }
    {
        if self.spent {
            return Err(NoMemory);
        }
        self.spent = true;
        let Some(step) = script.step(step) else {
            unreachable!()
        };
        send_step(
            self.alloc,
            &mut self.sender,
            &mut self.plan,
            &mut self.passes,
            script,
            step,
            kind,
            out,
        )?;
        self.spent = false;
        Ok(())
    }

    /// Ends the open frame ([MS-RDPEGFX] RDPGFX_END_FRAME_PDU).
    pub fn close_frame(&mut self, out: &mut Bytes) -> Result<(), NoMemory>
        requires inside { self.old.spent ≡ false → IsInFrame self.old.server }
        ensures { Sends result self.old self.new out.old out.new (frame_end self.old.server ∷ []) (after_close self.old.server) }
    {
        if self.spent {
            return Err(NoMemory);
        }
        self.spent = true;
        let frame = self.frames;
        self.sender.send_one(&Pdu::EndFrame { frame }, out)?;
        self.spent = false;
        Ok(())
    }
}
