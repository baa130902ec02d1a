//! A turn of the server's end.
ghost use Rattle.std.specs.Prelude.{◌≡◌, ◌<◌, ◌≤◌, ◌+◌, ◌&&◌, ◌||◌, if◌then◌else◌, true, false, drop, length, OnOk};
ghost use Rattle.gfx_chooser.specs.Seen.{seen};
ghost use Rattle.gfx_schedule.specs.ServerEnd.{is_none, may_send};
ghost use Rattle.gfx_schedule.specs.declared.turned.Turned.TheVariants.{Moved, Waiting};
ghost use Rattle.gfx_script.specs.declared.TheConstants.{MOST_STEPS};
ghost use Rattle.gfx_session.specs.Frames.{MayFrame, PutsFrame, SendsFrame, WatchesFrame, due_of};
ghost use Rattle.gfx_window.specs.Index.{AreLeftOut};
ghost use Rattle.gfx_window.specs.Superseded.{superseded};
ghost use Rattle.gfx_window.specs.Window.{has_room};
ghost use Rattle.gfx_script.specs.Checks.{Held};
ghost use Rattle.gfx_session.specs.Kept.{IsServerEnd, IsServerEndFrom, digest_in, noted};
ghost use Rattle.gfx_session.specs.Queueing.{QueuesFrame};
ghost use Rattle.gfx_session.specs.Serving.{Serves};

use super::ServerEnd;
use crate::digests::Digests;
use gfx_base::{Bytes, NoMemory};
use gfx_chooser::{Chooser, kind_at};
use gfx_planner::Planner;
use gfx_report::digest;
use gfx_schedule::Turned;
use gfx_script::Script;
use gfx_window::{Queued, Window};

impl ServerEnd {
    /// A turn: the next frame of the script is queued, where one is left, its paints that name no kind as
    /// these choosers choose, of which those that are spent are dropped; and then all that waits goes as one
    /// frame, where the client's version is confirmed and the window has room. Ended is told first, Waiting
    /// where neither was possible. Without memory the server's end is spent, and answers that from then on.
    pub fn serve<C: Chooser>(
        &mut self,
        choosers: &mut Vec<C>,
        out: &mut Bytes,
    ) -> Result<Turned, NoMemory>
        requires { IsServerEnd self.old }
        ensures serves { Serves result self.old self.new (seen C.reply C.is_spent choosers.old.items) (seen C.reply C.is_spent choosers.new.items) out.old out.new }
        ensures is { (held : Held) → IsServerEndFrom held self.old → IsServerEndFrom held self.new }
        ensures fresh { OnOk result (self.new.spent ≡ false) }
    {
        if self.spent {
            return Err(NoMemory);
        }
        if self.has_served() {
            return Ok(Turned::Ended);
        }
        self.spent = true;
        let last = queue_frame(&self.script, self.last, choosers, &mut self.window)?;
        let queued = last > self.last;
        self.last = last;
        let sent = self.send_frame(out)?;
        self.spent = false;
        Ok(turned(queued, sent))
    }

    /// Whether all of the script was queued, sent and acknowledged.
    pub(crate) fn has_served(&self) -> bool
        requires within { self.now.last ≤ length self.now.script.steps }
        requires few { length self.now.script.steps ≤ MOST_STEPS }
        ensures { result ≡ (is_none (drop self.now.last self.now.script.steps) && (is_none self.now.window.pending && is_none self.now.window.flying)) }
    {
        self.has_queued_all() && self.window.due() == 0 && self.window.in_flight() == 0
    }

    /// Whether a frame can go.
    fn can_send(&self) -> bool
        ensures { result ≡ may_send self.now.confirmed self.now.window }
    {
        self.confirmed && self.window.due() != 0 && self.window.can_send()
    }

    /// Sends all that waits as one frame, where a frame can go, and tells whether one went.
    fn send_frame(&mut self, out: &mut Bytes) -> Result<bool, NoMemory>
        requires fresh { self.old.planner.spent ≡ false }
        requires may { may_send self.old.confirmed self.old.window ≡ true → MayFrame self.old.script self.old.planner.server self.old.window }
        ensures { SendsFrame result self.old self.new out.old out.new }
    {
        if !self.can_send() {
            return Ok(false);
        }
        let frame = put_frame(&self.script, &self.window, &mut self.planner, out)?;
        self.watch_frame(frame)?;
        Ok(true)
    }

    /// Notes a frame that went with all that waited, and what is kept of the planner's state right after it; while
    /// acknowledgements are suspended nothing is kept. Without memory the client is heard as before.
    fn watch_frame(&mut self, frame: u32) -> Result<(), NoMemory>
        requires { has_room self.old.window ≡ true }
        ensures { WatchesFrame result self.old self.new frame }
    {
        if self.window.is_suspended() {
            return self.window.send(frame, self.last);
        }
        let state = noted_of(&self.planner, self.digests);
        self.ends.push_back(state)?;
        if let Err(lack) = self.window.send(frame, self.last) {
            // No frame is in flight for it.
            self.ends.pop_back();
            return Err(lack);
        }
        Ok(())
    }
}

/// What is kept of what a planner has: its digest, where digests are on.
fn noted_of(planner: &Planner, digests: Digests) -> Option<[u8; 32]>
    ensures { result ≡ noted digests planner.now.server.state }
{
    match digests {
        Digests::Off => None,
        Digests::On => Some(digest_of(planner)),
    }
}

/// The digest of what a planner has.
#[tactic(auto, unfolding(gfx_report::specs::StateBytes::digest_of))]
fn digest_of(planner: &Planner) -> [u8; 32]
    ensures { result ≡ digest_in planner.now.server.state }
{
    digest(planner.surfaces(), planner.cache(), planner.clear())
}

/// What a turn is told as that isn't the last.
fn turned(queued: bool, sent: bool) -> Turned
    ensures { result ≡ (if queued || sent then Moved else Waiting) }
{
    if queued | sent {
        Turned::Moved
    } else {
        Turned::Waiting
    }
}

/// Queues the steps behind this number, up to the next of the word `frame`, as these choosers choose, and answers
/// the number of the last of them.
fn queue_frame<C: Chooser>(
    script: &Script,
    last: u32,
    choosers: &mut Vec<C>,
    window: &mut Window,
) -> Result<u32, NoMemory>
    requires within { last ≤ length script.now.steps }
    requires few { length script.now.steps ≤ MOST_STEPS }
    ensures { QueuesFrame result script.now last (seen C.reply C.is_spent choosers.old.items) (seen C.reply C.is_spent choosers.new.items) window.old window.new }
{
    let mut number = last;
    'steps: while let Some(step) = script.step(number + 1) {
        number += 1;
        let kind = kind_at(script, number, choosers);
        window.queue(Queued { step: number, kind })?;
        if step.is_frame() {
            break;
        }
    }
    Ok(number)
}

/// Puts out a frame of all that waits without what a later step covers, and answers its id.
fn put_frame(
    script: &Script,
    window: &Window,
    planner: &mut Planner,
    out: &mut Bytes,
) -> Result<u32, NoMemory>
    requires fresh { planner.old.spent ≡ false }
    requires may { MayFrame script.now planner.old.server window.now }
    ensures { PutsFrame result script.now (due_of script.now window.now) planner.old.server planner.new out.old out.new }
{
    let left_out = window.left_out(script)?;
    let frame = planner.open_frame(out)?;
    'places: for place in 0..window.due() {
        if superseded(script, window, &left_out, place) {
            continue;
        }
        let item = window.item(place);
        planner.put(script, item.step, item.kind, out)?;
    }
    planner.close_frame(out)?;
    Ok(frame)
}

/// Whether the item at a place is left out, as it was found of all of them.
fn superseded(script: &Script, window: &Window, left_out: &[bool], place: usize) -> bool
    requires place { place < length window.now.pending }
    requires left_out { AreLeftOut script.now window.now.pending left_out.now 0 }
    ensures { result ≡ superseded script.now window.now.pending place }
{
    left_out[place]
}
