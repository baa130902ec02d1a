//! The server's end of a session.

ghost use Rattle.std.specs.Prelude.{◌≡◌, ◌≤◌, ◌+◌, ◌-◌, ◌&&◌, drop, false, if◌then◌else◌, IfOk, IsTrue, length, List, not, OnErr, take};
ghost use Rattle.std.specs.List.{AllByRecursion};
ghost use Rattle.gfx_base.specs.Outcome.{Gives};
ghost use Rattle.gfx_import.specs.Imported.{imported};
ghost use Rattle.gfx_planner.specs.Planned.{ready};
ghost use Rattle.gfx_planner.specs.Server.{server_with};
ghost use Rattle.gfx_prog_live.specs.Inside.{AreBy};
ghost use Rattle.gfx_prog_live.specs.Raising.{AreRaisable};
ghost use Rattle.gfx_schedule.specs.ServerEnd.{is_none, server_at_start, server_end_from};
ghost use Rattle.gfx_schedule.specs.Starts.{MayImport, from_kept};
ghost use Rattle.gfx_script.specs.Checks.{held_first, sides_of_all};
ghost use Rattle.gfx_script.specs.Drafts.{frame_ended};
ghost use Rattle.gfx_script.specs.Forgetting.{forgotten};
ghost use Rattle.gfx_script.specs.Script.{IsAccepted, frames_in, held_at_start};
ghost use Rattle.gfx_script.specs.declared.TheConstants.{MOST_STEPS};
ghost use Rattle.gfx_script.specs.declared.step.Step.TheVariants.{Frame};
ghost use Rattle.gfx_window.specs.Window.{has_room};
ghost use Rattle.gfx_script.specs.Kinds.{Fits, KindedStep};
ghost use Rattle.gfx_session.specs.Beginning.{IsOpened};
ghost use Rattle.gfx_session.specs.Kept.{Stands, IsServerEndFrom};
ghost use Rattle.gfx_session.specs.Live.{has_sent_all};
ghost use Rattle.gfx_session.specs.Whole.{MaySpare, SparesWaiting};

mod listening;
mod serving;

use crate::digests::Digests;
use gfx_base::{Bytes, NoMemory, Refusal};
use gfx_import::Kept;
use gfx_planner::Planner;
use gfx_schedule::Turned;
use gfx_script::{Draft, Flaw, Script};
use gfx_segment::Splitter;
use gfx_window::{AckUnknown, Window};
pub use listening::ShownFrame;
use std::alloc::Global;
use std::collections::VecDeque;
use thiserror::Error;

/// Why a server's end takes no more bytes of its client.
#[derive(Clone, Copy, Debug, PartialEq, Eq, Error)]
pub enum ServerFault {
    /// A message is refused: ChannelLength, one of the refusals of a client's message, or CapsVersion where
    /// no version that is offered can be chosen, or the small cache would be, which the script's own client
    /// has not.
    #[error("a message of the client is refused: {0}")]
    Refused(Refusal),
    /// An acknowledgement is of a frame that is watched and isn't the oldest in flight.
    #[error("frame {} is acknowledged, which is not the oldest in flight", .0.id)]
    Ack(AckUnknown),
    /// No memory is left.
    #[error("no memory is left")]
    Memory,
    /// An earlier call answered one of the others.
    #[error("an earlier call failed, and nothing is taken any more")]
    Closed,
}

/// The server's end: a script whose steps it queues frame by frame, the window, and the planner, whose
/// state is what it has sent. Of past states it keeps digests, where they are asked for, and of its client's
/// bytes those that aren't a whole message yet. While its client suspends acknowledgements, its frames go at once
/// and none of them is told of.
#[derive(Drop)]
pub struct ServerEnd {
    alloc: Global,
    script: Script,
    window: Window,
    planner: Planner,
    last: u32,
    ends: VecDeque<Option<[u8; 32]>>,
    digests: Digests,
    confirmed: bool,
    splitter: Splitter,
    spent: bool,
    closed: bool,
}

impl ServerEnd {
    /// A server's end of a script, whose steps will go as the kinds that they name, or that choosers choose.
    /// Nothing is queued yet.
    pub fn new(alloc: Global, script: Script, digests: Digests) -> Result<ServerEnd, NoMemory>
        requires { IsAccepted script }
        ensures stands { IfOk result (λ end. (kinded : List KindedStep) → Fits kinded script.steps → Stands end (server_at_start script kinded)) }
        ensures is { IfOk result (λ end. IsServerEndFrom (held_first (sides_of_all script.pictures) script.small) end × (end.script ≡ script) × (end.closed ≡ false) × (end.digests ≡ digests)) }
    {
        let planner = Planner::new(alloc, script.small())?;
        Ok(opened(alloc, script, planner, false, digests))
    }

    /// A server's end of a script that was read with these two files of kept bitmaps: it begins with those that are
    /// imported of them, and the version is confirmed ([MS-RDPEGFX] 3.2.5.13). Nothing is queued yet.
    pub fn with_kept(
        alloc: Global,
        script: Script,
        server: &Kept,
        client: &Kept,
        digests: Digests,
    ) -> Result<ServerEnd, NoMemory>
        requires { MayImport script server.now client.now }
        ensures stands { IfOk result (λ end. (kinded : List KindedStep) → Fits kinded script.steps → Stands end (server_end_from (from_kept script server.now client.now) script kinded)) }
        ensures is { IfOk result (λ end. IsServerEndFrom (held_at_start script) end × (end.script ≡ script) × (end.closed ≡ false) × (end.digests ≡ digests)) }
    {
        let planner = planner_with(alloc, script.small(), server, client)?;
        Ok(opened(alloc, script, planner, true, digests))
    }

    /// The script.
    pub fn script(&self) -> &Script
        ensures { result.now ≡ self.now.script }
    {
        &self.script
    }

    /// Whether it makes digests.
    pub fn digests(&self) -> Digests
        ensures { result ≡ self.now.digests }
    {
        self.digests
    }

    /// Takes what was drafted into the script, and `frame` behind it. An error leaves both as they were.
    pub(crate) fn end_frame(&mut self, draft: &mut Draft) -> Result<(), Flaw>
        ensures ended { Gives (λ _. (self.new.script, draft.new)) result (frame_ended self.old.script draft.old) }
        ensures alone { self.new ≡ record self.old { script = self.new.script } }
        ensures unchanged { OnErr result (self.new ≡ self.old) }
        ensures draft_unchanged { OnErr result (draft.new ≡ draft.old) }
    {
        self.script.end_frame(draft)
    }

    /// Whether all of the script was sent, and a frame that came now could go at once.
    pub(crate) fn wants_frame(&self) -> bool
        requires within { self.now.spent ≡ false → self.now.last ≤ length self.now.script.steps }
        requires few { length self.now.script.steps ≤ MOST_STEPS }
        ensures { result ≡ (not self.now.spent && (self.now.confirmed && (has_room self.now.window && has_sent_all self.now))) }
    {
        if self.spent {
            return false;
        }
        self.confirmed && self.window.can_send() && self.has_sent_all()
    }

    /// Whether all of the script was sent, and nothing waits.
    pub(crate) fn has_sent_all(&self) -> bool
        requires within { self.now.last ≤ length self.now.script.steps }
        requires few { length self.now.script.steps ≤ MOST_STEPS }
        ensures { result ≡ has_sent_all self.now }
    {
        self.window.due() == 0 && self.has_queued_all()
    }

    /// Whether no step of the script is left to be queued.
    fn has_queued_all(&self) -> bool
        requires within { self.now.last ≤ length self.now.script.steps }
        requires few { length self.now.script.steps ≤ MOST_STEPS }
        ensures { result ≡ is_none (drop self.now.last self.now.script.steps) }
    {
        self.script.step(self.last + 1).is_none()
    }

    /// Forgets all steps and pictures of the script.
    pub(crate) fn forget_script(&mut self)
        requires few { length self.old.script.steps ≤ MOST_STEPS }
        requires few_pictures { length self.old.script.pictures ≤ MOST_STEPS }
        ensures { self.new ≡ record self.old { script = forgotten self.old.script } }
    {
        self.script.forget();
    }

    /// How many steps wait for a frame.
    pub(crate) fn due(&self) -> usize
        ensures { result ≡ length self.now.window.pending }
    {
        self.window.due()
    }

    /// Forgets pixels of pictures whose paints wait and need not be sent: a step covers them that came behind the first so
    /// many items. It does so where nothing is left to be queued and all that was sent is forgotten; without memory for the
    /// marks it forgets none.
    pub(crate) fn spare_waiting(&mut self, waited: usize)
        requires waiting { length self.old.window.pending ≤ self.old.last }
        requires within { self.old.last ≤ length self.old.script.steps }
        requires few { length self.old.script.steps ≤ MOST_STEPS }
        ensures { SparesWaiting waited self.old self.new }
    {
        if waited >= self.due() || !self.may_spare() {
            return;
        }
        if let Ok(mut marks) = self.script.unmarked(self.alloc) {
            self.window
                .mark_surely_sent(&self.script, waited, &mut marks);
            self.script.spare(&marks);
        }
    }

    /// Whether nothing is left to be queued, and all steps before those that wait are forgotten.
    fn may_spare(&self) -> bool
        requires waiting { length self.now.window.pending ≤ self.now.last }
        requires within { self.now.last ≤ length self.now.script.steps }
        requires few { length self.now.script.steps ≤ MOST_STEPS }
        ensures { IsTrue result → MaySpare self.now }
    {
        self.has_queued_all() && self.has_forgotten_sent()
    }

    /// Whether all steps before those that wait are forgotten.
    fn has_forgotten_sent(&self) -> bool
        requires waiting { length self.now.window.pending ≤ self.now.last }
        requires within { self.now.last ≤ length self.now.script.steps }
        requires few { length self.now.script.steps ≤ MOST_STEPS }
        ensures { IsTrue result → AllByRecursion (λ step. step ≡ Frame) (take (self.now.last - length self.now.window.pending) self.now.script.steps) }
    {
        self.last - self.due() as u32 <= self.script.steps_forgotten()
    }

    /// The surfaces that have a tile which an improvement would raise.
    pub(crate) fn raisable(&self) -> Result<Vec<u16>, NoMemory>
        requires { AreBy self.now.script.setting self.now.planner.server.passes.live }
        ensures { IfOk result (λ ids. AreRaisable self.now.planner.server.passes.live ids.items) }
    {
        self.planner.raisable(&self.script)
    }

    /// How many steps of the script weren't sent yet. None will be of one that is spent.
    pub(crate) fn steps_behind(&self) -> u32
        requires within { self.now.spent ≡ false → (length self.now.window.pending ≤ self.now.last) × (self.now.last ≤ length self.now.script.steps) }
        requires few { length self.now.script.steps ≤ MOST_STEPS }
        ensures { result ≡ (if self.now.spent then 0 else length self.now.window.pending + (length self.now.script.steps - self.now.last)) }
    {
        if self.spent {
            return 0;
        }
        self.window.due() as u32 + (self.script.step_count() as u32 - self.last)
    }

    /// How many frames of the script weren't sent yet. None will be of one that is spent.
    pub(crate) fn frames_behind(&self) -> usize
        requires within { self.now.spent ≡ false → (length self.now.window.pending ≤ self.now.last) × (self.now.last ≤ length self.now.script.steps) }
        ensures { result ≡ (if self.now.spent then 0 else frames_in (drop (self.now.last - length self.now.window.pending) self.now.script.steps)) }
    {
        if self.spent {
            return 0;
        }
        self.script
            .frames_behind(self.last - self.window.due() as u32)
    }

    /// Whether memory ran out in a turn, so that nothing is sent any more.
    pub(crate) fn is_spent(&self) -> bool
        ensures { result ≡ self.now.spent }
    {
        self.spent
    }
}

/// A planner that begins with what is imported of these two files.
fn planner_with(
    alloc: Global,
    small: bool,
    server: &Kept,
    client: &Kept,
) -> Result<Planner, NoMemory>
    ensures { IfOk result (λ planner. planner ≡ ready (server_with (imported server.now client.now small) small)) }
{
    let mut planner = Planner::new(alloc, small)?;
    match planner.import(server, client) {
        Ok(()) => Ok(planner),
        Err(lack) => {
            let_go(planner);
            Err(lack)
        }
    }
}

/// Lets a planner go. What this costs to prove is paid here once, and not where others live beside it.
fn let_go(_planner: Planner) {}

/// A server's end that has this planner, of whose script nothing is queued yet.
fn opened(
    alloc: Global,
    script: Script,
    planner: Planner,
    confirmed: bool,
    digests: Digests,
) -> ServerEnd
    ensures { IsOpened result script planner confirmed digests }
{
    let window = Window::new(alloc, script.window());
    ServerEnd {
        alloc,
        script,
        window,
        planner,
        last: 0,
        ends: VecDeque::new(alloc),
        digests,
        confirmed,
        splitter: Splitter::new(alloc),
        spent: false,
        closed: false,
    }
}
