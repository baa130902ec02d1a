//! A server's end that is fed: its script grows while the session goes on.

ghost use Rattle.std.specs.Prelude.{◌≡◌, ◌+◌, ◌++◌, ◌∷◌, [], true, false, nat_le, not, length, map, IfOk, OnOk};
ghost use Rattle.gfx_import.specs.Agreed.{have_same_sides};
ghost use Rattle.gfx_caps.specs.Offers.{small_of};
ghost use Rattle.gfx_chooser.specs.Seen.{seen};
ghost use Rattle.gfx_schedule.specs.ServerEnd.{server_at_start, server_end_from};
ghost use Rattle.gfx_schedule.specs.Starts.{from_kept};
ghost use Rattle.gfx_script.specs.Drafts.{nothing_drafted, steps_so_far};
ghost use Rattle.gfx_script.specs.declared.TheConstants.{MOST_STEPS};
ghost use Rattle.gfx_script.specs.declared.step.Step.TheVariants.{Frame, Improve, Paint};
ghost use Rattle.gfx_script.specs.Forgetting.{PaintsFrom};
ghost use Rattle.gfx_script.specs.Heads.{script_from};
ghost use Rattle.gfx_script.specs.Script.{is_frame};
ghost use Rattle.gfx_script.specs.Starting.{stock_with};
ghost use Rattle.gfx_session.specs.Idle.{ImprovesIdle, improvements_fed, is_idle};
ghost use Rattle.gfx_session.specs.Live.{BeginsKept, Feeds, IsLive, fed, frame_fed, frames_behind, has_sent_all, is_full, paint_fed, script_kept, step_fed, steps_behind, wants_frame};
ghost use Rattle.gfx_session.specs.Noting.{Listens};
ghost use Rattle.gfx_session.specs.LiveServing.{Forgets, ServesLive};
ghost use Rattle.gfx_session.specs.Whole.{StandsWhole, StandsWithMore};

use crate::digests::Digests;
use crate::server_end::{ServerEnd, ServerFault, ShownFrame};
use gfx_base::{Bytes, NoMemory, Point};
use gfx_chooser::Chooser;
use gfx_import::{Kept, have_same_sides};
use gfx_schedule::Turned;
use gfx_script::{
    Draft, Flaw, Head, Kind, MOST_STEPS, Picture, Script, ScriptKind, Step, imported_start,
};
use std::alloc::Global;
use thiserror::Error;

/// Why a live end takes no picture and no step. Each leaves it as it was.
#[derive(Clone, Copy, Debug, PartialEq, Eq, Error)]
pub enum LiveFault {
    /// It is wrong, as `gfx_script_text::read_script` would say of the same step.
    #[error("the step is wrong: {0}")]
    Wrong(ScriptKind),
    /// The script has no room for it: `MOST_STEPS` steps in all, of which one is kept for the frame that ends the others.
    #[error("the script has no room for one more step")]
    Full,
    /// No memory is left.
    #[error("no memory is left")]
    Memory,
}

impl From<NoMemory> for LiveFault {
    ghost use Rattle.gfx_session.specs.declared.live_end.LiveFault.TheVariants.{Memory};

    ghost from_gives = { λ _ fault. fault ≡ Memory };

    fn from(_lack: NoMemory) -> LiveFault {
        LiveFault::Memory
    }
}

impl From<Flaw> for LiveFault {
    ghost use Rattle.gfx_session.specs.Live.{fault_of_flaw};

    ghost from_gives = { λ flaw fault. fault ≡ fault_of_flaw flaw };

    fn from(flaw: Flaw) -> LiveFault {
        match flaw {
            Flaw::Refused(kind) => LiveFault::Wrong(kind),
            Flaw::Memory => LiveFault::Memory,
        }
    }
}

/// Why no live end begins with kept bitmaps.
#[derive(Clone, Copy, Debug, PartialEq, Eq, Error)]
pub enum KeptFault {
    /// One of the bitmaps that are imported has other sides at the client.
    #[error("a kept bitmap has other sides at the client")]
    Sides,
    /// No memory is left.
    #[error("no memory is left")]
    Memory,
}

impl From<NoMemory> for KeptFault {
    ghost use Rattle.gfx_session.specs.declared.live_end.KeptFault.TheVariants.{Memory};

    ghost from_gives = { λ _ fault. fault ≡ Memory };

    fn from(_lack: NoMemory) -> KeptFault {
        KeptFault::Memory
    }
}

/// A server's end, and the steps that were pushed since the last frame, which aren't in its script yet. It takes memory
/// for what its client shows and for what has still to be sent; what was sent it forgets, and the pixels of paints that wait
/// where a later step covers them.
#[derive(Drop)]
pub struct LiveEnd {
    end: ServerEnd,
    draft: Draft,
}

impl LiveEnd {
    /// A live end of this head, of whose script nothing is there yet. It makes digests, or none.
    pub fn new(alloc: Global, head: Head, digests: Digests) -> Result<LiveEnd, NoMemory>
        ensures stands { IfOk result (λ live. StandsWhole live.end (script_from head []) (server_at_start (script_from head []) [])) }
        ensures starts { IfOk result (λ live. (live.end.script ≡ script_from head []) × (live.end.closed ≡ false) × (live.end.digests ≡ digests) × (live.draft ≡ nothing_drafted (stock_with [] live.end.script.small))) }
        ensures is { IfOk result IsLive }
    {
        let draft = Draft::new(alloc, head.small(), &[])?;
        let end = ServerEnd::new(alloc, head.script(alloc), digests)?;
        Ok(LiveEnd { end, draft })
    }

    /// A live end of this head whose two ends kept bitmaps of an earlier session, in these files: it begins with those
    /// that are imported of them, and the version is confirmed ([MS-RDPEGFX] 3.2.5.13). Sides exactly where one of them
    /// has other sides at the client.
    pub fn with_kept(
        alloc: Global,
        head: Head,
        server: &Kept,
        client: &Kept,
        digests: Digests,
    ) -> Result<LiveEnd, KeptFault>
        ensures begins { BeginsKept result (have_same_sides server.now client.now (small_of head.offers)) }
        ensures stands { IfOk result (λ live. StandsWhole live.end (script_kept head server.now client.now) (server_end_from (from_kept (script_kept head server.now client.now) server.now client.now) (script_kept head server.now client.now) [])) }
        ensures starts { IfOk result (λ live. (live.end.script ≡ script_kept head server.now client.now) × (live.end.closed ≡ false) × (live.end.digests ≡ digests) × (live.draft ≡ nothing_drafted (stock_with live.end.script.start live.end.script.small))) }
        ensures is { IfOk result IsLive }
    {
        let small = head.small();
        if !have_same_sides(server, client, small) {
            return Err(KeptFault::Sides);
        }
        let start = imported_start(alloc, server, client, small)?;
        let draft = Draft::new(alloc, small, &start)?;
        let script = head.script_with(alloc, start);
        let end = ServerEnd::with_kept(alloc, script, server, client, digests)?;
        Ok(LiveEnd { end, draft })
    }

    /// The script of all that was pushed in whole frames. Once all of it was sent it is forgotten: a frame stands for each
    /// step then, and a blank picture for each picture. While steps wait, a picture that need not be sent may be black.
    pub fn script(&self) -> &Script
        ensures { result.now ≡ self.now.end.script }
    {
        self.end.script()
    }

    /// Pushes a step. `Step::Frame` says that the screen is whole: what was pushed since the last one is in the
    /// script from then on, and waits until `serve` sends it. A picture is pushed by `paint`: a step that paints one by
    /// its number is wrong here, by the fault Name.
    pub fn push(&mut self, step: Step) -> Result<(), LiveFault>
        requires { IsLive self.old }
        ensures feeds { Feeds result (is_full self.old.draft step) (fed self.old step) self.old self.new }
        ensures stands { is_frame step ≡ true → OnOk result (StandsWithMore self.old.draft.pictures (self.old.draft.steps ++ Frame ∷ []) self.old.end self.new.end) }
        ensures end { is_frame step ≡ false → self.new.end ≡ self.old.end }
        ensures is { IsLive self.new }
    {
        if self.is_full(&step) {
            return Err(LiveFault::Full);
        }
        if step.is_paint() {
            return Err(LiveFault::Wrong(ScriptKind::Name));
        }
        if step.is_frame() {
            self.end_frame()
        } else {
            self.keep(step)
        }
    }

    /// Pushes a picture with its paint, its top left corner at a place: as this kind, or as a chooser says when it
    /// is sent. A glyph is the index at which the client is to keep it.
    pub fn paint(
        &mut self,
        id: u16,
        at: Point,
        picture: Picture,
        kind: Option<Kind>,
        glyph: Option<u16>,
    ) -> Result<(), LiveFault>
        requires { IsLive self.old }
        ensures feeds { Feeds result (is_full self.old.draft (Paint id 0 at kind glyph)) (paint_fed self.old picture id at kind glyph) self.old self.new }
        ensures end { self.new.end ≡ self.old.end }
        ensures is { IsLive self.new }
    {
        if self.has_last_place_alone() {
            return Err(LiveFault::Full);
        }
        match self.draft.paint(picture, id, at, kind, glyph) {
            Ok(()) => Ok(()),
            Err(flaw) => Err(flaw.into()),
        }
    }

    /// A turn of the server's end, as `ServerEnd::serve`: Ended says that nothing is left to do until more is pushed. Where
    /// all that was pushed in whole frames has been sent then, its steps and pictures are forgotten. Where steps wait, since
    /// the window is full, pixels of pictures are forgotten whose paints a later step covers.
    pub fn serve<C: Chooser>(
        &mut self,
        choosers: &mut Vec<C>,
        out: &mut Bytes,
    ) -> Result<Turned, NoMemory>
        requires { IsLive self.old }
        ensures serves { ServesLive result self.old self.new (seen C.reply C.is_spent choosers.old.items) (seen C.reply C.is_spent choosers.new.items) out.old out.new }
        ensures is { IsLive self.new }
    {
        let waited = self.end.due();
        let turned = self.end.serve(choosers, out)?;
        self.forget(waited);
        Ok(turned)
    }

    /// Improves what the client shows where nothing else is to do: where all that was pushed was sent, nothing was pushed
    /// since the last frame and the window has room, it pushes an improvement of each surface that has a tile below its
    /// last level, and a frame, which `serve` sends. False where it isn't idle, and where every tile is at its last level,
    /// so that a server which calls this whenever it is idle ends at the best picture, and then sends nothing.
    pub fn improve_idle(&mut self) -> Result<bool, LiveFault>
        requires { IsLive self.old }
        ensures improves { ImprovesIdle result self.old self.new }
        ensures is { IsLive self.new }
    {
        if !self.is_idle() {
            return Ok(false);
        }
        let ids = self.end.raisable()?;
        if ids.is_empty() {
            return Ok(false);
        }
        if !self.has_room_for(ids.len()) {
            return Err(LiveFault::Full);
        }
        self.improve_each(ids.as_slice())?;
        Ok(true)
    }

    /// Takes the next bytes of the client, cut anywhere, puts out what is answered to them, and notes the frames
    /// whose acknowledgements it took. The first fault closes it, and it takes nothing more.
    pub fn take(
        &mut self,
        piece: &[u8],
        out: &mut Bytes,
        shown: &mut Vec<ShownFrame>,
    ) -> Result<(), ServerFault>
        requires { IsLive self.old }
        ensures listens { Listens self.old.end.closed result self.old.end self.new.end out.old out.new shown.old.items shown.new.items piece.now }
        ensures draft { self.new.draft ≡ self.old.draft }
        ensures is { IsLive self.new }
    {
        self.end.listen(piece, out, shown)
    }

    /// Whether all that was pushed in whole frames was sent, and one that were pushed now could go at once. A server
    /// that makes its pictures only then is never more than one frame behind.
    pub fn wants_frame(&self) -> bool
        requires { IsLive self.now }
        ensures { result ≡ wants_frame self.now }
    {
        self.end.wants_frame()
    }

    /// How many of the steps that were pushed weren't sent yet; 0 where want of memory in `serve` has left it spent.
    pub fn steps_behind(&self) -> u32
        requires { IsLive self.now }
        ensures { result ≡ steps_behind self.now }
    {
        if self.end.is_spent() {
            return 0;
        }
        self.end.steps_behind() + self.draft.len() as u32
    }

    /// How many of the frames that were pushed weren't sent yet; 0 where want of memory in `serve` has left it spent.
    pub fn frames_behind(&self) -> usize
        requires { IsLive self.now }
        ensures { result ≡ frames_behind self.now }
    {
        self.end.frames_behind()
    }

    /// Forgets all that was sent, where nothing is left and nothing waits, and else what waits and need not be sent, where
    /// so many items waited before the last turn.
    fn forget(&mut self, waited: usize)
        requires live { IsLive self.old }
        requires fresh { self.old.end.spent ≡ false }
        ensures forgets { Forgets (has_sent_all self.old.end) waited self.old self.new }
        ensures is { IsLive self.new }
    {
        if self.end.has_sent_all() {
            let count = self.end.script().picture_count() as u32;
            self.end.forget_script();
            self.draft.forget_pictures(count);
        } else {
            self.end.spare_waiting(waited);
        }
    }

    /// Whether nothing was pushed since the last frame, and it wants a frame.
    fn is_idle(&self) -> bool
        requires { IsLive self.now }
        ensures { result ≡ is_idle self.now }
    {
        self.draft.is_empty() && self.wants_frame()
    }

    /// Whether the script has room for so many steps and the frame that ends them.
    fn has_room_for(&self, count: usize) -> bool
        ensures { result ≡ not (nat_le MOST_STEPS (steps_so_far self.now.draft + count)) }
    {
        count < (MOST_STEPS - self.draft.steps_so_far()) as usize
    }

    /// Pushes an improvement of each of these surfaces, and a frame: all of it or, after an error, nothing.
    fn improve_each(&mut self, ids: &[u16]) -> Result<(), LiveFault>
        requires live { IsLive self.old }
        requires bare { self.old.draft.steps ≡ [] }
        ensures feeds { Feeds result false (improvements_fed self.old ids.now) self.old self.new }
        ensures stands { OnOk result (StandsWithMore self.old.draft.pictures (map Improve ids.now ++ Frame ∷ []) self.old.end self.new.end) }
        ensures is { IsLive self.new }
    {
        if let Err(flaw) = self.draft.improve_all(ids) {
            return Err(flaw.into());
        }
        match self.end_frame() {
            Ok(()) => Ok(()),
            Err(fault) => {
                self.draft.take_steps_back();
                Err(fault)
            }
        }
    }

    /// Ends the frame: what was pushed is in the script.
    fn end_frame(&mut self) -> Result<(), LiveFault>
        requires { IsLive self.old }
        ensures feeds { Feeds result false (frame_fed self.old) self.old self.new }
        ensures stands { OnOk result (StandsWithMore self.old.draft.pictures (self.old.draft.steps ++ Frame ∷ []) self.old.end self.new.end) }
        ensures is { IsLive self.new }
    {
        match self.end.end_frame(&mut self.draft) {
            Ok(()) => Ok(()),
            Err(flaw) => Err(flaw.into()),
        }
    }

    /// Keeps a step, which paints nothing, until its frame ends.
    fn keep(&mut self, step: Step) -> Result<(), LiveFault>
        requires live { IsLive self.old }
        requires bare { PaintsFrom (length self.old.end.script.pictures) step }
        ensures feeds { Feeds result false (step_fed self.old step) self.old self.new }
        ensures end { self.new.end ≡ self.old.end }
        ensures is { IsLive self.new }
    {
        match self.draft.push(step) {
            Ok(()) => Ok(()),
            Err(flaw) => Err(flaw.into()),
        }
    }

    /// Whether the script has no room for a step.
    fn is_full(&self, step: &Step) -> bool
        ensures { result ≡ is_full self.now.draft step.now }
    {
        if step.is_frame() {
            self.draft.steps_so_far() >= MOST_STEPS
        } else {
            self.has_last_place_alone()
        }
    }

    /// Whether no place but the last is left, which is that of a frame, or none at all.
    fn has_last_place_alone(&self) -> bool
        ensures { result ≡ nat_le MOST_STEPS (steps_so_far self.now.draft + 1) }
    {
        self.draft.steps_so_far() + 1 >= MOST_STEPS
    }
}
