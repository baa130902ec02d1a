ghost use Rattle.std.specs.Prelude.{◌≡◌, ◌++◌, ◌∷◌, ◌<◌, ◌≤◌, IfOk, IsTrue, [], Some, drop, length, map, take, OnOk, OnErr};
ghost use Rattle.std.specs.List.{slice_get, last_or};
ghost use Rattle.gfx_base.specs.Outcome.{Says};
ghost use Rattle.gfx_window.specs.Window.{no_frames, has_room, with_pending, sent, is_unwatched, left_flying, acknowledged, acknowledged_late};
ghost use Rattle.gfx_window.specs.Sparing.{items_marked, surely_sent};
ghost use Rattle.gfx_window.specs.Index.{AreLeftOut};
ghost use Rattle.gfx_window.specs.Superseded.{superseded};

use crate::covering::{is_covered, plain_write};
use crate::leaving::left_out;
use crate::sparing::mark_surely_sent;
use gfx_base::NoMemory;
use gfx_caps::SUSPENDS;
use gfx_script::{Kind, Marks, Script};
use std::alloc::Global;
use std::collections::VecDeque;
use std::marker::Model;

/// A step of the script that waits for a frame, by its number, counted from 1, and the kind that it goes
/// as where it is a paint.
#[derive(Clone, Copy, Debug, PartialEq, Eq)]
pub struct Queued {
    pub step: u32,
    pub kind: Option<Kind>,
}

/// A frame that was sent, and its recorded step: the last one that was queued when it was sent.
#[derive(Clone, Copy, Debug, PartialEq, Eq)]
pub struct Sent {
    pub frame: u32,
    pub step: u32,
}

/// An acknowledgement of a frame that is watched and isn't the oldest in flight.
#[derive(Clone, Copy, Debug, PartialEq, Eq)]
pub struct AckUnknown {
    /// The frame that it names.
    pub id: u32,
    /// The oldest frame in flight, if there is one.
    pub oldest: Option<u32>,
}

/// The steps that wait for a frame, and the frames in flight, of which there are at most so many as the
/// window's size. Contracts see both as lists. While acknowledgements are suspended no frame is in flight: each goes
/// unwatched.
#[derive(Drop)]
pub struct Window {
    size: u8,
    pending: Vec<Queued>,
    flying: VecDeque<Sent>,
    suspended: bool,
    unwatched: Option<u32>,
}

impl Model for Window {
    ghost use Rattle.std.specs.Prelude.{◌≤◌, length};
    ghost use Rattle.gfx_window.specs.Window.{Window};

    ghost Value = { Window };

    ghost view = { λ w. record { size = w.size; pending = w.pending.items; flying = w.flying.items; suspended = w.suspended; unwatched = w.unwatched } };

    ghost invariant = { λ w. length w.flying.items ≤ w.size };
}

impl Window {
    /// A window for so many frames in flight. It takes no memory.
    pub fn new(alloc: Global, size: u8) -> Window
        ensures { result ≡ no_frames size }
    {
        Window {
            size,
            pending: Vec::new(alloc),
            flying: VecDeque::new(alloc),
            suspended: false,
            unwatched: None,
        }
    }

    /// Puts an item behind those that wait.
    pub fn queue(&mut self, item: Queued) -> Result<(), NoMemory>
        ensures ok { OnOk result (self.new ≡ with_pending self.old (self.old.pending ++ item ∷ [])) }
        ensures err { OnErr result (self.new ≡ self.old) }
    {
        self.pending.push(item)?;
        Ok(())
    }

    /// How many items wait.
    pub fn due(&self) -> usize
        ensures { result ≡ length self.now.pending }
    {
        self.pending.len()
    }

    /// The item that waits at this place, counted from 0 in order of queueing.
    pub fn item(&self, place: usize) -> Queued
        requires { place < length self.now.pending }
        ensures { slice_get self.now.pending place ≡ Some result }
    {
        self.pending[place]
    }

    /// Whether the item at this place need not be sent, since a later one covers it (`specs/Superseded`).
    pub fn superseded(&self, script: &Script, place: usize) -> bool
        requires { place < length self.now.pending }
        ensures { result ≡ superseded script.now self.now.pending place }
    {
        let item = self.item(place);
        let (_, later) = self.pending.split_at(place + 1);
        match plain_write(script, item) {
            None => false,
            Some(write) => is_covered(script, write, later),
        }
    }

    /// Of each item that waits whether it need not be sent, as `superseded` says it, found for all of them at once.
    pub fn left_out(&self, script: &Script) -> Result<Vec<bool>, NoMemory>
        ensures { IfOk result (λ left. AreLeftOut script.now self.now.pending left.items 0) }
    {
        left_out(*self.pending.allocator(), script, &self.pending)
    }

    /// Marks the pictures of the paints that wait, but for those that surely need not be sent: one of the items from this
    /// place on, counted from 0, covers them.
    pub fn mark_surely_sent(&self, script: &Script, newest: usize, marks: &mut Marks)
        requires { newest ≤ length self.now.pending }
        ensures { marks.new ≡ items_marked script.now marks.old (surely_sent script.now (take newest self.now.pending) (drop newest self.now.pending)) }
    {
        let (older, newest) = self.pending.split_at(newest);
        mark_surely_sent(script, older, newest, marks);
    }

    /// How many frames were sent and not acknowledged.
    pub fn in_flight(&self) -> usize
        ensures count { result ≡ length self.now.flying }
        ensures few { result ≤ self.now.size }
        ensures small { result ≤ 255 }
    {
        let count = self.flying.len();
        prove!(count <= usize::from(self.size));
        count
    }

    /// Whether acknowledgements are suspended: the client answers no frame that is sent.
    pub fn is_suspended(&self) -> bool
        ensures { result ≡ self.now.suspended }
    {
        self.suspended
    }

    /// Whether there is room for a frame.
    pub fn can_send(&self) -> bool
        ensures { result ≡ has_room self.now }
    {
        self.suspended || self.flying.len() < usize::from(self.size)
    }

    /// Notes a frame that goes with all items that wait, and the step that is recorded with it. While
    /// acknowledgements are suspended it goes unwatched.
    pub fn send(&mut self, frame: u32, step: u32) -> Result<(), NoMemory>
        requires { IsTrue (has_room self.old) }
        ensures ok { OnOk result (self.new ≡ sent self.old frame step) }
        ensures err { OnErr result (self.new ≡ self.old) }
    {
        if self.suspended {
            self.unwatched = Some(frame);
        } else {
            self.flying.push_back(Sent { frame, step })?;
        }
        self.pending.clear();
        Ok(())
    }

    /// Takes the acknowledgement of a frame at this depth, and tells its recorded step where it is the oldest in
    /// flight. Of a frame that went unwatched nothing is told. AckUnknown exactly where the frame is neither. A depth
    /// of `SUSPENDS` suspends acknowledgements, so that nothing is in flight any more; any other ends that.
    #[tactic(auto, unfolding(crate::specs::Window::acknowledged))]
    pub fn acknowledge(&mut self, depth: u32, frame: u32) -> Result<Option<u32>, AckUnknown>
        ensures value { Says (λ step. (step, self.new)) result (acknowledged self.old self.old.flying depth frame) }
        ensures err { OnErr result (self.new ≡ self.old) }
    {
        let oldest = self.flying.front().copied();
        match oldest {
            Some(first) if first.frame == frame => {
                self.flying.pop_front();
                self.leave_flying(depth == SUSPENDS);
                Ok(Some(first.step))
            }
            Some(first) => self.acknowledge_late(Some(first.frame), depth, frame),
            None => self.acknowledge_late(None, depth, frame),
        }
    }

    /// Takes the acknowledgement of a frame that isn't this, the oldest in flight. Nothing is told of one that went
    /// unwatched; any other is AckUnknown.
    fn acknowledge_late(
        &mut self,
        oldest: Option<u32>,
        depth: u32,
        frame: u32,
    ) -> Result<Option<u32>, AckUnknown>
        ensures value { Says (λ step. (step, self.new)) result (acknowledged_late self.old oldest depth frame) }
        ensures err { OnErr result (self.new ≡ self.old) }
    {
        if !self.is_unwatched(frame) {
            return Err(AckUnknown { id: frame, oldest });
        }
        self.leave_flying(depth == SUSPENDS);
        Ok(None)
    }

    /// Whether a frame isn't watched: it is none behind the last that went unwatched.
    fn is_unwatched(&self, frame: u32) -> bool
        ensures { result ≡ is_unwatched self.now.unwatched frame }
    {
        match self.unwatched {
            None => false,
            Some(last) => frame <= last,
        }
    }

    /// Leaves all frames in flight, or none where acknowledgements are suspended.
    fn leave_flying(&mut self, suspends: bool)
        ensures { self.new ≡ left_flying suspends self.old self.old.flying }
    {
        self.suspended = suspends;
        if !suspends {
            return;
        }
        self.unwatched = self.last_unwatched();
        self.flying.clear();
    }

    /// The last frame that goes unwatched, where all in flight do now.
    fn last_unwatched(&self) -> Option<u32>
        ensures { result ≡ last_or self.now.unwatched (map (λ one. one.frame) self.now.flying) }
    {
        match self.flying.back() {
            Some(last) => Some(last.frame),
            None => self.unwatched,
        }
    }
}
