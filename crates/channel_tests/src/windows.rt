//! Pending steps that a later one covers, and frames in flight.
use crate::claiming::claim;
use gfx_base::{Fault, NoMemory};
use gfx_caps::SUSPENDS;
use gfx_script::Script;
use gfx_script_text::read_script;
use gfx_window::{AckUnknown, Queued, Window};
use std::alloc::Global;

/// A script, and its steps that are left out where all of them wait.
struct Case {
    script: &'static str,
    left_out: &'static [usize],
}

const CASES: [Case; 5] = [
    // A fill that waits behind a later one of the same rectangle, with a frame between.
    Case {
        script: r##"
step = [
{ do = "surface", id = 1, width = 4, height = 4 },
{ do = "frame" },
{ do = "fill", id = 1, colour = "0000ffff", rects = [[0, 0, 4, 4]] },
{ do = "frame" },
{ do = "fill", id = 1, colour = "00ff00ff", rects = [[0, 0, 4, 4]] },
{ do = "frame" },
]
"##,
        left_out: &[2],
    },
    // Three fills of one rectangle.
    Case {
        script: r##"
step = [
{ do = "surface", id = 1, width = 4, height = 4 },
{ do = "fill", id = 1, colour = "0000ffff", rects = [[1, 1, 3, 3]] },
{ do = "fill", id = 1, colour = "00ff00ff", rects = [[1, 1, 3, 3]] },
{ do = "fill", id = 1, colour = "ff0000ff", rects = [[1, 1, 3, 3]] },
{ do = "frame" },
]
"##,
        left_out: &[1, 2],
    },
    // A copy stands between.
    Case {
        script: r##"
step = [
{ do = "surface", id = 1, width = 4, height = 4 },
{ do = "surface", id = 2, width = 4, height = 4 },
{ do = "fill", id = 1, colour = "0000ffff", rects = [[0, 0, 4, 4]] },
{ do = "copy", from = 1, to = 2, rect = [0, 0, 4, 4], points = [[0, 0]] },
{ do = "fill", id = 1, colour = "00ff00ff", rects = [[0, 0, 4, 4]] },
{ do = "frame" },
]
"##,
        left_out: &[],
    },
    // A paint in passes stands between.
    Case {
        script: r##"
picture = [{ name = "a", width = 4, height = 4, pattern = "ramp" }]
step = [
{ do = "surface", id = 1, width = 8, height = 8 },
{ do = "fill", id = 1, colour = "0000ffff", rects = [[0, 0, 4, 4]] },
{ do = "paint", id = 1, picture = "a", at = [0, 0], kind = "progressive" },
{ do = "fill", id = 1, colour = "00ff00ff", rects = [[0, 0, 8, 8]] },
{ do = "frame" },
]
"##,
        left_out: &[],
    },
    // Two rectangles that two later ones cover together, and neither alone.
    Case {
        script: r##"
step = [
{ do = "surface", id = 1, width = 4, height = 4 },
{ do = "fill", id = 1, colour = "0000ffff", rects = [[0, 0, 1, 1], [3, 3, 4, 4]] },
{ do = "fill", id = 1, colour = "00ff00ff", rects = [[0, 0, 2, 2], [2, 2, 4, 4]] },
{ do = "frame" },
]
"##,
        left_out: &[],
    },
];

/// Lets go of a script, which is proved once here.
fn let_go(script: Script) {
    drop(script);
}

/// Lets go of a window, which is proved once here.
fn let_go_of_window(window: Window) {
    drop(window);
}

/// Queues all steps of a script.
fn queue_all(window: &mut Window, script: &Script) -> Result<(), NoMemory> {
    for number in 1..=100 {
        let Some(step) = script.step(number) else {
            break;
        };
        window.queue(Queued {
            step: number,
            kind: step.kind(),
        })?;
    }
    Ok(())
}

/// Whether these steps of those that wait are left out.
fn leaves_out(window: &Window, script: &Script, left_out: &[usize]) -> bool {
    for place in 0..window.due() {
        if window.superseded(script, place) != left_out.contains(&place) {
            return false;
        }
    }
    true
}

/// The same in a new window in which all steps of a script wait.
fn are_left_out(alloc: Global, script: &Script, left_out: &[usize]) -> Result<bool, NoMemory> {
    let mut window = Window::new(alloc, 1);
    let queued = queue_all(&mut window, script);
    let right = leaves_out(&window, script, left_out);
    let_go_of_window(window);
    queued?;
    Ok(right)
}

/// Whether the steps of a case are left out that are due, and there is such a script.
fn is_covered(alloc: Global, case: &Case) -> Result<bool, NoMemory> {
    let Ok(script) = read_script(alloc, case.script.as_bytes()) else {
        return Ok(false);
    };
    let right = are_left_out(alloc, &script, case.left_out);
    let_go(script);
    right
}

/// Whether it is so in each case.
fn all_are_covered(alloc: Global) -> Result<bool, Fault> {
    for case in &CASES {
        if !is_covered(alloc, case)? {
            return Ok(false);
        }
    }
    Ok(true)
}

#[test]
fn what_a_later_step_covers(rt: HostRuntime) {
    claim(&rt, all_are_covered(rt.alloc()));
}

/// Whether a window says that a frame isn't the oldest in flight, which is this.
fn is_unknown(window: &mut Window, id: u32, oldest: Option<u32>) -> bool {
    window.acknowledge(0, id) == Err(AckUnknown { id, oldest })
}

/// Sends a frame, where there is room for it.
fn send(window: &mut Window, frame: u32, step: u32) -> Result<(), NoMemory> {
    if window.can_send() {
        window.send(frame, step)?;
    }
    Ok(())
}

/// Whether two frames are in flight once they are sent, and are acknowledged in their order alone.
fn are_in_flight(window: &mut Window) -> Result<bool, NoMemory> {
    let none = is_unknown(window, 1, None);
    send(window, 1, 6)?;
    send(window, 2, 9)?;
    let full = (window.in_flight(), window.can_send()) == (2, false);
    let later = is_unknown(window, 9, Some(1));
    let first = window.acknowledge(0, 1) == Ok(Some(6));
    let second = window.acknowledge(0, 2) == Ok(Some(9));
    Ok(none && full && later && first && second && window.can_send())
}

#[test]
fn frames_in_flight(rt: HostRuntime) {
    let mut window = Window::new(rt.alloc(), 2);
    let right = are_in_flight(&mut window);
    let_go_of_window(window);
    assert_eq!(rt; right, Ok(true));
}

/// What happens to a window of one frame.
#[derive(Clone, Copy)]
enum Event {
    /// A frame goes.
    Goes(u32),
    /// A frame is acknowledged at a depth.
    Says(u32, u32),
}

/// An event, and what is known of the window behind it: the answer to an acknowledgement, how many frames are in
/// flight, and whether there is room for one.
struct Moment {
    event: Event,
    answer: Option<Result<Option<u32>, AckUnknown>>,
    flying: usize,
    room: bool,
}

const SUSPENDED: [Moment; 12] = [
    Moment {
        event: Event::Goes(1),
        answer: None,
        flying: 1,
        room: false,
    },
    // The frame is shown, and acknowledgements are suspended.
    Moment {
        event: Event::Says(SUSPENDS, 1),
        answer: Some(Ok(Some(10))),
        flying: 0,
        room: true,
    },
    // It isn't acknowledged twice, and none is yet that wasn't sent.
    Moment {
        event: Event::Says(SUSPENDS, 1),
        answer: Some(Err(AckUnknown {
            id: 1,
            oldest: None,
        })),
        flying: 0,
        room: true,
    },
    Moment {
        event: Event::Goes(2),
        answer: None,
        flying: 0,
        room: true,
    },
    Moment {
        event: Event::Goes(3),
        answer: None,
        flying: 0,
        room: true,
    },
    Moment {
        event: Event::Says(0, 4),
        answer: Some(Err(AckUnknown {
            id: 4,
            oldest: None,
        })),
        flying: 0,
        room: true,
    },
    // Frames that went unwatched are acknowledged, and the client goes on by the second.
    Moment {
        event: Event::Says(SUSPENDS, 2),
        answer: Some(Ok(None)),
        flying: 0,
        room: true,
    },
    Moment {
        event: Event::Says(7, 2),
        answer: Some(Ok(None)),
        flying: 0,
        room: true,
    },
    // The next frame is watched.
    Moment {
        event: Event::Goes(4),
        answer: None,
        flying: 1,
        room: false,
    },
    Moment {
        event: Event::Says(0, 3),
        answer: Some(Ok(None)),
        flying: 1,
        room: false,
    },
    Moment {
        event: Event::Says(0, 5),
        answer: Some(Err(AckUnknown {
            id: 5,
            oldest: Some(4),
        })),
        flying: 1,
        room: false,
    },
    Moment {
        event: Event::Says(0, 4),
        answer: Some(Ok(Some(40))),
        flying: 0,
        room: true,
    },
];

/// Lets an event happen, and tells what an acknowledgement is answered.
fn happens(
    window: &mut Window,
    event: Event,
) -> Result<Option<Result<Option<u32>, AckUnknown>>, NoMemory> {
    match event {
        Event::Goes(frame) => {
            send(window, frame, 10 * frame.min(9))?;
            Ok(None)
        }
        Event::Says(depth, frame) => Ok(Some(window.acknowledge(depth, frame))),
    }
}

/// Whether each of these moments is as it is due.
fn goes_so(window: &mut Window, moments: &[Moment]) -> Result<bool, NoMemory> {
    for moment in moments {
        let answer = happens(window, moment.event)?;
        if answer != moment.answer
            || (window.in_flight(), window.can_send()) != (moment.flying, moment.room)
        {
            return Ok(false);
        }
    }
    Ok(true)
}

#[test]
fn suspended_acknowledgements(rt: HostRuntime) {
    let mut window = Window::new(rt.alloc(), 1);
    let right = goes_so(&mut window, &SUSPENDED);
    let_go_of_window(window);
    assert_eq!(rt; right, Ok(true));
}
