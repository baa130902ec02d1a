//! What scripts say of their sessions: the window, what the client offers, how video paints are coded, and the turns.
use gfx_caps::{Offer, VERSION_8, VERSION_8_1, VERSION_10};
use gfx_script::{Entropy, Script, ScriptKind, Turn};
use gfx_script_text::{ScriptError, read_script};
use std::alloc::Global;

/// A script, and what it says of its session.
struct Case {
    script: &'static str,
    window: u8,
    small: bool,
    thin: bool,
    entropy: Entropy,
    offers: &'static [Offer],
    turns: &'static [Turn],
}

const CASES: [Case; 4] = [
    // Nothing is said.
    Case {
        script: "",
        window: 2,
        small: false,
        thin: false,
        entropy: Entropy::One,
        offers: &[Offer {
            version: VERSION_10,
            small: false,
            thin: false,
        }],
        turns: &[],
    },
    // The highest version isn't the first one.
    Case {
        script: r#"
window = 64
client = [{ version = "8", small = true }, { version = "8.1" }, { version = "8.1", small = true }]
turn = [{ end = "server" }, { end = "client", take = 1 }, { end = "answer", take = 4294967295 }]
"#,
        window: 64,
        small: false,
        thin: false,
        entropy: Entropy::One,
        offers: &[
            Offer {
                version: VERSION_8,
                small: true,
                thin: false,
            },
            Offer {
                version: VERSION_8_1,
                small: false,
                thin: false,
            },
            Offer {
                version: VERSION_8_1,
                small: true,
                thin: false,
            },
        ],
        turns: &[Turn::Server, Turn::Client(1), Turn::Answer(4294967295)],
    },
    // A small cache.
    Case {
        script: r#"
window = 1
client = [{ version = "10", small = true }]
turn = []
"#,
        window: 1,
        small: true,
        thin: false,
        entropy: Entropy::One,
        offers: &[Offer {
            version: VERSION_10,
            small: true,
            thin: false,
        }],
        turns: &[],
    },
    // A thin client, which the small limits bind too.
    Case {
        script: r#"
client = [{ version = "8", thin = false }, { version = "8.1", thin = true }]
video = { entropy = "rlgr3" }
"#,
        window: 2,
        small: true,
        thin: true,
        entropy: Entropy::Three,
        offers: &[
            Offer {
                version: VERSION_8,
                small: false,
                thin: false,
            },
            Offer {
                version: VERSION_8_1,
                small: false,
                thin: true,
            },
        ],
        turns: &[],
    },
];

/// The turn at this place of some, counted from 0.
fn turn_at(turns: &[Turn], at: u32) -> Option<Turn> {
    turns.get(at as usize).copied()
}

/// Lets go of a script, which is proved once here.
fn let_go(script: Script) {
    drop(script);
}

/// Whether a script has these turns first, four at most.
fn has_turns(script: &Script, turns: &[Turn]) -> bool {
    for at in 0..4 {
        if script.turn(at) != turn_at(turns, at) {
            return false;
        }
    }
    true
}

/// Whether these are the versions that the client of a script offers.
fn has_offers(script: &Script, offers: &[Offer]) -> bool {
    script.offers().as_slice() == offers
}

/// Whether a script says what is due of its session.
fn says(script: &Script, case: &Case) -> bool {
    (script.window(), script.small()) == (case.window, case.small)
        && (script.thin(), script.entropy()) == (case.thin, case.entropy)
        && has_offers(script, case.offers)
        && has_turns(script, case.turns)
}

/// Whether the script of a case says what is due.
fn is_read(alloc: Global, case: &Case) -> Result<bool, ScriptError> {
    let script = read_script(alloc, case.script.as_bytes())?;
    let right = says(&script, case);
    let_go(script);
    Ok(right)
}

/// Whether each script says what is due.
fn all_are_read(alloc: Global) -> Result<bool, ScriptError> {
    for case in &CASES {
        if !is_read(alloc, case)? {
            return Ok(false);
        }
    }
    Ok(true)
}

#[test]
fn what_scripts_say_of_their_sessions(rt: HostRuntime) {
    assert_eq!(rt; all_are_read(rt.alloc()), Ok(true));
}

/// Scripts with one fault or more, and the kind of the first one. None of them is told of a step.
const FAULTS: [(&str, ScriptKind); 12] = [
    ("window = \"2\"", ScriptKind::Key),
    ("window = 65", ScriptKind::Range),
    ("window = 0\nclient = 1", ScriptKind::Key),
    ("client = [{ small = true }]", ScriptKind::Key),
    ("window = 1\nclient = []", ScriptKind::Range),
    (
        "client = [{ version = \"10\", thin = false }]\nturn = 1",
        ScriptKind::Key,
    ),
    ("video = { entropy = 3 }", ScriptKind::Key),
    ("turn = [{ end = \"server\", take = 1 }]", ScriptKind::Key),
    ("turn = [{ end = \"client\" }]", ScriptKind::Key),
    ("turn = [{ end = \"answer\", take = 0 }]", ScriptKind::Range),
    (
        "turn = [{ end = \"client\", take = 4294967296 }, 1]",
        ScriptKind::Range,
    ),
    (
        "step = [{ do = \"surface\", id = 1, width = 1, height = 1 }]\nturn = [1]",
        ScriptKind::Unframed,
    ),
];

/// Why a script isn't read, if it isn't.
fn fault_of(alloc: Global, script: &str) -> Option<ScriptError> {
    match read_script(alloc, script.as_bytes()) {
        Ok(script) => {
            let_go(script);
            None
        }
        Err(error) => Some(error),
    }
}

/// The first of the scripts whose fault isn't the one that is due, if there is one.
fn first_wrong(alloc: Global) -> Option<&'static str> {
    for (script, kind) in &FAULTS {
        let due = ScriptError::Fault {
            step: 0,
            kind: *kind,
        };
        if fault_of(alloc, script) != Some(due) {
            return Some(*script);
        }
    }
    None
}

#[test]
fn the_first_fault_outside_the_steps_is_told(rt: HostRuntime) {
    assert_eq!(rt; first_wrong(rt.alloc()), None);
}
