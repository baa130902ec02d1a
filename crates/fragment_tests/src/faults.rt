//! What is written where an input is longer than its limit, and where a read or a write fails.
use crate::running::{RECORDING, STREAM, Way, run_within};
use gfx_base::Refusal;
use gfx_fragments::Ended;
use gfx_input::InputFault;
use std::test::Fail;

/// How a command ends within a limit, and how much it has written.
struct Limited {
    way: Way,
    limit: usize,
    ended: Ended,
    written: usize,
}

const LIMITED: [Limited; 4] = [
    Limited {
        way: Way::Cut,
        limit: 91,
        ended: Ended::Done,
        written: 91,
    },
    Limited {
        way: Way::Cut,
        limit: 90,
        ended: Ended::TooLong,
        written: 73,
    },
    Limited {
        way: Way::Join,
        limit: 90,
        ended: Ended::TooLong,
        written: 73,
    },
    Limited {
        way: Way::Join,
        limit: 0,
        ended: Ended::TooLong,
        written: 0,
    },
];

#[test]
fn what_is_within_the_limit_is_written(rt: HostRuntime) -> Result<(), Fail> {
    for limited in &LIMITED {
        let (input, output) = match limited.way {
            Way::Cut => (STREAM, RECORDING),
            Way::Join => (RECORDING, STREAM),
        };
        assert!(rt; limited.limit < 1_000);
        let ran = run_within(rt.alloc(), limited.way, limited.limit, input, &[], &[])?;
        assert_eq!(rt; ran.answer, Ok(limited.ended));
        assert_eq!(rt; ran.out.held().len(), limited.written);
        assert!(rt; output.starts_with(ran.out.held()));
    }
    Ok(())
}

/// A refusal within the limit comes before the limit.
#[test]
fn a_refusal_comes_before_the_limit(rt: HostRuntime) -> Result<(), Fail> {
    let input = b"\x03\x00\x30\x01\x07\x00\x00\x03\x00\x30\x01\x08";
    let ran = run_within(rt.alloc(), Way::Join, 7, input, &[], &[])?;
    let ended = Ended::Refused {
        number: 2,
        refusal: Refusal::ChannelLength,
    };
    assert_eq!(rt; ran.answer, Ok(ended));
    assert_eq!(rt; ran.out.held(), b"\x01\x00\x00\x00\x07".as_slice());
    Ok(())
}

/// The input is one read, and its end another. What was read before is out.
#[test]
fn reads_fail(rt: HostRuntime) -> Result<(), Fail> {
    for (way, read, written) in [
        (Way::Cut, 1, 0),
        (Way::Cut, 2, 91),
        (Way::Join, 1, 0),
        (Way::Join, 2, 91),
    ] {
        let input = match way {
            Way::Cut => STREAM,
            Way::Join => RECORDING,
        };
        let fails = [read];
        let ran = run_within(rt.alloc(), way, 1_000, input, &fails, &[])?;
        assert_eq!(rt; ran.answer, Err(InputFault::Read));
        assert_eq!(rt; ran.out.held().len(), written);
    }
    Ok(())
}

/// A message's fragments are one write; a message is two, one of them its length.
#[test]
fn writes_fail(rt: HostRuntime) -> Result<(), Fail> {
    for (way, write, written) in [
        (Way::Cut, 1, 0),
        (Way::Cut, 2, 22),
        (Way::Cut, 4, 73),
        (Way::Join, 1, 0),
        (Way::Join, 2, 4),
        (Way::Join, 8, 77),
    ] {
        let input = match way {
            Way::Cut => STREAM,
            Way::Join => RECORDING,
        };
        let fails = [write];
        let ran = run_within(rt.alloc(), way, 1_000, input, &[], &fails)?;
        assert_eq!(rt; ran.answer, Err(InputFault::Write));
        assert_eq!(rt; ran.out.held().len(), written);
    }
    Ok(())
}
