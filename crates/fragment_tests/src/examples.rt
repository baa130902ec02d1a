//! Streams and recordings of fragments by hand from the formats, with the answers of an independent program.
use crate::running::{RECORDING, STREAM, Way, run_on};
use gfx_base::Refusal;
use gfx_fragments::Ended;
use std::test::Fail;

/// An input, what is written of it, and how that ends.
struct Example {
    way: Way,
    input: &'static [u8],
    output: &'static [u8],
    ended: Ended,
}

const EXAMPLES: [Example; 20] = [
    Example {
        way: Way::Cut,
        input: STREAM,
        output: RECORDING,
        ended: Ended::Done,
    },
    Example {
        way: Way::Join,
        input: RECORDING,
        output: STREAM,
        ended: Ended::Done,
    },
    // Nothing.
    Example {
        way: Way::Cut,
        input: b"",
        output: b"",
        ended: Ended::Done,
    },
    Example {
        way: Way::Join,
        input: b"",
        output: b"",
        ended: Ended::Done,
    },
    // What is in a message isn't looked at.
    Example {
        way: Way::Cut,
        input: b"\x01\x00\x00\x00\xaa",
        output: b"\x03\x00\x30\x01\xaa",
        ended: Ended::Done,
    },
    // A message alone in a DATA_FIRST.
    Example {
        way: Way::Join,
        input: b"\x04\x00\x20\x01\x01\xaa",
        output: b"\x01\x00\x00\x00\xaa",
        ended: Ended::Done,
    },
    // A message in three fragments, with ids of one, two and four bytes.
    Example {
        way: Way::Join,
        input: b"\x06\x00\x25\x01\x00\x03\x00\xaa\x06\x00\x32\x01\x00\x00\x00\xbb\x03\x00\x30\x01\xcc",
        output: b"\x03\x00\x00\x00\xaa\xbb\xcc",
        ended: Ended::Done,
    },
    // The end inside a message, and more data than its total leaves.
    Example {
        way: Way::Join,
        input: b"\x04\x00\x20\x01\x02\xaa",
        output: b"",
        ended: Ended::Refused {
            number: 2,
            refusal: Refusal::ChannelTruncated,
        },
    },
    Example {
        way: Way::Join,
        input: b"\x04\x00\x20\x01\x02\xaa\x04\x00\x30\x01\xaa\xbb",
        output: b"",
        ended: Ended::Refused {
            number: 2,
            refusal: Refusal::FragmentLength,
        },
    },
    // A length that no message has, once it is there.
    Example {
        way: Way::Cut,
        input: b"\x01\x00\x00\x00\xaa\x00\x00\x00\x00",
        output: b"\x03\x00\x30\x01\xaa",
        ended: Ended::Refused {
            number: 2,
            refusal: Refusal::ChannelLength,
        },
    },
    Example {
        way: Way::Cut,
        input: b"\x01\x00\x00\x00\xaa\x01\x00\x00\x04",
        output: b"\x03\x00\x30\x01\xaa",
        ended: Ended::Refused {
            number: 2,
            refusal: Refusal::ChannelLength,
        },
    },
    // A length that no fragment has: 0, and 1,601.
    Example {
        way: Way::Join,
        input: b"\x03\x00\x30\x01\x05\x00\x00",
        output: b"\x01\x00\x00\x00\x05",
        ended: Ended::Refused {
            number: 2,
            refusal: Refusal::ChannelLength,
        },
    },
    Example {
        way: Way::Join,
        input: b"\x41\x06\x30",
        output: b"",
        ended: Ended::Refused {
            number: 1,
            refusal: Refusal::ChannelLength,
        },
    },
    // The refusal of a fragment comes before that of a length behind it.
    Example {
        way: Way::Join,
        input: b"\x04\x00\x30\x01\x01\xaa\x04\x00\x30\x02\x01\xaa\x00\x00",
        output: b"\x02\x00\x00\x00\x01\xaa",
        ended: Ended::Refused {
            number: 2,
            refusal: Refusal::FragmentChannel,
        },
    },
    // A DATA_FIRST while a message is open, and a DATA alone without data.
    Example {
        way: Way::Join,
        input: b"\x04\x00\x20\x01\x02\xaa\x04\x00\x20\x01\x01\xbb",
        output: b"",
        ended: Ended::Refused {
            number: 2,
            refusal: Refusal::FragmentOrder,
        },
    },
    Example {
        way: Way::Join,
        input: b"\x02\x00\x30\x01",
        output: b"",
        ended: Ended::Refused {
            number: 1,
            refusal: Refusal::ChannelLength,
        },
    },
    // An empty DATA while a message is open is accepted.
    Example {
        way: Way::Join,
        input: b"\x04\x00\x20\x01\x02\xaa\x02\x00\x30\x01\x03\x00\x30\x01\xbb",
        output: b"\x02\x00\x00\x00\xaa\xbb",
        ended: Ended::Done,
    },
    // A compressed fragment, and a kind that is none.
    Example {
        way: Way::Join,
        input: b"\x01\x00\x6f",
        output: b"",
        ended: Ended::Refused {
            number: 1,
            refusal: Refusal::BulkCompressed,
        },
    },
    Example {
        way: Way::Join,
        input: b"\x03\x00\x30\x01\x07\x02\x00\x50\x01",
        output: b"\x01\x00\x00\x00\x07",
        ended: Ended::Refused {
            number: 2,
            refusal: Refusal::FragmentKind,
        },
    },
    // A header that isn't whole.
    Example {
        way: Way::Join,
        input: b"\x03\x00\x24\x01\x01",
        output: b"",
        ended: Ended::Refused {
            number: 1,
            refusal: Refusal::FragmentLength,
        },
    },
];

#[test]
fn examples_are_as_said(rt: HostRuntime) -> Result<(), Fail> {
    for example in &EXAMPLES {
        let ran = run_on(rt.alloc(), example.way, example.input)?;
        assert_eq!(rt; ran.answer, Ok(example.ended));
        assert_eq!(rt; ran.out.held(), example.output);
    }
    Ok(())
}

/// Where the messages of the stream end, and those of its recording.
const ENDS: [usize; 5] = [0, 22, 43, 73, 91];

/// Of a beginning what is whole in it is written, and the rest is refused.
#[test]
fn inputs_are_cut_at_each_byte(rt: HostRuntime) -> Result<(), Fail> {
    for (way, input, output) in [
        (Way::Cut, STREAM, RECORDING),
        (Way::Join, RECORDING, STREAM),
    ] {
        for at in 0..=91 {
            let mut whole = 0;
            let mut number = 0_u64;
            for end in ENDS {
                if end <= at {
                    whole = end;
                    number = number.saturating_add(1);
                }
            }
            let ended = if whole == at {
                Ended::Done
            } else {
                Ended::Refused {
                    number,
                    refusal: Refusal::ChannelTruncated,
                }
            };
            let ran = run_on(rt.alloc(), way, &input[..at.min(input.len())])?;
            assert_eq!(rt; ran.answer, Ok(ended));
            assert_eq!(rt; ran.out.held(), &output[..whole.min(output.len())]);
        }
    }
    Ok(())
}
