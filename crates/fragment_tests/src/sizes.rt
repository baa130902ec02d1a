//! Messages at each border of the writer's forms: how long their recordings are, and how those begin, after an
//! independent program.
use crate::running::{Way, run_on};
use gfx_base::{Bytes, NoMemory};
use gfx_fragments::Ended;
use std::alloc::Global;
use std::test::Fail;

/// The bytes of a message, those of its recording, and how that begins.
struct Size {
    bytes: u32,
    recorded: usize,
    head: &'static [u8],
}

const SIZES: [Size; 7] = [
    Size {
        bytes: 1_590,
        recorded: 1_594,
        head: b"\x38\x06\x30\x01",
    },
    Size {
        bytes: 1_591,
        recorded: 1_597,
        head: b"\x3b\x06\x24\x01\x37\x06",
    },
    Size {
        bytes: 1_596,
        recorded: 1_602,
        head: b"\x40\x06\x24\x01\x3c\x06",
    },
    Size {
        bytes: 1_597,
        recorded: 1_607,
        head: b"\x40\x06\x24\x01\x3d\x06",
    },
    Size {
        bytes: 4_000,
        recorded: 4_014,
        head: b"\x40\x06\x24\x01\xa0\x0f",
    },
    Size {
        bytes: 65_535,
        recorded: 65_705,
        head: b"\x40\x06\x24\x01\xff\xff",
    },
    Size {
        bytes: 65_536,
        recorded: 65_708,
        head: b"\x40\x06\x28\x01\x00\x00\x01\x00",
    },
];

/// A stream of one message of so many bytes.
fn stream_of(alloc: Global, bytes: u32) -> Result<Bytes, NoMemory> {
    let mut stream = Bytes::new(alloc);
    stream.append(&bytes.to_le_bytes())?;
    for at in 0..bytes {
        stream.push((at % 251) as u8)?;
    }
    Ok(stream)
}

#[test]
fn a_stream_comes_back_of_each_size(rt: HostRuntime) -> Result<(), Fail> {
    for size in &SIZES {
        let stream = stream_of(rt.alloc(), size.bytes)?;
        let cut = run_on(rt.alloc(), Way::Cut, stream.as_slice())?;
        assert_eq!(rt; cut.answer, Ok(Ended::Done));
        assert_eq!(rt; cut.out.held().len(), size.recorded);
        assert!(rt; cut.out.held().starts_with(size.head));
        let joined = run_on(rt.alloc(), Way::Join, cut.out.held())?;
        assert_eq!(rt; joined.answer, Ok(Ended::Done));
        assert_eq!(rt; joined.out.held(), stream.as_slice());
    }
    Ok(())
}
