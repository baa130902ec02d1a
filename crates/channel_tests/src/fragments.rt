//! Fragments of a dynamic channel: by hand from the format, and as they are written.
use crate::claiming::claim;
use gfx_base::{Bytes, Fault, NoMemory, Refusal, field_u16};
use gfx_dvc::{Joiner, split};
use std::alloc::Global;

/// Fragments, the bytes of the messages that they end, and how they end.
struct Joining {
    fragments: [&'static [u8]; 3],
    messages: &'static [u8],
    ending: Result<(), Refusal>,
}

const JOININGS: [Joining; 12] = [
    // A message alone in a DATA_FIRST.
    Joining {
        fragments: [b"\x20\x01\x01\xaa", b"\x30\x01\x01", b"\x30\x01\x02"],
        messages: b"\xaa\x01\x02",
        ending: Ok(()),
    },
    // The end inside a message.
    Joining {
        fragments: [b"\x30\x01\x07", b"\x20\x01\x02\xaa", b"\x30\x01"],
        messages: b"\x07",
        ending: Err(Refusal::ChannelTruncated),
    },
    // More data than the total leaves; the refusal is kept.
    Joining {
        fragments: [b"\x20\x01\x02\xaa", b"\x30\x01\xaa\xbb", b"\x30\x01\xaa"],
        messages: b"",
        ending: Err(Refusal::FragmentLength),
    },
    // One id in one, two and four bytes, one total in two and four.
    Joining {
        fragments: [
            b"\x25\x01\x00\x03\x00\xaa",
            b"\x32\x01\x00\x00\x00\xbb",
            b"\x30\x01\xcc",
        ],
        messages: b"\xaa\xbb\xcc",
        ending: Ok(()),
    },
    // Another id.
    Joining {
        fragments: [b"\x30\x01\xaa", b"\x31\x01\x01\xbb", b"\x30\x01\xcc"],
        messages: b"\xaa",
        ending: Err(Refusal::FragmentChannel),
    },
    // A DATA ignores the width of the total.
    Joining {
        fragments: [
            b"\x3c\x01\xaa",
            b"\x28\x01\x01\x00\x00\x00",
            b"\x34\x01\xbb",
        ],
        messages: b"\xaa\xbb",
        ending: Ok(()),
    },
    // A message opens while one is open.
    Joining {
        fragments: [b"\x20\x01\x02\xaa", b"\x20\x01\x01\xbb", b"\x30\x01\xcc"],
        messages: b"",
        ending: Err(Refusal::FragmentOrder),
    },
    // Compressed, at its first byte.
    Joining {
        fragments: [b"\x30\x01\xaa", b"\x6f", b"\x30\x01\xcc"],
        messages: b"\xaa",
        ending: Err(Refusal::BulkCompressed),
    },
    // A width of 3 that is used.
    Joining {
        fragments: [b"\x30\x01\xaa", b"\x2c\x01", b"\x30\x01\xcc"],
        messages: b"\xaa",
        ending: Err(Refusal::FragmentKind),
    },
    // The header isn't whole.
    Joining {
        fragments: [b"\x30\x01\xaa", b"\x24\x01\x01", b"\x30\x01\xcc"],
        messages: b"\xaa",
        ending: Err(Refusal::FragmentLength),
    },
    // A total above the limit.
    Joining {
        fragments: [
            b"\x30\x01\xaa",
            b"\x28\x01\x01\x00\x00\x04\xaa",
            b"\x30\x01\xcc",
        ],
        messages: b"\xaa",
        ending: Err(Refusal::ChannelLength),
    },
    // The greatest total: little of it has come.
    Joining {
        fragments: [
            b"\x30\x01\xaa",
            b"\x28\x01\x00\x00\x00\x04\xaa",
            b"\x30\x01\xcc",
        ],
        messages: b"\xaa",
        ending: Err(Refusal::ChannelTruncated),
    },
];

/// Takes a fragment, and puts the message that it ends behind others.
fn take(joiner: &mut Joiner, fragment: &[u8], messages: &mut Bytes) -> Result<(), Fault> {
    if let Some(message) = joiner.take(fragment)? {
        messages.append(message.as_slice())?;
    }
    Ok(())
}

/// Why the last of the fragments that is refused is so.
fn refusal(
    joiner: &mut Joiner,
    joining: &Joining,
    messages: &mut Bytes,
) -> Result<Option<Refusal>, Fault> {
    let mut refusal = None;
    for fragment in &joining.fragments {
        match take(joiner, fragment, messages) {
            Ok(()) => {}
            Err(Fault::Refused(reason)) => refusal = Some(reason),
            Err(Fault::Memory) => return Err(Fault::Memory),
        }
    }
    Ok(refusal)
}

/// Whether fragments end as is due. A refusal is told once.
fn ends(joiner: &Joiner, refusal: Option<Refusal>, ending: Result<(), Refusal>) -> bool {
    match refusal {
        Some(reason) => ending == Err(reason) && joiner.finish() == Ok(()),
        None => joiner.finish() == ending,
    }
}

/// Whether these are the bytes of the messages.
fn hold(messages: &Bytes, due: &[u8]) -> bool {
    messages.as_slice() == due
}

/// Whether a new joiner makes these messages of the fragments, and ends so.
fn is_joined(joiner: &mut Joiner, messages: &mut Bytes, joining: &Joining) -> Result<bool, Fault> {
    let refusal = refusal(joiner, joining, messages)?;
    Ok(hold(messages, joining.messages) && ends(joiner, refusal, joining.ending))
}

/// The same, where joiner and messages are made and let go of.
fn joins(alloc: Global, joining: &Joining) -> Result<bool, Fault> {
    let mut joiner = Joiner::new(alloc);
    let mut messages = Bytes::new(alloc);
    is_joined(&mut joiner, &mut messages, joining)
}

/// Whether all fragments are joined as is due.
fn all_are_joined(alloc: Global) -> Result<bool, Fault> {
    for joining in &JOININGS {
        if !joins(alloc, joining)? {
            return Ok(false);
        }
    }
    Ok(true)
}

#[test]
fn fragments_are_joined(rt: HostRuntime) {
    claim(&rt, all_are_joined(rt.alloc()));
}

/// A message of so many bytes as it is written: how many fragments it has, how the first of them begins behind its
/// length, and how long the first and the last are.
struct Cutting {
    size: usize,
    count: usize,
    head: &'static [u8],
    first: usize,
    last: usize,
}

const CUTTINGS: [Cutting; 8] = [
    Cutting {
        size: 18,
        count: 1,
        head: b"\x30\x01\x00\x01",
        first: 20,
        last: 20,
    },
    Cutting {
        size: 1_590,
        count: 1,
        head: b"\x30\x01\x00\x01",
        first: 1_592,
        last: 1_592,
    },
    Cutting {
        size: 1_591,
        count: 1,
        head: b"\x24\x01\x37\x06",
        first: 1_595,
        last: 1_595,
    },
    Cutting {
        size: 1_596,
        count: 1,
        head: b"\x24\x01\x3c\x06",
        first: 1_600,
        last: 1_600,
    },
    Cutting {
        size: 1_597,
        count: 2,
        head: b"\x24\x01\x3d\x06",
        first: 1_600,
        last: 3,
    },
    Cutting {
        size: 4_000,
        count: 3,
        head: b"\x24\x01\xa0\x0f",
        first: 1_600,
        last: 808,
    },
    Cutting {
        size: 65_535,
        count: 42,
        head: b"\x24\x01\xff\xff",
        first: 1_600,
        last: 21,
    },
    Cutting {
        size: 65_536,
        count: 42,
        head: b"\x28\x01\x00\x00\x01\x00",
        first: 1_600,
        last: 24,
    },
];

/// A message of so many bytes.
fn message_of(alloc: Global, size: usize) -> Result<Bytes, NoMemory> {
    let mut message = Bytes::new(alloc);
    for at in 0..size {
        message.push((at % 251) as u8)?;
    }
    Ok(message)
}

/// The fragments of a message, each behind its length. None is made where it has too few bytes or too many.
fn fragments_of(alloc: Global, message: &[u8]) -> Result<Bytes, NoMemory> {
    let mut out = Bytes::new(alloc);
    if message.len() > 0 && message.len() < 70_000 {
        split(message, &mut out)?;
    }
    Ok(out)
}

/// The first of fragments that stand each behind its length, and the others.
fn first_fragment(fragments: &[u8]) -> Option<(&[u8], &[u8])> {
    let size = usize::from(field_u16(fragments, 0)?);
    let (_, behind) = fragments.split_at(2);
    if size > behind.len() {
        return None;
    }
    Some(behind.split_at(size))
}

/// How many fragments there are, and how long the first and the last are.
#[derive(Clone, Copy, PartialEq, Eq)]
struct Sizes {
    count: usize,
    first: usize,
    last: usize,
}

impl Sizes {
    /// The sizes where a fragment of this size comes behind the others.
    fn with(self, size: usize) -> Sizes {
        Sizes {
            count: self.count.saturating_add(1),
            first: if self.count == 0 { size } else { self.first },
            last: size,
        }
    }
}

/// Joins fragments that stand each behind its length, and answers their sizes; none where a byte is left.
fn sizes_joined(
    joiner: &mut Joiner,
    fragments: &[u8],
    messages: &mut Bytes,
) -> Result<Option<Sizes>, Fault> {
    let mut sizes = Sizes {
        count: 0,
        first: 0,
        last: 0,
    };
    let mut rest = fragments;
    for _ in 0..fragments.len() {
        let Some((fragment, after)) = first_fragment(rest) else {
            break;
        };
        sizes = sizes.with(fragment.len());
        take(joiner, fragment, messages)?;
        rest = after;
    }
    Ok(if rest.is_empty() { Some(sizes) } else { None })
}

/// Whether these fragments are cut so, and join to the message again.
fn is_cut(
    joiner: &mut Joiner,
    messages: &mut Bytes,
    fragments: &[u8],
    cutting: &Cutting,
) -> Result<bool, Fault> {
    let sizes = sizes_joined(joiner, fragments, messages)?;
    let due = Sizes {
        count: cutting.count,
        first: cutting.first,
        last: cutting.last,
    };
    let Some((first, _)) = first_fragment(fragments) else {
        return Ok(false);
    };
    Ok(sizes == Some(due) && first.starts_with(cutting.head) && joiner.finish() == Ok(()))
}

/// The same of the fragments of this message, where they, joiner and messages are made and let go of.
fn cuts(alloc: Global, message: &[u8], cutting: &Cutting) -> Result<bool, Fault> {
    let fragments = fragments_of(alloc, message)?;
    let mut joiner = Joiner::new(alloc);
    let mut messages = Bytes::new(alloc);
    let cut = is_cut(&mut joiner, &mut messages, fragments.as_slice(), cutting);
    let same = message.len() == cutting.size && messages.as_slice() == message;
    if same { cut } else { Ok(false) }
}

/// Whether all messages are cut as is due, and joined again.
fn all_are_cut(alloc: Global) -> Result<bool, Fault> {
    for cutting in &CUTTINGS {
        let message = message_of(alloc, cutting.size)?;
        if !cuts(alloc, message.as_slice(), cutting)? {
            return Ok(false);
        }
    }
    Ok(true)
}

#[test]
fn a_message_is_cut_and_joined_again(rt: HostRuntime) {
    claim(&rt, all_are_cut(rt.alloc()));
}
