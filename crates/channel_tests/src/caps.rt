//! The client's messages and the choice of a version, their bytes written by hand from the format.
ghost use Rattle.gfx_caps.specs.Spelling.{IsSpellable};

use crate::claiming::claim;
use gfx_base::{Bytes, Fault, NoMemory, Refusal};
use gfx_caps::{
    CapsSet, CapsSets, Chosen, ClientPdu, VERSION_8, VERSION_8_1, VERSION_10, choose_version,
    read_client, small_cache, write_client,
};
use gfx_pdu::{Pdu, read_pdu};
use std::alloc::Global;

/// A message, and its fields as another implementation of the format reads them.
struct Message {
    bytes: &'static [u8],
    text: &'static str,
}

const MESSAGES: [Message; 6] = [
    // What a client says that offers version 10 and is small.
    Message {
        bytes: b"\x12\x00\x00\x00\x16\x00\x00\x00\x01\x00\x02\x00\x0a\x00\x04\x00\x00\x00\x22\x00\x00\x00",
        text: "Advertise { sets: CapsSets { sets: [CapsSet { version: 655362, body: Items { items: [34, 0, 0, 0] } }] } }",
    },
    Message {
        bytes: b"\x12\x00\x00\x00\x1b\x00\x00\x00\x02\x00\x04\x00\x08\x00\x00\x00\x00\x00\x03\x07\x0a\x00\x01\x00\x00\x00\x09",
        text: "Advertise { sets: CapsSets { sets: [CapsSet { version: 524292, body: Items { items: [] } }, CapsSet { version: 657155, body: Items { items: [9] } }] } }",
    },
    Message {
        bytes: b"\x0d\x00\x00\x00\x14\x00\x00\x00\x04\x03\x02\x01\x09\x00\x00\x00\x00\x01\x00\x00",
        text: "Ack { depth: 16909060, frame: 9, total: 256 }",
    },
    // What a client says that kept two bitmaps, and one that kept none.
    Message {
        bytes: b"\x10\x00\x00\x00\x22\x00\x00\x00\x02\x00\x08\x07\x06\x05\x04\x03\x02\x01\x40\x00\x00\x00\x01\x00\x00\x00\x00\x00\x00\x00\x00\x01\x00\x00",
        text: "ImportOffer { entries: Items { items: [CacheEntry { key: 72623859790382856, length: 64 }, CacheEntry { key: 1, length: 256 }] } }",
    },
    Message {
        bytes: b"\x10\x00\x00\x00\x0a\x00\x00\x00\x00\x00",
        text: "ImportOffer { entries: Items { items: [] } }",
    },
    // How long a frame took at the client.
    Message {
        bytes: b"\x16\x00\x00\x00\x14\x00\x00\x00\x09\x00\x00\x00\x04\x03\x02\x01\x05\x00\x06\x01",
        text: "QoeAck { frame: 9, timestamp: 16909060, decoding: 5, rendering: 262 }",
    },
];

/// Whether a message has these fields as its text.
fn is_told(alloc: Global, pdu: &ClientPdu, text: &str) -> Result<bool, NoMemory> {
    let told = format!(in alloc; "{pdu:?}")?;
    Ok(told.as_str() == text)
}

/// Whether a message is written as these bytes.
fn is_written(alloc: Global, pdu: &ClientPdu, bytes: &[u8]) -> Result<bool, NoMemory>
    requires { IsSpellable pdu.now }
{
    let mut out = Bytes::new(alloc);
    write_client(pdu, &mut out)?;
    Ok(out.as_slice() == bytes)
}

/// Whether a message has the text and the bytes that are due.
fn is_right(alloc: Global, pdu: &ClientPdu, message: &Message) -> Result<bool, NoMemory>
    requires { IsSpellable pdu.now }
{
    Ok(is_told(alloc, pdu, message.text)? && is_written(alloc, pdu, message.bytes)?)
}

/// The first of the messages that isn't read and written back, if one isn't.
fn first_wrong(alloc: Global) -> Result<Option<&'static str>, Fault> {
    for message in &MESSAGES {
        let pdu = read_client(alloc, message.bytes)?;
        let right = is_right(alloc, &pdu, message);
        drop(pdu);
        if !right? {
            return Ok(Some(message.text));
        }
    }
    Ok(None)
}

#[test]
fn each_client_message_is_read_and_written_back(rt: HostRuntime) {
    assert_eq!(rt; first_wrong(rt.alloc()), Ok(None));
}

/// Bytes that are no message of a client, and why.
struct Wrong {
    bytes: &'static [u8],
    refusal: Refusal,
}

const WRONG: [Wrong; 5] = [
    // An entry less than the count says, and a byte more.
    Wrong {
        bytes: b"\x10\x00\x00\x00\x16\x00\x00\x00\x02\x00\x01\x00\x00\x00\x00\x00\x00\x00\x40\x00\x00\x00",
        refusal: Refusal::CountMismatch,
    },
    Wrong {
        bytes: b"\x10\x00\x00\x00\x0b\x00\x00\x00\x00\x00\x00",
        refusal: Refusal::CountMismatch,
    },
    // A message that is longer than its bytes.
    Wrong {
        bytes: b"\x10\x00\x00\x00\x16\x00\x00\x00\x00\x00",
        refusal: Refusal::PduTruncated,
    },
    // The last time is missing.
    Wrong {
        bytes: b"\x16\x00\x00\x00\x12\x00\x00\x00\x09\x00\x00\x00\x04\x03\x02\x01\x05\x00",
        refusal: Refusal::CountMismatch,
    },
    // The reply is a message of the server.
    Wrong {
        bytes: b"\x11\x00\x00\x00\x0a\x00\x00\x00\x00\x00",
        refusal: Refusal::PduUnknown,
    },
];

/// Why bytes are refused that are no message of a client.
fn refusal_of(alloc: Global, bytes: &[u8]) -> Option<Fault> {
    match read_client(alloc, bytes) {
        Ok(pdu) => {
            drop(pdu);
            None
        }
        Err(fault) => Some(fault),
    }
}

/// Whether each is refused for its reason.
fn all_are_refused(alloc: Global) -> bool {
    for wrong in &WRONG {
        if refusal_of(alloc, wrong.bytes) != Some(Fault::Refused(wrong.refusal)) {
            return false;
        }
    }
    true
}

#[test]
fn messages_that_are_none_of_a_client(rt: HostRuntime) {
    assert!(rt; all_are_refused(rt.alloc()));
}

/// A set that is offered: its version, and the bytes of its flags.
type Set = (u32, &'static [u8]);

/// Puts a set behind others.
fn offer(alloc: Global, sets: &mut CapsSets, version: u32, flags: &[u8]) -> Result<(), NoMemory> {
    let mut body = Bytes::new(alloc);
    body.append(flags)?;
    sets.push(CapsSet { version, body })?;
    Ok(())
}

/// Puts these sets behind others.
fn offer_all(alloc: Global, sets: &mut CapsSets, offered: &[Set]) -> Result<(), NoMemory> {
    for (version, flags) in offered {
        offer(alloc, sets, *version, flags)?;
    }
    Ok(())
}

/// What is chosen of these sets.
fn chosen_of(alloc: Global, offered: &[Set]) -> Result<Result<Chosen, Refusal>, NoMemory> {
    let mut sets = CapsSets::new(alloc);
    let done = offer_all(alloc, &mut sets, offered);
    let chosen = choose_version(&sets);
    drop(sets);
    done?;
    Ok(chosen)
}

/// The version 10 for a small cache.
const SMALL: Chosen = Chosen {
    version: VERSION_10,
    flags: 0x22,
};

#[test]
fn versions(rt: HostRuntime) {
    let chosen = chosen_of(
        rt.alloc(),
        &[(VERSION_8, b"\x02\0\0\0"), (VERSION_10, b"\x22\0\0\0")],
    );
    assert_eq!(rt; chosen, Ok(Ok(SMALL)));
    assert!(rt; small_cache(SMALL));
}

/// The version 8 for a thin client.
const THIN: Chosen = Chosen {
    version: VERSION_8,
    flags: 1,
};

#[test]
fn thin_version(rt: HostRuntime) {
    let chosen = chosen_of(rt.alloc(), &[(VERSION_8, b"\x01\0\0\0")]);
    assert_eq!(rt; chosen, Ok(Ok(THIN)));
    assert!(rt; small_cache(THIN));
}

/// Sets that are offered, and what is chosen of them.
struct Choice {
    offered: &'static [Set],
    chosen: Result<Chosen, Refusal>,
}

const CHOICES: [Choice; 5] = [
    // Of version 10 the flag of AVC is kept, and the first set counts.
    Choice {
        offered: &[(VERSION_10, b"\xf0\0\0\0"), (VERSION_10, b"\x02\0\0\0")],
        chosen: Ok(Chosen {
            version: VERSION_10,
            flags: 0x20,
        }),
    },
    // Version 10 is for no thin client; of version 8.1 the flags of the small cache and of thin clients are kept.
    Choice {
        offered: &[(VERSION_10, b"\x23\0\0\0"), (VERSION_8_1, b"\x12\0\0\0")],
        chosen: Ok(Chosen {
            version: VERSION_8_1,
            flags: 2,
        }),
    },
    Choice {
        offered: &[(VERSION_10, b"\x01\0\0\0"), (VERSION_8_1, b"\xff\0\0\0")],
        chosen: Ok(Chosen {
            version: VERSION_8_1,
            flags: 3,
        }),
    },
    // A thin client's set of a higher version goes before one of a lower.
    Choice {
        offered: &[(VERSION_8, b"\0\0\0\0"), (VERSION_8_1, b"\x01\0\0\0")],
        chosen: Ok(Chosen {
            version: VERSION_8_1,
            flags: 1,
        }),
    },
    // No set qualifies without a word of flags, of another version, or for a thin client of version 10.
    Choice {
        offered: &[
            (VERSION_8, b"\0\0\0"),
            (0x000A_0100, b"\0\0\0\0"),
            (VERSION_10, b"\x01\0\0\0"),
        ],
        chosen: Err(Refusal::CapsVersion),
    },
];

/// Whether each choice is the one that is due.
fn all_are_chosen(alloc: Global) -> Result<bool, Fault> {
    for choice in &CHOICES {
        if chosen_of(alloc, choice.offered)? != choice.chosen {
            return Ok(false);
        }
    }
    Ok(true)
}

#[test]
fn the_highest_version_that_qualifies(rt: HostRuntime) {
    claim(&rt, all_are_chosen(rt.alloc()));
}

/// The CapsConfirm that answers example *versions*.
const CONFIRM: &[u8] =
    b"\x13\x00\x00\x00\x14\x00\x00\x00\x02\x00\x0a\x00\x04\x00\x00\x00\x22\x00\x00\x00";

/// Its fields, as another implementation of the format reads them.
const CONFIRMED: &str = "CapsConfirm { version: 655362, payload: Items { items: [34, 0, 0, 0] } }";

/// Whether a message of the server has these fields as its text.
fn server_told(alloc: Global, pdu: &Pdu, text: &str) -> Result<bool, NoMemory> {
    let told = format!(in alloc; "{pdu:?}")?;
    Ok(told.as_str() == text)
}

/// Whether the confirmation is read as what it is.
fn is_confirmed(alloc: Global) -> Result<bool, Fault> {
    match read_pdu(alloc, CONFIRM, 0)? {
        Some((pdu, _)) => {
            let told = server_told(alloc, &pdu, CONFIRMED);
            drop(pdu);
            Ok(told?)
        }
        None => Ok(false),
    }
}

#[test]
fn the_confirmation_is_a_message_of_the_server(rt: HostRuntime) {
    claim(&rt, is_confirmed(rt.alloc()));
}
