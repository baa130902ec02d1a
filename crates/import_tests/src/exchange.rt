//! Offers, replies, and what is imported: the worked example, and lists that end at each of the limits, with the
//! answers of an independent program.
use crate::claiming::claim;
use crate::making::{GREEN, Plain, kept, let_go, numbered, red};
use gfx_base::{Bitmap, Bytes, Fault, NoMemory, Refusal};
use gfx_import::{
    Kept, agree, imported, imported_at, imported_count, read_kept, read_reply, reply, write_offer,
};
use std::alloc::Global;

/// The offer of key 5 with one pixel.
const OFFER: &[u8] =
    b"\x10\x00\x00\x00\x16\x00\x00\x00\x01\x00\x05\x00\x00\x00\x00\x00\x00\x00\x04\x00\x00\x00";

/// The reply of a server that holds it.
const REPLY: &[u8] = b"\x11\x00\x00\x00\x0c\x00\x00\x00\x01\x00\x01\x00";

/// The offer of all that is kept.
fn offer_of(alloc: Global, kept: &Kept) -> Result<Bytes, NoMemory> {
    let mut out = Bytes::new(alloc);
    write_offer(kept, &mut out)?;
    Ok(out)
}

/// Whether the reply to an offer announces so many entries, and is this.
fn replies(
    alloc: Global,
    server: &Kept,
    offer: &[u8],
    due: &[u8],
    count: usize,
) -> Result<bool, Fault> {
    let mut out = Bytes::new(alloc);
    let announced = reply(alloc, server, offer, false, &mut out)?;
    Ok(announced == count && out.as_slice() == due)
}

/// Whether this is the offer of all that is kept.
fn offers(alloc: Global, kept: &Kept, due: &[u8]) -> Result<bool, NoMemory> {
    let offer = offer_of(alloc, kept)?;
    Ok(offer.as_slice() == due)
}

/// Whether one pixel is offered so, and its server replies so.
fn is_exchanged(alloc: Global, kept: &Kept) -> Result<bool, Fault> {
    Ok(offers(alloc, kept, OFFER)? && replies(alloc, kept, OFFER, REPLY, 1)?)
}

/// The same of a file of one pixel.
fn one_is_exchanged(alloc: Global) -> Result<bool, Fault> {
    let kept = kept(alloc, &[red(5, 1, 1)])?;
    let right = is_exchanged(alloc, &kept);
    let_go(kept);
    right
}

#[test]
fn an_offer_and_its_reply(rt: HostRuntime) {
    claim(&rt, one_is_exchanged(rt.alloc()));
}

/// Whether the reply has slot 1 alone.
fn has_slot(alloc: Global) -> Result<bool, Fault> {
    let slots = read_reply(alloc, REPLY)?;
    Ok(slots.as_slice() == [1].as_slice())
}

#[test]
fn a_reply_has_slots(rt: HostRuntime) {
    claim(&rt, has_slot(rt.alloc()));
    let is_none = read_reply(rt.alloc(), OFFER).is_err();
    assert!(rt; is_none);
}

/// Why a server refuses an offer, and whether it appended nothing.
fn refused(alloc: Global, server: &Kept, offer: &[u8]) -> (Option<Refusal>, bool) {
    let mut out = Bytes::new(alloc);
    let refusal = match reply(alloc, server, offer, false, &mut out) {
        Err(Fault::Refused(refusal)) => Some(refusal),
        _ => None,
    };
    (refusal, out.is_empty())
}

/// Offers that aren't right, each with its refusal: shorter than a header, a length below the header's or beyond the
/// bytes, a reply, a count that says more or fewer entries, a byte behind the message.
const REFUSED: [(&[u8], Refusal); 7] = [
    (b"\x10\x00\x00\x00\x0a\x00\x00", Refusal::PduTruncated),
    (
        b"\x10\x00\x00\x00\x07\x00\x00\x00\x00\x00",
        Refusal::PduLength,
    ),
    (
        b"\x10\x00\x00\x00\x0b\x00\x00\x00\x00\x00",
        Refusal::PduTruncated,
    ),
    (
        b"\x11\x00\x00\x00\x0a\x00\x00\x00\x00\x00",
        Refusal::PduUnknown,
    ),
    (
        b"\x10\x00\x00\x00\x0a\x00\x00\x00\x01\x00",
        Refusal::CountMismatch,
    ),
    (
        b"\x10\x00\x00\x00\x16\x00\x00\x00\x00\x00\x05\x00\x00\x00\x00\x00\x00\x00\x04\x00\x00\x00",
        Refusal::CountMismatch,
    ),
    (
        b"\x10\x00\x00\x00\x0a\x00\x00\x00\x00\x00\x00",
        Refusal::CountMismatch,
    ),
];

/// Whether a server refuses all of these.
fn all_are_refused(alloc: Global, server: &Kept) -> bool {
    for (offer, refusal) in &REFUSED {
        if refused(alloc, server, offer) != (Some(*refusal), true) {
            return false;
        }
    }
    true
}

/// The same of a server that keeps one pixel.
fn one_refuses(alloc: Global) -> Result<bool, Fault> {
    let server = kept(alloc, &[red(5, 1, 1)])?;
    let right = all_are_refused(alloc, &server);
    let_go(server);
    Ok(right)
}

#[test]
fn offers_that_are_not_right(rt: HostRuntime) {
    claim(&rt, one_refuses(rt.alloc()));
}

/// How many bitmaps are imported, as the list says it.
fn listed(alloc: Global, server: &Kept, client: &Kept) -> Result<usize, NoMemory> {
    let list = imported(alloc, server, client, false)?;
    Ok(list.len())
}

/// How many are announced to an offer, as the reply says it.
fn announced(alloc: Global, server: &Kept, offer: &[u8]) -> Result<usize, Fault> {
    let mut out = Bytes::new(alloc);
    reply(alloc, server, offer, false, &mut out)
}

/// The same to the client's offer.
fn replied(alloc: Global, server: &Kept, client: &Kept) -> Result<usize, Fault> {
    let offer = offer_of(alloc, client)?;
    announced(alloc, server, offer.as_slice())
}

/// Whether all calls say that so many of the client's entries are imported.
fn all_say(alloc: Global, server: &Kept, client: &Kept, due: usize) -> Result<bool, Fault> {
    let listed = listed(alloc, server, client)?;
    let replied = replied(alloc, server, client)?;
    Ok(listed == due && replied == due && imported_count(server, client, false) == due)
}

/// Whether so many of these entries are imported.
fn takes(alloc: Global, server: &Kept, client: &[Plain], due: usize) -> Result<bool, Fault> {
    let client = kept(alloc, client)?;
    let said = all_say(alloc, server, &client, due);
    let_go(client);
    said
}

// A key that the server hasn't, or has with another length, ends the list.
fn ends_rightly(alloc: Global, server: &Kept) -> Result<bool, Fault> {
    let all = [red(5, 1, 1), red(6, 1, 1), red(7, 2, 3)];
    let none = [red(4, 1, 1), red(6, 1, 1)];
    let second = [red(5, 1, 1), red(6, 1, 2), red(7, 2, 3)];
    let turned = [red(7, 3, 2), red(4, 1, 1), red(6, 1, 1)];
    Ok(
        takes(alloc, server, &all, 3)?
            && takes(alloc, server, &none, 0)?
            && takes(alloc, server, &second, 1)?
            && takes(alloc, server, &turned, 1)?,
    )
}

/// The same of a server that keeps three.
fn three_end_rightly(alloc: Global) -> Result<bool, Fault> {
    let server = kept(alloc, &[red(6, 1, 1), red(5, 1, 1), red(7, 2, 3)])?;
    let right = ends_rightly(alloc, &server);
    let_go(server);
    right
}

#[test]
fn the_first_that_is_not_taken_ends_the_list(rt: HostRuntime) {
    claim(&rt, three_end_rightly(rt.alloc()));
}

/// How many entries a server takes of a file that is its own, with the small cache and without it.
fn counts(both: &Kept) -> (usize, usize) {
    (
        imported_count(both, both, true),
        imported_count(both, both, false),
    )
}

/// The same of a file of these entries.
fn taken_of_itself(alloc: Global, entries: &[Plain]) -> Result<(usize, usize), Fault> {
    let both = kept(alloc, entries)?;
    let counts = counts(&both);
    let_go(both);
    Ok(counts)
}

// Four megabytes each: four of them are the small budget whole.
#[test]
fn the_small_budget_ends_the_list(rt: HostRuntime) {
    let five = [
        red(1, 1024, 1024),
        red(2, 1024, 1024),
        red(3, 1024, 1024),
        red(4, 1024, 1024),
        red(5, 1, 1),
    ];
    let over = [
        red(1, 1024, 1024),
        red(2, 1024, 1024),
        red(3, 1024, 1024),
        red(7, 1024, 1025),
        red(9, 1, 1),
    ];
    assert_eq!(rt; taken_of_itself(rt.alloc(), &five), Ok((4, 5)));
    assert_eq!(rt; taken_of_itself(rt.alloc(), &over), Ok((3, 5)));
}

/// A file of so many empty bitmaps, read.
fn empty_bitmaps(alloc: Global, count: u16) -> Result<Kept, Fault> {
    let file = numbered(alloc, count)?;
    read_kept(alloc, file.as_slice())
}

/// How many of them a server takes of its own.
fn empty_taken(alloc: Global, count: u16) -> Result<(usize, usize), Fault> {
    let both = empty_bitmaps(alloc, count)?;
    let counts = counts(&both);
    let_go(both);
    Ok(counts)
}

#[test]
fn the_small_cache_has_4096_slots(rt: HostRuntime) {
    assert_eq!(rt; empty_taken(rt.alloc(), 5_461), Ok((4_096, 5_461)));
}

/// The key and the first pixel's green of an entry.
fn first_green(held: Option<(u64, &Bitmap)>) -> Option<(u64, u8)> {
    let (key, bitmap) = held?;
    let pixel = bitmap.pixels.get(0)?;
    Some((key, pixel.g))
}

/// Whether the bitmaps at both places are so, one by one.
fn are_at_places(server: &Kept, client: &Kept) -> bool {
    first_green(imported_at(server, client, 0)) == Some((5, 255))
        && first_green(imported_at(server, client, 1)) == Some((6, 0))
}

/// Whether they are so in the list, and one by one.
fn imports_green(alloc: Global, server: &Kept, client: &Kept) -> Result<bool, NoMemory> {
    let list = imported(alloc, server, client, false)?;
    let first = first_green(list.at(0)) == Some((5, 255));
    let second = first_green(list.at(1)) == Some((6, 0));
    Ok(first && second && are_at_places(server, client))
}

/// The same where the client's bitmaps are red.
fn imports_from(alloc: Global, server: &Kept) -> Result<bool, Fault> {
    let client = kept(alloc, &[red(5, 1, 1), red(6, 1, 1)])?;
    let right = imports_green(alloc, server, &client);
    let_go(client);
    Ok(right?)
}

/// The same where one of the server's is green.
fn green_is_imported(alloc: Global) -> Result<bool, Fault> {
    let green = Plain {
        key: 5,
        width: 1,
        height: 1,
        pixel: GREEN,
    };
    let server = kept(alloc, &[red(6, 1, 1), green])?;
    let right = imports_from(alloc, &server);
    let_go(server);
    right
}

// The server's pixels are imported, in the client's order.
#[test]
fn the_server_s_bitmaps_are_imported(rt: HostRuntime) {
    claim(&rt, green_is_imported(rt.alloc()));
}

/// Two files of one entry each, and whether they agree.
const PAIRS: [(Plain, Plain, bool); 5] = [
    (
        Plain {
            key: 5,
            width: 2,
            height: 1,
            pixel: [1, 2, 3, 4],
        },
        Plain {
            key: 5,
            width: 2,
            height: 1,
            pixel: [1, 2, 3, 4],
        },
        true,
    ),
    (
        Plain {
            key: 5,
            width: 2,
            height: 1,
            pixel: [1, 2, 3, 4],
        },
        Plain {
            key: 5,
            width: 2,
            height: 1,
            pixel: [1, 2, 3, 5],
        },
        false,
    ),
    (
        Plain {
            key: 5,
            width: 2,
            height: 1,
            pixel: [1, 2, 3, 4],
        },
        Plain {
            key: 5,
            width: 1,
            height: 2,
            pixel: [1, 2, 3, 4],
        },
        false,
    ),
    (
        Plain {
            key: 5,
            width: 2,
            height: 1,
            pixel: [1, 2, 3, 4],
        },
        Plain {
            key: 5,
            width: 1,
            height: 1,
            pixel: [9, 9, 9, 9],
        },
        true,
    ),
    (
        Plain {
            key: 5,
            width: 2,
            height: 1,
            pixel: [1, 2, 3, 4],
        },
        Plain {
            key: 6,
            width: 2,
            height: 1,
            pixel: [9, 9, 9, 9],
        },
        true,
    ),
];

/// Whether a server's file agrees with one of an entry and of another one that both have.
fn agrees_with(alloc: Global, server: &Kept, client: Plain) -> Result<bool, Fault> {
    let client = kept(alloc, &[client, red(1, 1, 1)])?;
    let same = agree(server, &client);
    let_go(client);
    Ok(same)
}

/// The same where the server's has an entry and the other one too.
fn agrees(alloc: Global, server: Plain, client: Plain) -> Result<bool, Fault> {
    let server = kept(alloc, &[red(1, 1, 1), server])?;
    let same = agrees_with(alloc, &server, client);
    let_go(server);
    same
}

/// Whether it is so of each pair.
fn all_agree(alloc: Global) -> Result<bool, Fault> {
    for (server, client, same) in &PAIRS {
        if agrees(alloc, *server, *client)? != *same {
            return Ok(false);
        }
    }
    Ok(true)
}

#[test]
fn files_that_agree(rt: HostRuntime) {
    claim(&rt, all_agree(rt.alloc()));
}
