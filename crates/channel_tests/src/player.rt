//! A client that is given frames, what it says to the server, and one at the limit of surfaces.
use crate::claiming::claim;
use gfx_base::{Bytes, Fault, NoMemory, Refusal};
use gfx_caps::{VERSION_8_1, VERSION_10};
use gfx_client::{Client, ClientFault, Offer, Offers, Stepped};
use std::alloc::Global;

/// One red surface in one frame.
const FILL: [u8; 91] = [
    // StartFrame 1.
    0x12, 0, 0, 0, 0xe0, 4, 0xb, 0, 0, 0, 0x10, 0, 0, 0, 0, 0, 0, 0, 1, 0, 0, 0,
    // CreateSurface 1 of 2 by 1, XRGB.
    0x11, 0, 0, 0, 0xe0, 4, 9, 0, 0, 0, 0xf, 0, 0, 0, 1, 0, 2, 0, 1, 0, 0x20,
    // SolidFill of all of it in red.
    0x1a, 0, 0, 0, 0xe0, 4, 4, 0, 0, 0, 0x18, 0, 0, 0, 1, 0, 0, 0, 0xff, 0, 1, 0, 0, 0, 0, 0, 2, 0,
    1, 0,
    // EndFrame 1.
    0xe, 0, 0, 0, 0xe0, 4, 0xc, 0, 0, 0, 0xc, 0, 0, 0, 1, 0, 0, 0,
];

fn new_client(alloc: Global) -> Result<Client, NoMemory> {
    Client::new(alloc, Offers::new(alloc))
}

/// What a client made of the bytes that it was given.
#[derive(Clone, Copy, Debug, PartialEq, Eq)]
struct Played {
    applied: u64,
    has_surface: bool,
    takes_slot: bool,
    needs: bool,
}

/// Gives bytes to a new client, and lets go of it at one place. Its answers are gathered.
fn bytes_played(alloc: Global, bytes: &[u8], replies: &mut Bytes) -> Result<Played, ClientFault> {
    let Ok(mut client) = new_client(alloc) else {
        return Err(ClientFault::Memory);
    };
    let played = play(&mut client, bytes, replies);
    client.let_go();
    played
}

fn play(client: &mut Client, bytes: &[u8], replies: &mut Bytes) -> Result<Played, ClientFault> {
    client.take(bytes)?;
    step_on(client, replies)?;
    Ok(Played {
        applied: client.applied(),
        has_surface: client.surfaces().contains(1),
        takes_slot: client.cache().takes_slot(1),
        needs: needs(&client.step()?),
    })
}

/// Applies messages until more bytes are needed, ten at most, and gathers what the server is told of them.
fn step_on(client: &mut Client, replies: &mut Bytes) -> Result<(), ClientFault> {
    for _ in 0..10 {
        let stepped = client.step()?;
        if needs(&stepped) {
            break;
        }
        if !is_gathered(&stepped, replies) {
            return Err(ClientFault::Memory);
        }
    }
    Ok(())
}

/// Whether a step found no whole message.
fn needs(stepped: &Stepped) -> bool {
    matches!(stepped, Stepped::Need)
}

/// Puts what the server is told of a step behind what it was told before. There may be no memory for it.
fn is_gathered(stepped: &Stepped, replies: &mut Bytes) -> bool {
    match stepped {
        Stepped::Ended { reply, .. } => replies.append(reply.as_slice()).is_ok(),
        Stepped::Applied { .. } | Stepped::Need => true,
    }
}

/// What a new client makes of these bytes, and whether these are its answers.
fn answered(alloc: Global, bytes: &[u8], answers: &[u8]) -> (Result<Played, ClientFault>, bool) {
    let mut replies = Bytes::new(alloc);
    let played = bytes_played(alloc, bytes, &mut replies);
    (played, replies.as_slice() == answers)
}

/// FrameAcknowledge of frame 1, the first that is decoded: nothing waits.
const ACKNOWLEDGED: [u8; 24] = [
    0x14, 0, 0, 0, 0xd, 0, 0, 0, 0x14, 0, 0, 0, 0, 0, 0, 0, 1, 0, 0, 0, 1, 0, 0, 0,
];

#[test]
fn a_frame_is_stepped_through(rt: HostRuntime) {
    let (played, same) = answered(rt.alloc(), &FILL, &ACKNOWLEDGED);
    let due = Played {
        applied: 4,
        has_surface: true,
        takes_slot: true,
        needs: true,
    };
    assert_eq!(rt; played, Ok(due));
    assert!(rt; same);
}

/// Two frames that draw nothing.
const FRAMES: [u8; 80] = [
    // StartFrame 9.
    0x12, 0, 0, 0, 0xe0, 4, 0xb, 0, 0, 0, 0x10, 0, 0, 0, 0, 0, 0, 0, 9, 0, 0, 0,
    // EndFrame 9.
    0xe, 0, 0, 0, 0xe0, 4, 0xc, 0, 0, 0, 0xc, 0, 0, 0, 9, 0, 0, 0,
    // StartFrame 7.
    0x12, 0, 0, 0, 0xe0, 4, 0xb, 0, 0, 0, 0x10, 0, 0, 0, 0, 0, 0, 0, 7, 0, 0, 0,
    // EndFrame 7.
    0xe, 0, 0, 0, 0xe0, 4, 0xc, 0, 0, 0, 0xc, 0, 0, 0, 7, 0, 0, 0,
];

/// FrameAcknowledge of both, in the order in which they were decoded.
const BOTH_ACKNOWLEDGED: [u8; 48] = [
    // Frame 9, the first.
    0x14, 0, 0, 0, 0xd, 0, 0, 0, 0x14, 0, 0, 0, 0, 0, 0, 0, 9, 0, 0, 0, 1, 0, 0, 0,
    // Frame 7, the second.
    0x14, 0, 0, 0, 0xd, 0, 0, 0, 0x14, 0, 0, 0, 0, 0, 0, 0, 7, 0, 0, 0, 2, 0, 0, 0,
];

#[test]
fn each_frame_is_acknowledged(rt: HostRuntime) {
    let (played, same) = answered(rt.alloc(), &FRAMES, &BOTH_ACKNOWLEDGED);
    assert!(rt; played.is_ok() && same);
}

/// CapsAdvertise of version 10 with the small cache and without AVC.
const HELLO: [u8; 26] = [
    0x16, 0, 0, 0, 0x12, 0, 0, 0, 0x16, 0, 0, 0, 1, 0, 2, 0, 0xa, 0, 4, 0, 0, 0, 0x22, 0, 0, 0,
];

/// CapsAdvertise of version 8.1 for a thin client.
const THIN_HELLO: [u8; 26] = [
    0x16, 0, 0, 0, 0x12, 0, 0, 0, 0x16, 0, 0, 0, 1, 0, 5, 1, 8, 0, 4, 0, 0, 0, 1, 0, 0, 0,
];

/// What a client offers, and what it says first.
const HELLOS: [(Offer, &[u8]); 2] = [
    (
        Offer {
            version: VERSION_10,
            small: true,
            thin: false,
        },
        &HELLO,
    ),
    (
        Offer {
            version: VERSION_8_1,
            small: false,
            thin: true,
        },
        &THIN_HELLO,
    ),
];

/// A client with one offer.
fn offering(alloc: Global, offer: Offer) -> Result<Client, NoMemory> {
    let mut offers = Offers::new(alloc);
    offers.push(offer)?;
    Client::new(alloc, offers)
}

/// Whether a client says this first.
fn says(client: &Client, due: &[u8]) -> Result<bool, NoMemory> {
    let hello = client.hello()?;
    Ok(hello.as_slice() == due)
}

/// Whether a client with this offer says this first.
fn offers(alloc: Global, offer: Offer, due: &[u8]) -> Result<bool, NoMemory> {
    let client = offering(alloc, offer)?;
    let said = says(&client, due);
    client.let_go();
    said
}

/// Whether each client says what is due.
fn all_are_offered(alloc: Global) -> Result<bool, Fault> {
    for (offer, hello) in &HELLOS {
        if !offers(alloc, *offer, hello)? {
            return Ok(false);
        }
    }
    Ok(true)
}

#[test]
fn a_client_offers_its_versions(rt: HostRuntime) {
    claim(&rt, all_are_offered(rt.alloc()));
}

/// A surface of 8,192 by 8,192 takes all cells; one of 1 by 1 is then too many.
const FULL: [u8; 42] = [
    // CreateSurface 1 of 8,192 by 8,192, XRGB.
    0x11, 0, 0, 0, 0xe0, 4, 9, 0, 0, 0, 0xf, 0, 0, 0, 1, 0, 0, 0x20, 0, 0x20, 0x20,
    // CreateSurface 2 of 1 by 1, XRGB.
    0x11, 0, 0, 0, 0xe0, 4, 9, 0, 0, 0, 0xf, 0, 0, 0, 2, 0, 1, 0, 1, 0, 0x20,
];

/// The fault of the second message, and that of the end behind it.
type Faults = Option<(ClientFault, Option<ClientFault>)>;

fn overfill(client: &mut Client) -> Result<Faults, ClientFault> {
    client.take(&FULL)?;
    client.step()?;
    match client.step() {
        Ok(_) => Ok(None),
        Err(fault) => Ok(Some((fault, client.finish().err()))),
    }
}

fn overfilled(alloc: Global) -> Result<Faults, ClientFault> {
    let Ok(mut client) = new_client(alloc) else {
        return Err(ClientFault::Memory);
    };
    let faults = overfill(&mut client);
    client.let_go();
    faults
}

#[test]
fn surface_budget(rt: HostRuntime) {
    let (number, refusal) = (2, Refusal::SurfaceBudget);
    let second = ClientFault::Refused { number, refusal };
    let end = ClientFault::ClosedRefused { number, refusal };
    assert_eq!(rt; overfilled(rt.alloc()), Ok(Some((second, Some(end)))));
}
