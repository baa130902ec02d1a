//! Clients that begin with kept bitmaps, by the reply of a server.
use crate::claiming::claim;
use crate::making::{kept, let_go, red};
use gfx_base::{Fault, NoMemory, Refusal};
use gfx_client::{Client, Offers};
use gfx_import::Kept;
use std::alloc::Global;

/// A reply with slot 1 alone.
const ONE: &[u8] = b"\x11\x00\x00\x00\x0c\x00\x00\x00\x01\x00\x01\x00";

/// A reply with slot 0 alone, which is none.
const ZERO: &[u8] = b"\x11\x00\x00\x00\x0c\x00\x00\x00\x01\x00\x00\x00";

/// Why a client refuses to begin with these bitmaps, if it does, and which key it then has in slot 1.
type Begun = (Option<Refusal>, Option<u64>);

/// Why an import was refused, if it was.
fn refusal_of(answer: Result<(), Fault>) -> Result<Option<Refusal>, NoMemory> {
    match answer {
        Ok(()) => Ok(None),
        Err(Fault::Refused(refusal)) => Ok(Some(refusal)),
        Err(Fault::Memory) => Err(NoMemory),
    }
}

/// Whether a new client begins so. It is let go of at one place.
fn begins(alloc: Global, kept: &Kept, reply: &[u8], due: Begun) -> Result<bool, NoMemory> {
    let mut client = Client::new(alloc, Offers::new(alloc))?;
    let answer = client.import(kept, reply, false);
    let key = client.cache().key(1);
    client.let_go();
    Ok((refusal_of(answer)?, key) == due)
}

/// Whether clients begin with these bitmaps as is due of one that is kept.
fn begin(alloc: Global, kept: &Kept) -> Result<bool, NoMemory> {
    let astray = (Some(Refusal::SlotRange), None);
    Ok(begins(alloc, kept, ONE, (None, Some(5)))? && begins(alloc, kept, ZERO, astray)?)
}

/// The same of one bitmap.
fn one_begins(alloc: Global) -> Result<bool, Fault> {
    let pixel = kept(alloc, &[red(5, 1, 1)])?;
    let right = begin(alloc, &pixel);
    let_go(pixel);
    Ok(right?)
}

/// Whether a client that keeps nothing refuses a slot.
fn none_is_refused(alloc: Global) -> Result<bool, Fault> {
    let none = Kept::new(alloc);
    let refused = begins(alloc, &none, ONE, (Some(Refusal::ImportCount), None));
    let_go(none);
    Ok(refused?)
}

#[test]
fn import_count(rt: HostRuntime) {
    claim(&rt, none_is_refused(rt.alloc()));
    claim(&rt, one_begins(rt.alloc()));
}
