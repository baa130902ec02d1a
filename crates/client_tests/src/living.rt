//! The reply of a server that takes none of the bitmaps which were offered to it.
use crate::claiming::{claim, living};
use gfx_base::{NoMemory, Refusal};
use gfx_client::{Client, ClientFault, Offers, Stepped};
use std::alloc::Global;

/// CacheImportReply of no slot, as a channel message.
const EMPTY_REPLY: &[u8] = &[0xe0, 4, 0x11, 0, 0, 0, 0xa, 0, 0, 0, 0, 0];

/// CacheImportReply of slot 1.
const REPLY: &[u8] = &[0xe0, 4, 0x11, 0, 0, 0, 0xc, 0, 0, 0, 1, 0, 1, 0];

/// What a client answers to a message: whether it is passed over, or which fault it is.
fn answer(client: &mut Client, message: &[u8]) -> Result<bool, ClientFault> {
    client.take_whole(message)?;
    Ok(matches!(client.step()?, Stepped::Need))
}

/// The answer of a client that is let go of.
fn answered(client: Result<Client, NoMemory>, message: &[u8]) -> Result<bool, ClientFault> {
    let Ok(mut client) = client else {
        return Err(ClientFault::Memory);
    };
    let answer = answer(&mut client, message);
    client.let_go();
    answer
}

/// Whether a living client passes over the reply of no slot, and all else is refused.
fn replies(alloc: Global) -> Result<bool, ClientFault> {
    let refused = Err(ClientFault::Refused {
        number: 1,
        refusal: Refusal::PduUnknown,
    });
    let is_passed = answered(living(alloc), EMPTY_REPLY)?;
    let other = answered(living(alloc), REPLY);
    let strict = answered(Client::new(alloc, Offers::new(alloc)), EMPTY_REPLY);
    Ok(is_passed && other == refused && strict == refused)
}

#[test]
fn an_empty_reply_is_passed_over(rt: HostRuntime) {
    claim(&rt, replies(rt.alloc()));
}
