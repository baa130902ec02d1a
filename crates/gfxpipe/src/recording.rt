//! A client as what a recording is given to.
ghost use Rattle.std.specs.Prelude.{◌≡◌, None};
ghost use Rattle.gfx_client.specs.Client.{cursor_of, closed_by, IsAtEnd, end_of};
ghost use Rattle.gfxpipe.specs.Recording.{ending_by};

use crate::ending::Ending;
use gfx_base::Sink;
use gfx_client::{Client, ClientFault};
use gfx_input::{Read, TakeFault, Taken, Taker};

/// A client that takes bytes until a message is refused. It writes nothing.
#[derive(Drop)]
pub struct Player {
    pub client: Client,
}

impl Taker for Player {
    ghost use Rattle.gfx_state.specs.Run.{run_of};
    ghost use Rattle.gfxpipe.specs.Recording.{HasPlayed, HasRefused};
    ghost use Rattle.gfxpipe.specs.Fronts.{fronts_not_refused};
    ghost use Rattle.gfx_input.specs.Taking.{fixed, silent, stays, settled};

    ghost stands = { λ player bytes. HasPlayed player.client bytes };

    ghost stops = { λ player bytes. HasRefused player.client bytes };

    ghost is_fine = { λ bytes. (run_of bytes).refusal ≡ None };

    ghost written = { silent };

    ghost allowed = { fixed };

    fn allowed(&self, limit: usize) -> usize {
        limit
    }

    fn give<O: Sink>(&mut self, piece: &[u8], _out: &mut O) -> Result<Taken, TakeFault> {
        match self.client.play(piece) {
            Ok(()) => Ok(Taken::More),
            Err(ClientFault::Refused { .. }) => Ok(Taken::Stopped),
            Err(_) => Err(TakeFault::Memory),
        }
    }

    ghost fronts = { λ player bytes n stands. fronts_not_refused player.client bytes n stands };

    ghost grows = { λ limit _ _. stays limit };

    ghost settles = { λ limit bytes _ all. settled limit bytes all };
}

/// How a recording ends that was given to this client.
pub(crate) fn ending_of(read: Read, client: &Client) -> Ending
    requires { IsAtEnd client.now }
    ensures { result ≡ ending_by read (end_of (closed_by client.now) (cursor_of client.now)) }
{
    match (read, client.finish()) {
        (Read::TooLong, _) => Ending::TooLong,
        (Read::Whole, Err(ClientFault::Refused { number, refusal })) => {
            Ending::Refused { number, refusal }
        }
        (Read::Stopped, Err(ClientFault::ClosedRefused { number, refusal })) => {
            Ending::Refused { number, refusal }
        }
        _ => Ending::Done,
    }
}
