//! What an input is given to, piece by piece: each file is read once it is whole, and the script is collected.
ghost use Rattle.std.specs.Prelude.{◌≡◌, ℕ, List, []};
ghost use Rattle.gfx_input.specs.declared.taker.Taken.TheVariants.{Stopped};
ghost use Rattle.gfx_import.specs.Agreed.{agree};
ghost use Rattle.gfx_input.specs.Reading.{WantsOnlyIf};
ghost use Rattle.gfx_kept_input.specs.Front.{may_want};
ghost use Rattle.gfx_kept_input.specs.Taking.{due_size, Holds, Goes, IsRead};
ghost use Rattle.gfx_kept_input.specs.declared.taker.Part.TheVariants.{Server, Client, Refused};

use crate::file::{File, PREFIX, known_size, let_go, read_front};
use gfx_base::{Bytes, Fault, Refusal, Sink};
use gfx_import::agree;
use gfx_input::{TakeFault, Taken, Taker};
use std::alloc::Global;

/// Which part of an input is due.
#[derive(Clone, Copy, Debug, PartialEq, Eq)]
pub(crate) enum Part {
    /// The server's file, behind its length.
    Server,
    /// The client's, behind its length.
    Client,
    /// The script.
    Script,
    /// None: the input is refused.
    Refused(Refusal),
}

/// It takes the bytes of an input until a file is refused.
#[derive(Drop)]
pub(crate) struct Intake {
    alloc: Global,
    pub(crate) part: Part,
    /// The bytes of the part that is due: of a file with its length, as long as it isn't whole.
    pub(crate) bytes: Bytes,
    /// The files, once they are read; none before.
    pub(crate) server: File,
    pub(crate) client: File,
}

impl Intake {
    /// Nothing is taken yet. It takes no memory.
    pub(crate) fn new(alloc: Global) -> Intake
        ensures part { result.part ≡ Server }
        ensures bytes { result.bytes ≡ [] }
        ensures server { result.server.size ≡ 0 }
        ensures client { result.client.size ≡ 0 }
    {
        Intake {
            alloc,
            part: Part::Server,
            bytes: Bytes::new(alloc),
            server: File::none(alloc),
            client: File::none(alloc),
        }
    }
}

impl Taker for Intake {
    ghost use Rattle.gfx_kept_input.specs.Allowed.{allowed, grows, settles};
    ghost use Rattle.gfx_kept_input.specs.Due.{IsFine};
    ghost use Rattle.gfx_kept_input.specs.Taking.{Stands, Stops};
    ghost use Rattle.gfx_input.specs.Taking.{silent};

    ghost stands = { λ taker bytes. Stands taker bytes };

    ghost stops = { λ taker bytes. Stops taker bytes };

    ghost is_fine = { λ bytes. IsFine bytes };

    ghost written = { silent };

    ghost allowed = { allowed };

    fn allowed(&self, limit: usize) -> usize {
        let files = self.server.size as usize + self.client.size as usize + due_size(self) as usize;
        limit + 2 * PREFIX + files
    }

    fn give<O: Sink>(&mut self, piece: &[u8], _out: &mut O) -> Result<Taken, TakeFault> {
        self.bytes.append(piece)?;
        read_files(self)
    }

    ghost fronts = { λ _ _ n stands. stands.fine n };

    ghost grows = { grows };

    ghost settles = { settles };
}

/// The length of the file that is due, as far as it is known.
fn due_size(taker: &Intake) -> u32
    ensures { result ≡ due_size taker.now.part taker.now.bytes }
{
    match taker.part {
        Part::Server | Part::Client => known_size(taker.bytes.as_slice()),
        Part::Script | Part::Refused(_) => 0,
    }
}

/// Reads the files that are whole.
fn read_files(taker: &mut Intake) -> Result<Taken, TakeFault>
    ensures { (bytes : List ℕ) → Holds taker.old.part taker.old bytes → Goes result taker.new bytes }
{
    match taker.part {
        Part::Server => read_server(taker),
        Part::Client => read_client(taker),
        Part::Script => Ok(Taken::More),
        Part::Refused(_) => Ok(Taken::Stopped),
    }
}

/// Reads the server's file once it is whole, and then the client's.
fn read_server(taker: &mut Intake) -> Result<Taken, TakeFault>
    requires { taker.old.part ≡ Server }
    ensures turn { (bytes : List ℕ) → Holds Server taker.old bytes → Goes result taker.new bytes }
    ensures memory { WantsOnlyIf result (may_want taker.old.bytes) }
{
    match read_front(taker.alloc, taker.bytes.as_slice()) {
        Ok(Some(file)) => take_server(taker, file),
        Ok(None) => Ok(Taken::More),
        Err(Fault::Refused(refusal)) => Ok(refuse(taker, refusal)),
        Err(Fault::Memory) => Err(TakeFault::Memory),
    }
}

/// Takes the server's file, which is at the front.
fn take_server(taker: &mut Intake, file: File) -> Result<Taken, TakeFault>
    requires { IsRead file taker.old.bytes }
    ensures { (bytes : List ℕ) → Holds Server taker.old bytes → Goes result taker.new bytes }
{
    let_go(taker.alloc, &mut taker.bytes, file.size)?;
    taker.server = file;
    taker.part = Part::Client;
    read_client(taker)
}

/// Reads the client's file once it is whole. Memory is wanting only where its start at least is accepted.
fn read_client(taker: &mut Intake) -> Result<Taken, TakeFault>
    requires { taker.old.part ≡ Client }
    ensures turn { (bytes : List ℕ) → Holds Client taker.old bytes → Goes result taker.new bytes }
    ensures memory { WantsOnlyIf result (may_want taker.old.bytes) }
{
    match read_front(taker.alloc, taker.bytes.as_slice()) {
        Ok(Some(file)) => take_client(taker, file),
        Ok(None) => Ok(Taken::More),
        Err(Fault::Refused(refusal)) => Ok(refuse(taker, refusal)),
        Err(Fault::Memory) => Err(TakeFault::Memory),
    }
}

/// Takes the client's file, which is at the front, where both files agree. Memory is wanting only where they do.
fn take_client(taker: &mut Intake, file: File) -> Result<Taken, TakeFault>
    requires { IsRead file taker.old.bytes }
    ensures turn { (bytes : List ℕ) → Holds Client taker.old bytes → Goes result taker.new bytes }
    ensures memory { WantsOnlyIf result (agree taker.old.server.kept file.kept) }
{
    if !agree(&taker.server.kept, &file.kept) {
        return Ok(refuse(taker, Refusal::KeptDiffers));
    }
    let_go(taker.alloc, &mut taker.bytes, file.size)?;
    taker.client = file;
    taker.part = Part::Script;
    Ok(Taken::More)
}

/// Takes no more, for this reason.
fn refuse(taker: &mut Intake, refusal: Refusal) -> Taken
    ensures taken { result ≡ Stopped }
    ensures part { taker.new.part ≡ Refused refusal }
{
    taker.part = Part::Refused(refusal);
    Taken::Stopped
}
