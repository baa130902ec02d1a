//! The command `render`: a recording is played, and what the client then shows is printed.
ghost use Rattle.std.specs.Prelude.{◌<◌, ◌^◌, []};
ghost use Rattle.gfx_base.specs.Stream.{change};
ghost use Rattle.gfxpipe.specs.Rules.{Renders};
ghost use Rattle.gfxpipe.specs.Dump.{dump_of, Prints};
ghost use Rattle.gfxpipe.specs.Recording.{HasPlayed};

use crate::ending::Ending;
use crate::recording::{Player, ending_of};
use crate::trouble::Trouble;
use gfx_base::{Sink, Source};
use gfx_client::{Client, Offers};
use gfx_input::{Nowhere, read_input};
use gfx_report::{ReportFault, dump_output};
use gfx_surface_map::SurfaceMap;
use std::alloc::Global;

/// What is printed of what a client shows.
#[derive(Clone, Copy, Debug, PartialEq, Eq)]
pub enum Dump {
    /// Each surface by its id.
    Surfaces,
    /// The output, on which the mapped surfaces stand.
    Output,
}

/// Plays a recording within the limit, and prints what it leaves.
pub fn render<I: Source, O: Sink>(
    alloc: Global,
    dump: Dump,
    limit: usize,
    input: &mut I,
    out: &mut O,
) -> Result<Ending, Trouble>
    requires { limit < 2 ^ 63 }
    ensures { Renders result dump limit
        (change (I.faults input.old) (I.faults input.new) (I.left input.old) (I.left input.new))
        (change (O.faults out.old) (O.faults out.new) (O.held out.old) (O.held out.new)) }
{
    let client = Client::new(alloc, Offers::new(alloc))?;
    let mut player = Player { client };
    let ending = play(alloc, dump, limit, input, &mut player, out);
    player.client.let_go();
    ending
}

/// The same by a player that has played nothing.
fn play<I: Source, O: Sink>(
    alloc: Global,
    dump: Dump,
    limit: usize,
    input: &mut I,
    player: &mut Player,
    out: &mut O,
) -> Result<Ending, Trouble>
    requires short { limit < 2 ^ 63 }
    requires start { HasPlayed player.old.client [] }
    ensures { Renders result dump limit
        (change (I.faults input.old) (I.faults input.new) (I.left input.old) (I.left input.new))
        (change (O.faults out.old) (O.faults out.new) (O.held out.old) (O.held out.new)) }
{
    let read = read_input(input, limit, player, &mut Nowhere)?;
    let ending = ending_of(read, &player.client);
    print(alloc, dump, player.client.surfaces(), out)?;
    Ok(ending)
}

/// Prints a dump.
fn print<O: Sink>(
    alloc: Global,
    dump: Dump,
    surfaces: &SurfaceMap,
    out: &mut O,
) -> Result<(), Trouble>
    ensures { Prints result (change (O.faults out.old) (O.faults out.new) (O.held out.old) (O.held out.new))
        (dump_of dump surfaces.now.shown) }
{
    match dump {
        Dump::Surfaces => match gfx_report::dump(surfaces, out) {
            Ok(()) => Ok(()),
            Err(_) => Err(Trouble::Write),
        },
        Dump::Output => match dump_output(alloc, surfaces, out) {
            Ok(()) => Ok(()),
            Err(ReportFault::Failed) => Err(Trouble::Write),
            Err(ReportFault::Memory) => Err(Trouble::Memory),
        },
    }
}
