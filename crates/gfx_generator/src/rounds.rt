//! The turns of a session, round by round.
ghost use Rattle.std.specs.Prelude.{◌≡◌, ◌++◌, OnOk};
ghost use Rattle.std.specs.List.{flat_map};
ghost use Rattle.gfx_generator.specs.Draws.{several};
ghost use Rattle.gfx_generator.specs.Rounds.{round, round_text};

use crate::generator::Generator;
use gfx_base::{Bytes, NoMemory};
use gfx_line::Line;

/// The most bytes that a client takes in a turn.
const MOST_TAKEN: u16 = 4096;

/// The most bytes of its answers that the server takes in a turn.
const MOST_ANSWERED: u16 = 32;

/// A round of turns: one of the server, one of the client, and one in which the server takes answers.
#[derive(Clone, Copy, Debug, PartialEq, Eq)]
pub struct Round {
    /// How many bytes the client takes.
    pub client: u16,
    /// How many bytes of answers the server takes.
    pub answer: u16,
}

/// Draws so many rounds, and puts their lines at the end.
pub(crate) fn put_rounds(
    count: u16,
    generator: &mut Generator,
    text: &mut Bytes,
) -> Result<(), NoMemory>
    ensures text { OnOk result (text.new ≡ text.old ++ flat_map round_text (several count round generator.old).value) }
    ensures state { OnOk result (generator.new ≡ (several count round generator.old).state) }
{
    'rounds: for _ in 0..count {
        let round = draw_round(generator);
        text.append(round_text(round).as_slice())?;
    }
    Ok(())
}

/// Draws a round.
#[tactic(auto, unfolding(crate::specs::Rounds::round))]
fn draw_round(generator: &mut Generator) -> Round
    ensures value { result ≡ (round generator.old).value }
    ensures state { generator.new ≡ (round generator.old).state }
{
    let client = 1 + generator.draw(MOST_TAKEN);
    let answer = 1 + generator.draw(MOST_ANSWERED);
    Round { client, answer }
}

/// The lines of a round.
#[tactic(auto, unfolding(crate::specs::Rounds::round_text))]
fn round_text(round: Round) -> Line
    ensures { result ≡ round_text round }
{
    let mut line = Line::new();
    line.put(b"{ end = \"server\" },\n{ end = \"client\", take = ");
    line.put_u16(round.client);
    line.put(b" },\n{ end = \"answer\", take = ");
    line.put_u16(round.answer);
    line.put(b" },\n");
    line
}
