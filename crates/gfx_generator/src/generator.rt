//! Numbers by a rule.
ghost use Rattle.std.specs.Prelude.{◌≡◌, ◌<◌};
ghost use Rattle.gfx_generator.specs.Draws.{draw, next};

use std::marker::Model;

/// What a state is multiplied by to give the next one.
const MULTIPLIER: u64 = 1_664_525;

/// What is added to that.
const INCREMENT: u64 = 1_013_904_223;

/// How many states there are.
const STATES: u64 = 4_294_967_296;

/// What draws numbers, one after another. Contracts see its state.
#[derive(Drop)]
pub struct Generator {
    state: u32,
}

impl Model for Generator {
    ghost use Rattle.std.specs.Prelude.{ℕ};

    ghost Value = { ℕ };

    ghost view = { λ generator. generator.state };
}

impl Generator {
    /// Begins at a state.
    pub fn new(seed: u32) -> Generator
        ensures { result ≡ seed }
    {
        Generator { state: seed }
    }

    /// Draws a number below a bound.
    #[tactic(auto, unfolding(crate::specs::Draws::draw))]
    pub fn draw(&mut self, bound: u16) -> u16
        requires { 0 < bound }
        ensures value { result ≡ (draw bound self.old).value }
        ensures state { self.new ≡ (draw bound self.old).state }
        ensures below { result < bound }
    {
        self.state = next(self.state);
        (self.state / 65_536) as u16 % bound
    }
}

/// The state after another.
fn next(state: u32) -> u32
    ensures { result ≡ next state }
{
    ((u64::from(state) * MULTIPLIER + INCREMENT) % STATES) as u32
}
