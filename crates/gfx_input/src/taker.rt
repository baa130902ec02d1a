ghost use Rattle.std.specs.Prelude.{◌≡◌, ℕ, ◌≤◌, ◌<◌, ◌^◌, List, [], ◌++◌, Option, length, take};
ghost use Rattle.gfx_base.specs.Stream.{Gains, change};
ghost use Rattle.gfx_input.specs.Reading.{TakesPiece};

use crate::fault::TakeFault;
use gfx_base::{Bytes, Sink};

/// What became of a piece.
#[derive(Clone, Copy, Debug, PartialEq, Eq)]
pub enum Taken {
    /// It was taken, and more can be.
    More,
    /// It was refused, for a reason that the taker keeps, and nothing is taken behind it.
    Stopped,
}

/// What an input is given to, piece by piece. It may write while it takes.
pub trait Taker {
    /// It has taken these bytes in all, and takes more.
    ghost stands: { Self → List ℕ → Type 0 };

    /// It was given these bytes in all, and takes no more.
    ghost stops: { Self → List ℕ → Type 0 };

    /// What is known of bytes that were taken.
    ghost is_fine: { List ℕ → Type 0 };

    /// What it has written once it was given these bytes in all.
    ghost written: { List ℕ → List ℕ };

    /// How many bytes are taken of an input that begins with these, of which so many count.
    ghost allowed: { ℕ → List ℕ → ℕ };

    /// How many bytes are taken in all, of which so many count: more, where bytes that were taken don't count.
    fn allowed(&self, limit: usize) -> usize
        requires { limit < 2 ^ 63 }
        ensures { (bytes : List ℕ) → stands self.now bytes → result ≡ allowed limit bytes };

    /// Takes the next piece, and writes what is due of it.
    fn give<O: Sink>(&mut self, piece: &[u8], out: &mut O) -> Result<Taken, TakeFault>
        ensures { (bytes : List ℕ) (before : ℕ) (held : Option (List ℕ)) → stands self.old bytes
            → Gains (change before (O.faults out.old) held (O.held out.old)) (written bytes)
            → TakesPiece stands stops (written (bytes ++ piece.now)) result self.new (bytes ++ piece.now)
            (change before (O.faults out.new) held (O.held out.new)) };

    /// Of each front of what was taken that is known, too.
    ghost fronts: { (taker : Self) (bytes : List ℕ) (n : ℕ) → stands taker bytes → is_fine (take n bytes) };

    /// Further bytes take nothing from how many may be taken.
    ghost grows: { (limit : ℕ) (bytes more : List ℕ) → allowed limit bytes ≤ allowed limit (bytes ++ more) };

    /// Where all are taken that may be, further bytes allow no more.
    ghost settles: { (limit : ℕ) (bytes more : List ℕ) → length bytes ≡ allowed limit bytes
        → allowed limit (bytes ++ more) ≡ length bytes };
}

/// A list of bytes takes all, and writes nothing.
impl Taker for Bytes {
    ghost use Rattle.gfx_input.specs.Taking.{fixed, silent, stays, settled};

    ghost stands = { λ list bytes. list ≡ bytes };

    ghost stops = { λ _ _. ⊥ };

    ghost is_fine = { λ _. Unit {0} };

    ghost written = { silent };

    ghost allowed = { fixed };

    fn allowed(&self, limit: usize) -> usize {
        limit
    }

    fn give<O: Sink>(&mut self, piece: &[u8], _out: &mut O) -> Result<Taken, TakeFault> {
        self.append(piece)?;
        Ok(Taken::More)
    }

    ghost fronts = { λ _ _ _ _. tt };

    ghost grows = { λ limit _ _. stays limit };

    ghost settles = { λ limit bytes _ all. settled limit bytes all };
}
