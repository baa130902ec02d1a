//! What a command comes to, with what it leaves to its caller.
ghost use Rattle.std.specs.Prelude.{◌≡◌, None};
ghost use Rattle.gfxpipe.specs.Outcome.{ended_of, session_of};

use crate::ending::Ending;
use crate::trouble::Trouble;
use gfx_session::Session;

/// What a command comes to where no call failed.
#[derive(Drop)]
pub struct Outcome {
    pub ending: Ending,
    /// The session whose lines were written.
    pub session: Option<Session>,
}

/// The outcome of a command that has no session.
pub(crate) fn alone(ended: Result<Ending, Trouble>) -> Result<Outcome, Trouble>
    ensures ended { ended_of result ≡ ended }
    ensures session { session_of result ≡ None }
{
    Ok(Outcome {
        ending: ended?,
        session: None,
    })
}

/// An outcome in two parts: how the command ended, and its session.
pub(crate) fn parted(
    outcome: Result<Outcome, Trouble>,
) -> (Result<Ending, Trouble>, Option<Session>)
    ensures { result ≡ (ended_of outcome, session_of outcome) }
{
    match outcome {
        Ok(outcome) => (Ok(outcome.ending), outcome.session),
        Err(trouble) => (Err(trouble), None),
    }
}
