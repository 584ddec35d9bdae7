//! How far a player has come.

ghost use Rattle.std.specs.Prelude.{◌≡◌};
ghost use Rattle.player.specs.Progress.{going?, complete?};

use recording::Pause;
use stream::Interruption;

/// How far a player has come with its recording.
#[derive(Clone, Copy)]
pub enum Progress {
    /// It names calls.
    Going,
    /// It waits for what is done with the panel between the calls.
    Waiting(Pause),
    /// No event is to come any more.
    Ended,
    /// It was interrupted.
    Interrupted(Interruption),
}

impl Progress {
    /// Whether calls are named.
    pub fn is_going(self) -> bool
        ensures { result ≡ going? self }
    {
        matches!(self, Progress::Going)
    }

    /// Whether it was not interrupted.
    pub fn is_complete(self) -> bool
        ensures { result ≡ complete? self }
    {
        !matches!(self, Progress::Interrupted(_))
    }
}
