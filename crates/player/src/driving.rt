//! A player works a panel: it names the calls of a recording, and prints what comes of each.

ghost use Rattle.std.specs.Prelude.{◌≡◌};
ghost use Rattle.player.specs.Players.{Asks, Names, Hears, Ends};
ghost use Rattle.player.specs.Progress.{complete?};
ghost use Rattle.player.specs.declared.progress.Progress.TheVariants.{Going};
ghost use Rattle.stream.specs.Streams.{view_of, begun};

use crate::progress::Progress;
use calls::{Call, Response};
use panel::Driver;
use recording::{Event, Format, Pause};
use refusals::Refusal;
use std::alloc::Global;
use std::io::{Read, Write};
use stream::{EventStream, Interruption};

/// Works a panel by the events of a recording, and prints what comes of them.
#[derive(Drop)]
pub struct Player<R: Drop, W: Drop> {
    pub(crate) stream: EventStream<R, W>,
    pub(crate) format: Format,
    /// A driver ends a run by `None` alone: why it did is kept here.
    pub(crate) progress: Progress,
}

impl<R: Read + Drop, W: Write + Drop> Player<R, W> {
    /// A player of all that the reader has.
    pub fn new(heap: Global, format: Format, input: R, output: W) -> Player<R, W>
        ensures going { result.progress ≡ Going }
        ensures format { result.format ≡ format }
        ensures stream { view_of result.stream ≡ begun input output }
    {
        Player {
            stream: EventStream::new(heap, input, output),
            format,
            progress: Progress::Going,
        }
    }

    /// Whether it was not interrupted: then no line was lost, and the input did not fail.
    pub fn is_complete(&self) -> bool
        ensures { result ≡ complete? self.now.progress }
    {
        self.progress.is_complete()
    }
}

// What the next event asks for that asks for something, if there is one more. Others are refused on the way.
#[inline(always)]
fn next_asked<R: Read + Drop, W: Write + Drop>(
    stream: &mut EventStream<R, W>,
    format: Format,
) -> Result<Option<Event>, Interruption>
    ensures { Asks R.Read.remaining W.Write.contents (view_of stream.old) (view_of stream.new)
        format result }
{
    for _ in 0..u64::MAX {
        let Some(event) = stream.next_event()? else {
            return Ok(None);
        };
        match format.decode(&event) {
            Ok(asked) => return Ok(Some(asked)),
            Err(refusal) => stream.tell(Err(refusal))?,
        }
    }
    Err(Interruption::Endless)
}

impl<R: Read + Drop, W: Write + Drop> Driver for Player<R, W> {
    ghost names = { Names R.Read.remaining W.Write.contents };

    ghost hears = { λ p p' e. Hears p p' e };

    ghost ends = { Ends R.Read.remaining W.Write.contents };

    #[inline(always)]
    fn next(&mut self) -> Option<Call> {
        if !self.progress.is_going() {
            return None;
        }
        let progress = match next_asked(&mut self.stream, self.format) {
            Ok(Some(Event::Call(call))) => return Some(call),
            Ok(Some(Event::Look { channel })) => Progress::Waiting(Pause::Look { channel }),
            Ok(Some(Event::SetUp { supply })) => Progress::Waiting(Pause::SetUp { supply }),
            Ok(None) => Progress::Ended,
            Err(interruption) => Progress::Interrupted(interruption),
        };
        self.progress = progress;
        None
    }

    #[inline(always)]
    fn hear(&mut self, _call: Call, response: Result<Response<'_>, Refusal>) {
        if let Err(e) = self.stream.tell(response) {
            self.progress = Progress::Interrupted(Interruption::Memory(e));
        }
    }
}
