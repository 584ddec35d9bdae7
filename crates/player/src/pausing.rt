//! What is done with a panel between the calls of a run, and the end of a player.

ghost use Rattle.std.specs.Prelude.{◌≡◌, IfOk, IfErr};
ghost use Rattle.stream.specs.Interruptions.{CanInterrupt};
ghost use Rattle.stream.specs.Streams.{view_of, with_rest, OutputHolds};
ghost use Rattle.player.specs.Playing.{with_refusal, Attends, LooksAt, SetsUp};

use crate::driving::Player;
use crate::progress::Progress;
use hexdigits::push_hex;
use panel::Panel;
use record::RECORD_LENGTH;
use recording::Pause;
use refusals::Refusal;
use shelf::Shelf;
use std::alloc::AllocError;
use std::io::{Read, Write};
use stream::Interruption;

impl<R: Read + Drop, W: Write + Drop> Player<R, W> {
    // Does with the panel what the recording waits for, and prints what came of it; calls can go on then.
    pub(crate) fn attend(
        &mut self,
        panel: &mut Panel<Shelf>,
        pause: Pause,
    ) -> Result<(), AllocError>
        ensures { Attends R.Read.remaining W.Write.contents self.old self.new
            panel.old panel.new pause result }
    {
        self.progress = Progress::Going;
        match pause {
            Pause::Look { channel } => self.look(panel, channel),
            Pause::SetUp { supply } => self.set_up(panel, supply),
        }
    }

    fn look(&mut self, panel: &Panel<Shelf>, channel: u8) -> Result<(), AllocError>
        ensures looked { LooksAt R.Read.remaining W.Write.contents self.old self.new
            panel.now channel result }
        ensures progress { self.new.progress ≡ self.old.progress }
        ensures format { self.new.format ≡ self.old.format }
    {
        let mut bytes = [0; RECORD_LENGTH];
        match panel.look(channel, &mut bytes) {
            Ok(()) => {
                let mut line = Vec::new(self.stream.heap());
                push_hex(&mut line, &bytes)?;
                line.extend_from_slice(b"\n")?;
                self.stream.print(line.as_slice())?;
            }
            Err(refusal) => self.stream.tell(Err(refusal))?,
        }
        Ok(())
    }

    fn set_up(&mut self, panel: &mut Panel<Shelf>, supply: u32) -> Result<(), AllocError>
        ensures set_up { SetsUp R.Read.remaining W.Write.contents self.old self.new
            panel.old panel.new supply result }
        ensures progress { self.new.progress ≡ self.old.progress }
        ensures format { self.new.format ≡ self.old.format }
    {
        match panel.set_up(supply) {
            Ok(()) => self.stream.print(b"set up\n")?,
            Err(refusal) => self.stream.tell(Err(refusal))?,
        }
        Ok(())
    }

    /// Prints the lines that wait and then that of what is left of an event, and gives the writer back.
    pub fn finish(self) -> Result<W, Interruption>
        ensures printed { IfOk result
            (OutputHolds W.Write.contents (with_rest (view_of self.stream))) }
        ensures interrupted { IfErr result (CanInterrupt 0) }
    {
        self.stream.finish()
    }

    /// Prints the lines that wait and then that of a refusal by which no run began, and gives the writer back.
    pub fn refuse(mut self, refusal: Refusal) -> Result<W, Interruption>
        ensures printed { IfOk result
            (OutputHolds W.Write.contents (with_refusal refusal (view_of self.stream))) }
        ensures interrupted { IfErr result (CanInterrupt 0) }
    {
        self.stream.tell(Err(refusal))?;
        self.stream.close()
    }
}
