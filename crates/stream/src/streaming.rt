//! Events as they are read, and lines as they are written.

ghost use Rattle.std.specs.Prelude.{◌≡◌, ◌+◌, ◌<◌, ◌≤◌, true, None, [], length, is_ok, IsOk, IfOk, IfErr, OnOk, OnErr};
ghost use Rattle.std.specs.Option.{option_to_list};
ghost use Rattle.std.specs.Vec.{vec_allocator};
ghost use Rattle.calls.specs.Views.{result_of};
ghost use Rattle.recording.specs.Lines.{line_of};
ghost use Rattle.stream.specs.Blocks.{block_length, least_room};
ghost use Rattle.stream.specs.Interruptions.{OfStream, Finishes};
ghost use Rattle.stream.specs.Streams.{unread_of, WholeEvent, NoWholeEvent, view_of, begun, with_told, with_rest, TakesWhole, OutputHolds, WrittenOut, WrittenFirst, NoneLost, Gives, TakesNext, ReadOn};

use crate::events::{BLOCK_LENGTH, EventStream, MIN_ROOM};
use crate::interruption::Interruption;
use calls::Response;
use recording::{EVENT_LENGTH, push_line};
use refusals::Refusal;
use std::alloc::{AllocError, Global};
use std::io::{self, Read, Write};

impl<R: Read + Drop, W: Write + Drop> EventStream<R, W> {
    /// All that the reader has.
    pub fn new(heap: Global, input: R, output: W) -> EventStream<R, W>
        ensures { view_of result ≡ begun input output }
    {
        EventStream {
            input,
            output,
            block: [0; BLOCK_LENGTH],
            unread: 0..0,
            lines: Vec::new(heap),
        }
    }

    /// Where its lines are kept.
    pub fn heap(&self) -> Global
        ensures { result ≡ vec_allocator self.now.lines }
    {
        *self.lines.allocator()
    }

    /// The next event, if there is one more. Lines that wait are written before more is read for it.
    #[inline(always)]
    pub fn next_event(&mut self) -> Result<Option<[u8; EVENT_LENGTH]>, Interruption>
        ensures next { IfOk result
            (Gives R.Read.remaining W.Write.contents (view_of self.old) (view_of self.new)) }
        ensures whole { WholeEvent self.old
            → TakesWhole (view_of self.old) (view_of self.new) result }
        ensures first { WrittenFirst W.Write.contents (view_of self.old) (view_of self.new) }
        ensures kept { OnErr result
            (NoneLost R.Read.remaining (view_of self.old) (view_of self.new)) }
        ensures interrupted { IfErr result OfStream }
    {
        // Each read that does not end the input brings a byte more, so that no more of them are wanted.
        for _ in 0..=EVENT_LENGTH {
            if let Some(event) = self.whole_event() {
                return Ok(Some(event));
            }
            if !self.read_on()? {
                return Ok(None);
            }
        }
        unreachable!()
    }

    // The bytes that came and were not taken yet.
    #[inline(always)]
    fn unread(&self) -> &[u8]
        ensures { result.now ≡ unread_of self.now }
    {
        &self.block[self.unread.start..self.unread.end]
    }

    // The next event, if all its bytes came.
    #[inline(always)]
    fn whole_event(&mut self) -> Option<[u8; EVENT_LENGTH]>
        ensures next { TakesNext R.Read.remaining W.Write.contents (view_of self.old)
            (view_of self.new) (option_to_list result) }
        ensures whole { WholeEvent self.old
            → TakesWhole (view_of self.old) (view_of self.new) (Ok result) }
        ensures none { result ≡ None → NoWholeEvent self.new }
        ensures kept { result ≡ None → self.new ≡ self.old }
        ensures lines { self.new.lines ≡ self.old.lines }
        ensures input { self.new.input ≡ self.old.input }
        ensures output { self.new.output ≡ self.old.output }
    {
        let event = *self.unread().first_chunk()?;
        self.unread.start += EVENT_LENGTH;
        Some(event)
    }

    // Writes the lines out and reads on, where no whole event is left: whether bytes came. Seldom, and so not inlined.
    #[inline(never)]
    fn read_on(&mut self) -> Result<bool, Interruption>
        ensures grows { NoWholeEvent self.old → IfOk result (λ more. more ≡ true
            → length (unread_of self.old) < length (unread_of self.new)) }
        ensures read { NoWholeEvent self.old → IfOk result
            (ReadOn R.Read.remaining W.Write.contents (view_of self.old) (view_of self.new)) }
        ensures first { WrittenFirst W.Write.contents (view_of self.old) (view_of self.new) }
        ensures written { OnOk result
            (WrittenOut W.Write.contents (view_of self.old) (view_of self.new)) }
        ensures quiet { self.old.lines.items ≡ [] → self.new.output ≡ self.old.output }
        ensures kept { NoWholeEvent self.old
            → NoneLost R.Read.remaining (view_of self.old) (view_of self.new) }
        ensures interrupted { IfErr result OfStream }
    {
        self.write_out()?;
        self.make_room();
        let came = self.input.read(&mut self.block[self.unread.end..])?;
        self.unread.end += came;
        Ok(came > 0)
    }

    // Begins the block anew where a read might find too little room. No whole event is left then: what is unread is the part of one,
    // and stands in front from now on.
    fn make_room(&mut self)
        ensures unread { NoWholeEvent self.old → unread_of self.new ≡ unread_of self.old }
        ensures room { self.new.unread.end + least_room ≤ block_length }
        ensures input { self.new.input ≡ self.old.input }
        ensures output { self.new.output ≡ self.old.output }
        ensures lines { self.new.lines ≡ self.old.lines }
    {
        let end = self.unread.end;
        if end > BLOCK_LENGTH - MIN_ROOM {
            let part = end % EVENT_LENGTH;
            self.block.copy_within(end - part..end, 0);
            self.unread = 0..part;
        }
    }

    // Writes the lines out: who gives the input may wait for them. Standard output has no buffer; a writer that has one is flushed by
    // its owner.
    fn write_out(&mut self) -> io::Result<()>
        ensures written { OnOk result
            (WrittenOut W.Write.contents (view_of self.old) (view_of self.new)) }
        ensures waiting { OnErr result (self.new.lines ≡ self.old.lines) }
        ensures quiet { self.old.lines.items ≡ []
            → IsOk result × (self.new.output ≡ self.old.output) }
        ensures unread { unread_of self.new ≡ unread_of self.old }
        ensures input { self.new.input ≡ self.old.input }
    {
        if self.lines.is_empty() {
            return Ok(());
        }
        self.output.write_all(self.lines.as_slice())?;
        self.lines.clear();
        Ok(())
    }

    /// The line of what came of an event, if it has one, is kept to be written. Where memory is short, nothing is told.
    #[inline(always)]
    pub fn tell(&mut self, response: Result<Response<'_>, Refusal>) -> Result<(), AllocError>
        ensures told { view_of self.new
            ≡ with_told (is_ok result) (line_of (result_of response.entry)) (view_of self.old) }
        ensures free { line_of (result_of response.entry) ≡ [] → IsOk result }
    {
        push_line(&mut self.lines, response)
    }

    /// A line of another kind, in the same way.
    pub fn print(&mut self, line: &[u8]) -> Result<(), AllocError>
        ensures { view_of self.new ≡ with_told (is_ok result) line.now (view_of self.old) }
    {
        self.lines.extend_from_slice(line)
    }

    /// Writes out what waits, and gives the writer back.
    pub fn close(mut self) -> Result<W, Interruption>
        ensures written { IfOk result (OutputHolds W.Write.contents (view_of self)) }
        ensures quiet { self.lines.items ≡ [] → result ≡ Ok self.output }
        ensures interrupted { IfErr result OfStream }
    {
        match self.write_out() {
            Ok(()) => Ok(self.output),
            Err(e) => Err(e.into()),
        }
    }

    /// Closes a stream: what came and was not taken, of an event that is not whole, counts as a file of a wrong length.
    pub fn finish(mut self) -> Result<W, Interruption>
        ensures written { IfOk result (OutputHolds W.Write.contents (with_rest (view_of self))) }
        ensures quiet { unread_of self ≡ [] → self.lines.items ≡ [] → result ≡ Ok self.output }
        ensures interrupted { IfErr result (Finishes (unread_of self)) }
    {
        if !self.unread().is_empty() {
            self.tell(Err(Refusal::NumberOfRecords))?;
        }
        self.close()
    }
}
