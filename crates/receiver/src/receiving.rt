//! Characters taken one by one.

ghost use Rattle.std.specs.Prelude.{◌≡◌, [], IfSome, bit_or};
ghost use Rattle.std.specs.Option.{option_map};
ghost use Rattle.line.specs.Marks.{marks_number};
ghost use Rattle.line.specs.Views.{reception};
ghost use Rattle.receiver.specs.Holding.{Holds, HoldsMore, KeepsAll, FromStart, character, pending};
ghost use Rattle.receiver.specs.Summaries.{pushed, held, handed_on};

use crate::state::{MAX_SPAN, Receiver};
use frame::{MIN_PREAMBLES, PREAMBLE};
use line::{Marks, Received};

impl Receiver {
    /// Nothing heard yet.
    pub fn new() -> Receiver
        ensures { Holds result [] }
    {
        Receiver {
            preambles: 0,
            bytes: [0; MAX_SPAN],
            len: Some(0),
            marks: Marks::NONE,
        }
    }

    /// Forgets what was heard. Beside `new`, since no byte need be written anew.
    pub fn clear(&mut self)
        ensures { Holds self.new [] }
    {
        self.preambles = 0;
        self.len = Some(0);
        self.marks = Marks::NONE;
    }

    /// One character more.
    pub fn push(&mut self, byte: u8, marks: Marks)
        ensures after { held self.new
            ≡ pushed (held self.old) (character byte (marks_number marks)) }
        ensures holds { HoldsMore self.old self.new (character byte (marks_number marks)) }
    {
        self.keep(byte, marks);
    }

    // Apart from `push`, whose second clause is proved from what this one ensures.
    fn keep(&mut self, byte: u8, marks: Marks)
        ensures { held self.new ≡ pushed (held self.old) (character byte (marks_number marks)) }
    {
        // By the byte first: most are no preamble, and one comparison tells that.
        if byte == PREAMBLE && matches!(self.len, Some(0)) {
            self.preambles = (self.preambles + 1).min(MIN_PREAMBLES);
            return;
        }
        match &mut self.len {
            Some(len) if *len < MAX_SPAN => {
                self.bytes[*len] = byte;
                *len += 1;
            }
            _ => self.len = None,
        }
        join(&mut self.marks, marks);
    }

    /// What was received, unless it is too long to be whole.
    pub fn received(&self) -> Option<Received<'_>>
        ensures value { option_map reception result ≡ handed_on (held self.now) }
        ensures start { IfSome (option_map reception result) FromStart }
        ensures keeps { KeepsAll self.now (option_map reception result) }
        ensures holds { Holds self.now (pending self.now) }
    {
        Some(Received {
            preambles: self.preambles,
            span: &self.bytes[..self.len?],
            marks: self.marks,
        })
    }
}

// Sets marks beside others. Most characters have none.
fn join(all: &mut Marks, marks: Marks)
    ensures { marks_number all.new ≡ bit_or (marks_number all.old) (marks_number marks) }
{
    if marks.any() {
        *all = all.or(marks);
    }
}
