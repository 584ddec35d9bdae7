//! A row's transmission.

ghost use Rattle.std.specs.Prelude.{◌≡◌, ◌+◌, ◌%◌, bit_or, drop, fold};
ghost use Rattle.line.specs.Marks.{marks_number, all_marks};

use frame::Frame;
use line::{Given, Judgement, Marks, Received, judge};
use record::Fields;

/// What is kept of a row's transmission: as line's `Received`, but a row may mark its characters by any
/// byte. Three bits of it are known marks. A bit above them is none that an error tells, but by it, too, a
/// transmission is not sound.
#[derive(Clone, Copy)]
pub struct Heard<'a> {
    /// The preambles counted.
    pub preambles: usize,
    /// The bytes from the start on.
    pub span: &'a [u8],
    /// All marks from the start on together.
    pub marks: u8,
}

/// The known marks, all three.
const ALL_MARKS: u8 = 7;

impl<'a> Heard<'a> {
    ghost use Rattle.frame.specs.Views.{frame_parts};
    ghost use Rattle.line.specs.Characters.{reception_of};
    ghost use Rattle.line.specs.Judgements.{judgement, Writable};
    ghost use Rattle.line.specs.Views as line;
    ghost use Rattle.line.specs.Views.{judged};
    ghost use Rattle.linevectors.specs.Hearing.{reception, known};
    ghost use Rattle.linevectors.specs.Responses.{allotment_in};

    /// Of the bytes of a transmission and the marks of its characters. Marks that are missing are 0, and
    /// those behind the last byte count too.
    pub fn of(bytes: &'a [u8], marks: &[u8]) -> Heard<'a>
        ensures { reception result ≡ reception_of bytes.now marks.now }
    {
        let received = Received::of(bytes, &[]);
        Heard {
            preambles: received.preambles,
            span: received.span,
            marks: together(marks, received.preambles),
        }
    }

    /// The same with the known marks alone.
    pub fn received(self) -> Received<'a>
        ensures { line.reception result ≡ known (reception self.entry) }
    {
        Received {
            preambles: self.preambles,
            span: self.span,
            marks: known(self.marks),
        }
    }

    /// Judges a whole transmission that means a channel with these fields.
    pub fn judge<'b>(self, frame: Frame<'b>, fields: Fields, given: &Given) -> Judgement<'b>
        ensures value { judged result
            ≡ judgement (reception self.entry) (frame_parts frame.entry) fields
            (allotment_in given.now) }
        ensures writable { Writable (judged result) fields }
    {
        let received = self.received();
        if self.marks > ALL_MARKS {
            return Judgement::CommunicationError(received.error_status());
        }
        judge(received, frame, fields, given)
    }
}

/// The known marks of a byte.
fn known(marks: u8) -> Marks
    ensures { marks_number result ≡ marks % (all_marks + 1) }
{
    Marks {
        parity: marks % 2 == 1,
        overrun: marks / 2 % 2 == 1,
        framing: marks / 4 % 2 == 1,
    }
}

/// All marks from a place on together.
fn together(marks: &[u8], start: usize) -> u8
    ensures { result ≡ fold bit_or 0 (drop start marks.now) }
{
    marks.iter().skip(start).fold(0, |all, mark| all | *mark)
}
