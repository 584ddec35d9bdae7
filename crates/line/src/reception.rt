//! What a receiver keeps of a transmission.

ghost use Rattle.std.specs.Prelude.{◌≡◌, bit_or, drop, fold, map};
ghost use Rattle.line.specs.Marks.{marks_number};

use crate::marks::Marks;
use frame::{Frame, MIN_PREAMBLES};

/// What a receiver keeps of a transmission. Any value may stand here, also one that no characters
/// leave.
#[derive(Clone, Copy)]
pub struct Received<'a> {
    /// The preambles counted; two stand for more.
    pub preambles: usize,
    /// The bytes from the start on.
    pub span: &'a [u8],
    /// All marks from the start on together.
    pub marks: Marks,
}

impl<'a> Received<'a> {
    ghost use Rattle.std.specs.Option.{option_map};
    ghost use Rattle.frame.specs.Views.{frame_parts};
    ghost use Rattle.line.specs.Characters.{reception_of, KeepsThese};
    ghost use Rattle.line.specs.Views.{reception};
    ghost use Rattle.line.specs.Whole.{frame_of, sound?, error_status, TellsWhole, TellsSound, TellsDamage};

    /// Of the bytes of a transmission and the marks of its characters. Marks that are missing are
    /// none.
    pub fn of(bytes: &'a [u8], marks: &[Marks]) -> Received<'a>
        ensures value { reception result ≡ reception_of bytes.now (map marks_number marks.now) }
        ensures keeps { KeepsThese (reception result) bytes.now (map marks_number marks.now) }
    {
        let preambles = frame::count_preambles(bytes);
        Received {
            preambles,
            span: &bytes[preambles..],
            marks: marks_from(marks, preambles),
        }
    }

    /// The frame of a whole transmission, sound or not.
    pub fn frame(self) -> Option<Frame<'a>>
        ensures value { option_map frame_parts result ≡ frame_of (reception self.entry) }
        ensures whole { TellsWhole (reception self.entry) result }
    {
        if self.preambles < MIN_PREAMBLES {
            return None;
        }
        frame::read_frame(self.span).ok()
    }

    /// Whether a whole transmission is sound: unmarked from the start on, and of exclusive or 0.
    pub fn is_sound(self) -> bool
        ensures value { result ≡ sound? (reception self.entry) }
        ensures tells { TellsSound (reception self.entry) result }
    {
        !self.marks.any() && frame::check(self.span) == 0
    }

    /// The first status of a whole transmission that is not sound.
    pub fn error_status(self) -> u8
        ensures value { result ≡ error_status (reception self.entry) }
        ensures tells { TellsDamage (reception self.entry) result }
    {
        let parity = if self.marks.parity { 64 } else { 0 };
        let overrun = if self.marks.overrun { 32 } else { 0 };
        let framing = if self.marks.framing { 16 } else { 0 };
        let wrong_check = if frame::check(self.span) == 0 { 0 } else { 8 };
        128 + parity + overrun + framing + wrong_check
    }
}

// All marks from a place on together.
fn marks_from(marks: &[Marks], start: usize) -> Marks
    ensures { marks_number result ≡ fold bit_or 0 (drop start (map marks_number marks.now)) }
{
    if start < marks.len() {
        together(&marks[start..])
    } else {
        Marks::NONE
    }
}

fn together(marks: &[Marks]) -> Marks
    ensures { marks_number result ≡ fold bit_or 0 (map marks_number marks.now) }
{
    let mut all = Marks::NONE;
    for mark in marks {
        all = all.or(*mark);
    }
    all
}
