//! What a panel keeps of a transmission.

ghost use Rattle.std.specs.Prelude.{◌≡◌, ◌≢◌, ◌<◌, ◌≤◌, length, slice_index};
ghost use Rattle.frame.specs.Frames.{longest_frame};
ghost use Rattle.frame.specs.Transmissions.{preamble, fewest_preambles};
ghost use Rattle.line.specs.Marks.{marks_number};
ghost use Rattle.receiver.specs.Spans.{kept_length, Bytes, Bytes-prop};

use line::Marks;

/// No whole transmission has more bytes from its start on.
pub(crate) const MAX_SPAN: usize = 264;

/// What is kept of the characters of a transmission: each value is what some characters leave
/// (`pending`). A longer span than there is room for is not whole, so that its first bytes are
/// enough. They stand in an array and not in an `ArrayVec`, which is not `Copy`, as this is.
#[derive(Clone, Copy)]
pub struct Receiver {
    // Up to two: more are not told apart.
    pub(crate) preambles: usize,
    // The span, from the start on, is the first `len` of these; without `len` more bytes came than
    // there is room for.
    pub(crate) bytes: [u8; MAX_SPAN],
    pub(crate) len: Option<usize>,
    // All marks from the start on together.
    pub(crate) marks: Marks,
    ghost counted: { preambles ≤ fewest_preambles },
    ghost room: { length bytes ≡ longest_frame },
    ghost fit: { Bytes bytes } by { Bytes-prop bytes },
    ghost within: { kept_length len ≤ longest_frame },
    // A span does not begin with a preamble.
    ghost begun: { 0 < kept_length len → slice_index bytes 0 ≢ preamble },
    // Marks begin with the span.
    ghost unmarked: { kept_length len ≡ 0 → marks_number marks ≡ 0 },
}
