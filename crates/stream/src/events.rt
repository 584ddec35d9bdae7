//! A recording that is read by blocks.

ghost use Rattle.std.specs.Prelude.{◌≡◌, ◌%◌, ◌≤◌, length};
ghost use Rattle.recording.specs.Recordings.{event_length};
ghost use Rattle.stream.specs.Blocks.{block_length};

use recording::EVENT_LENGTH;
use std::ops::Range;

/// How many bytes of a recording a block has room for: as many whole events as 64 KiB hold, so that none is cut where it ends.
pub(crate) const BLOCK_LENGTH: usize = 5461 * EVENT_LENGTH;

/// How many bytes each read has room for at least: where it takes a part of what came as one, as of a packet, the rest may be lost.
pub(crate) const MIN_ROOM: usize = 4096;

/// A recording that is read by blocks. Lines are kept until more of it is read.
#[derive(Drop)]
pub struct EventStream<R: Drop, W: Drop> {
    pub(crate) input: R,
    pub(crate) output: W,
    pub(crate) block: [u8; BLOCK_LENGTH],
    /// Where the bytes of the block stand that came and were not taken yet. Events begin at multiples of their length.
    pub(crate) unread: Range<usize>,
    pub(crate) lines: Vec<u8>,
    ghost size: { length block ≡ block_length },
    ghost aligned: { unread.start % event_length ≡ 0 },
    ghost ordered: { unread.start ≤ unread.end },
    ghost within: { unread.end ≤ block_length },
}
