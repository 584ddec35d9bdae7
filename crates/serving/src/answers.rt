//! What is told of an answer.

/// Who answers, and by how many bytes.
#[derive(Clone, Copy, PartialEq, Eq, Debug)]
pub struct Answer {
    pub channel: u8,
    pub length: usize,
}
