//! The events of a recording, read by blocks, and the lines that come of them, written before more is read.
//!
//! Hints on inlining are for speed alone: what each character takes stands in one loop (docs/PERFORMANCE.md).
#![tactic(auto)]

mod events;
mod interruption;
mod streaming;

pub use events::EventStream;
pub use interruption::Interruption;

#[cfg(test)]
mod tests {
    use super::*;
    use std::fmt::{self, Write};
    use std::io::ErrorKind;

    /// A writer of text that takes nothing.
    #[derive(Drop)]
    struct Full;

    impl Write for Full {
        fn write_str(&mut self, _text: &str) -> fmt::Result {
            Err(fmt::Error)
        }
    }

    #[test]
    fn prints_nothing_where_the_writer_fails(rt: HostRuntime) {
        let mut full = Full;
        assert!(rt; write!(full, "{}", Interruption::Endless).is_err());
        assert!(rt; write!(full, "{}", Interruption::Stream(ErrorKind::BrokenPipe)).is_err());
    }
}
