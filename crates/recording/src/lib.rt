//! Recordings of a panel: calls from the bytes of events, and lines of text from responses.
//!
//! Hints on inlining are for speed alone, as in the player.
#![tactic(auto)]

mod decoder;
mod events;
mod printer;

pub use decoder::{EVENT_LENGTH, decode_event};
pub use events::{Event, Format, Pause};
pub use printer::push_line;

#[cfg(test)]
mod tests {
    use super::*;
    use calls::{Call, Response};
    use refusals::Refusal;
    use std::test::Fail;

    #[test]
    fn kinds(rt: HostRuntime) {
        let mut event = [1, 0xFF, 7, 0, 0, 0, 0, 0, 0, 0, 0, 0];
        assert!(rt;
            matches!(
                decode_event(&event),
                Ok(Call::Character {
                    byte: 0xFF,
                    marks: 7
                })
            )
        );
        event = [2, 0, 0, 0, 0, 0, 0, 0, 0, 0, 0, 0];
        assert!(rt; matches!(decode_event(&event), Ok(Call::Gap { room: 64 })));
        event = [4, 9, 1, 0, 0, 0, 0, 0, 0, 0, 0, 0];
        assert!(rt;
            matches!(
                decode_event(&event),
                Ok(Call::Key {
                    channel: 9,
                    open: true
                })
            )
        );
        event = [5, 0, 0, 0, 0, 0, 0, 0, 0, 0, 0, 0];
        assert!(rt; matches!(decode_event(&event), Err(Refusal::OutOfForm)));
    }

    #[test]
    fn answer_line(rt: HostRuntime) -> Result<(), Fail> {
        let bytes = [0xFF, 0xFF, 0x06, 0x81, 0x10, 0x05, 0, 0, 0, 0, 7, 0x95];
        let mut lines = Vec::new(rt.alloc());
        push_line(
            &mut lines,
            Ok(Response::Answered {
                channel: 0,
                bytes: &bytes,
            }),
        )?;
        assert_eq!(rt;
            lines.as_slice(),
            b"0 FFFF06811005000000000795\n".as_slice()
        );
        Ok(())
    }

    #[test]
    fn refusal_line(rt: HostRuntime) -> Result<(), Fail> {
        let mut lines = Vec::new(rt.alloc());
        push_line(&mut lines, Err(Refusal::OutOfForm))?;
        assert_eq!(rt; lines.as_slice(), b"refused 110\n".as_slice());
        Ok(())
    }
}
