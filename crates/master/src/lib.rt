//! What a master takes from replies.
#![tactic(auto)]

mod replies;

pub use replies::{flow_pattern, long_address};

#[cfg(test)]
mod tests {
    use super::*;
    use std::test::Fail;

    #[test]
    fn bytes_that_are_no_reply(rt: HostRuntime) -> Result<(), Fail> {
        let reply = [
            0xFF, 0xFF, 0x86, 0x8A, 0x10, 1, 2, 3, 1, 7, 0, 0, 0xAA, 0x3F, 0x80, 0, 0, 0x0F,
        ];
        let sound = frame::check(&reply[2..]);
        assert_eq!(rt; sound, 0);
        assert_eq!(rt; flow_pattern(&reply), Some(0x3F80_0000));
        assert_eq!(rt; flow_pattern(&reply[..17]), None);
        assert_eq!(rt; flow_pattern(&reply[1..]), None);
        let mut damaged = reply;
        damaged[14] = 0x40;
        assert_eq!(rt; flow_pattern(&damaged), None);
        assert_eq!(rt; long_address(&reply), None);
        Ok(())
    }
}
