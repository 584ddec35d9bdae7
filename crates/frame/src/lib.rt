//! Frames, and transmissions of requests and replies.
//!
//! A frame is a start byte, an address of one or five bytes, a command, a count, as many data bytes, and a check byte; a
//! transmission is at least two preambles FF and then a frame. `specs/Frames.antt` states the relation once for both widths
//! and for both kinds.
#![tactic(auto)]

ghost use Rattle.std.specs.Prelude.{◌≡◌, ◌/◌, length, slice_index};
ghost use Rattle.refusals.specs.Refusals.{numbered};
ghost use Rattle.frame.specs.Views.{master_bit, address_bytes, address_of, width_of};

mod checks;
mod maker;
mod reader;

pub use checks::check;
pub use maker::{make_reply, make_request};
pub use reader::{count_preambles, read_frame, read_reply, read_request};
use refusals::Refusal;

/// The master that sends a request.
#[derive(Clone, Copy, PartialEq, Eq, Debug)]
pub enum Master {
    Secondary,
    Primary,
}

impl Master {
    /// By bit 7 of the first address byte. No `From`: a byte is more than its bit 7.
    pub fn of(first: u8) -> Master
        ensures { master_bit result ≡ first / 128 }
    {
        if first < 0x80 {
            Master::Secondary
        } else {
            Master::Primary
        }
    }
}

/// The address bytes of a frame: one byte with a polling address, or five with manufacturer, device type and identification
/// number.
#[derive(Clone, Copy, PartialEq, Eq, Debug)]
pub enum Address {
    Short([u8; 1]),
    Long([u8; 5]),
}

impl Address {
    /// The bytes as they stand in a frame.
    pub fn bytes(&self) -> &[u8]
        ensures value { result.now ≡ address_bytes self.now }
        ensures wide { width_of self.now ≡ length result.now }
    {
        match self {
            Address::Short(bytes) => bytes,
            Address::Long(bytes) => bytes,
        }
    }

    /// The master that the first byte tells.
    pub fn master(self) -> Master
        ensures { master_bit result ≡ slice_index (address_bytes self) 0 / 128 }
    {
        match self {
            Address::Short(bytes) => Master::of(bytes[0]),
            Address::Long(bytes) => Master::of(bytes[0]),
        }
    }
}

impl TryFrom<&[u8]> for Address {
    type Error = Refusal;

    ghost try_from_gives = { λ bytes result. numbered result ≡ address_of bytes.now };

    // One byte is a short address, five bytes are a long one.
    fn try_from(bytes: &[u8]) -> Result<Address, Refusal> {
        match bytes {
            [a] => Ok(Address::Short([*a])),
            [a, b, c, d, e] => Ok(Address::Long([*a, *b, *c, *d, *e])),
            _ => Err(Refusal::OutOfForm),
        }
    }
}

/// The parts of a frame.
#[derive(Clone, Copy)]
pub struct Frame<'a> {
    pub address: Address,
    pub command: u8,
    pub data: &'a [u8],
    pub check: u8,
}

/// The parts of a transmission, without start, count and check, which follow from them.
#[derive(Clone, Copy)]
pub struct Transmission<'a> {
    pub preambles: usize,
    pub address: Address,
    pub command: u8,
    pub data: &'a [u8],
}

/// The parts of a request that its sender chooses: any bytes are taken as the address, to be judged where it is made.
#[derive(Clone, Copy)]
pub struct RequestParts<'a> {
    pub preambles: usize,
    pub address: &'a [u8],
    pub command: u8,
    pub data: &'a [u8],
}

// The start bytes of a kind of frame.
#[derive(Clone, Copy)]
struct StartBytes {
    // With a short address.
    short: u8,
    // With a long one.
    long: u8,
}

const REQUEST: StartBytes = StartBytes {
    short: 0x02,
    long: 0x82,
};

const REPLY: StartBytes = StartBytes {
    short: 0x06,
    long: 0x86,
};

/// Every preamble is this byte, and no start byte is.
pub const PREAMBLE: u8 = 0xFF;

/// The preambles without which no transmission is heard.
pub const MIN_PREAMBLES: usize = 2;

// The most that are sent.
const MAX_PREAMBLES: usize = 20;

// The most data bytes that a count can tell.
const MAX_DATA: usize = 255;

#[cfg(test)]
mod tests {
    use super::*;
    use std::test::Fail;

    #[test]
    fn short_request_both_ways(rt: HostRuntime) -> Result<(), Fail> {
        let sent = [0xFF, 0xFF, 0x02, 0x81, 0x10, 0x00, 0x93];
        let request = read_request(&sent)?;
        assert_eq!(rt; request.preambles, 2);
        assert_eq!(rt; request.address.master(), Master::Primary);
        assert_eq!(rt; request.command, 16);
        assert_eq!(rt; request.data.len(), 0);
        let mut made = [0xA5; 8];
        let again = RequestParts {
            preambles: request.preambles,
            address: request.address.bytes(),
            command: request.command,
            data: request.data,
        };
        assert_eq!(rt; make_request(again, &mut made), Ok(7));
        assert_eq!(rt; made, [0xFF, 0xFF, 0x02, 0x81, 0x10, 0x00, 0x93, 0xA5]);
        Ok(())
    }

    #[test]
    fn refusals(rt: HostRuntime) {
        assert!(rt; read_request(&[0xFF, 0xFF, 0x02, 0x81, 0x10, 0x00, 0x92]).is_err());
        assert!(rt; read_request(&[0xFF, 0x02, 0x81, 0x10, 0x00, 0x93]).is_err());
        assert!(rt; read_request(&[0xFF, 0xFF, 0x02, 0x81, 0x10, 0x00, 0x93, 0x00]).is_err());
        let mut made = [0xA5; 6];
        let request = RequestParts {
            preambles: 2,
            address: &[0x81],
            command: 16,
            data: &[],
        };
        let led = RequestParts {
            preambles: 21,
            ..request
        };
        assert_eq!(rt; make_request(led, &mut made), Err(Refusal::OutOfForm));
        let wide = RequestParts {
            address: &[0x81, 0],
            ..request
        };
        assert_eq!(rt; make_request(wide, &mut made), Err(Refusal::OutOfForm));
        assert_eq!(rt; make_request(request, &mut made), Err(Refusal::ShortBuffer));
        assert_eq!(rt; made, [0xA5; 6]);
    }
}
