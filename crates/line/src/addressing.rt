//! Whom a request means.

ghost use Rattle.std.specs.Prelude.{◌≡◌};
ghost use Rattle.frame.specs.Views.{address_bytes, frame_parts};
ghost use Rattle.line.specs.Addressing.{addresses?, tag_means?, means?};
ghost use Rattle.line.specs.Views.{seen};

use crate::commands::Command;
use crate::requests::Request;
use frame::{Address, Frame};
use record::{Fields, Identity, Record, TAG};

/// The manufacturer in a long address.
pub(crate) const MANUFACTURER: u8 = 10;

/// What stands behind the first byte of the address of every channel.
const EVERY_CHANNEL: Identity = Identity {
    device_type: 0,
    identification: 0,
};

/// Whether a request's frame, as received, means the channel with this record.
pub fn means(frame: Frame<'_>, record: &Record) -> bool
    ensures { result ≡ means? (frame_parts frame.entry) «record».now }
{
    address_means(frame.address, record.fields)
        && tag_means(Request::of(frame.command, frame.data), &record.text[TAG])
}

/// Whether a request means, of the addressed channels, one with this tag.
pub fn tag_means(request: Request<'_>, tag: &[u8]) -> bool
    ensures { result ≡ tag_means? (seen request.entry) tag.now }
{
    match request {
        Request::TagQuestion(asked) => asked == tag,
        Request::Bare(number) => number != Command::ReadUniqueIdentifierByTag.number(),
        _ => true,
    }
}

/// Whether an address means a channel with these fields.
pub fn address_means(address: Address, fields: Fields) -> bool
    ensures { result ≡ addresses? (address_bytes address) fields }
{
    match address.bytes() {
        [first] => *first / 16 % 8 == 0 && *first % 16 == fields.polling_address,
        [first, device_type, a, b, c] => {
            let named = Identity {
                device_type: *device_type,
                identification: u32::from_be_bytes([0, *a, *b, *c]),
            };
            (*first % 128 == MANUFACTURER && named == fields.identity())
                || (*first % 128 == 0 && named == EVERY_CHANNEL)
        }
        _ => false,
    }
}
